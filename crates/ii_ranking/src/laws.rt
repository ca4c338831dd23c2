//! Laws of all indexes and queries.
ghost use Rattle.ii_ranking.specs.OneIndex.{ScoresAreLocal, SegmentsScoreAsOne};
ghost use Rattle.ii_ranking.specs.Shares.{ScoredHaveShares, SharesAddUp};
ghost use Rattle.ii_ranking.specs.TokenCounts.{MatchesScore, PhrasesScoreByStarts, StartsAreExact, TermsScoreByCounts};
ghost use Rattle.ii_ranking.specs.TokenScores.{ScoresAreOfTokens};

/// Law of scores: in an index that holds tokens, each document scores what the tokens alone say: for a term or a
/// phrase by how often it occurs in the document, and by the document's number of tokens in the field.
pub fn scores_are_of_tokens()
    ensures { ScoresAreOfTokens }
{}

/// Law of counts, for tokens in the order of their documents: a document scores by a term as often as it has the
/// term's tokens, and by a phrase as often as the phrase begins in it within its slop; and it has a score if and only
/// if it matches. With slop 0 a phrase begins where each other term occurs at its distance.
pub fn scores_count_tokens()
    ensures terms { TermsScoreByCounts }
    ensures phrases { PhrasesScoreByStarts }
    ensures exact { StartsAreExact }
    ensures matches { MatchesScore }
{}

/// Law of segments that hold tokens: by the tokens of all segments, each living document scores what it scores by
/// those of its own segment. So the documents of segments that have a score, each with it, are exactly those of one
/// index of all their living documents.
pub fn segments_score_as_one()
    ensures local { ScoresAreLocal }
    ensures same { SegmentsScoreAsOne }
{}

/// Law of shares: the shares of a document add up to its score, and it has shares if and only if it has a score.
pub fn shares_add_up()
    ensures sum { SharesAddUp }
    ensures some { ScoredHaveShares }
{}
