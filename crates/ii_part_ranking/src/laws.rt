//! The laws of the scores in a small index that has what ranking by a query reads of another one.
ghost use Rattle.ii_part_ranking.specs.PartScores.{PartsAreDamagedTheSame, PartsScoreTheSame};
ghost use Rattle.ii_part_ranking.specs.PartStatistics.{PartsCountTheSame};

/// Law: in an index that has of each field of another one the terms that a query reads, each as far as the query
/// requests it, and the norms of the fields that the query names (`ii_warmup::warm_up` with `EnableScoring::Enabled`
/// gives one), each document scores what it scores in the other index by the same numbers, and the first damage of what
/// the scores need is the same.
pub fn parts_score_the_same()
    ensures scores { PartsScoreTheSame }
    ensures damage { PartsAreDamagedTheSame }
{}

/// Law: segments that have of each field of other ones the terms that a query reads, and in which the same documents are
/// alive, have as many living documents, and as many that have each term of the query, as the other ones. How many tokens
/// their fields have is in each the same (*IsPartOf*).
pub fn parts_count_the_same()
    ensures { PartsCountTheSame }
{}
