// The best documents of a query.
ghost use Rattle.std.specs.Prelude.{◌≡◌, ◌<◌, ◌≤◌, ◌-◌, ◌^◌, ◌⊎◌, ◌&&◌, ◌==◌, ◌∷◌, ℕ, List, [], IfErr, IfOk, None, Some, bytes_eq, count_by, filter, get_or, length, map, min, true};
ghost use Rattle.std.specs.List.{All, Contains, range_with_len, sum_by};
ghost use Rattle.ii_base.specs.Options.{has_freq};
ghost use Rattle.ii_base.specs.declared.schema.value_type.ValueType.TheVariants.{Str};
ghost use Rattle.ii_bm25.specs.Bm25.{bm25_score, bm25_weight};
ghost use Rattle.ii_bm25.specs.Statistics.{idfs_of};
ghost use Rattle.ii_definitions.specs.Fields.{option_of};
ghost use Rattle.ii_definitions.specs.IndexCalls.{MayAllBeIndexed, call_of};
ghost use Rattle.ii_definitions.specs.Norms.{has_norms};
ghost use Rattle.ii_definitions.specs.Tokens.{IndexToken, tokens_of};
ghost use Rattle.ii_fieldnorm.specs.Norms.{id_of_norm};
ghost use Rattle.ii_indexing.specs.RamFiles.{IsRamFault};
ghost use Rattle.ii_indexing.specs.Refusals.{calls_fault};
ghost use Rattle.ii_query_parser.specs.Queries.{has_fields, keeps_positions, matches};
ghost use Rattle.ii_ranking.specs.Scores.{query_score, scored_in, term_score};
ghost use Rattle.ii_ranking.specs.Statistics.{statistics_of};
ghost use Rattle.ii_ranking.specs.TokenScores.{token_score};
ghost use Rattle.ii_base.specs.Schema.{SchemaEntry};
ghost use Rattle.ii_ranking.specs.Segments.{segment_of};
ghost use Rattle.ii_ranking.specs.declared.shares.Share.{Share};
ghost use Rattle.ii_segment_search.specs.Searcher.{HaveFields, MayAsk, Reaches, SegmentsHold, total_living};
ghost use Rattle.ii_segments.specs.Segments.{Segment, index_tokens, num_docs_of, type_of_field};

use ii_prepared_term::{PreparedQuery, PreparedTerm};
use ii_ram::{DocId, Fault, IndexCall, OpenIndex, Query, Schema, Term, TextAnalyzer, index_in_ram};
use ii_ranking::laws::segments_score_as_one;
use ii_ranking::{
    GatheredStatistics, RankedSegment, Score, Share, TopDocs, explain, score_docs, search,
    search_segments, shares_add_up,
};
use std::alloc::Global;

/// A search returns at most as many documents as are wanted, and those with the greatest scores come first: no
/// document has a greater score than one before it, and of documents with the same score the smaller one comes first.
#[tactic(auto, using(crate::proofs::RankingLaws::best_in_order, crate::proofs::RankingLaws::ties_in_order))]
pub fn the_best_come_first(
    alloc: Global,
    index: &OpenIndex,
    num_docs: DocId,
    statistics: &GatheredStatistics,
    query: &Query,
    limit: usize,
) -> Result<Vec<(Score, DocId)>, Fault>
    requires { has_fields (length index.now.readers) query.now ≡ true }
    ensures few { IfOk result (λ best. length best.items ≤ limit) }
    ensures order { IfOk result (λ best. (i j : ℕ) → i ≤ j → j < length best.items → (get_or best.items j (0, 0)).0 ≤ (get_or best.items i (0, 0)).0) }
    ensures ties { IfOk result (λ best. (i j : ℕ) → i ≤ j → j < length best.items → (get_or best.items j (0, 0)).0 ≡ (get_or best.items i (0, 0)).0 → (get_or best.items i (0, 0)).1 ≤ (get_or best.items j (0, 0)).1) }
{
    let docs = TopDocs::with_limit(limit);
    search(alloc, index, num_docs, statistics, query, &docs)
}

/// A term that is prepared gives the best of its documents: at most as many as are wanted, the greatest score first, and
/// of equal ones the smaller document. Each is returned with its score, and no document of the term that isn't returned
/// has a greater score than one that is.
pub fn the_best_of_a_term_come_first(
    alloc: Global,
    index: &OpenIndex,
    num_docs: DocId,
    statistics: &GatheredStatistics,
    term: &Term,
    limit: usize,
) -> Result<Vec<(Score, DocId)>, Fault>
    requires { term.now.field < length index.now.readers }
    ensures few { IfOk result (λ best. length best.items ≤ limit) }
    ensures order { IfOk result (λ best. (i j : ℕ) → i ≤ j → j < length best.items → (get_or best.items j (0, 0)).0 ≤ (get_or best.items i (0, 0)).0) }
    ensures ties { IfOk result (λ best. (i j : ℕ) → i ≤ j → j < length best.items → (get_or best.items j (0, 0)).0 ≡ (get_or best.items i (0, 0)).0 → (get_or best.items i (0, 0)).1 ≤ (get_or best.items j (0, 0)).1) }
    ensures scores { IfOk result (λ best. All (λ (b : ℕ × ℕ). (b.1 < num_docs) × (term_score (scored_in index.now (statistics_of statistics.now)) term.now b.1 ≡ Some b.0)) best.items) }
    ensures greatest { IfOk result (λ best. (doc score : ℕ) → doc < num_docs → term_score (scored_in index.now (statistics_of statistics.now)) term.now doc ≡ Some score
        → Contains best.items (score, doc) ⊎ All (λ (b : ℕ × ℕ). score ≤ b.0) best.items) }
{
    let prepared = PreparedTerm::open(alloc, index, statistics, term)?;
    let docs = TopDocs::with_limit(limit);
    prepared.search(alloc, num_docs, &docs)
}

/// A query that is prepared gives the best of the documents that match it: at most as many as are wanted, the greatest score
/// first, and of equal ones the smaller document. Each is returned with its score, and no document that matches and isn't
/// returned has a greater score than one that is.
pub fn the_best_of_a_prepared_query_come_first(
    alloc: Global,
    index: &OpenIndex,
    num_docs: DocId,
    statistics: &GatheredStatistics,
    query: &Query,
    limit: usize,
) -> Result<Vec<(Score, DocId)>, Fault>
    requires { has_fields (length index.now.readers) query.now ≡ true }
    ensures few { IfOk result (λ best. length best.items ≤ limit) }
    ensures order { IfOk result (λ best. (i j : ℕ) → i ≤ j → j < length best.items → (get_or best.items j (0, 0)).0 ≤ (get_or best.items i (0, 0)).0) }
    ensures ties { IfOk result (λ best. (i j : ℕ) → i ≤ j → j < length best.items → (get_or best.items j (0, 0)).0 ≡ (get_or best.items i (0, 0)).0 → (get_or best.items i (0, 0)).1 ≤ (get_or best.items j (0, 0)).1) }
    ensures scores { IfOk result (λ best. All (λ (b : ℕ × ℕ). (b.1 < num_docs) × (query_score (scored_in index.now (statistics_of statistics.now)) query.now b.1 ≡ Some b.0)) best.items) }
    ensures greatest { IfOk result (λ best. (doc score : ℕ) → doc < num_docs → query_score (scored_in index.now (statistics_of statistics.now)) query.now doc ≡ Some score
        → Contains best.items (score, doc) ⊎ All (λ (b : ℕ × ℕ). score ≤ b.0) best.items) }
{
    let prepared = PreparedQuery::open(alloc, index, statistics, query)?;
    let docs = TopDocs::with_limit(limit);
    prepared.search(alloc, num_docs, &docs)
}

/// For any index calls, the best documents of a query are those of the tokens: each is returned with the score that
/// the tokens alone give; as many are returned as match, but at most `limit`; and no document that isn't returned has
/// a greater score than one that is. This fails only for the reasons for which indexing fails.
pub fn the_best_score_by_their_tokens<A: TextAnalyzer>(
    alloc: Global,
    schema: Schema,
    num_docs: DocId,
    calls: Vec<IndexCall>,
    analyzer: &A,
    statistics: &GatheredStatistics,
    query: &Query,
    limit: usize,
) -> Result<Vec<(Score, DocId)>, Fault>
    requires docs { num_docs ≤ 2147483647 }
    requires calls { MayAllBeIndexed schema num_docs calls.items }
    requires fields { has_fields (length schema) query.now ≡ true }
    requires positions { keeps_positions schema query.now ≡ true }
    ensures scores { IfOk result (λ best. All (λ (b : ℕ × ℕ). (b.1 < num_docs)
        × (token_score schema (tokens_of (A.words analyzer.now) (map (call_of schema) calls.items)) (statistics_of statistics.now) query.now b.1 ≡ Some b.0)) best.items) }
    ensures many { IfOk result (λ best. length best.items ≡ min limit (length (filter (matches query.now (tokens_of (A.words analyzer.now) (map (call_of schema) calls.items))) (range_with_len 0 num_docs)))) }
    ensures greatest { IfOk result (λ best. (doc score : ℕ) → doc < num_docs
        → token_score schema (tokens_of (A.words analyzer.now) (map (call_of schema) calls.items)) (statistics_of statistics.now) query.now doc ≡ Some score
        → Contains best.items (score, doc) ⊎ All (λ (b : ℕ × ℕ). score ≤ b.0) best.items) }
    ensures fault { calls_fault (A.words analyzer.now) (option_of schema) [] (map (call_of schema) calls.items) ≡ None
        → IfErr result (λ e. (e ≡ Fault.OutOfMemory) ⊎ IsRamFault schema num_docs (tokens_of (A.words analyzer.now) (map (call_of schema) calls.items)) e) }
{
    let docs = TopDocs::with_limit(limit);
    match index_in_ram(alloc, schema, num_docs, calls, analyzer) {
        Ok(index) => search(alloc, &index, num_docs, statistics, query, &docs),
        Err(fault) => Err(fault),
    }
}

/// A word's score in a document is BM25 of how often the document has the word, and of its number of tokens in the
/// field. The field is one of texts, with counts and norms.
pub fn a_word_scores_by_its_count<A: TextAnalyzer>(
    alloc: Global,
    schema: Schema,
    num_docs: DocId,
    calls: Vec<IndexCall>,
    analyzer: &A,
    statistics: &GatheredStatistics,
    word: Term,
    limit: usize,
) -> Result<Vec<(Score, DocId)>, Fault>
    requires docs { num_docs ≤ 2147483647 }
    requires calls { MayAllBeIndexed schema num_docs calls.items }
    requires field { word.field < length schema }
    requires texts { type_of_field schema word.field ≡ Str }
    requires counts { has_freq (option_of schema word.field) ≡ true }
    requires norms { has_norms schema word.field ≡ true }
    ensures scores { IfOk result (λ best. All (λ (b : ℕ × ℕ). b.0 ≡ bm25_score (bm25_weight (idfs_of (statistics_of statistics.now) (word ∷ [])) (statistics_of statistics.now).num_docs ((statistics_of statistics.now).num_tokens word.field))
        (id_of_norm (count_by (λ (t : IndexToken). (t.doc == b.1) && (t.field == word.field)) (tokens_of (A.words analyzer.now) (map (call_of schema) calls.items))))
        (count_by (λ (t : IndexToken). (t.doc == b.1) && ((t.field == word.field) && bytes_eq t.key word.value)) (tokens_of (A.words analyzer.now) (map (call_of schema) calls.items)))) best.items) }
{
    let query = Query::Term(word);
    let found = the_best_score_by_their_tokens(
        alloc, schema, num_docs, calls, analyzer, statistics, &query, limit,
    );
    drop(query);
    found
}

/// The best documents of segments that hold tokens are those of one index of all their living documents: each is
/// returned with the score that the tokens of all segments give; as many are returned as match, but at most `limit`;
/// and no document that isn't returned has a greater score than one that is.
pub fn segments_are_ranked_as_one_index(
    alloc: Global,
    segments: &[RankedSegment<'_>],
    statistics: &GatheredStatistics,
    query: &Query,
    limit: usize,
) -> Result<Vec<(Score, DocId)>, Fault>
    requires fields { HaveFields query.now (map segment_of segments.now) }
    requires few { total_living (map segment_of segments.now) < 2 ^ 32 }
    ensures scores { (schema : List SchemaEntry) (ss : List Segment) → SegmentsHold schema (map segment_of segments.now) ss → MayAsk schema query.now → Reaches query.now ss
        → IfOk result (λ best. All (λ (b : ℕ × ℕ). (b.1 < num_docs_of ss) × (token_score schema (index_tokens ss) (statistics_of statistics.now) query.now b.1 ≡ Some b.0)) best.items) }
    ensures many { (schema : List SchemaEntry) (ss : List Segment) → SegmentsHold schema (map segment_of segments.now) ss → MayAsk schema query.now → Reaches query.now ss
        → IfOk result (λ best. length best.items ≡ min limit (length (filter (matches query.now (index_tokens ss)) (range_with_len 0 (num_docs_of ss))))) }
    ensures greatest { (schema : List SchemaEntry) (ss : List Segment) → SegmentsHold schema (map segment_of segments.now) ss → MayAsk schema query.now → Reaches query.now ss
        → IfOk result (λ best. (doc score : ℕ) → doc < num_docs_of ss → token_score schema (index_tokens ss) (statistics_of statistics.now) query.now doc ≡ Some score
        → Contains best.items (score, doc) ⊎ All (λ (b : ℕ × ℕ). score ≤ b.0) best.items) }
    ensures fault { (schema : List SchemaEntry) (ss : List Segment) → SegmentsHold schema (map segment_of segments.now) ss → MayAsk schema query.now → IfErr result (λ e. e ≡ Fault.OutOfMemory) }
{
    segments_score_as_one();
    let docs = TopDocs::with_limit(limit);
    search_segments(alloc, segments, statistics, query, &docs)
}

/// The shares of a document add up to the score that `score_docs` gives it, at most 2^64 - 1. They add up to 0 where it
/// has no score.
pub fn the_shares_add_up_to_the_score<'q>(
    alloc: Global,
    index: &OpenIndex,
    num_docs: DocId,
    statistics: &GatheredStatistics,
    query: &'q Query,
    doc: DocId,
) -> Result<(Score, Vec<Share<'q>>), Fault>
    requires fields { has_fields (length index.now.readers) query.now ≡ true }
    requires doc { doc < num_docs }
    ensures { IfOk result (λ r. r.0 ≡ min (2 ^ 64 - 1) (sum_by (λ (s : Share). s.score) r.1.items)) }
{
    shares_add_up();
    let scores = score_docs(alloc, index, num_docs, statistics, query)?;
    let score = scores[doc as usize];
    drop(scores);
    let shares = explain(alloc, index, statistics, query, doc)?;
    match score {
        Some(score) => Ok((score, shares)),
        None => Ok((0, shares)),
    }
}
