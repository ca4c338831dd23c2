// The best documents of an index in a directory.
ghost use Rattle.std.specs.Prelude.{◌≡◌, ◌+◌, ◌<◌, ◌≤◌, ◌⊎◌, ℕ, List, [], IfSome, Some, filter, get_or, length, min, true};
ghost use Rattle.std.specs.List.{All, Contains, range_with_len};
ghost use Rattle.ii_base.specs.Schema.{SchemaEntry};
ghost use Rattle.ii_base.specs.declared.doc_id.TheConstants.{TERMINATED};
ghost use Rattle.ii_definitions.specs.Tokens.{IndexToken};
ghost use Rattle.ii_index.specs.Ranking.{SearcherHolds};
ghost use Rattle.ii_index.specs.Pending.{HasPending};
ghost use Rattle.ii_index.specs.Segments.{HoldsIndexOf, with_tokens};
ghost use Rattle.ii_index.specs.Statistics.{token_statistics};
ghost use Rattle.ii_query_parser.specs.Queries.{covers_docs, has_fields, keeps_positions, matches};
ghost use Rattle.ii_ranking.specs.TokenScores.{token_score};
ghost use Rattle.ii_scorer.specs.TopDocs.{AreBest, scored_docs};
ghost use Rattle.ii_segment_search.specs.Searcher.{MayAsk};

use ii_index::{Directory, DocId, IndexReader, IndexWriter, Query, Score, TopDocs};
use std::alloc::Global;

/// After a commit the best documents of an index are those of the documents that it had and that were added, by their
/// tokens alone: each is returned with the score that these tokens give; as many are returned as match, but at most
/// `limit`; no document has a greater score than one before it; and no document that isn't returned has a greater score
/// than one that is.
pub fn the_best_of_an_index_come_first<D: Directory + Drop>(
    alloc: Global,
    writer: &mut IndexWriter<D>,
    query: &Query,
    limit: usize,
) -> Option<Vec<(Score, DocId)>>
    requires known { D.is_known writer.old.index.directory }
    requires none { writer.old.deletes ≡ [] }
    requires fields { has_fields (length writer.old.index.schema.schema) query.now ≡ true }
    requires positions { keeps_positions writer.old.index.schema.schema query.now ≡ true }
    requires covers { covers_docs TERMINATED query.now ≡ true }
    ensures scores { (k : ℕ) (vs : List IndexToken) → HasPending (D.seen writer.old.index.directory) writer.old k vs → (n : ℕ) (ts : List IndexToken) → HoldsIndexOf writer.old.index.schema.schema (D.seen writer.old.index.directory) n ts → IfSome result (λ best. All (λ (b : ℕ × ℕ). (b.1 < n + k)
        × (token_score writer.old.index.schema.schema (with_tokens n ts vs)
        (token_statistics (n + k) (with_tokens n ts vs)) query.now b.1 ≡ Some b.0)) best.items) }
    ensures many { (k : ℕ) (vs : List IndexToken) → HasPending (D.seen writer.old.index.directory) writer.old k vs → (n : ℕ) (ts : List IndexToken) → HoldsIndexOf writer.old.index.schema.schema (D.seen writer.old.index.directory) n ts → IfSome result (λ best. length best.items
        ≡ min limit (length (filter (matches query.now (with_tokens n ts vs)) (range_with_len 0 (n + k))))) }
    ensures order { (k : ℕ) (vs : List IndexToken) → HasPending (D.seen writer.old.index.directory) writer.old k vs → (n : ℕ) (ts : List IndexToken) → HoldsIndexOf writer.old.index.schema.schema (D.seen writer.old.index.directory) n ts
        → IfSome result (λ best. (i j : ℕ) → i ≤ j → j < length best.items → (get_or best.items j (0, 0)).0 ≤ (get_or best.items i (0, 0)).0) }
    ensures greatest { (k : ℕ) (vs : List IndexToken) → HasPending (D.seen writer.old.index.directory) writer.old k vs → (n : ℕ) (ts : List IndexToken) → HoldsIndexOf writer.old.index.schema.schema (D.seen writer.old.index.directory) n ts → IfSome result (λ best. (doc score : ℕ) → doc < n + k
        → token_score writer.old.index.schema.schema (with_tokens n ts vs)
        (token_statistics (n + k) (with_tokens n ts vs)) query.now doc ≡ Some score
        → Contains best.items (score, doc) ⊎ All (λ (b : ℕ × ℕ). score ≤ b.0) best.items) }
{
    let Ok(()) = writer.commit(alloc) else {
        return None;
    };
    let Ok(reader) = writer.index().reader(alloc) else {
        return None;
    };
    best_of(alloc, &reader, query, limit)
}

// Returns the best documents of a reader.
pub(crate) fn best_of(
    alloc: Global,
    reader: &IndexReader,
    query: &Query,
    limit: usize,
) -> Option<Vec<(Score, DocId)>>
    requires fields { has_fields reader.now.num_fields query.now ≡ true }
    requires covers { covers_docs TERMINATED query.now ≡ true }
    ensures { (entries : List SchemaEntry) (n : ℕ) (ts : List IndexToken) → SearcherHolds entries reader.now n ts → MayAsk entries query.now
        → IfSome result (λ best. AreBest (record { limit = limit; offset = 0 }) (scored_docs n (token_score entries ts (token_statistics n ts) query.now)) best.items) }
{
    let docs = TopDocs::with_limit(limit);
    let Ok(best) = reader.searcher().top_docs(alloc, query, &docs) else {
        return None;
    };
    Some(best)
}
