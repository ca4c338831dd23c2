//! Lines with keys, whose documents replace those that have the same keys.
ghost use Rattle.std.specs.Prelude.{◌≡◌, ◌<◌, ◌∷◌, [], IfSome, IsTrue, List, length, map, ℕ};
ghost use Rattle.ii_base.specs.Schema.{SchemaEntry};
ghost use Rattle.ii_folder_promises.specs.Replacing.{HoldsReplaced, HoldsTwo, byte_line, byte_term};

use ii_base::{DocId, Term};
use ii_segment_store::{commit_changes, load_segments};
use ii_store::Directory;
use ii_tokenizers::FieldAnalyzers;
use nequllpa_indexing::{Documents, KeyedLines};
use nequllpa_opening::OpenedIndex;
use nequllpa_searching::docs_with_keys;
use std::alloc::Global;

/// Three lines with the keys `b`, `c` and `b` replace the second of two documents, of which the first has the key `a`
/// and the second the key `b`: the index has the first document, and then exactly those of the second and third line.
pub fn documents_with_the_same_key_are_replaced<D: Directory, F: FieldAnalyzers>(
    alloc: Global,
    directory: &mut D,
    documents: Documents,
    analyzers: &F,
    lines: KeyedLines,
) -> bool
    requires known { D.is_known directory.old }
    requires some { 0 < length documents.schema }
    ensures { (schema first second third : List ℕ) → HoldsTwo documents.schema schema (D.seen directory.old) → lines ≡ record { field = 0; lines = byte_line 98 first ∷ byte_line 99 second ∷ byte_line 98 third ∷ [] }
        → IsTrue result → HoldsReplaced documents.schema schema (F.words analyzers.now) documents (second ∷ third ∷ []) (D.seen directory.new) }
{
    let mut documents = documents;
    let Ok(keys) = lines.add_to(alloc, &mut documents) else {
        return false;
    };
    let Some(replaced) = documents_with(alloc, directory, keys.as_slice()) else {
        return false;
    };
    let Ok(segment) = documents.into_segment(alloc, analyzers) else {
        return false;
    };
    let Ok(()) = commit_changes(alloc, directory, replaced.as_slice(), Some(&segment)) else {
        return false;
    };
    true
}

// Returns the documents of an index that have one of some keys, segment by segment.
fn documents_with<D: Directory>(
    alloc: Global,
    directory: &D,
    keys: &[Term],
) -> Option<Vec<Vec<DocId>>>
    requires { D.is_known directory.now }
    ensures { (entries : List SchemaEntry) (schema : List ℕ) → HoldsTwo entries schema (D.seen directory.now) → 0 < length entries → keys.now ≡ byte_term 99 ∷ byte_term 98 ∷ []
        → IfSome result (λ docs. map (λ v. v.items) docs.items ≡ (1 ∷ []) ∷ []) }
{
    let Ok(stored) = load_segments(alloc, directory) else {
        return None;
    };
    let Ok(opened) = OpenedIndex::open(alloc, stored) else {
        return None;
    };
    let docs = docs_with_keys(alloc, &opened, keys);
    drop(opened);
    match docs {
        Ok(docs) => Some(docs),
        Err(_) => None,
    }
}
