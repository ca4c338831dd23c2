// An index in a directory, to which documents are added.
ghost use Rattle.std.specs.Prelude.{◌≡◌, ◌⊎◌, ◌+◌, ◌++◌, ◌<◌, ◌≤◌, ℕ, [], ◌∷◌, IfErr, IfSome, IsTrue, List, None, Ok, length, true};
ghost use Rattle.ii_base.specs.Terms.{TermState};
ghost use Rattle.ii_definitions.specs.Tokens.{IndexToken};
ghost use Rattle.ii_directory.specs.Directory.{Files};
ghost use Rattle.ii_directory.specs.declared.name.Name.TheVariants.{Meta, Segment};
ghost use Rattle.ii_directory.specs.declared.name.SegmentComponent.TheVariants.{Terms};
ghost use Rattle.ii_store.specs.Segments.{list_in};
ghost use Rattle.ii_index.specs.Faults.{IsRefusedError};
ghost use Rattle.ii_index.specs.Index.{HasNothing, num_pending};
ghost use Rattle.ii_index.specs.Pending.{HasPending, document_tokens};
ghost use Rattle.ii_index.specs.Segments.{HoldsIndexOf};

use ii_index::{Directory, Index, IndexError, IndexWriter, Term, WritableDirectory};
use std::alloc::Global;

/// Two documents that are added to a new index and committed are all documents of the index, in whatever directory,
/// and however much memory they may take before.
pub fn committed_documents_are_counted<D: WritableDirectory + Drop>(
    alloc: Global,
    directory: D,
    memory_budget: usize,
    schema: &str,
    first: &str,
    second: &str,
) -> Option<u32>
    requires { D.is_known directory }
    ensures { IfSome result (λ n. n ≡ 2) }
{
    let Some(writer) = with_two(alloc, directory, memory_budget, schema, first, second) else {
        return None;
    };
    number_committed(alloc, writer)
}

/// Two documents that are committed to an index without documents are in it under 0 and 1, each with the tokens of its
/// own text: here the word `a` of the first, and the word `b` of the second.
pub fn committed_texts_have_their_tokens<D: Directory + Drop>(
    alloc: Global,
    writer: IndexWriter<D>,
    first: &str,
    second: &str,
) -> Option<Index<D>>
    requires known { D.is_known writer.index.directory }
    requires nothing { HasNothing writer }
    requires empty { HoldsIndexOf writer.index.schema.schema (D.seen writer.index.directory) 0 [] }
    requires first { document_tokens writer.index.schema 0 first.now ≡ (record { doc = 0; field = 0; key = 97 ∷ []; position = 0; of_text = true }) ∷ [] }
    requires second { document_tokens writer.index.schema 1 second.now ≡ (record { doc = 1; field = 0; key = 98 ∷ []; position = 0; of_text = true }) ∷ [] }
    ensures { IfSome result (λ index. HoldsIndexOf index.schema.schema (D.seen index.directory) 2
        ((record { doc = 0; field = 0; key = 97 ∷ []; position = 0; of_text = true }) ∷ (record { doc = 1; field = 0; key = 98 ∷ []; position = 0; of_text = true }) ∷ [])) }
{
    let Some(one) = with_document(alloc, writer, first) else {
        return None;
    };
    let Some(two) = with_document(alloc, one, second) else {
        return None;
    };
    let mut two = two;
    let Ok(()) = two.commit(alloc) else {
        return None;
    };
    Some(two.into_index())
}

/// The texts of the documents in memory have fewer bytes than they may, after each document that is added.
pub fn memory_is_kept<D: Directory + Drop>(
    alloc: Global,
    writer: &mut IndexWriter<D>,
    document: &str,
) -> bool
    requires { 0 < writer.old.max_bytes }
    ensures { IsTrue result → writer.new.num_bytes < writer.new.max_bytes }
{
    let Ok(()) = writer.add_document(alloc, document) else {
        return false;
    };
    true
}

/// An index in a directory that refuses no call is never refused one: neither when it is changed nor when it is read.
pub fn obeyed_indexes_are_never_refused<D: Directory + Drop>(
    alloc: Global,
    writer: &mut IndexWriter<D>,
) -> Result<u32, IndexError>
    requires known { D.is_known writer.old.index.directory }
    requires obeys { D.may_refuse writer.old.index.directory → ⊥ }
    ensures never { IfErr result (λ e. IsRefusedError e → ⊥) }
    ensures still { D.may_refuse writer.new.index.directory → ⊥ }
{
    match writer.commit(alloc) {
        Ok(()) => {}
        Err(fault) => return Err(fault),
    }
    match writer.merge(alloc, 0) {
        Ok(()) => {}
        Err(fault) => return Err(fault),
    }
    match writer.garbage_collect_files(alloc) {
        Ok(_) => {}
        Err(fault) => return Err(fault),
    }
    match writer.index().reader(alloc) {
        Ok(reader) => Ok(reader.searcher().num_docs()),
        Err(fault) => Err(fault),
    }
}

/// A file that a stop left of a segment, which the list of an index without segments doesn't have, is removed. Its list
/// is kept.
pub fn left_files_are_removed<D: Directory + Drop>(
    alloc: Global,
    writer: &mut IndexWriter<D>,
) -> bool
    requires known { D.is_known writer.old.index.directory }
    requires list { list_in (D.seen writer.old.index.directory Meta) ≡ Ok (record { generation = 5; next_segment_id = 3; schema = []; segments = [] }) }
    ensures removed { IsTrue result → D.seen writer.new.index.directory (Segment 3 Terms) ≡ None }
    ensures kept { IsTrue result → D.seen writer.new.index.directory Meta ≡ D.seen writer.old.index.directory Meta }
{
    let Ok(_) = writer.garbage_collect_files(alloc) else {
        return false;
    };
    true
}

// Returns the number of documents of an index after a commit.
fn number_committed<D: Directory + Drop>(alloc: Global, writer: IndexWriter<D>) -> Option<u32>
    requires known { D.is_known writer.index.directory }
    requires empty { HoldsIndexOf writer.index.schema.schema (D.seen writer.index.directory) 0 [] }
    requires two { (us : List IndexToken) × HasPending (D.seen writer.index.directory) writer 2 us }
    requires none { writer.deletes ≡ [] }
    ensures { IfSome result (λ n. n ≡ 2) }
{
    let mut writer = writer;
    let Ok(()) = writer.commit(alloc) else {
        return None;
    };
    let Ok(reader) = writer.index().reader(alloc) else {
        return None;
    };
    Some(reader.searcher().num_docs())
}

// Returns a writer of a new index, to which two documents were added.
fn with_two<D: WritableDirectory + Drop>(
    alloc: Global,
    directory: D,
    memory_budget: usize,
    schema: &str,
    first: &str,
    second: &str,
) -> Option<IndexWriter<D>>
    requires { D.is_known directory }
    ensures known { IfSome result (λ w. D.is_known w.index.directory) }
    ensures empty { IfSome result (λ w. HoldsIndexOf w.index.schema.schema (D.seen w.index.directory) 0 []) }
    ensures two { IfSome result (λ w. (us : List IndexToken) × HasPending (D.seen w.index.directory) w 2 us) }
    ensures none { IfSome result (λ w. w.deletes ≡ []) }
{
    let Ok(index) = Index::create(alloc, directory, schema) else {
        return None;
    };
    let Ok(writer) = index.writer(alloc, memory_budget) else {
        return None;
    };
    let Some(writer) = with_document(alloc, writer, first) else {
        return None;
    };
    with_document(alloc, writer, second)
}

// Returns a writer to which one more document was added: one more is pending, with the tokens of its text, and the index
// is the same.
fn with_document<D: Directory + Drop>(
    alloc: Global,
    writer: IndexWriter<D>,
    document: &str,
) -> Option<IndexWriter<D>>
    requires { D.is_known writer.index.directory }
    ensures known { IfSome result (λ w. D.is_known w.index.directory) }
    ensures schema { IfSome result (λ w. w.index.schema ≡ writer.index.schema) }
    ensures index { (k : ℕ) (us : List IndexToken) → HasPending (D.seen writer.index.directory) writer k us → (n : ℕ) (ts : List IndexToken) → HoldsIndexOf writer.index.schema.schema (D.seen writer.index.directory) n ts
        → IfSome result (λ w. HoldsIndexOf w.index.schema.schema (D.seen w.index.directory) n ts) }
    ensures pending { (k : ℕ) (us : List IndexToken) → HasPending (D.seen writer.index.directory) writer k us → IfSome result (λ w. HasPending (D.seen w.index.directory) w (k + 1) (us ++ document_tokens writer.index.schema k document.now)) }
    ensures many { IfSome result (λ w. num_pending w ≡ num_pending writer + 1) }
    ensures deletes { IfSome result (λ w. w.deletes ≡ writer.deletes) }
{
    let mut writer = writer;
    let Ok(()) = writer.add_document(alloc, document) else {
        return None;
    };
    Some(writer)
}

/// Of two committed documents, of which the first has the word `a` and the second the word `b`, the second is deleted
/// once its word is: by the next commit. Wherever that is stopped, both are there or the first alone.
pub fn documents_with_a_term_are_deleted<D: Directory + Drop>(
    alloc: Global,
    writer: &mut IndexWriter<D>,
) -> bool
    requires known { D.is_known writer.old.index.directory }
    requires pending { HasPending (D.seen writer.old.index.directory) writer.old 0 [] }
    requires delete { writer.old.deletes ≡ (record { term = record { field = 0; value = 98 ∷ [] }; num_pending = 0 }) ∷ [] }
    requires two { HoldsIndexOf writer.old.index.schema.schema (D.seen writer.old.index.directory) 2
        ((record { doc = 0; field = 0; key = 97 ∷ []; position = 0; of_text = true }) ∷ (record { doc = 1; field = 0; key = 98 ∷ []; position = 0; of_text = true }) ∷ []) }
    ensures one { IsTrue result → HoldsIndexOf writer.old.index.schema.schema (D.seen writer.new.index.directory) 1 ((record { doc = 0; field = 0; key = 97 ∷ []; position = 0; of_text = true }) ∷ []) }
    ensures stopped { (files : Files) → D.left_since writer.new.index.directory (D.moment writer.old.index.directory) files
        → HoldsIndexOf writer.old.index.schema.schema files 2
        ((record { doc = 0; field = 0; key = 97 ∷ []; position = 0; of_text = true }) ∷ (record { doc = 1; field = 0; key = 98 ∷ []; position = 0; of_text = true }) ∷ [])
        ⊎ HoldsIndexOf writer.old.index.schema.schema files 1 ((record { doc = 0; field = 0; key = 97 ∷ []; position = 0; of_text = true }) ∷ []) }
{
    let Ok(()) = writer.commit(alloc) else {
        return false;
    };
    true
}

/// A document that is added after a delete is kept: of two documents, between which a term is deleted, one or both are
/// there after the commit.
pub fn later_documents_are_kept<D: Directory + Drop>(
    alloc: Global,
    writer: IndexWriter<D>,
    term: Term,
    first: &str,
    second: &str,
) -> Option<u32>
    requires known { D.is_known writer.index.directory }
    requires nothing { HasNothing writer }
    requires empty { HoldsIndexOf writer.index.schema.schema (D.seen writer.index.directory) 0 [] }
    requires field { term.field < length writer.index.schema.schema }
    ensures least { IfSome result (λ n. 1 ≤ n) }
    ensures most { IfSome result (λ n. n ≤ 2) }
{
    let Some(writer) = with_delete_between(alloc, writer, term, first, second) else {
        return None;
    };
    number_left(alloc, writer)
}

// Returns a writer to which a document, a delete and a document were added.
fn with_delete_between<D: Directory + Drop>(
    alloc: Global,
    writer: IndexWriter<D>,
    term: Term,
    first: &str,
    second: &str,
) -> Option<IndexWriter<D>>
    requires known { D.is_known writer.index.directory }
    requires nothing { HasNothing writer }
    requires empty { HoldsIndexOf writer.index.schema.schema (D.seen writer.index.directory) 0 [] }
    requires field { term.field < length writer.index.schema.schema }
    ensures known { IfSome result (λ w. D.is_known w.index.directory) }
    ensures empty { IfSome result (λ w. HoldsIndexOf w.index.schema.schema (D.seen w.index.directory) 0 []) }
    ensures two { IfSome result (λ w. (us : List IndexToken) × HasPending (D.seen w.index.directory) w 2 us) }
    ensures delete { IfSome result (λ w. w.deletes ≡ (record { term = term; num_pending = 1 }) ∷ []) }
{
    let Some(writer) = with_document(alloc, writer, first) else {
        return None;
    };
    let mut writer = writer;
    let Ok(()) = writer.delete_term(term) else {
        return None;
    };
    with_document(alloc, writer, second)
}

// Returns the number of documents of an index after a commit.
fn number_left<D: Directory + Drop>(alloc: Global, writer: IndexWriter<D>) -> Option<u32>
    requires known { D.is_known writer.index.directory }
    requires empty { HoldsIndexOf writer.index.schema.schema (D.seen writer.index.directory) 0 [] }
    requires two { (us : List IndexToken) × HasPending (D.seen writer.index.directory) writer 2 us }
    requires delete { (term : TermState) × (writer.deletes ≡ (record { term = term; num_pending = 1 }) ∷ []) }
    ensures least { IfSome result (λ n. 1 ≤ n) }
    ensures most { IfSome result (λ n. n ≤ 2) }
{
    let mut writer = writer;
    let Ok(()) = writer.commit(alloc) else {
        return None;
    };
    let Ok(reader) = writer.index().reader(alloc) else {
        return None;
    };
    Some(reader.searcher().num_docs())
}
