//! Finds the documents of segments that deletes reach.
ghost use Rattle.std.specs.Prelude.{◌≡◌, ◌<◌, ◌≤◌, ◌++◌, ℕ, Bool, Ok, IfErr, IfOk, List, OnOk, filter, length, map, nat_lt};
ghost use Rattle.std.specs.List.{AllZip};
ghost use Rattle.ii_base.specs.declared.schema.index_record_option.IndexRecordOption.TheVariants.{Basic};
ghost use Rattle.ii_base.specs.Entries.{docs_of};
ghost use Rattle.ii_directory.specs.Directory.{is_obeyed};
ghost use Rattle.ii_docset.specs.Cursor.{IsSound};
ghost use Rattle.ii_index.specs.Deletes.{AreDeletedOf, ArePendingDeleted, AreReached, HaveFieldsBelow, docs_in_files, docs_of_delete, docs_reached};
ghost use Rattle.ii_index.specs.Faults.{IsDeleteError, IsDeleteErrorAt, IsPendingReachFault, IsRefusedError};
ghost use Rattle.ii_index.specs.Pending.{AreWrittenSegments};
ghost use Rattle.ii_index.specs.declared.deletes.Scope.TheVariants.{Pending};
ghost use Rattle.ii_io.specs.Faults.{OnlyMemory};
ghost use Rattle.ii_reader.specs.InvertedIndexReader.{IsRefusal};
ghost use Rattle.ii_search.specs.Found.{docs_of_term};
ghost use Rattle.ii_base.specs.declared.doc_id.TheConstants.{TERMINATED};
ghost use Rattle.ii_segment_store.specs.Contents.{contents_with, segment_contents};
ghost use Rattle.ii_segments.specs.Segments.{Segment, num_docs_of};

use crate::deletes::{Delete, Scope};
use crate::faults::IndexError;
use crate::opening::open_files;
use ii_base::{Fault, IndexRecordOption, Schema, Term};
use ii_docset::{DocId, DocSet, TERMINATED};
use ii_reader::{OpenIndex, SegmentPostings};
use ii_segment_store::{SegmentFiles, StoredSegment};
use std::alloc::Global;

// Returns the documents of each segment that deletes reach.
pub(crate) fn docs_to_delete(
    alloc: Global,
    schema: &Schema,
    segments: Vec<StoredSegment>,
    deletes: &[Delete],
) -> Result<Vec<Vec<DocId>>, IndexError>
    requires { HaveFieldsBelow (length schema.now) deletes.now }
    ensures docs { IfOk result (λ all. AllZip (AreDeletedOf schema.now deletes.now) (map segment_contents segments.items) (map (λ v. v.items) all.items)) }
    ensures fault { IfErr result (λ e. IsDeleteError e schema.now deletes.now (map segment_contents segments.items)) }
    ensures memory { is_obeyed IsRefusedError ⊥ result }
{
    let mut all = Vec::new(alloc);
    for segment in segments {
        let place = all.as_slice().len();
        let docs = match docs_of_segment(alloc, schema, place, segment, deletes) {
            Ok(docs) => docs,
            Err(fault) => return Err(fault),
        };
        all.push(docs)?;
    }
    Ok(all)
}

// Returns the documents of the segment at a place that deletes reach. If there are some, it must have counts.
fn docs_of_segment(
    alloc: Global,
    schema: &Schema,
    place: usize,
    segment: StoredSegment,
    deletes: &[Delete],
) -> Result<Vec<DocId>, IndexError>
    requires { HaveFieldsBelow (length schema.now) deletes.now }
    ensures docs { IfOk result (λ docs. AreDeletedOf schema.now deletes.now (segment_contents segment) docs.items) }
    ensures fault { IfErr result (λ e. IsDeleteErrorAt e place schema.now deletes.now (segment_contents segment)) }
    ensures memory { is_obeyed IsRefusedError ⊥ result }
{
    let StoredSegment { files, alive: _ } = segment;
    let has_counts = files.counts.is_some();
    let index = match open_files(alloc, schema, files) {
        Ok(index) => index,
        Err(fault) => return Err(IndexError::Segment(place, fault)),
    };
    let docs = match docs_reached(alloc, &index, deletes, Scope::Committed) {
        Ok(docs) => docs,
        Err(fault) => return Err(IndexError::Segment(place, fault)),
    };
    if docs.as_slice().is_empty() {
        return Ok(docs);
    }
    if !has_counts {
        return Err(IndexError::NoCounts(place));
    }
    Ok(docs)
}

// Returns the documents of each segment that deletes reach, of segments that were written one after the other.
pub(crate) fn pending_docs_to_delete(
    alloc: Global,
    schema: &Schema,
    segments: Vec<StoredSegment>,
    deletes: &[Delete],
) -> Result<Vec<Vec<DocId>>, Fault>
    requires { HaveFieldsBelow (length schema.now) deletes.now }
    ensures docs { (ss : List Segment) → AreWrittenSegments schema.now (map segment_contents segments.items) ss → num_docs_of ss ≤ TERMINATED → IfOk result (λ all. ArePendingDeleted schema.now deletes.now 0 (map segment_contents segments.items) (map (λ v. v.items) all.items)) }
    ensures fault { (ss : List Segment) → AreWrittenSegments schema.now (map segment_contents segments.items) ss → IfErr result (IsPendingReachFault schema.now deletes.now) }
{
    let mut all = Vec::new(alloc);
    let mut base: DocId = 0;
    for segment in segments {
        let StoredSegment { files, alive } = segment;
        let docs = match pending_docs_of(alloc, schema, files, deletes, base) {
            Ok(docs) => docs,
            Err(fault) => return Err(fault),
        };
        all.push(docs)?;
        base = base.saturating_add(alive.num_docs());
    }
    Ok(all)
}

// Returns the documents of a segment that deletes reach, of which so many are in earlier segments.
fn pending_docs_of(
    alloc: Global,
    schema: &Schema,
    files: SegmentFiles,
    deletes: &[Delete],
    base: DocId,
) -> Result<Vec<DocId>, Fault>
    requires { HaveFieldsBelow (length schema.now) deletes.now }
    ensures reached { (alive : List Bool) → IfOk result (λ docs. AreReached (Pending base) schema.now deletes.now (contents_with files alive) docs.items) }
    ensures err { (alive : List Bool) → IfErr result (IsRefusal (docs_in_files (Pending base) schema.now deletes.now (contents_with files alive))) }
{
    let index = match open_files(alloc, schema, files) {
        Ok(index) => index,
        Err(fault) => return Err(fault),
    };
    match docs_reached(alloc, &index, deletes, Scope::Pending(base)) {
        Ok(docs) => Ok(docs),
        Err(fault) => Err(fault),
    }
}

// Returns the documents of an open segment that deletes reach.
pub(crate) fn docs_reached(
    alloc: Global,
    index: &OpenIndex,
    deletes: &[Delete],
    scope: Scope,
) -> Result<Vec<DocId>, Fault>
    requires { HaveFieldsBelow (length index.now.readers) deletes.now }
    ensures docs { IfOk result (λ docs. docs_reached scope index.now deletes.now ≡ Ok docs.items) }
    ensures err { IfErr result (IsRefusal (docs_reached scope index.now deletes.now)) }
{
    let mut docs = Vec::new(alloc);
    for delete in deletes {
        let pushed = push_docs(&mut docs, index, delete, scope);
        if let Err(fault) = pushed {
            return Err(fault);
        }
    }
    Ok(docs)
}

// Appends the documents of an open segment that a delete reaches.
fn push_docs(
    docs: &mut Vec<DocId>,
    index: &OpenIndex,
    delete: &Delete,
    scope: Scope,
) -> Result<(), Fault>
    requires { delete.now.term.field < length index.now.readers }
    ensures pushed { OnOk result ((more : List ℕ) × (docs_of_delete scope index.now delete.now ≡ Ok more) × (docs.new.items ≡ docs.old.items ++ more)) }
    ensures err { IfErr result (IsRefusal (docs_of_delete scope index.now delete.now)) }
{
    let mut cursor = match term_cursor(index, delete.term()) {
        Ok(cursor) => cursor,
        Err(fault) => return Err(fault),
    };
    let limit = delete.limit_in(scope);
    let pushed = push_below(docs, &mut cursor, limit);
    drop(cursor);
    match pushed {
        Ok(()) => Ok(()),
        Err(fault) => Err(fault),
    }
}

// Opens a cursor over the documents of a term; it is empty if the field doesn't have the term.
fn term_cursor(index: &OpenIndex, term: &Term) -> Result<SegmentPostings, Fault>
    requires { term.now.field < length index.now.readers }
    ensures listed { IfOk result (λ cursor. docs_of_term Basic index.now term.now ≡ Ok cursor.rest) }
    ensures err { IfErr result (IsRefusal (docs_of_term Basic index.now term.now)) }
{
    let reader = index.reader(term.field());
    match reader.read_postings(term, IndexRecordOption::Basic) {
        Ok(Some(cursor)) => Ok(cursor),
        Ok(None) => Ok(SegmentPostings::empty()),
        Err(fault) => Err(fault),
    }
}

// Appends the remaining documents of a cursor that are below a limit.
fn push_below<C: DocSet>(docs: &mut Vec<DocId>, cursor: &mut C, limit: DocId) -> Result<(), Fault>
    ensures pushed { OnOk result (docs.new.items ≡ docs.old.items ++ filter (λ (doc : ℕ). nat_lt doc limit) (docs_of (C.rest cursor.old))) }
    ensures sound { IsSound (C.rest cursor.old) }
    ensures only { OnlyMemory result }
{
    let end = limit.min(TERMINATED);
    let mut doc = cursor.doc();
    while doc < end {
        docs.push(doc)?;
        doc = cursor.advance();
    }
    Ok(())
}
