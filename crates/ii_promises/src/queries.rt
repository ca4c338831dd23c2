// Cursors that combine two cursors.
ghost use Rattle.std.specs.Prelude.{◌≡◌, ◌<◌, ◌≤◌, ◌+◌, ◌∷◌, [], ◌&&◌, ◌||◌, ℕ, length, map, min, nat_eq, nat_le, not, take, IfErr, IfOk};
ghost use Rattle.std.specs.List.{AllZip, list_any};
ghost use Rattle.ii_base.specs.Entries.{Entry};
ghost use Rattle.ii_docset.specs.Cursor.{IsSound};
ghost use Rattle.ii_docset.specs.Intersection.{has_doc};
ghost use Rattle.ii_promises.specs.Decodes.{ReadsEachOnce};
ghost use Rattle.ii_query.specs.Phrase.{cursors_in, has_position};
ghost use Rattle.ii_reader.specs.SegmentPostings.{SegmentPostingsState};

use ii_ram::{
    DocId, DocSet, Exclude, Fault, Intersection, PhraseMatch, PhrasePart, QueryCursor,
    SeekDangerResult, SegmentPostings, SloppyPhraseMatch, Union,
};
use std::alloc::Global;

/// A cursor finds a document exactly if the document is among its remaining documents.
pub fn has<D: DocSet>(cursor: &mut D, doc: DocId) -> bool
    requires { doc < 2147483647 }
    ensures { result ≡ has_doc (D.rest cursor.old) doc }
{
    // Shows the proof that documents ascend.
    let _first = cursor.doc();
    match cursor.seek_danger(doc) {
        SeekDangerResult::Found => true,
        SeekDangerResult::SeekLowerBound(_) => false,
    }
}

/// An intersection has the documents that both cursors have.
pub fn both_have(first: SegmentPostings, other: SegmentPostings, doc: DocId) -> bool
    requires { doc < 2147483647 }
    ensures { result ≡ (has_doc first.rest doc && has_doc other.rest doc) }
{
    has(&mut Intersection::new(first, other), doc)
}

/// A union has the documents that either cursor has.
pub fn either_has(first: SegmentPostings, other: SegmentPostings, doc: DocId) -> bool
    requires { doc < 2147483647 }
    ensures { result ≡ (has_doc first.rest doc || has_doc other.rest doc) }
{
    has(&mut Union::new(first, other), doc)
}

/// An exclusion has the documents of the first cursor that the other doesn't have.
pub fn first_alone_has(first: SegmentPostings, other: SegmentPostings, doc: DocId) -> bool
    requires { doc < 2147483647 }
    ensures { result ≡ (has_doc first.rest doc && not (has_doc other.rest doc)) }
{
    has(&mut Exclude::new(first, other), doc)
}

/// A phrase of two terms has the documents where the second term occurs right after the first one.
pub fn neighbours_are_found(
    alloc: Global,
    first: SegmentPostings,
    second: SegmentPostings,
    doc: DocId,
) -> Result<bool, Fault>
    requires { doc < 2147483647 }
    ensures found { IfOk result (λ found. found ≡ list_any (λ (e : Entry). nat_eq e.doc doc && list_any (λ (p : ℕ). has_position second.rest doc (p + 1)) e.positions) first.rest) }
    ensures memory { IfErr result (λ fault. fault ≡ Fault.OutOfMemory) }
{
    let mut others = Vec::new(alloc);
    others.push(PhrasePart::new(1, second))?;
    Ok(has(&mut PhraseMatch::new(first, others), doc))
}

/// A phrase of two terms with a slop has the documents where the second term occurs at most `slop` positions
/// before or after the one that follows the first term.
pub fn neighbours_are_found_within(
    alloc: Global,
    first: SegmentPostings,
    second: SegmentPostings,
    slop: u32,
    doc: DocId,
) -> Result<bool, Fault>
    requires { doc < 2147483647 }
    ensures found { IfOk result (λ found. found ≡ list_any (λ (e : Entry). nat_eq e.doc doc && list_any (λ (p : ℕ). list_any (λ (f : Entry). nat_eq f.doc doc && list_any (λ (q : ℕ). nat_le (p + 1) (q + slop) && nat_le q (p + 1 + slop)) f.positions) second.rest) e.positions) first.rest) }
    ensures memory { IfErr result (λ fault. fault ≡ Fault.OutOfMemory) }
{
    let mut others = Vec::new(alloc);
    others.push(PhrasePart::new(1, second))?;
    Ok(has(&mut SloppyPhraseMatch::new(first, others, slop), doc))
}

/// While the first document of a phrase of two terms is searched, each position of a term is read at most once.
/// For m positions in n documents this decodes at most 2 * (m / 64 + n) + m / 128 blocks.
pub fn phrases_read_each_position_once(
    alloc: Global,
    first: SegmentPostings,
    second: SegmentPostings,
) -> Result<PhraseMatch<SegmentPostings>, Fault>
    ensures reads { IfOk result (λ found. AllZip ReadsEachOnce (first ∷ second ∷ []) (cursors_in found.terms)) }
    ensures memory { IfErr result (λ fault. fault ≡ Fault.OutOfMemory) }
{
    let mut others = Vec::new(alloc);
    others.push(PhrasePart::new(1, second))?;
    Ok(PhraseMatch::new(first, others))
}

/// The hint of any cursor, and its cost, are at least the number of its remaining documents.
pub fn hints_are_enough<D: DocSet>(cursor: &D) -> (u32, u64)
    ensures hint { length (D.rest cursor.now) ≤ result.0 }
    ensures cost { length (D.rest cursor.now) ≤ result.1 }
{
    (cursor.size_hint(), cursor.cost())
}

/// In a conjunction of two terms the one with fewer documents leads, and the hint is its number of documents.
pub fn the_rarer_term_leads(
    alloc: Global,
    first: SegmentPostings,
    other: SegmentPostings,
) -> Result<QueryCursor<SegmentPostings>, Fault>
    ensures hint { IfOk result (λ cursor. cursor.hint ≡ min first.doc_freq other.doc_freq) }
    ensures leader { IfOk result (λ cursor. map (λ (c : SegmentPostingsState). c.doc_freq) (take 1 cursor.cursors) ≡ min first.doc_freq other.doc_freq ∷ []) }
    ensures memory { IfErr result (λ fault. fault ≡ Fault.OutOfMemory) }
{
    let mut cursors = Vec::new(alloc);
    cursors.push(QueryCursor::one(first))?;
    cursors.push(QueryCursor::one(other))?;
    QueryCursor::intersection(alloc, cursors)
}
