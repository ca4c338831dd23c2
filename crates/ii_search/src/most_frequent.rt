// The documents of a term with the greatest counts.
ghost use Rattle.std.specs.Prelude.{◌≡◌, ◌+◌, ◌<◌, ◌≤◌, ℕ, [], insert, length, take, IfOk, OnOk};
ghost use Rattle.std.specs.List.{slice_index_or};
ghost use Rattle.ii_io.specs.Faults.{OnlyMemory};
ghost use Rattle.ii_reader.specs.SegmentPostings.{WentLazily};
ghost use Rattle.ii_search.specs.TopByCount.{DecodesForTop, needed, placed, top};

use ii_base::Fault;
use ii_docset::{DocId, DocSet, Postings, TERMINATED};
use ii_reader::SegmentPostings;
use std::alloc::Global;

/// Returns the `n` remaining documents of a cursor with the greatest counts, each with its count: the greatest
/// count first, and of equal counts the smaller document. Each count is 1 if counts aren't read. The cursor
/// is at its end afterwards.
///
/// Seeks by count: besides the current block, it decodes a block at most once, and only if its bound allows
/// a count that is greater than the least of the `n` greatest counts before the block.
///
/// # Errors
///
/// `OutOfMemory` if the list of `n` documents can't be allocated.
pub fn top_by_count(
    alloc: Global,
    cursor: &mut SegmentPostings,
    n: usize,
) -> Result<Vec<(DocId, u32)>, Fault>
    ensures top { IfOk result (λ best. best.items ≡ top n cursor.old.rest) }
    ensures ends { OnOk result (cursor.new.rest ≡ []) }
    ensures only { OnlyMemory result }
    // What it costs.
    ensures work { WentLazily cursor.old cursor.new }
    ensures decodes { DecodesForTop n cursor.old cursor.new }
{
    let mut best = Vec::new(alloc);
    let mut doc = cursor.doc();
    while doc < TERMINATED {
        let count = cursor.term_freq();
        put(&mut best, n, doc, count)?;
        let least = least_of(best.as_slice(), n);
        doc = cursor.seek_with_freq(doc + 1, least);
    }
    Ok(best)
}

// Inserts a document after those with no smaller count, and keeps the first `n`.
fn put(best: &mut Vec<(DocId, u32)>, n: usize, doc: DocId, count: u32) -> Result<(), Fault>
    ensures ok { OnOk result (best.new.items ≡ take n (placed (doc, count) best.old.items)) }
    ensures few { OnOk result (length best.new.items ≤ n) }
    ensures only { OnlyMemory result }
{
    let place = place_of(best, count);
    match best.insert(place, (doc, count)) {
        Ok(()) => {
            best.truncate(n);
            Ok(())
        }
        Err(refused) => Err(Fault::from(refused)),
    }
}

// Returns the index after the documents with no smaller count.
fn place_of(best: &[(DocId, u32)], count: u32) -> usize
    ensures place { (doc : ℕ) → placed (doc, count) best.now ≡ insert best.now result (doc, count) }
    ensures within { result ≤ length best.now }
{
    for i in 0..best.len() {
        if best[i].1 < count {
            return i;
        }
    }
    best.len()
}

// Returns the count that a document needs to be among the first `n`, given the best so far.
fn least_of(best: &[(DocId, u32)], n: usize) -> u32
    ensures { result ≡ needed n best.now }
{
    if best.len() < n {
        return 0;
    }
    let mut least = u32::MAX;
    for i in 0..best.len() {
        least = least.min(best[i].1);
    }
    least.saturating_add(1)
}
