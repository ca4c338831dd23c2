// Lets each call of each writer of an index fail once.
use crate::memory_index::{Call, Kind, Leaf, Said, ready_of};
use ii_base::{AsciiTokenizer, CountingWriter, FailingWriter, Fault};
use ii_indexing::{IndexWriters, write_index};
use std::alloc::Global;
use std::test::Fail;

static FIELDS: [Kind; 3] = [Kind::Text(true), Kind::U64, Kind::Json(false)];

static CALLS: [Call; 3] = [
    (0, 0, Said::Text("a b")),
    (1, 1, Said::U64(7)),
    (1, 2, Said::Object(&[("t", Leaf::Text("c d"))])),
];

// Returns the writer at a place; it fails at a call if `failing` names this place.
fn failing_writer(alloc: Global, place: u32, failing: (u32, u64)) -> CountingWriter<FailingWriter> {
    let (failing_place, failing_call) = failing;
    let call = if place == failing_place {
        failing_call
    } else {
        0
    };
    CountingWriter::wrap(FailingWriter::new(alloc, call))
}

// Writes the index to writers of which one fails at a call.
fn run(
    alloc: Global,
    failing: (u32, u64),
) -> Result<(IndexWriters<FailingWriter>, Result<(), Fault>), Fault> {
    let (schema, calls) = ready_of(alloc, &FIELDS, 2, &CALLS)?;
    let writers = IndexWriters {
        terms: failing_writer(alloc, 0, failing),
        postings: failing_writer(alloc, 1, failing),
        positions: failing_writer(alloc, 2, failing),
        fieldnorms: failing_writer(alloc, 3, failing),
    };
    Ok(write_index(alloc, schema, 2, calls, &AsciiTokenizer, writers))
}

// Returns whether a writer has this many failed calls and wrote a prefix of the right bytes.
fn is_left(
    writer: CountingWriter<FailingWriter>,
    failed_calls: u64,
    right: CountingWriter<FailingWriter>,
) -> bool {
    let mut all = writer.failed_calls() == failed_calls;
    let written_bytes = writer.written_bytes();
    let (writer, right) = (writer.finish(), right.finish());
    all &= writer.bytes().len() as u64 == written_bytes;
    all &= right.bytes().starts_with(writer.bytes());
    drop(writer);
    drop(right);
    all
}

// Returns whether only the writer at `place` has a failed call, and each wrote a prefix.
fn are_handed_back(
    writers: IndexWriters<FailingWriter>,
    place: u32,
    right: IndexWriters<FailingWriter>,
) -> bool {
    let IndexWriters {
        terms,
        postings,
        positions,
        fieldnorms,
    } = writers;
    let IndexWriters {
        terms: right_terms,
        postings: right_postings,
        positions: right_positions,
        fieldnorms: right_norms,
    } = right;
    let mut all = is_left(terms, u64::from(place == 0), right_terms);
    all &= is_left(postings, u64::from(place == 1), right_postings);
    all &= is_left(positions, u64::from(place == 2), right_positions);
    all &= is_left(fieldnorms, u64::from(place == 3), right_norms);
    all
}

// Returns the result when the writer at a place fails at a call, and whether the writers are as expected.
fn end_of_run(alloc: Global, place: u32, call: u64) -> Result<(Result<(), Fault>, bool), Fault> {
    let (writers, answer) = run(alloc, (place, call))?;
    let (right, _) = run(alloc, (4, 0))?;
    let failing = if answer == Ok(()) { 4 } else { place };
    Ok((answer, are_handed_back(writers, failing, right)))
}

// Returns how many calls of the writer at a place report their failure, or 0 if one doesn't.
fn told_calls(alloc: Global, place: u32) -> Result<u64, Fault> {
    for call in 1..100 {
        match end_of_run(alloc, place, call)? {
            (Err(Fault::Write), true) => (),
            (Ok(()), true) => return Ok(call - 1),
            _ => return Ok(0),
        }
    }
    Ok(0)
}

#[test]
fn a_failing_writer_is_told(rt: HostRuntime) -> Result<(), Fail> {
    // terms, postings, positions, norms: at least a write and a flush
    for place in 0..4 {
        assert!(rt; told_calls(rt.alloc(), place)? >= 2, "writer {place}");
    }
    Ok(())
}
