use ii_alive::{AliveBits, AliveFault, reads_written_flags};
use ii_base::{CountingWriter, FailingWriter, Fault};
use std::alloc::Global;

// Documents 0, 64, 511, 512 and 999 of 1000 are dead.
static DEAD: [u32; 5] = [0, 64, 511, 512, 999];

// Kills the dead documents, and returns whether all and whether any of them were alive.
fn kill_all(alive: &mut AliveBits) -> (bool, bool) {
    let mut all = true;
    let mut any = false;
    for doc in DEAD {
        if doc < alive.num_docs() {
            let was = alive.kill(doc);
            all &= was;
            any |= was;
        }
    }
    (all, any)
}

// The ranks of some documents, and some documents by rank, as (document, rank).
static RANKS: [(u32, u32); 8] = [
    (1, 0),
    (63, 62),
    (65, 63),
    (510, 508),
    (513, 509),
    (700, 696),
    (998, 994),
    (1, 0),
];

// Returns whether these documents are alive and have these ranks.
fn has_ranks(alive: &AliveBits) -> bool {
    let mut all = true;
    for (doc, rank) in RANKS {
        if doc >= alive.num_docs() || rank >= alive.num_living() {
            return false;
        }
        all &= alive.is_alive(doc);
        all &= alive.rank(doc) == rank;
        all &= alive.select(rank) == doc;
    }
    all
}

// What is killed at first and again, as `kill_all` returns it; the numbers of all documents and of living ones.
type Told = ((bool, bool), (bool, bool), u32, u32);

// Returns what is killed, and whether the ranks are right.
fn told_of_thousand(alloc: Global) -> Result<(Told, bool), Fault> {
    let mut alive = AliveBits::full(alloc, 1000)?;
    let killed = kill_all(&mut alive);
    let again = kill_all(&mut alive);
    let told = (killed, again, alive.num_docs(), alive.num_living());
    Ok((told, has_ranks(&alive)))
}

#[test]
fn documents_have_ranks(rt: HostRuntime) {
    let told = ((true, true), (false, false), 1000, 995);
    assert!(rt; told_of_thousand(rt.alloc()) == Ok((told, true)));
    reads_written_flags();
}

// 66 documents, of which 0 and 65 are dead.
static WRITTEN: [u8; 16] = [
    0xFE, 0xFF, 0xFF, 0xFF, 0xFF, 0xFF, 0xFF, 0xFF, 1, 0, 0, 0, 0, 0, 0, 0,
];

// Returns 66 documents, of which 0 and 65 are dead.
fn two_dead(alloc: Global) -> Result<AliveBits, Fault> {
    let mut alive = AliveBits::full(alloc, 66)?;
    for doc in [0, 65] {
        if doc < alive.num_docs() {
            let _ = alive.kill(doc);
        }
    }
    Ok(alive)
}

// Returns whether the complete bytes are written when this call of the writer fails, and the result.
fn written_over(alloc: Global, failing_call: u64) -> Result<(bool, Result<(), Fault>), Fault> {
    let alive = two_dead(alloc)?;
    let mut writer = CountingWriter::wrap(FailingWriter::new(alloc, failing_call));
    let written = alive.write(&mut writer);
    let is_complete = writer.finish().bytes() == WRITTEN.as_slice();
    Ok((is_complete, written))
}

#[test]
fn flags_are_written(rt: HostRuntime) {
    let alloc = rt.alloc();
    assert!(rt; written_over(alloc, u64::MAX) == Ok((true, Ok(()))));
    assert!(rt; written_over(alloc, 1) == Ok((false, Err(Fault::Write))));
}

// Returns the number of living documents, or why the bytes are refused.
fn opened(alloc: Global, num_docs: u32, bytes: &[u8]) -> Result<u32, AliveFault> {
    let alive = AliveBits::open(alloc, num_docs, bytes)?;
    Ok(alive.num_living())
}

#[test]
fn flags_are_opened(rt: HostRuntime) {
    let alloc = rt.alloc();
    assert!(rt; opened(alloc, 66, &WRITTEN) == Ok(64));
    assert!(rt; opened(alloc, 65, &WRITTEN) == Ok(64));
    let refused = [
        opened(alloc, 64, &WRITTEN),
        opened(alloc, 129, &WRITTEN),
        opened(alloc, 66, &WRITTEN[..15]),
        opened(alloc, 8, &WRITTEN[..8]),
    ];
    assert!(rt; refused == [Err(AliveFault::Damaged); 4]);
    assert!(rt; opened(alloc, 0, &[]) == Ok(0));
}
