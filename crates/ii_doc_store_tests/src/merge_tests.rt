ghost use Rattle.std.specs.Prelude.{IfOk};
ghost use Rattle.ii_doc_store_merger.specs.StoreSources.{FitsFlags, memory_store};

use bytes::Bytes;
use ii_alive::AliveBits;
use ii_doc_store::{StoreDamage, StoreFile, StoreFileFault};
use ii_doc_store_merger::{StoreMergeFault, StoreSource, merge_stores};
use std::alloc::Global;

// The store of `ab`, nothing and `c`; its digests are those of a program of another language.
static THREE: [u8; 107] = [
    2, 0, 0, 0, 97, 98, 0, 0, 0, 0, 1, 0, 0, 0, 99, 3, 0, 0, 0, 15, 0, 0, 0, 0, 0, 0, 0, 33, 194,
    237, 152, 199, 33, 43, 104, 52, 159, 78, 58, 18, 120, 158, 186, 47, 2, 45, 254, 197, 173, 203,
    74, 149, 227, 234, 85, 137, 124, 202, 161, 1, 0, 0, 0, 0, 0, 0, 0, 44, 136, 255, 85, 167, 136,
    80, 52, 94, 158, 249, 29, 223, 81, 250, 241, 132, 165, 114, 204, 100, 18, 233, 138, 118, 212,
    239, 13, 62, 243, 94, 194, 110, 113, 115, 116, 111, 114, 101, 49,
];

// The store of `ab`, `c`, `ab`, nothing and `c`.
static FIVE: [u8; 118] = [
    2, 0, 0, 0, 97, 98, 1, 0, 0, 0, 99, 2, 0, 0, 0, 97, 98, 0, 0, 0, 0, 1, 0, 0, 0, 99, 5, 0, 0, 0,
    26, 0, 0, 0, 0, 0, 0, 0, 227, 90, 236, 246, 132, 29, 199, 50, 95, 141, 227, 130, 59, 33, 145,
    48, 88, 241, 183, 195, 251, 54, 238, 92, 103, 210, 125, 164, 220, 30, 169, 205, 1, 0, 0, 0, 0,
    0, 0, 0, 108, 61, 139, 137, 82, 219, 1, 45, 10, 54, 113, 133, 2, 160, 112, 235, 125, 110, 75,
    214, 187, 174, 77, 223, 219, 91, 126, 214, 234, 99, 136, 117, 110, 113, 115, 116, 111, 114,
    101, 49,
];

// Why a merge has no store.
#[derive(Clone, Copy, Debug, PartialEq, Eq)]
enum MergeTestFault {
    OutOfMemory,
    Unopened(StoreFileFault),
    OtherNumDocs,
    Merge(StoreMergeFault),
}

// Returns flags of three documents, of which one, if there is such a one, is dead.
fn flags(alloc: Global, dead: u32) -> Result<AliveBits, MergeTestFault> {
    let Ok(mut alive) = AliveBits::full(alloc, 3) else {
        return Err(MergeTestFault::OutOfMemory);
    };
    if dead < alive.num_docs() {
        let _was = alive.kill(dead);
    }
    Ok(alive)
}

// Returns `THREE`, with one byte changed if it has it.
fn three(alloc: Global, changed: usize) -> Result<Bytes, MergeTestFault> {
    let Ok(mut bytes) = Vec::from_slice(alloc, &THREE) else {
        return Err(MergeTestFault::OutOfMemory);
    };
    if let Some(byte) = bytes.get_mut(changed) {
        *byte ^= 4;
    }
    let Ok(bytes) = Bytes::from_vec(bytes) else {
        return Err(MergeTestFault::OutOfMemory);
    };
    Ok(bytes)
}

// The file of a store, and which of its documents are alive.
#[derive(Drop)]
struct Stored {
    file: Bytes,
    alive: AliveBits,
}

// Opens a store with flags of as many documents.
fn fitting<'a>(alloc: Global, stored: &'a Stored) -> Result<StoreSource<'a, Bytes>, MergeTestFault>
    ensures { IfOk result (λ source. FitsFlags (memory_store source)) }
{
    let store = match StoreFile::open(alloc, &stored.file) {
        Ok(store) => store,
        Err(fault) => return Err(MergeTestFault::Unopened(fault)),
    };
    if store.num_docs() != stored.alive.num_docs() {
        return Err(MergeTestFault::OtherNumDocs);
    }
    Ok(StoreSource {
        store,
        alive: &stored.alive,
    })
}

// Merges two stores.
fn merged_two(alloc: Global, stored: &[Stored; 2]) -> Result<Vec<u8>, MergeTestFault> {
    let sources = [fitting(alloc, &stored[0])?, fitting(alloc, &stored[1])?];
    match merge_stores(alloc, &sources) {
        Ok(bytes) => Ok(bytes),
        Err(fault) => Err(MergeTestFault::Merge(fault)),
    }
}

// Merges `THREE` without a document, and `THREE` with one byte changed.
fn merged(alloc: Global, dead: u32, changed: usize) -> Result<Vec<u8>, MergeTestFault> {
    let stored = [
        Stored {
            file: three(alloc, THREE.len())?,
            alive: flags(alloc, dead)?,
        },
        Stored {
            file: three(alloc, changed)?,
            alive: flags(alloc, 3)?,
        },
    ];
    merged_two(alloc, &stored)
}

// Returns whether these are the bytes of `FIVE`.
fn is_five(file: Result<Vec<u8>, MergeTestFault>) -> bool {
    match file {
        Ok(file) => file.as_slice() == FIVE.as_slice(),
        Err(_) => false,
    }
}

// Returns why there is no store.
fn fault_of(file: Result<Vec<u8>, MergeTestFault>) -> Option<MergeTestFault> {
    match file {
        Ok(_) => None,
        Err(fault) => Some(fault),
    }
}

#[test]
fn living_documents_are_merged(rt: HostRuntime) {
    assert!(rt; is_five(merged(rt.alloc(), 1, THREE.len())));
}

#[test]
fn other_documents_are_others(rt: HostRuntime) {
    assert!(rt; !is_five(merged(rt.alloc(), 0, THREE.len())));
    assert!(rt; !is_five(merged(rt.alloc(), 3, THREE.len())));
}

#[test]
fn damaged_store_is_named(rt: HostRuntime) {
    let damaged = StoreMergeFault::Damaged(1, StoreDamage::Block(0));
    assert!(rt; fault_of(merged(rt.alloc(), 1, 4)) == Some(MergeTestFault::Merge(damaged)));
}
