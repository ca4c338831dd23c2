// Files that are read by ranges: each range has exactly the bytes of the file, and each block is read once.
use crate::index_files::{block_file, changed_file};
use bytes::Bytes;
use ii_block_file::{BlockTable, MemoryFile, ReadAt};
use ii_file_slice::{BlockCache, BlockFile, FileHandle, FileSlice, ReadFault};
use ii_ram::Fault;
use std::alloc::Global;
use std::cell::Cell;
use std::io::ErrorKind;
use std::test::Fail;

// Returns 20,000 bytes, which are five blocks.
fn file_of(alloc: Global) -> Result<Bytes, Fault> {
    let mut file = Vec::new(alloc);
    for k in 0..20_000u32 {
        file.push((k % 251) as u8)?;
    }
    Ok(Bytes::from_vec(file)?)
}

// Returns a part of a file, if it ends within the file.
fn part(file: &[u8], from: u64, len: usize) -> Option<&[u8]> {
    if from > file.len() as u64 {
        return None;
    }
    let start = from as usize;
    if len > file.len() - start {
        return None;
    }
    Some(&file[start..start + len])
}

// Returns whether a range was read exactly, or was refused as it doesn't end within the file.
fn is_exact(read: Result<Bytes, ReadFault>, file: &[u8], from: u64, len: usize) -> bool {
    match (read, part(file, from, len)) {
        (Ok(bytes), Some(expected)) => bytes.as_slice() == expected,
        (Err(fault), None) => fault == ReadFault::Range,
        _ => false,
    }
}

// Where ranges begin, and their lengths. Some end after a file, or after a range of one.
static RANGES: [(u64, usize); 20] = [
    (0, 0),
    (0, 1),
    (0, 20_000),
    (4_095, 2),
    (4_096, 4_096),
    (100, 50),
    (120, 60),
    (3_191, 1),
    (3_191, 2),
    (8_191, 4_098),
    (8_192, 4_096),
    (12_288, 3_000),
    (13_999, 1),
    (14_000, 0),
    (13_990, 11),
    (19_999, 1),
    (20_000, 0),
    (20_000, 1),
    (u64::MAX, 0),
    (u64::MAX, 1),
];

// Returns the first range that a file doesn't read exactly.
fn first_wrong<H: FileHandle>(alloc: Global, file: &H, expected: &[u8]) -> Option<(u64, usize)> {
    for (from, len) in RANGES {
        if !is_exact(file.read_bytes(alloc, from, len), expected, from, len) {
            return Some((from, len));
        }
    }
    None
}

// Returns the first range that a cache doesn't read exactly, in two rounds.
fn first_wrong_cached<H: FileHandle>(
    alloc: Global,
    cache: &mut BlockCache<'_, H>,
    expected: &[u8],
) -> Option<(u64, usize)> {
    for _ in 0..2 {
        for (from, len) in RANGES {
            if !is_exact(cache.read_bytes(alloc, from, len), expected, from, len) {
                return Some((from, len));
            }
        }
    }
    None
}

// Returns the first range that isn't read exactly, of a file that begins at `start` in the file whose blocks are
// checked: by the file, or by a cache of it.
fn wrong_range<H: FileHandle>(
    alloc: Global,
    file: &H,
    start: u64,
    expected: &[u8],
) -> Result<Option<(u64, usize)>, Fail> {
    if file.len() != expected.len() as u64 {
        return Err("another length".into());
    }
    if let Some(range) = first_wrong(alloc, file, expected) {
        return Ok(Some(range));
    }
    for num_blocks in [0usize, 1, 2, 16] {
        let mut cache = BlockCache::new(alloc, file, start, num_blocks)?;
        if cache.len() != file.len() {
            return Err("another length of a cache".into());
        }
        if let Some(range) = first_wrong_cached(alloc, &mut cache, expected) {
            return Ok(Some(range));
        }
    }
    Ok(None)
}

// Returns the first range that isn't read exactly: of a file, of a range of it that begins inside a block, or of a
// range of this range.
fn wrong_range_within<H: FileHandle>(
    alloc: Global,
    file: &H,
    expected: &[u8],
) -> Result<Option<(u64, usize)>, Fail> {
    if let Some(range) = wrong_range(alloc, file, 0, expected)? {
        return Ok(Some(range));
    }
    let slice = FileSlice::new(file, 5_000, 14_000);
    let inside = part(expected, 5_000, 14_000).ok_or("a short file")?;
    if let Some(range) = wrong_range(alloc, &slice, slice.start(), inside)? {
        return Ok(Some(range));
    }
    let inner = FileSlice::new(&slice, 100, 9_000);
    let inside = part(expected, 5_100, 9_000).ok_or("a short file")?;
    wrong_range(alloc, &inner, 5_100, inside)
}

#[test]
fn ranges_are_read_exactly(rt: HostRuntime) -> Result<(), Fail> {
    let file = file_of(rt.alloc())?;
    let wrong = wrong_range_within(rt.alloc(), &file, file.as_slice())?;
    assert_eq!(rt; wrong, None);
    let blocks = block_file(rt.alloc(), &file)?;
    let wrong = wrong_range_within(rt.alloc(), &blocks, file.as_slice())?;
    assert_eq!(rt; wrong, None);
    let nothing = Bytes::new();
    let wrong = wrong_range(rt.alloc(), &nothing, 0, &[])?;
    assert_eq!(rt; wrong, None);
    Ok(())
}

#[test]
fn a_slice_past_the_end_is_refused(rt: HostRuntime) -> Result<(), Fail> {
    let file = file_of(rt.alloc())?;
    for (start, len) in [(15_000, 5_001), (20_000, 1), (u64::MAX, 2)] {
        let slice = FileSlice::new(&file, start, len);
        let faults = faults_of(rt.alloc(), &slice, start, 0, 1)?;
        assert_eq!(rt; faults, [Some(ReadFault::Range); 2], "{start} {len}");
    }
    Ok(())
}

// Returns why a range of a file can't be read by the file, and by a cache of it.
fn faults_of<H: FileHandle>(
    alloc: Global,
    file: &H,
    start: u64,
    from: u64,
    len: usize,
) -> Result<[Option<ReadFault>; 2], Fail> {
    let mut cache = BlockCache::new(alloc, file, start, 2)?;
    let cached = cache.read_bytes(alloc, from, len).err();
    Ok([file.read_bytes(alloc, from, len).err(), cached])
}

// Ranges of a file whose second block was changed, and why they can't be read.
static DAMAGED: [(u64, usize, Option<ReadFault>); 9] = [
    (0, 4_096, None),
    (4_095, 1, None),
    (4_095, 2, Some(ReadFault::Damaged(1))),
    (4_096, 1, Some(ReadFault::Damaged(1))),
    (8_191, 1, Some(ReadFault::Damaged(1))),
    (8_192, 11_808, None),
    (8_192, 1, None),
    (0, 20_000, Some(ReadFault::Damaged(1))),
    (19_999, 2, Some(ReadFault::Range)),
];

// Ranges of bytes 3,000 to 13,000 of that file.
static DAMAGED_INSIDE: [(u64, usize, Option<ReadFault>); 7] = [
    (0, 1_096, None),
    (1_095, 2, Some(ReadFault::Damaged(1))),
    (1_096, 1, Some(ReadFault::Damaged(1))),
    (5_191, 1, Some(ReadFault::Damaged(1))),
    (5_192, 4_808, None),
    (0, 10_000, Some(ReadFault::Damaged(1))),
    (9_999, 2, Some(ReadFault::Range)),
];

#[test]
fn a_changed_block_is_damaged(rt: HostRuntime) -> Result<(), Fail> {
    let file = file_of(rt.alloc())?;
    let blocks = changed_file(rt.alloc(), &file, 5_000)?;
    for (from, len, fault) in DAMAGED {
        let faults = faults_of(rt.alloc(), &blocks, 0, from, len)?;
        assert_eq!(rt; faults, [fault; 2], "{from} {len}");
    }
    let slice = FileSlice::new(&blocks, 3_000, 10_000);
    for (from, len, fault) in DAMAGED_INSIDE {
        let faults = faults_of(rt.alloc(), &slice, 3_000, from, len)?;
        assert_eq!(rt; faults, [fault; 2], "{from} {len} inside");
    }
    Ok(())
}

#[test]
fn a_block_that_is_gone_is_refused(rt: HostRuntime) -> Result<(), Fail> {
    let file = file_of(rt.alloc())?;
    let table = BlockTable::of(rt.alloc(), file.as_slice())?;
    let front = part(file.as_slice(), 0, 9_000).ok_or("a short file")?;
    let source = MemoryFile::new(Bytes::copy_from_slice(rt.alloc(), front)?);
    let blocks = BlockFile::new(source, table);
    let gone = Some(ReadFault::Refused(ErrorKind::UnexpectedEof));
    for (from, len, fault) in [(8_191, 1, None), (8_192, 1, gone), (19_000, 9, gone)] {
        let faults = faults_of(rt.alloc(), &blocks, 0, from, len)?;
        assert_eq!(rt; faults, [fault; 2], "{from} {len}");
    }
    Ok(())
}

// A file in memory that counts how often it is read.
#[derive(Drop)]
struct CountedFile<'a> {
    file: MemoryFile,
    reads: &'a Cell<u32>,
}

impl<'a> ReadAt for CountedFile<'a> {
    ghost use Rattle.std.specs.Prelude.{None};

    ghost bytes = { λ _. None };

    fn read_exact_at(&self, buf: &mut [u8], offset: u64) -> Result<(), ErrorKind> {
        self.reads.set(self.reads.get().saturating_add(1));
        self.file.read_exact_at(buf, offset)
    }
}

// Returns a file whose blocks are checked, and whose reads are counted.
fn counted_file<'a>(
    alloc: Global,
    file: &Bytes,
    reads: &'a Cell<u32>,
) -> Result<BlockFile<CountedFile<'a>>, Fault> {
    let table = BlockTable::of(alloc, file.as_slice())?;
    let file = MemoryFile::new(file.clone()?);
    Ok(BlockFile::new(CountedFile { file, reads }, table))
}

// Ranges that are read by a cache of two blocks, one after the other, and how often the file was read then.
static READS: [(u64, usize, u32); 15] = [
    (0, 10, 1),
    (100, 10, 1),
    (4_096, 5, 2),
    (10, 5, 2),
    (8_191, 1, 2),
    // the third block takes the place of the first one
    (8_192, 5, 3),
    (4_100, 3, 3),
    (0, 3, 4),
    // a range of two blocks isn't kept
    (8_000, 500, 5),
    (8_000, 500, 6),
    (4_096, 1, 6),
    (8_192, 1, 7),
    (19_999, 1, 8),
    (16_384, 3_616, 8),
    (20_000, 1, 8),
];

// Ranges of bytes 5,000 to 19,000, read by a cache of two blocks.
static READS_INSIDE: [(u64, usize, u32); 7] = [
    (0, 10, 1),
    (3_191, 1, 1),
    (3_192, 1, 2),
    (3_100, 92, 2),
    (3_100, 93, 3),
    (11_384, 2_616, 4),
    (11_383, 1, 5),
];

#[test]
fn a_block_is_read_once(rt: HostRuntime) -> Result<(), Fail> {
    let file = file_of(rt.alloc())?;
    let reads = Cell::new(0);
    let blocks = counted_file(rt.alloc(), &file, &reads)?;
    let mut cache = BlockCache::new(rt.alloc(), &blocks, 0, 2)?;
    for (from, len, expected) in READS {
        let _ = cache.read_bytes(rt.alloc(), from, len);
        assert_eq!(rt; reads.get(), expected, "{from} {len}");
    }
    reads.set(0);
    let slice = FileSlice::new(&blocks, 5_000, 14_000);
    let mut cache = BlockCache::new(rt.alloc(), &slice, slice.start(), 2)?;
    for (from, len, expected) in READS_INSIDE {
        let _ = cache.read_bytes(rt.alloc(), from, len);
        assert_eq!(rt; reads.get(), expected, "{from} {len} inside");
    }
    Ok(())
}

// Reads a file in steps of 50 bytes by a cache of 16 blocks, and returns how often it was read.
fn reads_of_all<H: FileHandle>(
    alloc: Global,
    file: &H,
    start: u64,
    reads: &Cell<u32>,
) -> Result<u32, Fail> {
    reads.set(0);
    let mut cache = BlockCache::new(alloc, file, start, 16)?;
    for step in 0..file.len() / 50 {
        cache.read_bytes(alloc, step * 50, 1)?;
    }
    Ok(reads.get())
}

#[test]
fn each_block_is_read_once(rt: HostRuntime) -> Result<(), Fail> {
    let file = file_of(rt.alloc())?;
    let reads = Cell::new(0);
    let blocks = counted_file(rt.alloc(), &file, &reads)?;
    assert_eq!(rt; reads_of_all(rt.alloc(), &blocks, 0, &reads)?, 5);
    let slice = FileSlice::new(&blocks, 5_000, 14_000);
    assert_eq!(rt; reads_of_all(rt.alloc(), &slice, slice.start(), &reads)?, 4);
    Ok(())
}
