// Ranges of files that are checked block by block.
use bytes::Bytes;
use ii_block_file::{BlockFile, BlockTable, MemoryFile, ReadAt, ReadFault, SystemFile};
use ii_directory::{FolderLock, remove_unfinished};
use ii_store::{Directory, FileDigest, Folder, MemoryDirectory, Name, SegmentComponent};
use std::alloc::{AllocError, Global};
use std::fs;
use std::io::{ErrorKind, Write};
use std::test::Fail;

// Returns 16,000 bytes, which are four blocks.
fn file_of(alloc: Global) -> Result<Vec<u8>, AllocError> {
    let mut file = Vec::new(alloc);
    for k in 0..16_000u32 {
        file.push((k % 251) as u8)?;
    }
    Ok(file)
}

// Returns a copy of a file's table, taken by the file's digest.
fn table_of(alloc: Global, file: &[u8]) -> Result<BlockTable, Fail> {
    let made = BlockTable::of(alloc, file)?;
    let bytes = Vec::from_slice(alloc, made.as_bytes())?;
    let table = BlockTable::open(file.len() as u64, &FileDigest::new(file), bytes);
    Ok(table.ok_or("no table")?)
}

// Returns a part of a file, an empty one if it doesn't end within the file.
fn part(file: &[u8], from: usize, len: usize) -> &[u8] {
    if from > file.len() || len > file.len() - from {
        return &[];
    }
    &file[from..from + len]
}

// Changes a byte, if there is one.
fn change(bytes: &mut Vec<u8>, place: usize) {
    if place < bytes.len() {
        bytes[place] ^= 16;
    }
}

// Where ranges begin, and their lengths.
static RANGES: [(u64, usize); 7] = [
    (0, 16_000),
    (0, 1),
    (4_095, 2),
    (4_096, 4_096),
    (8_191, 4_098),
    (15_999, 1),
    (16_000, 0),
];

#[test]
fn ranges_are_read(rt: HostRuntime) -> Result<(), Fail> {
    let file = file_of(rt.alloc())?;
    let table = table_of(rt.alloc(), file.as_slice())?;
    assert!(rt; table.as_bytes().len() == 32);
    let source = MemoryFile::new(Bytes::copy_from_slice(rt.alloc(), file.as_slice())?);
    let blocks = BlockFile::new(source, table);
    assert!(rt; blocks.len() == 16_000);
    for (from, len) in RANGES {
        let read = blocks.read(rt.alloc(), from, len).ok().ok_or("refused")?;
        let expected = part(file.as_slice(), from as usize, len);
        assert!(rt; read.as_slice() == expected, "{from} {len}");
    }
    for (from, len) in [
        (16_000u64, 1usize),
        (15_999, 2),
        (u64::MAX, 1),
        (u64::MAX, 0),
    ] {
        assert!(rt; blocks.read(rt.alloc(), from, len).err() == Some(ReadFault::Range));
    }
    Ok(())
}

#[test]
fn other_tables_are_not_taken(rt: HostRuntime) -> Result<(), Fail> {
    let file = file_of(rt.alloc())?;
    let made = BlockTable::of(rt.alloc(), file.as_slice())?;
    let digest = FileDigest::new(file.as_slice());
    let short = Vec::from_slice(rt.alloc(), part(made.as_bytes(), 0, 24))?;
    assert!(rt; BlockTable::open(16_000, &digest, short).is_none());
    let mut changed = Vec::from_slice(rt.alloc(), made.as_bytes())?;
    change(&mut changed, 31);
    assert!(rt; BlockTable::open(16_000, &digest, changed).is_none());
    let same = Vec::from_slice(rt.alloc(), made.as_bytes())?;
    assert!(rt; BlockTable::open(12_288, &digest, same).is_none());
    let same = Vec::from_slice(rt.alloc(), made.as_bytes())?;
    let FileDigest::Blocks(digest) = digest else {
        return Err("no digest of blocks".into());
    };
    assert!(rt; BlockTable::open(16_000, &FileDigest::Sha256(digest), same).is_none());
    let same = Vec::from_slice(rt.alloc(), made.as_bytes())?;
    assert!(rt; BlockTable::open(16_000, &FileDigest::LongBlocks(digest), same).is_none());
    Ok(())
}

#[test]
fn a_changed_block_is_told(rt: HostRuntime) -> Result<(), Fail> {
    let path = "/tmp/ii_block_file_changed";
    let mut file = file_of(rt.alloc())?;
    let table = table_of(rt.alloc(), file.as_slice())?;
    change(&mut file, 5_000);
    fs::write(&rt, path, file.as_slice())?;
    let blocks = BlockFile::new(SystemFile::new(fs::open(&rt, path)?), table);
    let sound = blocks.read(rt.alloc(), 4_000, 96).ok().ok_or("refused")?;
    assert!(rt; sound.as_slice() == part(file.as_slice(), 4_000, 96));
    let damaged = blocks.read(rt.alloc(), 4_000, 97).err();
    assert!(rt; damaged == Some(ReadFault::Damaged(1)));
    let later = blocks.read(rt.alloc(), 8_192, 7_808).is_ok();
    assert!(rt; later);
    fs::write(&rt, path, part(file.as_slice(), 0, 9_000))?;
    let cut = blocks.read(rt.alloc(), 8_192, 1_000).err();
    assert!(rt; cut == Some(ReadFault::Refused(ErrorKind::UnexpectedEof)));
    let whole = blocks.read(rt.alloc(), 10, 10).is_ok();
    fs::remove_file(&rt, path)?;
    assert!(rt; whole);
    Ok(())
}

// Returns the bytes 1 to 3 of a file of four bytes, read after it was opened and removed, and whether a file that was
// removed opens.
fn opened<D: Directory>(alloc: Global, directory: &mut D) -> Result<([u8; 3], bool), Fail> {
    let name = Name::Segment(3, SegmentComponent::Terms);
    directory
        .write(name, &[7, 1, 2, 3])
        .ok()
        .ok_or("not written")?;
    let file = directory.open(alloc, name).ok().ok_or("refused")?;
    let file = file.ok_or("not there")?;
    directory.remove(name).ok().ok_or("not removed")?;
    let mut found = [0; 3];
    file.read_exact_at(&mut found, 1).ok().ok_or("not read")?;
    let past_end = file.read_exact_at(&mut [0; 3], 2).err();
    if past_end != Some(ErrorKind::UnexpectedEof) {
        return Err("read past the end".into());
    }
    let gone = directory.open(alloc, name).ok().ok_or("refused")?;
    Ok((found, gone.is_some()))
}

#[test]
fn an_open_file_stays_as_it_was(rt: HostRuntime) -> Result<(), Fail> {
    let mut memory = MemoryDirectory::create(rt.alloc());
    assert!(rt; opened(rt.alloc(), &mut memory)? == ([1, 2, 3], false));
    let path = "/tmp/ii_foundation_tests_open";
    let _ = fs::remove_dir_all(&rt, path);
    fs::create_dir(&rt, path)?;
    let found = opened(rt.alloc(), &mut Folder::new(&rt, path))?;
    fs::remove_dir_all(&rt, path)?;
    assert!(rt; found == ([1, 2, 3], false));
    Ok(())
}

// Returns the bytes of a file that was written in two pieces, and the number of files. Another file wasn't finished.
fn in_pieces<D: Directory>(alloc: Global, directory: &mut D) -> Result<(Vec<u8>, usize), Fail> {
    let name = Name::Segment(4, SegmentComponent::Store);
    let mut file = directory.create(alloc).ok().ok_or("refused")?;
    let unfinished = directory.create(alloc).ok().ok_or("refused")?;
    file.write_all(&[1, 2])?;
    file.write_all(&[3])?;
    drop(unfinished);
    directory.finish(name, file).ok().ok_or("not finished")?;
    let found = directory.read(alloc, name).ok().ok_or("not read")?;
    let names = directory.list(alloc).ok().ok_or("not listed")?;
    Ok((found.ok_or("not there")?, names.as_slice().len()))
}

#[test]
fn files_are_written_in_pieces(rt: HostRuntime) -> Result<(), Fail> {
    let mut memory = MemoryDirectory::create(rt.alloc());
    let (bytes, count) = in_pieces(rt.alloc(), &mut memory)?;
    assert!(rt; bytes.as_slice() == [1, 2, 3].as_slice() && count == 1);
    let path = "/tmp/ii_foundation_tests_pieces";
    let _ = fs::remove_dir_all(&rt, path);
    fs::create_dir(&rt, path)?;
    let (bytes, count) = in_pieces(rt.alloc(), &mut Folder::new(&rt, path))?;
    let removed = remove_unfinished(&rt, path).is_ok();
    let mut files = 0u64;
    for entry in fs::read_dir(&rt, path)? {
        let _ = entry?;
        files = files.saturating_add(1);
    }
    fs::remove_dir_all(&rt, path)?;
    assert!(rt; bytes.as_slice() == [1, 2, 3].as_slice() && count == 1);
    assert!(rt; removed && files == 1);
    Ok(())
}

#[test]
fn a_lock_removes_unfinished_files(rt: HostRuntime) -> Result<(), Fail> {
    let path = "/tmp/ii_foundation_tests_unfinished";
    let left = "/tmp/ii_foundation_tests_unfinished/unfinished.12";
    let foreign = "/tmp/ii_foundation_tests_unfinished/unfinished.txt";
    let _ = fs::remove_dir_all(&rt, path);
    fs::create_dir(&rt, path)?;
    fs::write(&rt, left, "left")?;
    fs::write(&rt, foreign, "mine")?;
    let lock = FolderLock::try_lock(&rt, path);
    let is_left = fs::exists(&rt, left)?;
    let is_kept = fs::exists(&rt, foreign)?;
    fs::remove_dir_all(&rt, path)?;
    assert!(rt; matches!(lock, Ok(Some(_))));
    assert!(rt; !is_left && is_kept);
    Ok(())
}
