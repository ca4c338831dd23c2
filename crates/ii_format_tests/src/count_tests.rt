use bytes::Bytes;
use ii_base::{CountingWriter, Fault, Field, Part};
use ii_counts::{CountReaders, CountsSerializer};
use std::alloc::Global;
use std::test::Fail;

// Field 1, whose documents have 3, 0 and 200 tokens.
static THREE_COUNTS: [u8; 29] = [
    128, 131, 128, 72, 129, 1, 0, 0, 0, 0, 0, 0, 0, 0, 0, 0, 0, 5, 0, 0, 0, 0, 0, 0, 0, 1, 0, 0, 0,
];

// Returns the file of one field with these counts.
fn file_of(alloc: Global, field: u32, counts: &[u32]) -> Result<Vec<u8>, Fault> {
    let writer = CountingWriter::wrap(Vec::new(alloc));
    let mut serializer = CountsSerializer::from_write(alloc, writer);
    let written = serializer.serialize_field(alloc, Field::from_field_id(field), counts);
    let (writer, closed) = serializer.close();
    written?;
    closed?;
    Ok(writer.finish())
}

// Returns the sum of a field's counts, each times the number of its document plus 1, and how many there are.
fn weighed(readers: &CountReaders, field: u32, num_docs: u32) -> Result<Option<(u64, u32)>, Fault> {
    let Some(mut reader) = readers.get_field(Field::from_field_id(field), num_docs)? else {
        return Ok(None);
    };
    let mut sum: u64 = 0;
    for doc in 0..reader.num_docs() {
        sum = sum.saturating_add(u64::from(reader.count(doc)) * (u64::from(doc) + 1));
    }
    Ok(Some((sum, reader.num_docs())))
}

#[test]
fn counts_are_written_and_read(rt: HostRuntime) -> Result<(), Fail> {
    let file = file_of(rt.alloc(), 1, &[3, 0, 200])?;
    assert!(rt; file.as_slice() == THREE_COUNTS.as_slice());
    let readers = CountReaders::open(rt.alloc(), Bytes::from_static(&THREE_COUNTS))?;
    assert!(rt; weighed(&readers, 1, 3) == Ok(Some((603, 3))));
    assert!(rt; weighed(&readers, 0, 3) == Ok(None));
    for num_docs in [0, 2, 4] {
        assert!(rt; weighed(&readers, 1, num_docs) == Err(Fault::Damaged(Part::TokenCount)));
    }
    let cut = CountReaders::open(rt.alloc(), Bytes::from_static(&THREE_COUNTS[1..]));
    assert!(rt; cut.is_err());
    Ok(())
}

// 300 documents, so two full blocks: document d has d tokens.
#[test]
fn many_counts_are_read_back(rt: HostRuntime) -> Result<(), Fail> {
    let mut counts = Vec::new(rt.alloc());
    for doc in 0..300 {
        counts.push(doc)?;
    }
    let file = file_of(rt.alloc(), 0, &counts)?;
    let readers = CountReaders::open(rt.alloc(), Bytes::from_vec(file)?)?;
    // the sum of d * (d + 1) for d below 300
    assert!(rt; weighed(&readers, 0, 300) == Ok(Some((8_999_900, 300))));
    Ok(())
}
