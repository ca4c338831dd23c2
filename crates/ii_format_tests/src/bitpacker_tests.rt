use ii_codes::{BitPacker, compute_num_bits, extract_bits};
use ii_io::{CountingWriter, FailingWriter, Fault};
use std::alloc::Global;
use std::io::Write;
use std::test::Fail;

// 321, 2 and 51, in 9, 2 and 6 bits.
const PACKED: [u8; 3] = [0x41, 0x9D, 0x01];

// Packs these numbers until the first fault.
fn pack<W: Write>(output: &mut CountingWriter<W>) -> Result<(), Fault> {
    let mut packer = BitPacker::new();
    packer.write(321, 9, output)?;
    packer.write(2, 2, output)?;
    packer.write(51, 6, output)?;
    packer.close(output)
}

#[test]
fn packs_and_extracts(rt: HostRuntime) -> Result<(), Fail> {
    let mut output = CountingWriter::wrap(Vec::new(rt.alloc()));
    pack(&mut output)?;
    let bytes = output.finish();
    assert!(rt; bytes.as_slice() == PACKED.as_slice());
    let numbers = [
        extract_bits(&bytes, 0, 9),
        extract_bits(&bytes, 9, 2),
        extract_bits(&bytes, 11, 6),
    ];
    assert!(rt; numbers == [321, 2, 51]);
    Ok(())
}

// Packs numbers of 64 bits.
fn pack_most(output: &mut CountingWriter<Vec<u8>>) -> Result<(), Fault> {
    let mut packer = BitPacker::default();
    packer.write(1, 1, output)?;
    packer.write(u64::MAX, 64, output)?;
    packer.write(0, 0, output)?;
    packer.flush(output)?;
    packer.flush(output)
}

#[test]
fn packs_all_64_bits(rt: HostRuntime) -> Result<(), Fail> {
    let mut output = CountingWriter::wrap(Vec::new(rt.alloc()));
    pack_most(&mut output)?;
    assert!(rt;
        output.finish().as_slice() == [255, 255, 255, 255, 255, 255, 255, 255, 1].as_slice()
    );
    Ok(())
}

#[test]
fn extracts_up_to_56_bits(rt: HostRuntime) {
    let bytes = [0xFFu8; 8];
    let numbers = [
        extract_bits(&bytes, 7, 56),
        extract_bits(&bytes, 8, 56),
        extract_bits(&bytes, 64, 0),
    ];
    assert!(rt; numbers == [72_057_594_037_927_935, 72_057_594_037_927_935, 0]);
    let bits = [
        compute_num_bits(0),
        compute_num_bits(1),
        compute_num_bits(2),
        compute_num_bits(51),
        compute_num_bits(321),
        compute_num_bits(u64::MAX),
    ];
    assert!(rt; bits == [0, 1, 2, 6, 9, 64]);
}

// Returns the result when a call fails, whether the bytes written are a prefix, and the failed calls.
fn packed_until(alloc: Global, failing_call: u64) -> (Result<(), Fault>, bool, u64) {
    let mut output = CountingWriter::wrap(FailingWriter::new(alloc, failing_call));
    let answer = pack(&mut output);
    let failed_calls = output.failed_calls();
    let begun = PACKED.starts_with(output.finish().bytes());
    (answer, begun, failed_calls)
}

#[test]
fn a_failing_writer_is_told(rt: HostRuntime) {
    // a write for each of the three bytes
    for call in 1..4 {
        assert!(rt;
            packed_until(rt.alloc(), call) == (Err(Fault::Write), true, 1),
            "call {call}"
        );
    }
    assert!(rt; packed_until(rt.alloc(), 5) == (Ok(()), true, 0));
}
