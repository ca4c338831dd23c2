ghost use Rattle.std.specs.Prelude.{◌≡◌, ◌-◌, ◌^◌, ◌<◌, ◌≤◌, ◌↔◌, ◌==◌, ℕ, [], ◌∷◌, ◌++◌, length, take, get_or, min, false, true, IsTrue, Some, OnOk, OnErr, IsErrOf};
ghost use Rattle.ii_io.specs.CountingWriter.{Writes, WritesUnlessClosed};
ghost use Rattle.ii_io.specs.Faults.{OnlyMemory, OnlyMemoryOrClosed};
ghost use Rattle.ii_io.specs.Vints.{vint_u64};
ghost use Rattle.ii_codes.specs.Blocks.{unsorted_width, unsorted_bytes};
ghost use Rattle.ii_layout.specs.Positions.{position_deltas, written_positions};

use super::copy_into;
use ii_codes::{BlockEncoder, COMPRESSION_BLOCK_SIZE, VIntEncoder};
use ii_io::vint::{self, MAX_LONG_VINT_SIZE};
use ii_io::{CountingWriter, Fault};
use std::alloc::Global;
use std::io::Write;
use std::marker::Model;

/// Holds at most 128 deltas.
#[derive(Drop)]
struct DeltaBlock {
    deltas: [u32; COMPRESSION_BLOCK_SIZE],
    len: usize,
}

impl Model for DeltaBlock {
    ghost use Rattle.std.specs.Prelude.{ℕ, List, take, ◌≤◌};

    ghost Value = { List ℕ };

    ghost view = { λ b. take b.len b.deltas };

    ghost invariant = { λ b. b.len ≤ 128 };
}

impl DeltaBlock {
    fn new() -> DeltaBlock
        ensures { result ≡ [] }
    {
        DeltaBlock {
            deltas: [0; COMPRESSION_BLOCK_SIZE],
            len: 0,
        }
    }

    fn deltas(&self) -> &[u32]
        ensures { result.now ≡ self.now }
    {
        &self.deltas[..self.len]
    }

    fn is_full(&self) -> bool
        ensures full { result ≡ (length self.now == 128) }
        ensures few { length self.now ≤ 128 }
    {
        self.len == COMPRESSION_BLOCK_SIZE
    }

    // Adds as many of the first deltas as fit, and returns how many.
    fn fill(&mut self, deltas: &[u32]) -> usize
        ensures count { result ≡ min (length deltas.now) (128 - length self.old) }
        ensures filled { self.new ≡ self.old ++ take result deltas.now }
    {
        let count = copy_into(deltas, 0, &mut self.deltas, self.len);
        self.len += count;
        count
    }

    fn clear(&mut self)
        ensures { self.new ≡ [] }
    {
        self.len = 0;
    }
}

/// Holds the packed full blocks of the open term.
#[derive(Drop)]
struct PackedDeltas {
    block_encoder: BlockEncoder,
    bit_widths: Vec<u8>,
    positions_buffer: Vec<u8>,
}

impl Model for PackedDeltas {
    ghost use Rattle.std.specs.Prelude.{ℕ, List};
    ghost use Rattle.ii_layout.specs.PositionSerializer.{PacksDeltas, deltas_in};

    ghost Value = { List ℕ };

    ghost view = { λ p. deltas_in p.bit_widths.items p.positions_buffer.items };

    ghost invariant = { λ p. PacksDeltas (deltas_in p.bit_widths.items p.positions_buffer.items) p.bit_widths.items p.positions_buffer.items };
}

impl PackedDeltas {
    fn new(alloc: Global) -> PackedDeltas
        ensures { result ≡ [] }
    {
        PackedDeltas {
            block_encoder: BlockEncoder::new(),
            bit_widths: Vec::new(alloc),
            positions_buffer: Vec::new(alloc),
        }
    }

    // Packs a block after the others and empties it, if it is full. An allocation failure drops all deltas.
    fn push_full(&mut self, block: &mut DeltaBlock) -> Result<(), Fault>
        ensures few { length block.new < 128 }
        ensures ok { OnOk result (self.new ++ block.new ≡ self.old ++ block.old) }
        ensures err { OnErr result (self.new ++ block.new ≡ []) }
        ensures only { OnlyMemory result }
    {
        if !block.is_full() {
            return Ok(());
        }
        let packed = pack(
            block.deltas(),
            &mut self.block_encoder,
            &mut self.bit_widths,
            &mut self.positions_buffer,
        );
        block.clear();
        match packed {
            Ok(()) => Ok(()),
            Err(fault) => {
                self.bit_widths.clear();
                self.positions_buffer.clear();
                Err(fault)
            }
        }
    }

    // Writes the number of blocks, their widths, the blocks, and fewer than 128 further deltas.
    fn write_with<W: Write>(
        &mut self,
        rest: &[u32],
        positions_write: &mut CountingWriter<W>,
    ) -> Result<(), Fault>
        requires { length rest.now < 128 }
        ensures same { self.new ≡ self.old }
        ensures written { Writes positions_write.old positions_write.new (written_positions (self.old ++ rest.now)) result }
        ensures holds { position_deltas (written_positions (self.old ++ rest.now)) ≡ Some (self.old ++ rest.now) }
    {
        let num_blocks = self.bit_widths.len() as u64;
        let mut number = [0; MAX_LONG_VINT_SIZE];
        let end = vint::write_u64(num_blocks, &mut number, 0);
        let count = positions_write.write_all(&number[..end]);
        if count.is_err() {
            return count;
        }
        let widths = positions_write.write_all(&self.bit_widths);
        if widths.is_err() {
            return widths;
        }
        let blocks = positions_write.write_all(&self.positions_buffer);
        if blocks.is_err() {
            return blocks;
        }
        let bytes = self.block_encoder.compress_vint_unsorted(rest);
        positions_write.write_all(bytes)
    }

    fn clear(&mut self)
        ensures { self.new ≡ [] }
    {
        self.bit_widths.clear();
        self.positions_buffer.clear();
    }
}

// Adds the width and the bytes of a full block.
fn pack(
    block: &[u32],
    block_encoder: &mut BlockEncoder,
    bit_widths: &mut Vec<u8>,
    positions_buffer: &mut Vec<u8>,
) -> Result<(), Fault>
    requires { length block.now ≡ 128 }
    ensures widths { OnOk result (bit_widths.new.items ≡ bit_widths.old.items ++ unsorted_width false block.now ∷ []) }
    ensures bytes { OnOk result (positions_buffer.new.items ≡ positions_buffer.old.items ++ unsorted_bytes false block.now) }
    ensures fit { OnOk result ((k : ℕ) → get_or block.now k 0 < 2 ^ 32) }
    ensures only { OnlyMemory result }
{
    let (num_bits, bytes) = block_encoder.compress_block_unsorted(block, false);
    bit_widths.push(num_bits)?;
    positions_buffer.extend_from_slice(bytes)?;
    Ok(())
}

/// Writes the positions of one term after the other to a borrowed writer. Its model is the deltas of the open
/// term, which an error drops.
pub struct PositionWriter {
    packed: PackedDeltas,
    block: DeltaBlock,
}

// A drop has to be a call.
impl Drop for PositionWriter {
    fn drop(self) {
        let PositionWriter {
            packed: _,
            block: _,
        } = self;
    }
}

impl Model for PositionWriter {
    ghost use Rattle.std.specs.Prelude.{◌<◌, ◌++◌, ℕ, List, length};

    ghost Value = { List ℕ };

    ghost view = { λ w. w.packed ++ w.block };

    ghost invariant = { λ w. length w.block < 128 };
}

impl PositionWriter {
    /// Creates a writer whose open term has no deltas.
    pub fn new(alloc: Global) -> PositionWriter
        ensures { result ≡ [] }
    {
        PositionWriter {
            packed: PackedDeltas::new(alloc),
            block: DeltaBlock::new(),
        }
    }

    /// Adds deltas to the open term: the distance of each position of a document from the previous one, the
    /// first from 0.
    ///
    /// Returns `OutOfMemory` if an allocation fails; the deltas are then dropped.
    pub fn write_positions_delta(&mut self, positions_delta: &[u32]) -> Result<(), Fault>
        ensures ok { OnOk result (self.new ≡ self.old ++ positions_delta.now) }
        ensures err { OnErr result (self.new ≡ []) }
        ensures only { OnlyMemory result }
    {
        let mut done = 0;
        while done < positions_delta.len() {
            done += self.block.fill(&positions_delta[done..]);
            self.packed.push_full(&mut self.block)?;
        }
        Ok(())
    }

    /// Writes the deltas of the term and ends it. A `PositionReader` reads them back.
    ///
    /// The bytes are the number of full blocks as a vint, one byte for the width of each, the packed blocks,
    /// and the other deltas as vints. Never allocates.
    ///
    /// # Errors
    ///
    /// * `Write` if the writer fails; a prefix is then written.
    /// * `Limit(Offset)` if a count of the writer would exceed `u64::MAX`; a prefix is then written.
    pub fn close_term<W: Write>(
        &mut self,
        positions_write: &mut CountingWriter<W>,
    ) -> Result<(), Fault>
        ensures written { Writes positions_write.old positions_write.new (written_positions self.old) result }
        ensures holds { position_deltas (written_positions self.old) ≡ Some self.old }
        ensures ended { self.new ≡ [] }
    {
        let written = self.packed.write_with(self.block.deltas(), positions_write);
        self.packed.clear();
        self.block.clear();
        written
    }
}

/// Writes the positions of one term after the other to a writer that it owns. The model includes the writer.
///
/// After an error it is closed: each further call returns `SerializerClosed`.
#[derive(Drop)]
pub struct PositionSerializer<W: Write> {
    positions_write: CountingWriter<W>,
    positions: PositionWriter,
    is_closed: bool,
}

impl<W: Write> Model for PositionSerializer<W> {
    ghost use Rattle.std.specs.Prelude.{◌≡◌, [], IsTrue};
    ghost use Rattle.ii_layout.specs.PositionSerializer.{PositionSerializerState};

    ghost Value = { PositionSerializerState };

    ghost view = { λ s. record { writer = s.positions_write; deltas = s.positions; closed = s.is_closed } };

    ghost invariant = { λ s. IsTrue s.is_closed → s.positions ≡ [] };
}

impl<W: Write> PositionSerializer<W> {
    /// Creates a serializer whose open term has no deltas.
    pub fn new(alloc: Global, positions_write: CountingWriter<W>) -> PositionSerializer<W>
        ensures { result ≡ record { writer = positions_write; deltas = []; closed = false } }
    {
        PositionSerializer {
            positions_write,
            positions: PositionWriter::new(alloc),
            is_closed: false,
        }
    }

    /// Returns how many bytes were written through the writer.
    pub fn written_bytes(&self) -> u64
        ensures { result ≡ self.now.writer.written_bytes }
    {
        self.positions_write.written_bytes()
    }

    /// Adds deltas to the open term.
    ///
    /// # Errors
    ///
    /// * `OutOfMemory` if an allocation fails; the deltas are then dropped.
    /// * `SerializerClosed` after an earlier error.
    pub fn write_positions_delta(&mut self, positions_delta: &[u32]) -> Result<(), Fault>
        ensures ok { OnOk result (self.new ≡ record self.old { deltas = self.old.deltas ++ positions_delta.now; closed = false }) }
        ensures err { OnErr result (self.new ≡ record self.old { deltas = []; closed = true }) }
        ensures closed { IsErrOf result Fault.SerializerClosed ↔ IsTrue self.old.closed }
        ensures only { OnlyMemoryOrClosed result }
    {
        if self.is_closed {
            return Err(Fault::SerializerClosed);
        }
        let added = self.positions.write_positions_delta(positions_delta);
        self.is_closed = added.is_err();
        added
    }

    /// Writes the deltas of the term and ends it, with the errors of `PositionWriter::close_term`, and
    /// `SerializerClosed` after an earlier error. Never allocates.
    pub fn close_term(&mut self) -> Result<(), Fault>
        ensures written { WritesUnlessClosed self.old.closed self.old.writer self.new.writer (written_positions self.old.deltas) result }
        ensures holds { OnOk result (position_deltas (written_positions self.old.deltas) ≡ Some self.old.deltas) }
        ensures ok { OnOk result ((self.new.deltas ≡ []) × (self.new.closed ≡ false)) }
        ensures err { OnErr result ((self.new.deltas ≡ []) × (self.new.closed ≡ true)) }
    {
        if self.is_closed {
            return Err(Fault::SerializerClosed);
        }
        let written = self.positions.close_term(&mut self.positions_write);
        self.is_closed = written.is_err();
        written
    }

    /// Flushes and returns the writer. The deltas of a term that wasn't ended are dropped.
    ///
    /// # Errors
    ///
    /// * `Write` if the writer fails.
    /// * `Limit(Offset)` if its count of failed calls would exceed `u64::MAX`.
    /// * `SerializerClosed` after an earlier error; the writer isn't touched.
    pub fn close(self) -> (CountingWriter<W>, Result<(), Fault>)
        ensures { WritesUnlessClosed self.closed self.writer result.0 [] result.1 }
    {
        let PositionSerializer {
            mut positions_write,
            positions: _,
            is_closed,
        } = self;
        if is_closed {
            return (positions_write, Err(Fault::SerializerClosed));
        }
        let flushed = positions_write.flush();
        (positions_write, flushed)
    }
}
