ghost use Rattle.std.specs.Prelude.{◌≡◌, ◌+◌, ◌*◌, ◌^◌, ◌<◌, ◌≤◌, ◌↔◌, ◌⊎◌, [], ◌∷◌, ◌++◌, true, false, length, Some, OnOk, OnErr, IfErr, IsErrOf, IsTrue};
ghost use Rattle.ii_io.specs.CountingWriter.{Writes, WritesUnlessClosed, Closes};
ghost use Rattle.ii_io.specs.Numbers.{le_bytes};
ghost use Rattle.ii_termstore.specs.TermInfos.{HasLengths};
ghost use Rattle.ii_termstore.specs.TermStore.{block_count, meta_size, term_store};
ghost use Rattle.ii_termstore.specs.ReadBack.{AreJoined};
ghost use Rattle.ii_termstore.specs.Written.{HaveLengths, written_store};
ghost use Rattle.ii_termstore.specs.TermInfoStoreWriter.{open_meta, open_bits};

use super::BLOCK_LEN;
use super::gathered_blocks::{GatheredBlocks, add_term, put_bits, put_head, put_metas};
use super::given_terms::GivenTerms;
use crate::term_info::TermInfo;
use crate::written::reads_store_back;
use ii_io::{CountingWriter, Fault, LimitName};
use std::alloc::Global;
use std::io::Write;
use std::marker::Model;

/// Gathers term infos, and writes them as a store. It keeps a full block of 256 terms as its bytes. The model
/// is the terms, and whether an earlier call failed.
pub struct TermInfoStoreWriter {
    blocks: GatheredBlocks,
    given: GivenTerms,
    is_closed: bool,
}

// A drop has to be a call.
impl Drop for TermInfoStoreWriter {
    fn drop(self) {
        let TermInfoStoreWriter {
            blocks: _,
            given: _,
            is_closed: _,
        } = self;
    }
}

impl Model for TermInfoStoreWriter {
    ghost use Rattle.std.specs.Prelude.{◌≡◌, false};
    ghost use Rattle.ii_termstore.specs.TermInfoStoreWriter.{TermInfoStoreWriterState, AreGathered, AreSound};

    ghost Value = { TermInfoStoreWriterState };

    ghost view = { λ w. record { infos = w.given.infos; closed = w.is_closed } };

    ghost invariant = { λ w. w.is_closed ≡ false
        → AreGathered w.given.infos w.blocks.num_terms w.blocks.block_metas.items w.blocks.block_bits.items w.blocks.open_block.items
        × AreSound w.given.infos };
}

impl TermInfoStoreWriter {
    /// Creates a writer without terms.
    pub fn new(alloc: Global) -> TermInfoStoreWriter
        ensures { result ≡ record { infos = []; closed = false } }
    {
        TermInfoStoreWriter {
            blocks: GatheredBlocks::new(alloc),
            given: GivenTerms::new(),
            is_closed: false,
        }
    }

    /// Adds a term. Its ranges must begin where those of the previous term end, and their lengths must fit in
    /// `u32`. A closed writer has no preconditions.
    ///
    /// # Errors
    ///
    /// * `OutOfMemory` if the store can't grow.
    /// * `Limit(Offset)` if the number of terms would exceed `u64::MAX`.
    /// * `SerializerClosed` after an earlier error.
    pub fn write_term_info(&mut self, term_info: &TermInfo) -> Result<(), Fault>
        requires lengths { self.old.closed ≡ false → HasLengths term_info.now }
        requires joined { self.old.closed ≡ false → AreJoined (self.old.infos ++ term_info.now ∷ []) }
        ensures ok { OnOk result (self.new ≡ record self.old { infos = self.old.infos ++ term_info.now ∷ [] }) }
        ensures err { OnErr result (self.new ≡ record self.old { closed = true }) }
        ensures closed { IsErrOf result Fault.SerializerClosed ↔ IsTrue self.old.closed }
        ensures limit { IsErrOf result (Fault.Limit LimitName.Offset) ↔ (self.old.closed ≡ false) × (length self.old.infos + 1 ≡ 2 ^ 64) }
        ensures only { IfErr result (λ e. (e ≡ Fault.OutOfMemory) ⊎ (e ≡ Fault.Limit LimitName.Offset) ⊎ (e ≡ Fault.SerializerClosed)) }
    {
        if self.is_closed {
            return Err(Fault::SerializerClosed);
        }
        let added = add_term(&mut self.blocks, term_info);
        if added.is_err() {
            self.is_closed = true;
            return added;
        }
        self.given = self.given.and(term_info);
        Ok(())
    }

    /// Writes the store of all terms, which opens as these terms. Never allocates.
    ///
    /// The bytes are the length of the metas and the number of terms in 8 bytes each, the metas of the
    /// blocks, and their bits.
    ///
    /// # Errors
    ///
    /// * `Write` if the writer fails; a prefix of the store is then written.
    /// * `Limit(Offset)` if a count of the writer would exceed `u64::MAX`; a prefix of the store is then
    ///   written.
    /// * `SerializerClosed` after an earlier error; nothing is then written.
    pub fn serialize<W: Write>(&mut self, writer: &mut CountingWriter<W>) -> Result<(), Fault>
        ensures written { WritesUnlessClosed self.old.closed writer.old writer.new (written_store self.old.infos) result }
        ensures holds { self.old.closed ≡ false → term_store (written_store self.old.infos) ≡ Some self.old.infos }
        ensures infos { self.new.infos ≡ self.old.infos }
        ensures closes { Closes result self.new.closed }
    {
        if self.is_closed {
            return Err(Fault::SerializerClosed);
        }
        reads_store_back();
        let written = put_store(&self.blocks, writer);
        self.is_closed = written.is_err();
        written
    }
}

// Writes the store of the gathered blocks.
fn put_store<W: Write>(blocks: &GatheredBlocks, writer: &mut CountingWriter<W>) -> Result<(), Fault>
    requires few { length blocks.now.open_block.items ≤ BLOCK_LEN }
    requires lengths { HaveLengths blocks.now.open_block.items }
    ensures written { Writes writer.old writer.new
        ((le_bytes 8 (meta_size * block_count blocks.now.num_terms) ++ le_bytes 8 blocks.now.num_terms)
        ++ (blocks.now.block_metas.items ++ open_meta (length blocks.now.block_bits.items) blocks.now.open_block.items)
        ++ (blocks.now.block_bits.items ++ open_bits blocks.now.open_block.items)) result }
    ensures small { (blocks.now.num_terms < 2 ^ 64) × (length blocks.now.block_bits.items < 2 ^ 64) }
{
    let offset = blocks.block_bits.len() as u64;
    let head = put_head(blocks.num_terms, writer);
    if head.is_err() {
        return head;
    }
    let metas = put_metas(blocks, offset, writer);
    if metas.is_err() {
        return metas;
    }
    put_bits(blocks, writer)
}
