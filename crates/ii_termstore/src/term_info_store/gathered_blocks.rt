ghost use Rattle.std.specs.Prelude.{◌≡◌, ◌+◌, ◌*◌, ◌-◌, ◌^◌, ◌<◌, ◌≤◌, ◌↔◌, ◌⊎◌, List, [], ◌∷◌, ◌++◌, length, drop, OnOk, IfErr, IsErrOf};
ghost use Rattle.ii_io.specs.CountingWriter.{Writes};
ghost use Rattle.ii_io.specs.Faults.{OnlyMemory};
ghost use Rattle.ii_io.specs.Numbers.{le_bytes};
ghost use Rattle.ii_termstore.specs.declared.term_info.TermInfo.{TermInfo as Info};
ghost use Rattle.ii_termstore.specs.TermInfos.{HasLengths, IsInRange};
ghost use Rattle.ii_termstore.specs.TermStore.{block_count, meta_size, meta_bytes};
ghost use Rattle.ii_termstore.specs.Written.{AreNarrow, FitsBlock, HaveLengths, first_of, meta_for, block_row};
ghost use Rattle.ii_termstore.specs.TermInfoStoreWriter.{AreGathered, open_meta, open_bits};
ghost use Rattle.ii_codes.specs.Bits.{bits_bytes};

use super::BLOCK_LEN;
use super::block_meta::{TermInfoBlockMeta, put_meta};
use super::packing::{MAX_BLOCK_BYTES, meta_for, pack_block};
use super::store_view::{META_SIZE, count_blocks};
use crate::term_info::{TermInfo, put_u64};
use ii_io::{BinarySerializable, CountingWriter, Fault, FixedSize, LimitName};
use std::alloc::Global;
use std::io::Write;

/// Holds the terms of a store before it is written: the metas and the bits of the full blocks as bytes, and
/// the terms after them, fewer than 256.
#[derive(Drop)]
pub(super) struct GatheredBlocks {
    pub num_terms: u64,
    pub block_metas: Vec<u8>,
    pub block_bits: Vec<u8>,
    pub open_block: Vec<TermInfo>,
}

impl GatheredBlocks {
    pub fn new(alloc: Global) -> GatheredBlocks
        ensures { AreGathered [] result.num_terms result.block_metas.items result.block_bits.items result.open_block.items }
    {
        GatheredBlocks {
            num_terms: 0,
            block_metas: Vec::new(alloc),
            block_bits: Vec::new(alloc),
            open_block: Vec::new(alloc),
        }
    }
}

/// Adds a term, and encodes the open block if it is then full.
pub(super) fn add_term(blocks: &mut GatheredBlocks, info: &TermInfo) -> Result<(), Fault>
    requires lengths { HasLengths info.now }
    requires all_lengths { HaveLengths blocks.old.open_block.items }
    requires few { length blocks.old.open_block.items < BLOCK_LEN }
    ensures gathered { (infos : List Info)
        → AreGathered infos blocks.old.num_terms blocks.old.block_metas.items blocks.old.block_bits.items blocks.old.open_block.items
        → OnOk result (AreGathered (infos ++ info.now ∷ []) blocks.new.num_terms blocks.new.block_metas.items blocks.new.block_bits.items blocks.new.open_block.items) }
    ensures range { OnOk result (IsInRange info.now) }
    ensures limit { IsErrOf result (Fault.Limit LimitName.Offset) ↔ (blocks.old.num_terms ≡ 2 ^ 64 - 1) }
    ensures only { IfErr result (λ e. (e ≡ Fault.OutOfMemory) ⊎ (e ≡ Fault.Limit LimitName.Offset)) }
{
    let Some(num_terms) = blocks.num_terms.checked_add(1) else {
        return Err(Fault::Limit(LimitName::Offset));
    };
    blocks.open_block.push(info.copied())?;
    blocks.num_terms = num_terms;
    if blocks.open_block.len() < BLOCK_LEN {
        return Ok(());
    }
    flush_block(blocks)
}

// Encodes the open block.
fn flush_block(blocks: &mut GatheredBlocks) -> Result<(), Fault>
    requires some { 0 < length blocks.old.open_block.items }
    requires few { length blocks.old.open_block.items ≤ BLOCK_LEN }
    requires lengths { HaveLengths blocks.old.open_block.items }
    ensures metas { OnOk result (blocks.new.block_metas.items
        ≡ blocks.old.block_metas.items ++ open_meta (length blocks.old.block_bits.items) blocks.old.open_block.items) }
    ensures bits { OnOk result (blocks.new.block_bits.items ≡ blocks.old.block_bits.items ++ open_bits blocks.old.open_block.items) }
    ensures terms { OnOk result ((blocks.new.open_block.items ≡ []) × (blocks.new.num_terms ≡ blocks.old.num_terms)) }
    ensures only { OnlyMemory result }
{
    let meta = block_meta(&blocks.open_block, blocks.block_bits.len() as u64);
    add_meta(&meta, &mut blocks.block_metas)?;
    add_bits(&meta, &blocks.open_block[1..], &mut blocks.block_bits)?;
    blocks.open_block.clear();
    Ok(())
}

// Returns the meta of a block whose bits begin at `offset`.
fn block_meta(infos: &[TermInfo], offset: u64) -> TermInfoBlockMeta
    requires { 0 < length infos.now }
    ensures value { result ≡ meta_for offset (first_of infos.now) (drop 1 infos.now) }
    ensures narrow { AreNarrow result }
    ensures fits { FitsBlock result (drop 1 infos.now) }
{
    match infos {
        [first, others @ ..] => meta_for(offset, first, others),
        [] => unreachable!(),
    }
}

fn add_meta(meta: &TermInfoBlockMeta, metas: &mut Vec<u8>) -> Result<(), Fault>
    requires { HasLengths meta.now.ref_term_info }
    ensures ok { OnOk result (metas.new.items ≡ metas.old.items ++ meta_bytes meta.now) }
    ensures only { OnlyMemory result }
{
    let mut bytes = [0; TermInfoBlockMeta::SIZE_IN_BYTES];
    put_meta(&mut bytes, meta);
    metas.extend_from_slice(&bytes)?;
    Ok(())
}

// Adds the bits of a block, given its terms after the first.
fn add_bits(meta: &TermInfoBlockMeta, others: &[TermInfo], bits: &mut Vec<u8>) -> Result<(), Fault>
    requires narrow { AreNarrow meta.now }
    requires fits { FitsBlock meta.now others.now }
    requires few { length others.now < BLOCK_LEN }
    ensures ok { OnOk result (bits.new.items ≡ bits.old.items ++ bits_bytes (block_row meta.now others.now)) }
    ensures only { OnlyMemory result }
{
    let mut buffer = [0; MAX_BLOCK_BYTES];
    let count = pack_block(meta, others, &mut buffer);
    bits.extend_from_slice(&buffer[..count])?;
    Ok(())
}

/// Writes the length of the metas and the number of terms.
pub(super) fn put_head<W: Write>(n: u64, writer: &mut CountingWriter<W>) -> Result<(), Fault>
    ensures { Writes writer.old writer.new (le_bytes 8 (meta_size * block_count n) ++ le_bytes 8 n) result }
{
    let mut bytes = [0; 16];
    let (metas, terms) = bytes.split_at_mut(8);
    put_u64(metas, META_SIZE * count_blocks(n));
    put_u64(terms, n);
    writer.write_all(&bytes)
}

/// Writes the metas of all blocks. The open block is the last, and its bits begin at `offset`.
pub(super) fn put_metas<W: Write>(
    blocks: &GatheredBlocks,
    offset: u64,
    writer: &mut CountingWriter<W>,
) -> Result<(), Fault>
    requires { HaveLengths blocks.now.open_block.items }
    ensures { Writes writer.old writer.new (blocks.now.block_metas.items ++ open_meta offset blocks.now.open_block.items) result }
{
    let put = writer.write_all(&blocks.block_metas);
    if put.is_err() {
        return put;
    }
    put_open_meta(&blocks.open_block, offset, writer)
}

fn put_open_meta<W: Write>(
    infos: &[TermInfo],
    offset: u64,
    writer: &mut CountingWriter<W>,
) -> Result<(), Fault>
    requires { HaveLengths infos.now }
    ensures { Writes writer.old writer.new (open_meta offset infos.now) result }
{
    if infos.is_empty() {
        return Ok(());
    }
    block_meta(infos, offset).serialize(writer)
}

/// Writes the bits of all blocks, the open one last.
pub(super) fn put_bits<W: Write>(
    blocks: &GatheredBlocks,
    writer: &mut CountingWriter<W>,
) -> Result<(), Fault>
    requires { length blocks.now.open_block.items ≤ BLOCK_LEN }
    ensures { Writes writer.old writer.new (blocks.now.block_bits.items ++ open_bits blocks.now.open_block.items) result }
{
    let put = writer.write_all(&blocks.block_bits);
    if put.is_err() {
        return put;
    }
    put_open_bits(&blocks.open_block, writer)
}

fn put_open_bits<W: Write>(infos: &[TermInfo], writer: &mut CountingWriter<W>) -> Result<(), Fault>
    requires { length infos.now ≤ BLOCK_LEN }
    ensures { Writes writer.old writer.new (open_bits infos.now) result }
{
    match infos {
        [first, others @ ..] => put_block(&meta_for(0, first, others), others, writer),
        [] => Ok(()),
    }
}

// Writes the bits of a block, given its terms after the first.
fn put_block<W: Write>(
    meta: &TermInfoBlockMeta,
    others: &[TermInfo],
    writer: &mut CountingWriter<W>,
) -> Result<(), Fault>
    requires narrow { AreNarrow meta.now }
    requires fits { FitsBlock meta.now others.now }
    requires few { length others.now < BLOCK_LEN }
    ensures { Writes writer.old writer.new (bits_bytes (block_row meta.now others.now)) result }
{
    let mut buffer = [0; MAX_BLOCK_BYTES];
    let count = pack_block(meta, others, &mut buffer);
    writer.write_all(&buffer[..count])
}
