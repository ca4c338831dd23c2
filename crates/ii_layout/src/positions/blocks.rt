ghost use Rattle.std.specs.Prelude.{◌≡◌, ◌+◌, ◌-◌, ◌*◌, ◌/◌, ◌^◌, ◌<◌, ◌≤◌, length, take, drop, Some, None, IsSome, IfOk, IfErr, OnOk, OnErr, MatchOption, MatchBool, IsTrue, is_some, IfSome, slice_index, nat_le, nat_lt, ◌&&◌, ◌⊎◌};
ghost use Rattle.std.specs.List.{list_all, sum};
ghost use Rattle.ii_io.specs.Faults.{OnlyMemory};
ghost use Rattle.ii_layout.specs.Each.{each};
ghost use Rattle.ii_layout.specs.Positions.{position_list, place_by_widths, block_deltas, rest_deltas, position_deltas};
ghost use Rattle.ii_layout.specs.PositionReader.{AreAnchors, is_width, list_at, rest_at, deltas_at_block};
ghost use Rattle.ii_layout.specs.Written.{block_of};

use crate::serializer::sum_of;
use crate::split::bytes_from;
use bytes::Bytes;
use ii_codes::{BlockDecoder, COMPRESSION_BLOCK_SIZE, VIntDecoder, compressed_block_size};
use ii_io::{Fault, LayoutFault, Part, vint};
use std::marker::Model;

/// The greatest bit width of a block.
const MAX_NUM_BITS: u8 = 32;

/// Bytes of a block per bit of its width.
const BYTES_PER_BIT: usize = COMPRESSION_BLOCK_SIZE / 8;

/// Number of blocks whose place is kept.
const NUM_ANCHORS: usize = 64;

/// Holds the blocks of the deltas of a term's positions, one of them decoded. The deltas after the full
/// blocks count as one block. The model is all deltas, the decoded block, and the number of decodes.
#[derive(Drop)]
pub(crate) struct PositionBlocks {
    bytes: Bytes,
    widths: usize,
    body: usize,
    rest_len: usize,
    stride: usize,
    anchors: [usize; NUM_ANCHORS],
    block: usize,
    place: usize,
    block_decoder: BlockDecoder,
}

impl Model for PositionBlocks {
    ghost use Rattle.std.specs.Prelude.{take};
    ghost use Rattle.ii_layout.specs.PositionReader.{PositionBlocksState, KeepsBlock, deltas_of};

    ghost Value = { PositionBlocksState };

    ghost view = { λ b. record { deltas = deltas_of b.bytes; block = b.block; decodes = b.block_decoder.decodes } };

    ghost invariant = { λ b. KeepsBlock b.bytes b.widths b.body b.stride b.anchors b.block b.place (take b.block_decoder.output_len b.block_decoder.output) b.rest_len };
}

impl PositionBlocks {
    /// Opens the blocks that `bytes` holds, and decodes the deltas after the full blocks.
    pub(crate) fn open(bytes: Bytes) -> Result<PositionBlocks, LayoutFault>
        ensures ok { IfOk result (λ blocks. position_deltas bytes ≡ Some blocks.deltas) }
        ensures block { IfOk result (λ blocks. blocks.block ≡ length blocks.deltas / 128) }
        ensures decodes { IfOk result (λ blocks. blocks.decodes ≤ 1) }
        ensures refused { OnErr result (position_deltas bytes ≡ None) }
        ensures err { IfErr result (λ fault. fault ≡ LayoutFault.Damaged Part.Positions) }
    {
        let mut anchors = [0; NUM_ANCHORS];
        let mut block_decoder = BlockDecoder::with_val(0);
        let all = bytes.as_slice();
        let Some((widths, body)) = split(all) else {
            return Err(LayoutFault::Damaged(Part::Positions));
        };
        let num_blocks = body - widths;
        let stride = num_blocks / NUM_ANCHORS + 1;
        let blocks = bytes_from(all, body);
        let Some(place) = find_blocks(&all[widths..body], blocks, stride, &mut anchors) else {
            return Err(LayoutFault::Damaged(Part::Positions));
        };
        if !read_rest(bytes_from(blocks, place), &mut block_decoder) {
            return Err(LayoutFault::Damaged(Part::Positions));
        }
        let rest_len = block_decoder.output_array().len();
        Ok(PositionBlocks {
            bytes,
            widths,
            body,
            rest_len,
            stride,
            anchors,
            block: num_blocks,
            place,
            block_decoder,
        })
    }

    /// Returns the number of deltas.
    pub(crate) fn len(&self) -> u128
        ensures { result ≡ length self.now.deltas }
    {
        let num_blocks = self.body - self.widths;
        num_blocks as u128 * COMPRESSION_BLOCK_SIZE as u128 + self.rest_len as u128
    }

    /// Returns whether the sum of all deltas fits in 32 bits. Decodes each block in `block_decoder`, but not
    /// the one that is held.
    pub(crate) fn has_small_sum(&self, block_decoder: &mut BlockDecoder) -> bool
        ensures small { result ≡ nat_lt (sum self.now.deltas) (2 ^ 32) }
        ensures decodes { self.now.block ≡ length self.now.deltas / 128 → block_decoder.new.decodes ≤ block_decoder.old.decodes + length self.now.deltas / 128 }
    {
        let bytes = self.bytes.as_slice();
        let widths = &bytes[self.widths..self.body];
        let body = bytes_from(bytes, self.body);
        let mut place = 0;
        let mut sum = 0;
        for block in 0..widths.len() {
            decode(widths, body, block, place, block_decoder);
            sum += sum_of(block_decoder.output_array());
            if sum > u64::from(u32::MAX) {
                return false;
            }
            place += compressed_block_size(widths[block]);
        }
        if self.block == widths.len() {
            return sum + sum_of(self.block_decoder.output_array()) <= u64::from(u32::MAX);
        }
        decode(widths, body, widths.len(), place, block_decoder);
        sum + sum_of(block_decoder.output_array()) <= u64::from(u32::MAX)
    }

    /// Decodes a block that has deltas, unless it is the decoded one.
    pub(crate) fn load(&mut self, block: usize)
        requires inside { 128 * block < length self.old.deltas }
        ensures deltas { self.new.deltas ≡ self.old.deltas }
        ensures block { self.new.block ≡ block }
        ensures kept { self.old.block ≡ block → self.new.decodes ≡ self.old.decodes }
        ensures decodes { self.new.decodes ≤ self.old.decodes + 1 }
        ensures rises { self.old.decodes ≤ self.new.decodes }
    {
        if block == self.block {
            return;
        }
        let bytes = self.bytes.as_slice();
        let widths = &bytes[self.widths..self.body];
        let body = bytes_from(bytes, self.body);
        let (near, from) = nearest(&self.anchors, self.stride, self.block, self.place, block);
        let place = walk(widths, near, from, block);
        decode(widths, body, block, place, &mut self.block_decoder);
        self.block = block;
        self.place = place;
    }

    /// Returns the deltas of the decoded block.
    pub(crate) fn held(&self) -> &[u32]
        ensures held { result.now ≡ block_of self.now.deltas self.now.block }
    {
        self.block_decoder.output_array()
    }

    /// Opens the same blocks again, with the last one decoded.
    pub(crate) fn anew(self) -> PositionBlocks
        ensures deltas { result.deltas ≡ self.deltas }
        ensures block { result.block ≡ length result.deltas / 128 }
        ensures decodes { result.decodes ≤ 1 }
    {
        let PositionBlocks { bytes, .. } = self;
        reopened(bytes)
    }

    /// Clones the blocks. The bytes are shared.
    pub(crate) fn clone(&self) -> Result<PositionBlocks, Fault>
        ensures same { IfOk result (λ blocks. blocks ≡ self.now) }
        ensures only { OnlyMemory result }
    {
        let bytes = self.bytes.clone()?;
        let block_decoder = self.block_decoder.clone()?;
        Ok(PositionBlocks {
            bytes,
            widths: self.widths,
            body: self.body,
            rest_len: self.rest_len,
            stride: self.stride,
            anchors: self.anchors,
            block: self.block,
            place: self.place,
            block_decoder,
        })
    }
}

// Opens blocks over bytes that hold deltas.
fn reopened(bytes: Bytes) -> PositionBlocks
    requires { IsSome (position_deltas bytes) }
    ensures deltas { position_deltas bytes ≡ Some result.deltas }
    ensures block { result.block ≡ length result.deltas / 128 }
    ensures decodes { result.decodes ≤ 1 }
{
    match PositionBlocks::open(bytes) {
        Ok(blocks) => blocks,
        Err(_) => unreachable!(),
    }
}

// Returns where the widths begin and end. The number at the front says how many there are; `None` if it is
// missing or fewer bytes follow.
fn split(bytes: &[u8]) -> Option<(usize, usize)>
    ensures list { MatchOption result (position_list bytes.now ≡ None) (λ p. position_list bytes.now ≡ Some (list_at bytes.now p.0 p.1)) }
    ensures order { IfSome result (λ p. p.0 ≤ p.1) }
    ensures within { IfSome result (λ p. p.1 ≤ length bytes.now) }
{
    let Some((num_blocks, widths)) = vint::read_u64(bytes) else {
        return None;
    };
    if num_blocks > (bytes.len() - widths) as u64 {
        return None;
    }
    Some((widths, widths + num_blocks as usize))
}

// Returns where the full blocks end, if each width is at most 32 and the bytes hold all blocks. Stores the
// place of every `stride`th block in `anchors`.
fn find_blocks(widths: &[u8], body: &[u8], stride: usize, anchors: &mut [usize]) -> Option<usize>
    requires stride { stride ≡ length widths.now / 64 + 1 }
    requires many { length anchors.old ≡ 64 }
    ensures found { is_some result ≡ is_some (each (block_deltas (record { widths = widths.now; body = body.now })) (length widths.now)) }
    ensures end { IfSome result (λ place. place ≡ place_by_widths widths.now (length widths.now)) }
    ensures within { IfSome result (λ place. place ≤ length body.now) }
    ensures anchors { IfSome result (λ place. AreAnchors widths.now stride (length widths.now) anchors.new) }
{
    let mut first = 0;
    let mut place = 0;
    let mut anchor = 0;
    while widths.len() - first >= stride {
        anchors[anchor] = place;
        let Some(end) = end_of(&widths[first..first + stride], body.len(), place) else {
            return None;
        };
        place = end;
        first += stride;
        anchor += 1;
    }
    anchors[anchor] = place;
    end_of(&widths[first..], body.len(), place)
}

// Returns where blocks of these widths end if the first begins at `place`, each width is at most 32 and all
// blocks fit in `len` bytes. The loop never exits early, so that several widths are processed at once.
fn end_of(widths: &[u8], len: usize, place: usize) -> Option<usize>
    requires few { length widths.now ≤ 2 ^ 58 }
    requires within { place ≤ len }
    ensures found { is_some result ≡ (list_all is_width widths.now && nat_le (place + 16 * sum widths.now) len) }
    ensures end { IfSome result (λ end. end ≡ place + 16 * sum widths.now) }
{
    let mut bits = 0;
    let mut are_widths = true;
    for width in widths {
        are_widths = are_widths & (*width <= MAX_NUM_BITS);
        bits += usize::from((*width).min(MAX_NUM_BITS));
    }
    if !are_widths || bits > (len - place) / BYTES_PER_BIT {
        return None;
    }
    Some(place + BYTES_PER_BIT * bits)
}

// Decodes the deltas after the full blocks, to the end of the bytes. Returns whether they are fewer than 128.
fn read_rest(bytes: &[u8], block_decoder: &mut BlockDecoder) -> bool
    ensures rest { MatchBool result (Some (take block_decoder.new.output_len block_decoder.new.output) ≡ rest_at bytes.now) (rest_at bytes.now ≡ None) }
    ensures few { IsTrue result → length (take block_decoder.new.output_len block_decoder.new.output) < 128 }
    ensures decodes { block_decoder.new.decodes ≤ block_decoder.old.decodes + 1 }
{
    match block_decoder.try_uncompress_vint_unsorted_until_end(bytes) {
        Ok(()) => block_decoder.output_array().len() < COMPRESSION_BLOCK_SIZE,
        Err(_) => false,
    }
}

// Returns the nearest block at or before `block` whose place is known, and its place. This is an anchor or
// the held block.
fn nearest(
    anchors: &[usize],
    stride: usize,
    held: usize,
    held_place: usize,
    block: usize,
) -> (usize, usize)
    requires stride { block < 64 * stride }
    requires many { length anchors.now ≡ 64 }
    ensures before { result.0 ≤ block }
    ensures known { ((result.0 ≡ held) × (result.1 ≡ held_place))
        ⊎ ((result.0 ≡ block / stride * stride) × (result.1 ≡ slice_index anchors.now (block / stride))) }
{
    let anchor = block / stride * stride;
    if held > block {
        return (anchor, anchors[block / stride]);
    }
    if held <= anchor {
        return (anchor, anchors[block / stride]);
    }
    (held, held_place)
}

// Returns the place of a block, given the place `from` of an earlier block `near`.
fn walk(widths: &[u8], near: usize, from: usize, block: usize) -> usize
    requires within { block ≤ length widths.now }
    requires order { near ≤ block }
    requires room { place_by_widths widths.now (length widths.now) < 2 ^ 64 }
    requires from { from ≡ place_by_widths widths.now near }
    ensures { result ≡ place_by_widths widths.now block }
{
    let mut place = from;
    for i in near..block {
        place += compressed_block_size(widths[i]);
    }
    place
}

// Decodes the block at a place, or the deltas after the full blocks.
fn decode(widths: &[u8], body: &[u8], block: usize, place: usize, block_decoder: &mut BlockDecoder)
    requires valid { IsSome (deltas_at_block (record { widths = widths.now; body = body.now }) block) }
    requires within { block ≤ length widths.now }
    requires place { place ≡ place_by_widths widths.now block }
    ensures held { Some (take block_decoder.new.output_len block_decoder.new.output) ≡ deltas_at_block (record { widths = widths.now; body = body.now }) block }
    ensures decodes { block_decoder.new.decodes ≤ block_decoder.old.decodes + 1 }
    ensures rises { block_decoder.old.decodes ≤ block_decoder.new.decodes }
{
    let bytes = bytes_from(body, place);
    if block == widths.len() {
        block_decoder.uncompress_vint_unsorted_until_end(bytes);
        return;
    }
    block_decoder.uncompress_block_unsorted(bytes, widths[block], false);
}
