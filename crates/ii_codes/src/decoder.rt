ghost use Rattle.std.specs.Prelude.{◌≡◌, ℕ, ◌+◌, ◌-◌, ◌*◌, ◌<◌, ◌≤◌, length, take, drop, replicate, slice_index, Some, None, IsSome, IfNone, IfSome, IfOk, IfErr, OnOk, OnErr};
ghost use Rattle.std.specs.List.Sorted.{IsNonDecreasing};
ghost use Rattle.std.specs.Option.{option_map};
ghost use Rattle.ii_codes.specs.Blocks.{sorted_block_at, unsorted_block_at};
ghost use Rattle.ii_codes.specs.BlockDecoder.{BlockDecoderState, decodes_made, decodes_of, ClearsOnDamage};
ghost use Rattle.ii_codes.specs.Search.{count_below};
ghost use Rattle.ii_codes.specs.SortedVints.{sorted_vints_at};
ghost use Rattle.ii_codes.specs.UnsortedVints.{u32s_until_end};
ghost use Rattle.ii_io.specs.Vints.{u32s_at};

use super::block_search::branchless_binary_search;
use super::{COMPRESSION_BLOCK_SIZE, packed, vint};
use ii_io::{GhostCounter, LayoutFault, Part};
use std::alloc::AllocError;
use std::marker::Model;

/// The 128 values decoded last. The first `output_len` of them were decoded from bytes.
#[derive(Drop)]
pub struct BlockDecoder {
    output: [u32; COMPRESSION_BLOCK_SIZE],
    output_len: usize,
    decodes: GhostCounter,
}

impl Model for BlockDecoder {
    ghost use Rattle.std.specs.Prelude.{◌≤◌};
    ghost use Rattle.ii_codes.specs.BlockDecoder.{BlockDecoderState};

    ghost Value = { BlockDecoderState };

    ghost view = { λ d. record { output = d.output; output_len = d.output_len; decodes = d.decodes.value } };

    ghost invariant = { λ d. d.output_len ≤ 128 };
}

impl BlockDecoder {
    /// Creates a decoder whose 128 entries are `val`, with nothing decoded.
    pub fn with_val(val: u32) -> BlockDecoder
        ensures { result ≡ record { output = replicate 128 val; output_len = 0; decodes = 0 } }
    {
        BlockDecoder {
            output: [val; COMPRESSION_BLOCK_SIZE],
            output_len: 0,
            decodes: GhostCounter::new(),
        }
    }

    /// Returns the values decoded last, at most 128.
    pub fn output_array(&self) -> &[u32]
        ensures values { result.now ≡ take self.now.output_len self.now.output }
        ensures len { length result.now ≡ self.now.output_len }
        ensures few { length result.now ≤ 128 }
    {
        &self.output[..self.output_len]
    }

    /// Returns how many values were decoded last, at most 128.
    pub fn output_len(&self) -> usize
        ensures len { result ≡ self.now.output_len }
        ensures few { result ≤ 128 }
    {
        self.output_len
    }

    /// Returns the entry at `idx`, which must be less than 128. Entries after the values decoded last are
    /// padding.
    pub fn output(&self, idx: usize) -> u32
        requires { idx < 128 }
        ensures { result ≡ slice_index self.now.output idx }
    {
        self.output[idx]
    }

    /// Returns how many of the 128 entries are less than `target`, without decoding. The entries must not
    /// decrease, and the target must be at most the last one.
    pub fn seek_within_block(&self, target: u32) -> usize
        requires sorted { IsNonDecreasing self.now.output }
        requires last { target ≤ slice_index self.now.output 127 }
        ensures { result ≡ count_below target self.now.output }
    {
        branchless_binary_search(&self.output, target)
    }

    /// Decodes `num_els` values from any bytes, as `uncompress_vint_sorted` does. Returns
    /// `Damaged(Documents)` if the bytes are corrupt; the decoder is then empty, and the decode isn't
    /// counted.
    pub fn try_uncompress_vint_sorted(
        &mut self,
        compressed_data: &[u8],
        offset: u32,
        num_els: usize,
        padding: u32,
    ) -> Result<usize, LayoutFault>
        requires few { num_els ≤ 128 }
        ensures read { IfOk result (λ used. Some (take num_els self.new.output, drop used compressed_data.now)
            ≡ sorted_vints_at offset num_els compressed_data.now) }
        ensures within { IfOk result (λ used. used ≤ length compressed_data.now) }
        ensures padded { OnOk result (drop num_els self.new.output ≡ replicate (128 - num_els) padding) }
        ensures len { OnOk result (self.new.output_len ≡ num_els) }
        ensures decodes { OnOk result (self.new.decodes ≡ self.old.decodes + decodes_of num_els) }

        // When it fails, and the state after a failure.
        ensures refused { OnErr result (sorted_vints_at offset num_els compressed_data.now ≡ None) }
        ensures cleared { ClearsOnDamage Part.Documents self.old self.new result }
    {
        let read = read_sorted_row(
            compressed_data,
            offset,
            num_els,
            padding,
            &mut self.output,
            &mut self.decodes,
        );
        self.finish(read, num_els, Part::Documents)
    }

    /// Decodes `num_els` values from any bytes, as `uncompress_vint_unsorted` does. Returns
    /// `Damaged(Frequencies)` if a vint is missing; the decoder is then empty, and the decode isn't
    /// counted.
    pub fn try_uncompress_vint_unsorted(
        &mut self,
        compressed_data: &[u8],
        num_els: usize,
        padding: u32,
    ) -> Result<usize, LayoutFault>
        requires few { num_els ≤ 128 }
        ensures read { IfOk result (λ used. Some (take num_els self.new.output, drop used compressed_data.now)
            ≡ u32s_at num_els compressed_data.now) }
        ensures within { IfOk result (λ used. used ≤ length compressed_data.now) }
        ensures padded { OnOk result (drop num_els self.new.output ≡ replicate (128 - num_els) padding) }
        ensures len { OnOk result (self.new.output_len ≡ num_els) }
        ensures decodes { OnOk result (self.new.decodes ≡ self.old.decodes + decodes_of num_els) }

        // When it fails, and the state after a failure.
        ensures refused { OnErr result (u32s_at num_els compressed_data.now ≡ None) }
        ensures cleared { ClearsOnDamage Part.Frequencies self.old self.new result }
    {
        let read = read_unsorted_row(
            compressed_data,
            num_els,
            padding,
            &mut self.output,
            &mut self.decodes,
        );
        self.finish(read, num_els, Part::Frequencies)
    }

    /// Decodes at most 128 values from any bytes, as `uncompress_vint_unsorted_until_end` does. Returns
    /// `Damaged(Positions)` if a vint is missing; the decoder is then empty, and the decode isn't counted.
    pub fn try_uncompress_vint_unsorted_until_end(
        &mut self,
        compressed_data: &[u8],
    ) -> Result<(), LayoutFault>
        ensures read { OnOk result (Some (take self.new.output_len self.new.output) ≡ u32s_until_end 128 compressed_data.now) }
        ensures decodes { OnOk result (self.new.decodes ≡ self.old.decodes + decodes_of self.new.output_len) }
        ensures refused { OnErr result (u32s_until_end 128 compressed_data.now ≡ None) }
        ensures cleared { ClearsOnDamage Part.Positions self.old self.new result }
    {
        let read = read_until_end(compressed_data, &mut self.output, &mut self.decodes);
        let num_els = read.unwrap_or(0);
        self.finish(read, num_els, Part::Positions)?;
        Ok(())
    }

    /// Decodes the block of 128 values of `num_bits` bits at the start of the bytes. The block holds the
    /// deltas of ascending values after `offset`, strict ones if `strict_delta`. Returns its length in
    /// bytes.
    pub fn uncompress_block_sorted(
        &mut self,
        compressed_data: &[u8],
        offset: u32,
        num_bits: u8,
        strict_delta: bool,
    ) -> usize
        requires valid { IsSome (sorted_block_at strict_delta offset num_bits compressed_data.now) }
        ensures read { Some (self.new.output, drop result compressed_data.now)
            ≡ sorted_block_at strict_delta offset num_bits compressed_data.now }
        ensures size { result ≡ 16 * num_bits }
        ensures within { result ≤ length compressed_data.now }
        ensures len { self.new.output_len ≡ 128 }
        ensures decodes { self.new.decodes ≡ self.old.decodes + 1 }
    {
        match self.try_uncompress_block_sorted(compressed_data, offset, num_bits, strict_delta) {
            Ok(used) => used,
            Err(_) => unreachable!(),
        }
    }

    /// Decodes a block of any width from any bytes, as `uncompress_block_sorted` does. Returns
    /// `Damaged(Documents)` if the width exceeds 32, bytes are missing or a value exceeds `u32::MAX`. The
    /// decoder is then empty, and the decode isn't counted.
    pub fn try_uncompress_block_sorted(
        &mut self,
        compressed_data: &[u8],
        offset: u32,
        num_bits: u8,
        strict_delta: bool,
    ) -> Result<usize, LayoutFault>
        ensures read { IfOk result (λ used. Some (self.new.output, drop used compressed_data.now)
            ≡ sorted_block_at strict_delta offset num_bits compressed_data.now) }
        ensures size { IfOk result (λ used. used ≡ 16 * num_bits) }
        ensures within { IfOk result (λ used. used ≤ length compressed_data.now) }
        ensures len { OnOk result (self.new.output_len ≡ 128) }
        ensures decodes { OnOk result (self.new.decodes ≡ self.old.decodes + 1) }
        ensures refused { OnErr result (sorted_block_at strict_delta offset num_bits compressed_data.now ≡ None) }
        ensures cleared { ClearsOnDamage Part.Documents self.old self.new result }
    {
        let read = packed::unpack_sorted(
            compressed_data,
            offset,
            num_bits,
            strict_delta,
            &mut self.output,
            &mut self.decodes,
        );
        self.finish(read, COMPRESSION_BLOCK_SIZE, Part::Documents)
    }

    /// Decodes the block of 128 values of `num_bits` bits at the start of the bytes. If
    /// `minus_one_encoded`, each value is one more than its entry. Returns its length in bytes.
    pub fn uncompress_block_unsorted(
        &mut self,
        compressed_data: &[u8],
        num_bits: u8,
        minus_one_encoded: bool,
    ) -> usize
        requires valid { IsSome (unsorted_block_at minus_one_encoded num_bits compressed_data.now) }
        ensures read { Some (self.new.output, drop result compressed_data.now)
            ≡ unsorted_block_at minus_one_encoded num_bits compressed_data.now }
        ensures size { result ≡ 16 * num_bits }
        ensures within { result ≤ length compressed_data.now }
        ensures len { self.new.output_len ≡ 128 }
        ensures decodes { self.new.decodes ≡ self.old.decodes + 1 }
    {
        match self.try_uncompress_block_unsorted(compressed_data, num_bits, minus_one_encoded) {
            Ok(used) => used,
            Err(_) => unreachable!(),
        }
    }

    /// Decodes a block of any width from any bytes, as `uncompress_block_unsorted` does. Returns
    /// `Damaged(Frequencies)` if the width exceeds 32, bytes are missing or a value exceeds `u32::MAX`. The
    /// decoder is then empty, and the decode isn't counted.
    pub fn try_uncompress_block_unsorted(
        &mut self,
        compressed_data: &[u8],
        num_bits: u8,
        minus_one_encoded: bool,
    ) -> Result<usize, LayoutFault>
        ensures read { IfOk result (λ used. Some (self.new.output, drop used compressed_data.now)
            ≡ unsorted_block_at minus_one_encoded num_bits compressed_data.now) }
        ensures size { IfOk result (λ used. used ≡ 16 * num_bits) }
        ensures within { IfOk result (λ used. used ≤ length compressed_data.now) }
        ensures len { OnOk result (self.new.output_len ≡ 128) }
        ensures decodes { OnOk result (self.new.decodes ≡ self.old.decodes + 1) }
        ensures refused { OnErr result (unsorted_block_at minus_one_encoded num_bits compressed_data.now ≡ None) }
        ensures cleared { ClearsOnDamage Part.Frequencies self.old self.new result }
    {
        let read = packed::unpack_unsorted(
            compressed_data,
            num_bits,
            minus_one_encoded,
            &mut self.output,
            &mut self.decodes,
        );
        self.finish(read, COMPRESSION_BLOCK_SIZE, Part::Frequencies)
    }

    // Finishes a decode of `num_els` values, or clears the output if the part is corrupt.
    fn finish(
        &mut self,
        read: Option<usize>,
        num_els: usize,
        part: Part,
    ) -> Result<usize, LayoutFault>
        requires { num_els ≤ 128 }
        ensures used { IfOk result (λ used. read ≡ Some used) }
        ensures none { OnErr result (read ≡ None) }
        ensures output { OnOk result (self.new.output ≡ self.old.output) }
        ensures len { OnOk result (self.new.output_len ≡ num_els) }
        ensures decodes { OnOk result (self.new.decodes ≡ self.old.decodes) }
        ensures cleared { ClearsOnDamage part self.old self.new result }
    {
        let Some(used) = read else {
            self.output = [0; COMPRESSION_BLOCK_SIZE];
            self.output_len = 0;
            return Err(LayoutFault::Damaged(part));
        };
        self.output_len = num_els;
        Ok(used)
    }
}

// Counts a decode of `num_els` values, if there are any.
fn count(num_els: usize, decodes: &mut GhostCounter)
    ensures { decodes.new.value ≡ decodes.old.value + decodes_of num_els }
{
    if num_els > 0 {
        *decodes = decodes.next();
    }
}

// Reads sorted values to the start of the output, fills the remaining entries with padding, and counts the
// decode.
fn read_sorted_row(
    compressed_data: &[u8],
    offset: u32,
    num_els: usize,
    padding: u32,
    output: &mut [u32],
    decodes: &mut GhostCounter,
) -> Option<usize>
    requires few { num_els ≤ 128 }
    requires room { length output.old ≡ 128 }
    ensures read { option_map (λ used. (take num_els output.new, drop used compressed_data.now)) result
        ≡ sorted_vints_at offset num_els compressed_data.now }
    ensures within { IfSome result (λ used. used ≤ length compressed_data.now) }
    ensures padded { drop num_els output.new ≡ replicate (128 - num_els) padding }
    ensures counted { decodes.new.value ≡ decodes.old.value + decodes_made num_els result }
{
    let (values, others) = output.split_at_mut(num_els);
    others.fill(padding);
    let Some(used) = vint::try_uncompress_sorted(compressed_data, values, offset) else {
        return None;
    };
    count(num_els, decodes);
    Some(used)
}

// The same for unsorted values.
fn read_unsorted_row(
    compressed_data: &[u8],
    num_els: usize,
    padding: u32,
    output: &mut [u32],
    decodes: &mut GhostCounter,
) -> Option<usize>
    requires few { num_els ≤ 128 }
    requires room { length output.old ≡ 128 }
    ensures read { option_map (λ used. (take num_els output.new, drop used compressed_data.now)) result
        ≡ u32s_at num_els compressed_data.now }
    ensures within { IfSome result (λ used. used ≤ length compressed_data.now) }
    ensures padded { drop num_els output.new ≡ replicate (128 - num_els) padding }
    ensures counted { decodes.new.value ≡ decodes.old.value + decodes_made num_els result }
{
    let (values, others) = output.split_at_mut(num_els);
    others.fill(padding);
    let Some(used) = vint::try_uncompress_unsorted(compressed_data, values) else {
        return None;
    };
    count(num_els, decodes);
    Some(used)
}

// The same for values until the bytes end, at most 128. Returns their number.
fn read_until_end(
    compressed_data: &[u8],
    output: &mut [u32],
    decodes: &mut GhostCounter,
) -> Option<usize>
    requires { length output.old ≡ 128 }
    ensures read { option_map (λ n. take n output.new) result ≡ u32s_until_end 128 compressed_data.now }
    ensures few { IfSome result (λ n. n ≤ 128) }
    ensures counted { IfSome result (λ n. decodes.new.value ≡ decodes.old.value + decodes_of n) }
    ensures refused { IfNone result (decodes.new.value ≡ decodes.old.value) }
{
    let Some(num_els) = vint::try_uncompress_unsorted_until_end(compressed_data, output) else {
        return None;
    };
    count(num_els, decodes);
    Some(num_els)
}

impl Clone for BlockDecoder {
    ghost use Rattle.std.specs.Prelude.{◌≡◌, ⊤};

    ghost is_clone = { λ x y. y ≡ x };

    ghost is_infallible = { λ _. ⊤ };

    fn clone(&self) -> Result<BlockDecoder, AllocError> {
        Ok(BlockDecoder {
            output: self.output,
            output_len: self.output_len,
            decodes: self.decodes.same(),
        })
    }
}

impl Default for BlockDecoder {
    ghost use Rattle.std.specs.Prelude.{◌≡◌, replicate};

    ghost is_default = { λ d. d ≡ record { output = replicate 128 0; output_len = 0; decodes = 0 } };

    fn default() -> BlockDecoder {
        BlockDecoder::with_val(0)
    }
}

/// Decoding of at most 128 values from vints.
pub trait VIntDecoder {
    ghost state: { Self → BlockDecoderState };

    /// Decodes `num_els` values, each the sum of a vint and the value before it, starting at `offset`.
    /// Fills the entries after them with `padding`. Returns the number of bytes read.
    fn uncompress_vint_sorted(
        &mut self,
        compressed_data: &[u8],
        offset: u32,
        num_els: usize,
        padding: u32,
    ) -> usize
        requires few { num_els ≤ 128 }
        requires valid { IsSome (sorted_vints_at offset num_els compressed_data.now) }
        ensures read { Some (take num_els (state self.new).output, drop result compressed_data.now)
            ≡ sorted_vints_at offset num_els compressed_data.now }
        ensures within { result ≤ length compressed_data.now }
        ensures padded { drop num_els (state self.new).output ≡ replicate (128 - num_els) padding }
        ensures len { (state self.new).output_len ≡ num_els }
        ensures decodes { (state self.new).decodes ≡ (state self.old).decodes + decodes_of num_els };

    /// Decodes `num_els` vints, and fills the entries after them with `padding`. Returns the number of
    /// bytes read.
    fn uncompress_vint_unsorted(
        &mut self,
        compressed_data: &[u8],
        num_els: usize,
        padding: u32,
    ) -> usize
        requires few { num_els ≤ 128 }
        requires valid { IsSome (u32s_at num_els compressed_data.now) }
        ensures read { Some (take num_els (state self.new).output, drop result compressed_data.now)
            ≡ u32s_at num_els compressed_data.now }
        ensures within { result ≤ length compressed_data.now }
        ensures padded { drop num_els (state self.new).output ≡ replicate (128 - num_els) padding }
        ensures len { (state self.new).output_len ≡ num_els }
        ensures decodes { (state self.new).decodes ≡ (state self.old).decodes + decodes_of num_els };

    /// Decodes vints until the bytes end, at most 128.
    fn uncompress_vint_unsorted_until_end(&mut self, compressed_data: &[u8])
        requires valid { IsSome (u32s_until_end 128 compressed_data.now) }
        ensures read { Some (take (state self.new).output_len (state self.new).output) ≡ u32s_until_end 128 compressed_data.now }
        ensures decodes { (state self.new).decodes ≡ (state self.old).decodes + decodes_of (state self.new).output_len };
}

impl VIntDecoder for BlockDecoder {
    ghost state = { λ d. d };

    fn uncompress_vint_sorted(
        &mut self,
        compressed_data: &[u8],
        offset: u32,
        num_els: usize,
        padding: u32,
    ) -> usize {
        match self.try_uncompress_vint_sorted(compressed_data, offset, num_els, padding) {
            Ok(used) => used,
            Err(_) => unreachable!(),
        }
    }

    fn uncompress_vint_unsorted(
        &mut self,
        compressed_data: &[u8],
        num_els: usize,
        padding: u32,
    ) -> usize {
        match self.try_uncompress_vint_unsorted(compressed_data, num_els, padding) {
            Ok(used) => used,
            Err(_) => unreachable!(),
        }
    }

    fn uncompress_vint_unsorted_until_end(&mut self, compressed_data: &[u8]) {
        match self.try_uncompress_vint_unsorted_until_end(compressed_data) {
            Ok(()) => {}
            Err(_) => unreachable!(),
        }
    }
}
