ghost use Rattle.std.specs.Prelude.{◌≡◌, ℕ, ◌+◌, ◌*◌, ◌<◌, ◌≤◌, length, drop, take, Some, IsSome, IfSome};
ghost use Rattle.std.specs.Option.{option_map};
ghost use Rattle.ii_io.specs.Vints.{u32_at, u32s_at};
ghost use Rattle.ii_codes.specs.Sums.{DoNotFall};
ghost use Rattle.ii_codes.specs.SortedVints.{sorted_vints_at, sorted_vints, ReadsSortedVintsBack};
ghost use Rattle.ii_codes.specs.UnsortedVints.{unsorted_vints, u32s_until_end, ReadsUnsortedVintsBack};

use ii_io::vint;

/// Writes the difference of each value to the one before it, starting at `offset`, as shortest vints to the
/// start of `output`. Returns the bytes written.
pub fn compress_sorted<'a>(input: &[u32], output: &'a mut [u8], offset: u32) -> &'a [u8]
    requires room { 5 * length input.now ≤ length output.old }
    requires sorted { DoNotFall offset input.now }
    ensures { result.now ≡ sorted_vints offset input.now }
{
    let end = write_sorted(input, output, offset);
    &output[..end]
}

fn write_sorted(input: &[u32], output: &mut [u8], offset: u32) -> usize
    requires room { 5 * length input.now ≤ length output.old }
    requires sorted { DoNotFall offset input.now }
    ensures written { take result output.new ≡ sorted_vints offset input.now }
    ensures within { result ≤ length output.old }
{
    let mut end = 0;
    let mut before = offset;
    for value in input {
        end = vint::write_u32(*value - before, output, end);
        before = *value;
    }
    end
}

/// Writes the values as shortest vints to the start of `output`, and returns the bytes written.
pub fn compress_unsorted<'a>(input: &[u32], output: &'a mut [u8]) -> &'a [u8]
    requires room { 5 * length input.now ≤ length output.old }
    ensures { result.now ≡ unsorted_vints input.now }
{
    let mut end = 0;
    for value in input {
        end = vint::write_u32(*value, output, end);
    }
    &output[..end]
}

/// Fills `output` with values, each the sum of a vint and the value before it, starting at `offset`.
/// Returns the number of bytes read.
pub fn uncompress_sorted(compressed_data: &[u8], output: &mut [u32], offset: u32) -> usize
    requires valid { IsSome (sorted_vints_at offset (length output.old) compressed_data.now) }
    ensures value { Some (output.new, drop result compressed_data.now)
        ≡ sorted_vints_at offset (length output.old) compressed_data.now }
    ensures within { result ≤ length compressed_data.now }
{
    match try_uncompress_sorted(compressed_data, output, offset) {
        Some(used) => used,
        None => unreachable!(),
    }
}

/// Reads any bytes as `uncompress_sorted` does. Returns `None` if a vint is missing, or a value exceeds
/// `u32::MAX`.
pub(crate) fn try_uncompress_sorted(
    compressed_data: &[u8],
    output: &mut [u32],
    offset: u32,
) -> Option<usize>
    ensures value { option_map (λ used. (output.new, drop used compressed_data.now)) result
        ≡ sorted_vints_at offset (length output.old) compressed_data.now }
    ensures within { IfSome result (λ used. used ≤ length compressed_data.now) }
{
    let mut used = 0;
    let mut last = offset;
    for value in output.iter_mut() {
        let Some((difference, size)) = read_u32(&compressed_data[used..]) else {
            return None;
        };
        let Some(sum) = last.checked_add(difference) else {
            return None;
        };
        *value = sum;
        last = sum;
        used += size;
    }
    Some(used)
}

/// Fills `output` with vints. Returns the number of bytes read.
pub fn uncompress_unsorted(compressed_data: &[u8], output: &mut [u32]) -> usize
    requires valid { IsSome (u32s_at (length output.old) compressed_data.now) }
    ensures value { Some (output.new, drop result compressed_data.now)
        ≡ u32s_at (length output.old) compressed_data.now }
    ensures within { result ≤ length compressed_data.now }
{
    match try_uncompress_unsorted(compressed_data, output) {
        Some(used) => used,
        None => unreachable!(),
    }
}

/// Reads any bytes as `uncompress_unsorted` does. Returns `None` if a vint is missing.
pub(crate) fn try_uncompress_unsorted(compressed_data: &[u8], output: &mut [u32]) -> Option<usize>
    ensures value { option_map (λ used. (output.new, drop used compressed_data.now)) result
        ≡ u32s_at (length output.old) compressed_data.now }
    ensures within { IfSome result (λ used. used ≤ length compressed_data.now) }
{
    let mut used = 0;
    for entry in output.iter_mut() {
        let Some((value, size)) = read_u32(&compressed_data[used..]) else {
            return None;
        };
        *entry = value;
        used += size;
    }
    Some(used)
}

/// Reads vints until the bytes or `output` end, and returns their number.
pub fn uncompress_unsorted_until_end(compressed_data: &[u8], output: &mut [u32]) -> usize
    requires valid { IsSome (u32s_until_end (length output.old) compressed_data.now) }
    ensures value { Some (take result output.new) ≡ u32s_until_end (length output.old) compressed_data.now }
    ensures few { result ≤ length output.old }
{
    match try_uncompress_unsorted_until_end(compressed_data, output) {
        Some(num_els) => num_els,
        None => unreachable!(),
    }
}

/// Reads any bytes as `uncompress_unsorted_until_end` does. Returns `None` if a vint is missing.
pub(crate) fn try_uncompress_unsorted_until_end(
    compressed_data: &[u8],
    output: &mut [u32],
) -> Option<usize>
    ensures value { option_map (λ num_els. take num_els output.new) result
        ≡ u32s_until_end (length output.old) compressed_data.now }
    ensures few { IfSome result (λ num_els. num_els ≤ length output.old) }
{
    let mut used = 0;
    for k in 0..output.len() {
        if used == compressed_data.len() {
            return Some(k);
        }
        let Some((value, size)) = read_u32(&compressed_data[used..]) else {
            return None;
        };
        output[k] = value;
        used += size;
    }
    Some(output.len())
}

/// Reads a vint as `ii_io::vint::read_u32` does, fast for one or two bytes.
#[inline(always)]
fn read_u32(bytes: &[u8]) -> Option<(u32, usize)>
    ensures value { option_map (λ read. (read.0, drop read.1 bytes.now)) result ≡ u32_at bytes.now }
    ensures within { IfSome result (λ read. read.1 ≤ length bytes.now) }
{
    if bytes.is_empty() {
        return None;
    }
    if bytes[0] >= 128 {
        return Some((u32::from(bytes[0] - 128), 1));
    }
    if bytes.len() >= 2 && bytes[1] >= 128 {
        return Some((u32::from(bytes[0]) + 128 * u32::from(bytes[1] - 128), 2));
    }
    read_long_u32(bytes)
}

// Reads a longer vint, outside the loops.
#[cold]
#[inline(never)]
fn read_long_u32(bytes: &[u8]) -> Option<(u32, usize)>
    ensures value { option_map (λ read. (read.0, drop read.1 bytes.now)) result ≡ u32_at bytes.now }
    ensures within { IfSome result (λ read. read.1 ≤ length bytes.now) }
{
    vint::read_u32(bytes)
}

/// Law of sorted vints: written values are read back, whatever follows.
pub fn reads_sorted_vints_back()
    ensures { ReadsSortedVintsBack }
{}

/// Law of unsorted vints: the same for values in any order.
pub fn reads_unsorted_vints_back()
    ensures { ReadsUnsortedVintsBack }
{}
