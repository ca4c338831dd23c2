ghost use Rattle.std.specs.Prelude.{◌≡◌, ◌+◌, ◌*◌, ◌/◌, ◌-◌, ◌^◌, ◌<◌, ◌≤◌, ◌↔◌, ℕ, Bool, List, true, false, not, length, replicate, take, drop, slice_index, slice_index_or, slice_set, Some, None, IfOk, IfErr, IsTrue, IsErrOf};
ghost use Rattle.std.specs.List.{flat_map, list_all};
ghost use Rattle.ii_io.specs.CountingWriter.{Writes, IsFull};
ghost use Rattle.ii_io.specs.Faults.{OnlyMemory};
ghost use Rattle.ii_io.specs.Numbers.{le_bytes};
ghost use Rattle.ii_alive.specs.Alive.{rank, num_living};
ghost use Rattle.ii_alive.specs.AliveBytes.{byte_bits, num_words, alive_of, alive_bytes, ReadsWrittenFlags, HasOneEncoding};
ghost use Rattle.ii_alive.specs.AliveBits.{word_bits, AreAliveWords, AreBlockCounts};

use super::faults::AliveFault;
use byteorder::{ByteOrder, LittleEndian};
use ii_base::{BinarySerializable, CountingWriter, DocId, Fault, LimitName};
use std::alloc::{AllocError, Global};
use std::io::Write;
use std::marker::Model;

// The number of documents of a word.
const WORD_LEN: u32 = 64;

// A word of documents that are all alive.
const ALL_ALIVE: u64 = u64::MAX;

// The number of words of a block.
const BLOCK_WORDS: usize = 8;

/// Which documents of a segment are alive, one bit per document and one count per 512 documents. Its model
/// is a flag for each document.
#[derive(Drop)]
pub struct AliveBits {
    num_docs: u32,
    words: Vec<u64>,
    living_before: Vec<u32>,
    living: u32,
}

impl Model for AliveBits {
    ghost use Rattle.std.specs.Prelude.{Bool, List, take};
    ghost use Rattle.ii_alive.specs.AliveBits.{word_bits, AreAliveBits};

    ghost Value = { List Bool };

    ghost view = { λ s. take s.num_docs (word_bits s.words.items) };

    ghost invariant = { λ s. AreAliveBits s.num_docs s.words.items s.living_before.items s.living };
}

impl AliveBits {
    /// Creates flags of `num_docs` documents, all of them alive. Returns `OutOfMemory` if allocation fails.
    pub fn full(alloc: Global, num_docs: u32) -> Result<AliveBits, Fault>
        ensures ok { IfOk result (λ alive. alive ≡ replicate num_docs true) }
        ensures only { OnlyMemory result }
    {
        let words = full_words(alloc, num_docs)?;
        let alive = AliveBits::from_words(alloc, num_docs, words)?;
        Ok(alive)
    }

    /// Opens the flags of `num_docs` documents: eight bytes for each 64 documents, one bit per document,
    /// least bit of the first byte first. The bits after the last document must be 0.
    ///
    /// Returns `Damaged`, before any allocation, if the bytes are not such flags, and `OutOfMemory` if
    /// allocation fails.
    pub fn open(alloc: Global, num_docs: u32, bytes: &[u8]) -> Result<AliveBits, AliveFault>
        ensures ok { IfOk result (λ alive. alive_of num_docs bytes.now ≡ Some alive) }
        ensures damaged { IsErrOf result AliveFault.Damaged ↔ (alive_of num_docs bytes.now ≡ None) }
    {
        if bytes.len() != num_words_of(num_docs) * 8 {
            return Err(AliveFault::Damaged);
        }
        if !has_zero_tail(num_docs, bytes) {
            return Err(AliveFault::Damaged);
        }
        let words = read_words(alloc, bytes)?;
        let alive = AliveBits::from_words(alloc, num_docs, words)?;
        Ok(alive)
    }

    /// Kills a document, which must be less than `num_docs`. Returns whether it was alive.
    pub fn kill(&mut self, doc: DocId) -> bool
        requires { doc < length self.old }
        ensures killed { self.new ≡ slice_set self.old doc false }
        ensures was { result ≡ slice_index_or self.old doc false }
    {
        let place = (doc / WORD_LEN) as usize;
        let word = self.words[place];
        if word >> (doc % WORD_LEN) & 1 == 0 {
            return false;
        }
        self.words[place] = word - (1 << (doc % WORD_LEN));
        lower_from(&mut self.living_before, place / BLOCK_WORDS + 1);
        self.living -= 1;
        true
    }

    /// Returns whether a document, which must be less than `num_docs`, is alive.
    pub fn is_alive(&self, doc: DocId) -> bool
        requires { doc < length self.now }
        ensures { result ≡ slice_index_or self.now doc false }
    {
        self.words[(doc / WORD_LEN) as usize] >> (doc % WORD_LEN) & 1 == 1
    }

    /// Returns the number of documents, dead ones included.
    pub fn num_docs(&self) -> u32
        ensures { result ≡ length self.now }
    {
        self.num_docs
    }

    /// Returns the number of living documents.
    pub fn num_living(&self) -> u32
        ensures { result ≡ num_living self.now }
    {
        self.living
    }

    /// Returns how many documents less than `doc` are alive. `doc` must be at most `num_docs`. Reads one
    /// count and at most eight words.
    pub fn rank(&self, doc: DocId) -> u32
        requires { doc ≤ length self.now }
        ensures { result ≡ rank self.now doc }
    {
        if doc == self.num_docs {
            return self.living;
        }
        let place = (doc / WORD_LEN) as usize;
        let block = place / BLOCK_WORDS;
        let lower_bits = self.words[place] & ((1 << (doc % WORD_LEN)) - 1);
        let in_block = ones_in(&self.words[block * BLOCK_WORDS..place]);
        self.living_before[block] + in_block + lower_bits.count_ones()
    }

    /// Returns the living document before which `n` documents are alive. `n` must be less than the number
    /// of living documents.
    pub fn select(&self, n: u32) -> DocId
        requires { n < num_living self.now }
        ensures alive { slice_index_or self.now result false ≡ true }
        ensures rank { rank self.now result ≡ n }
    {
        let mut low = 0;
        let mut high = self.num_docs;
        while high - low > 1 {
            let middle = low + (high - low) / 2;
            if self.rank(middle) <= n {
                low = middle;
            } else {
                high = middle;
            }
        }
        low
    }

    /// Writes the flags: eight bytes for each 64 documents, one bit per document, least bit of the first
    /// byte first. The bits after the last document are 0.
    ///
    /// # Errors
    ///
    /// `Write` if the writer fails; a prefix of the bytes may have been written. `Limit(Offset)` if a count
    /// of the writer would exceed `u64::MAX`; nothing is written.
    pub fn write<W: Write>(&self, writer: &mut CountingWriter<W>) -> Result<(), Fault>
        ensures written { Writes writer.old writer.new (alive_bytes self.now) result }
        ensures limit { IsErrOf result (Fault.Limit LimitName.Offset)
            ↔ IsFull writer.old (length (alive_bytes self.now)) }
        ensures full { IsFull writer.old (length (alive_bytes self.now)) → writer.new ≡ writer.old }
    {
        let size = num_words_of(self.num_docs) as u64 * 8;
        if writer.failed_calls() == u64::MAX {
            return Err(Fault::Limit(LimitName::Offset));
        }
        if u64::MAX - writer.written_bytes() < size {
            return Err(Fault::Limit(LimitName::Offset));
        }
        write_words(writer, &self.words)
    }

    // Makes flags of words, and counts the living documents.
    fn from_words(alloc: Global, num_docs: u32, words: Vec<u64>) -> Result<AliveBits, AllocError>
        requires { AreAliveWords num_docs words.items }
        ensures { IfOk result (λ alive. alive ≡ take num_docs (word_bits words.items)) }
    {
        let (living_before, living) = block_counts(alloc, &words)?;
        Ok(AliveBits {
            num_docs,
            words,
            living_before,
            living,
        })
    }
}

// Returns the number of words of documents.
fn num_words_of(num_docs: u32) -> usize
    ensures words { result ≡ num_words num_docs }
    ensures few { result ≤ 2 ^ 26 }
{
    num_docs.div_ceil(WORD_LEN) as usize
}

// Returns words in which the bits of all documents are 1.
fn full_words(alloc: Global, num_docs: u32) -> Result<Vec<u64>, AllocError>
    ensures words { IfOk result (λ words. AreAliveWords num_docs words.items) }
    ensures alive { IfOk result (λ words. take num_docs (word_bits words.items) ≡ replicate num_docs true) }
{
    let mut words = vec![in alloc; ALL_ALIVE; (num_docs / WORD_LEN) as usize]?;
    let used = num_docs % WORD_LEN;
    if used == 0 {
        return Ok(words);
    }
    words.push((1 << used) - 1)?;
    Ok(words)
}

// Returns whether the bits after the last document are 0.
fn has_zero_tail(num_docs: u32, bytes: &[u8]) -> bool
    requires { length bytes.now ≡ 8 * num_words num_docs }
    ensures { result ≡ list_all not (drop num_docs (byte_bits bytes.now)) }
{
    let used = num_docs % WORD_LEN;
    if used == 0 {
        return true;
    }
    LittleEndian::read_u64(&bytes[bytes.len() - 8..]) >> used == 0
}

// Reads words of eight bytes.
fn read_words(alloc: Global, bytes: &[u8]) -> Result<Vec<u64>, AllocError>
    requires { length bytes.now ≡ 8 * (length bytes.now / 8) }
    ensures size { IfOk result (λ words. length words.items ≡ length bytes.now / 8) }
    ensures bits { IfOk result (λ words. word_bits words.items ≡ byte_bits bytes.now) }
{
    let mut words = Vec::new(alloc);
    for i in 0..bytes.len() / 8 {
        words.push(LittleEndian::read_u64(&bytes[8 * i..]))?;
    }
    Ok(words)
}

// Writes words of eight bytes.
fn write_words<W: Write>(writer: &mut CountingWriter<W>, words: &[u64]) -> Result<(), Fault>
    ensures { Writes writer.old writer.new (flat_map (le_bytes 8) words.now) result }
{
    for word in words {
        let written = word.serialize(writer);
        if written.is_err() {
            return written;
        }
    }
    Ok(())
}

// Counts the living documents before each block, and in all words.
fn block_counts(alloc: Global, words: &[u64]) -> Result<(Vec<u32>, u32), AllocError>
    requires { num_living (word_bits words.now) < 2 ^ 32 }
    ensures blocks { IfOk result (λ counts. AreBlockCounts words.now counts.0.items) }
    ensures all { IfOk result (λ counts. counts.1 ≡ num_living (word_bits words.now)) }
{
    let mut living_before = Vec::new(alloc);
    let mut living = 0;
    for block in 0..words.len().div_ceil(BLOCK_WORDS) {
        let start = block * BLOCK_WORDS;
        let end = words.len().min(start + BLOCK_WORDS);
        living_before.push(living)?;
        living += ones_in(&words[start..end]);
    }
    Ok((living_before, living))
}

// Returns the number of bits of words that are 1.
fn ones_in(words: &[u64]) -> u32
    requires { num_living (word_bits words.now) < 2 ^ 32 }
    ensures { result ≡ num_living (word_bits words.now) }
{
    let mut ones = 0;
    for word in words {
        ones += word.count_ones();
    }
    ones
}

// Lowers each count from one on by 1.
fn lower_from(counts: &mut [u32], first: usize)
    requires { (k : ℕ) → first ≤ k → k < length counts.old → 0 < slice_index counts.old k }
    ensures before { (k : ℕ) → k < first → slice_index counts.new k ≡ slice_index counts.old k }
    ensures lowered { (k : ℕ) → first ≤ k → k < length counts.old
        → slice_index counts.new k + 1 ≡ slice_index counts.old k }
{
    for i in first..counts.len() {
        counts[i] -= 1;
    }
}

/// Law of flags: written flags are read back, and no other bytes hold them.
pub fn reads_written_flags()
    ensures reads { ReadsWrittenFlags }
    ensures one { HasOneEncoding }
{}
