//! BM25 in integers, with k1 = 1.2 and b = 0.75.
ghost use Rattle.std.specs.Prelude.{◌≡◌, ◌+◌, ◌*◌, ◌/◌, ◌<◌, ◌≤◌, ◌^◌, ℕ, IfOk};
ghost use Rattle.ii_io.specs.Faults.{OnlyMemory};
ghost use Rattle.ii_bm25.specs.Bm25.{IsLeastCount, IsLeastTermFreq, RisesAndFalls, bm25_score, bm25_share, bm25_weight, idf, score, share, weight};
ghost use Rattle.ii_bm25.specs.Lengths.{length_part, lengths_from};
ghost use Rattle.ii_fieldnorm.specs.Norms.{norm_of_id};

use crate::log::log2_fixed;
use ii_fieldnorm::id_to_fieldnorm;
use ii_io::Fault;
use std::alloc::Global;
use std::marker::Model;

/// A score, in units of 2^-38.
pub type Score = u64;

/// The score 1.0.
pub const SCORE_ONE: Score = 1 << 38;

// All of a share.
const SHARE_ONE: u64 = 1 << 28;

// No number of documents exceeds this, so twice a number and 2 fit.
const MOST_DOCS: u64 = 1 << 62;

/// Returns the inverse document frequency of a term by base 2, in units of 2^-26.
pub fn idf(doc_freq: u64, doc_count: u64) -> u64
    ensures value { result ≡ idf doc_freq doc_count }
    ensures below { result < 2 ^ 32 }
{
    let all = log2_fixed(2 * doc_count.min(MOST_DOCS) + 2);
    let having = log2_fixed(2 * doc_freq.min(MOST_DOCS) + 1);
    all.saturating_sub(having)
}

/// Returns what share of a term's greatest score so many occurrences reach in a document with this length part,
/// in units of 2^-28.
pub fn share(count: u32, length: u64) -> u64
    requires some { 0 < length }
    requires few { length < 2 ^ 36 }
    ensures value { result ≡ share count length }
    ensures below { result < 2 ^ 28 }
{
    let counted = u64::from(count) * 1_048_576;
    // What is missing, since the product with the count has more than 64 bits.
    let missing = (SHARE_ONE * length).div_ceil(counted + length);
    SHARE_ONE - missing
}

/// Returns the score of so many occurrences of a term of this weight in a document with this length part.
pub fn score(weight: u32, count: u32, length: u64) -> Score
    requires some { 0 < length }
    requires few { length < 2 ^ 36 }
    ensures value { result ≡ score weight count length }
    ensures below { result < 2 ^ 48 }
{
    u64::from(weight) * share(count, length) >> 12
}

/// A score rises with the count and falls with the length, so that of the greatest count and the least length
/// of a block bounds each of the block.
pub fn scores_rise_and_fall()
    ensures { RisesAndFalls }
{}

/// The weight of a term or a phrase in a field, and the length part of each field norm.
#[derive(Drop)]
pub struct Bm25Weight {
    weight: u32,
    lengths: Vec<u64>,
}

impl Model for Bm25Weight {
    ghost use Rattle.ii_bm25.specs.Bm25.{Bm25State};
    ghost use Rattle.ii_bm25.specs.Lengths.{AreLengths};

    ghost Value = { Bm25State };

    ghost view = { λ w. record { weight = w.weight; lengths = w.lengths.items } };

    ghost invariant = { λ w. AreLengths w.lengths.items };
}

impl Bm25Weight {
    /// Creates the weight of a term with this document frequency, in a field with so many tokens, of an index
    /// with so many documents. Returns `OutOfMemory` if an allocation fails.
    pub fn for_one_term(
        alloc: Global,
        doc_freq: u64,
        total_num_docs: u64,
        total_num_tokens: u64,
    ) -> Result<Bm25Weight, Fault>
        ensures made { IfOk result (λ w. w ≡ bm25_weight (idf doc_freq total_num_docs) total_num_docs total_num_tokens) }
        ensures only { OnlyMemory result }
    {
        Bm25Weight::new(
            alloc,
            idf(doc_freq, total_num_docs),
            total_num_docs,
            total_num_tokens,
        )
    }

    /// Creates the weight of terms whose idf have this sum: of a term, or of all terms of a phrase. Returns
    /// `OutOfMemory` if an allocation fails.
    pub fn new(
        alloc: Global,
        idfs: u64,
        total_num_docs: u64,
        total_num_tokens: u64,
    ) -> Result<Bm25Weight, Fault>
        ensures made { IfOk result (λ w. w ≡ bm25_weight idfs total_num_docs total_num_tokens) }
        ensures only { OnlyMemory result }
    {
        let mut lengths = Vec::new(alloc);
        for id in 0..256u32 {
            lengths.push(length_part(id_to_fieldnorm(id as u8), total_num_tokens, total_num_docs))?;
        }
        Ok(Bm25Weight {
            weight: weight_of(idfs),
            lengths,
        })
    }

    /// Returns the score of a document with this field norm id, in which the term occurs so many times.
    pub fn score(&self, fieldnorm_id: u8, term_freq: u32) -> Score
        ensures value { result ≡ bm25_score self.now fieldnorm_id term_freq }
        ensures below { result < 2 ^ 48 }
    {
        score(self.weight, term_freq, self.lengths[fieldnorm_id as usize])
    }

    /// Returns a score that no document exceeds.
    pub fn max_score(&self) -> Score
        ensures value { result ≡ self.now.weight * 2 ^ 16 }
        ensures bounds { (id count : ℕ) → bm25_score self.now id count ≤ result }
    {
        u64::from(self.weight) << 16
    }

    /// Returns a score that no document exceeds whose field norm id is at least this, and in which the term
    /// occurs at most so many times.
    pub fn block_max_score(&self, fieldnorm_id: u8, max_term_freq: u32) -> Score
        ensures value { result ≡ bm25_score self.now fieldnorm_id max_term_freq }
        ensures bounds { (id count : ℕ) → fieldnorm_id ≤ id → id < 256 → count ≤ max_term_freq → bm25_score self.now id count ≤ result }
    {
        score(
            self.weight,
            max_term_freq,
            self.lengths[fieldnorm_id as usize],
        )
    }

    /// Returns what share of the term's greatest score a document with this field norm id reaches, in which the term
    /// occurs so many times, in units of 2^-28.
    pub fn share(&self, fieldnorm_id: u8, term_freq: u32) -> u64
        ensures value { result ≡ bm25_share self.now fieldnorm_id term_freq }
        ensures below { result < 2 ^ 28 }
    {
        share(term_freq, self.lengths[fieldnorm_id as usize])
    }

    /// Returns the score of a document that reaches this share of the term's greatest score, in units of 2^-28. The
    /// share must be at most 2^28. No document scores more whose share is at most this.
    pub fn score_of_share(&self, share: u64) -> Score
        requires { share ≤ 2 ^ 28 }
        ensures value { result ≡ self.now.weight * share / 2 ^ 12 }
        ensures bounds { (id count : ℕ) → bm25_share self.now id count ≤ share → bm25_score self.now id count ≤ result }
    {
        u64::from(self.weight) * share >> 12
    }

    /// Returns the least count with which a document of this field norm id scores at least `least`, or `u32::MAX` if
    /// no smaller count does. With a smaller count, no document scores so much whose field norm id is at least this.
    pub fn least_term_freq(&self, fieldnorm_id: u8, least: Score) -> u32
        ensures value { IsLeastTermFreq self.now fieldnorm_id least result }
        ensures bounds { (id count : ℕ) → fieldnorm_id ≤ id → id < 256 → count < result → bm25_score self.now id count < least }
    {
        let length = self.lengths[fieldnorm_id as usize];
        least_count(self.weight, length, least)
    }
}

// Returns the least count that scores at least `least`, or `u32::MAX` if no smaller count does.
fn least_count(weight: u32, length: u64, least: Score) -> u32
    requires some { 0 < length }
    requires few { length < 2 ^ 36 }
    ensures { IsLeastCount (λ count. score weight count length) least result }
{
    // Each count below `low` scores less, and `high` doesn't.
    let mut low: u32 = 0;
    let mut high = u32::MAX;
    while low < high {
        // Most counts that are searched are small.
        let middle = low + ((high - low) / 2).min(low + 1);
        if score(weight, middle, length) < least {
            low = middle + 1;
        } else {
            high = middle;
        }
    }
    low
}

// Returns the weight of terms whose idf have this sum, in units of 2^-22.
fn weight_of(idfs: u64) -> u32
    ensures { result ≡ weight idfs }
{
    let scaled = u128::from(idfs) * 1_637_374_460 >> 34;
    scaled.max(1).min(u128::from(u32::MAX)) as u32
}

// Returns the length part of a field norm, in units of 2^-20.
fn length_part(fieldnorm: u32, num_tokens: u64, num_docs: u64) -> u64
    ensures { result ≡ length_part fieldnorm num_tokens num_docs }
{
    let tokens = u128::from(num_tokens.max(1));
    let length = 3 * tokens + 9 * u128::from(fieldnorm) * u128::from(num_docs);
    let part = length * 1_048_576 / (10 * tokens);
    part.min((1 << 36) - 1) as u64
}
