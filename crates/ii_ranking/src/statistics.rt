//! The numbers that scores need, as they were gathered.
ghost use Rattle.std.specs.Prelude.{◌≡◌, ℕ, List, [], OnErr, OnOk};
ghost use Rattle.ii_io.specs.Faults.{OnlyMemory};
ghost use Rattle.ii_ranking.specs.Statistics.{doc_freq_after, doc_freq_in, is_of, statistics_of};

use ii_base::{Fault, Field, Term};
use ii_bm25::Bm25StatisticsProvider;
use std::alloc::Global;

/// How many documents have a term.
#[derive(Drop)]
pub struct TermCount {
    pub field: Field,
    pub key: Vec<u8>,
    pub doc_freq: u64,
}

/// The numbers of an index that scores need: how many documents it has, how many tokens each field, and how many
/// documents each of some terms.
#[derive(Drop)]
pub struct GatheredStatistics {
    num_docs: u64,
    num_tokens: Vec<u64>,
    terms: Vec<TermCount>,
}

impl GatheredStatistics {
    /// Returns the numbers of an index with so many documents, and so many tokens in each field, in the order of
    /// the fields. No document has a term yet.
    pub fn new(alloc: Global, num_docs: u64, num_tokens: Vec<u64>) -> GatheredStatistics
        ensures docs { result.num_docs ≡ num_docs }
        ensures tokens { result.num_tokens ≡ num_tokens }
        ensures terms { result.terms.items ≡ [] }
    {
        GatheredStatistics {
            num_docs,
            num_tokens,
            terms: Vec::new(alloc),
        }
    }

    /// Sets how many documents have a term. Of a term that is set twice the first number counts. Returns
    /// `OutOfMemory`, and changes nothing, if an allocation fails.
    pub fn add_term(&mut self, alloc: Global, term: &Term, doc_freq: u64) -> Result<(), Fault>
        ensures set { OnOk result ((field : ℕ) (key : List ℕ) → doc_freq_in self.new.terms.items field key ≡ doc_freq_after self.old.terms.items term.now doc_freq field key) }
        ensures docs { self.new.num_docs ≡ self.old.num_docs }
        ensures tokens { self.new.num_tokens ≡ self.old.num_tokens }
        ensures unchanged { OnErr result (self.new.terms.items ≡ self.old.terms.items) }
        ensures only { OnlyMemory result }
    {
        let key = Vec::from_slice(alloc, term.serialized_value_bytes())?;
        self.terms.push(TermCount {
            field: term.field(),
            key,
            doc_freq,
        })?;
        Ok(())
    }
}

impl Bm25StatisticsProvider for GatheredStatistics {
    ghost use Rattle.ii_ranking.specs.Statistics.{statistics_of};

    ghost statistics = { statistics_of };

    fn total_num_tokens(&self, field: Field) -> u64 {
        let place = field.field_id() as usize;
        if place < self.num_tokens.len() {
            return self.num_tokens[place];
        }
        0
    }

    fn total_num_docs(&self) -> u64 {
        self.num_docs
    }

    fn doc_freq(&self, term: &Term) -> u64 {
        for place in 0..self.terms.len() {
            let count = &self.terms[place];
            if count.is_of(term) {
                return count.doc_freq;
            }
        }
        0
    }
}

impl TermCount {
    // Returns whether it is of a term.
    fn is_of(&self, term: &Term) -> bool
        ensures { result ≡ is_of term.now.field term.now.value self.now }
    {
        self.field == term.field() && self.key.as_slice() == term.serialized_value_bytes()
    }
}
