//! What a document scores by how often it has a term.
ghost use Rattle.std.specs.Prelude.{◌≡◌, ◌*◌, ◌<◌, ◌≤◌, ◌^◌, ℕ, Some};
ghost use Rattle.ii_bm25.specs.Bm25.{bm25_score};
ghost use Rattle.ii_ranking.specs.NormIds.{id_among};
ghost use Rattle.ii_ranking.specs.TermWeights.{IsFreqFor, IsKnownId, IsLeastId};

use crate::term_scores::norm_id;
use ii_base::DocId;
use ii_bm25::{Bm25Weight, Score};
use ii_fieldnorm::FieldNormReader;
use std::marker::Model;

// Only for a term that at least one of so many documents has, the norms of all documents are read.
const DOCS_FOR_NORMS: u32 = 8;

// The weight of a term, and the norms of its field.
#[derive(Drop)]
pub(crate) struct TermWeight {
    weight: Bm25Weight,
    norms: Option<FieldNormReader>,
    // how many documents have the term, until the norms are read
    doc_freq: Option<u32>,
    // no document has a smaller norm id, if it is known
    least_id: Option<u8>,
    // a document with a count below `least_freq` scores less than `least`
    least: Score,
    least_freq: u32,
}

impl Model for TermWeight {
    ghost use Rattle.ii_ranking.specs.TermWeights.{IsFreqFor, IsKnownId, TermWeightState};

    ghost Value = { TermWeightState };

    ghost view = { λ w. record { weight = w.weight; norms = w.norms } };

    ghost invariant = { λ w. IsKnownId w.norms w.least_id × IsFreqFor (record { weight = w.weight; norms = w.norms }) w.least w.least_freq };
}

impl TermWeight {
    // Creates the weight of a term that so many documents have.
    pub(crate) fn new(
        weight: Bm25Weight,
        norms: Option<FieldNormReader>,
        doc_freq: u32,
    ) -> TermWeight
        ensures { result ≡ record { weight = weight; norms = norms } }
    {
        TermWeight {
            weight,
            norms,
            doc_freq: Some(doc_freq),
            least_id: None,
            least: 0,
            least_freq: 0,
        }
    }

    // Returns a score that no document exceeds.
    pub(crate) fn max_score(&self) -> Score
        ensures value { result ≡ self.now.weight.weight * 2 ^ 16 }
        ensures bounds { (id count : ℕ) → bm25_score self.now.weight id count ≤ result }
    {
        self.weight.max_score()
    }

    // Returns what a document scores in which the term occurs so many times.
    pub(crate) fn score(&self, doc: DocId, term_freq: u32) -> Score
        ensures { result ≡ bm25_score self.now.weight (id_among self.now.norms doc) term_freq }
    {
        self.weight.score(norm_id(&self.norms, doc), term_freq)
    }

    // Returns a count such that each document with a smaller one scores less than `least`. The first call may read the
    // norms.
    pub(crate) fn least_term_freq(&mut self, least: Score) -> u32
        ensures same { self.new ≡ self.old }
        ensures freq { IsFreqFor self.new least result }
    {
        if let Some(doc_freq) = self.doc_freq {
            self.least_id = least_id_of(&self.norms, doc_freq);
            self.doc_freq = None;
        }
        let Some(id) = self.least_id else {
            return 0;
        };
        if least == self.least {
            return self.least_freq;
        }
        self.least_freq = freq_for(&self.weight, &self.norms, id, least);
        self.least = least;
        self.least_freq
    }
}

// Returns a count such that each document with a smaller one scores less than `least`. No document has a smaller norm id
// than `id`.
fn freq_for(weight: &Bm25Weight, norms: &Option<FieldNormReader>, id: u8, least: Score) -> u32
    requires { IsLeastId norms.now id }
    ensures { IsFreqFor (record { weight = weight.now; norms = norms.now }) least result }
{
    weight.least_term_freq(id, least)
}

// Returns the least norm id of a document, if so many documents of a term make it worth reading all of them.
fn least_id_of(norms: &Option<FieldNormReader>, doc_freq: u32) -> Option<u8>
    ensures { IsKnownId norms.now result }
{
    match norms {
        Some(norms) => {
            if norms.num_docs() / DOCS_FOR_NORMS <= doc_freq {
                return Some(least_of(norms));
            }
            None
        }
        None => Some(1),
    }
}

// Returns the least norm id of a document; a document without norm has the id 1.
fn least_of(norms: &FieldNormReader) -> u8
    ensures { IsLeastId (Some norms.now) result }
{
    let mut least = 1;
    for doc in 0..norms.num_docs() {
        least = norms.fieldnorm_id(doc).min(least);
    }
    least
}
