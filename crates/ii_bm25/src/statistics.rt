ghost use Rattle.std.specs.Prelude.{◌≡◌, IfOk};
ghost use Rattle.ii_io.specs.Faults.{OnlyMemory};
ghost use Rattle.ii_bm25.specs.Bm25.{bm25_weight};
ghost use Rattle.ii_bm25.specs.Statistics.{Statistics, idfs_of};

use crate::bm25::{Bm25Weight, idf};
use ii_base::{Field, Term};
use ii_io::Fault;
use std::alloc::Global;

/// Knows how many documents and tokens an index has, as scores need it.
pub trait Bm25StatisticsProvider {
    // The numbers that the calls return.
    ghost statistics: { Self → Statistics };

    /// Returns the number of tokens of a field.
    fn total_num_tokens(&self, field: Field) -> u64
        ensures { result ≡ (statistics self.now).num_tokens field };

    /// Returns the number of documents.
    fn total_num_docs(&self) -> u64
        ensures { result ≡ (statistics self.now).num_docs };

    /// Returns the number of documents that have a term.
    fn doc_freq(&self, term: &Term) -> u64
        ensures { result ≡ (statistics self.now).doc_freq term.now.field term.now.value };
}

impl Bm25Weight {
    /// Creates the weight of a phrase of these terms in a field: the sum of their idf. Returns `OutOfMemory` if
    /// an allocation fails.
    pub fn for_terms<S: Bm25StatisticsProvider>(
        alloc: Global,
        statistics: &S,
        field: Field,
        terms: &[Term],
    ) -> Result<Bm25Weight, Fault>
        ensures made { IfOk result (λ w. w ≡ bm25_weight (idfs_of (S.statistics statistics.now) terms.now) (S.statistics statistics.now).num_docs ((S.statistics statistics.now).num_tokens field)) }
        ensures only { OnlyMemory result }
    {
        let num_docs = statistics.total_num_docs();
        let mut idfs: u64 = 0;
        for place in 0..terms.len() {
            idfs = idfs.saturating_add(idf(statistics.doc_freq(&terms[place]), num_docs));
        }
        let num_tokens = statistics.total_num_tokens(field);
        Bm25Weight::new(alloc, idfs, num_docs, num_tokens)
    }
}
