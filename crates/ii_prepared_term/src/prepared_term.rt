//! A term that is searched many times.
ghost use Rattle.std.specs.Prelude.{◌≡◌, ◌+◌, ◌<◌, ◌^◌, ◌++◌, ℕ, IfErr, IfOk, List, None, Ok, OnOk, length};
ghost use Rattle.ii_io.specs.Faults.{OnlyMemory};
ghost use Rattle.ii_alive.specs.Alive.{num_living};
ghost use Rattle.ii_base.specs.declared.schema.index_record_option.IndexRecordOption.TheVariants.{WithFreqs};
ghost use Rattle.ii_block_shares.specs.BlockShares.{last_end};
ghost use Rattle.ii_bm25.specs.Bm25.{bm25_score};
ghost use Rattle.ii_reader.specs.InvertedIndexReader.{IsRefusal};
ghost use Rattle.ii_search.specs.Found.{docs_of_term};
ghost use Rattle.ii_scorer.specs.Scorers.{score_of};
ghost use Rattle.ii_scorer.specs.TopDocs.{AreBest, scored_docs};
ghost use Rattle.ii_scorer.specs.TopNComputer.{KeepsBest};
ghost use Rattle.ii_ranking.specs.NormIds.{id_among};
ghost use Rattle.ii_ranking.specs.Scores.{IsScoreFault, scored_in, term_damage, term_score};
ghost use Rattle.ii_ranking.specs.Segments.{segment_scored};
ghost use Rattle.ii_prepared_term.specs.PreparedQueries.{ScoresEnd};
ghost use Rattle.ii_prepared_term.specs.PreparedScorers.{IsAtStart, IsUnread, prepared_list, prepared_state, term_block_list};
ghost use Rattle.ii_prepared_term.specs.PreparedTerms.{prepared_bound, prepared_score};
ghost use Rattle.ii_prepared_term.specs.QueryBounds.{term_bound};
ghost use Rattle.ii_prepared_term.specs.QueryDocs.{term_docs};

use crate::prepared_scorer::PreparedScorer;
use ii_alive::AliveBits;
use ii_base::{DocId, Fault, IndexRecordOption, Term};
use ii_block_shares::{BlockShares, norm_id};
use ii_bm25::{Bm25StatisticsProvider, Bm25Weight, Score};
use ii_docset::DocSet;
use ii_fieldnorm::FieldNormReader;
use ii_ranking::numbers::{AllNumbers, LivingNumbers};
use ii_ranking::term_scores::{norms_of, weight_of};
use ii_reader::{OpenIndex, SegmentPostings};
use ii_scorer::{TopDocs, TopNComputer, push_best};
use std::alloc::Global;
use std::marker::Model;

/// A term of an index whose list was opened, with bounds of what its documents score. It holds all that a search needs,
/// so it is searched without the index, as often as wanted.
///
/// Its model is the term's weight, the norms of its field, the bounds, and a cursor at the start of its list.
#[derive(Drop)]
pub struct PreparedTerm {
    cursor: SegmentPostings,
    weight: Bm25Weight,
    norms: Option<FieldNormReader>,
    shares: BlockShares,
}

impl Model for PreparedTerm {
    ghost use Rattle.ii_prepared_term.specs.PreparedScorers.{IsAtStart};
    ghost use Rattle.ii_prepared_term.specs.PreparedTerms.{IsPrepared, PreparedTermState};

    ghost Value = { PreparedTermState };

    ghost view = { λ s. record { by = record { weight = s.weight; norms = s.norms }; shares = s.shares; cursor = s.cursor } };

    ghost invariant = { λ s. IsPrepared (record { by = record { weight = s.weight; norms = s.norms }; shares = s.shares; cursor = s.cursor }) × IsAtStart s.cursor };
}

impl PreparedTerm {
    /// Opens the list of a term, which is validated, and makes the bounds in one pass over it. The statistics say how many
    /// documents and tokens count, as for `ii_ranking::search`. The term's field must be a field of the index.
    ///
    /// # Errors
    ///
    /// `Damaged` with the first corrupt part of the term's list, or with `FieldNorms` if its field has more than
    /// `u32::MAX` norms; `OutOfMemory` if an allocation fails.
    pub fn open<S: Bm25StatisticsProvider>(
        alloc: Global,
        index: &OpenIndex,
        statistics: &S,
        term: &Term,
    ) -> Result<PreparedTerm, Fault>
        requires field { term.now.field < length index.now.readers }
        ensures scores { IfOk result (λ prepared. (doc : ℕ) → prepared_score prepared doc ≡ term_score (scored_in index.now (S.statistics statistics.now)) term.now doc) }
        ensures bounds { IfOk result (λ prepared. (doc : ℕ) → prepared_bound prepared doc ≡ term_bound (scored_in index.now (S.statistics statistics.now)) term.now doc) }
        ensures list { IfOk result (λ prepared. (term_block_list prepared).docs ≡ term_docs index.now term.now) }
        ensures ends { IfOk result (λ prepared. ScoresEnd (prepared_score prepared)) }
        ensures sound { OnOk result (term_damage index.now term.now ≡ None) }
        ensures fault { IfErr result (IsScoreFault (term_damage index.now term.now)) }
    {
        let cursor = cursor_of(index, term)?;
        let norms = norms_of(index, term.field())?;
        let weight = weight_of(alloc, statistics, term)?;
        // that documents ascend, for the proof
        let _first = cursor.doc();
        let mut walked = cursor.clone()?;
        let shares = BlockShares::of_postings(alloc, &mut walked, &norms, &weight)?;
        Ok(PreparedTerm {
            cursor,
            weight,
            norms,
            shares,
        })
    }

    /// Returns the best of the documents below a number that have the term, each with its score: the greatest score
    /// first, and of equal ones the smaller document. Fails only with `OutOfMemory`.
    pub fn search(
        &self,
        alloc: Global,
        num_docs: DocId,
        docs: &TopDocs,
    ) -> Result<Vec<(Score, DocId)>, Fault>
        ensures best { IfOk result (λ best. AreBest docs.now (scored_docs num_docs (prepared_score self.now)) best.items) }
        ensures only { OnlyMemory result }
    {
        let mut computer = docs.computer(alloc);
        match self.push_all(num_docs, &mut computer) {
            Ok(()) => docs.best_of(computer),
            Err(fault) => Err(fault),
        }
    }

    /// Adds the living documents of a segment that have the term, each with its score, to those of which the best are
    /// kept. They are numbered from `base` on, and their numbers must have 32 bits. Fails only with `OutOfMemory`.
    pub fn push_living(
        &self,
        alive: &AliveBits,
        base: DocId,
        computer: &mut TopNComputer,
    ) -> Result<(), Fault>
        requires few { base + num_living alive.now < 2 ^ 32 }
        ensures kept { (scored : List (ℕ × ℕ)) → KeepsBest scored computer.old → OnOk result (KeepsBest (scored ++ segment_scored base alive.now (prepared_score self.now)) computer.new) }
        ensures wanted { computer.new.top_n ≡ computer.old.top_n }
        ensures only { OnlyMemory result }
    {
        let mut scorer = self.scorer()?;
        let numbers = LivingNumbers { base, alive };
        push_best(&mut scorer, &numbers, computer)
    }

    // Adds the documents below a number that have the term, each with its score.
    fn push_all(&self, num_docs: DocId, computer: &mut TopNComputer) -> Result<(), Fault>
        ensures kept { (scored : List (ℕ × ℕ)) → KeepsBest scored computer.old → OnOk result (KeepsBest (scored ++ scored_docs num_docs (prepared_score self.now)) computer.new) }
        ensures wanted { computer.new.top_n ≡ computer.old.top_n }
        ensures only { OnlyMemory result }
    {
        let mut scorer = self.scorer()?;
        let numbers = AllNumbers { num_docs };
        push_best(&mut scorer, &numbers, computer)
    }

    /// Returns a scorer at the start of the list, of which no block was decoded but the first. Fails only with
    /// `OutOfMemory`.
    pub fn scorer(&self) -> Result<PreparedScorer<'_>, Fault>
        ensures scores { IfOk result (λ scorer. (doc : ℕ) → score_of (prepared_state scorer) doc ≡ prepared_score self.now doc) }
        ensures starts { IfOk result (λ scorer. scorer ≡ record { term = self.now; cursor = self.now.cursor }) }
        ensures unread { IfOk result (λ scorer. IsUnread (prepared_list scorer)) }
        ensures only { OnlyMemory result }
    {
        let cursor = self.cursor.clone()?;
        Ok(PreparedScorer::new(self, cursor))
    }

    // Returns the weight of the term.
    pub(crate) fn weight(&self) -> &Bm25Weight
        ensures { result.now ≡ self.now.by.weight }
    {
        &self.weight
    }

    // Returns the bounds of the runs.
    pub(crate) fn shares(&self) -> &BlockShares
        ensures { result.now ≡ self.now.shares }
    {
        &self.shares
    }

    // Returns the document after the last one of the list.
    pub(crate) fn end(&self) -> DocId
        ensures { result ≡ last_end self.now.shares }
    {
        self.shares.end()
    }

    // Returns what a document scores that has the term so often.
    pub(crate) fn score(&self, doc: DocId, count: u32) -> Score
        ensures { result ≡ bm25_score self.now.by.weight (id_among self.now.by.norms doc) count }
    {
        self.weight.score(norm_id(&self.norms, doc), count)
    }
}

// Opens the list of a term at its start. See `ii_search::postings_of`.
fn cursor_of(index: &OpenIndex, term: &Term) -> Result<SegmentPostings, Fault>
    requires field { term.now.field < length index.now.readers }
    ensures listed { IfOk result (λ cursor. docs_of_term WithFreqs index.now term.now ≡ Ok cursor.rest) }
    ensures start { IfOk result IsAtStart }
    ensures refused { IfErr result (IsRefusal (docs_of_term WithFreqs index.now term.now)) }
{
    let reader = index.reader(term.field());
    match reader.read_postings(term, IndexRecordOption::WithFreqs) {
        Ok(Some(cursor)) => {
            // which blocks it decoded, for the proof
            let _doc = cursor.doc();
            Ok(cursor)
        }
        Ok(None) => Ok(SegmentPostings::empty()),
        Err(fault) => Err(fault),
    }
}
