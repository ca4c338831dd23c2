//! The best of the documents that a scorer gives.
ghost use Rattle.std.specs.Prelude.{◌≡◌, ◌≤◌, ◌<◌, ◌++◌, ℕ, List, OnOk};
ghost use Rattle.ii_io.specs.Faults.{OnlyMemory};
ghost use Rattle.ii_base.specs.declared.doc_id.TheConstants.{TERMINATED};
ghost use Rattle.ii_scorer.specs.BestDocs.{AreNumbers, IsNeeded, Numbering, NumbersComeAfter, counted_score, numbered_docs};
ghost use Rattle.ii_scorer.specs.BlockLists.{ReadsOnly};
ghost use Rattle.ii_scorer.specs.Scorers.{KeepsFrom, score_of};
ghost use Rattle.ii_scorer.specs.TopDocs.{with_score};
ghost use Rattle.ii_scorer.specs.TopNComputer.{KeepsBest, MayBePassed};

use crate::scorer::Scorer;
use crate::top_n_computer::TopNComputer;
use ii_base::{DocId, Fault, TERMINATED};
use ii_bm25::Score;

/// Tells which documents of a scorer count, and their numbers in an index, which ascend as they do.
pub trait DocNumbers {
    // How many documents there are, which of them count, and the number of each.
    ghost numbering: { Self → Numbering };

    /// Returns how many documents there are, those that don't count included.
    fn num_docs(&self) -> DocId
        ensures { result ≡ (numbering self.now).num_docs };

    /// Returns the number of a document. All of them must have 32 bits, and ascend.
    fn number(&self, doc: DocId) -> DocId
        requires inside { doc < (numbering self.now).num_docs }
        requires numbers { AreNumbers (numbering self.now) }
        ensures { result ≡ (numbering self.now).number doc };

    /// Returns whether a document counts.
    fn counts(&self, doc: DocId) -> bool
        requires { doc < (numbering self.now).num_docs }
        ensures { result ≡ (numbering self.now).counts doc };
}

/// Adds the documents that count and have a score, each by its number with the score, to those of which the best are kept.
/// Documents that score too little for that are passed. Their numbers must have 32 bits, and ascend. Fails only with
/// `OutOfMemory`. Also where it fails, a block of a list is decoded at most once, and only if it has the first document
/// from a document on, of whose bound this holds: fewer of those before it than are wanted score as much.
pub fn push_best<T: Scorer, N: DocNumbers>(
    scorer: &mut T,
    numbers: &N,
    computer: &mut TopNComputer,
) -> Result<(), Fault>
    requires { AreNumbers (N.numbering numbers.now) }
    ensures kept { (scored : List (ℕ × ℕ)) → KeepsBest scored computer.old → OnOk result (KeepsBest (scored ++ numbered_docs (N.numbering numbers.now) (score_of (T.state scorer.old))) computer.new) }
    ensures wanted { computer.new.top_n ≡ computer.old.top_n }
    ensures work { (scored : List (ℕ × ℕ)) → KeepsBest scored computer.old → NumbersComeAfter scored (N.numbering numbers.now) → ReadsOnly (IsNeeded scored (N.numbering numbers.now) (T.state scorer.old) computer.old.top_n) (T.state scorer.old).lists (T.state scorer.new).lists }
    ensures only { OnlyMemory result }
{
    let num_docs = numbers.num_docs();
    let mut doc = 0;
    while doc < num_docs {
        let Some(least) = computer.least_score(numbers.number(doc)) else {
            // No score exceeds it, so each later document may be passed.
            let _most = scorer.max_score();
            return Ok(());
        };
        let next = scorer.skip_to_score(doc, least);
        if next >= num_docs.min(TERMINATED) {
            return Ok(());
        }
        push_doc(scorer, numbers, next, least, computer)?;
        doc = next + 1;
    }
    Ok(())
}

// Adds a document by its number with its score, if it counts and has a score that is at least `least`.
fn push_doc<T: Scorer, N: DocNumbers>(
    scorer: &mut T,
    numbers: &N,
    doc: DocId,
    least: Score,
    computer: &mut TopNComputer,
) -> Result<(), Fault>
    requires numbers { AreNumbers (N.numbering numbers.now) }
    requires inside { doc < (N.numbering numbers.now).num_docs }
    requires low { doc < TERMINATED }
    requires passes { (score : ℕ) → score < least → MayBePassed computer.old (score, (N.numbering numbers.now).number doc) }
    ensures kept { (scored : List (ℕ × ℕ)) → KeepsBest scored computer.old → OnOk result (KeepsBest (scored ++ with_score (counted_score (N.numbering numbers.now) (score_of (T.state scorer.old)) doc) ((N.numbering numbers.now).number doc)) computer.new) }
    ensures moved { KeepsFrom doc (T.state scorer.old) (T.state scorer.new) }
    ensures work { ReadsOnly (λ from. from ≡ doc) (T.state scorer.old).lists (T.state scorer.new).lists }
    ensures wanted { computer.new.top_n ≡ computer.old.top_n }
    ensures only { OnlyMemory result }
{
    if !numbers.counts(doc) {
        return Ok(());
    }
    computer.push_scored(scorer.score_at(doc, least), numbers.number(doc))
}
