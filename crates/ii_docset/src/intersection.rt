ghost use Rattle.std.specs.Prelude.{◌≡◌, [], IfOk, OnOk};
ghost use Rattle.ii_io.specs.Faults.{OnlyMemory};
ghost use Rattle.ii_docset.specs.Intersection.{common_docs};

use crate::docset::{DocSet, SeekDangerResult};
use ii_base::{DocId, Fault, TERMINATED};
use std::alloc::Global;

/// Returns the documents that remain in both cursors, in ascending order. This exhausts the first cursor,
/// and advances the other one.
///
/// Returns `OutOfMemory` if the list can't grow. The cursors are then somewhere in between.
pub fn intersect<A: DocSet, B: DocSet>(
    alloc: Global,
    first: &mut A,
    other: &mut B,
) -> Result<Vec<DocId>, Fault>
    ensures ok { IfOk result (λ docs. docs.items ≡ common_docs (A.rest first.old) (B.rest other.old)) }
    ensures only { OnlyMemory result }
    ensures rest { OnOk result (A.rest first.new ≡ []) }
    ensures first_kind { A.always_one first.new ≡ A.always_one first.old }
    ensures other_kind { B.always_one other.new ≡ B.always_one other.old }
    ensures first_work { A.went first.old first.new }
    ensures other_work { B.went other.old other.new }
{
    let mut docs = Vec::new(alloc);
    let mut doc = first.doc();
    while doc < TERMINATED {
        match other.seek_danger(doc) {
            SeekDangerResult::Found => {
                docs.push(doc)?;
                doc = first.advance();
            }
            SeekDangerResult::SeekLowerBound(bound) => doc = first.seek(bound),
        }
    }
    Ok(docs)
}
