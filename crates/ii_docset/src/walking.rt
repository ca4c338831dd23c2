ghost use Rattle.std.specs.Prelude.{◌≡◌, ◌↔◌, ◌<◌, ◌++◌, [], ◌∷◌, take, length, IfOk, IsTrue, OnErr, OnOk};
ghost use Rattle.std.specs.Vec.{vec_capacity, vec_len};
ghost use Rattle.ii_io.specs.Faults.{OnlyMemory};
ghost use Rattle.ii_docset.specs.Calls.{IsAllowed, IsLawful, answer_of, answer_to, answers_in, answers_to, asked_by, count_asked, counts_asked, num_asked, rest_after_call, rest_after};

use crate::calls::{CursorAnswer, CursorCall, Walk};
use crate::postings::Postings;
use ii_base::Fault;
use std::alloc::Global;

/// Makes calls of a cursor in order, and collects the answers. Each call must be allowed in the state that
/// the calls before it leave.
///
/// If an allocation fails, the walk ends. Every call made before has its answer, and the cursor is where
/// these calls left it.
#[tactic(auto, using(crate::proofs::WalkLemmas::may_walk, crate::proofs::WalkLemmas::walks_on))]
pub fn walk<P: Postings>(alloc: Global, cursor: &mut P, calls: &[CursorCall]) -> Walk
    requires { IsLawful calls.now (P.always_one cursor.old) (P.rest cursor.old) }
    ensures answers { IsTrue result.complete → answers_in result ≡ answers_to calls.now (P.always_one cursor.old) (P.rest cursor.old) }
    ensures complete { IsTrue result.complete ↔ (length (answers_in result) ≡ length calls.now) }
    ensures beginning { answers_in result ≡ take (length (answers_in result)) (answers_to calls.now (P.always_one cursor.old) (P.rest cursor.old)) }

    // The state of the cursor, and the cost of the calls.
    ensures rest { IsTrue result.complete → P.rest cursor.new ≡ rest_after calls.now (P.rest cursor.old) }
    ensures left { P.rest cursor.new ≡ rest_after (take (length (answers_in result)) calls.now) (P.rest cursor.old) }
    ensures kind { P.always_one cursor.new ≡ P.always_one cursor.old }
    ensures work { P.spent (num_asked calls.now) (counts_asked calls.now (P.always_one cursor.old) (P.rest cursor.old)) cursor.old cursor.new }
{
    let mut answers = Vec::new(alloc);
    for call in calls {
        // Capacity is reserved first, so that no answer is lost.
        let Ok(()) = answers.reserve(1) else {
            return Walk {
                answers,
                complete: false,
            };
        };
        let Ok(answer) = make_call(alloc, cursor, *call) else {
            return Walk {
                answers,
                complete: false,
            };
        };
        keep(&mut answers, answer);
    }
    Walk {
        answers,
        complete: true,
    }
}

// Appends an answer that fits the capacity.
fn keep(answers: &mut Vec<CursorAnswer>, answer: CursorAnswer)
    requires { vec_len answers.old < vec_capacity answers.old }
    ensures { answers.new.items ≡ answers.old.items ++ answer ∷ [] }
{
    match answers.push(answer) {
        Ok(()) => (),
        Err(_) => unreachable!(),
    }
}

// Makes one call. The cursor doesn't move if the answer can't be allocated.
fn make_call<P: Postings>(
    alloc: Global,
    cursor: &mut P,
    call: CursorCall,
) -> Result<CursorAnswer, Fault>
    requires { IsAllowed call (P.always_one cursor.old) (P.rest cursor.old) }
    ensures ok { IfOk result (λ answer. answer_of answer ≡ answer_to call (P.always_one cursor.old) (P.rest cursor.old)) }
    ensures only { OnlyMemory result }
    ensures rest { OnOk result (P.rest cursor.new ≡ rest_after_call call (P.rest cursor.old)) }
    ensures stays { OnErr result (P.rest cursor.new ≡ P.rest cursor.old) }
    ensures kind { P.always_one cursor.new ≡ P.always_one cursor.old }
    ensures work { P.spent (asked_by call) (count_asked call (P.always_one cursor.old) (P.rest cursor.old)) cursor.old cursor.new }
{
    match call {
        CursorCall::Doc => Ok(CursorAnswer::Doc(cursor.doc())),
        CursorCall::Advance => Ok(CursorAnswer::Doc(cursor.advance())),
        CursorCall::Seek(target) => Ok(CursorAnswer::Doc(cursor.seek(target))),
        CursorCall::TermFreq => Ok(CursorAnswer::Freq(cursor.term_freq())),
        CursorCall::Positions(offset) => {
            let mut positions = Vec::new(alloc);
            cursor.positions_with_offset(offset, &mut positions)?;
            Ok(CursorAnswer::Positions(positions))
        }
    }
}
