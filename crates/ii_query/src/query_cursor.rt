ghost use Rattle.std.specs.Prelude.{◌≡◌, ◌≤◌, ◌<◌, ◌+◌, ◌++◌, [], ◌∷◌, IfOk, IsPermutation, List, drop, length, min};
ghost use Rattle.std.specs.List.{AllByRecursion, AllZip};
ghost use Rattle.ii_io.specs.Faults.{OnlyMemory};
ghost use Rattle.ii_docset.specs.Cursor.{doc_at, from_doc, IsSound};
ghost use Rattle.ii_query.specs.BitSet.{bits_end, docs_of_set};
ghost use Rattle.ii_query.specs.Combined.{IsAtFirst, QueryCursorState, SeekAnswer, StandsAt, all_from, either, intersection_of, union_of, without};
ghost use Rattle.ii_query.specs.QueryCursor.{HasLeastHint, KeptFrom, LeadsWith, WentTo, cursors_of, cursors_under, depth_of, depth_over, rest_of, rests, sum_of_hints};

use crate::all_docs::AllDocs;
use crate::bit_set::{BitSet, BitSetDocSet};
use ii_base::Fault;
use ii_docset::{DocId, DocSet, TERMINATED};
use std::alloc::Global;
use std::marker::Model;

/// A cursor over the documents that a query matches, in ascending order. Its form is chosen at run time: no
/// documents, those of one cursor, all below a number, those of a set, or an intersection, a union or a difference.
#[cycle(query_cursor)]
#[derive(Drop)]
pub struct QueryCursor<T: DocSet> {
    parts: QueryParts<T>,
    // the current document, or `TERMINATED`
    doc: DocId,
    // at least the number of remaining documents
    hint: u32,
}

#[cycle(query_cursor)]
#[derive(Drop)]
enum QueryParts<T: DocSet> {
    Nothing,
    One(T),
    All(AllDocs),
    Set(BitSetDocSet),
    // the first cursor leads; the others seek its documents
    Intersection(Box<QueryCursor<T>>, Vec<QueryCursor<T>>),
    // a union of two, kept apart so that there is no loop over the parts
    Either(Box<QueryCursor<T>>, Box<QueryCursor<T>>),
    Union(Vec<QueryCursor<T>>),
    Without(Box<QueryCursor<T>>, Box<QueryCursor<T>>),
}

impl<T: DocSet> Model for QueryCursor<T> {
    ghost use Rattle.ii_query.specs.Combined.{QueryCursorState, StandsWithin};

    ghost Value = { QueryCursorState T };

    ghost use Rattle.ii_query.specs.QueryCursor.{cursors_of, depth_of, rest_of};

    ghost view = { λ c. record { rest = rest_of T.rest c.parts; hint = c.hint; depth = depth_of c.parts; cursors = cursors_of c.parts } };

    ghost invariant = { λ c. StandsWithin c.doc c.hint (rest_of T.rest c.parts) };

    ghost size = { λ s. s.depth };

    ghost use Rattle.ii_query.specs.QueryCursorLemmas.{part_depth};
    ghost use Rattle.std.proofs.Common.{arith};

    ghost size_decreases = { λ c h. Prim.grind (arith, part_depth) };
}

impl<T: DocSet> QueryCursor<T> {
    /// Returns a cursor over no documents.
    pub fn nothing() -> QueryCursor<T>
        ensures rest { result.rest ≡ [] }
        ensures hint { result.hint ≡ 0 }
        ensures cursors { result.cursors ≡ [] }
    {
        QueryCursor {
            parts: QueryParts::Nothing,
            doc: TERMINATED,
            hint: 0,
        }
    }

    /// Returns a cursor over the documents of one cursor.
    pub fn one(cursor: T) -> QueryCursor<T>
        ensures rest { result.rest ≡ T.rest cursor }
        ensures hint { T.hints cursor result.hint }
        ensures cursors { result.cursors ≡ cursor ∷ [] }
    {
        let doc = cursor.doc();
        let hint = cursor.size_hint();
        QueryCursor {
            parts: QueryParts::One(cursor),
            doc,
            hint,
        }
    }

    /// Returns a cursor over all documents below `num_docs`. No document is `TERMINATED` or above.
    pub fn all(num_docs: DocId) -> QueryCursor<T>
        ensures rest { result.rest ≡ all_from 0 (min num_docs TERMINATED) }
        ensures hint { result.hint ≡ min num_docs TERMINATED }
        ensures cursors { result.cursors ≡ [] }
    {
        let docs = AllDocs::new(num_docs);
        let doc = docs.doc();
        let hint = docs.size_hint();
        QueryCursor {
            parts: QueryParts::All(docs),
            doc,
            hint,
        }
    }

    /// Returns a cursor over the documents of a set. Its hint is at most the number of bits of the set.
    pub fn set(docs: BitSet) -> QueryCursor<T>
        ensures rest { result.rest ≡ docs_of_set docs }
        ensures hint { result.hint ≤ bits_end docs }
        ensures cursors { result.cursors ≡ [] }
    {
        let docs = BitSetDocSet::new(docs);
        let doc = docs.doc();
        let hint = docs.size_hint();
        QueryCursor {
            parts: QueryParts::Set(docs),
            doc,
            hint,
        }
    }

    /// Returns a cursor over the documents that all cursors have, or over none without cursors. The cursor
    /// with the least hint leads, and its hint is that of the intersection. Fails only with `OutOfMemory`.
    #[inline(never)]
    pub fn intersection(
        alloc: Global,
        cursors: Vec<QueryCursor<T>>,
    ) -> Result<QueryCursor<T>, Fault>
        ensures rest { IfOk result (λ cursor. cursor.rest ≡ intersection_of (rests cursors.items)) }
        ensures work { IfOk result (λ cursor. (order : List (QueryCursorState T)) × IsPermutation cursors.items order × AllZip T.went (cursors_under order) cursor.cursors × LeadsWith cursor.hint order) }
        ensures only { OnlyMemory result }
    {
        if cursors.is_empty() {
            return Ok(QueryCursor::nothing());
        }
        let at = rarest(&cursors);
        let mut others = cursors;
        let leader = others.swap_remove(at);
        let hint = leader.bound();
        let mut leader = Box::new(alloc, leader)?;
        let doc = meet(&mut leader, &mut others);
        Ok(QueryCursor {
            parts: QueryParts::Intersection(leader, others),
            doc,
            hint,
        })
    }

    /// Returns a cursor over the documents that at least one cursor has, each once, or over none without
    /// cursors. Its hint is the sum of theirs, or `u32::MAX` if that is greater. Fails only with
    /// `OutOfMemory`.
    #[inline(never)]
    pub fn union(alloc: Global, cursors: Vec<QueryCursor<T>>) -> Result<QueryCursor<T>, Fault>
        ensures rest { IfOk result (λ cursor. cursor.rest ≡ union_of (rests cursors.items)) }
        ensures hint { IfOk result (λ cursor. cursor.hint ≡ sum_of_hints cursors.items) }
        ensures cursors { IfOk result (λ cursor. cursor.cursors ≡ cursors_under cursors.items) }
        ensures only { OnlyMemory result }
    {
        let hint = bound_over(&cursors);
        if cursors.len() == 2 {
            let mut cursors = cursors;
            let other = cursors.swap_remove(1);
            let first = cursors.swap_remove(0);
            return union_of_two(alloc, first, other, hint);
        }
        let doc = least_doc(&cursors);
        Ok(QueryCursor {
            parts: QueryParts::Union(cursors),
            doc,
            hint,
        })
    }

    /// Returns a cursor over the documents that `first` has and `other` doesn't have, with the hint of
    /// `first`. Fails only with `OutOfMemory`.
    #[inline(never)]
    pub fn without(
        alloc: Global,
        first: QueryCursor<T>,
        other: QueryCursor<T>,
    ) -> Result<QueryCursor<T>, Fault>
        ensures rest { IfOk result (λ cursor. cursor.rest ≡ without first.rest other.rest) }
        ensures hint { IfOk result (λ cursor. cursor.hint ≡ first.hint) }
        ensures work { IfOk result (λ cursor. AllZip T.went (first.cursors ++ other.cursors) cursor.cursors) }
        ensures only { OnlyMemory result }
    {
        let hint = first.bound();
        let mut first = Box::new(alloc, first)?;
        let mut other = Box::new(alloc, other)?;
        let doc = leave_out(&mut first, &mut other);
        Ok(QueryCursor {
            parts: QueryParts::Without(first, other),
            doc,
            hint,
        })
    }

    // Returns the current document.
    #[tactic(auto, using(ii_docset::proofs::CursorLemmas::doc_below))]
    fn current(&self) -> DocId
        ensures doc { result ≡ doc_at self.now.rest }
        ensures sound { IsSound self.now.rest }
        ensures up_to { result ≤ TERMINATED }
    {
        self.doc
    }

    // Returns the hint, which is at least the number of remaining documents.
    fn bound(&self) -> u32
        ensures hint { result ≡ self.now.hint }
        ensures enough { length self.now.rest ≤ result }
        ensures sound { IsSound self.now.rest }
    {
        self.hint
    }

    // Drops the documents below a target, which may be below the current document.
    #[cycle(go_to)]
    #[inline(always)]
    fn go_to(&mut self, target: DocId) -> DocId
        requires { target ≤ TERMINATED }
        ensures doc { result ≡ doc_at self.new.rest }
        ensures rest { self.new.rest ≡ from_doc target self.old.rest }
        ensures sound { IsSound self.new.rest }
        ensures up_to { result ≤ TERMINATED }
        ensures depth { self.new.depth ≡ self.old.depth }
        ensures work { AllZip T.went self.old.cursors self.new.cursors }
    {
        let doc = self.current();
        if target <= doc {
            return doc;
        }
        self.go_on(doc, target)
    }

    // Drops the documents below a target, which is above the current document.
    #[cycle(go_to)]
    #[inline(always)]
    fn go_on(&mut self, doc: DocId, target: DocId) -> DocId
        requires here { doc ≡ doc_at self.old.rest }
        requires above { doc < target }
        requires up_to { target ≤ TERMINATED }

        // the current document after the call
        ensures doc { result ≡ doc_at self.new.rest }
        ensures rest { self.new.rest ≡ from_doc target self.old.rest }
        ensures sound { IsSound self.new.rest }
        ensures up_to { result ≤ TERMINATED }
        // the state, and the moves of its cursors
        ensures depth { self.new.depth ≡ self.old.depth }
        ensures work { AllZip T.went self.old.cursors self.new.cursors }
    {
        // without a call, since most moves end here
        if let QueryParts::One(cursor) = &mut self.parts {
            let next = go_above(cursor, doc, target);
            self.doc = next;
            return next;
        }
        let next = move_to(&mut self.parts, doc, target);
        self.doc = next;
        next
    }

    // Drops a document, if it is the current one. No remaining document is below it.
    #[inline(always)]
    fn pass(&mut self, doc: DocId, passed: DocId) -> DocId
        requires here { doc ≡ doc_at self.old.rest }
        requires least { passed ≤ doc }
        requires low { passed < TERMINATED }
        ensures doc { result ≡ doc_at self.new.rest }
        ensures rest { self.new.rest ≡ from_doc (passed + 1) self.old.rest }
        ensures sound { IsSound self.new.rest }
        ensures work { AllZip T.went self.old.cursors self.new.cursors }
    {
        // the invariant that documents ascend, for the proof
        let _doc = self.current();
        if doc != passed {
            return doc;
        }
        self.go_on(passed, passed + 1)
    }

    // Counts the remaining documents one by one, and drops them.
    fn count_each(&mut self) -> u32
        ensures count { result ≡ length self.old.rest }
        ensures rest { self.new.rest ≡ [] }
        ensures work { AllZip T.went self.old.cursors self.new.cursors }
    {
        let mut count = 0;
        let mut doc = self.current();
        while doc < TERMINATED {
            doc = self.go_on(doc, doc + 1);
            count += 1;
        }
        count
    }
}

// Drops the documents of parts below a target, which is above the current document.
#[cycle(go_to)]
fn move_to<T: DocSet>(parts: &mut QueryParts<T>, doc: DocId, target: DocId) -> DocId
    requires at { StandsAt doc (rest_of T.rest parts.old) }
    requires above { doc < target }
    requires up_to { target ≤ TERMINATED }
    ensures at { StandsAt result (rest_of T.rest parts.new) }
    ensures rest { rest_of T.rest parts.new ≡ from_doc target (rest_of T.rest parts.old) }
    ensures up_to { result ≤ TERMINATED }

    // the state, and the cost
    ensures depth { depth_of parts.new ≡ depth_of parts.old }
    ensures work { AllZip T.went (cursors_of parts.old) (cursors_of parts.new) }
{
    match parts {
        QueryParts::Nothing => {
            return TERMINATED;
        }
        QueryParts::One(cursor) => {
            return go_above(cursor, doc, target);
        }
        QueryParts::All(docs) => {
            return go_above(docs, doc, target);
        }
        QueryParts::Set(docs) => {
            return go_above(docs, doc, target);
        }
        QueryParts::Intersection(leader, others) => {
            leader.go_to(target);
            return meet(leader, others);
        }
        QueryParts::Either(first, other) => {
            let one = first.go_to(target);
            let two = other.go_to(target);
            return one.min(two);
        }
        QueryParts::Union(parts) => {
            return go_to_each(parts, target);
        }
        QueryParts::Without(first, other) => {
            first.go_to(target);
            return leave_out(first, other);
        }
    }
}

// Drops the documents of a cursor below a target, which is above the current document.
#[tactic(auto, using(ii_docset::proofs::CursorLemmas::doc_below))]
#[inline(always)]
fn go_above<T: DocSet>(cursor: &mut T, doc: DocId, target: DocId) -> DocId
    requires at { StandsAt doc (T.rest cursor.old) }
    requires above { doc < target }
    requires up_to { target ≤ TERMINATED }
    ensures at { StandsAt result (T.rest cursor.new) }
    ensures rest { T.rest cursor.new ≡ from_doc target (T.rest cursor.old) }
    ensures up_to { result ≤ TERMINATED }
    ensures work { T.went cursor.old cursor.new }
{
    if target == doc + 1 {
        return cursor.advance();
    }
    cursor.seek(target)
}

// Returns the index of the cursor with the least hint.
fn rarest<T: DocSet>(cursors: &Vec<QueryCursor<T>>) -> usize
    requires { 0 < length cursors.now.items }
    ensures inside { result < length cursors.now.items }
    ensures least { HasLeastHint result cursors.now.items }
    ensures sound { AllByRecursion (λ c. IsSound c.rest) cursors.now.items }
{
    let mut at = 0;
    let mut least = cursors[0].bound();
    for i in 0..cursors.len() {
        let bound = cursors[i].bound();
        if bound < least {
            at = i;
            least = bound;
        }
    }
    at
}

// Returns the sum of the hints, or `u32::MAX` if it is greater.
fn bound_over<T: DocSet>(parts: &Vec<QueryCursor<T>>) -> u32
    ensures sum { result ≡ sum_of_hints parts.now.items }
    ensures enough { length (union_of (rests parts.now.items)) ≤ result }
{
    let mut sum = 0_u32;
    for i in 0..parts.len() {
        sum = sum.saturating_add(parts[i].bound());
    }
    sum
}

// Returns the least of the current documents.
fn least_doc<T: DocSet>(parts: &Vec<QueryCursor<T>>) -> DocId
    ensures at { StandsAt result (union_of (rests parts.now.items)) }
{
    let mut least = TERMINATED;
    for i in 0..parts.len() {
        least = least.min(parts[i].current());
    }
    least
}

// Drops the documents below a target from each part of a union. Returns the least remaining document.
#[cycle(go_to)]
#[inline(always)]
fn go_to_each<T: DocSet>(parts: &mut Vec<QueryCursor<T>>, target: DocId) -> DocId
    requires { target ≤ TERMINATED }
    ensures at { StandsAt result (union_of (rests parts.new.items)) }
    ensures went { AllZip (WentTo T.went target) parts.old.items parts.new.items }
{
    let mut least = TERMINATED;
    for i in 0..parts.len() {
        let doc = parts[i].go_to(target);
        least = least.min(doc);
    }
    least
}

// Moves to the next document that all cursors have, which may be the current one.
#[cycle(go_to)]
fn meet<T: DocSet>(leader: &mut QueryCursor<T>, others: &mut Vec<QueryCursor<T>>) -> DocId
    ensures at { StandsAt result (intersection_of (rests (leader.new ∷ others.new.items))) }
    ensures rest { intersection_of (rests (leader.new ∷ others.new.items)) ≡ intersection_of (rests (leader.old ∷ others.old.items)) }
    ensures depth { depth_over (leader.new ∷ others.new.items) ≡ depth_over (leader.old ∷ others.old.items) }
    ensures work { AllZip T.went (cursors_under (leader.old ∷ others.old.items)) (cursors_under (leader.new ∷ others.new.items)) }
{
    let mut doc = leader.current();
    while doc < TERMINATED {
        let bound = seek_others(others, doc);
        if bound == doc {
            return doc;
        }
        doc = leader.go_to(bound);
    }
    doc
}

// Seeks the other cursors of an intersection to a document. Returns it if all of them have it, else a
// greater document; no document between is in all of them.
#[cycle(go_to)]
#[inline(always)]
fn seek_others<T: DocSet>(others: &mut Vec<QueryCursor<T>>, doc: DocId) -> DocId
    requires { doc < TERMINATED }
    ensures answer { SeekAnswer doc result (rests others.new.items) }
    ensures kept { AllZip (KeptFrom T.went doc) others.old.items others.new.items }
{
    for i in 0..others.len() {
        let bound = others[i].go_to(doc);
        if bound != doc {
            return bound;
        }
    }
    doc
}

// Moves to the next document that the other cursor doesn't have, which may be the current one.
#[cycle(go_to)]
fn leave_out<T: DocSet>(first: &mut QueryCursor<T>, other: &mut QueryCursor<T>) -> DocId
    ensures doc { result ≡ doc_at first.new.rest }
    ensures at { IsAtFirst first.new.rest (without first.new.rest other.new.rest) }
    ensures rest { without first.new.rest other.new.rest ≡ without first.old.rest other.old.rest }
    ensures up_to { result ≤ TERMINATED }
    ensures depth { (first.new.depth ≡ first.old.depth) × (other.new.depth ≡ other.old.depth) }
    ensures first_work { AllZip T.went first.old.cursors first.new.cursors }
    ensures other_work { AllZip T.went other.old.cursors other.new.cursors }
{
    let mut doc = first.current();
    while doc < TERMINATED {
        if other.go_to(doc) != doc {
            return doc;
        }
        doc = first.go_to(doc + 1);
    }
    doc
}

// Returns a cursor over the documents that at least one of two cursors has.
fn union_of_two<T: DocSet>(
    alloc: Global,
    first: QueryCursor<T>,
    other: QueryCursor<T>,
    hint: u32,
) -> Result<QueryCursor<T>, Fault>
    requires { length (union_of (rests (first ∷ other ∷ []))) ≤ hint }
    ensures rest { IfOk result (λ cursor. cursor.rest ≡ union_of (rests (first ∷ other ∷ []))) }
    ensures hint { IfOk result (λ cursor. cursor.hint ≡ hint) }
    ensures cursors { IfOk result (λ cursor. cursor.cursors ≡ cursors_under (first ∷ other ∷ [])) }
    ensures only { OnlyMemory result }
{
    let doc = first.current().min(other.current());
    let first = Box::new(alloc, first)?;
    let other = Box::new(alloc, other)?;
    Ok(QueryCursor {
        parts: QueryParts::Either(first, other),
        doc,
        hint,
    })
}

// Drops the first document of a union of two.
#[inline(always)]
fn pass_either<T: DocSet>(
    first: &mut QueryCursor<T>,
    other: &mut QueryCursor<T>,
    doc: DocId,
) -> DocId
    requires here { doc ≡ doc_at (either first.old.rest other.old.rest) }
    requires low { doc < TERMINATED }
    ensures at { StandsAt result (either first.new.rest other.new.rest) }
    ensures rest { either first.new.rest other.new.rest ≡ drop 1 (either first.old.rest other.old.rest) }
    ensures first_work { AllZip T.went first.old.cursors first.new.cursors }
    ensures other_work { AllZip T.went other.old.cursors other.new.cursors }
{
    let one = first.current();
    let two = other.current();
    let one = first.pass(one, doc);
    let two = other.pass(two, doc);
    one.min(two)
}

// Counts the documents of a union of two, and drops them.
fn count_either<T: DocSet>(first: &mut QueryCursor<T>, other: &mut QueryCursor<T>) -> u32
    ensures count { result ≡ length (either first.old.rest other.old.rest) }
    ensures first { first.new.rest ≡ [] }
    ensures other { other.new.rest ≡ [] }
    ensures first_work { AllZip T.went first.old.cursors first.new.cursors }
    ensures other_work { AllZip T.went other.old.cursors other.new.cursors }
{
    let mut count = 0;
    let mut one = first.current();
    let mut two = other.current();
    let mut doc = one.min(two);
    while doc < TERMINATED {
        one = first.pass(one, doc);
        two = other.pass(two, doc);
        doc = one.min(two);
        count += 1;
    }
    count
}

// Counts the documents of a union, and drops them.
fn count_union<T: DocSet>(parts: &mut Vec<QueryCursor<T>>) -> u32
    ensures count { result ≡ length (union_of (rests parts.old.items)) }
    ensures rest { union_of (rests parts.new.items) ≡ [] }
    ensures depth { depth_over parts.new.items ≡ depth_over parts.old.items }
    ensures work { AllZip T.went (cursors_under parts.old.items) (cursors_under parts.new.items) }
{
    let mut count = 0;
    let mut doc = least_doc(parts);
    while doc < TERMINATED {
        doc = go_to_each(parts, doc + 1);
        count += 1;
    }
    count
}

impl<T: DocSet> DocSet for QueryCursor<T> {
    ghost use Rattle.std.specs.Prelude.{◌≡◌};
    ghost use Rattle.std.specs.List.{AllZip};
    ghost use Rattle.ii_query.specs.WorkLaws.{all_went_on, none_went};

    ghost rest = { λ s. s.rest };

    ghost hints = { λ s n. n ≡ s.hint };

    // Each of its cursors advanced.
    ghost went = { λ a b. AllZip T.went a.cursors b.cursors };

    ghost went_nowhere = { λ s. none_went T.went T.went_nowhere s.cursors };

    ghost went_on = { λ a b c first second. all_went_on T.went T.went_on a.cursors b.cursors c.cursors first second };

    fn advance(&mut self) -> DocId {
        let doc = self.current();
        if doc >= TERMINATED {
            return doc;
        }
        if let QueryParts::Either(first, other) = &mut self.parts {
            let next = pass_either(first, other, doc);
            self.doc = next;
            return next;
        }
        if let QueryParts::Union(parts) = &mut self.parts {
            let next = go_to_each(parts, doc + 1);
            self.doc = next;
            return next;
        }
        self.go_on(doc, doc + 1)
    }

    fn doc(&self) -> DocId {
        self.current()
    }

    fn size_hint(&self) -> u32 {
        self.bound()
    }

    fn seek(&mut self, target: DocId) -> DocId {
        self.go_to(target)
    }

    fn count_including_deleted(&mut self) -> u32 {
        if let QueryParts::Either(first, other) = &mut self.parts {
            let count = count_either(first, other);
            self.doc = TERMINATED;
            return count;
        }
        if let QueryParts::Union(parts) = &mut self.parts {
            let count = count_union(parts);
            self.doc = TERMINATED;
            return count;
        }
        self.count_each()
    }
}
