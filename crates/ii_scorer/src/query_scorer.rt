//! Scorers that are combined from others.
ghost use Rattle.std.specs.Prelude.{◌≡◌, ◌<◌, ◌≤◌, ◌-◌, ◌++◌, ◌⊎◌, ℕ, IfOk, Option, None, Some, [], false, get_or, if◌then◌else◌, length, min, nat_lt};
ghost use Rattle.std.specs.List.{AllByRecursion, AllZip};
ghost use Rattle.ii_io.specs.Faults.{OnlyMemory};
ghost use Rattle.ii_base.specs.declared.doc_id.TheConstants.{TERMINATED};
ghost use Rattle.ii_bm25.specs.declared.bm25.TheConstants.{SCORE_ONE};
ghost use Rattle.ii_scorer.specs.BlockLists.{ReadsOnly};
ghost use Rattle.ii_scorer.specs.Combinations.{any_of, each_of, either, unless};
ghost use Rattle.ii_scorer.specs.QueryScorers.{PartsAreBounded, bound_by_parts, depth_of, lists_by_parts, score_by_parts};
ghost use Rattle.ii_scorer.specs.Scorers.{AreBounded, AreListsOf, IsBoundUntil, IsBounded, IsNext, IsUpTo, KeepsFrom, MayScore, bound_over, doc_bound, if_at_least, lists_of, score_of, scores_at, sums_after};

use crate::combination::{both, either, if_at_least};
use crate::scorer::{ScoreBound, Scorer};
use ii_base::{DocId, Fault, TERMINATED};
use ii_bm25::{SCORE_ONE, Score};
use std::alloc::Global;
use std::marker::Model;

/// Gives the scores of the documents that a query matches. Its form is chosen at run time: no documents, those of one
/// scorer, all below a number, those that each of some scorers matches, or at least one of them, or one and not another.
#[cycle(query_scorer)]
#[derive(Drop)]
pub struct QueryScorer<T: Scorer> {
    parts: ScorerParts<T>,
    // no document scores more
    most: Score,
    // whether it pays to ask for bounds of runs; if not, there are no lists
    has_runs: bool,
}

#[cycle(query_scorer)]
#[derive(Drop)]
enum ScorerParts<T: Scorer> {
    Nothing,
    One(T),
    All(DocId),
    Each(Vec<QueryScorer<T>>),
    // in ascending order of their greatest scores, with the sums of these: of the first, of the first two, and so on
    Any(Vec<QueryScorer<T>>, Vec<Score>),
    Without(Box<QueryScorer<T>>, Box<QueryScorer<T>>),
}

impl<T: Scorer> Model for QueryScorer<T> {
    ghost use Rattle.std.specs.Prelude.{◌≡◌, [], false};
    ghost use Rattle.ii_base.specs.declared.doc_id.TheConstants.{TERMINATED};
    ghost use Rattle.ii_scorer.specs.Scorers.{ScorerState, bounds_below, scores_below};

    ghost Value = { ScorerState };

    ghost use Rattle.ii_scorer.specs.QueryScorers.{PartsAreBounded, bound_by_parts, depth_of, lists_by_parts, score_by_parts};

    ghost view = { λ s. record { scores = scores_below TERMINATED (score_by_parts T.state s.parts); most = s.most; depth = depth_of s.parts; bounds = bounds_below TERMINATED (bound_by_parts T.state s.most s.parts); lists = lists_by_parts T.state s.parts } };

    ghost invariant = { λ s. PartsAreBounded T.state s.most s.parts × (s.has_runs ≡ false → lists_by_parts T.state s.parts ≡ []) };

    ghost size = { λ s. s.depth };

    ghost use Rattle.ii_scorer.specs.ScorerDepths.{part_depth};
    ghost use Rattle.std.proofs.Common.{arith};

    ghost size_decreases = { λ s h. Prim.grind (arith, part_depth) };
}

impl<T: Scorer> QueryScorer<T> {
    /// Returns a scorer of no documents.
    pub fn nothing() -> QueryScorer<T>
        ensures scores { (doc : ℕ) → score_of result doc ≡ None }
        ensures bounds { (doc : ℕ) → doc < TERMINATED → doc_bound result doc ≡ 0 }
        ensures lists { result.lists ≡ [] }
    {
        QueryScorer {
            parts: ScorerParts::Nothing,
            most: 0,
            has_runs: false,
        }
    }

    /// Returns a scorer of the documents of one scorer.
    pub fn one(scorer: T) -> QueryScorer<T>
        ensures scores { (doc : ℕ) → score_of result doc ≡ score_of (T.state scorer) doc }
        ensures bounds { (doc : ℕ) → doc < TERMINATED → doc_bound result doc ≡ doc_bound (T.state scorer) doc }
        ensures lists { result.lists ≡ (T.state scorer).lists }
    {
        let most = scorer.max_score();
        let has_runs = scorer.has_runs();
        QueryScorer {
            parts: ScorerParts::One(scorer),
            most,
            has_runs,
        }
    }

    /// Returns a scorer of all documents below `limit`, each of which scores 1.0. No document is `TERMINATED` or above.
    pub fn all(limit: DocId) -> QueryScorer<T>
        ensures scores { (doc : ℕ) → score_of result doc ≡ (if nat_lt doc (min limit TERMINATED) then Some SCORE_ONE else None) }
        ensures bounds { (doc : ℕ) → doc < TERMINATED → doc_bound result doc ≡ SCORE_ONE }
        ensures lists { result.lists ≡ [] }
    {
        QueryScorer {
            parts: ScorerParts::All(limit),
            most: SCORE_ONE,
            has_runs: false,
        }
    }

    /// Returns a scorer of the documents that each of some scorers matches, with the sum of their scores; of none
    /// without scorers.
    pub fn each(scorers: Vec<QueryScorer<T>>) -> QueryScorer<T>
        ensures scores { (doc : ℕ) → score_of result doc ≡ each_of (scores_at scorers.items doc) }
        ensures bounds { (doc : ℕ) → doc < TERMINATED → doc_bound result doc ≡ bound_over scorers.items doc }
        ensures lists { result.lists ≡ lists_of scorers.items }
    {
        let most = sum_of_most(&scorers);
        let has_runs = have_runs(&scorers);
        QueryScorer {
            parts: ScorerParts::Each(scorers),
            most,
            has_runs,
        }
    }

    /// Returns a scorer of the documents that at least one of some scorers matches, with the sum of the scores of those
    /// that match. Fails only with `OutOfMemory`.
    pub fn any(alloc: Global, scorers: Vec<QueryScorer<T>>) -> Result<QueryScorer<T>, Fault>
        ensures scores { IfOk result (λ scorer. (doc : ℕ) → score_of scorer doc ≡ any_of (scores_at scorers.items doc)) }
        ensures bounds { IfOk result (λ scorer. (doc : ℕ) → doc < TERMINATED → doc_bound scorer doc ≡ bound_over scorers.items doc) }
        ensures lists { IfOk result (λ scorer. AreListsOf scorers.items scorer.lists) }
        ensures only { OnlyMemory result }
    {
        let mut parts = scorers;
        parts.sort_unstable_by_key(|part| part.bound());
        let sums = match sums_of_most(alloc, &parts) {
            Ok(sums) => sums,
            Err(fault) => return Err(fault),
        };
        let most = sum_of_most(&parts);
        let has_runs = have_runs(&parts);
        Ok(QueryScorer {
            parts: ScorerParts::Any(parts, sums),
            most,
            has_runs,
        })
    }

    /// Returns a scorer of the documents that `first` matches and `other` doesn't, with the scores of `first`. Fails only
    /// with `OutOfMemory`.
    pub fn without(
        alloc: Global,
        first: QueryScorer<T>,
        other: QueryScorer<T>,
    ) -> Result<QueryScorer<T>, Fault>
        ensures scores { IfOk result (λ scorer. (doc : ℕ) → score_of scorer doc ≡ unless (score_of first doc) (score_of other doc)) }
        ensures bounds { IfOk result (λ scorer. (doc : ℕ) → doc < TERMINATED → doc_bound scorer doc ≡ doc_bound first doc) }
        ensures lists { IfOk result (λ scorer. scorer.lists ≡ first.lists ++ other.lists) }
        ensures only { OnlyMemory result }
    {
        let most = first.bound();
        let has_runs = first.has_runs() | other.has_runs();
        let first = Box::new(alloc, first)?;
        let other = Box::new(alloc, other)?;
        Ok(QueryScorer {
            parts: ScorerParts::Without(first, other),
            most,
            has_runs,
        })
    }

    // Returns a score that no document exceeds.
    fn bound(&self) -> Score
        ensures most { result ≡ self.now.most }
        ensures bounded { IsBounded self.now }
    {
        self.most
    }

    // Returns a document from `target` on, before which none scores `least`.
    #[cycle(go_to)]
    fn go_to(&mut self, target: DocId, least: Score) -> DocId
        requires { target ≤ TERMINATED }
        ensures next { IsNext target least (score_of self.old) result }
        ensures kept { KeepsFrom target self.old self.new }
        ensures work { ReadsOnly (λ from. from ≡ target) self.old.lists self.new.lists }
    {
        next_of(&mut self.parts, self.most, target, least)
    }

    // Returns a score that no document from `target` on exceeds, up to an end.
    #[cycle(bound_until)]
    fn bound_until(&mut self, target: DocId) -> ScoreBound
        requires { target < TERMINATED }
        ensures bound { IsBoundUntil target (score_of self.old) result }
        ensures kept { KeepsFrom target self.old self.new }
        ensures within { (doc : ℕ) → target ≤ doc → doc < result.end → result.most ≤ doc_bound self.old doc }
        ensures work { ReadsOnly (λ _. ⊥) self.old.lists self.new.lists }
    {
        bound_by(&mut self.parts, self.most, target)
    }

    // Returns what a document scores, if that is at least `least`.
    #[cycle(score)]
    fn score(&mut self, doc: DocId, least: Score) -> Option<Score>
        requires { doc < TERMINATED }
        ensures score { result ≡ if_at_least least (score_of self.old doc) }
        ensures kept { KeepsFrom doc self.old self.new }
        ensures work { ReadsOnly (λ from. from ≡ doc) self.old.lists self.new.lists }
    {
        score_by(&mut self.parts, self.most, doc, least)
    }
}

impl<T: Scorer> Scorer for QueryScorer<T> {
    ghost state = { λ s. s };

    fn max_score(&self) -> Score {
        self.bound()
    }

    fn seek_with_score(&mut self, target: DocId, least: Score) -> DocId {
        self.go_to(target, least)
    }

    fn skip_to_score(&mut self, target: DocId, least: Score) -> DocId {
        skip_to(&mut self.parts, self.most, self.has_runs, target, least)
    }

    fn max_score_until(&mut self, target: DocId) -> ScoreBound {
        self.bound_until(target)
    }

    fn has_runs(&self) -> bool {
        self.has_runs
    }

    fn score_at(&mut self, doc: DocId, least: Score) -> Option<Score> {
        self.score(doc, least)
    }
}

// Returns the sum of the greatest scores of some scorers.
fn sum_of_most<T: Scorer>(parts: &Vec<QueryScorer<T>>) -> Score
    ensures { AreBounded result parts.now.items }
{
    let mut sum: Score = 0;
    let mut place = parts.len();
    while place > 0 {
        place -= 1;
        sum = parts[place].bound().saturating_add(sum);
    }
    sum
}

// Returns whether it pays to ask one of some scorers for bounds of runs.
fn have_runs<T: Scorer>(parts: &Vec<QueryScorer<T>>) -> bool
    ensures { result ≡ false → lists_of parts.now.items ≡ [] }
{
    for place in 0..parts.len() {
        if parts[place].has_runs() {
            return true;
        }
    }
    false
}

// Returns the sums of the greatest scores of the first of some scorers, of the first two, and so on.
fn sums_of_most<T: Scorer>(alloc: Global, parts: &Vec<QueryScorer<T>>) -> Result<Vec<Score>, Fault>
    ensures sums { IfOk result (λ sums. sums.items ≡ sums_after 0 parts.now.items) }
    ensures only { OnlyMemory result }
{
    let mut sums = Vec::new(alloc);
    let mut sum: Score = 0;
    for place in 0..parts.len() {
        sum = sum.saturating_add(parts[place].bound());
        sums.push(sum)?;
    }
    Ok(sums)
}

// Returns a document from `target` on, before which none scores `least` by parts of a scorer, by which none scores more
// than `most`.
#[cycle(go_to)]
fn next_of<T: Scorer>(parts: &mut ScorerParts<T>, most: Score, target: DocId, least: Score) -> DocId
    requires up_to { target ≤ TERMINATED }
    requires bounded { PartsAreBounded T.state most parts.old }
    ensures next { IsNext target least (score_by_parts T.state parts.old) result }
    ensures alike { (doc : ℕ) → target ≤ doc → score_by_parts T.state parts.new doc ≡ score_by_parts T.state parts.old doc }
    ensures depth { depth_of parts.new ≡ depth_of parts.old }
    ensures bounded { PartsAreBounded T.state most parts.new }
    ensures bounds { bound_by_parts T.state most parts.new ≡ bound_by_parts T.state most parts.old }
    ensures work { ReadsOnly (λ from. from ≡ target) (lists_by_parts T.state parts.old) (lists_by_parts T.state parts.new) }
{
    if most < least {
        return TERMINATED;
    }
    match parts {
        ScorerParts::Nothing => TERMINATED,
        ScorerParts::One(scorer) => scorer.seek_with_score(target, least),
        ScorerParts::All(limit) => next_of_all(*limit, target),
        ScorerParts::Each(parts) => meet(parts, target),
        ScorerParts::Any(parts, sums) => next_of_any(parts, sums, target, least),
        ScorerParts::Without(first, _) => first.go_to(target, least),
    }
}

// Returns such a document as `next_of` does. A scorer that isn't made of others may pass those before it.
fn skip_to<T: Scorer>(
    parts: &mut ScorerParts<T>,
    most: Score,
    has_runs: bool,
    target: DocId,
    least: Score,
) -> DocId
    requires up_to { target ≤ TERMINATED }
    requires bounded { PartsAreBounded T.state most parts.old }
    requires runs { has_runs ≡ false → lists_by_parts T.state parts.old ≡ [] }
    ensures next { IsNext target least (score_by_parts T.state parts.old) result }
    ensures alike { (doc : ℕ) → result ≤ doc → score_by_parts T.state parts.new doc ≡ score_by_parts T.state parts.old doc }
    ensures depth { depth_of parts.new ≡ depth_of parts.old }
    ensures bounded { PartsAreBounded T.state most parts.new }
    ensures bounds { bound_by_parts T.state most parts.new ≡ bound_by_parts T.state most parts.old }
    ensures reached { result < TERMINATED → (lists_by_parts T.state parts.old ≡ []) ⊎ (least ≤ bound_by_parts T.state most parts.old result) }
    ensures work { ReadsOnly (MayScore target least result (bound_by_parts T.state most parts.old)) (lists_by_parts T.state parts.old) (lists_by_parts T.state parts.new) }
{
    let ScorerParts::One(scorer) = parts else {
        return skip_runs(parts, most, has_runs, target, least);
    };
    if least > most {
        return TERMINATED;
    }
    scorer.skip_to_score(target, least)
}

// Returns such a document as `next_of` does. If it pays, passes runs of documents that don't reach `least` by their bounds.
fn skip_runs<T: Scorer>(
    parts: &mut ScorerParts<T>,
    most: Score,
    has_runs: bool,
    target: DocId,
    least: Score,
) -> DocId
    requires up_to { target ≤ TERMINATED }
    requires bounded { PartsAreBounded T.state most parts.old }
    requires runs { has_runs ≡ false → lists_by_parts T.state parts.old ≡ [] }
    ensures next { IsNext target least (score_by_parts T.state parts.old) result }
    ensures alike { (doc : ℕ) → result ≤ doc → score_by_parts T.state parts.new doc ≡ score_by_parts T.state parts.old doc }
    ensures depth { depth_of parts.new ≡ depth_of parts.old }
    ensures bounded { PartsAreBounded T.state most parts.new }
    ensures bounds { bound_by_parts T.state most parts.new ≡ bound_by_parts T.state most parts.old }
    ensures reached { result < TERMINATED → (lists_by_parts T.state parts.old ≡ []) ⊎ (least ≤ bound_by_parts T.state most parts.old result) }
    ensures work { ReadsOnly (MayScore target least result (bound_by_parts T.state most parts.old)) (lists_by_parts T.state parts.old) (lists_by_parts T.state parts.new) }
{
    if !has_runs {
        return next_of(parts, most, target, least);
    }
    let mut doc = target;
    while doc < TERMINATED {
        let bound = bound_by(parts, most, doc);
        let mut next = bound.end;
        if bound.most >= least {
            next = next_of(parts, most, doc, least);
            if next < bound.end {
                return next;
            }
        }
        doc = next;
    }
    doc
}

// Returns a score that no document from `target` on exceeds by parts of a scorer, up to an end.
#[cycle(bound_until)]
fn bound_by<T: Scorer>(parts: &mut ScorerParts<T>, most: Score, target: DocId) -> ScoreBound
    requires low { target < TERMINATED }
    requires bounded { PartsAreBounded T.state most parts.old }
    ensures bound { IsBoundUntil target (score_by_parts T.state parts.old) result }
    ensures alike { (doc : ℕ) → target ≤ doc → score_by_parts T.state parts.new doc ≡ score_by_parts T.state parts.old doc }
    ensures depth { depth_of parts.new ≡ depth_of parts.old }
    ensures bounded { PartsAreBounded T.state most parts.new }
    ensures bounds { bound_by_parts T.state most parts.new ≡ bound_by_parts T.state most parts.old }
    ensures within { (doc : ℕ) → target ≤ doc → doc < result.end → result.most ≤ bound_by_parts T.state most parts.old doc }
    ensures work { ReadsOnly (λ _. ⊥) (lists_by_parts T.state parts.old) (lists_by_parts T.state parts.new) }
{
    match parts {
        ScorerParts::One(scorer) => scorer.max_score_until(target),
        ScorerParts::Each(parts) => bound_of_all(parts, target),
        ScorerParts::Any(parts, _) => bound_of_all(parts, target),
        ScorerParts::Without(first, _) => first.bound_until(target),
        ScorerParts::Nothing | ScorerParts::All(_) => ScoreBound {
            most,
            end: TERMINATED,
        },
    }
}

// Returns the sum of the bounds of some scorers from `target` on, up to the least of their ends.
#[cycle(bound_until)]
fn bound_of_all<T: Scorer>(parts: &mut Vec<QueryScorer<T>>, target: DocId) -> ScoreBound
    requires { target < TERMINATED }
    ensures any { IsBoundUntil target (λ doc. any_of (scores_at parts.old.items doc)) result }
    ensures each { IsBoundUntil target (λ doc. each_of (scores_at parts.old.items doc)) result }
    ensures kept { AllZip (KeepsFrom target) parts.old.items parts.new.items }
    ensures within { (doc : ℕ) → target ≤ doc → doc < result.end → result.most ≤ bound_over parts.old.items doc }
    ensures work { ReadsOnly (λ _. ⊥) (lists_of parts.old.items) (lists_of parts.new.items) }
{
    let mut most: Score = 0;
    let mut end = TERMINATED;
    for place in 0..parts.len() {
        let bound = parts[place].bound_until(target);
        most = most.saturating_add(bound.most);
        end = end.min(bound.end);
    }
    ScoreBound { most, end }
}

// Returns the first document from `target` on that is below `limit`.
fn next_of_all(limit: DocId, target: DocId) -> DocId
    requires { target ≤ TERMINATED }
    ensures { IsNext target 0 (λ doc. if nat_lt doc (min limit TERMINATED) then Some SCORE_ONE else None) result }
{
    if target < limit { target } else { TERMINATED }
}

// Moves scorers to a document, until one doesn't match it. Returns it if all may match, else a greater document; no
// document between matches all.
#[cycle(go_to)]
fn meet<T: Scorer>(parts: &mut Vec<QueryScorer<T>>, target: DocId) -> DocId
    requires { target ≤ TERMINATED }
    ensures next { IsNext target 0 (λ doc. each_of (scores_at parts.old.items doc)) result }
    ensures kept { AllZip (KeepsFrom target) parts.old.items parts.new.items }
    ensures work { ReadsOnly (λ from. from ≡ target) (lists_of parts.old.items) (lists_of parts.new.items) }
{
    for place in 0..parts.len() {
        let next = parts[place].go_to(target, 0);
        if next > target {
            return next;
        }
        if next == TERMINATED {
            return next;
        }
    }
    target
}

// Returns the first document from `target` on that one of those scorers may match without which no document scores
// `least`: the first ones, of the least scores, don't reach it together.
#[cycle(go_to)]
fn next_of_any<T: Scorer>(
    parts: &mut Vec<QueryScorer<T>>,
    sums: &Vec<Score>,
    target: DocId,
    least: Score,
) -> DocId
    requires up_to { target ≤ TERMINATED }
    requires bounded { AllByRecursion IsBounded parts.old.items }
    requires sums { sums.now.items ≡ sums_after 0 parts.old.items }
    ensures next { IsNext target least (λ doc. any_of (scores_at parts.old.items doc)) result }
    ensures kept { AllZip (KeepsFrom target) parts.old.items parts.new.items }
    ensures work { ReadsOnly (λ from. from ≡ target) (lists_of parts.old.items) (lists_of parts.new.items) }
{
    let mut next = TERMINATED;
    for place in num_below(sums, least)..parts.len() {
        let doc = parts[place].go_to(target, 0);
        next = next.min(doc);
    }
    next
}

// Returns how many of the first sums are below a number.
fn num_below(sums: &Vec<Score>, least: Score) -> usize
    ensures within { result ≤ length sums.now.items }
    ensures below { 0 < result → get_or sums.now.items (result - 1) 0 < least }
{
    let mut count = 0;
    while count < sums.len() && sums[count] < least {
        count += 1;
    }
    count
}

// Returns what a document scores by parts of a scorer, by which none scores more than `most`, if that is at least `least`.
#[cycle(score)]
fn score_by<T: Scorer>(
    parts: &mut ScorerParts<T>,
    most: Score,
    doc: DocId,
    least: Score,
) -> Option<Score>
    requires low { doc < TERMINATED }
    requires bounded { PartsAreBounded T.state most parts.old }
    ensures score { result ≡ if_at_least least (score_by_parts T.state parts.old doc) }
    ensures alike { (d : ℕ) → doc ≤ d → score_by_parts T.state parts.new d ≡ score_by_parts T.state parts.old d }
    ensures depth { depth_of parts.new ≡ depth_of parts.old }
    ensures bounded { PartsAreBounded T.state most parts.new }
    ensures bounds { bound_by_parts T.state most parts.new ≡ bound_by_parts T.state most parts.old }
    ensures work { ReadsOnly (λ from. from ≡ doc) (lists_by_parts T.state parts.old) (lists_by_parts T.state parts.new) }
{
    match parts {
        ScorerParts::Nothing => None,
        ScorerParts::One(scorer) => scorer.score_at(doc, least),
        ScorerParts::All(limit) => if_at_least(least, score_of_all(*limit, doc)),
        ScorerParts::Each(parts) => if_at_least(least, score_of_each(parts, doc)),
        ScorerParts::Any(parts, sums) => score_of_any(parts, sums, doc, least),
        ScorerParts::Without(first, other) => score_without(first, other, doc, least),
    }
}

// Returns what a document scores, if it is below `limit`.
fn score_of_all(limit: DocId, doc: DocId) -> Option<Score>
    ensures { result ≡ (if nat_lt doc (min limit TERMINATED) then Some SCORE_ONE else None) }
{
    if doc < limit.min(TERMINATED) {
        return Some(SCORE_ONE);
    }
    None
}

// Returns what a document scores, if each of some scorers matches it.
#[cycle(score)]
fn score_of_each<T: Scorer>(parts: &mut Vec<QueryScorer<T>>, doc: DocId) -> Option<Score>
    requires { doc < TERMINATED }
    ensures score { result ≡ each_of (scores_at parts.old.items doc) }
    ensures kept { AllZip (KeepsFrom doc) parts.old.items parts.new.items }
    ensures work { ReadsOnly (λ from. from ≡ doc) (lists_of parts.old.items) (lists_of parts.new.items) }
{
    if parts.is_empty() {
        return None;
    }
    let mut sum = parts[0].score(doc, 0);
    for place in 1..parts.len() {
        if sum.is_none() {
            return None;
        }
        let score = parts[place].score(doc, 0);
        sum = both(sum, score);
    }
    sum
}

// Returns what a document scores by some scorers, of which one has to match it, if that is at least `least`. Those of
// the greatest scores are asked first, and no more once the others don't reach it together.
#[cycle(score)]
fn score_of_any<T: Scorer>(
    parts: &mut Vec<QueryScorer<T>>,
    sums: &Vec<Score>,
    doc: DocId,
    least: Score,
) -> Option<Score>
    requires low { doc < TERMINATED }
    requires bounded { AllByRecursion IsBounded parts.old.items }
    requires sums { sums.now.items ≡ sums_after 0 parts.old.items }
    ensures score { result ≡ if_at_least least (any_of (scores_at parts.old.items doc)) }
    ensures kept { AllZip (KeepsFrom doc) parts.old.items parts.new.items }
    ensures work { ReadsOnly (λ from. from ≡ doc) (lists_of parts.old.items) (lists_of parts.new.items) }
{
    let mut sum = None;
    let mut place = parts.len();
    while place > 0 {
        place -= 1;
        if most_with(sum, sums[place]) < least {
            return None;
        }
        let score = parts[place].score(doc, 0);
        sum = either(score, sum);
    }
    if_at_least(least, sum)
}

// Returns the greatest score that a document may have by a score and parts that add at most so much.
fn most_with(sum: Option<Score>, more: Score) -> Score
    ensures { (score : Option ℕ) → IsUpTo more score → IsUpTo result (either score sum) }
{
    match sum {
        Some(sum) => more.saturating_add(sum),
        None => more,
    }
}

// Returns what a document scores by `first`, if that is at least `least`, unless `other` matches it.
#[cycle(score)]
fn score_without<T: Scorer>(
    first: &mut Box<QueryScorer<T>>,
    other: &mut Box<QueryScorer<T>>,
    doc: DocId,
    least: Score,
) -> Option<Score>
    requires { doc < TERMINATED }
    ensures score { result ≡ if_at_least least (unless (score_of first.old.value doc) (score_of other.old.value doc)) }
    ensures first_kept { KeepsFrom doc first.old.value first.new.value }
    ensures other_kept { KeepsFrom doc other.old.value other.new.value }
    ensures work { ReadsOnly (λ from. from ≡ doc) (first.old.value.lists ++ other.old.value.lists) (first.new.value.lists ++ other.new.value.lists) }
{
    let score = first.score(doc, least);
    if score.is_none() {
        return None;
    }
    if other.score(doc, 0).is_some() {
        return None;
    }
    score
}
