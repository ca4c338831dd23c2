//! Goes over the runs of a list in their order.
ghost use Rattle.std.specs.Prelude.{◌≡◌, ◌<◌, ◌≤◌, ◌*◌, ◌/◌, ◌^◌, ℕ, false, get_or, length, true};
ghost use Rattle.ii_base.specs.declared.doc_id.TheConstants.{TERMINATED};
ghost use Rattle.ii_block_shares.specs.BlockShares.{IsFirstReaching, IsPlace, IsRunBound, MayReach, bound_at, share_bound};
ghost use Rattle.ii_block_shares.specs.declared.block_shares.BlockShare.{BlockShare};

use crate::block_shares::{BlockShare, BlockShares};
use ii_base::{DocId, TERMINATED};
use ii_bm25::{Bm25Weight, Score};
use std::marker::Model;

/// A score that no document of a run exceeds, and the document that ends the run and isn't one of it.
#[derive(Clone, Copy)]
pub struct RunBound {
    pub most: Score,
    pub end: DocId,
}

// A run, and a document from which on documents are looked at.
#[derive(Clone, Copy)]
struct Place {
    block: usize,
    doc: DocId,
}

/// Finds documents that may score enough, by the bounds of a list's runs.
///
/// Its model is the list of the runs.
#[derive(Drop)]
pub struct ShareReader<'a> {
    shares: &'a BlockShares,
    place: Place,
}

impl<'a> Model for ShareReader<'a> {
    ghost use Rattle.std.specs.Prelude.{List};
    ghost use Rattle.ii_block_shares.specs.BlockShares.{IsPlace};
    ghost use Rattle.ii_block_shares.specs.declared.block_shares.BlockShare.{BlockShare};

    ghost Value = { List BlockShare };

    ghost view = { λ s. s.shares.now };

    ghost invariant = { λ s. IsPlace s.shares.now s.place.block s.place.doc };
}

impl<'a> ShareReader<'a> {
    /// Creates a reader of the runs of a list.
    pub fn new(shares: &'a BlockShares) -> ShareReader<'a>
        ensures { result ≡ shares.now }
    {
        ShareReader {
            shares,
            place: Place { block: 0, doc: 0 },
        }
    }

    /// Returns the first document from `target` on that may score at least `least` by the bound of its run, or
    /// `TERMINATED`. The target must be at most `TERMINATED`. Ascending targets are found fastest.
    pub fn first_reaching(&mut self, weight: &Bm25Weight, target: DocId, least: Score) -> DocId
        requires { target ≤ TERMINATED }
        ensures same { self.new ≡ self.old }
        ensures first { IsFirstReaching self.old weight.now.weight least target result }
        ensures reaches { result < TERMINATED → MayReach weight.now.weight least (bound_at self.old result) }
        ensures up_to { result ≤ TERMINATED }
    {
        let mut from = Place {
            block: 0,
            doc: target,
        };
        if self.place.doc <= target {
            from = Place {
                block: self.place.block,
                doc: target,
            };
        }
        let place = place_reaching(self.shares.blocks(), from, weight, least);
        self.place = place;
        place.doc.min(TERMINATED)
    }

    /// Returns the greatest score that a document from `target` on may have, up to the end of the first run that ends after
    /// `target`; 0 and `TERMINATED` if no run does. The target must be below `TERMINATED`. Ascending targets are found fastest.
    pub fn bound_from(&mut self, weight: &Bm25Weight, target: DocId) -> RunBound
        requires { target < TERMINATED }
        ensures same { self.new ≡ self.old }
        ensures bound { IsRunBound self.old weight.now.weight target result }
    {
        let mut from = 0;
        if self.place.doc <= target {
            from = self.place.block;
        }
        let block = run_after(self.shares.blocks(), from, target);
        self.place = Place { block, doc: target };
        bound_of_run(self.shares.blocks(), block, weight, target)
    }
}

// Returns the first run from one on that ends after `target`.
fn run_after(blocks: &[BlockShare], from: usize, target: DocId) -> usize
    requires { IsPlace blocks.now from target }
    ensures place { IsPlace blocks.now result target }
    ensures ahead { (run : BlockShare) → result < length blocks.now → run ≡ get_or blocks.now result run → target < run.end }
{
    let mut block = from;
    while block < blocks.len() {
        if blocks[block].end > target {
            return block;
        }
        block += 1;
    }
    block
}

// Returns the bound of a run that ends after `target`.
fn bound_of_run(blocks: &[BlockShare], block: usize, weight: &Bm25Weight, target: DocId) -> RunBound
    requires low { target < TERMINATED }
    requires place { IsPlace blocks.now block target }
    requires ahead { (run : BlockShare) → block < length blocks.now → run ≡ get_or blocks.now block run → target < run.end }
    ensures { IsRunBound blocks.now weight.now.weight target result }
{
    if block >= blocks.len() {
        return RunBound {
            most: 0,
            end: TERMINATED,
        };
    }
    let run = blocks[block];
    RunBound {
        most: most_of_run(run, weight),
        end: run.end.min(TERMINATED),
    }
}

// Returns a score that no document of a run exceeds.
fn most_of_run(run: BlockShare, weight: &Bm25Weight) -> Score
    ensures value { result ≡ weight.now.weight * share_bound run.share / 2 ^ 12 }
    ensures bounds { (share : ℕ) → share ≤ share_bound run.share → weight.now.weight * share / 2 ^ 12 ≤ result }
{
    weight.score_of_share((u64::from(run.share) + 1) << 20)
}

// Returns the first document that may score at least `least`, and its run, from a place on.
fn place_reaching(blocks: &[BlockShare], from: Place, weight: &Bm25Weight, least: Score) -> Place
    requires { IsPlace blocks.now from.block from.doc }
    ensures place { IsPlace blocks.now result.block result.doc }
    ensures first { IsFirstReaching blocks.now weight.now.weight least from.doc result.doc }
    ensures reaches { result.doc < TERMINATED → MayReach weight.now.weight least (bound_at blocks.now result.doc) }
{
    let mut block = from.block;
    let mut doc = from.doc;
    while block < blocks.len() {
        let run = blocks[block];
        if may_reach(run, weight, doc, least) {
            return Place { block, doc };
        }
        doc = doc.max(run.end);
        block += 1;
    }
    Place {
        block,
        doc: doc.max(TERMINATED),
    }
}

// Returns whether a run has documents from `doc` on that may score at least `least`.
fn may_reach(run: BlockShare, weight: &Bm25Weight, doc: DocId, least: Score) -> bool
    ensures reaches { result ≡ true → (doc < run.end) × (least ≤ weight.now.weight * share_bound run.share / 2 ^ 12) }
    ensures passes { result ≡ false → doc < run.end → (share : ℕ) → share ≤ share_bound run.share → weight.now.weight * share / 2 ^ 12 < least }
{
    doc < run.end && weight.score_of_share((u64::from(run.share) + 1) << 20) >= least
}
