//! The greatest share of a term's score in each run of its list.
ghost use Rattle.std.specs.Prelude.{◌≡◌, IfOk, List};
ghost use Rattle.ii_io.specs.Faults.{OnlyMemory};
ghost use Rattle.ii_block_shares.specs.BlockShares.{AreBounds, EndWithDocs, last_end, runs_of, share_of};

use crate::runs::take_run;
use ii_base::{DocId, Fault, TERMINATED};
use ii_bm25::Bm25Weight;
use ii_docset::DocSet;
use ii_fieldnorm::FieldNormReader;
use ii_reader::SegmentPostings;
use std::alloc::Global;
use std::marker::Model;

/// A run of documents of a list, from the end of the run before it on.
#[derive(Clone, Copy)]
pub struct BlockShare {
    /// No document of the run is this, or greater.
    pub end: DocId,
    /// The greatest share of a document, in units of 2^-8, rounded up, less one.
    pub share: u8,
}

/// A bound of the shares of a term's score for each run of at most 128 documents of its list, in their order.
///
/// Its model is the list of the runs.
#[derive(Drop)]
pub struct BlockShares {
    blocks: Vec<BlockShare>,
    // the greatest of their ends
    end: DocId,
}

impl Model for BlockShares {
    ghost use Rattle.std.specs.Prelude.{◌≡◌, List};
    ghost use Rattle.ii_block_shares.specs.BlockShares.{last_end};
    ghost use Rattle.ii_block_shares.specs.declared.block_shares.BlockShare.{BlockShare};

    ghost Value = { List BlockShare };

    ghost view = { λ s. s.blocks.items };

    ghost invariant = { λ s. s.end ≡ last_end s.blocks.items };
}

impl BlockShares {
    /// Returns bounds for the remaining documents of a cursor, by their counts, the norms of their field and the length
    /// parts of a weight. Each run has 128 of them, the last one what is left, and its byte is that of their greatest
    /// share. The cursor is at its end afterwards. Fails only with `OutOfMemory`.
    pub fn of_postings(
        alloc: Global,
        cursor: &mut SegmentPostings,
        norms: &Option<FieldNormReader>,
        weight: &Bm25Weight,
    ) -> Result<BlockShares, Fault>
        ensures runs { IfOk result (λ shares. shares ≡ runs_of (share_of weight.now norms.now) cursor.old.rest) }
        ensures bounds { IfOk result (λ shares. AreBounds weight.now norms.now shares cursor.old.rest) }
        ensures ends { IfOk result (λ shares. EndWithDocs shares cursor.old.rest) }
        ensures only { OnlyMemory result }
    {
        let mut blocks = Vec::new(alloc);
        let mut end: DocId = 0;
        let mut doc = cursor.doc();
        while doc < TERMINATED {
            let block = take_run(cursor, norms, weight);
            blocks.push(block)?;
            end = end.max(block.end);
            doc = cursor.doc();
        }
        Ok(BlockShares { blocks, end })
    }

    /// Returns the document after the last one of all runs, 0 if there are none.
    pub fn end(&self) -> DocId
        ensures { result ≡ last_end self.now }
    {
        self.end
    }

    // Returns the runs.
    pub(crate) fn blocks(&self) -> &[BlockShare]
        ensures { result.now ≡ self.now }
    {
        self.blocks.as_slice()
    }
}
