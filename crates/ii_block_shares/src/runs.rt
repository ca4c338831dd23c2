//! Runs of the documents of a cursor.
ghost use Rattle.std.specs.Prelude.{◌≡◌, ◌+◌, ◌*◌, ◌<◌, ◌≤◌, ◌^◌, ◌∷◌, ℕ, List};
ghost use Rattle.ii_base.specs.Entries.{Entry};
ghost use Rattle.ii_docset.specs.Cursor.{IsCurrent};
ghost use Rattle.ii_block_shares.specs.BlockShares.{TakesRun, share_bound, share_byte, share_of};

use crate::block_shares::BlockShare;
use crate::norm_ids::norm_id;
use ii_base::TERMINATED;
use ii_bm25::Bm25Weight;
use ii_docset::{DocSet, Postings};
use ii_fieldnorm::FieldNormReader;
use ii_reader::SegmentPostings;

// A run has at most so many documents, as a block of postings has.
const RUN_LEN: u32 = 128;

// Goes over the next run of documents, and returns it with the greatest share of a document.
pub(crate) fn take_run(
    cursor: &mut SegmentPostings,
    norms: &Option<FieldNormReader>,
    weight: &Bm25Weight,
) -> BlockShare
    requires { IsCurrent cursor.old.rest }
    ensures { TakesRun weight.now norms.now cursor.old.rest cursor.new.rest result }
{
    let mut greatest = share_here(cursor, norms, weight);
    let mut end = cursor.doc() + 1;
    let mut doc = cursor.advance();
    let mut left = RUN_LEN - 1;
    while left > 0 && doc < TERMINATED {
        greatest = greatest.max(share_here(cursor, norms, weight));
        end = doc + 1;
        doc = cursor.advance();
        left -= 1;
    }
    BlockShare {
        end,
        share: rounded_up(greatest),
    }
}

// Returns the share of the current document.
fn share_here(cursor: &SegmentPostings, norms: &Option<FieldNormReader>, weight: &Bm25Weight) -> u64
    requires { IsCurrent cursor.now.rest }
    ensures value { (e : Entry) (es : List Entry) → cursor.now.rest ≡ e ∷ es → result ≡ share_of weight.now norms.now e }
    ensures below { result < 2 ^ 28 }
{
    weight.share(norm_id(norms, cursor.doc()), cursor.term_freq())
}

// Returns the byte of a share, rounded up.
fn rounded_up(share: u64) -> u8
    requires { share < 2 ^ 28 }
    ensures value { result ≡ share_byte share }
    ensures covers { share ≤ share_bound result }
{
    (share.max(1) - 1 >> 20) as u8
}
