ghost use Rattle.std.specs.Prelude.{◌≡◌, ◌<◌, length, Some, None, IfOk, IfErr, slice_get};
ghost use Rattle.ii_io.specs.Faults.{OnlyMemory};
ghost use Rattle.ii_termstore.specs.TermStore.{term_store};

mod block;
pub mod block_meta;
mod gathered_blocks;
mod given_terms;
mod packing;
pub mod store_view;
pub mod store_writer;

use crate::TermOrdinal;
use crate::term_info::TermInfo;
pub use block_meta::TermInfoBlockMeta;
use bytes::Bytes;
use ii_io::{Fault, Part};
use std::marker::Model;
pub use store_view::TermInfoStoreView;
pub use store_writer::TermInfoStoreWriter;

/// The number of terms of a block; the last one may have fewer.
pub const BLOCK_LEN: usize = 256;

/// A list of term infos over bytes that were validated completely. The model is the list.
pub struct TermInfoStore {
    bytes: Bytes,
}

// A drop has to be a call.
impl Drop for TermInfoStore {
    fn drop(self) {
        let TermInfoStore { bytes: _ } = self;
    }
}

impl Model for TermInfoStore {
    ghost use Rattle.std.specs.Prelude.{List, [], IsSome, unwrap_or};
    ghost use Rattle.ii_termstore.specs.declared.term_info.TermInfo.{TermInfo};
    ghost use Rattle.ii_termstore.specs.TermStore.{term_store};

    ghost Value = { List TermInfo };

    ghost view = { λ store. unwrap_or (term_store store.bytes) [] };

    ghost invariant = { λ store. IsSome (term_store store.bytes) };
}

impl TermInfoStore {
    /// Opens a store. Never allocates.
    ///
    /// The bytes are the length of the metas and the number of terms, 8 bytes each and little-endian. A
    /// `TermInfoBlockMeta` for each block of 256 terms follows, then the bits of the blocks.
    ///
    /// Returns `Damaged(TermStore)` if:
    /// * metas or bits are missing;
    /// * a width is above 56, or above 32 for `doc_freq`;
    /// * a range ends before it begins, has 2^32 bytes or more, or ends above `u64::MAX`.
    pub fn open(bytes: Bytes) -> Result<TermInfoStore, Fault>
        ensures opened { IfOk result (λ store. term_store bytes ≡ Some store) }
        ensures damaged { IfErr result (λ e. term_store bytes ≡ None) }
        ensures only { IfErr result (λ e. e ≡ Fault.Damaged Part.TermStore) }
    {
        if TermInfoStoreView::open(bytes.as_slice()).is_none() {
            return Err(Fault::Damaged(Part::TermStore));
        }
        Ok(TermInfoStore { bytes })
    }

    /// Returns the term at an ordinal. Never allocates.
    pub fn get(&self, term_ord: TermOrdinal) -> TermInfo
        requires { term_ord < length self.now }
        ensures { slice_get self.now term_ord ≡ Some result }
    {
        TermInfoStoreView::over(self.bytes.as_slice()).get(term_ord)
    }

    /// Returns the number of terms.
    pub fn num_terms(&self) -> usize
        ensures { result ≡ length self.now }
    {
        TermInfoStoreView::over(self.bytes.as_slice()).num_terms() as usize
    }

    /// Clones the store. The bytes are shared.
    pub fn clone(&self) -> Result<TermInfoStore, Fault>
        ensures same { IfOk result (λ store. store ≡ self.now) }
        ensures only { OnlyMemory result }
    {
        let bytes = self.bytes.clone()?;
        Ok(TermInfoStore { bytes })
    }
}
