//! Cursors over documents, and over the term frequencies and positions in them.
#![tactic(auto)]

mod boxed;
pub mod calls;
pub mod docset;
pub mod intersection;
pub mod lent;
pub mod postings;
pub mod seek_once;
pub mod walking;

pub use calls::{CursorAnswer, CursorCall, Walk};
pub use docset::{COLLECT_BLOCK_BUFFER_LEN, DocSet, SeekDangerResult};
pub use ii_base::{DocId, TERMINATED};
pub use intersection::intersect;
pub use lent::Lent;
pub use postings::{Postings, add_offset, copy_positions};
pub use seek_once::SeekOnce;
pub use walking::walk;
