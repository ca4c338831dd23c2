//! The commands that write an index without opening it: `index`, `add`, `merge` and `upgrade`; and what all commands print.
#![tactic(auto)]

pub mod adding;
mod float_paths;
pub mod indexing;
pub mod left_out;
mod memory;
pub mod merging;
pub mod messages;
mod new_segments;
mod orphans;
mod places;
mod schemas;
pub mod upgrading;

pub use adding::{Added, Replacement, add_given, tell_added};
pub use indexing::{STEP, answer_index, target_of};
pub use left_out::LeftOut;
pub use merging::{answer_merge, len_of_files, settle};
pub use messages::{
    NO, PROGRAM, REFUSED, loaded_at, refuse, refuse_commit, refuse_file, refuse_path, tell_no_index,
};
pub use upgrading::answer_upgrade;
