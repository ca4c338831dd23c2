use crate::walked::three;
use ii_base::{AliveBitSet, Fault};
use std::alloc::Global;

/// Counts the alive documents of three, one of which is deleted.
pub fn read_back(alloc: Global) -> Result<String, Fault> {
    let cursor = three()?;
    let alive = AliveBitSet::from_deleted_docs(alloc, &[2], 12)?;
    let count = cursor.doc_freq_given_deletes(&alive)?;
    let mut text = String::new(alloc);
    write!(text, " {count} of {}", cursor.doc_freq())?;
    Ok(text)
}
