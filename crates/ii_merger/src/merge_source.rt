use ii_alive::AliveBits;
use ii_reader::OpenIndex;

/// A segment that is merged.
#[derive(Clone, Copy)]
pub struct MergeSource<'a> {
    /// The open files of the segment.
    pub index: &'a OpenIndex,
    /// Which documents of the segment are alive.
    pub alive: &'a AliveBits,
}
