use ii_alive::AliveBits;
use ii_counts::CountReaders;

/// The counts of a segment that is merged.
#[derive(Clone, Copy)]
pub struct CountsSource<'a> {
    /// How many tokens each document of the segment has, for each field.
    pub counts: &'a CountReaders,
    /// Which documents of the segment are alive.
    pub alive: &'a AliveBits,
}
