use ii_alive::AliveBits;
use ii_reader::InvertedIndexReader;

/// A field of a segment that is merged.
#[derive(Clone, Copy)]
pub struct FieldSource<'a> {
    /// The terms of the field.
    pub reader: &'a InvertedIndexReader,
    /// Which documents of the segment are alive.
    pub alive: &'a AliveBits,
}
