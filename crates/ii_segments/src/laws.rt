//! Laws of all segments.
ghost use Rattle.std.specs.Prelude.{ℕ, List};
ghost use Rattle.ii_segments.specs.Documents.{SegmentsAreOneIndex};
ghost use Rattle.ii_segments.specs.SegmentLaws.{CountsOfSegments, KeysOfSegments, MergeKeeps, MergedIsSegment};
ghost use Rattle.ii_segments.specs.Segments.{Segment};

/// Law of merges: one segment in place of neighbours changes no token of an index, and no document's number.
pub fn merge_keeps()
    ensures { MergeKeeps }
{}

/// Law of merged segments: what segments are merged into is a segment.
pub fn merged_is_segment()
    ensures { MergedIsSegment }
{}

/// Law of keys: the postings of a key are those of the living documents of each segment, one after the other.
pub fn keys_of_segments()
    ensures { KeysOfSegments }
{}

/// Law of counts: the numbers of tokens of documents, and their norms, are those of the living documents of each
/// segment, one after the other; a field has as many tokens as these numbers add up to.
pub fn counts_of_segments()
    ensures { (field : ℕ) (ss : List Segment) → CountsOfSegments field ss }
{}

/// Law of documents: documents indexed in several segments have the tokens of one index of all of them.
pub fn segments_are_one_index()
    ensures { SegmentsAreOneIndex }
{}
