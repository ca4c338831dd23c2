//! Laws of all queries and segments.
ghost use Rattle.ii_segment_search.specs.SegmentSearch.{FindsInSegments, SearchIsLocal};

/// Law of searches: a query matches a living document of an index of segments if and only if it matches it in
/// its segment. What the query says of all documents must reach every document.
pub fn search_is_local()
    ensures { SearchIsLocal }
{}

/// Law of the found documents: those that match a query in an index of segments are those of each segment, one
/// after the other, without the deleted ones.
pub fn finds_in_segments()
    ensures { FindsInSegments }
{}
