// Files of a folder that are read by ranges.
ghost use Rattle.std.specs.Prelude.{◌≡◌, List, Ok};
ghost use Rattle.ii_base.specs.Schema.{SchemaEntry};
ghost use Rattle.ii_reader.specs.OpenIndex.{OpenIndexState, index_of_files};
ghost use Rattle.ii_segment_store.specs.Contents.{SegmentContents};
ghost use Rattle.ii_open_segments.specs.OpenSegments.{opened_of};
ghost use Rattle.nequllpa_warming.specs.WarmedSegments.{HasItsTables, SegmentHolds};

/// The files of a segment that was written, open with their tables, hold the index of their bytes.
pub fn written_segments_hold_their_index()
    ensures { (s : SegmentContents) (entries : List SchemaEntry) (whole : OpenIndexState) → index_of_files s.terms s.postings s.positions s.fieldnorms entries ≡ Ok whole → SegmentHolds (opened_of s) entries whole × HasItsTables (opened_of s) }
{}
