ghost use Rattle.ii_layout.specs.Positions.{ReadsPositionsBack};
ghost use Rattle.ii_layout.specs.TermList.{ReadsTermBack, ReadsUncountedTermBack};
ghost use Rattle.ii_layout.specs.Written.{ReadsPostingsBack, ReadsUncountedBack, ReadsDocumentsBack};
ghost use Rattle.ii_layout.specs.WrittenBounds.{BoundsTakeNoRoom, BoundsWhatIsWritten, BoundsWrittenTerms, PlainTermsHaveNoBounds};

/// States that written postings read back as their list for each requested option, whatever follows them.
pub fn reads_postings_back()
    ensures { ReadsPostingsBack }
{}

/// States that terms written without term frequencies read back as their documents, whatever the field
/// records, if nothing follows them.
pub fn reads_uncounted_back()
    ensures { ReadsUncountedBack }
{}

/// States that written documents read back as their list, whatever follows them.
pub fn reads_documents_back()
    ensures { ReadsDocumentsBack }
{}

/// States that written positions read back as their deltas.
pub fn reads_positions_back()
    ensures { ReadsPositionsBack }
{}

/// States that a written term (documents, term frequencies and positions) reads back as its list for each
/// requested option.
pub fn reads_term_back()
    ensures { ReadsTermBack }
{}

/// States that terms written without term frequencies read back as their documents, whatever the field
/// records and whatever its positions hold.
pub fn reads_uncounted_term_back()
    ensures { ReadsUncountedTermBack }
{}

/// States the laws of bounds. Postings written with norms hold the least norm id and the greatest term
/// frequency of each full block that has frequencies, and so they are read back. No length depends on bounds, and a
/// term without term frequencies has none.
pub fn bounds_what_is_written()
    ensures bounds { BoundsWhatIsWritten }
    ensures read { BoundsWrittenTerms }
    ensures room { BoundsTakeNoRoom }
    ensures plain { PlainTermsHaveNoBounds }
{}
