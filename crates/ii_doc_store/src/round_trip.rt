//! The laws of stores.
ghost use Rattle.ii_doc_store.specs.RoundTrip.{CutsIntoBlocks, GivesDocumentsBack, NamesDamagedBlocks};

/// States that the store of documents holds exactly these documents.
pub fn gives_documents_back()
    ensures { GivesDocumentsBack }
{}

/// States that where the index is the same, a block with the bytes that were written gives its documents,
/// whatever the other blocks have, and a block with another SHA-256 is named. So other bytes than the stored
/// ones are given only where two blocks have the same SHA-256.
pub fn names_damaged_blocks()
    ensures { NamesDamagedBlocks }
{}

/// States that each document is in one block, in order, and that a block ends with the document that fills it.
pub fn cuts_into_blocks()
    ensures { CutsIntoBlocks }
{}
