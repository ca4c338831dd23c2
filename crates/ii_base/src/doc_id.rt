/// The id of a document in its index.
pub type DocId = u32;

/// What a cursor returns after its last document. All document ids are less.
pub const TERMINATED: DocId = 2_147_483_647;
