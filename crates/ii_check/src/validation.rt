/// Whether postings are validated when they are opened.
#[derive(Clone, Copy, Debug, PartialEq, Eq)]
pub enum Validation {
    /// The complete list is validated; the bytes may be any.
    Complete,
    /// The bytes are known to begin with a valid list, of which only the first block is decoded.
    Skipped,
}
