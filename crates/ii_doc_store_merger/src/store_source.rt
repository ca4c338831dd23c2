use ii_alive::AliveBits;
use ii_doc_store::StoreFile;
use ii_file_slice::FileHandle;

/// A store that is merged.
pub struct StoreSource<'a, H: FileHandle> {
    /// The documents, living and dead.
    pub store: StoreFile<'a, H>,
    /// Which documents are alive.
    pub alive: &'a AliveBits,
}

// Makes each drop a call.
impl<'a, H: FileHandle> Drop for StoreSource<'a, H> {
    fn drop(self) {
        let StoreSource { store: _, alive: _ } = self;
    }
}
