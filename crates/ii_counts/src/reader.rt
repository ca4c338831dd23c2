ghost use Rattle.std.specs.Prelude.{◌≡◌, ◌<◌, ◌≤◌, ◌+◌, ◌⊎◌, ◌↔◌, length, Some, None, IfOk, IfErr, IsErrOf, IsSomeAnd, get_or};
ghost use Rattle.std.specs.Option.{option_map};
ghost use Rattle.ii_io.specs.Composite.{composite, body_of, HasTable};
ghost use Rattle.ii_counts.specs.Counts.{CountReaderState, counts_at};

use bytes::Bytes;
use ii_base::{CompositeFile, DocId, Fault, Field, Part};
use ii_layout::positions::PositionReader;
use std::alloc::Global;
use std::marker::Model;

/// The counts of all fields. Its model is the bytes of each field.
#[derive(Drop)]
pub struct CountReaders {
    composite: CompositeFile,
}

impl Model for CountReaders {
    ghost use Rattle.std.specs.Prelude.{List};
    ghost use Rattle.ii_io.specs.Composite.{Body};

    ghost Value = { List Body };

    ghost view = { λ readers. readers.composite };
}

impl CountReaders {
    /// Opens a file of counts, a composite file. Memory is allocated for the table alone.
    ///
    /// Returns `Damaged(Composite)` if the table is corrupt.
    pub fn open(alloc: Global, bytes: Bytes) -> Result<CountReaders, Fault>
        ensures opened { IfOk result (λ readers. composite bytes ≡ Some readers) }
        ensures damaged { IsErrOf result (Fault.Damaged Part.Composite) → composite bytes ≡ None }
        ensures memory { IsErrOf result Fault.OutOfMemory → HasTable bytes }
        ensures only { IfErr result (λ e. (e ≡ Fault.OutOfMemory) ⊎ (e ≡ Fault.Damaged Part.Composite)) }
    {
        let composite = CompositeFile::open(alloc, bytes)?;
        Ok(CountReaders { composite })
    }

    /// Returns the reader of a field, if the file has its counts.
    ///
    /// Returns `Damaged(TokenCount)` if its body isn't a list of as many counts as there are documents.
    pub fn get_field(&self, field: Field, num_docs: u32) -> Result<Option<CountReader>, Fault>
        ensures found { IfOk result (λ reader. option_map (λ r. Some r.counts) reader ≡ option_map (counts_at num_docs) (body_of field self.now)) }
        ensures damaged { IsErrOf result (Fault.Damaged Part.TokenCount)
            → IsSomeAnd (body_of field self.now) (λ bytes. counts_at num_docs bytes ≡ None) }
        ensures only { IfErr result (λ e. (e ≡ Fault.OutOfMemory) ⊎ (e ≡ Fault.Damaged Part.TokenCount)) }
    {
        match self.composite.open_read(field)? {
            Some(bytes) => Ok(Some(CountReader::open(bytes, num_docs)?)),
            None => Ok(None),
        }
    }
}

/// The counts of a field: how many tokens each document has in it.
#[derive(Drop)]
pub struct CountReader {
    counts: PositionReader,
}

impl Model for CountReader {
    ghost use Rattle.std.specs.Prelude.{◌<◌, ◌^◌, length};
    ghost use Rattle.ii_counts.specs.Counts.{CountReaderState};

    ghost Value = { CountReaderState };

    ghost view = { λ reader. record { counts = reader.counts.deltas; decodes = reader.counts.decodes } };

    ghost invariant = { λ reader. length reader.counts.deltas < 2 ^ 32 };
}

impl CountReader {
    /// Opens the counts of a field, one for each document. At most one block of 128 counts is decoded.
    ///
    /// Returns `Damaged(TokenCount)` if the bytes aren't a list of as many counts.
    pub fn open(bytes: Bytes, num_docs: u32) -> Result<CountReader, Fault>
        ensures opened { IfOk result (λ reader. (counts_at num_docs bytes ≡ Some reader.counts) × (reader.decodes ≤ 1)) }
        ensures damaged { IfErr result (λ e. (e ≡ Fault.Damaged Part.TokenCount) × (counts_at num_docs bytes ≡ None)) }
    {
        match PositionReader::open(bytes) {
            Ok(counts) if counts.len() == num_docs as u128 => Ok(CountReader { counts }),
            _ => Err(Fault::Damaged(Part::TokenCount)),
        }
    }

    /// Returns the number of documents.
    pub fn num_docs(&self) -> u32
        ensures { result ≡ length self.now.counts }
    {
        self.counts.len() as u32
    }

    /// Returns the number of tokens of a document. At most two blocks of 128 counts are decoded, none if the
    /// block was decoded by the call before.
    pub fn count(&mut self, doc: DocId) -> u32
        requires { doc < length self.old.counts }
        ensures count { result ≡ get_or self.old.counts doc 0 }
        ensures same { self.new.counts ≡ self.old.counts }
        ensures decodes { self.new.decodes ≤ self.old.decodes + 2 }
    {
        let mut count = [0; 1];
        self.counts.read(doc as u64, &mut count);
        count[0]
    }
}
