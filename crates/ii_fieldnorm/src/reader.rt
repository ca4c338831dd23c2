ghost use Rattle.std.specs.Prelude.{◌≡◌, ◌<◌, ◌≤◌, ◌^◌, ◌⊎◌, ◌↔◌, [], length, Some, None, IfOk, IfErr, IsOk, IsErrOf, IsSomeAnd};
ghost use Rattle.std.specs.Option.{option_map};
ghost use Rattle.ii_io.specs.Composite.{composite, body_of, HasTable};
ghost use Rattle.ii_io.specs.Faults.{OnlyMemory};
ghost use Rattle.ii_fieldnorm.specs.Norms.{norm_of_id, id_of_norm};
ghost use Rattle.ii_fieldnorm.specs.Readers.{norms_of_ids, CoversDoc, id_of_doc};

use super::code::{fieldnorm_to_id, id_to_fieldnorm};
use bytes::Bytes;
use ii_base::{CompositeFile, DocId, Fault, Field, Part};
use std::alloc::Global;
use std::marker::Model;

/// The field norms of all fields that have them. Its model is the bytes of each field.
#[derive(Drop)]
pub struct FieldNormReaders {
    composite: CompositeFile,
}

impl Model for FieldNormReaders {
    ghost use Rattle.std.specs.Prelude.{List};
    ghost use Rattle.ii_io.specs.Composite.{Body};

    ghost Value = { List Body };

    ghost view = { λ readers. readers.composite };
}

impl FieldNormReaders {
    /// Opens the field norms file: a composite file whose bodies have one byte per document. Memory is
    /// allocated for the table alone.
    ///
    /// Returns `Damaged(Composite)` if the table is corrupt.
    pub fn open(alloc: Global, bytes: Bytes) -> Result<FieldNormReaders, Fault>
        ensures opened { IfOk result (λ readers. composite bytes ≡ Some readers) }
        ensures damaged { IsErrOf result (Fault.Damaged Part.Composite) → composite bytes ≡ None }
        ensures memory { IsErrOf result Fault.OutOfMemory → HasTable bytes }
        ensures only { IfErr result (λ e. (e ≡ Fault.OutOfMemory) ⊎ (e ≡ Fault.Damaged Part.Composite)) }
    {
        let composite = CompositeFile::open(alloc, bytes)?;
        Ok(FieldNormReaders { composite })
    }

    /// Returns the reader of a field, if the file has its field norms.
    ///
    /// Returns `Damaged(FieldNorms)`, before any allocation, if there are more than `u32::MAX`.
    pub fn get_field(&self, field: Field) -> Result<Option<FieldNormReader>, Fault>
        ensures found { IfOk result (λ reader. reader ≡ option_map norms_of_ids (body_of field self.now)) }
        ensures damaged { IsErrOf result (Fault.Damaged Part.FieldNorms)
            ↔ IsSomeAnd (body_of field self.now) (λ ids. 2 ^ 32 ≤ length ids) }
        ensures only { IfErr result (λ e. (e ≡ Fault.OutOfMemory) ⊎ (e ≡ Fault.Damaged Part.FieldNorms)) }
    {
        let Some(num_docs) = self.composite.body_len(field) else {
            return Ok(None);
        };
        if num_docs > u32::MAX as usize {
            return Err(Fault::Damaged(Part::FieldNorms));
        }
        match self.composite.open_read(field)? {
            Some(ids) => Ok(Some(FieldNormReader::open(ids)?)),
            None => Ok(None),
        }
    }

    /// Clones the readers, over the same bytes.
    pub fn clone(&self) -> Result<FieldNormReaders, Fault>
        ensures same { IfOk result (λ copy. copy ≡ self.now) }
        ensures only { OnlyMemory result }
    {
        let composite = self.composite.clone()?;
        Ok(FieldNormReaders { composite })
    }
}

#[derive(Drop)]
enum ReaderImplEnum {
    FromData(Bytes),
    Const(u32, u8),
}

/// The field norms of a field.
///
/// A field norm approximates the number of tokens of a document in the field. It is decoded from a one-byte
/// id, and is never greater than the number of tokens.
pub struct FieldNormReader {
    norms: ReaderImplEnum,
}

// Makes each drop a call.
impl Drop for FieldNormReader {
    fn drop(self) {
        let FieldNormReader { norms: _ } = self;
    }
}

impl Model for FieldNormReader {
    ghost use Rattle.std.specs.Prelude.{◌<◌, ◌^◌};
    ghost use Rattle.ii_fieldnorm.specs.Readers.{Norms, read_norms};

    ghost Value = { Norms };

    ghost view = { λ reader. read_norms reader.norms };

    ghost invariant = { λ reader. (read_norms reader.norms).num_docs < 2 ^ 32 };
}

impl FieldNormReader {
    /// Creates a reader in which all documents have the field norm that approximates `fieldnorm`.
    pub fn constant(num_docs: u32, fieldnorm: u32) -> FieldNormReader
        ensures { result ≡ record { num_docs = num_docs; ids = []; constant = Some (id_of_norm fieldnorm) } }
    {
        FieldNormReader {
            norms: ReaderImplEnum::Const(num_docs, fieldnorm_to_id(fieldnorm)),
        }
    }

    /// Opens a reader of these ids, one byte per document.
    ///
    /// Returns `Damaged(FieldNorms)` if there are more than `u32::MAX`.
    pub fn open(ids: Bytes) -> Result<FieldNormReader, Fault>
        ensures opened { IfOk result (λ reader. reader ≡ norms_of_ids ids) }
        ensures exactly { IsOk result ↔ (length ids < 2 ^ 32) }
        ensures only { IfErr result (λ e. e ≡ Fault.Damaged Part.FieldNorms) }
    {
        if ids.len() > u32::MAX as usize {
            return Err(Fault::Damaged(Part::FieldNorms));
        }
        Ok(FieldNormReader {
            norms: ReaderImplEnum::FromData(ids),
        })
    }

    /// Returns the number of documents.
    pub fn num_docs(&self) -> u32
        ensures { result ≡ self.now.num_docs }
    {
        match &self.norms {
            ReaderImplEnum::FromData(ids) => ids.len() as u32,
            ReaderImplEnum::Const(num_docs, _) => *num_docs,
        }
    }

    /// Returns the field norm of a document.
    pub fn fieldnorm(&self, doc: DocId) -> u32
        requires { CoversDoc self.now doc }
        ensures { result ≡ norm_of_id (id_of_doc self.now doc) }
    {
        id_to_fieldnorm(self.fieldnorm_id(doc))
    }

    /// Returns the id of a document's field norm.
    pub fn fieldnorm_id(&self, doc: DocId) -> u8
        requires { CoversDoc self.now doc }
        ensures { result ≡ id_of_doc self.now doc }
    {
        match &self.norms {
            ReaderImplEnum::FromData(ids) => ids.as_slice()[doc as usize],
            ReaderImplEnum::Const(_, id) => *id,
        }
    }

    /// Returns the field norm with this id.
    pub fn id_to_fieldnorm(id: u8) -> u32
        ensures { result ≡ norm_of_id id }
    {
        id_to_fieldnorm(id)
    }

    /// Returns the id of the greatest field norm that is at most `fieldnorm`.
    pub fn fieldnorm_to_id(fieldnorm: u32) -> u8
        ensures id { result ≡ id_of_norm fieldnorm }
        ensures below { norm_of_id result ≤ fieldnorm }
    {
        fieldnorm_to_id(fieldnorm)
    }

    /// Clones the reader, over the same bytes.
    pub fn clone(&self) -> Result<FieldNormReader, Fault>
        ensures same { IfOk result (λ copy. copy ≡ self.now) }
        ensures only { OnlyMemory result }
    {
        let norms = match &self.norms {
            ReaderImplEnum::FromData(ids) => ReaderImplEnum::FromData(ids.clone()?),
            ReaderImplEnum::Const(num_docs, id) => ReaderImplEnum::Const(*num_docs, *id),
        };
        Ok(FieldNormReader { norms })
    }
}
