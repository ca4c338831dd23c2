ghost use Rattle.std.specs.Prelude.{◌≡◌, ◌<◌, ◌≤◌, ◌^◌, [], List, length, map, slice_get, slice_set, Some, IfOk, OnErr, OnOk};
ghost use Rattle.ii_base.specs.Schema.{SchemaEntry, keeps_norms};
ghost use Rattle.ii_io.specs.Composite.{composite, written_composite};
ghost use Rattle.ii_io.specs.Faults.{OnlyMemory};
ghost use Rattle.ii_base.specs.declared.doc_id.TheConstants.{TERMINATED};
ghost use Rattle.ii_fieldnorm.specs.Buffers.{empty_buffers, norm_bodies};
ghost use Rattle.ii_definitions.specs.Norms.{HoldNorms};
ghost use Rattle.ii_definitions.specs.Tokens.{IndexToken, Piece};
ghost use Rattle.ii_indexing.specs.declared.open_documents.OpenDocument.{OpenDocument};
ghost use Rattle.ii_indexing.specs.OpenDocuments.{AreBehind, AreClosed, ReachTo, TellsAll, empty_document, document_at, with_norms};

use bytes::Bytes;
use ii_base::{CountingWriter, DocId, Fault, Field, Schema};
use ii_fieldnorm::{FieldNormsSerializer, FieldNormsWriter};
use std::alloc::Global;
use std::marker::Model;

/// The state of a field in a document: the number of tokens of its texts, where the next text starts,
/// and the number of all its tokens, at most `u32::MAX`.
#[derive(Clone, Copy, Drop)]
pub(crate) struct OpenDocument {
    pub doc: DocId,
    pub num_tokens: u32,
    pub end_position: u32,
    pub norm: u32,
}

/// The last opened document of each field, and the norms of earlier documents.
pub(crate) struct OpenDocuments {
    pub(crate) documents: Vec<OpenDocument>,
    norms: FieldNormsWriter,
}

// Makes each drop a call.
impl Drop for OpenDocuments {
    fn drop(self) {
        let OpenDocuments {
            documents: _,
            norms: _,
        } = self;
    }
}

impl Model for OpenDocuments {
    ghost use Rattle.ii_indexing.specs.OpenDocuments.{AreBehind, OpenDocumentsState};

    ghost Value = { OpenDocumentsState };

    ghost view = { λ o. record { documents = o.documents.items; norms = o.norms } };

    ghost invariant = { λ o. AreBehind (record { documents = o.documents.items; norms = o.norms }) };
}

impl OpenDocuments {
    // Opens document 0 of each field, without tokens.
    pub(crate) fn new(alloc: Global, schema: &Schema) -> Result<OpenDocuments, Fault>
        ensures ok { IfOk result (λ d. d ≡ record { documents = map (λ (e : SchemaEntry). empty_document 0) schema.now; norms = empty_buffers schema.now }) }
        ensures few { IfOk result (λ d. length schema.now < 2 ^ 32) }
        ensures only { OnlyMemory result }
    {
        let mut documents = Vec::with_capacity(alloc, schema.num_fields())?;
        for (_field, _entry) in schema.fields() {
            documents.push(OpenDocument {
                doc: 0,
                num_tokens: 0,
                end_position: 0,
                norm: 0,
            })?;
        }
        Ok(OpenDocuments {
            documents,
            norms: FieldNormsWriter::for_schema(alloc, schema)?,
        })
    }

    // Opens a document in a field, and keeps the norm of the document before, which must not be
    // greater.
    pub(crate) fn open(&mut self, doc: DocId, field: Field) -> Result<OpenDocument, Fault>
        requires known { field < length self.old.documents }
        requires reach { ReachTo doc self.old }
        ensures found { IfOk result (λ d. slice_get self.new.documents field ≡ Some d) }
        ensures at { IfOk result (λ d. d.doc ≡ doc) }

        // Preconditions of the next call.
        ensures told { OnOk result ((ps : List Piece) (ts : List IndexToken) → TellsAll ps ts self.old → TellsAll ps ts self.new) }
        ensures reach { OnOk result (ReachTo doc self.new) }
        ensures fields { OnOk result (length self.new.documents ≡ length self.old.documents) }
        ensures norms { OnOk result (with_norms self.new.norms ≡ with_norms self.old.norms) }

        // Errors.
        ensures only { OnlyMemory result }
    {
        let index = field.field_id() as usize;
        let last = self.documents[index];
        if last.doc == doc {
            return Ok(last);
        }
        self.norms.record(last.doc, field, last.norm)?;
        let document = OpenDocument {
            doc,
            num_tokens: 0,
            end_position: 0,
            norm: 0,
        };
        self.documents[index] = document;
        Ok(document)
    }

    // Replaces the state of a field's open document.
    pub(crate) fn put(&mut self, field: Field, document: OpenDocument)
        requires same { (d : OpenDocument) → slice_get self.old.documents field ≡ Some d → d.doc ≡ document.doc }
        requires known { field < length self.old.documents }
        ensures { self.new ≡ record self.old { documents = slice_set self.old.documents field document } }
    {
        self.documents[field.field_id() as usize] = document;
    }

    // Returns the file of norms, `num_docs` for each field that has norms. `num_docs` is at most
    // `TERMINATED`.
    pub(crate) fn finish(self, alloc: Global, num_docs: DocId) -> Result<Bytes, Fault>
        requires docs { num_docs ≤ TERMINATED }
        requires few { length self.norms < 2 ^ 32 }
        requires fields { length self.documents ≡ length self.norms }
        ensures holds { IfOk result (λ bytes. (entries : List SchemaEntry) (ps : List Piece) (ts : List IndexToken) → with_norms self.norms ≡ map keeps_norms entries → TellsAll ps ts self
            → HoldNorms entries num_docs bytes ts) }
        ensures only { OnlyMemory result }
    {
        let OpenDocuments { documents, norms } = self;
        let mut norms = norms;
        close_documents(&documents, &mut norms)?;
        norms.fill_up_to_max_doc(num_docs)?;
        norms_file(alloc, &norms)
    }
}

// Records the norms of open documents, each after the earlier norms of its field.
fn close_documents(documents: &[OpenDocument], norms: &mut FieldNormsWriter) -> Result<(), Fault>
    requires behind { AreBehind (record { documents = documents.now; norms = norms.old }) }
    requires few { length documents.now < 2 ^ 32 }
    ensures ok { OnOk result (AreClosed documents.now norms.old norms.new) }
    ensures norms { OnOk result (with_norms norms.new ≡ with_norms norms.old) }
    ensures only { OnlyMemory result }
{
    for place in 0..documents.len() {
        let document = documents[place];
        let field = Field::from_field_id(place as u32);
        norms.record(document.doc, field, document.norm)?;
    }
    Ok(())
}

// Returns the file of norms, which has less than 2^64 bytes.
fn norms_file(alloc: Global, norms: &FieldNormsWriter) -> Result<Bytes, Fault>
    requires few { length norms.now < 2 ^ 32 }
    requires small { length (written_composite (norm_bodies norms.now)) < 2 ^ 64 }
    ensures written { IfOk result (λ bytes. bytes ≡ written_composite (norm_bodies norms.now)) }
    ensures reads { IfOk result (λ bytes. composite bytes ≡ Some (norm_bodies norms.now)) }
    ensures only { OnlyMemory result }
{
    let writer = CountingWriter::wrap(Vec::new(alloc));
    let (writer, written) = norms.serialize(FieldNormsSerializer::from_write(alloc, writer));
    match written {
        Ok(()) => Ok(Bytes::from_vec(writer.finish())?),
        Err(fault) => Err(fault.in_memory()),
    }
}
