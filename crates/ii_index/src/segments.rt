//! Documents as the files of a segment.
ghost use Rattle.std.specs.Prelude.{◌≡◌, IfErr, IfOk, IsSome};
ghost use Rattle.ii_index.specs.Faults.{IsDocumentsFault};
ghost use Rattle.ii_index.specs.Segments.{HaveLines, no_documents, segment_of};
ghost use Rattle.ii_io.specs.Faults.{OnlyMemory};
ghost use Rattle.ii_segment_store.specs.Contents.{files_contents};
ghost use Rattle.ii_tokenizers.specs.Tokenizers.{analyzed_in};
ghost use Rattle.nequllpa_indexing.specs.Documents.{WereCalls};
ghost use Rattle.nequllpa_merging.specs.HeldSegments.{HoldsSegment};

use ii_base::Fault;
use ii_schema_text::TextSchema;
use ii_segment_store::SegmentFiles;
use ii_tokenizers::FieldTokenizers;
use nequllpa_indexing::Documents;
use std::alloc::Global;

// Returns an empty list of documents, of the fields of a schema. What is stored of them, and whether unknown keys are
// ignored, is as the schema says.
pub(crate) fn documents_for(alloc: Global, schema: &TextSchema) -> Result<Documents, Fault>
    ensures none { IfOk result (λ d. d ≡ no_documents schema.now) }
    ensures only { OnlyMemory result }
{
    let fields = match schema.schema().clone() {
        Ok(fields) => fields,
        Err(fault) => return Err(fault),
    };
    let stored = match schema.stored().clone() {
        Ok(stored) => stored,
        Err(fault) => return Err(fault),
    };
    Ok(Documents::storing(alloc, fields, stored).with_unknown_keys(schema.unknown_keys()))
}

// Builds the files of a segment of documents.
pub(crate) fn segment_of(
    alloc: Global,
    documents: Documents,
    tokenizers: &FieldTokenizers,
) -> Result<SegmentFiles, Fault>
    requires { HaveLines documents.num_docs documents.lines }
    ensures holds { IfOk result (λ f. HoldsSegment documents.schema (files_contents f) (segment_of (analyzed_in tokenizers.now) documents)) }
    ensures counted { IfOk result (λ f. IsSome f.counts) }
    ensures docs { IfOk result (λ f. f.num_docs ≡ documents.num_docs) }
    ensures calls { WereCalls documents.schema documents.num_docs documents.calls }
    ensures fault { IfErr result (IsDocumentsFault (analyzed_in tokenizers.now) documents) }
{
    // that its calls may be indexed, for the proof
    let _num_docs = documents.num_docs();
    match documents.into_segment(alloc, tokenizers) {
        Ok(files) => Ok(files),
        Err(fault) => Err(fault),
    }
}
