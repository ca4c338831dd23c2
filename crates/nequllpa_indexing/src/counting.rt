//! Indexes documents, and counts their tokens.
ghost use Rattle.std.specs.Prelude.{◌≡◌, ◌≤◌, ◌⊎◌, [], Err, IfErr, IfOk, IsSomeAnd, List, None, Some, false, map, option_map};
ghost use Rattle.ii_base.specs.declared.doc_id.TheConstants.{TERMINATED};
ghost use Rattle.ii_definitions.specs.Fields.{option_of};
ghost use Rattle.ii_definitions.specs.Files.{HoldTokens};
ghost use Rattle.ii_definitions.specs.IndexCalls.{MayAllBeIndexed, call_of};
ghost use Rattle.ii_definitions.specs.Norms.{HoldNorms};
ghost use Rattle.ii_definitions.specs.Tokens.{Piece, tokens_after};
ghost use Rattle.ii_indexing.specs.Indexer.{Stores};
ghost use Rattle.ii_json.specs.LeafVisit.{IsRefusedBy};
ghost use Rattle.ii_segments.specs.HoldCounts.{HasManyTokens, HoldCounts};
ghost use Rattle.nequllpa_indexing.specs.Counted.{HasCounts, IsSegmentFault};
ghost use Rattle.nequllpa_indexing.specs.FieldTokens.{calls_fault_by, pieces_by, tokens_by};
ghost use Rattle.nequllpa_indexing.specs.StoredLines.{AreLinesOf, IsLinesFault, StoresLines, lines_view};

use crate::lines::lines_file;
use ii_base::{DocId, Fault, LimitName, Schema};
use ii_counts::CountsWriter;
use ii_indexing::{IndexCall, IndexWriters, Indexer};
use ii_segment_store::SegmentFiles;
use ii_tokenizers::FieldAnalyzers;
use std::alloc::Global;

// Creates an indexer, indexes all calls, each by the analyzer of its field, and counts the tokens of each document.
pub(crate) fn index_counted<F: FieldAnalyzers>(
    alloc: Global,
    schema: Schema,
    num_docs: DocId,
    calls: Vec<IndexCall>,
    analyzers: &F,
) -> Result<(Indexer, CountsWriter), Fault>
    requires docs { num_docs ≤ TERMINATED }
    requires calls { MayAllBeIndexed schema num_docs calls.items }
    ensures stored { IfOk result (λ r. Stores r.0 (pieces_by (F.words analyzers.now) (map (call_of schema) calls.items))) }
    ensures rest { IfOk result (λ r. (r.0.schema ≡ schema) × (r.0.num_docs ≡ num_docs) × (r.0.failed ≡ false)) }
    ensures counted { IfOk result (λ r. HasCounts schema (tokens_by (F.words analyzers.now) (map (call_of schema) calls.items)) r.1) }
    ensures refused { IsRefusedBy (calls_fault_by (F.words analyzers.now) (option_of schema) [] (map (call_of schema) calls.items)) result }
{
    let mut counts = CountsWriter::for_schema(alloc, &schema)?;
    let mut indexer = Indexer::new(alloc, schema, num_docs)?;
    for call in calls {
        let doc = call.doc();
        let field = call.field();
        let analyzer = analyzers.analyzer(field);
        indexer.index(call, analyzer)?;
        let num_tokens = indexer.last_num_tokens(field);
        counts.record(doc, field, num_tokens)?;
    }
    Ok((indexer, counts))
}

// Writes the files of an index and of its counts to memory, without the lines.
fn finish_counted(
    alloc: Global,
    num_docs: DocId,
    indexer: Indexer,
    counts: CountsWriter,
) -> Result<SegmentFiles, Fault>
    requires running { indexer.failed ≡ false }
    requires docs { indexer.num_docs ≡ num_docs }
    ensures docs { IfOk result (λ f. f.num_docs ≡ num_docs) }
    ensures holds { (ps : List Piece) → Stores indexer ps → IfOk result (λ f. HoldTokens (option_of indexer.schema) f.terms.items f.postings.items f.positions.items (tokens_after [] ps)) }
    ensures norms { (ps : List Piece) → Stores indexer ps → IfOk result (λ f. HoldNorms indexer.schema num_docs f.fieldnorms.items (tokens_after [] ps)) }
    ensures counts { (ps : List Piece) → HasCounts indexer.schema (tokens_after [] ps) counts → IfOk result (λ f. IsSomeAnd f.counts (λ v. HoldCounts indexer.schema num_docs v.items (tokens_after [] ps))) }

    // Errors.
    ensures many { (ps : List Piece) → HasCounts indexer.schema (tokens_after [] ps) counts → HasManyTokens indexer.schema (tokens_after [] ps) → result ≡ Err (Fault.Limit LimitName.Tokens) }
    ensures fault { (ps : List Piece) → Stores indexer ps → HasCounts indexer.schema (tokens_after [] ps) counts → IfErr result (IsSegmentFault indexer.schema num_docs (tokens_after [] ps)) }
{
    if counts.has_limit() {
        return Err(Fault::Limit(LimitName::Tokens));
    }
    let counts = match counts.into_file(alloc, num_docs) {
        Ok(counts) => counts,
        Err(fault) => return Err(fault),
    };
    let (files, written) = indexer.finish(IndexWriters::in_memory(alloc));
    match written {
        Ok(()) => Ok(segment_files(num_docs, files, counts)),
        Err(fault) => Err(fault.in_memory()),
    }
}

// Writes the files of an index, of its counts, and of the lines, if they are stored, to memory.
pub(crate) fn finish_stored(
    alloc: Global,
    num_docs: DocId,
    indexer: Indexer,
    counts: CountsWriter,
    lines: Option<Vec<String>>,
) -> Result<SegmentFiles, Fault>
    requires running { indexer.failed ≡ false }
    requires docs { indexer.num_docs ≡ num_docs }
    requires few { num_docs ≤ TERMINATED }
    requires lines { AreLinesOf num_docs (lines_view lines) }
    ensures docs { IfOk result (λ f. f.num_docs ≡ num_docs) }
    ensures holds { (ps : List Piece) → Stores indexer ps → IfOk result (λ f. HoldTokens (option_of indexer.schema) f.terms.items f.postings.items f.positions.items (tokens_after [] ps)) }
    ensures norms { (ps : List Piece) → Stores indexer ps → IfOk result (λ f. HoldNorms indexer.schema num_docs f.fieldnorms.items (tokens_after [] ps)) }
    ensures counts { (ps : List Piece) → HasCounts indexer.schema (tokens_after [] ps) counts → IfOk result (λ f. IsSomeAnd f.counts (λ v. HoldCounts indexer.schema num_docs v.items (tokens_after [] ps))) }
    ensures lines { IfOk result (λ f. StoresLines (lines_view lines) (option_map (λ v. v.items) f.store)) }

    // Errors.
    ensures many { (ps : List Piece) → HasCounts indexer.schema (tokens_after [] ps) counts → HasManyTokens indexer.schema (tokens_after [] ps) → result ≡ Err (Fault.Limit LimitName.Tokens) }
    ensures fault { (ps : List Piece) → Stores indexer ps → HasCounts indexer.schema (tokens_after [] ps) counts
        → IfErr result (λ e. IsSegmentFault indexer.schema num_docs (tokens_after [] ps) e ⊎ IsLinesFault (lines_view lines) e) }
{
    let mut files = match finish_counted(alloc, num_docs, indexer, counts) {
        Ok(files) => files,
        Err(fault) => return Err(fault),
    };
    match lines_file(alloc, num_docs, lines) {
        Ok(store) => {
            files.store = store;
            Ok(files)
        }
        Err(fault) => Err(fault),
    }
}

// Returns the files of a segment, without the lines.
fn segment_files(num_docs: DocId, files: IndexWriters<Vec<u8>>, counts: Vec<u8>) -> SegmentFiles
    ensures docs { result.num_docs ≡ num_docs }
    ensures terms { Some result.terms.items ≡ files.terms.contents }
    ensures postings { Some result.postings.items ≡ files.postings.contents }
    ensures positions { Some result.positions.items ≡ files.positions.contents }
    ensures fieldnorms { Some result.fieldnorms.items ≡ files.fieldnorms.contents }
    ensures counts { result.counts ≡ Some counts }
    ensures store { result.store ≡ None }
{
    let IndexWriters {
        terms,
        postings,
        positions,
        fieldnorms,
    } = files;
    SegmentFiles {
        num_docs,
        terms: terms.finish(),
        postings: postings.finish(),
        positions: positions.finish(),
        fieldnorms: fieldnorms.finish(),
        counts: Some(counts),
        store: None,
    }
}
