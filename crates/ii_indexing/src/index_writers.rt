ghost use Rattle.std.specs.Prelude.{◌≡◌, ◌≤◌, ◌⊎◌, [], List, map, false, None, Err, IfErr, IfOk, IfSome, OnOk};
ghost use Rattle.ii_base.specs.declared.doc_id.TheConstants.{TERMINATED};
ghost use Rattle.ii_definitions.specs.Fields.{option_of};
ghost use Rattle.ii_definitions.specs.Tokens.{pieces_of, tokens_of};
ghost use Rattle.ii_definitions.specs.IndexCalls.{MayAllBeIndexed, call_of};
ghost use Rattle.ii_indexing.specs.IndexFiles.{CountsIndexFailures, FilesGrow, IsIndexFault, WroteIndex};
ghost use Rattle.ii_indexing.specs.Indexer.{Stores};
ghost use Rattle.ii_indexing.specs.RamFiles.{empty_files};
ghost use Rattle.ii_indexing.specs.Refusals.{calls_fault};
ghost use Rattle.ii_json.specs.LeafVisit.{IsRefusedBy};

use crate::indexer::Indexer;
use ii_base::{CountingWriter, DocId, Fault, Schema, TextAnalyzer};
use ii_definitions::IndexCall;
use std::alloc::Global;
use std::io::Write;

/// The writers of the files of an index.
#[derive(Drop)]
pub struct IndexWriters<W: Write> {
    /// The terms, as a dictionary for each field.
    pub terms: CountingWriter<W>,
    /// The documents of the terms, with their term frequencies.
    pub postings: CountingWriter<W>,
    /// The positions of the terms.
    pub positions: CountingWriter<W>,
    /// The norms of the fields.
    pub fieldnorms: CountingWriter<W>,
}

impl<W: Write> IndexWriters<W> {
    // Joins the writers of the four files.
    pub(crate) fn new(
        terms: CountingWriter<W>,
        postings: CountingWriter<W>,
        positions: CountingWriter<W>,
        fieldnorms: CountingWriter<W>,
    ) -> IndexWriters<W>
        ensures { result ≡ record { terms = terms; postings = postings; positions = positions; fieldnorms = fieldnorms } }
    {
        IndexWriters {
            terms,
            postings,
            positions,
            fieldnorms,
        }
    }
}

impl IndexWriters<Vec<u8>> {
    /// Creates writers to memory, without output.
    pub fn in_memory(alloc: Global) -> IndexWriters<Vec<u8>>
        ensures { result ≡ empty_files }
    {
        IndexWriters {
            terms: CountingWriter::wrap(Vec::new(alloc)),
            postings: CountingWriter::wrap(Vec::new(alloc)),
            positions: CountingWriter::wrap(Vec::new(alloc)),
            fieldnorms: CountingWriter::wrap(Vec::new(alloc)),
        }
    }
}

/// Indexes calls, writes the files of their index, and returns the writers. Document ids must not
/// decrease, and must be less than `num_docs`, which is at most `TERMINATED`. Each call's field must
/// be indexed and have values of the call's type.
///
/// Returns the first fault of the calls (`Indexer::index`), and then writes nothing. Otherwise
/// returns a fault of `Indexer::finish`; the output may then have been partially appended. Returns
/// `OutOfMemory` if an allocation fails.
pub fn write_index<A: TextAnalyzer, W: Write>(
    alloc: Global,
    schema: Schema,
    num_docs: DocId,
    calls: Vec<IndexCall>,
    analyzer: &A,
    writers: IndexWriters<W>,
) -> (IndexWriters<W>, Result<(), Fault>)
    requires docs { num_docs ≤ TERMINATED }
    requires calls { MayAllBeIndexed schema num_docs calls.items }
    ensures wrote { OnOk result.1 (WroteIndex schema num_docs writers result.0 (tokens_of (A.words analyzer.now) (map (call_of schema) calls.items))) }
    ensures failures { CountsIndexFailures writers result.0 result.1 }
    ensures grow { FilesGrow writers result.0 }
    ensures refused { IfSome (calls_fault (A.words analyzer.now) (option_of schema) [] (map (call_of schema) calls.items))
        (λ fault. ((result.1 ≡ Err fault) ⊎ (result.1 ≡ Err Fault.OutOfMemory)) × (result.0 ≡ writers)) }
    ensures fault { calls_fault (A.words analyzer.now) (option_of schema) [] (map (call_of schema) calls.items) ≡ None
        → IfErr result.1 (IsIndexFault schema num_docs writers (tokens_of (A.words analyzer.now) (map (call_of schema) calls.items))) }
{
    match index_calls(alloc, schema, num_docs, calls, analyzer) {
        Ok(indexer) => indexer.finish(writers),
        Err(fault) => (writers, Err(fault)),
    }
}

// Creates an indexer and indexes all calls.
fn index_calls<A: TextAnalyzer>(
    alloc: Global,
    schema: Schema,
    num_docs: DocId,
    calls: Vec<IndexCall>,
    analyzer: &A,
) -> Result<Indexer, Fault>
    requires docs { num_docs ≤ TERMINATED }
    requires calls { MayAllBeIndexed schema num_docs calls.items }
    ensures stored { IfOk result (λ i. Stores i (pieces_of (A.words analyzer.now) (map (call_of schema) calls.items))) }
    ensures rest { IfOk result (λ i. (i.schema ≡ schema) × (i.num_docs ≡ num_docs) × (i.failed ≡ false)) }
    ensures refused { IsRefusedBy (calls_fault (A.words analyzer.now) (option_of schema) [] (map (call_of schema) calls.items)) result }
{
    let mut indexer = Indexer::new(alloc, schema, num_docs)?;
    for call in calls {
        indexer.index(call, analyzer)?;
    }
    Ok(indexer)
}
