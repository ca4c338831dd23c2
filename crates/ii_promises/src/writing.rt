// What is written, and what is reported if it can't be.
ghost use Rattle.std.specs.Prelude.{◌≡◌, ◌+◌, ◌≤◌, ◌<◌, ◌⊎◌, ◌↔◌, ◌∷◌, ◌++◌, ℕ, List, [], true, false, map, Err, IfErr, IfSome, IsErrOf, OnErr, OnOk, Some};
ghost use Rattle.ii_base.specs.Json.{Leaf, json_of};
ghost use Rattle.ii_definitions.specs.Fields.{option_of};
ghost use Rattle.ii_definitions.specs.Tokens.{Piece, call_pieces, leaf_pieces, tokens_of};
ghost use Rattle.ii_definitions.specs.IndexCalls.{MayAllBeIndexed, Takes, call_of, doc_of, field_of, type_of};
ghost use Rattle.ii_indexing.specs.IndexFiles.{FilesGrow, WroteIndex};
ghost use Rattle.ii_indexing.specs.Indexer.{Stores};
ghost use Rattle.ii_indexing.specs.Refusals.{call_fault, calls_fault, leaf_fault};
ghost use Rattle.ii_promises.specs.DeepValues.{in_arrays};

use ii_io::{CountedCalls, FailingWriter};
use ii_ram::{
    DocId, Fault, Field, IndexCall, IndexWriters, Indexer, JsonValue, Schema, TextAnalyzer,
    ValueType, write_index,
};
use std::alloc::Global;
use std::io::Write;

/// Calls in document order are written. After success the four files hold the tokens of the calls and
/// their norms, after their earlier bytes.
pub fn calls_are_written<A: TextAnalyzer, W: Write>(
    alloc: Global,
    schema: Schema,
    num_docs: DocId,
    calls: Vec<IndexCall>,
    analyzer: &A,
    writers: IndexWriters<W>,
) -> (IndexWriters<W>, Result<(), Fault>)
    requires docs { num_docs ≤ 2147483647 }
    requires calls { MayAllBeIndexed schema num_docs calls.items }
    ensures wrote { OnOk result.1 (WroteIndex schema num_docs writers result.0 (tokens_of (A.words analyzer.now) (map (call_of schema) calls.items))) }
    ensures grow { FilesGrow writers result.0 }
{
    write_index(alloc, schema, num_docs, calls, analyzer, writers)
}

/// The first refused call is reported, unless an allocation failed. Nothing is written then.
pub fn refused_calls_write_nothing<A: TextAnalyzer, W: Write>(
    alloc: Global,
    schema: Schema,
    num_docs: DocId,
    calls: Vec<IndexCall>,
    analyzer: &A,
    writers: IndexWriters<W>,
) -> (IndexWriters<W>, Result<(), Fault>)
    requires docs { num_docs ≤ 2147483647 }
    requires calls { MayAllBeIndexed schema num_docs calls.items }
    ensures { IfSome (calls_fault (A.words analyzer.now) (option_of schema) [] (map (call_of schema) calls.items))
        (λ fault. ((result.1 ≡ Err fault) ⊎ (result.1 ≡ Err Fault.OutOfMemory)) × (result.0 ≡ writers)) }
{
    write_index(alloc, schema, num_docs, calls, analyzer, writers)
}

/// `Write` is returned exactly if the number of failed calls of the four writers rose. It then rose
/// by one.
pub fn failed_writes_are_told_once<A: TextAnalyzer, W: Write>(
    alloc: Global,
    schema: Schema,
    num_docs: DocId,
    calls: Vec<IndexCall>,
    analyzer: &A,
    writers: IndexWriters<W>,
) -> (IndexWriters<W>, Result<(), Fault>)
    requires docs { num_docs ≤ 2147483647 }
    requires calls { MayAllBeIndexed schema num_docs calls.items }
    ensures told { IsErrOf result.1 Fault.Write
        ↔ (writers.terms.failed_calls + writers.postings.failed_calls + writers.positions.failed_calls + writers.fieldnorms.failed_calls
        < result.0.terms.failed_calls + result.0.postings.failed_calls + result.0.positions.failed_calls + result.0.fieldnorms.failed_calls) }
    ensures once { IsErrOf result.1 Fault.Write → result.0.terms.failed_calls + result.0.postings.failed_calls + result.0.positions.failed_calls + result.0.fieldnorms.failed_calls
        ≡ writers.terms.failed_calls + writers.postings.failed_calls + writers.positions.failed_calls + writers.fieldnorms.failed_calls + 1 }
{
    write_index(alloc, schema, num_docs, calls, analyzer, writers)
}

/// An indexer that accepts a call adds its tokens to those of earlier calls. An indexer that refuses
/// a call has failed.
pub fn calls_are_taken_or_fail<A: TextAnalyzer>(
    indexer: &mut Indexer,
    call: IndexCall,
    analyzer: &A,
) -> Result<(), Fault>
    requires running { indexer.old.failed ≡ false }
    requires order { indexer.old.last_doc ≤ doc_of call }
    requires below { doc_of call < indexer.old.num_docs }
    requires takes { Takes indexer.old.schema (field_of call) (type_of call) }
    ensures stored { OnOk result ((ps : List Piece) → Stores indexer.old ps → Stores indexer.new (ps ++ call_pieces (A.words analyzer.now) (call_of indexer.old.schema call))) }
    ensures order { OnOk result ((indexer.new.last_doc ≡ doc_of call) × (indexer.new.failed ≡ false)) }
    ensures fails { OnErr result (indexer.new.failed ≡ true) }
{
    indexer.index(call, analyzer)
}

/// Each call may have its own analyzer, whose words are stored.
pub fn each_call_has_its_analyzer<A: TextAnalyzer, B: TextAnalyzer>(
    indexer: &mut Indexer,
    first: IndexCall,
    one: &A,
    second: IndexCall,
    other: &B,
) -> Result<(), Fault>
    requires running { indexer.old.failed ≡ false }
    requires order { (indexer.old.last_doc ≤ doc_of first) × (doc_of first ≤ doc_of second) }
    requires below { (doc_of first < indexer.old.num_docs) × (doc_of second < indexer.old.num_docs) }
    requires takes { Takes indexer.old.schema (field_of first) (type_of first) × Takes indexer.old.schema (field_of second) (type_of second) }
    ensures stored { OnOk result ((ps : List Piece) → Stores indexer.old ps
        → Stores indexer.new ((ps ++ call_pieces (A.words one.now) (call_of indexer.old.schema first)) ++ call_pieces (B.words other.now) (call_of indexer.old.schema second))) }
    ensures fault { (ps : List Piece) → Stores indexer.old ps → IfErr result (λ e. (e ≡ Fault.OutOfMemory)
        ⊎ (call_fault (A.words one.now) (option_of indexer.old.schema (field_of first)) ps (call_of indexer.old.schema first) ≡ Some e)
        ⊎ (call_fault (B.words other.now) (option_of indexer.old.schema (field_of second)) (ps ++ call_pieces (A.words one.now) (call_of indexer.old.schema first)) (call_of indexer.old.schema second) ≡ Some e)) }
{
    indexer.index(first, one)?;
    indexer.index(second, other)
}

/// A leaf in any number of nested arrays is indexed as it is without them.
pub fn deep_values_are_indexed<A: TextAnalyzer>(
    indexer: &mut Indexer,
    doc: DocId,
    field: Field,
    value: JsonValue,
    analyzer: &A,
) -> Result<(), Fault>
    requires running { indexer.old.failed ≡ false }
    requires order { indexer.old.last_doc ≤ doc }
    requires below { doc < indexer.old.num_docs }
    requires takes { Takes indexer.old.schema field ValueType.Json }
    ensures stored { OnOk result ((levels : ℕ) (l : Leaf) (ps : List Piece) → json_of value ≡ in_arrays levels l → Stores indexer.old ps
        → Stores indexer.new (ps ++ leaf_pieces (A.words analyzer.now) doc field ([], l))) }
    ensures fault { (levels : ℕ) (l : Leaf) (ps : List Piece) → json_of value ≡ in_arrays levels l → Stores indexer.old ps
        → IfErr result (λ e. (e ≡ Fault.OutOfMemory) ⊎ (leaf_fault (A.words analyzer.now) (option_of indexer.old.schema field) ps doc field ([], l) ≡ Some e)) }
{
    indexer.index(IndexCall::Json(doc, field, value), analyzer)
}

/// A failed indexer refuses each call, and is unchanged.
pub fn failed_indexers_stay<A: TextAnalyzer>(
    indexer: &mut Indexer,
    call: IndexCall,
    analyzer: &A,
) -> Result<(), Fault>
    requires { indexer.old.failed ≡ true }
    ensures refused { result ≡ Err Fault.IndexerFailed }
    ensures stays { indexer.new ≡ indexer.old }
{
    indexer.index(call, analyzer)
}

/// A failed indexer writes nothing.
pub fn failed_indexers_write_nothing<W: Write>(
    indexer: Indexer,
    writers: IndexWriters<W>,
) -> (IndexWriters<W>, Result<(), Fault>)
    requires { indexer.failed ≡ true }
    ensures refused { result.1 ≡ Err Fault.IndexerFailed }
    ensures stays { result.0 ≡ writers }
{
    indexer.finish(writers)
}

/// Exactly the failed calls of a writer are counted, of a write of some bytes and a flush. The writer
/// knows how many of its calls failed.
pub fn failed_calls_are_counted(
    alloc: Global,
    failing_call: u64,
    bytes: &[u8],
) -> (FailingWriter, u64, Result<(), Fault>)
    ensures { result.0.failures ≡ result.1 }
{
    let mut writer = CountedCalls::wrap(FailingWriter::new(alloc, failing_call));
    let written = writer.write_all(bytes);
    let flushed = writer.flush();
    let failed_calls = writer.failed_calls();
    (writer.finish(), failed_calls, written.and(flushed))
}
