// Limits of the texts of a document, and an indexer after a failed call.
ghost use Rattle.std.specs.Prelude.{◌≡◌, ◌≤◌, false};
ghost use Rattle.ii_definitions.specs.IndexCalls.{MayBeIndexed, doc_of};

use crate::memory_index::{
    Call, FULL, Kind, Leaf, Place, Said, call_of, may_be_indexed, schema_of, tokens_at,
};
use ii_base::{AsciiTokenizer, Fault, LeafKind, LimitName};
use ii_indexing::{
    IndexCall, IndexWriters, Indexer, IndexingContext, IndexingPosition, IndexingTerm,
    PostingsWriter, SpecializedPostingsWriter,
};
use std::alloc::Global;
use std::test::Fail;

const LIMIT_POSITION: Fault = Fault::Limit(LimitName::Position);

// Tokens and end position of a document so far, a further list of tokens, and the same after it or the error.
static LIMITS: [(u32, u32, &[Place], Result<(u32, u32), Fault>); 8] = [
    // the order in which limits are checked
    (
        u32::MAX,
        0,
        &[(0, 1, 1)],
        Err(Fault::Limit(LimitName::Tokens)),
    ),
    (u32::MAX, 0, &[(4294967296, 1, 1)], Err(LIMIT_POSITION)),
    // the limit of a gap
    (0, u32::MAX, &[], Err(LIMIT_POSITION)),
    (0, u32::MAX - 1, &[], Ok((0, u32::MAX))),
    // the same after tokens
    (0, 0, &[(4294967294, 1, 1)], Err(LIMIT_POSITION)),
    (0, 0, &[(4294967293, 1, 1)], Ok((1, u32::MAX))),
    // long tokens are skipped
    (0, 0, &[(usize::MAX, 1, 65531)], Ok((0, 1))),
    (0, 0, &[(0, 1, 65530)], Ok((1, 2))),
];

// Returns the result of indexing a list of tokens.
fn index_text(
    alloc: Global,
    num_tokens: u32,
    end_position: u32,
    places: &[Place],
) -> Result<Result<(u32, u32), Fault>, Fault> {
    let mut term = IndexingTerm::with_capacity(alloc, 0)?;
    let mut tokens = tokens_at(alloc, places)?;
    let mut ctx = IndexingContext::new(alloc);
    let mut position = IndexingPosition {
        num_tokens,
        end_position,
    };
    let mut writer = SpecializedPostingsWriter::new(FULL);
    let answer = writer.index_text(0, &mut tokens, &mut term, &mut ctx, &mut position);
    drop(ctx);
    drop(tokens);
    drop(term);
    Ok(match answer {
        Ok(()) => Ok((position.num_tokens, position.end_position)),
        Err(fault) => Err(fault),
    })
}

#[test]
fn texts_of_a_document_have_limits(rt: HostRuntime) -> Result<(), Fail> {
    for row in &LIMITS {
        let (num_tokens, end_position, places, wanted) = *row;
        let found = index_text(rt.alloc(), num_tokens, end_position, places)?;
        assert!(rt; found == wanted, "{num_tokens} tokens up to {end_position}");
    }
    Ok(())
}

// A text field with norms, and a JSON field.
static FIELDS: [Kind; 2] = [Kind::Text(true), Kind::Json(false)];

// A token at position 0 of document 8.
static LAST: Call = (8, 0, Said::Tokens(&[(0, 1, 1)]));

// Returns the results of a new indexer for two calls.
fn answers_of(
    indexer: &mut Indexer,
    first: IndexCall,
    second: IndexCall,
) -> (Result<(), Fault>, Result<(), Fault>)
    requires ready { (indexer.old.failed ≡ false) × (indexer.old.last_doc ≡ 0) × (indexer.old.num_docs ≡ 9) }
    requires first { MayBeIndexed indexer.old.schema 9 first }
    requires second { MayBeIndexed indexer.old.schema 9 second }
    requires order { doc_of first ≤ doc_of second }
{
    match indexer.index(first, &AsciiTokenizer) {
        Ok(()) => (Ok(()), indexer.index(second, &AsciiTokenizer)),
        Err(fault) => (Err(fault), indexer.index(second, &AsciiTokenizer)),
    }
}

// Returns these results for a call and the token after it, the result of finishing, and the length of the file
// of postings.
fn run(alloc: Global, call: &Call) -> Result<([Result<(), Fault>; 3], u64), Fault> {
    let schema = schema_of(alloc, &FIELDS)?;
    let (first, second) = (call_of(alloc, call)?, call_of(alloc, &LAST)?);
    if first.doc() > second.doc() {
        return Err(Fault::IndexerFailed);
    }
    if !may_be_indexed(&schema, 9, &first) || !may_be_indexed(&schema, 9, &second) {
        return Err(Fault::IndexerFailed);
    }
    let mut indexer = Indexer::new(alloc, schema, 9)?;
    let (one, other) = answers_of(&mut indexer, first, second);
    let (files, finished) = indexer.finish(IndexWriters::in_memory(alloc));
    let len = files.postings.written_bytes();
    drop(files);
    Ok(([one, other, finished], len))
}

// The length of the number of tokens, the postings of documents with counts 2 and 1, and the table.
const LEN: u64 = 36;

// A call, the results, and the length.
static RUNS: [(Call, [Result<(), Fault>; 3], u64); 4] = [
    (
        (0, 0, Said::Tokens(&[(5, 1, 1), (5, 1, 1)])),
        [Ok(()), Ok(()), Ok(())],
        LEN,
    ),
    // positions must not decrease
    (
        (0, 0, Said::Tokens(&[(5, 1, 1), (4, 1, 1)])),
        [
            Err(Fault::DecreasingPosition),
            Err(Fault::IndexerFailed),
            Err(Fault::IndexerFailed),
        ],
        0,
    ),
    // a token of length 0 at the last position
    (
        (0, 0, Said::Tokens(&[(4294967295, 0, 1)])),
        [
            Err(LIMIT_POSITION),
            Err(Fault::IndexerFailed),
            Err(Fault::IndexerFailed),
        ],
        0,
    ),
    // a float after a number
    (
        (
            0,
            1,
            Said::Object(&[
                ("a", Leaf::Number(1)),
                ("b", Leaf::Float(4607182418800017408)),
            ]),
        ),
        [
            Err(Fault::UnsupportedLeaf(LeafKind::Float)),
            Err(Fault::IndexerFailed),
            Err(Fault::IndexerFailed),
        ],
        0,
    ),
];

#[test]
fn an_indexer_that_refused_a_call_has_failed(rt: HostRuntime) -> Result<(), Fail> {
    for row in &RUNS {
        let (call, wanted, wanted_len) = row;
        assert!(rt; run(rt.alloc(), call)? == (*wanted, *wanted_len));
    }
    Ok(())
}
