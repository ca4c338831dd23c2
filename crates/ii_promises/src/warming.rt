// What a query finds in what is read of the files of an index.
ghost use Rattle.std.specs.Prelude.{◌≡◌, ◌⊎◌, ℕ, List, true, length, IfErr, IfOk};
ghost use Rattle.ii_docset.specs.Cursor.{IsAscending};
ghost use Rattle.ii_docset.specs.Intersection.{has_doc};
ghost use Rattle.ii_definitions.specs.Fields.{option_of};
ghost use Rattle.ii_definitions.specs.Files.{HoldTokens};
ghost use Rattle.ii_definitions.specs.Norms.{HoldNorms};
ghost use Rattle.ii_definitions.specs.Tokens.{IndexToken};
ghost use Rattle.ii_io.specs.declared.faults.Fault.TheVariants as faults;
ghost use Rattle.ii_io.specs.declared.faults.LimitName.TheVariants.{Offset};
ghost use Rattle.ii_query_parser.specs.Queries.{has_fields, keeps_positions, matches};

use bytes::Bytes;
use ii_file_slice::FileFault;
use ii_ram::{Query, QueryCursor, Schema, SegmentPostings, TermOrPhrase, search};
use ii_warmup::{EnableScoring, IndexHandles, SearchHints, warm_up};
use std::alloc::Global;

/// A query finds exactly the documents whose tokens match it, in ascending order, in a small index that has just what
/// the query reads of four files with tokens and their norms. It fails only with `OutOfMemory`, or if a dictionary of
/// the small index would have 2^64 bytes or more.
#[tactic(auto, using(crate::proofs::SearchingLaws::same_fields, crate::proofs::SearchingLaws::found_ascend))]
pub fn queries_find_the_same_when_warmed_up(
    alloc: Global,
    files: &IndexHandles<'_, Bytes>,
    schema: &Schema,
    query: &Query,
) -> Result<QueryCursor<TermOrPhrase<SegmentPostings>>, FileFault>
    requires fields { has_fields (length schema.now) query.now ≡ true }
    requires positions { keeps_positions schema.now query.now ≡ true }
    ensures ascending { IfOk result (λ cursor. IsAscending cursor.rest) }
    ensures found { (tokens : List IndexToken) → (num_docs : ℕ) → HoldTokens (option_of schema.now) files.now.terms.now files.now.postings.now files.now.positions.now tokens → HoldNorms schema.now num_docs files.now.fieldnorms.now tokens
        → IfOk result (λ cursor. (doc : ℕ) → has_doc cursor.rest doc ≡ matches query.now tokens doc) }
    ensures fault { (tokens : List IndexToken) → (num_docs : ℕ) → HoldTokens (option_of schema.now) files.now.terms.now files.now.postings.now files.now.positions.now tokens → HoldNorms schema.now num_docs files.now.fieldnorms.now tokens
        → IfErr result (λ e. (e ≡ FileFault.Index faults.OutOfMemory) ⊎ (e ≡ FileFault.Index (faults.Limit Offset))) }
{
    let mut hints = SearchHints::new(alloc);
    let part = match warm_up(
        alloc,
        files,
        schema,
        query,
        EnableScoring::Disabled,
        &mut hints,
    ) {
        Ok(part) => part,
        Err(fault) => return Err(fault),
    };
    match search(alloc, &part, query) {
        Ok(cursor) => Ok(cursor),
        Err(fault) => Err(FileFault::Index(fault)),
    }
}
