//! The scores of the documents that have a term in a range, or a phrase whose last term is one of a range.
ghost use Rattle.std.specs.Prelude.{◌≡◌, IfErr, None, OnOk, Some, if◌then◌else◌, length, true};
ghost use Rattle.ii_bm25.specs.declared.bm25.TheConstants.{SCORE_ONE};
ghost use Rattle.ii_docset.specs.Intersection.{has_doc};
ghost use Rattle.ii_query_parser.specs.Queries.{has_fields};
ghost use Rattle.ii_search.specs.Found.{found_in};
ghost use Rattle.ii_ranking.specs.Combinations.{AddsToEach};
ghost use Rattle.ii_ranking.specs.Scores.{IsScoreFault, damage_of, opened_or_none};

use crate::combination::add_at;
use ii_base::{Fault, TERMINATED};
use ii_bm25::{SCORE_ONE, Score};
use ii_docset::DocSet;
use ii_query_parser::Query;
use ii_reader::OpenIndex;
use ii_search::search;
use std::alloc::Global;

// Adds 1.0 to the score of each document that matches a query.
#[inline(never)]
pub(crate) fn add_found(
    alloc: Global,
    index: &OpenIndex,
    query: &Query,
    scores: &mut Vec<Option<Score>>,
) -> Result<(), Fault>
    requires fields { has_fields (length index.now.readers) query.now ≡ true }
    ensures added { OnOk result (AddsToEach (λ doc. if has_doc (opened_or_none (found_in index.now query.now)) doc then Some SCORE_ONE else None) scores.old.items scores.new.items) }
    ensures sound { OnOk result (damage_of (found_in index.now query.now) ≡ None) }
    ensures fault { IfErr result (IsScoreFault (damage_of (found_in index.now query.now))) }
{
    let mut cursor = search(alloc, index, query)?;
    add_docs(&mut cursor, scores);
    Ok(())
}

// Adds 1.0 to the score of each document of a cursor, which is at its end afterwards.
fn add_docs<D: DocSet>(cursor: &mut D, scores: &mut Vec<Option<Score>>)
    ensures { AddsToEach (λ doc. if has_doc (D.rest cursor.old) doc then Some SCORE_ONE else None) scores.old.items scores.new.items }
{
    let mut doc = cursor.doc();
    while doc < TERMINATED {
        add_at(scores, doc, Some(SCORE_ONE));
        doc = cursor.advance();
    }
}
