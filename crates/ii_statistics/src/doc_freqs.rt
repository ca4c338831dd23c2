//! How many living documents of segments have a term.
ghost use Rattle.std.specs.Prelude.{◌≡◌, ◌<◌, ◌^◌, IfErr, IfOk, OnOk, length, map};
ghost use Rattle.ii_base.specs.declared.schema.index_record_option.IndexRecordOption.TheVariants.{Basic};
ghost use Rattle.ii_docset.specs.Alive.{alive_in};
ghost use Rattle.ii_docset.specs.Cursor.{IsAscending};
ghost use Rattle.ii_query_parser.specs.declared.query.Query.TheVariants as queries;
ghost use Rattle.ii_ranking.specs.Scores.{IsScoreFault, damage_of};
ghost use Rattle.ii_ranking.specs.Segments.{segment_of};
ghost use Rattle.ii_reader.specs.InvertedIndexReader.{IsRefusal};
ghost use Rattle.ii_search.specs.Found.{docs_of_term};
ghost use Rattle.ii_segment_search.specs.Searcher.{found_from, total_living};
ghost use Rattle.ii_segments.specs.Segments.{is_living};
ghost use Rattle.ii_statistics.specs.Listed.{IsListedInEach, CountsLiving, HaveField};
ghost use Rattle.ii_statistics.specs.Statistics.{doc_freq_in};

use ii_alive::AliveBits;
use ii_base::{DocId, Fault, IndexRecordOption, Term};
use ii_docset::{DocSet, TERMINATED};
use ii_ranking::RankedSegment;
use ii_reader::OpenIndex;
use ii_search::postings_of;

// Returns how many living documents of segments have a term. Its field must be one of each segment, and there must be
// fewer than 2^32 living documents.
//
// Returns the first corrupt part of the term's list, segment by segment, or `OutOfMemory`.
pub(crate) fn doc_freq(segments: &[RankedSegment<'_>], term: &Term) -> Result<u64, Fault>
    requires field { HaveField (map segment_of segments.now) term.now.field }
    requires few { total_living (map segment_of segments.now) < 2 ^ 32 }
    ensures counted { IfOk result (λ n. n ≡ doc_freq_in (map segment_of segments.now) term.now) }
    ensures listed { OnOk result (IsListedInEach (map segment_of segments.now) term.now) }
    ensures fault { IfErr result (IsScoreFault (damage_of (found_from (queries.Term term.now) 0 (map segment_of segments.now)))) }
{
    let mut total = 0u64;
    for place in 0..segments.len() {
        let segment = segments[place];
        let more = match living_doc_freq(segment.index, segment.alive, term) {
            Ok(more) => more,
            Err(fault) => return Err(fault),
        };
        total += u64::from(more);
    }
    Ok(total)
}

// Returns how many living documents of a segment have a term, or the first corrupt part of the term's list.
fn living_doc_freq(index: &OpenIndex, alive: &AliveBits, term: &Term) -> Result<u32, Fault>
    requires field { term.now.field < length index.now.readers }
    ensures counted { IfOk result (CountsLiving (docs_of_term Basic index.now term.now) alive.now) }
    ensures refused { IfErr result (IsRefusal (docs_of_term Basic index.now term.now)) }
{
    let mut cursor = match postings_of(index, term, IndexRecordOption::Basic) {
        Ok(cursor) => cursor,
        Err(fault) => return Err(fault),
    };
    let count = count_living(&mut cursor, alive);
    drop(cursor);
    Ok(count)
}

// Counts the remaining documents that are alive, and drops all.
fn count_living<C: DocSet>(cursor: &mut C, alive: &AliveBits) -> u32
    ensures counted { result ≡ alive_in alive.now (C.rest cursor.old) }
    ensures ascending { IsAscending (C.rest cursor.old) }
{
    let mut count = 0;
    let mut doc = cursor.doc();
    while doc != TERMINATED {
        count += u32::from(is_living(alive, doc));
        doc = cursor.advance();
    }
    count
}

// Returns whether a document is alive; one that the flags don't cover isn't.
fn is_living(alive: &AliveBits, doc: DocId) -> bool
    ensures { result ≡ is_living alive.now doc }
{
    if doc >= alive.num_docs() {
        return false;
    }
    alive.is_alive(doc)
}
