//! Writes the best documents that a search finds.
ghost use Rattle.std.specs.Prelude.{◌≡◌, ◌-◌, ◌<◌, ◌^◌, IfErr, IfOk, None, OnOk, length, map, min, string_bytes, true};
ghost use Rattle.std.specs.List.{AllZip, list_all};
ghost use Rattle.ii_io.specs.Faults.{OnlyMemory};
ghost use Rattle.ii_query_parser.specs.Queries.{has_fields};
ghost use Rattle.ii_segment_search.specs.Searcher.{HaveFields, total_living};
ghost use Rattle.ii_ranking.specs.Scores.{IsScoreFault};
ghost use Rattle.ii_ranking.specs.Segments.{segment_of, segments_damage, segments_scored};
ghost use Rattle.ii_scorer.specs.TopDocs.{AreBest};
ghost use Rattle.ii_statistics.specs.Statistics.{query_statistics, ranking_damage, segments_statistics};
ghost use Rattle.nequllpa_searching.specs.Explained.{AreExplained, IsExplained};
ghost use Rattle.nequllpa_searching.specs.OpenedNumbers.{best_damage, may_rank, open_segment, opened_scored, rankable, totals_of};
ghost use Rattle.nequllpa_opening.specs.RowFormats.{is_json};

use crate::counting::count_all;
use crate::explaining::explanations;
use crate::field_totals::{FieldTotals, field_totals};
use crate::listing::write_id;
use crate::places::SourceLines;
use crate::stored_part::{StoredPart, StoredParts, words_for};
use ii_base::{Fault, Schema};
use ii_docset::DocId;
use ii_explanation::push_score;
use ii_ranking::{RankedSegment, Score, TopDocs, search_segments};
use ii_search::Query;
use ii_statistics::{QueryStatistics, statistics_of};
use nequllpa_opening::{
    AnswerFault, IdSource, Opened, OpenedIndex, RowFormat, document, ids_of, segment_stores,
};
use std::alloc::Global;
use std::io::Write;

/// How the best documents are written, one after the other.
#[derive(Clone, Copy, Debug)]
pub struct BestListing<'a, 'n> {
    /// The maximum number of documents.
    pub limit: u32,
    /// How each is written.
    pub format: RowFormat,
    /// Whether what its score is made of is written after it.
    pub with_explanations: bool,
    /// Where the id is read that is written instead of a document's number.
    pub ids: Option<IdSource>,
    /// What of the stored document is written instead of its number.
    pub stored: StoredPart<'a, 'n>,
}

/// Writes the best documents that match a query, the best first, in lines or as JSON objects with a comma after each.
/// Returns whether any document matches, even if the limit is 0.
///
/// A line of words has the document's number, or instead its id, `-` if it has none, and after a tab its score with
/// four decimals. A JSON line is an object with `doc`; with `id` (a string or null) if ids are requested; with
/// `score`, and `units`, which is the score in units of 2^-38. If explanations are requested, what the score is made of
/// follows (`push_shares`): a line of words for each part of the query, or a member `explain`. If stored documents are
/// requested, a line of words has the document in place of its number, and a JSON line has it as `source`, at its end. If
/// fields of them are, these are in its place, and the member is `fields`. If snippets are, a line of words has the snippet
/// of the document (`snippet_of_line`) after its score and a tab, and the member is `snippet`. If places are, a line of
/// words has the file and the number of the document's line in place of its number, `-` if it has none, and the member is
/// `place`, an object with `file`, `line` and `byte`, or null; their snippets are of lines of `files`.
pub fn write_best<W: Write, L: SourceLines>(
    alloc: Global,
    out: &mut W,
    opened: &OpenedIndex,
    query: &Query,
    how: &BestListing<'_, '_>,
    files: &L,
) -> Result<bool, AnswerFault> {
    if how.limit == 0 {
        return Ok(count_all(alloc, opened.segments(), query)? > 0);
    }
    let best = match best_docs(alloc, opened, query, how) {
        Ok(best) => best,
        Err(fault) => return Err(AnswerFault::Index(fault)),
    };
    let any = !best.docs.is_empty();
    let ids = match &how.ids {
        Some(source) => ids_of_best(alloc, opened, source, &best.docs),
        None => Ok(Vec::new(alloc)),
    };
    let ids = match ids {
        Ok(ids) => ids,
        Err(fault) => {
            drop(best);
            return Err(fault);
        }
    };
    let written = match how.stored {
        StoredPart::Nothing => write_rows(alloc, out, how, &best, &ids),
        _ => write_parts(alloc, out, opened, query, how, files, &best),
    };
    drop(ids);
    drop(best);
    match written {
        Ok(()) => Ok(any),
        Err(fault) => Err(fault),
    }
}

// The best documents, each with its score, and, if requested, what each score is made of, as text.
#[derive(Drop)]
struct Best {
    docs: Vec<(Score, DocId)>,
    explanations: Vec<String>,
}

// Returns the best documents that match a query, by the exact numbers of all living documents; none if a segment doesn't
// have a field of the query, or there are 2^32 living documents or more.
//
// Returns the first damaged part of what is needed: of the numbers of tokens, of the documents of each term of the query,
// and then of what the scores need, segment by segment; or `OutOfMemory`.
fn best_docs(
    alloc: Global,
    opened: &OpenedIndex,
    query: &Query,
    how: &BestListing<'_, '_>,
) -> Result<Best, Fault>
    ensures best { IfOk result (λ best. AreBest (record { limit = how.now.limit; offset = 0 }) (opened_scored (rankable query.now opened.now.segments.items) query.now) best.docs.items) }
    ensures explained { how.now.with_explanations ≡ true → IfOk result (λ best. AreExplained (rankable query.now opened.now.segments.items) query.now (is_json how.now.format) opened.now.schema best.docs.items (map string_bytes best.explanations.items)) }
    ensures sound { OnOk result (best_damage (rankable query.now opened.now.segments.items) query.now ≡ None) }
    ensures fault { IfErr result (IsScoreFault (best_damage (rankable query.now opened.now.segments.items) query.now)) }
{
    let segments = rankable(opened.segments(), query);
    best_of_segments(alloc, opened.schema(), segments, query, how)
}

// Returns the segments that are ranked: all, or none if they can't be.
fn rankable<'a>(segments: &'a [Opened], query: &Query) -> &'a [Opened]
    ensures ranked { result.now ≡ rankable query.now segments.now }
    ensures may { may_rank query.now result.now ≡ true }
{
    let (ranked, _) = segments.split_at(num_rankable(segments, query));
    ranked
}

// Returns how many segments are ranked: all, or none if they can't be.
fn num_rankable(segments: &[Opened], query: &Query) -> usize
    ensures { result ≡ length (rankable query.now segments.now) }
{
    if !have_fields(segments, query) {
        return 0;
    }
    if num_living(segments) > u64::from(u32::MAX) {
        return 0;
    }
    segments.len()
}

// Returns whether each segment has the fields of a query.
fn have_fields(segments: &[Opened], query: &Query) -> bool
    ensures { result ≡ list_all (λ o. has_fields (length o.index.readers) query.now) segments.now }
{
    for place in 0..segments.len() {
        let segment = &segments[place];
        // that there is a reader for each field of the schema, for the proof
        let _index = segment.index();
        if !query.has_fields(segment.schema()) {
            return false;
        }
    }
    true
}

// Returns how many documents of segments are alive, at most 2^64 - 1.
fn num_living(segments: &[Opened]) -> u64
    ensures { result ≡ min (2 ^ 64 - 1) (total_living (map open_segment segments.now)) }
{
    let mut total = 0u64;
    for place in 0..segments.len() {
        total = total.saturating_add(u64::from(segments[place].num_living()));
    }
    total
}

// Returns the best documents of segments that can be ranked.
fn best_of_segments(
    alloc: Global,
    schema: &Schema,
    segments: &[Opened],
    query: &Query,
    how: &BestListing<'_, '_>,
) -> Result<Best, Fault>
    requires { may_rank query.now segments.now ≡ true }
    ensures best { IfOk result (λ best. AreBest (record { limit = how.now.limit; offset = 0 }) (opened_scored segments.now query.now) best.docs.items) }
    ensures explained { how.now.with_explanations ≡ true → IfOk result (λ best. AreExplained segments.now query.now (is_json how.now.format) schema.now best.docs.items (map string_bytes best.explanations.items)) }
    ensures sound { OnOk result (best_damage segments.now query.now ≡ None) }
    ensures fault { IfErr result (IsScoreFault (best_damage segments.now query.now)) }
{
    let totals = match field_totals(alloc, segments, query) {
        Ok(totals) => totals,
        Err(fault) => return Err(fault),
    };
    let ranked = match sources_of(alloc, segments) {
        Ok(ranked) => ranked,
        Err(fault) => return Err(fault),
    };
    match best_by(alloc, schema, ranked.as_slice(), &totals, query, how) {
        Ok(best) => Ok(best),
        Err(fault) => Err(fault),
    }
}

// Returns the best documents of segments, by their exact numbers, given those of their tokens.
fn best_by(
    alloc: Global,
    schema: &Schema,
    segments: &[RankedSegment<'_>],
    totals: &FieldTotals,
    query: &Query,
    how: &BestListing<'_, '_>,
) -> Result<Best, Fault>
    requires fields { HaveFields query.now (map segment_of segments.now) }
    requires few { total_living (map segment_of segments.now) < 2 ^ 32 }
    ensures best { IfOk result (λ best. AreBest (record { limit = how.now.limit; offset = 0 }) (segments_scored (segments_statistics (totals_of totals.now) (map segment_of segments.now)) query.now 0 (map segment_of segments.now)) best.docs.items) }
    ensures explained { how.now.with_explanations ≡ true → IfOk result (λ best. AllZip (IsExplained (segments_statistics (totals_of totals.now) (map segment_of segments.now)) query.now (map segment_of segments.now) (is_json how.now.format) schema.now) best.docs.items (map string_bytes best.explanations.items)) }
    ensures sound { OnOk result (ranking_damage (map segment_of segments.now) query.now ≡ None) }
    ensures fault { IfErr result (IsScoreFault (ranking_damage (map segment_of segments.now) query.now)) }
{
    let statistics = match statistics_of(alloc, segments, totals, query) {
        Ok(statistics) => statistics,
        Err(fault) => return Err(fault),
    };
    match best_of(alloc, schema, segments, &statistics, query, how) {
        Ok(best) => Ok(best),
        Err(fault) => Err(fault),
    }
}

// Returns the best documents of segments that match a query.
fn best_of(
    alloc: Global,
    schema: &Schema,
    segments: &[RankedSegment<'_>],
    statistics: &QueryStatistics<'_>,
    query: &Query,
    how: &BestListing<'_, '_>,
) -> Result<Best, Fault>
    requires fields { HaveFields query.now (map segment_of segments.now) }
    requires few { total_living (map segment_of segments.now) < 2 ^ 32 }
    ensures best { IfOk result (λ best. AreBest (record { limit = how.now.limit; offset = 0 }) (segments_scored (query_statistics statistics.now) query.now 0 (map segment_of segments.now)) best.docs.items) }
    ensures explained { how.now.with_explanations ≡ true → IfOk result (λ best. AllZip (IsExplained (query_statistics statistics.now) query.now (map segment_of segments.now) (is_json how.now.format) schema.now) best.docs.items (map string_bytes best.explanations.items)) }
    ensures sound { OnOk result (segments_damage query.now (map segment_of segments.now) ≡ None) }
    ensures fault { IfErr result (IsScoreFault (segments_damage query.now (map segment_of segments.now))) }
{
    let limit = TopDocs::with_limit(how.limit as usize);
    let docs = search_segments(alloc, segments, statistics, query, &limit)?;
    let explained = match how.with_explanations {
        true => explanations(
            alloc, schema, how.format, segments, statistics, query, &docs,
        )?,
        false => Vec::new(alloc),
    };
    Ok(Best {
        docs,
        explanations: explained,
    })
}

// Returns segments to rank.
fn sources_of<'a>(alloc: Global, segments: &'a [Opened]) -> Result<Vec<RankedSegment<'a>>, Fault>
    ensures same { IfOk result (λ sources. map segment_of sources.items ≡ map open_segment segments.now) }
    ensures only { OnlyMemory result }
{
    let mut sources = Vec::new(alloc);
    for place in 0..segments.len() {
        sources.push(source_of(&segments[place]))?;
    }
    Ok(sources)
}

// Returns a segment to rank.
fn source_of(segment: &Opened) -> RankedSegment<'_>
    ensures { segment_of result ≡ open_segment segment.now }
{
    RankedSegment {
        index: segment.index(),
        alive: segment.alive(),
    }
}

// Returns the id of each of the best documents, an empty text if it has none.
fn ids_of_best(
    alloc: Global,
    opened: &OpenedIndex,
    source: &IdSource,
    best: &[(Score, DocId)],
) -> Result<Vec<String>, AnswerFault> {
    let mut texts = Vec::new(alloc);
    for _ in best {
        texts.push(String::new(alloc))?;
    }
    let mut base: u32 = 0;
    for (place, segment) in opened.segments().iter().enumerate() {
        put_ids(alloc, (place, segment), source, base, best, &mut texts)?;
        base = base.saturating_add(segment.num_living());
    }
    Ok(texts)
}

// Sets the ids of the best documents that are in a segment, given the number of its first living document.
fn put_ids(
    alloc: Global,
    placed: (usize, &Opened),
    source: &IdSource,
    base: u32,
    best: &[(Score, DocId)],
    texts: &mut Vec<String>,
) -> Result<(), AnswerFault> {
    let segment = placed.1;
    let mut docs = Vec::new(alloc);
    for pair in best {
        if let Some(doc) = doc_of_number(segment, base, pair.1) {
            docs.push(doc)?;
        }
    }
    docs.sort_unstable();
    let ids = ids_of(alloc, placed, *source, &docs)?;
    for (place, pair) in best.iter().enumerate() {
        let Some(doc) = doc_of_number(segment, base, pair.1) else {
            continue;
        };
        let Ok(found) = docs.binary_search(&doc) else {
            continue;
        };
        if let (Some(id), Some(text)) = (ids.at(found), texts.get_mut(place)) {
            text.push_str(id)?;
        }
    }
    Ok(())
}

// Returns the document of a segment that has a number in the index, if it is one of the segment's.
fn doc_of_number(segment: &Opened, base: u32, number: DocId) -> Option<DocId> {
    let rank = number.checked_sub(base)?;
    if rank >= segment.alive().num_living() {
        return None;
    }
    Some(segment.alive().select(rank))
}

// Writes what is requested of each of the best documents.
fn write_parts<W: Write, L: SourceLines>(
    alloc: Global,
    out: &mut W,
    opened: &OpenedIndex,
    query: &Query,
    how: &BestListing<'_, '_>,
    files: &L,
    best: &Best,
) -> Result<(), AnswerFault> {
    let words = words_for(alloc, how.stored, query)?;
    let parts = StoredParts::new(opened, how.stored, how.format, &words);
    let written = write_sources(alloc, out, opened, &parts, files, best);
    drop(words);
    written
}

// Writes what is requested of the stored document, and the score, of each of the best documents.
fn write_sources<W: Write, L: SourceLines>(
    alloc: Global,
    out: &mut W,
    opened: &OpenedIndex,
    parts: &StoredParts<'_, '_>,
    files: &L,
    best: &Best,
) -> Result<(), AnswerFault> {
    let stores = segment_stores(alloc, opened)?;
    let mut written = Ok(());
    for (place, pair) in best.docs.iter().enumerate() {
        if written.is_ok() {
            let explanation = text_at(&best.explanations, place);
            written = match document(&stores, u64::from(pair.1)) {
                Ok(document) => write_source(
                    alloc,
                    out,
                    parts,
                    files,
                    *pair,
                    document,
                    explanation,
                ),
                Err(fault) => Err(AnswerFault::Document(fault)),
            };
        }
    }
    drop(stores);
    written
}

// Writes what is requested of a stored document, with its score, and what the score is made of.
fn write_source<W: Write, L: SourceLines>(
    alloc: Global,
    out: &mut W,
    parts: &StoredParts<'_, '_>,
    files: &L,
    best: (Score, DocId),
    document: &[u8],
    explanation: &str,
) -> Result<(), AnswerFault> {
    let (score, doc) = best;
    if parts.format.is_json() {
        write!(out, "{{\"doc\":{doc}")?;
        write_score_members(alloc, out, score, explanation)?;
        parts.write_members(alloc, out, files, document)?;
        write!(out, "}}{}", parts.format.end())?;
        return Ok(());
    }
    parts.write_start(alloc, out, u64::from(doc), document)?;
    write!(out, "\t")?;
    write_score(alloc, out, score)?;
    parts.write_end(alloc, out, files, document)?;
    write!(out, "\n{explanation}")?;
    Ok(())
}

// Writes a line for each of the best documents.
fn write_rows<W: Write>(
    alloc: Global,
    out: &mut W,
    how: &BestListing<'_, '_>,
    best: &Best,
    ids: &[String],
) -> Result<(), AnswerFault> {
    for (place, pair) in best.docs.iter().enumerate() {
        let explanation = text_at(&best.explanations, place);
        write_row(alloc, out, how, *pair, text_at(ids, place), explanation)?;
    }
    Ok(())
}

// Returns the text at an index, an empty one if there is none.
fn text_at(texts: &[String], place: usize) -> &str {
    match texts.get(place) {
        Some(text) => text.as_str(),
        None => "",
    }
}

// Writes a document with its score, and what the score is made of; its id, if ids are requested, is empty if it has none.
fn write_row<W: Write>(
    alloc: Global,
    out: &mut W,
    how: &BestListing<'_, '_>,
    best: (Score, DocId),
    id: &str,
    explanation: &str,
) -> Result<(), AnswerFault> {
    let (score, doc) = best;
    if how.format.is_json() {
        write!(out, "{{\"doc\":{doc}")?;
        if how.ids.is_some() {
            write_id(alloc, out, some_id(id))?;
        }
        write_score_members(alloc, out, score, explanation)?;
        write!(out, "}}{}", how.format.end())?;
        return Ok(());
    }
    if how.ids.is_some() {
        write!(out, "{}\t", some_id(id).unwrap_or("-"))?;
    } else {
        write!(out, "{doc}\t")?;
    }
    write_score(alloc, out, score)?;
    write!(out, "\n{explanation}")?;
    Ok(())
}

// Returns an id, unless it is empty.
fn some_id(id: &str) -> Option<&str> {
    if id.is_empty() {
        return None;
    }
    Some(id)
}

// Writes a score as members of a JSON object, and the member that says what it is made of.
fn write_score_members<W: Write>(
    alloc: Global,
    out: &mut W,
    score: Score,
    explanation: &str,
) -> Result<(), AnswerFault> {
    write!(out, ",\"score\":")?;
    write_score(alloc, out, score)?;
    write!(out, ",\"units\":{score}{explanation}")?;
    Ok(())
}

// Writes a score with four decimals.
fn write_score<W: Write>(alloc: Global, out: &mut W, score: Score) -> Result<(), AnswerFault> {
    let mut text = String::new(alloc);
    push_score(&mut text, score)?;
    let written = out.write_all(text.as_bytes());
    drop(text);
    Ok(written?)
}
