//! The scores of the documents that have a phrase.
ghost use Rattle.std.specs.Prelude.{◌≡◌, ◌<◌, ◌∷◌, ℕ, List, Option, None, IfOk, IfErr, OnOk, length, map, true, nat_lt};
ghost use Rattle.std.specs.List.{AllByRecursion, list_all};
ghost use Rattle.std.specs.Option.{option_map};
ghost use Rattle.ii_io.specs.Composite.{body_of};
ghost use Rattle.ii_base.specs.declared.schema.index_record_option.IndexRecordOption.TheVariants.{WithFreqsAndPositions};
ghost use Rattle.ii_bm25.specs.Bm25.{bm25_score, bm25_weight};
ghost use Rattle.ii_bm25.specs.Statistics.{Statistics, idfs_of};
ghost use Rattle.ii_fieldnorm.specs.Readers.{norms_of_ids};
ghost use Rattle.ii_query.specs.Phrase.{IsUnread, parts_in};
ghost use Rattle.ii_ranking.specs.Combinations.{AddsToEach};
ghost use Rattle.ii_ranking.specs.NormIds.{id_among};
ghost use Rattle.ii_ranking.specs.Scores.{IsScoreFault, if_occurs, norm_id_in, norms_damage, parts_damage, parts_of, phrase_count, phrase_damage, phrase_score, scored_in};

use crate::combination::add_at;
use crate::term_scores::{goes_to, norm_id, norms_of};
use ii_base::{DocId, Fault, IndexRecordOption, TERMINATED, Term};
use ii_bm25::{Bm25StatisticsProvider, Bm25Weight, Score, idf};
use ii_fieldnorm::FieldNormReader;
use ii_query::{PhrasePart, count_starts};
use ii_query_parser::PhraseTerm;
use ii_reader::{OpenIndex, SegmentPostings};
use ii_search::postings_of;
use std::alloc::Global;

// Adds what documents score by a phrase within a slop.
#[inline(never)]
pub(crate) fn add_phrase<S: Bm25StatisticsProvider>(
    alloc: Global,
    index: &OpenIndex,
    statistics: &S,
    first: &Term,
    others: &[PhraseTerm],
    slop: u32,
    scores: &mut Vec<Option<Score>>,
) -> Result<(), Fault>
    requires first { first.now.field < length index.now.readers }
    requires others { list_all (λ o. nat_lt o.term.field (length index.now.readers)) others.now ≡ true }
    ensures added { OnOk result (AddsToEach (phrase_score (scored_in index.now (S.statistics statistics.now)) first.now others.now slop) scores.old.items scores.new.items) }
    ensures sound { OnOk result (phrase_damage index.now first.now others.now ≡ None) }
    ensures fault { IfErr result (IsScoreFault (phrase_damage index.now first.now others.now)) }
{
    let cursor = postings_of(index, first, IndexRecordOption::WithFreqsAndPositions)?;
    let mut parts = phrase_parts(alloc, index, others)?;
    let (norms, weight) = phrase_norms(alloc, index, statistics, first, others)?;
    let mut first = PhrasePart::new(0, cursor);
    add_starts(&mut first, &mut parts, slop, &norms, &weight, scores);
    Ok(())
}

// Returns how many times a phrase within a slop begins in a document.
pub(crate) fn count_phrase(
    alloc: Global,
    index: &OpenIndex,
    first: &Term,
    others: &[PhraseTerm],
    slop: u32,
    doc: DocId,
) -> Result<u32, Fault>
    requires first { first.now.field < length index.now.readers }
    requires others { list_all (λ o. nat_lt o.term.field (length index.now.readers)) others.now ≡ true }
    ensures count { (S : Statistics) → IfOk result (λ count. count ≡ phrase_count slop ((scored_in index.now S).entries WithFreqsAndPositions first.now) (parts_of (scored_in index.now S) others.now) doc) }
    ensures sound { OnOk result (phrase_damage index.now first.now others.now ≡ norms_damage (body_of first.now.field index.now.fieldnorms)) }
    ensures fault { IfErr result (IsScoreFault (phrase_damage index.now first.now others.now)) }
{
    let mut cursor = postings_of(index, first, IndexRecordOption::WithFreqsAndPositions)?;
    let mut parts = phrase_parts(alloc, index, others)?;
    if !goes_to(&mut cursor, doc) {
        return Ok(0);
    }
    let mut first = PhrasePart::new(0, cursor);
    Ok(count_starts(&mut first, &mut parts, slop))
}

// Returns the norms of a phrase's field, and the phrase's weight.
pub(crate) fn phrase_norms<S: Bm25StatisticsProvider>(
    alloc: Global,
    index: &OpenIndex,
    statistics: &S,
    first: &Term,
    others: &[PhraseTerm],
) -> Result<(Option<FieldNormReader>, Bm25Weight), Fault>
    ensures norms { IfOk result (λ r. r.0 ≡ option_map norms_of_ids (body_of first.now.field index.now.fieldnorms)) }
    ensures weight { IfOk result (λ r. r.1 ≡ bm25_weight (idfs_of (S.statistics statistics.now) (first.now ∷ map (λ o. o.term) others.now)) (S.statistics statistics.now).num_docs ((S.statistics statistics.now).num_tokens first.now.field)) }
    ensures sound { OnOk result (norms_damage (body_of first.now.field index.now.fieldnorms) ≡ None) }
    ensures fault { IfErr result (IsScoreFault (norms_damage (body_of first.now.field index.now.fieldnorms))) }
{
    let norms = norms_of(index, first.field())?;
    let num_docs = statistics.total_num_docs();
    let num_tokens = statistics.total_num_tokens(first.field());
    let idfs = sum_of_idfs(statistics, num_docs, first, others);
    let weight = Bm25Weight::new(alloc, idfs, num_docs, num_tokens)?;
    Ok((norms, weight))
}

// Returns the sum of the idf of a phrase's terms.
fn sum_of_idfs<S: Bm25StatisticsProvider>(
    statistics: &S,
    num_docs: u64,
    first: &Term,
    others: &[PhraseTerm],
) -> u64
    requires { num_docs ≡ (S.statistics statistics.now).num_docs }
    ensures { result ≡ idfs_of (S.statistics statistics.now) (first.now ∷ map (λ o. o.term) others.now) }
{
    let mut idfs = idf(statistics.doc_freq(first), num_docs);
    for place in 0..others.len() {
        idfs = idfs.saturating_add(idf(statistics.doc_freq(&others[place].term), num_docs));
    }
    idfs
}

// Returns cursors over the other terms of a phrase.
pub(crate) fn phrase_parts(
    alloc: Global,
    index: &OpenIndex,
    others: &[PhraseTerm],
) -> Result<Vec<PhrasePart<SegmentPostings>>, Fault>
    requires { list_all (λ o. nat_lt o.term.field (length index.now.readers)) others.now ≡ true }
    ensures listed { (S : Statistics) → IfOk result (λ parts. parts_in parts.items ≡ parts_of (scored_in index.now S) others.now) }
    ensures unread { IfOk result (λ parts. AllByRecursion IsUnread parts.items) }
    ensures sound { OnOk result (parts_damage index.now others.now ≡ None) }
    ensures fault { IfErr result (IsScoreFault (parts_damage index.now others.now)) }
{
    let mut parts = Vec::new(alloc);
    for other in others {
        let cursor = match postings_of(
            index,
            &other.term,
            IndexRecordOption::WithFreqsAndPositions,
        ) {
            Ok(cursor) => cursor,
            Err(fault) => return Err(fault),
        };
        parts.push(PhrasePart::new(other.distance, cursor))?;
    }
    Ok(parts)
}

// Adds what the documents of a phrase's first term score.
fn add_starts(
    first: &mut PhrasePart<SegmentPostings>,
    others: &mut Vec<PhrasePart<SegmentPostings>>,
    slop: u32,
    norms: &Option<FieldNormReader>,
    weight: &Bm25Weight,
    scores: &mut Vec<Option<Score>>,
)
    requires first { IsUnread first.old }
    requires others { AllByRecursion IsUnread others.old.items }
    ensures { (ids : Option (List ℕ)) → norms.now ≡ option_map norms_of_ids ids
        → AddsToEach (λ doc. if_occurs (bm25_score weight.now (norm_id_in ids doc)) (phrase_count slop first.old.part.rest (parts_in others.old.items) doc)) scores.old.items scores.new.items }
{
    let mut doc = first.doc();
    while doc < TERMINATED {
        let count = count_starts(first, others, slop);
        add_at(scores, doc, score_of(weight, norms, doc, count));
        doc = first.advance();
    }
}

// Returns what a document scores in which a phrase begins so many times.
pub(crate) fn score_of(
    weight: &Bm25Weight,
    norms: &Option<FieldNormReader>,
    doc: DocId,
    count: u32,
) -> Option<Score>
    ensures among { result ≡ if_occurs (bm25_score weight.now (id_among norms.now doc)) count }
    ensures ids { (ids : Option (List ℕ)) → norms.now ≡ option_map norms_of_ids ids → result ≡ if_occurs (bm25_score weight.now (norm_id_in ids doc)) count }
{
    if count == 0 {
        return None;
    }
    Some(weight.score(norm_id(norms, doc), count))
}
