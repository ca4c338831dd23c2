//! The scores of the documents that have a term.
ghost use Rattle.std.specs.Prelude.{◌≡◌, ◌<◌, ◌∷◌, [], ℕ, List, Option, None, IfOk, IfErr, OnOk, length, true};
ghost use Rattle.std.specs.Option.{option_map};
ghost use Rattle.ii_io.specs.Faults.{OnlyMemory};
ghost use Rattle.ii_io.specs.Composite.{body_of};
ghost use Rattle.ii_base.specs.declared.schema.index_record_option.IndexRecordOption.TheVariants.{WithFreqs};
ghost use Rattle.ii_bm25.specs.Bm25.{bm25_score, bm25_weight};
ghost use Rattle.ii_bm25.specs.Statistics.{idfs_of};
ghost use Rattle.ii_docset.specs.Intersection.{has_doc};
ghost use Rattle.ii_fieldnorm.specs.Readers.{norms_of_ids};
ghost use Rattle.ii_reader.specs.InvertedIndexReader.{IsRefusal};
ghost use Rattle.ii_search.specs.Found.{docs_of_term};
ghost use Rattle.ii_ranking.specs.Combinations.{AddsToEach};
ghost use Rattle.ii_ranking.specs.NormIds.{id_among};
ghost use Rattle.ii_ranking.specs.Scores.{IsAt, IsScoreFault, entry_at, norm_id_in, norms_damage, scored_in, term_damage, term_score};

use crate::combination::add_at;
use ii_base::{DocId, Fault, Field, IndexRecordOption, TERMINATED, Term};
use ii_bm25::{Bm25StatisticsProvider, Bm25Weight, Score, idf};
use ii_docset::{DocSet, Postings};
use ii_fieldnorm::FieldNormReader;
use ii_reader::{OpenIndex, SegmentPostings};
use ii_search::postings_of;
use std::alloc::Global;

// Adds what documents score by a term.
pub(crate) fn add_term<S: Bm25StatisticsProvider>(
    alloc: Global,
    index: &OpenIndex,
    statistics: &S,
    term: &Term,
    scores: &mut Vec<Option<Score>>,
) -> Result<(), Fault>
    requires field { term.now.field < length index.now.readers }
    ensures added { OnOk result (AddsToEach (term_score (scored_in index.now (S.statistics statistics.now)) term.now) scores.old.items scores.new.items) }
    ensures sound { OnOk result (term_damage index.now term.now ≡ None) }
    ensures fault { IfErr result (IsScoreFault (term_damage index.now term.now)) }
{
    let mut cursor = postings_of(index, term, IndexRecordOption::WithFreqs)?;
    let norms = norms_of(index, term.field())?;
    let weight = weight_of(alloc, statistics, term)?;
    add_entries(&mut cursor, &norms, &weight, scores);
    Ok(())
}

/// Returns the weight of a term by the numbers of an index. Fails only with `OutOfMemory`.
pub fn weight_of<S: Bm25StatisticsProvider>(
    alloc: Global,
    statistics: &S,
    term: &Term,
) -> Result<Bm25Weight, Fault>
    ensures made { IfOk result (λ weight. weight ≡ bm25_weight (idfs_of (S.statistics statistics.now) (term.now ∷ [])) (S.statistics statistics.now).num_docs ((S.statistics statistics.now).num_tokens term.now.field)) }
    ensures only { OnlyMemory result }
{
    let num_docs = statistics.total_num_docs();
    let num_tokens = statistics.total_num_tokens(term.field());
    let idf = idf(statistics.doc_freq(term), num_docs);
    Bm25Weight::new(alloc, idf, num_docs, num_tokens)
}

/// Opens the norms of a field, or returns `None` if the index has none for it.
///
/// Returns `Damaged(FieldNorms)` if it has more than `u32::MAX` of them, or `OutOfMemory` if the file's buffer can't be
/// shared again.
pub fn norms_of(index: &OpenIndex, field: Field) -> Result<Option<FieldNormReader>, Fault>
    ensures found { IfOk result (λ norms. norms ≡ option_map norms_of_ids (body_of field index.now.fieldnorms)) }
    ensures sound { OnOk result (norms_damage (body_of field index.now.fieldnorms) ≡ None) }
    ensures fault { IfErr result (IsScoreFault (norms_damage (body_of field index.now.fieldnorms))) }
{
    index.get_fieldnorms_reader(field)
}

// Returns the norm id of a document, that of the norm 1 if the field has none for it.
pub(crate) fn norm_id(norms: &Option<FieldNormReader>, doc: DocId) -> u8
    ensures among { result ≡ id_among norms.now doc }
    ensures ids { (ids : Option (List ℕ)) → norms.now ≡ option_map norms_of_ids ids → result ≡ norm_id_in ids doc }
{
    match norms {
        Some(norms) => {
            if doc < norms.num_docs() {
                norms.fieldnorm_id(doc)
            } else {
                1
            }
        }
        None => 1,
    }
}

// Goes to a document, and returns whether a cursor has it.
pub(crate) fn goes_to<D: DocSet>(cursor: &mut D, doc: DocId) -> bool
    ensures found { result ≡ has_doc (D.rest cursor.old) doc }
    ensures here { result ≡ true → IsAt doc (D.rest cursor.old) (D.rest cursor.new) }
{
    let current = cursor.doc();
    if doc < current || doc >= TERMINATED {
        return false;
    }
    cursor.seek(doc) == doc
}

// Adds what the documents of a cursor score. The cursor is at its end afterwards.
fn add_entries(
    cursor: &mut SegmentPostings,
    norms: &Option<FieldNormReader>,
    weight: &Bm25Weight,
    scores: &mut Vec<Option<Score>>,
)
    ensures { (ids : Option (List ℕ)) → norms.now ≡ option_map norms_of_ids ids
        → AddsToEach (λ doc. option_map (λ e. bm25_score weight.now (norm_id_in ids doc) e.term_freq) (entry_at cursor.old.rest doc)) scores.old.items scores.new.items }
{
    let mut doc = cursor.doc();
    while doc < TERMINATED {
        let score = weight.score(norm_id(norms, doc), cursor.term_freq());
        add_at(scores, doc, Some(score));
        doc = cursor.advance();
    }
}
