// Bounds of blocks, and what a seek by term frequency decodes.
ghost use Rattle.std.specs.Prelude.{◌≡◌, ◌+◌, ◌-◌, ◌*◌, ◌/◌, ◌<◌, ◌≤◌, ◌⊎◌, ◌&&◌, ◌==◌, ◌++◌, ℕ, List, drop, filter, length, not, nat_le, nat_lt, slice_get, slice_index, take, true, false, if◌then◌else◌, IfOk, IfSome, IsTrue, Some};
ghost use Rattle.std.specs.List.{list_all, range_with_len, slice_index_or, sum_by};
ghost use Rattle.ii_definitions.specs.IndexCalls.{MayAllBeIndexed};
ghost use Rattle.ii_docset.specs.Cursor.{IsTarget, doc_at};
ghost use Rattle.ii_base.specs.Entries.{Entry, are_documents};
ghost use Rattle.ii_base.specs.declared.schema.index_record_option.IndexRecordOption.TheVariants.{WithFreqs};
ghost use Rattle.ii_fieldnorm.specs.Readers.{id_of_doc};
ghost use Rattle.ii_layout.specs.Documents.{skip_entry};
ghost use Rattle.ii_layout.specs.SkipList.{SkipList, skip_list};
ghost use Rattle.ii_layout.specs.Written.{AreFreqs, written_postings};
ghost use Rattle.ii_promises.specs.DecodedBlocks.{DecodesNoneTwice};
ghost use Rattle.ii_ram.specs.TrueBounds.{IndexHasTrueBounds};

use ii_layout::written::bounds_what_is_written;
use ii_ram::{
    BlockSegmentPostings, DocId, Fault, FieldNormReader, IndexCall, IndexRecordOption, OpenIndex,
    Schema, SegmentPostings, Term, TextAnalyzer, index_in_ram,
};
use std::alloc::Global;

/// No term frequency of a full block exceeds the block's bound. The bounds 0 and 255 say nothing.
pub fn counts_stay_within_bounds(blocks: &BlockSegmentPostings) -> Option<(u8, u8)>
    ensures { (freqs : List ℕ) (bounds : ℕ × ℕ) → blocks.now.freqs ≡ Some freqs → result ≡ Some bounds → 0 < bounds.1 → bounds.1 < 255
        → list_all (λ c. nat_le c bounds.1) (take 128 (drop (128 * blocks.now.block) freqs)) ≡ true }
{
    blocks.block_bounds()
}

/// A seek by term frequency moves to the first document that isn't below `target` and has a term
/// frequency of at least `least`. It decodes only blocks that have a bound that allows `least`, of those
/// passed or reached, and none of them twice.
pub fn counts_are_sought(cursor: &mut SegmentPostings, target: DocId, least: u32) -> DocId
    requires { IsTarget target cursor.old.rest }
    ensures first { result ≡ doc_at (filter (λ (e : Entry). nat_le target e.doc && nat_le least e.term_freq) cursor.old.rest) }
    ensures stands { result ≡ doc_at cursor.new.rest }
    ensures each_docs { DecodesNoneTwice cursor.old.block cursor.new.block cursor.old.doc_blocks cursor.new.doc_blocks }
    ensures each_counts { DecodesNoneTwice cursor.old.block cursor.new.block cursor.old.freq_blocks cursor.new.freq_blocks }
    ensures only_docs { (i : ℕ) → length cursor.old.doc_blocks ≤ i → i < length cursor.new.doc_blocks
        → (not ((slice_index_or cursor.old.bounds (slice_index cursor.new.doc_blocks i) (0, 0)).1 == 0) && nat_lt (slice_index_or cursor.old.bounds (slice_index cursor.new.doc_blocks i) (0, 0)).1 least) ≡ false }
    ensures only_counts { (i : ℕ) → length cursor.old.freq_blocks ≤ i → i < length cursor.new.freq_blocks
        → (not ((slice_index_or cursor.old.bounds (slice_index cursor.new.freq_blocks i) (0, 0)).1 == 0) && nat_lt (slice_index_or cursor.old.bounds (slice_index cursor.new.freq_blocks i) (0, 0)).1 least) ≡ false }
    ensures decodes { cursor.new.doc_decodes ≤ cursor.old.doc_decodes
        + sum_by (λ b. if not ((slice_index_or cursor.old.bounds b (0, 0)).1 == 0) && nat_lt (slice_index_or cursor.old.bounds b (0, 0)).1 least then 0 else 1)
        (range_with_len (cursor.old.block + 1) (cursor.new.block - cursor.old.block)) }
{
    cursor.seek_with_freq(target, least)
}

/// A term that is written with norms has bounds in the skip entry of each full block. The norm id is
/// at most that of each document of the block. The term frequency is at least that of each document,
/// or 255.
pub fn norms_stay_within_bounds(norms: &FieldNormReader)
    ensures { (docs freqs rest : List ℕ) (skip : SkipList) → IsTrue (are_documents docs) → length docs < 4294967296 → AreFreqs WithFreqs docs freqs
        → skip_list WithFreqs (length docs / 128) (written_postings (Some norms.now) WithFreqs docs freqs ++ rest) ≡ Some skip
        → (i k : ℕ) → 128 * i + 128 ≤ length docs → k < 128
        → ((skip_entry skip.entries i).block_wand_fieldnorm_id ≤ id_of_doc norms.now (slice_index docs (128 * i + k)))
        × (((skip_entry skip.entries i).block_wand_term_freq ≡ 255) ⊎ (slice_index freqs (128 * i + k) ≤ (skip_entry skip.entries i).block_wand_term_freq)) }
{
    bounds_what_is_written();
}

/// In an index in memory, no norm of a full block's documents is below the norm id that the block's entry has, if the
/// term's frequencies are read and the field has norms.
pub fn indexed_norms_stay_within_bounds<A: TextAnalyzer>(
    alloc: Global,
    schema: Schema,
    num_docs: DocId,
    calls: Vec<IndexCall>,
    analyzer: &A,
    term: &Term,
) -> Result<Option<(BlockSegmentPostings, FieldNormReader)>, Fault>
    requires docs { num_docs ≤ 2147483647 }
    requires calls { MayAllBeIndexed schema num_docs calls.items }
    requires field { term.now.field < length schema }
    ensures { IfOk result (λ found. IfSome found (λ f. (freqs : List ℕ) (i k : ℕ) (bound : ℕ × ℕ) → f.0.freqs ≡ Some freqs → slice_get f.0.bounds i ≡ Some bound → 128 * i + 128 ≤ length f.0.docs → k < 128
        → bound.0 ≤ id_of_doc f.1 (slice_index f.0.docs (128 * i + k)))) }
{
    let index = index_in_ram(alloc, schema, num_docs, calls, analyzer)?;
    with_norms(&index, term)
}

// Opens a term's blocks, and the norms of its field.
fn with_norms(
    index: &OpenIndex,
    term: &Term,
) -> Result<Option<(BlockSegmentPostings, FieldNormReader)>, Fault>
    requires field { term.now.field < length index.now.readers }
    requires bounds { IndexHasTrueBounds index.now }
    ensures { IfOk result (λ found. IfSome found (λ f. (freqs : List ℕ) (i k : ℕ) (bound : ℕ × ℕ) → f.0.freqs ≡ Some freqs → slice_get f.0.bounds i ≡ Some bound → 128 * i + 128 ≤ length f.0.docs → k < 128
        → bound.0 ≤ id_of_doc f.1 (slice_index f.0.docs (128 * i + k)))) }
{
    let field = term.field();
    let reader = index.reader(field);
    let Some(norms) = index.get_fieldnorms_reader(field)? else {
        return Ok(None);
    };
    let Some(blocks) = reader.read_block_postings(term, IndexRecordOption::WithFreqs)? else {
        return Ok(None);
    };
    Ok(Some((blocks, norms)))
}
