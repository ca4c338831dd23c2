//! Walks every posting list of a field.
ghost use Rattle.std.specs.Prelude.{◌≡◌, ◌++◌, ◌∷◌, ◌&&◌, [], ℕ, IfOk, List, OnOk, drop, filter, length, min, nat_le, if◌then◌else◌, slice_get, nat_lt};
ghost use Rattle.std.specs.List.{filter_map};
ghost use Rattle.std.specs.Option.{option_map, option_or, option_to_list};
ghost use Rattle.ii_docset.specs.Cursor.{IsCurrent};
ghost use Rattle.ii_io.specs.Faults.{OnlyMemory};
ghost use Rattle.ii_base.specs.Entries.{Entry};
ghost use Rattle.ii_reader.specs.InvertedIndexReader.{term_of_file};
ghost use Rattle.ii_damage.specs.Damages.{entries_read, field_entries, list_damage, of_term, stray_in, term_damages, max_u32};
ghost use Rattle.ii_damage.specs.Walked.{HasWalked, count_with};

use crate::damage::{Damage, FieldPlaces, FoundDamage};
use ii_base::{DocId, Fault, TERMINATED};
use ii_docset::{DocSet, Postings};
use ii_reader::{InvertedIndexReader, SegmentPostings};
use ii_termdict::TermInfo;
use std::alloc::{AllocError, Global};

/// What the walked lists of a field hold.
#[derive(Drop)]
pub struct TermWalk {
    /// The tokens of each document, at most `u32::MAX`.
    pub counts: Vec<u32>,
    /// The tokens of all documents, at most `u128::MAX`.
    pub tokens: u128,
    /// The documents of all lists, at most `u64::MAX`.
    pub postings: u64,
    /// The positions of all lists, at most `u64::MAX`.
    pub positions: u64,
}

impl TermWalk {
    /// Creates a walk over no lists, in an index of `num_docs` documents.
    #[tactic(auto, using(crate::proofs::WalkedLemmas::none_walked))]
    pub fn new(alloc: Global, num_docs: DocId) -> Result<TermWalk, AllocError>
        ensures { IfOk result (HasWalked num_docs []) }
    {
        Ok(TermWalk {
            counts: vec![in alloc; 0u32; num_docs as usize]?,
            tokens: 0,
            postings: 0,
            positions: 0,
        })
    }

    /// Walks the lists of all terms of a field, with counts and positions. Returns the damages of the terms
    /// in the order of their keys. Fails only with `OutOfMemory`.
    pub fn walk_terms(
        &mut self,
        alloc: Global,
        reader: &InvertedIndexReader,
        num_docs: DocId,
        places: &FieldPlaces,
    ) -> Result<Vec<FoundDamage>, Fault>
        ensures found { IfOk result (λ found. found.items ≡ term_damages num_docs places.now reader.now) }
        ensures walked { OnOk result ((n : ℕ) (es : List Entry) → HasWalked n es self.old → HasWalked n (es ++ field_entries reader.now) self.new) }
        ensures only { OnlyMemory result }
    {
        let mut terms = reader.terms().stream();
        let mut found = Vec::new(alloc);
        let mut last = Vec::new(alloc);
        for _ord in 0..reader.terms().num_terms() {
            let Some((key, info)) = terms.next() else {
                return Ok(found);
            };
            let damage = self.walk_term(reader, &info, num_docs, &mut last)?;
            push_damage(alloc, &mut found, places, key, &info, damage)?;
        }
        Ok(found)
    }

    // Walks the list of a term and returns what is wrong with it.
    fn walk_term(
        &mut self,
        reader: &InvertedIndexReader,
        info: &TermInfo,
        num_docs: DocId,
        last: &mut Vec<u32>,
    ) -> Result<Option<Damage>, Fault>
        ensures damage { IfOk result (λ damage. damage ≡ list_damage num_docs (term_of_file reader.now reader.now.option info.now)) }
        ensures walked { OnOk result ((n : ℕ) (es : List Entry) → HasWalked n es self.old → HasWalked n (es ++ entries_read (term_of_file reader.now reader.now.option info.now)) self.new) }
        ensures only { OnlyMemory result }
    {
        match reader.read_postings_from_terminfo(info, reader.record_option()) {
            Ok(mut cursor) => match self.walk_list(&mut cursor, num_docs, last)? {
                Some(doc) => Ok(Some(Damage::Document(doc))),
                None => Ok(None),
            },
            Err(Fault::Damaged(part)) => Ok(Some(Damage::Part(part))),
            Err(fault) => Err(fault),
        }
    }

    // Walks a list and returns its first document that is not in the index.
    fn walk_list(
        &mut self,
        cursor: &mut SegmentPostings,
        num_docs: DocId,
        last: &mut Vec<u32>,
    ) -> Result<Option<DocId>, Fault>
        requires { length cursor.old.rest ≡ cursor.old.doc_freq }
        ensures stray { IfOk result (λ stray. stray ≡ stray_in num_docs cursor.old.rest) }
        ensures walked { OnOk result ((n : ℕ) (es : List Entry) → HasWalked n es self.old → HasWalked n (es ++ cursor.old.rest) self.new) }
        ensures only { OnlyMemory result }
    {
        let mut stray = None;
        for _i in 0..cursor.doc_freq() {
            let doc = cursor.doc();
            if doc >= TERMINATED {
                return Ok(stray);
            }
            stray = first_stray(stray, doc, num_docs);
            self.walk_posting(cursor, doc, last)?;
            cursor.advance();
        }
        Ok(stray)
    }

    // Counts the current document.
    fn walk_posting(
        &mut self,
        cursor: &mut SegmentPostings,
        doc: DocId,
        last: &mut Vec<u32>,
    ) -> Result<(), Fault>
        requires { IsCurrent cursor.old.rest }
        ensures walked { OnOk result ((n : ℕ) (es more : List Entry) (e : Entry) → cursor.old.rest ≡ e ∷ more → doc ≡ e.doc → HasWalked n es self.old → HasWalked n (es ++ e ∷ []) self.new) }
        ensures rest { OnOk result (cursor.new.rest ≡ cursor.old.rest) }
        ensures doc_freq { OnOk result (cursor.new.doc_freq ≡ cursor.old.doc_freq) }
        ensures only { OnlyMemory result }
    {
        let freq = cursor.term_freq();
        cursor.positions(last)?;
        self.add(doc, freq, last.len());
        Ok(())
    }

    // Counts a document of a list with its term frequency and number of positions.
    #[tactic(auto, using(crate::proofs::WalkedLemmas::one_walked))]
    fn add(&mut self, doc: DocId, term_freq: u32, total_positions: usize)
        ensures { (n : ℕ) (es : List Entry) (e : Entry) → doc ≡ e.doc → term_freq ≡ e.term_freq → total_positions ≡ length e.positions → HasWalked n es self.old → HasWalked n (es ++ e ∷ []) self.new }
    {
        self.postings = self.postings.saturating_add(1);
        self.positions = self.positions.saturating_add(total_positions as u64);
        self.tokens = self.tokens.saturating_add(u128::from(term_freq));
        add_count(self.counts.as_mut_slice(), doc, term_freq);
    }
}

// Adds to the count of a document, if it is in the index.
fn add_count(counts: &mut [u32], doc: DocId, term_freq: u32)
    ensures length { length counts.new ≡ length counts.old }
    ensures counts { (d : ℕ) → slice_get counts.new d ≡ option_map (count_with doc term_freq d) (slice_get counts.old d) }
{
    let doc = doc as usize;
    if doc >= counts.len() {
        return;
    }
    counts[doc] = counts[doc].saturating_add(term_freq);
}

// Returns `stray` if there is one, or `doc` if it is not in the index.
fn first_stray(stray: Option<DocId>, doc: DocId, num_docs: DocId) -> Option<DocId>
    ensures { result ≡ option_or stray (if nat_le num_docs doc then Some doc else None) }
{
    if stray.is_some() {
        return stray;
    }
    if num_docs <= doc {
        return Some(doc);
    }
    None
}

// Adds the damage of a term, if it has one.
fn push_damage(
    alloc: Global,
    found: &mut Vec<FoundDamage>,
    places: &FieldPlaces,
    key: &[u8],
    info: &TermInfo,
    damage: Option<Damage>,
) -> Result<(), Fault>
    ensures found { OnOk result (found.new.items ≡ found.old.items ++ option_to_list (option_map (of_term places.now key.now info.now) damage)) }
    ensures only { OnlyMemory result }
{
    let Some(damage) = damage else {
        return Ok(());
    };
    let made = FoundDamage::of_term(alloc, places, key, info, damage)?;
    found.push(made)?;
    Ok(())
}
