//! The terms of a field in all segments, in the order of their keys.
use ii_base::{Fault, Field, IndexRecordOption};
use ii_docset::{DocSet, TERMINATED};
use ii_termdict::{ComingTerms, TermInfo, TermMerger};
use nequllpa_opening::{Opened, reader_of};
use std::alloc::{AllocError, Global};

/// A term of an index that living documents have: its key, and what its lists in the segments take together.
#[derive(Clone, Copy)]
pub struct MergedTerm<'a> {
    /// Its key.
    pub key: &'a [u8],
    /// The number of its living documents.
    pub doc_freq: u64,
    /// The number of bytes of its postings.
    pub postings: u64,
    /// The number of bytes of its positions.
    pub positions: u64,
}

/// The terms that living documents have in a field, of all segments, in the order of their keys, each once.
#[derive(Drop)]
pub struct MergedTerms<'a> {
    terms: TermMerger<'a>,
    // The segments that have the field.
    segments: Vec<&'a Opened>,
    field: Field,
    // The infos of the term that was passed last, for each of these segments.
    infos: Vec<Option<TermInfo>>,
    most: u64,
}

impl<'a> MergedTerms<'a> {
    /// Begins before the first term of a field.
    pub fn new(
        alloc: Global,
        segments: &'a [Opened],
        field: Field,
    ) -> Result<MergedTerms<'a>, AllocError> {
        let mut coming = Vec::new(alloc);
        let mut with_field = Vec::new(alloc);
        let mut most = 0u64;
        for segment in segments {
            let Some(reader) = reader_of(segment, field) else {
                continue;
            };
            let dictionary = reader.terms();
            most = most.saturating_add(dictionary.num_terms() as u64);
            coming.push(ComingTerms::new(dictionary))?;
            with_field.push(segment)?;
        }
        Ok(MergedTerms {
            terms: TermMerger::new(coming),
            segments: with_field,
            field,
            infos: Vec::new(alloc),
            most,
        })
    }

    /// Returns a number that is not less than the number of terms.
    pub fn most(&self) -> u64 {
        self.most
    }

    /// Returns the next term that a living document has, if there is one.
    ///
    /// Returns the first corrupt part of a list that has to be read, since its segment has deleted documents, or
    /// `OutOfMemory`.
    pub fn next(&mut self) -> Result<Option<MergedTerm<'a>>, Fault> {
        for _ in 0..self.most {
            let Some(key) = self.terms.least_key() else {
                return Ok(None);
            };
            self.terms.take(key, &mut self.infos)?;
            let term = self.term_of(key)?;
            if term.doc_freq > 0 {
                return Ok(Some(term));
            }
        }
        Ok(None)
    }

    // Returns the term of a key that was passed.
    fn term_of(&self, key: &'a [u8]) -> Result<MergedTerm<'a>, Fault> {
        let mut term = MergedTerm {
            key,
            doc_freq: 0,
            postings: 0,
            positions: 0,
        };
        for (segment, info) in self.segments.iter().zip(self.infos.iter()) {
            if let Some(info) = info {
                let doc_freq = living_doc_freq(segment, self.field, info)?;
                add(&mut term, info, doc_freq);
            }
        }
        Ok(term)
    }
}

// Returns how many living documents a list of a segment has.
fn living_doc_freq(segment: &Opened, field: Field, info: &TermInfo) -> Result<u64, Fault> {
    if !segment.has_deletes() {
        return Ok(u64::from(info.doc_freq));
    }
    let Some(reader) = reader_of(segment, field) else {
        return Ok(0);
    };
    let mut cursor = reader.read_postings_from_terminfo(info, IndexRecordOption::Basic)?;
    let count = count_living(&mut cursor, segment);
    drop(cursor);
    Ok(count)
}

// Returns how many of the remaining documents of a cursor are alive.
fn count_living<C: DocSet>(cursor: &mut C, segment: &Opened) -> u64 {
    let mut count = 0u64;
    for _ in 0..cursor.size_hint() {
        let doc = cursor.doc();
        if doc >= TERMINATED {
            return count;
        }
        if segment.number_of(doc).is_some() {
            count = count.saturating_add(1);
        }
        cursor.advance();
    }
    count
}

// Adds what the list of a segment takes.
fn add(term: &mut MergedTerm<'_>, info: &TermInfo, doc_freq: u64) {
    term.doc_freq = term.doc_freq.saturating_add(doc_freq);
    term.postings = term
        .postings
        .saturating_add(info.postings_range.len() as u64);
    term.positions = term
        .positions
        .saturating_add(info.positions_range.len() as u64);
}
