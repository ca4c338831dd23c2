ghost use Rattle.std.specs.Prelude.{◌≡◌, ◌↔◌, ◌++◌, ℕ, List, true, [], Ok, IfErr, IfOk, IfSome, IsSome, IsTrue, OnOk, length};
ghost use Rattle.std.specs.List.{flat_map};
ghost use Rattle.ii_base.specs.Entries.{Entry};
ghost use Rattle.ii_base.specs.Schema.{SchemaEntry};
ghost use Rattle.ii_base.specs.declared.doc_id.TheConstants.{TERMINATED};
ghost use Rattle.ii_docset.specs.Cursor.{IsSound};
ghost use Rattle.ii_query_parser.specs.Queries.{covers_docs, has_fields, keeps_positions};
ghost use Rattle.ii_reader.specs.InvertedIndexReader.{IsRefusal};
ghost use Rattle.ii_search.specs.Found.{found_in};
ghost use Rattle.ii_segments.specs.Segments.{Segment, living_entries};
ghost use Rattle.ii_living_docs.specs.Chain.{chained};
ghost use Rattle.ii_living_docs.specs.LivingDocs.{AreNumbered};
ghost use Rattle.ii_segment_search.specs.Searcher.{AddsFound, AreFew, FailsForMemory, GivesFound, GivesNumber, HaveFields, MayAsk, Reaches, SegmentsHold, found_from, living_rest, total_living};

use ii_alive::AliveBits;
use ii_base::{DocId, Fault};
use ii_docset::{DocSet, TERMINATED};
use ii_living_docs::{Chain, LivingDocs};
use ii_query::{QueryCursor, TermOrPhrase};
use ii_query_parser::Query;
use ii_reader::{OpenIndex, SegmentPostings};
use ii_search::search;
use std::alloc::Global;
use std::marker::Model;

/// An open segment: its index, and which of its documents are alive.
#[derive(Drop)]
pub struct OpenSegment {
    index: OpenIndex,
    alive: AliveBits,
}

impl Model for OpenSegment {
    ghost use Rattle.ii_segment_search.specs.Searcher.{OpenSegmentState};

    ghost Value = { OpenSegmentState };

    ghost view = { λ s. record { index = s.index; alive = s.alive } };
}

impl OpenSegment {
    /// Returns a segment with this index and these flags of its documents.
    pub fn new(index: OpenIndex, alive: AliveBits) -> OpenSegment
        ensures { result ≡ record { index = index; alive = alive } }
    {
        OpenSegment { index, alive }
    }

    /// Returns the index.
    pub fn index(&self) -> &OpenIndex
        ensures { result.now ≡ self.now.index }
    {
        &self.index
    }

    /// Returns which of the documents are alive.
    pub fn alive(&self) -> &AliveBits
        ensures { result.now ≡ self.now.alive }
    {
        &self.alive
    }
}

/// The living documents that match a query, of all segments in order.
pub type SegmentsCursor<'a> = Chain<LivingDocs<'a, QueryCursor<TermOrPhrase<SegmentPostings>>>>;

/// Searches the segments of an index. Its documents are the living ones of the first segment, then those of the
/// next, numbered from 0. Its model is the list of its segments.
#[derive(Drop)]
pub struct Searcher {
    segments: Vec<OpenSegment>,
}

impl Model for Searcher {
    ghost use Rattle.std.specs.Prelude.{List};
    ghost use Rattle.ii_segment_search.specs.Searcher.{AreFew, OpenSegmentState};

    ghost Value = { List OpenSegmentState };

    ghost view = { λ s. s.segments.items };

    ghost invariant = { λ s. AreFew s.segments.items };
}

impl Searcher {
    /// Returns a searcher of these segments, or `None` if they have too many documents for their numbers: more
    /// than `TERMINATED` living ones in all, or more than `TERMINATED` in a segment.
    pub fn new(segments: Vec<OpenSegment>) -> Option<Searcher>
        ensures some { IfSome result (λ searcher. searcher ≡ segments.items) }
        ensures few { IsSome result ↔ AreFew segments.items }
    {
        if !have_numbers(&segments) {
            return None;
        }
        Some(Searcher { segments })
    }

    /// Returns the segments, in the order of their documents.
    pub fn segments(&self) -> &[OpenSegment]
        ensures same { result.now ≡ self.now }
        ensures few { AreFew self.now }
    {
        self.segments.as_slice()
    }

    /// Returns the number of documents, deleted ones not counted.
    pub fn num_docs(&self) -> u32
        ensures { result ≡ total_living self.now }
    {
        let mut total = 0;
        for place in 0..self.segments.len() {
            total += self.segments[place].alive.num_living();
        }
        total
    }

    /// Returns a cursor over the living documents that match a query, in ascending order of their numbers in
    /// the index. Each term's field must be a field of each segment. A part of the query that matches all
    /// documents below a number must reach the number of documents of each segment, and of the index.
    ///
    /// # Errors
    ///
    /// `Damaged` with the first corrupt part of a term, segment by segment, of the terms in the order of the
    /// query; `OutOfMemory` if an allocation fails.
    pub fn search<'a>(&'a self, alloc: Global, query: &Query) -> Result<SegmentsCursor<'a>, Fault>
        requires fields { HaveFields query.now self.now }
        ensures listed { IfOk result (λ cursor. found_from query.entry.now 0 self.entry.now ≡ Ok (chained living_rest cursor.cursors cursor.current)) }
        ensures refused { IfErr result (IsRefusal (found_from query.entry.now 0 self.entry.now)) }
        // where the segments hold tokens
        ensures holds { (entries : List SchemaEntry) (ss : List Segment) → SegmentsHold entries self.entry.now ss → MayAsk entries query.entry.now → Reaches query.entry.now ss → GivesFound query.entry.now ss result }
    {
        let mut cursors = Vec::new(alloc);
        let mut base = 0;
        for place in 0..self.segments.len() {
            let segment = &self.segments[place];
            if let Err(fault) = add_segment(alloc, segment, base, query, &mut cursors) {
                return Err(fault);
            }
            base += segment.alive.num_living();
        }
        Ok(Chain::new(cursors))
    }

    /// Returns how many living documents match a query. See `search` for the requirements and the errors.
    pub fn count(&self, alloc: Global, query: &Query) -> Result<u32, Fault>
        requires fields { HaveFields query.now self.now }
        ensures listed { IfOk result (λ count. (es : List Entry) × (found_from query.now 0 self.now ≡ Ok es) × (count ≡ length es)) }
        ensures refused { IfErr result (IsRefusal (found_from query.now 0 self.now)) }
        // where the segments hold tokens
        ensures holds { (entries : List SchemaEntry) (ss : List Segment) → SegmentsHold entries self.now ss → MayAsk entries query.now → Reaches query.now ss → GivesNumber query.now ss result }
    {
        match self.search(alloc, query) {
            Ok(mut found) => Ok(found.count_including_deleted()),
            Err(fault) => Err(fault),
        }
    }
}

// Returns whether all documents of segments have numbers.
fn have_numbers(segments: &Vec<OpenSegment>) -> bool
    ensures { IsTrue result ↔ AreFew segments.now.items }
{
    let mut total = 0;
    for place in 0..segments.len() {
        let alive = &segments[place].alive;
        if alive.num_docs() > TERMINATED {
            return false;
        }
        let living = alive.num_living();
        if living > TERMINATED - total {
            return false;
        }
        total += living;
    }
    true
}

// Adds a cursor over the living documents of a segment that match a query.
fn add_segment<'a>(
    alloc: Global,
    segment: &'a OpenSegment,
    base: DocId,
    query: &Query,
    cursors: &mut Vec<LivingDocs<'a, QueryCursor<TermOrPhrase<SegmentPostings>>>>,
) -> Result<(), Fault>
    requires fields { has_fields (length segment.now.index.readers) query.now ≡ true }
    requires numbered { AreNumbered base segment.now.alive }
    ensures found { OnOk result (AddsFound query.entry.now base segment.entry.now (flat_map living_rest cursors.old.items) (flat_map living_rest cursors.new.items)) }
    ensures refused { IfErr result (IsRefusal (found_in segment.entry.now.index query.entry.now)) }
    ensures memory { IfErr result (FailsForMemory query.entry.now segment.entry.now) }
{
    let found = match search(alloc, &segment.index, query) {
        Ok(found) => found,
        Err(fault) => return Err(fault),
    };
    let living = LivingDocs::new(found, &segment.alive, base);
    // that documents ascend, for the proof
    let _first = living.doc();
    cursors.push(living)?;
    Ok(())
}
