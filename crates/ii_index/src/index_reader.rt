//! Reads the segments of an index.
ghost use Rattle.std.specs.Prelude.{◌≡◌, ◌<◌, ℕ, List, None, Ok, IfErr, IfOk, OnOk, Some, length, map, true};
ghost use Rattle.std.specs.List.{Contains};
ghost use Rattle.ii_base.specs.Entries.{Entry};
ghost use Rattle.ii_base.specs.Schema.{SchemaEntry};
ghost use Rattle.ii_base.specs.declared.doc_id.TheConstants.{TERMINATED};
ghost use Rattle.ii_definitions.specs.Tokens.{IndexToken};
ghost use Rattle.ii_explanation.specs.Explanations.{AreSharesAt};
ghost use Rattle.ii_index.specs.Ranking.{AddUpTo, CountsDocs, Prepares, SearcherHolds, best_damage, shares_damage};
ghost use Rattle.ii_index.specs.Searching.{HaveReaders, totals_view};
ghost use Rattle.ii_index.specs.Statistics.{counts_damage, index_statistics, token_statistics};
ghost use Rattle.ii_living_docs.specs.Chain.{chained};
ghost use Rattle.ii_query_parser.specs.Queries.{covers_docs, has_fields, tree_of};
ghost use Rattle.ii_query_parser.specs.declared.query.Query.TheVariants as queries;
ghost use Rattle.ii_ranking.specs.Scores.{IsScoreFault, damage_of};
ghost use Rattle.ii_ranking.specs.Segments.{segments_scored};
ghost use Rattle.ii_ranking.specs.Shares.{share_of, total};
ghost use Rattle.ii_ranking.specs.TokenScores.{GivesBest, token_score};
ghost use Rattle.ii_scorer.specs.TopDocs.{AreBest, scored_docs};
ghost use Rattle.ii_reader.specs.InvertedIndexReader.{IsRefusal};
ghost use Rattle.ii_segment_search.specs.Searcher.{GivesFound, GivesNumber, MayAsk, Reaches, SegmentsHold, found_from, living_rest, total_living};
ghost use Rattle.ii_segments.specs.Segments.{Segment};
ghost use Rattle.ii_statistics.specs.Statistics.{doc_freq_in};

use crate::prepared_search::{PreparedSearch, prepare_by};
use crate::ranking::{best_by, shares_by};
use crate::totals::{SegmentTotals, damaged_counts, sum_of_tokens};
use ii_base::{DocId, Fault, Field, Part, Term};
use ii_query_parser::Query;
use ii_ranking::{Score, Share, TopDocs};
use ii_segment_search::{Searcher as SegmentSearcher, SegmentsCursor};
use ii_statistics::FieldTokens;
use std::alloc::Global;
use std::marker::Model;

/// The open segments of an index, as they were when it was read. Its model is that of its searcher.
pub struct IndexReader {
    searcher: Searcher,
}

// Makes each drop a call.
impl Drop for IndexReader {
    fn drop(self) {
        let IndexReader { searcher: _ } = self;
    }
}

impl Model for IndexReader {
    ghost use Rattle.ii_index.specs.Searching.{SearcherState};

    ghost Value = { SearcherState };

    ghost view = { λ r. r.searcher };
}

impl IndexReader {
    // Returns a reader with this searcher.
    pub(crate) fn new(searcher: Searcher) -> IndexReader
        ensures { result ≡ searcher }
    {
        IndexReader { searcher }
    }

    /// Returns the searcher of the segments.
    pub fn searcher(&self) -> &Searcher
        ensures { result.now ≡ self.now }
    {
        &self.searcher
    }
}

/// Searches the segments of an index. Its documents are the living ones of the first segment, then those of the
/// next, numbered from 0. Its model is the list of the open segments, the number of fields, and how many tokens the
/// living documents of each segment have in each field, or the damaged part of its counts.
pub struct Searcher {
    segments: SegmentSearcher,
    num_fields: usize,
    num_tokens: Vec<SegmentTotals>,
}

// Makes each drop a call.
impl Drop for Searcher {
    fn drop(self) {
        let Searcher {
            segments: _,
            num_fields: _,
            num_tokens: _,
        } = self;
    }
}

impl Model for Searcher {
    ghost use Rattle.std.specs.Prelude.{map};
    ghost use Rattle.ii_index.specs.Searching.{HaveReaders, SearcherState, totals_view};

    ghost Value = { SearcherState };

    ghost view = { λ s. record { segments = s.segments; num_fields = s.num_fields; num_tokens = map totals_view s.num_tokens.items } };

    ghost invariant = { λ s. HaveReaders s.num_fields s.segments };
}

impl FieldTokens for Searcher {
    ghost use Rattle.ii_index.specs.Statistics.{searcher_tokens};

    ghost by_field = { searcher_tokens };

    fn num_tokens(&self, field: Field) -> u64 {
        sum_of_tokens(self.num_tokens.as_slice(), field)
    }
}

impl Searcher {
    // Returns a searcher of open segments.
    pub(crate) fn new(
        segments: SegmentSearcher,
        num_fields: usize,
        num_tokens: Vec<SegmentTotals>,
    ) -> Searcher
        requires { HaveReaders num_fields segments }
        ensures { result ≡ record { segments = segments; num_fields = num_fields; num_tokens = map totals_view num_tokens.items } }
    {
        Searcher {
            segments,
            num_fields,
            num_tokens,
        }
    }

    // Returns the first damaged part of the counts of segments.
    pub(crate) fn damaged_counts(&self) -> Option<Part>
        ensures { result ≡ counts_damage self.now.num_tokens }
    {
        damaged_counts(self.num_tokens.as_slice())
    }

    /// Returns the number of documents, deleted ones not counted.
    pub fn num_docs(&self) -> u32
        ensures { result ≡ total_living self.now.segments }
    {
        self.segments.num_docs()
    }

    /// Returns a cursor over the documents that match a query of the index (`Index::parse_query`), in ascending
    /// order.
    ///
    /// # Errors
    ///
    /// `Damaged` with the first corrupt part of a term, segment by segment; `OutOfMemory` if an allocation fails.
    pub fn search<'a>(&'a self, alloc: Global, query: &Query) -> Result<SegmentsCursor<'a>, Fault>
        requires { has_fields self.now.num_fields query.now ≡ true }
        ensures listed { IfOk result (λ cursor. found_from query.entry.now 0 self.entry.now.segments ≡ Ok (chained living_rest cursor.cursors cursor.current)) }
        ensures refused { IfErr result (IsRefusal (found_from query.entry.now 0 self.entry.now.segments)) }
        // where the segments hold tokens
        ensures holds { (entries : List SchemaEntry) (ss : List Segment) → SegmentsHold entries self.entry.now.segments ss → MayAsk entries query.entry.now → Reaches query.entry.now ss → GivesFound query.entry.now ss result }
    {
        self.segments.search(alloc, query)
    }

    /// Returns how many documents match a query of the index. See `search` for the errors.
    pub fn count(&self, alloc: Global, query: &Query) -> Result<u32, Fault>
        requires { has_fields self.now.num_fields query.now ≡ true }
        ensures listed { IfOk result (λ count. (es : List Entry) × (found_from query.now 0 self.now.segments ≡ Ok es) × (count ≡ length es)) }
        ensures refused { IfErr result (IsRefusal (found_from query.now 0 self.now.segments)) }
        // where the segments hold tokens
        ensures holds { (entries : List SchemaEntry) (ss : List Segment) → SegmentsHold entries self.now.segments ss → MayAsk entries query.now → Reaches query.now ss → GivesNumber query.now ss result }
    {
        self.segments.count(alloc, query)
    }

    /// Returns how many documents have a term. Its field must be one of the index. See `search` for the errors.
    pub fn doc_freq(&self, alloc: Global, term: &Term) -> Result<u32, Fault>
        requires { term.now.field < self.now.num_fields }
        ensures counted { IfOk result (λ n. n ≡ doc_freq_in self.now.segments term.now) }
        ensures sound { OnOk result (damage_of (found_from (queries.Term term.now) 0 self.now.segments) ≡ None) }
        ensures fault { IfErr result (IsScoreFault (damage_of (found_from (queries.Term term.now) 0 self.now.segments))) }
        // where the segments hold tokens
        ensures holds { (entries : List SchemaEntry) (n : ℕ) (ts : List IndexToken) → SearcherHolds entries self.now n ts → term.now.field < length entries → CountsDocs n ts term.now result }
    {
        // that all documents have numbers, for the proof
        let _segments = self.segments.segments();
        let copy = Term::from_field_bytes(alloc, term.field(), term.serialized_value_bytes());
        let query = match copy {
            Ok(copy) => Query::Term(copy),
            Err(fault) => return Err(fault),
        };
        let counted = self.count(alloc, &query);
        drop(query);
        counted
    }

    /// Returns the best documents that match a query of the index, each with its score: the greatest score first, and
    /// of equal ones the smaller document. `docs` says how many are wanted, and how many better ones are passed.
    /// Scores are those of BM25 (`ii_ranking`), by the numbers of the documents of the index and of their tokens;
    /// deleted documents don't count.
    ///
    /// # Errors
    ///
    /// `Damaged` with the first corrupt part: of the counts of a segment, then of the documents of each term of the
    /// query, then of what the scores need, segment by segment; `OutOfMemory` if an allocation fails.
    pub fn top_docs(
        &self,
        alloc: Global,
        query: &Query,
        docs: &TopDocs,
    ) -> Result<Vec<(Score, DocId)>, Fault>
        requires { has_fields self.now.num_fields query.now ≡ true }
        ensures best { IfOk result (λ best. AreBest docs.now (segments_scored (index_statistics self.now) query.now 0 self.now.segments) best.items) }
        ensures sound { OnOk result (best_damage self.now query.now ≡ None) }
        ensures fault { IfErr result (IsScoreFault (best_damage self.now query.now)) }
        // where the segments hold an index
        ensures holds { (entries : List SchemaEntry) (n : ℕ) (ts : List IndexToken) → SearcherHolds entries self.now n ts → MayAsk entries query.now → covers_docs TERMINATED query.now ≡ true
            → GivesBest docs.now (scored_docs n (token_score entries ts (token_statistics n ts) query.now)) result }
    {
        match self.damaged_counts() {
            Some(part) => return Err(Fault::Damaged(part)),
            None => (),
        }
        match best_by(alloc, self.segments.segments(), self, query, docs) {
            Ok(best) => Ok(best),
            Err(fault) => Err(fault),
        }
    }

    /// Prepares a query for searches: opens the list of each of its terms in each segment, with bounds of what its
    /// documents score, and lists the documents of its phrases and ranges with their scores. Each search then returns
    /// exactly what `top_docs` returns for the query, and fails only with `OutOfMemory`. All fields of the query must be
    /// fields of the index. Preparing decodes the lists, so it pays for a query that is searched more than once.
    ///
    /// ```
    /// let prepared = searcher.prepare(alloc, &query)?;
    /// let first = prepared.top_docs(alloc, &TopDocs::with_limit(10))?;
    /// let next = prepared.top_docs(alloc, &TopDocs::with_limit(10).and_offset(10))?;
    /// ```
    ///
    /// # Errors
    ///
    /// Those of `top_docs` for the query.
    pub fn prepare<'s>(&'s self, alloc: Global, query: &Query) -> Result<PreparedSearch<'s>, Fault>
        requires { has_fields self.now.num_fields query.now ≡ true }
        ensures scores { IfOk result (λ prepared. prepared ≡ segments_scored (index_statistics self.now) query.now 0 self.now.segments) }
        ensures sound { OnOk result (best_damage self.now query.now ≡ None) }
        ensures fault { IfErr result (IsScoreFault (best_damage self.now query.now)) }
        // where the segments hold an index
        ensures holds { (entries : List SchemaEntry) (n : ℕ) (ts : List IndexToken) → SearcherHolds entries self.now n ts → MayAsk entries query.now → covers_docs TERMINATED query.now ≡ true
            → Prepares (scored_docs n (token_score entries ts (token_statistics n ts) query.now)) result }
    {
        if let Some(part) = self.damaged_counts() {
            return Err(Fault::Damaged(part));
        }
        match prepare_by(alloc, self.segments.segments(), self, query) {
            Ok(prepared) => Ok(prepared),
            Err(fault) => Err(fault),
        }
    }

    /// Returns what the score of a document is made of, given its number: a share for each part of the query that the
    /// document matches, in the order of the query; nothing for what is excluded, and nothing at all if no document has
    /// the number or the document doesn't match. The shares add up to the score with which `top_docs` returns the
    /// document.
    ///
    /// ```
    /// for (score, doc) in &searcher.top_docs(alloc, &query, &TopDocs::with_limit(3))? {
    ///     println!(rt; "{doc}: {score}")?;
    ///     for share in &searcher.explain(alloc, &query, *doc)? {
    ///         println!(rt; "    {} of {} occurrences", share.score, share.count)?;
    ///     }
    /// }
    /// ```
    ///
    /// # Errors
    ///
    /// `Damaged` with the first corrupt part: of the counts of a segment, then of the documents of each term of the
    /// query, then of what the scores need in the segment that has the document; `OutOfMemory` if an allocation fails.
    pub fn explain<'q>(
        &self,
        alloc: Global,
        query: &'q Query,
        doc: DocId,
    ) -> Result<Vec<Share<'q>>, Fault>
        requires { has_fields self.now.num_fields query.now ≡ true }
        ensures shares { IfOk result (λ shares. AreSharesAt (index_statistics self.now) (tree_of query.now) self.now.segments doc (map share_of shares.items)) }
        ensures sum { (score : ℕ) → Contains (segments_scored (index_statistics self.now) query.now 0 self.now.segments) (score, doc) → IfOk result (λ shares. total (map share_of shares.items) ≡ Some score) }
        ensures sound { OnOk result (shares_damage self.now query.now doc ≡ None) }
        ensures fault { IfErr result (IsScoreFault (shares_damage self.now query.now doc)) }
        // where the segments hold an index
        ensures holds { (entries : List SchemaEntry) (n : ℕ) (ts : List IndexToken) → SearcherHolds entries self.now n ts → MayAsk entries query.now → covers_docs TERMINATED query.now ≡ true
            → (score : ℕ) → doc < n → token_score entries ts (token_statistics n ts) query.now doc ≡ Some score → AddUpTo score result }
    {
        match self.damaged_counts() {
            Some(part) => return Err(Fault::Damaged(part)),
            None => (),
        }
        match shares_by(alloc, self.segments.segments(), self, query, doc) {
            Ok(shares) => Ok(shares),
            Err(fault) => Err(fault),
        }
    }
}
