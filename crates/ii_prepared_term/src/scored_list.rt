//! The documents that match a query, listed with their scores.
ghost use Rattle.std.specs.Prelude.{◌≡◌, ◌≤◌, ◌<◌, ℕ, IfErr, IfOk, None, OnOk, drop, get_or, length, true};
ghost use Rattle.std.specs.Option.{option_map};
ghost use Rattle.ii_base.specs.declared.doc_id.TheConstants.{TERMINATED};
ghost use Rattle.ii_docset.specs.Cursor.{IsAscending, doc_at, from_doc};
ghost use Rattle.ii_query_parser.specs.Queries.{has_fields};
ghost use Rattle.ii_ranking.specs.Scores.{IsScoreFault, entry_at, query_damage, query_score, scored_in};
ghost use Rattle.ii_prepared_term.specs.PreparedQueries.{ScoresEnd};
ghost use Rattle.ii_prepared_term.specs.QueryBounds.{greatest_listed, greatest_score};
ghost use Rattle.ii_prepared_term.specs.ScoredLists.{entries_of, listed_score, listed_state};

use ii_base::{DocId, Fault, TERMINATED};
use ii_bm25::{Bm25StatisticsProvider, Score};
use ii_query_parser::Query;
use ii_ranking::list_scores;
use ii_reader::OpenIndex;
use ii_scorer::{ScoreBound, Scorer, if_at_least};
use std::alloc::Global;
use std::marker::Model;

// All documents that match a query, each with its score, in ascending order.
#[derive(Drop)]
pub(crate) struct ScoredList {
    docs: Vec<(Score, DocId)>,
    // no document scores more
    most: Score,
}

impl Model for ScoredList {
    ghost use Rattle.ii_prepared_term.specs.ScoredLists.{IsScoredList, ScoredListState, entries_of};

    ghost Value = { ScoredListState };

    ghost view = { λ s. record { rest = entries_of s.docs.items; most = s.most } };

    ghost invariant = { λ s. IsScoredList s.docs.items s.most };
}

impl ScoredList {
    // Lists the documents that match a query. See `ii_ranking::list_scores`.
    pub(crate) fn open<S: Bm25StatisticsProvider>(
        alloc: Global,
        index: &OpenIndex,
        statistics: &S,
        query: &Query,
    ) -> Result<ScoredList, Fault>
        requires fields { has_fields (length index.now.readers) query.now ≡ true }
        ensures scores { IfOk result (λ list. (doc : ℕ) → listed_score list doc ≡ query_score (scored_in index.now (S.statistics statistics.now)) query.now doc) }
        ensures most { IfOk result (λ list. list.most ≡ greatest_score (query_score (scored_in index.now (S.statistics statistics.now)) query.now)) }
        ensures ends { IfOk result (λ list. ScoresEnd (listed_score list)) }
        ensures sound { OnOk result (query_damage index.now query.now ≡ None) }
        ensures fault { IfErr result (IsScoreFault (query_damage index.now query.now)) }
    {
        let docs = list_scores(alloc, index, statistics, query)?;
        let most = greatest_of(&docs);
        Ok(ScoredList { docs, most })
    }

    // Returns a scorer at the start of the list.
    pub(crate) fn scorer(&self) -> ListedScorer<'_>
        ensures same { result ≡ self.now }
        ensures ends { ScoresEnd (listed_score self.now) }
    {
        ListedScorer {
            docs: &self.docs,
            place: 0,
            most: self.most,
        }
    }
}

// Returns the greatest score of some documents, or 0 if there are none.
fn greatest_of(docs: &Vec<(Score, DocId)>) -> Score
    ensures { result ≡ greatest_listed docs.now.items }
{
    let mut most: Score = 0;
    for place in 0..docs.len() {
        most = most.max(docs[place].0);
    }
    most
}

/// Gives the scores of documents that are listed with them.
///
/// Its model is the documents that weren't passed, and a score that none exceeds.
#[derive(Drop)]
pub struct ListedScorer<'a> {
    docs: &'a Vec<(Score, DocId)>,
    // of the first document that wasn't passed
    place: usize,
    most: Score,
}

impl<'a> Model for ListedScorer<'a> {
    ghost use Rattle.std.specs.Prelude.{◌≤◌, drop, length};
    ghost use Rattle.ii_prepared_term.specs.ScoredLists.{IsScoredList, ScoredListState, entries_of};

    ghost Value = { ScoredListState };

    ghost view = { λ s. record { rest = drop s.place (entries_of s.docs.now.items); most = s.most } };

    ghost invariant = { λ s. IsScoredList s.docs.now.items s.most × (s.place ≤ length s.docs.now.items) };
}

impl<'a> ListedScorer<'a> {
    // Passes the documents below a target, and returns the first one that is left, or `TERMINATED`.
    fn go_to(&mut self, target: DocId) -> DocId
        requires { target ≤ TERMINATED }
        ensures doc { result ≡ doc_at self.new.rest }
        ensures rest { self.new.rest ≡ from_doc target self.old.rest }
        ensures most { self.new.most ≡ self.old.most }
        ensures ascending { IsAscending self.new.rest }
    {
        let place = first_from(self.docs, self.place, target);
        self.place = place;
        doc_of(self.docs, place)
    }
}

impl<'a> Scorer for ListedScorer<'a> {
    ghost state = { listed_state };

    fn max_score(&self) -> Score {
        self.most
    }

    fn seek_with_score(&mut self, target: DocId, _least: Score) -> DocId {
        self.go_to(target)
    }

    fn skip_to_score(&mut self, target: DocId, _least: Score) -> DocId {
        self.go_to(target)
    }

    fn max_score_until(&mut self, _target: DocId) -> ScoreBound {
        ScoreBound {
            most: self.max_score(),
            end: TERMINATED,
        }
    }

    fn has_runs(&self) -> bool {
        false
    }

    fn score_at(&mut self, doc: DocId, least: Score) -> Option<Score> {
        let place = first_from(self.docs, self.place, doc);
        self.place = place;
        if_at_least(least, score_in(self.docs, place, doc))
    }
}

// Returns the place of the first document from a place on that isn't below a target, or of the end.
fn first_from(docs: &Vec<(Score, DocId)>, from: usize, target: DocId) -> usize
    requires within { from ≤ length docs.now.items }
    requires ascending { IsAscending (entries_of docs.now.items) }
    requires up_to { target ≤ TERMINATED }
    ensures within { result ≤ length docs.now.items }
    ensures rest { drop result (entries_of docs.now.items) ≡ from_doc target (drop from (entries_of docs.now.items)) }
{
    let mut place = from;
    while place < docs.len() {
        if docs[place].1 >= target {
            return place;
        }
        place += 1;
    }
    place
}

// Returns the document at a place, or `TERMINATED` at the end.
fn doc_of(docs: &Vec<(Score, DocId)>, place: usize) -> DocId
    ensures { result ≡ doc_at (drop place (entries_of docs.now.items)) }
{
    if place >= docs.len() {
        return TERMINATED;
    }
    docs[place].1
}

// Returns what a document scores that isn't after the one at a place.
fn score_in(docs: &Vec<(Score, DocId)>, place: usize, doc: DocId) -> Option<Score>
    requires ascending { IsAscending (entries_of docs.now.items) }
    requires up_to { doc ≤ doc_at (drop place (entries_of docs.now.items)) }
    ensures { result ≡ option_map (λ e. e.term_freq) (entry_at (drop place (entries_of docs.now.items)) doc) }
{
    if place >= docs.len() {
        return None;
    }
    let (score, found) = docs[place];
    if found != doc {
        return None;
    }
    Some(score)
}
