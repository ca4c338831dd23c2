ghost use Rattle.std.specs.Prelude.{◌≡◌, ◌<◌, ◌&&◌, ◌||◌, ◌==◌, ◌∷◌, [], ℕ, List, IfOk, length, nat_eq, nat_lt, not, true};
ghost use Rattle.std.specs.List.{list_all, list_any, starts_with};
ghost use Rattle.ii_io.specs.Faults.{OnlyMemory};
ghost use Rattle.ii_base.specs.Schema.{SchemaEntry};
ghost use Rattle.ii_definitions.specs.Tokens.{IndexToken};
ghost use Rattle.ii_query_parser.specs.Bounded.{bounded, each_bounded};
ghost use Rattle.ii_query_parser.specs.Queries.{any_of, covers_docs, each_of, has_fields, has_phrase_prefix, has_positions_in, is_token_in, keeps_positions, matches, no_tree, one_phrase_prefix, one_range, others_with, phrase_has_positions, phrase_is_within, tree, tree_of, trees_of, without};

use crate::phrase_prefix::PhrasePrefix;
use crate::term_range::TermRange;
use ii_base::{DocId, Fault, Schema, Term};
use std::alloc::Global;

/// A term of a phrase after the first one.
#[derive(Drop)]
pub struct PhraseTerm {
    /// How many positions after the first term it occurs.
    pub distance: u32,
    /// The term.
    pub term: Term,
}

/// A query over the documents of an index.
///
/// A boolean query holds any number of clauses in a list, so its depth is only that of its nesting.
#[derive(Drop)]
pub enum Query {
    /// Matches no document.
    Empty,
    /// Matches each document below a number; with the index's number of documents, all of them. `TERMINATED`
    /// and above never match.
    All(DocId),
    /// Matches the documents with a token of the term's field whose key is the term's value.
    Term(Term),
    /// Matches the documents with a phrase within a slop, the last of these: its terms have positions that, each
    /// moved back by its distance, differ by at most the slop. With slop 0 each other term is at its distance after
    /// the first one. The fields of the terms keep positions.
    Phrase(Term, Vec<PhraseTerm>, u32),
    /// Matches the documents with a phrase whose last term is any of a range: each other term at its distance
    /// after the first one. The fields of all terms keep positions. A search collects these documents when it is
    /// opened.
    PhrasePrefix(PhrasePrefix),
    /// Matches the documents with a token whose field is that of the range, and whose key the range has. A
    /// search collects these documents when it is opened.
    Range(TermRange),
    /// Matches the documents that all queries match; no document if there are no queries.
    And(Vec<Query>),
    /// Matches the documents that at least one of the queries matches.
    Or(Vec<Query>),
    /// Matches the documents that the first query matches and the other one doesn't.
    AndNot(Box<Query>, Box<Query>),
}

impl Query {
    /// Returns the query that matches the documents with a token whose field is that of the range, and whose
    /// key the range has.
    #[tactic(auto, using(crate::proofs::QueryLemmas::range_tree, crate::proofs::QueryLemmas::range_matches, crate::proofs::QueryLemmas::range_fields, crate::proofs::QueryLemmas::range_positions, crate::proofs::QueryLemmas::range_covers))]
    pub fn range(range: TermRange) -> Query
        ensures tree { tree_of result ≡ one_range range }
        ensures matches { (ts : List IndexToken) (doc : ℕ) → matches result ts doc ≡ list_any (is_token_in range doc) ts }
        ensures fields { (n : ℕ) → has_fields n result ≡ nat_lt range.prefix.field n }
        ensures positions { (entries : List SchemaEntry) → keeps_positions entries result ≡ true }
        ensures covers { (n : ℕ) → covers_docs n result ≡ true }
    {
        Query::Range(range)
    }

    /// Returns the query that matches the documents with a token whose field is that of the prefix, and whose
    /// key starts with its value.
    #[tactic(auto, using(crate::proofs::QueryLemmas::prefix_matches))]
    pub fn prefix(prefix: Term) -> Query
        ensures matches { (ts : List IndexToken) (doc : ℕ) → matches result ts doc ≡ list_any (λ t. (t.doc == doc) && (t.field == prefix.field) && starts_with nat_eq t.key prefix.value) ts }
        ensures fields { (n : ℕ) → has_fields n result ≡ nat_lt prefix.field n }
        ensures positions { (entries : List SchemaEntry) → keeps_positions entries result ≡ true }
        ensures covers { (n : ℕ) → covers_docs n result ≡ true }
    {
        Query::range(TermRange::with_prefix(prefix))
    }

    /// Returns the query that matches the documents with a phrase whose last term is any of a range.
    #[tactic(auto, using(crate::proofs::QueryLemmas::phrase_prefix_tree, crate::proofs::QueryLemmas::phrase_prefix_matches, crate::proofs::QueryLemmas::phrase_prefix_fields, crate::proofs::QueryLemmas::phrase_prefix_positions, crate::proofs::QueryLemmas::phrase_prefix_covers))]
    pub fn phrase_prefix(phrase: PhrasePrefix) -> Query
        ensures tree { tree_of result ≡ one_phrase_prefix phrase }
        ensures matches { (ts : List IndexToken) (doc : ℕ) → matches result ts doc ≡ has_phrase_prefix phrase ts doc }
        ensures fields { (n : ℕ) → has_fields n result ≡ phrase_is_within n phrase.first (others_with phrase phrase.last.prefix.value) }
        ensures positions { (entries : List SchemaEntry) → keeps_positions entries result ≡ phrase_has_positions entries phrase.first (others_with phrase phrase.last.prefix.value) }
        ensures covers { (n : ℕ) → covers_docs n result ≡ true }
    {
        Query::PhrasePrefix(phrase)
    }

    /// Returns the query that matches what both match. Fails only with `OutOfMemory`.
    #[tactic(auto, using(crate::proofs::QueryLemmas::and_tree))]
    pub fn and(alloc: Global, first: Query, other: Query) -> Result<Query, Fault>
        ensures tree { IfOk result (λ query. tree_of query ≡ each_of (tree (tree_of first) (tree (tree_of other) no_tree))) }
        ensures matches { IfOk result (λ query. (ts : List IndexToken) (doc : ℕ) → matches query ts doc ≡ (matches first ts doc && matches other ts doc)) }
        ensures fields { IfOk result (λ query. (n : ℕ) → has_fields n query ≡ (has_fields n first && has_fields n other)) }
        ensures positions { IfOk result (λ query. (entries : List SchemaEntry) → keeps_positions entries query ≡ (keeps_positions entries first && keeps_positions entries other)) }
        ensures covers { IfOk result (λ query. (n : ℕ) → covers_docs n query ≡ (covers_docs n first && covers_docs n other)) }
        ensures only { OnlyMemory result }
    {
        match pair(alloc, first, other) {
            Ok(queries) => Ok(Query::And(queries)),
            Err(fault) => Err(fault),
        }
    }

    /// Returns the query that matches what at least one of two matches. Fails only with `OutOfMemory`.
    #[tactic(auto, using(crate::proofs::QueryLemmas::or_tree))]
    pub fn or(alloc: Global, first: Query, other: Query) -> Result<Query, Fault>
        ensures tree { IfOk result (λ query. tree_of query ≡ any_of (tree (tree_of first) (tree (tree_of other) no_tree))) }
        ensures matches { IfOk result (λ query. (ts : List IndexToken) (doc : ℕ) → matches query ts doc ≡ (matches first ts doc || matches other ts doc)) }
        ensures fields { IfOk result (λ query. (n : ℕ) → has_fields n query ≡ (has_fields n first && has_fields n other)) }
        ensures positions { IfOk result (λ query. (entries : List SchemaEntry) → keeps_positions entries query ≡ (keeps_positions entries first && keeps_positions entries other)) }
        ensures covers { IfOk result (λ query. (n : ℕ) → covers_docs n query ≡ (covers_docs n first && covers_docs n other)) }
        ensures only { OnlyMemory result }
    {
        match pair(alloc, first, other) {
            Ok(queries) => Ok(Query::Or(queries)),
            Err(fault) => Err(fault),
        }
    }

    /// Returns the query that matches what the first matches and the other one doesn't. Fails only with
    /// `OutOfMemory`.
    #[tactic(auto, using(crate::proofs::QueryLemmas::and_not_tree))]
    pub fn and_not(alloc: Global, first: Query, other: Query) -> Result<Query, Fault>
        ensures tree { IfOk result (λ query. tree_of query ≡ without (tree_of first) (tree_of other)) }
        ensures matches { IfOk result (λ query. (ts : List IndexToken) (doc : ℕ) → matches query ts doc ≡ (matches first ts doc && not (matches other ts doc))) }
        ensures fields { IfOk result (λ query. (n : ℕ) → has_fields n query ≡ (has_fields n first && has_fields n other)) }
        ensures positions { IfOk result (λ query. (entries : List SchemaEntry) → keeps_positions entries query ≡ (keeps_positions entries first && keeps_positions entries other)) }
        ensures covers { IfOk result (λ query. (n : ℕ) → covers_docs n query ≡ (covers_docs n first && covers_docs n other)) }
        ensures only { OnlyMemory result }
    {
        match boxed(alloc, first, other) {
            Ok((first, other)) => Ok(Query::AndNot(first, other)),
            Err(fault) => Err(fault),
        }
    }

    /// Returns the query that matches what the first and all others match. Fails only with `OutOfMemory`.
    #[tactic(auto, using(crate::proofs::QueryLemmas::and_tree, crate::proofs::QueryLemmas::all_matched, crate::proofs::QueryLemmas::held_for_all, crate::proofs::QueryLemmas::each_covers))]
    pub fn and_all(first: Query, others: Vec<Query>) -> Result<Query, Fault>
        ensures tree { IfOk result (λ query. tree_of query ≡ each_of (tree (tree_of first) (trees_of others.items))) }
        ensures matches { IfOk result (λ query. (ts : List IndexToken) (doc : ℕ) → matches query ts doc ≡ (matches first ts doc && list_all (λ q. matches q ts doc) others.items)) }
        ensures fields { IfOk result (λ query. (n : ℕ) → has_fields n query ≡ (has_fields n first && list_all (has_fields n) others.items)) }
        ensures positions { IfOk result (λ query. (entries : List SchemaEntry) → keeps_positions entries query ≡ (keeps_positions entries first && list_all (keeps_positions entries) others.items)) }
        ensures covers { IfOk result (λ query. (n : ℕ) → covers_docs n query ≡ (covers_docs n first && list_all (covers_docs n) others.items)) }
        ensures only { OnlyMemory result }
    {
        let mut queries = others;
        match queries.insert(0, first) {
            Ok(()) => Ok(Query::And(queries)),
            Err(refused) => Err(Fault::from(refused)),
        }
    }

    /// Returns the query that matches what at least one of some queries matches; no document if there are
    /// none.
    #[tactic(auto, using(crate::proofs::QueryLemmas::or_tree, crate::proofs::QueryLemmas::or_matches, crate::proofs::QueryLemmas::or_fields, crate::proofs::QueryLemmas::or_positions, crate::proofs::QueryLemmas::or_covers))]
    pub fn or_any(queries: Vec<Query>) -> Query
        ensures tree { tree_of result ≡ any_of (trees_of queries.items) }
        ensures matches { (ts : List IndexToken) (doc : ℕ) → matches result ts doc ≡ list_any (λ q. matches q ts doc) queries.items }
        ensures fields { (n : ℕ) → has_fields n result ≡ list_all (has_fields n) queries.items }
        ensures positions { (entries : List SchemaEntry) → keeps_positions entries result ≡ list_all (keeps_positions entries) queries.items }
        ensures covers { (n : ℕ) → covers_docs n result ≡ list_all (covers_docs n) queries.items }
    {
        Query::Or(queries)
    }

    /// Bounds what the query says of all documents: each part that matches all documents below a number matches
    /// those of them that are below `num_docs`. For these documents the query matches what it did. A search of an
    /// index with so many documents then passes no more of them: without a bound, a part for all documents has
    /// 2^31 - 1.
    #[tactic(auto, using(crate::proofs::BoundLemmas::same_below, crate::proofs::BoundLemmas::bounded_holds))]
    pub fn bound(&mut self, num_docs: DocId)
        ensures tree { tree_of self.new ≡ bounded num_docs (tree_of self.old) }
        ensures same { (ts : List IndexToken) (doc : ℕ) → doc < num_docs → matches self.new ts doc ≡ matches self.old ts doc }
        ensures fields { (n : ℕ) → has_fields n self.new ≡ has_fields n self.old }
        ensures positions { (entries : List SchemaEntry) → keeps_positions entries self.new ≡ keeps_positions entries self.old }
    {
        bound_query(self, num_docs);
    }

    /// Returns whether each term belongs to a field of the schema.
    #[cycle(has_fields)]
    #[tactic(auto, using(crate::proofs::QueryLemmas::nothing_fields, crate::proofs::QueryLemmas::all_fields, crate::proofs::QueryLemmas::term_fields, crate::proofs::QueryLemmas::phrase_fields, crate::proofs::QueryLemmas::phrase_prefix_fields, crate::proofs::QueryLemmas::range_fields, crate::proofs::QueryLemmas::and_fields, crate::proofs::QueryLemmas::or_fields, crate::proofs::QueryLemmas::and_not_fields))]
    pub fn has_fields(&self, schema: &Schema) -> bool
        ensures { result ≡ has_fields (length schema.now) self.now }
    {
        match self {
            Query::Empty => true,
            Query::All(_) => true,
            Query::Term(term) => is_in(term, schema),
            Query::Phrase(first, others, _) => is_in(first, schema) && are_in(others, schema),
            Query::PhrasePrefix(phrase) => is_phrase_in(phrase, schema),
            Query::Range(range) => is_in(&range.prefix, schema),
            Query::And(queries) => have_fields(queries, schema),
            Query::Or(queries) => have_fields(queries, schema),
            Query::AndNot(first, other) => first.has_fields(schema) && other.has_fields(schema),
        }
    }

    /// Returns whether the fields of all phrases keep positions.
    #[cycle(keeps_positions)]
    #[tactic(auto, using(crate::proofs::QueryLemmas::nothing_positions, crate::proofs::QueryLemmas::all_positions, crate::proofs::QueryLemmas::term_positions, crate::proofs::QueryLemmas::phrase_positions, crate::proofs::QueryLemmas::phrase_prefix_positions, crate::proofs::QueryLemmas::range_positions, crate::proofs::QueryLemmas::and_positions, crate::proofs::QueryLemmas::or_positions, crate::proofs::QueryLemmas::and_not_positions))]
    pub fn keeps_positions(&self, schema: &Schema) -> bool
        ensures { result ≡ keeps_positions schema.now self.now }
    {
        match self {
            Query::Empty => true,
            Query::All(_) => true,
            Query::Term(_) => true,
            Query::Range(_) => true,
            Query::Phrase(first, others, _) => {
                has_positions_in(first, schema) && have_positions_in(others, schema)
            }
            Query::PhrasePrefix(phrase) => phrase_has_positions_in(phrase, schema),
            Query::And(queries) => keep_positions(queries, schema),
            Query::Or(queries) => keep_positions(queries, schema),
            Query::AndNot(first, other) => {
                first.keeps_positions(schema) && other.keeps_positions(schema)
            }
        }
    }
}

// Bounds the parts of a query that match all documents. It recurses once for each level of nesting.
#[cycle(bound_query)]
#[tactic(auto, using(crate::proofs::QueryLemmas::nothing_tree, crate::proofs::QueryLemmas::all_tree, crate::proofs::QueryLemmas::term_tree, crate::proofs::QueryLemmas::phrase_tree, crate::proofs::QueryLemmas::phrase_prefix_tree, crate::proofs::QueryLemmas::range_tree, crate::proofs::QueryLemmas::and_tree, crate::proofs::QueryLemmas::or_tree, crate::proofs::QueryLemmas::and_not_tree))]
fn bound_query(query: &mut Query, num_docs: DocId)
    ensures { tree_of query.new ≡ bounded num_docs (tree_of query.old) }
{
    match query {
        Query::Empty => {}
        Query::All(limit) => *limit = (*limit).min(num_docs),
        Query::Term(_) => {}
        Query::Phrase(_, _, _) => {}
        Query::PhrasePrefix(_) => {}
        Query::Range(_) => {}
        Query::And(queries) => bound_each(queries.as_mut_slice(), num_docs),
        Query::Or(queries) => bound_each(queries.as_mut_slice(), num_docs),
        Query::AndNot(first, other) => {
            bound_query(first, num_docs);
            bound_query(other, num_docs);
        }
    }
}

// Bounds the parts of each query that match all documents.
#[cycle(bound_query)]
fn bound_each(queries: &mut [Query], num_docs: DocId)
    ensures { trees_of queries.new ≡ each_bounded num_docs (trees_of queries.old) }
{
    for query in queries.iter_mut() {
        bound_query(query, num_docs);
    }
}

// Whether the terms of all queries are of fields of the schema.
#[cycle(has_fields)]
fn have_fields(queries: &Vec<Query>, schema: &Schema) -> bool
    ensures { result ≡ list_all (has_fields (length schema.now)) queries.now.items }
{
    for query in queries {
        if !query.has_fields(schema) {
            return false;
        }
    }
    true
}

// Whether the fields of the phrases of all queries keep positions.
#[cycle(keeps_positions)]
fn keep_positions(queries: &Vec<Query>, schema: &Schema) -> bool
    ensures { result ≡ list_all (keeps_positions schema.now) queries.now.items }
{
    for query in queries {
        if !query.keeps_positions(schema) {
            return false;
        }
    }
    true
}

// A list of two queries.
fn pair(alloc: Global, first: Query, other: Query) -> Result<Vec<Query>, Fault>
    ensures pair { IfOk result (λ queries. queries.items ≡ first ∷ other ∷ []) }
    ensures only { OnlyMemory result }
{
    Ok(vec![in alloc; first, other]?)
}

// Two queries, each in a box.
fn boxed(alloc: Global, first: Query, other: Query) -> Result<(Box<Query>, Box<Query>), Fault>
    ensures first { IfOk result (λ boxes. boxes.0.value ≡ first) }
    ensures other { IfOk result (λ boxes. boxes.1.value ≡ other) }
    ensures only { OnlyMemory result }
{
    let first = match Box::new(alloc, first) {
        Ok(first) => first,
        Err(refused) => {
            drop(other);
            return Err(Fault::from(refused));
        }
    };
    match Box::new(alloc, other) {
        Ok(other) => Ok((first, other)),
        Err(refused) => {
            drop(first);
            Err(Fault::from(refused))
        }
    }
}

// Whether a term's field is one of the schema's.
fn is_in(term: &Term, schema: &Schema) -> bool
    ensures { result ≡ nat_lt term.now.field (length schema.now) }
{
    (term.field().field_id() as usize) < schema.num_fields()
}

fn are_in(others: &[PhraseTerm], schema: &Schema) -> bool
    ensures { result ≡ list_all (λ o. nat_lt o.term.field (length schema.now)) others.now }
{
    for other in others {
        if !is_in(&other.term, schema) {
            return false;
        }
    }
    true
}

// Whether the fields of all terms of a phrase with a prefix are among the schema's.
#[tactic(auto, using(crate::proofs::PhrasePrefixLemmas::fields_of_each))]
fn is_phrase_in(phrase: &PhrasePrefix, schema: &Schema) -> bool
    ensures { result ≡ phrase_is_within (length schema.now) phrase.now.first (others_with phrase.now phrase.now.last.prefix.value) }
{
    is_in(&phrase.first, schema)
        && (are_in(&phrase.others, schema) && is_in(&phrase.last.prefix, schema))
}

// Whether a term's field keeps positions.
fn has_positions_in(term: &Term, schema: &Schema) -> bool
    ensures { result ≡ has_positions_in schema.now term.now }
{
    if !is_in(term, schema) {
        return false;
    }
    schema
        .get_field_entry(term.field())
        .index_record_option()
        .has_positions()
}

fn have_positions_in(others: &[PhraseTerm], schema: &Schema) -> bool
    ensures { result ≡ list_all (λ o. has_positions_in schema.now o.term) others.now }
{
    for other in others {
        if !has_positions_in(&other.term, schema) {
            return false;
        }
    }
    true
}

// Whether the fields of all terms of a phrase with a prefix keep positions.
#[tactic(auto, using(crate::proofs::PhrasePrefixLemmas::positions_of_each))]
fn phrase_has_positions_in(phrase: &PhrasePrefix, schema: &Schema) -> bool
    ensures { result ≡ phrase_has_positions schema.now phrase.now.first (others_with phrase.now phrase.now.last.prefix.value) }
{
    has_positions_in(&phrase.first, schema)
        && (have_positions_in(&phrase.others, schema)
            && has_positions_in(&phrase.last.prefix, schema))
}
