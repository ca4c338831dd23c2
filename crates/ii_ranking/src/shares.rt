//! What the score of a document is made of.
ghost use Rattle.std.specs.Prelude.{◌≡◌, ◌<◌, ◌≤◌, ◌^◌, ◌++◌, ℕ, List, None, IfErr, IfOk, OnOk, if◌then◌else◌, length, map, min, nat_lt, take, true};
ghost use Rattle.std.specs.List.{list_all};
ghost use Rattle.std.specs.Option.{option_map, option_to_list};
ghost use Rattle.ii_io.specs.Faults.{OnlyMemory};
ghost use Rattle.ii_base.specs.Schema.{SchemaEntry};
ghost use Rattle.ii_base.specs.declared.doc_id.TheConstants.{TERMINATED};
ghost use Rattle.ii_bm25.specs.Bm25.{bm25_score};
ghost use Rattle.ii_definitions.specs.Tokens.{IndexToken};
ghost use Rattle.ii_docset.specs.Intersection.{has_doc};
ghost use Rattle.ii_query_parser.specs.Queries.{any_of, each_of, has_fields, one_phrase, one_term, tree_of, trees_of};
ghost use Rattle.ii_reader.specs.OpenIndex.{IndexHolds};
ghost use Rattle.ii_search.specs.Found.{found_in};
ghost use Rattle.ii_ranking.specs.Scores.{IsScoreFault, damage_of, opened_or_none, phrase_damage, query_damage, scored_by_tokens, scored_in, term_damage, trees_damage};
ghost use Rattle.ii_ranking.specs.Shares.{GivesShares, constant_share, has_shares, phrase_share, share_of, term_share, tree_shares};

use crate::phrase_scores::{count_phrase, phrase_norms};
use crate::term_scores::{goes_to, norm_id, norms_of, weight_of};
use ii_base::{DocId, Fault, IndexRecordOption, TERMINATED, Term};
use ii_bm25::{Bm25StatisticsProvider, Bm25Weight, SCORE_ONE, Score};
use ii_docset::Postings;
use ii_query_parser::{PhraseTerm, Query};
use ii_reader::OpenIndex;
use ii_search::{postings_of, search};
use std::alloc::Global;

/// A part of a query that a document matches, and what it adds to the document's score.
#[derive(Clone, Copy)]
pub struct Share<'q> {
    /// The part: a term, a phrase, a phrase whose last term is one of a range, all documents or a range.
    pub part: &'q Query,
    /// Its BM25 weight, in units of 2^-22; 0 where each document scores 1.0.
    pub weight: u32,
    /// How often it occurs in the document; 1 where each document scores 1.0.
    pub count: u32,
    /// The id of the document's norm in the part's field, 1 where it has none.
    pub fieldnorm_id: u8,
    /// What it adds to the document's score.
    pub score: Score,
}

/// Returns what the score of a document is made of: a share for each part of a query that the document matches, in
/// the order of the query; nothing for what is excluded, and nothing at all if the document doesn't match the query.
/// The shares add up to the document's score, by `shares_add_up`. See `score_docs` for requirements and errors.
pub fn explain<'q, S: Bm25StatisticsProvider>(
    alloc: Global,
    index: &OpenIndex,
    statistics: &S,
    query: &'q Query,
    doc: DocId,
) -> Result<Vec<Share<'q>>, Fault>
    requires fields { has_fields (length index.now.readers) query.now ≡ true }
    ensures shares { IfOk result (λ shares. map share_of shares.items ≡ tree_shares (scored_in index.now (S.statistics statistics.now)) (tree_of query.now) doc) }
    ensures sound { OnOk result (query_damage index.now query.now ≡ None) }
    ensures fault { IfErr result (IsScoreFault (query_damage index.now query.now)) }
    // where the index holds tokens of more documents than this number
    ensures holds { (schema : List SchemaEntry) (held : ℕ) (tokens : List IndexToken) → IndexHolds schema held index.now tokens → doc < held → held < 2 ^ 32
        → has_fields (length schema) query.now ≡ true → GivesShares (tree_shares (scored_by_tokens schema tokens (S.statistics statistics.now)) (tree_of query.now) doc) result }
{
    let mut shares = Vec::new(alloc);
    match add_shares(alloc, index, statistics, query, doc, &mut shares) {
        Ok(()) => Ok(shares),
        Err(fault) => Err(fault),
    }
}

// Adds the shares of the parts of a query that a document matches. It recurses once for each level of nesting.
#[cycle(add_shares)]
#[tactic(auto, using(ii_query_parser::proofs::QueryLemmas::term_fields, ii_query_parser::proofs::QueryLemmas::phrase_fields, ii_query_parser::proofs::QueryLemmas::and_not_fields))]
fn add_shares<'q, S: Bm25StatisticsProvider>(
    alloc: Global,
    index: &OpenIndex,
    statistics: &S,
    query: &'q Query,
    doc: DocId,
    shares: &mut Vec<Share<'q>>,
) -> Result<(), Fault>
    requires fields { has_fields (length index.now.readers) query.now ≡ true }
    ensures added { OnOk result (map share_of shares.new.items ≡ map share_of shares.old.items ++ tree_shares (scored_in index.now (S.statistics statistics.now)) (tree_of query.now) doc) }
    ensures sound { OnOk result (query_damage index.now query.now ≡ None) }
    ensures fault { IfErr result (IsScoreFault (query_damage index.now query.now)) }
{
    match query {
        Query::Empty => Ok(()),
        Query::All(limit) => {
            push_share(shares, share_of_all(query, *limit, doc))?;
            Ok(())
        }
        Query::Term(term) => {
            let share = term_share(alloc, index, statistics, query, term, doc)?;
            push_share(shares, share)?;
            Ok(())
        }
        Query::Phrase(first, others, slop) => {
            let share = phrase_share(alloc, index, statistics, query, first, others, *slop, doc)?;
            push_share(shares, share)?;
            Ok(())
        }
        Query::PhrasePrefix(_) | Query::Range(_) => {
            let share = found_share(alloc, index, query, doc)?;
            push_share(shares, share)?;
            Ok(())
        }
        Query::And(queries) => add_each(alloc, index, statistics, queries, doc, shares),
        Query::Or(queries) => add_any(alloc, index, statistics, queries, doc, shares),
        Query::AndNot(first, other) => {
            let start = shares.len();
            add_shares(alloc, index, statistics, first, doc, shares)?;
            drop_excluded(alloc, index, statistics, other, doc, start, shares)
        }
    }
}

// Adds the shares of queries of which one has to match.
#[cycle(add_shares)]
#[inline(never)]
fn add_any<'q, S: Bm25StatisticsProvider>(
    alloc: Global,
    index: &OpenIndex,
    statistics: &S,
    queries: &'q Vec<Query>,
    doc: DocId,
    shares: &mut Vec<Share<'q>>,
) -> Result<(), Fault>
    requires fields { list_all (has_fields (length index.now.readers)) queries.now.items ≡ true }
    ensures added { OnOk result (map share_of shares.new.items ≡ map share_of shares.old.items ++ tree_shares (scored_in index.now (S.statistics statistics.now)) (any_of (trees_of queries.now.items)) doc) }
    ensures sound { OnOk result (trees_damage index.now (trees_of queries.now.items) ≡ None) }
    ensures fault { IfErr result (IsScoreFault (trees_damage index.now (trees_of queries.now.items))) }
{
    for query in queries {
        add_shares(alloc, index, statistics, query, doc, shares)?;
    }
    Ok(())
}

// Adds the shares of queries of which each has to match.
#[cycle(add_shares)]
#[inline(never)]
fn add_each<'q, S: Bm25StatisticsProvider>(
    alloc: Global,
    index: &OpenIndex,
    statistics: &S,
    queries: &'q Vec<Query>,
    doc: DocId,
    shares: &mut Vec<Share<'q>>,
) -> Result<(), Fault>
    requires fields { list_all (has_fields (length index.now.readers)) queries.now.items ≡ true }
    ensures added { OnOk result (map share_of shares.new.items ≡ map share_of shares.old.items ++ tree_shares (scored_in index.now (S.statistics statistics.now)) (each_of (trees_of queries.now.items)) doc) }
    ensures sound { OnOk result (trees_damage index.now (trees_of queries.now.items) ≡ None) }
    ensures fault { IfErr result (IsScoreFault (trees_damage index.now (trees_of queries.now.items))) }
{
    let start = shares.len();
    let mut each_matches = true;
    for query in queries {
        let before = shares.len();
        add_shares(alloc, index, statistics, query, doc, shares)?;
        each_matches &= before < shares.len();
    }
    keep_if(shares, start, each_matches);
    Ok(())
}

// Drops the shares from a place on, if a document matches a query.
#[cycle(add_shares)]
#[inline(never)]
fn drop_excluded<'q, S: Bm25StatisticsProvider>(
    alloc: Global,
    index: &OpenIndex,
    statistics: &S,
    query: &'q Query,
    doc: DocId,
    start: usize,
    shares: &mut Vec<Share<'q>>,
) -> Result<(), Fault>
    requires fields { has_fields (length index.now.readers) query.now ≡ true }
    requires start { start ≤ length shares.old.items }
    ensures kept { OnOk result (map share_of shares.new.items ≡ (if has_shares (tree_shares (scored_in index.now (S.statistics statistics.now)) (tree_of query.now) doc) then take start (map share_of shares.old.items) else map share_of shares.old.items)) }
    ensures sound { OnOk result (query_damage index.now query.now ≡ None) }
    ensures fault { IfErr result (IsScoreFault (query_damage index.now query.now)) }
{
    let end = shares.len();
    add_shares(alloc, index, statistics, query, doc, shares)?;
    let is_excluded = end < shares.len();
    keep_if(shares, start, !is_excluded);
    Ok(())
}

// Drops the shares from a place on, unless they are kept.
fn keep_if(shares: &mut Vec<Share<'_>>, start: usize, is_kept: bool)
    ensures { shares.new.items ≡ (if is_kept then shares.old.items else take start shares.old.items) }
{
    if !is_kept {
        shares.truncate(start);
    }
}

// Appends a share, if there is one.
fn push_share<'q>(shares: &mut Vec<Share<'q>>, share: Option<Share<'q>>) -> Result<(), Fault>
    ensures pushed { OnOk result (map share_of shares.new.items ≡ map share_of shares.old.items ++ option_to_list (option_map share_of share.entry)) }
    ensures only { OnlyMemory result }
{
    match share {
        Some(share) => shares.push(share)?,
        None => (),
    }
    Ok(())
}

// Returns the share of all documents below a number, if a document is one of them.
fn share_of_all<'q>(part: &'q Query, limit: DocId, doc: DocId) -> Option<Share<'q>>
    ensures { option_map share_of result ≡ constant_share (tree_of part.now) (nat_lt doc (min limit TERMINATED)) }
{
    constant_share(part, doc < limit.min(TERMINATED))
}

// Returns the share of a part that always scores 1.0, if a document matches it.
fn constant_share<'q>(part: &'q Query, is_matching: bool) -> Option<Share<'q>>
    ensures { option_map share_of result ≡ constant_share (tree_of part.now) is_matching }
{
    if !is_matching {
        return None;
    }
    Some(Share {
        part,
        weight: 0,
        count: 1,
        fieldnorm_id: 1,
        score: SCORE_ONE,
    })
}

// Returns the share of a query that always scores 1.0, if a document matches it.
#[inline(never)]
fn found_share<'q>(
    alloc: Global,
    index: &OpenIndex,
    part: &'q Query,
    doc: DocId,
) -> Result<Option<Share<'q>>, Fault>
    requires fields { has_fields (length index.now.readers) part.now ≡ true }
    ensures found { IfOk result (λ share. option_map share_of share ≡ constant_share (tree_of part.now) (has_doc (opened_or_none (found_in index.now part.now)) doc)) }
    ensures sound { OnOk result (damage_of (found_in index.now part.now) ≡ None) }
    ensures fault { IfErr result (IsScoreFault (damage_of (found_in index.now part.now))) }
{
    let mut cursor = search(alloc, index, part)?;
    Ok(constant_share(part, goes_to(&mut cursor, doc)))
}

// Returns the share of a term, if a document has it.
#[inline(never)]
fn term_share<'q, S: Bm25StatisticsProvider>(
    alloc: Global,
    index: &OpenIndex,
    statistics: &S,
    part: &'q Query,
    term: &Term,
    doc: DocId,
) -> Result<Option<Share<'q>>, Fault>
    requires field { term.now.field < length index.now.readers }
    requires part { tree_of part.now ≡ one_term term.now }
    ensures found { IfOk result (λ share. option_map share_of share ≡ term_share (scored_in index.now (S.statistics statistics.now)) term.now doc) }
    ensures sound { OnOk result (term_damage index.now term.now ≡ None) }
    ensures fault { IfErr result (IsScoreFault (term_damage index.now term.now)) }
{
    let mut cursor = postings_of(index, term, IndexRecordOption::WithFreqs)?;
    let norms = norms_of(index, term.field())?;
    let weight = weight_of(alloc, statistics, term)?;
    if !goes_to(&mut cursor, doc) {
        return Ok(None);
    }
    Ok(Some(share_of_count(part, &weight, norm_id(&norms, doc), cursor.term_freq())))
}

// Returns the share of a phrase within a slop, if a document has it.
#[inline(never)]
fn phrase_share<'q, S: Bm25StatisticsProvider>(
    alloc: Global,
    index: &OpenIndex,
    statistics: &S,
    part: &'q Query,
    first: &Term,
    others: &[PhraseTerm],
    slop: u32,
    doc: DocId,
) -> Result<Option<Share<'q>>, Fault>
    requires first { first.now.field < length index.now.readers }
    requires others { list_all (λ o. nat_lt o.term.field (length index.now.readers)) others.now ≡ true }
    requires part { tree_of part.now ≡ one_phrase first.now others.now slop }
    ensures found { IfOk result (λ share. option_map share_of share ≡ phrase_share (scored_in index.now (S.statistics statistics.now)) first.now others.now slop doc) }
    ensures sound { OnOk result (phrase_damage index.now first.now others.now ≡ None) }
    ensures fault { IfErr result (IsScoreFault (phrase_damage index.now first.now others.now)) }
{
    let count = count_phrase(alloc, index, first, others, slop, doc)?;
    let (norms, weight) = phrase_norms(alloc, index, statistics, first, others)?;
    if count == 0 {
        return Ok(None);
    }
    Ok(Some(share_of_count(part, &weight, norm_id(&norms, doc), count)))
}

// Returns the share of a part of this weight that occurs so many times in a document with this norm id.
fn share_of_count<'q>(
    part: &'q Query,
    weight: &Bm25Weight,
    fieldnorm_id: u8,
    count: u32,
) -> Share<'q>
    requires { weight.now.weight < 2 ^ 32 }
    ensures { share_of result ≡ record { part = tree_of part.now; weight = weight.now.weight; count = count; norm_id = fieldnorm_id; score = bm25_score weight.now fieldnorm_id count } }
{
    Share {
        part,
        weight: number_of(weight),
        count,
        fieldnorm_id,
        score: weight.score(fieldnorm_id, count),
    }
}

// Returns a weight as a number, in units of 2^-22.
fn number_of(weight: &Bm25Weight) -> u32
    requires { weight.now.weight < 2 ^ 32 }
    ensures { result ≡ weight.now.weight }
{
    (weight.max_score() >> 16) as u32
}
