//! What the scores of the best documents are made of.
ghost use Rattle.std.specs.Prelude.{◌≡◌, ◌-◌, ◌<◌, ◌^◌, IfErr, IfOk, IfSome, map, min, true};
ghost use Rattle.std.specs.List.{sum_by};
ghost use Rattle.ii_query_parser.specs.Queries.{has_fields};
ghost use Rattle.ii_ranking.specs.Segments.{segment_of};
ghost use Rattle.ii_ranking.specs.declared.shares.Share.{Share};
ghost use Rattle.ii_segment_search.specs.Searcher.{HaveFields, total_living};

use ii_explanation::explain_segments;
use ii_index::Searcher;
use ii_ram::{DocId, Fault, Query};
use ii_ranking::{GatheredStatistics, RankedSegment, Score, Share, TopDocs, search_segments};
use std::alloc::Global;

/// The shares of each of the best documents of segments add up to the score with which it is returned, at most
/// 2^64 - 1. Returns the score and the shares of the best document at `place`, or `None` if there are fewer.
pub fn the_shares_of_the_best_add_up<'q>(
    alloc: Global,
    segments: &[RankedSegment<'_>],
    statistics: &GatheredStatistics,
    query: &'q Query,
    limit: usize,
    place: usize,
) -> Result<Option<(Score, Vec<Share<'q>>)>, Fault>
    requires fields { HaveFields query.now (map segment_of segments.now) }
    requires few { total_living (map segment_of segments.now) < 2 ^ 32 }
    ensures { IfOk result (λ found. IfSome found (λ r. min (2 ^ 64 - 1) r.0 ≡ min (2 ^ 64 - 1) (sum_by (λ (s : Share). s.score) r.1.items))) }
{
    let docs = TopDocs::with_limit(limit);
    let best = search_segments(alloc, segments, statistics, query, &docs)?;
    if place >= best.len() {
        return Ok(None);
    }
    let (score, number) = best[place];
    drop(best);
    let shares = explain_segments(alloc, segments, statistics, query, number)?;
    Ok(Some((score, shares)))
}

/// Once a search over segments returned, the shares of a document fail only with `OutOfMemory`. Returns `None` if the
/// search fails.
pub fn what_was_found_is_explained<'q>(
    alloc: Global,
    segments: &[RankedSegment<'_>],
    statistics: &GatheredStatistics,
    query: &'q Query,
    number: DocId,
) -> Option<Result<Vec<Share<'q>>, Fault>>
    requires fields { HaveFields query.now (map segment_of segments.now) }
    requires few { total_living (map segment_of segments.now) < 2 ^ 32 }
    ensures { IfSome result (λ shares. IfErr shares (λ e. e ≡ Fault.OutOfMemory)) }
{
    let docs = TopDocs::with_limit(1);
    match search_segments(alloc, segments, statistics, query, &docs) {
        Ok(best) => {
            drop(best);
            Some(explain_segments(alloc, segments, statistics, query, number))
        }
        Err(_) => None,
    }
}

/// The shares of each of the best documents of an index add up to the score with which it is returned, at most
/// 2^64 - 1. Returns the score and the shares of the best document at `place`, or `None` if there are fewer.
pub fn the_shares_of_the_best_of_an_index_add_up<'q>(
    alloc: Global,
    searcher: &Searcher,
    query: &'q Query,
    limit: usize,
    place: usize,
) -> Result<Option<(Score, Vec<Share<'q>>)>, Fault>
    requires { has_fields searcher.now.num_fields query.now ≡ true }
    ensures { IfOk result (λ found. IfSome found (λ r. min (2 ^ 64 - 1) r.0 ≡ min (2 ^ 64 - 1) (sum_by (λ (s : Share). s.score) r.1.items))) }
{
    let docs = TopDocs::with_limit(limit);
    let best = searcher.top_docs(alloc, query, &docs)?;
    if place >= best.len() {
        return Ok(None);
    }
    let (score, number) = best[place];
    drop(best);
    let shares = searcher.explain(alloc, query, number)?;
    Ok(Some((score, shares)))
}

/// A number that no document of an index has is that of a document without shares. Returns how many shares the
/// document with a number has, or `None` if there is such a document.
pub fn numbers_of_no_document_have_no_shares(
    alloc: Global,
    searcher: &Searcher,
    query: &Query,
    number: DocId,
) -> Result<Option<usize>, Fault>
    requires { has_fields searcher.now.num_fields query.now ≡ true }
    ensures { IfOk result (λ found. IfSome found (λ n. n ≡ 0)) }
{
    if number < searcher.num_docs() {
        return Ok(None);
    }
    let shares = searcher.explain(alloc, query, number)?;
    Ok(Some(shares.len()))
}
