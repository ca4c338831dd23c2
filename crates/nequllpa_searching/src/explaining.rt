//! What the scores of the best documents are made of.
ghost use Rattle.std.specs.Prelude.{◌≡◌, IfOk, None, map, string_bytes};
ghost use Rattle.std.specs.List.{All, AllZip, Contains};
ghost use Rattle.ii_io.specs.Faults.{OnlyMemory};
ghost use Rattle.ii_ranking.specs.Segments.{segment_of, segments_damage, segments_scored};
ghost use Rattle.ii_segment_search.specs.Searcher.{HaveFields};
ghost use Rattle.ii_statistics.specs.Statistics.{query_statistics};
ghost use Rattle.nequllpa_searching.specs.Explained.{IsExplained};
ghost use Rattle.nequllpa_opening.specs.RowFormats.{is_json};

use crate::share_rows::push_shares;
use ii_base::{DocId, Fault, Schema};
use ii_explanation::explain_segments;
use ii_ranking::{RankedSegment, Score};
use ii_search::Query;
use ii_statistics::QueryStatistics;
use nequllpa_opening::RowFormat;
use std::alloc::Global;

/// Returns for each of some documents with their scores, as `search_segments` returns them, what its score is made of,
/// as text (`push_shares`).
pub(crate) fn explanations(
    alloc: Global,
    schema: &Schema,
    format: RowFormat,
    segments: &[RankedSegment<'_>],
    statistics: &QueryStatistics<'_>,
    query: &Query,
    best: &[(Score, DocId)],
) -> Result<Vec<String>, Fault>
    requires fields { HaveFields query.now (map segment_of segments.now) }
    requires scored { All (Contains (segments_scored (query_statistics statistics.now) query.now 0 (map segment_of segments.now))) best.now }
    ensures explained { IfOk result (λ texts. AllZip (IsExplained (query_statistics statistics.now) query.now (map segment_of segments.now) (is_json format) schema.now) best.now (map string_bytes texts.items)) }
    ensures only { segments_damage query.now (map segment_of segments.now) ≡ None → OnlyMemory result }
{
    let mut texts = Vec::new(alloc);
    for one in best {
        let text = explanation(alloc, schema, format, segments, statistics, query, *one)?;
        texts.push(text)?;
    }
    Ok(texts)
}

// Returns for a document with its score what the score is made of, as text.
fn explanation(
    alloc: Global,
    schema: &Schema,
    format: RowFormat,
    segments: &[RankedSegment<'_>],
    statistics: &QueryStatistics<'_>,
    query: &Query,
    best: (Score, DocId),
) -> Result<String, Fault>
    requires fields { HaveFields query.now (map segment_of segments.now) }
    requires scored { Contains (segments_scored (query_statistics statistics.now) query.now 0 (map segment_of segments.now)) best }
    ensures explained { IfOk result (λ text. IsExplained (query_statistics statistics.now) query.now (map segment_of segments.now) (is_json format) schema.now best (string_bytes text)) }
    ensures only { segments_damage query.now (map segment_of segments.now) ≡ None → OnlyMemory result }
{
    let (_, number) = best;
    let shares = explain_segments(alloc, segments, statistics, query, number)?;
    let mut text = String::new(alloc);
    push_shares(alloc, &mut text, schema, format, &shares)?;
    Ok(text)
}
