//! Open segments, as they are merged.
ghost use Rattle.std.specs.Prelude.{◌≡◌, IfOk, map};
ghost use Rattle.std.specs.Option.{option_map};
ghost use Rattle.ii_io.specs.Faults.{OnlyMemory};
ghost use Rattle.ii_counts_merger.specs.CountsSources.{opened_counts};
ghost use Rattle.ii_merger.specs.MergedIndex.{opened_segment};
ghost use Rattle.nequllpa_merging.specs.MergedSegments.{counts_source_if, counts_sources, merge_source};
ghost use Rattle.nequllpa_merging.specs.OpenedSegments.{opened_view};

use crate::opening::OpenedSegment;
use ii_base::Fault;
use ii_counts_merger::CountsSource;
use ii_directory::ReadAt;
use ii_merger::MergeSource;
use std::alloc::Global;

// Returns the files of each segment.
pub(crate) fn merge_sources<'a, F: ReadAt + Drop>(
    alloc: Global,
    segments: &'a [OpenedSegment<F>],
) -> Result<Vec<MergeSource<'a>>, Fault>
    ensures ok { IfOk result (λ v. map opened_segment v.items ≡ map merge_source (map opened_view segments.now)) }
    ensures only { OnlyMemory result }
{
    let mut sources = Vec::new(alloc);
    for place in 0..segments.len() {
        let source = merge_source(&segments[place]);
        sources.push(source)?;
    }
    Ok(sources)
}

// Returns the files of a segment.
fn merge_source<'a, F: ReadAt + Drop>(segment: &'a OpenedSegment<F>) -> MergeSource<'a>
    ensures { opened_segment result ≡ merge_source (opened_view segment.now) }
{
    MergeSource {
        index: &segment.index,
        alive: &segment.alive,
    }
}

// Returns the counts of each segment, or `None` if a segment has none.
pub(crate) fn counts_sources<'a, F: ReadAt + Drop>(
    alloc: Global,
    segments: &'a [OpenedSegment<F>],
) -> Result<Option<Vec<CountsSource<'a>>>, Fault>
    ensures ok { IfOk result (λ found. option_map (λ v. map opened_counts v.items) found ≡ counts_sources (map opened_view segments.now)) }
    ensures only { OnlyMemory result }
{
    let mut sources = Vec::new(alloc);
    for place in 0..segments.len() {
        let Some(source) = counts_source(&segments[place]) else {
            return Ok(None);
        };
        sources.push(source)?;
    }
    Ok(Some(sources))
}

// Returns the counts of a segment, if it has some.
fn counts_source<'a, F: ReadAt + Drop>(segment: &'a OpenedSegment<F>) -> Option<CountsSource<'a>>
    ensures { option_map opened_counts result ≡ counts_source_if segment.now.counts (opened_view segment.now) }
{
    match &segment.counts {
        Some(counts) => Some(CountsSource {
            counts,
            alive: &segment.alive,
        }),
        None => None,
    }
}
