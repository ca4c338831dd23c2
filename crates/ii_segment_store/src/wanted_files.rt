//! Which files of its segments an index is loaded with.
ghost use Rattle.std.specs.Prelude.{◌≡◌, map};
ghost use Rattle.ii_store.specs.IndexMeta.{meta_view, segment_view};
ghost use Rattle.ii_segment_store.specs.WantedFiles.{is_wanted, wanted_list, wanted_segment};

use ii_store::{IndexMeta, SegmentComponent, SegmentMeta};

/// Which files of its segments an index is loaded with. The other files are loaded as if no segment listed them: they
/// aren't read, so it makes no difference whether they are there, or damaged.
#[derive(Clone, Copy, Debug, PartialEq, Eq)]
pub enum WantedFiles {
    /// All files.
    All,
    /// All but the stored documents and the tables of blocks.
    WithoutStore,
    /// All but the counts of tokens, the stored documents and the tables of blocks.
    WithoutCountsAndStore,
}

impl WantedFiles {
    /// Returns whether the file of a component is wanted.
    pub fn has(self, component: SegmentComponent) -> bool
        ensures { result ≡ is_wanted self component }
    {
        let is_store = component.is_same(SegmentComponent::Store);
        let is_tables = component.is_same(SegmentComponent::BlockTables);
        match self {
            WantedFiles::All => true,
            WantedFiles::WithoutStore => !is_store & !is_tables,
            WantedFiles::WithoutCountsAndStore => {
                !is_store & !is_tables & !component.is_same(SegmentComponent::Counts)
            }
        }
    }

    // Returns a list of segments, each of which lists the wanted files alone.
    pub(crate) fn in_list(self, list: IndexMeta) -> IndexMeta
        ensures { meta_view result ≡ wanted_list self (meta_view list) }
    {
        let mut list = list;
        self.keep_in_each(list.segments.as_mut_slice());
        list
    }

    // Removes the files that aren't wanted from those that segments list.
    fn keep_in_each(self, segments: &mut [SegmentMeta])
        ensures { map segment_view segments.new ≡ map (wanted_segment self) (map segment_view segments.old) }
    {
        for segment in segments.iter_mut() {
            self.keep_in(segment);
        }
    }

    // Removes the files that aren't wanted from those that a segment lists.
    fn keep_in(self, segment: &mut SegmentMeta)
        ensures { segment_view segment.new ≡ wanted_segment self (segment_view segment.old) }
    {
        segment.files.retain(|file| self.has(file.component));
    }
}
