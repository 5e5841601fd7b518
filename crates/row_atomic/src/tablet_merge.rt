//! A merge of a tablet's files that is written in steps.

use file_store::Files;
use std::marker::Model;
use std::snapshot::Snapshot;
use tablet::{RowRange, RunMerge, Tablet};

/// A merge of the newest files of a tablet that is under way. Other calls may come between two of its steps.
#[derive(Drop)]
pub(crate) struct TabletMerge<F: Files> {
    /// The number of the tablet.
    pub(crate) tablet: u32,
    /// The rows that it had when the merge was begun.
    pub(crate) range: RowRange,
    /// The name of the merge's file, and the most bytes that it may have.
    pub(crate) name: u64,
    pub(crate) limit: u64,
    /// The tablet when the merge was begun.
    pub(crate) was: Snapshot<Tablet>,
    pub(crate) merge: RunMerge<F::Writing>,
}

impl<F: Files> Model for TabletMerge<F> {
    ghost use Rattle.std.specs.Prelude.{◌≡◌, length, map, take};
    ghost use Rattle.row_atomic.specs.MergeStates.{MergeState};
    ghost use Rattle.sorted_file.specs.File.{name_of};
    ghost use Rattle.sorted_file.specs.PartialFiles.{CanGoOn, entries_of, keeps_erasures, limit_of, next_of, target_of};
    ghost use Rattle.tablet.specs.RunMerges.{keeps_of, sources_of, written_to};
    ghost use Rattle.tablet.specs.Views.{files_of};

    ghost Value = { MergeState };

    ghost view = { λ merge.
        record {
          tablet = merge.tablet;
          range = merge.range;
          files = take (length (sources_of merge.merge)) (files_of merge.was.value);
          name = merge.name;
          limit = merge.limit;
          keep_erasures = keeps_of merge.merge;
          entries = entries_of (written_to merge.merge);
          next = next_of (written_to merge.merge);
        } };

    ghost invariant = { λ merge.
        CanGoOn F.has F.writes_to (written_to merge.merge)
        × (keeps_erasures (written_to merge.merge) ≡ keeps_of merge.merge)
        × (target_of (written_to merge.merge) ≡ merge.name)
        × (limit_of (written_to merge.merge) ≡ merge.limit)
        × (map name_of (take (length (sources_of merge.merge)) (files_of merge.was.value))
        ≡ sources_of merge.merge) };
}

impl<F: Files> TabletMerge<F> {
    ghost use Rattle.std.specs.Prelude.{◌≡◌, map};
    ghost use Rattle.sorted_file.specs.File.{name_of};

    /// Gives the merge up. No file changes.
    pub(crate) fn give_up(self, files: &mut F)
        ensures same { F.contents files.new ≡ F.contents files.old }
        ensures told { F.faults files.new ≡ F.faults files.old }
    {
        let TabletMerge { merge, .. } = self;
        merge.give_up(files);
    }

    /// The names of the files that are merged, the newest first.
    pub(crate) fn sources(&self) -> &[u64]
        ensures { result.now ≡ map name_of self.now.files }
    {
        self.merge.sources()
    }
}
