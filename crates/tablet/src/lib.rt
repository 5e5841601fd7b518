//! Tablets: a range of rows, whose recent writes are in a memtable and the older ones in sorted files
//! (Bigtable, tablet serving).
#![tactic(auto)]

mod caches;
mod compactions;
mod gathering;
mod laws;
mod lookup;
mod merge_policy;
mod open_files;
mod ranges;
mod reads;
mod run_merge;
mod scan;
mod sources;
mod split;
mod tablet;

pub use compactions::Compaction;
pub use laws::{
    edits_show, few_levels, files_are_there, others_stay, runs_alike, same_cells, shows_its_lists,
    stay_in_levels, stays_in_range, unnamed_may_go,
};
pub use memtable::Prepared;
pub use merge_policy::MergePolicy;
pub use ranges::RowRange;
pub use rows::{BatchLimits, CellVersion, CellVersions, VersionBatch};
pub use run_merge::RunMerge;
pub use tablet::Tablet;
