//! The cluster of tablets: rows of cells, each of which is read and changed alone, over one store of files.
#![tactic(auto)]

mod cluster;
mod commands;
mod fill;
mod journal;
mod place_cache;
mod recorded;
mod tablet_merge;

pub use cluster::laws::{
    cells_by_tablet, keeps_following, opens_following, root_is_stored, root_outlasts_flushes,
    root_outlasts_merges, root_outlasts_sweeps, root_stays,
};
pub use cluster::{Cluster, ROOT_NAME};
pub use commands::{Command, Outcome};
pub use fill::FlushLimits;
pub use journal::Journal;
pub use recorded::Recorded;
pub use rows::{PlainRows, RowEdits, Rows, oldest, one_newest, one_next_cell};
pub use tablet::MergePolicy;
