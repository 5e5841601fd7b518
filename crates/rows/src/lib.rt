//! Rows of cells: the contract of any rows, however they are stored; the batches in which they answer a scan; and the
//! oldest version in a range, found by their reads. A plain map of rows in memory is the reference in tests. Beside
//! rows, the contract of any source of stamps.
#![tactic(auto)]

mod batches;
mod cell_version;
mod laws;
mod oldest_version;
mod plain;
mod row_edits;
mod rows;
mod slots;
mod stamps;

pub use batches::{BatchLimits, CellVersions, VersionBatch};
pub use cell_version::CellVersion;
pub use laws::{one_newest, one_next_cell};
pub use oldest_version::oldest;
pub use plain::PlainRows;
pub use row_edits::RowEdits;
pub use rows::Rows;
pub use stamps::Stamps;
