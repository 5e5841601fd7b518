//! The row that a request has read.

use cell_key::Row;
use rows::PlainRows;

/// A row as it was read, and the guard that it had then.
#[derive(Drop)]
pub(crate) struct HeldRow {
    pub(crate) row: Row,
    pub(crate) guard: u64,
    pub(crate) rows: PlainRows,
}
