//! Cells with the newest versions of their columns, and batches of them.

ghost use Rattle.std.specs.Prelude.{◌≡◌, ◌-◌, length, OnOk, OnErr, Some, IsOkUnless};
ghost use Rattle.cell_key.specs.Entries.{or_else};
ghost use Rattle.rows.specs.Batches.{bytes_in, bytes_of, value_bytes, Keeps};

use crate::cell_version::CellVersion;
use cell_key::{Family, Qualifier, Refusal, Row, Stamp};
use std::alloc::Global;

/// A cell with the newest version of each of its columns at or below a stamp; `None` for a column without one.
#[derive(Drop)]
pub struct CellVersions {
    pub row: Row,
    pub family: Family,
    pub data: Option<CellVersion>,
    pub lock: Option<CellVersion>,
    pub write: Option<CellVersion>,
}

/// Cells in order, and whether no cell is left after them.
#[derive(Drop)]
pub struct VersionBatch {
    pub cells: Vec<CellVersions>,
    pub is_last: bool,
}

/// The limits of a batch: it is full once it has this many cells, or once its values have this many bytes together.
#[derive(Clone, Copy, Debug)]
pub struct BatchLimits {
    pub cells: usize,
    pub bytes: usize,
}

impl BatchLimits {
    /// The limits left after these cells.
    pub fn after(self, cells: &[CellVersions]) -> BatchLimits
        ensures cells { result.cells ≡ self.cells - length cells.now }
        ensures bytes { result.bytes ≡ self.bytes - bytes_in cells.now }
    {
        let mut bytes = self.bytes;
        for cell in cells {
            bytes = cell.bytes_after(bytes);
        }
        BatchLimits {
            cells: self.cells.saturating_sub(cells.len()),
            bytes,
        }
    }
}

/// Keeps a version as a column's newest, if that has none yet.
fn keep_newest(
    alloc: Global,
    newest: &mut Option<CellVersion>,
    stamp: Stamp,
    value: &[u8],
) -> Result<(), Refusal>
    ensures ok { OnOk result (newest.new ≡ or_else newest.old (Some (stamp, value.now))) }
    ensures refusal { IsOkUnless result Refusal.NoMemory }
{
    if newest.is_none() {
        *newest = Some(CellVersion::new(alloc, stamp, value)?);
    }
    Ok(())
}

/// The bytes left after a value's, or 0 if the value has more.
fn bytes_after(bytes: usize, found: &Option<CellVersion>) -> usize
    ensures { result ≡ bytes - value_bytes found.now }
{
    match found {
        Some(version) => bytes.saturating_sub(version.value().len()),
        None => bytes,
    }
}

impl CellVersions {
    /// Keeps a version as its column's newest, if that has none yet. Answers `NoMemory` if there is no memory for the
    /// value.
    pub fn keep(
        &mut self,
        alloc: Global,
        qualifier: Qualifier,
        stamp: Stamp,
        value: &[u8],
    ) -> Result<(), Refusal>
        ensures ok { OnOk result (Keeps qualifier (stamp, value.now) self.old self.new) }
        ensures refusal { IsOkUnless result Refusal.NoMemory }
    {
        match qualifier {
            Qualifier::Data => keep_newest(alloc, &mut self.data, stamp, value),
            Qualifier::Lock => keep_newest(alloc, &mut self.lock, stamp, value),
            Qualifier::Write => keep_newest(alloc, &mut self.write, stamp, value),
        }
    }

    /// The bytes left after those of the cell's values, or 0 if these have more.
    pub fn bytes_after(&self, bytes: usize) -> usize
        ensures { result ≡ bytes - bytes_of self.now }
    {
        let bytes = bytes_after(bytes, &self.data);
        let bytes = bytes_after(bytes, &self.lock);
        bytes_after(bytes, &self.write)
    }
}
