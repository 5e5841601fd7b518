//! A reference for tests, which the store doesn't use: rows in one ordered map in memory.

ghost use Rattle.std.specs.Prelude.{◌≡◌, ⊤};
ghost use Rattle.rows.specs.Storage.{no_storage};
ghost use Rattle.std.specs.FinMap.{empty};

use crate::batches::{BatchLimits, VersionBatch};
use crate::row_edits::{RowEdits, all_edits};
use crate::rows::Rows;
use crate::slots::{self, Slots};
use cell_key::{Edit, Family, Qualifier, Refusal, Row, Stamp};
use std::alloc::Global;
use std::collections::BTreeMap;
use std::marker::Model;

/// Rows of cells in one ordered map in memory, which is never full and never damaged. A read looks at one entry of the
/// map, a read of several cells or versions at one for each. Edits first make room for each of their keys, and an
/// erased key is removed from the map.
#[derive(Drop)]
pub struct PlainRows {
    alloc: Global,
    slots: Slots,
}

impl Model for PlainRows {
    ghost use Rattle.cell_key.specs.Cells.{Cells, cells_code};
    ghost use Rattle.rows.specs.Slots.{slot_cells, AreKept};

    ghost Value = { Cells };

    ghost coded = { cells_code };

    ghost view = { λ rows. slot_cells rows.slots.entries };

    ghost invariant = { λ rows. AreKept rows.slots.entries };
}

impl PlainRows {
    /// No rows. Allocates nothing.
    pub fn new(alloc: Global) -> PlainRows
        ensures { result ≡ empty }
    {
        PlainRows {
            alloc,
            slots: BTreeMap::new(alloc),
        }
    }
}

impl Rows for PlainRows {
    ghost seen = { record {
      holds = λ _. ⊤;
      readable = λ _ _. ⊤;
      each_readable = λ _ _ _. tt;
      cells = λ rows. rows;
      overfills = λ _ _ _. ⊥;
      storage = λ _. no_storage;
    } };

    ghost faults = { λ _. 0 };

    fn newest(
        &mut self,
        row: &Row,
        family: &Family,
        qualifier: Qualifier,
        lo: Stamp,
        hi: Stamp,
    ) -> Result<Option<(Stamp, Vec<u8>)>, Refusal> {
        Ok(slots::newest(&self.slots, row, family, qualifier, lo, hi)?)
    }

    fn versions(
        &mut self,
        row: &Row,
        family: &Family,
        qualifier: Qualifier,
        hi: Stamp,
        most: usize,
    ) -> Result<Vec<(Stamp, Vec<u8>)>, Refusal> {
        Ok(slots::versions(self.alloc, &self.slots, row, family, qualifier, hi, most)?)
    }

    fn has_version(
        &mut self,
        row: &Row,
        family: &Family,
        qualifier: Qualifier,
        lo: Stamp,
        hi: Stamp,
    ) -> Result<bool, Refusal> {
        Ok(slots::has_version(&self.slots, row, family, qualifier, lo, hi)?)
    }

    fn next_cell(
        &mut self,
        after: Option<(&Row, &Family)>,
    ) -> Result<Option<(Row, Family)>, Refusal> {
        Ok(slots::next_cell(&self.slots, after)?)
    }

    fn next_cells(
        &mut self,
        after: Option<(&Row, &Family)>,
        most: usize,
    ) -> Result<Vec<(Row, Family)>, Refusal> {
        Ok(slots::next_cells(self.alloc, &self.slots, after, most)?)
    }

    fn next_versions(
        &mut self,
        after: Option<(&Row, &Family)>,
        limits: BatchLimits,
        hi: Stamp,
    ) -> Result<VersionBatch, Refusal> {
        Ok(slots::next_versions(self.alloc, &self.slots, after, limits, hi)?)
    }

    fn apply(&mut self, _row: &Row, edits: Vec<Edit>) -> Result<(), Refusal> {
        slots::apply(self.alloc, &mut self.slots, edits)?;
        Ok(())
    }

    fn apply_all(&mut self, changes: Vec<RowEdits>) -> Result<(), Refusal> {
        let edits = all_edits(self.alloc, changes)?;
        slots::apply(self.alloc, &mut self.slots, edits)?;
        Ok(())
    }

    fn faults(&self) -> u64 {
        0
    }
}
