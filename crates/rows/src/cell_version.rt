//! Versions of a cell's column. A short value is stored inline and allocates nothing.

ghost use Rattle.std.specs.Prelude.{◌≡◌, ◌≤◌, length, IfOk, IsOk, IsOkUnless};

use cell_key::{Refusal, Stamp};
use smallvec::SmallVec;
use std::alloc::Global;
use std::marker::Model;

/// A version of a cell's column: its stamp and its value. A value of at most 16 bytes, like a write record's, is stored
/// inline and allocates nothing.
#[derive(Debug)]
pub struct CellVersion {
    stamp: Stamp,
    value: SmallVec<u8, 16>,
}

impl Model for CellVersion {
    ghost use Rattle.std.specs.Prelude.{List, ℕ};

    ghost Value = { ℕ × List ℕ };

    ghost view = { λ version. (version.stamp, version.value.items) };
}

impl Drop for CellVersion {
    /// Separate, so that code that drops a version doesn't branch on where its value is stored.
    fn drop(self) {
        let CellVersion { stamp: _, value } = self;
        drop(value);
    }
}

impl CellVersion {
    /// A version with this stamp and a copy of the value. Answers `NoMemory` if there is no memory for the copy.
    pub(crate) fn new(alloc: Global, stamp: Stamp, value: &[u8]) -> Result<CellVersion, Refusal>
        ensures ok { IfOk result (λ version. version ≡ (stamp, value.now)) }
        ensures refusal { IsOkUnless result Refusal.NoMemory }
        // A short value allocates nothing.
        ensures short { length value.now ≤ 16 → IsOk result }
    {
        let value = SmallVec::from_slice(alloc, value)?;
        Ok(CellVersion { stamp, value })
    }

    /// A version with this stamp and value. Allocates nothing.
    pub fn from_vec(stamp: Stamp, value: Vec<u8>) -> CellVersion
        ensures { result ≡ (stamp, value.items) }
    {
        CellVersion {
            stamp,
            value: SmallVec::from(value),
        }
    }

    /// The stamp.
    pub fn stamp(&self) -> Stamp
        ensures { result ≡ self.now.0 }
    {
        self.stamp
    }

    /// The bytes of the value.
    pub fn value(&self) -> &[u8]
        ensures { result.now ≡ self.now.1 }
    {
        self.value.as_slice()
    }

    /// The value. Answers `NoMemory` if there is no memory for it.
    pub fn into_value(self) -> Result<Vec<u8>, Refusal>
        ensures ok { IfOk result (λ value. value.items ≡ self.1) }
        ensures refusal { IsOkUnless result Refusal.NoMemory }
    {
        let CellVersion { stamp: _, value } = self;
        Ok(value.into_vec()?)
    }
}
