//! The versions of each cell among an audit's commits.

ghost use Rattle.std.specs.BTreeMap as btree;
ghost use Rattle.std.specs.Prelude.{◌≡◌, ◌++◌, ◌∷◌, [], false, is_some, length, IfOk, IfSome, IsTrue};
ghost use Rattle.si_model.specs.Reads.{cell_of};
ghost use Rattle.audit.specs.Histories.{AreAdded, IsAdded, IsLater, name_cmp, versions_at};

use crate::audit::parts::{Version, Write};
use cell_key::{Family, Row, Stamp};
use si_model::Cell;
use std::alloc::{AllocError, Global};
use std::collections::BTreeMap;

/// The versions of each cell in ascending order of stamps, by its row and family.
pub(crate) type Histories = BTreeMap<(Row, Family), Vec<Version>>;

/// The versions of the cell. `None` if its names aren't valid, or there is no memory for a copy of them.
pub(crate) fn history_of<'a>(
    alloc: Global,
    histories: &'a Histories,
    row: &[u8],
    family: &[u8],
) -> Option<&'a [Version]>
    ensures { IfSome result (λ versions.
        versions.now ≡ versions_at histories.now (cell_of row.now family.now)) }
{
    let row = Row::new(alloc, row).ok()?;
    let family = Family::new(alloc, family).ok()?;
    let name = (row, family);
    match histories.get(&name) {
        Some(versions) => Some(versions.as_slice()),
        None => Some(&[]),
    }
}

/// Adds a version to these. Returns no, and adds none, if one of them has this stamp or a later one.
///
/// # Errors
///
/// `AllocError`; nothing is added.
fn add_last(versions: &mut Vec<Version>, version: Version) -> Result<bool, AllocError>
    ensures { IfOk result (λ added. IsTrue added → IsLater versions.old.items version
        × (versions.new.items ≡ versions.old.items ++ version ∷ [])) }
{
    if let Some(last) = versions.last() {
        if last.stamp >= version.stamp {
            return Ok(false);
        }
    }
    versions.push(version)?;
    Ok(true)
}

/// Adds the first version of the cell with this row and family.
///
/// # Errors
///
/// `AllocError`.
fn add_first(
    alloc: Global,
    histories: &mut Histories,
    name: (Row, Family),
    version: Version,
) -> Result<bool, AllocError>
    requires { is_some (btree.get name_cmp histories.old name) ≡ false }
    ensures { IfOk result (λ added. IsTrue added
        → IsAdded histories.old histories.new (cell_of name.0 name.1) version) }
{
    let mut versions = Vec::new(alloc);
    versions.push(version)?;
    histories.insert(name, versions)?;
    Ok(true)
}

/// Adds a version of the cell. Returns no if a version of the cell has this stamp or a later one.
///
/// # Errors
///
/// `AllocError`.
fn add(
    alloc: Global,
    histories: &mut Histories,
    cell: &Cell,
    version: Version,
) -> Result<bool, AllocError>
    ensures { IfOk result (λ added. IsTrue added
        → IsAdded histories.old histories.new cell.now version) }
{
    let name = (cell.row.clone()?, cell.family.clone()?);
    if !histories.contains_key(&name) {
        return add_first(alloc, histories, name, version);
    }
    match histories.get_mut(&name) {
        Some(versions) => add_last(versions, version),
        None => Ok(false),
    }
}

/// Adds the versions that a commit makes, at its place in the list. Returns no if they don't all come after the
/// versions of their cells.
///
/// # Errors
///
/// `AllocError`.
pub(crate) fn add_all(
    alloc: Global,
    histories: &mut Histories,
    writes: &[Write],
    stamp: Stamp,
    place: usize,
) -> Result<bool, AllocError>
    ensures { IfOk result (λ added. IsTrue added → AreAdded histories.old histories.new
        writes.now stamp place (length writes.now)) }
{
    for (index, write) in writes.iter().enumerate() {
        let version = Version {
            stamp,
            place,
            write: index,
        };
        if !add(alloc, histories, &write.cell, version)? {
            return Ok(false);
        }
    }
    Ok(true)
}
