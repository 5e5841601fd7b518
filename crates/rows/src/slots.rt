//! The slots of `PlainRows`. A slot is empty only within `apply`, which makes room before it changes a cell.

ghost use Rattle.std.specs.Prelude.{◌≡◌, ◌≢◌, ◌≤◌, ℕ, length, IsSome, OnOk, OnErr, IfOk, option_map, map, List, ◌∷◌, Some, None};
ghost use Rattle.std.specs.List.{All, AllByRecursion};
ghost use Rattle.std.specs.BTreeMap.{Updates};
ghost use Rattle.std.specs.BTreeMap.Range.{IsLeBy, IsLtBy};
ghost use Rattle.std.specs.Range.Bound.{IsForward};
ghost use Rattle.std.specs.declared.ops.Bound.TheVariants.{Unbounded};
ghost use Rattle.cell_key.specs.Keys.{key_cmp};
ghost use Rattle.cell_key.specs.Cells.{after_edit, after_edits, edited_key, IsNewest, version};
ghost use Rattle.cell_key.specs.declared.keys.CellKey.{CellKey as Key};
ghost use Rattle.cell_key.specs.Places.{AreNextCells, IsNextCell, place_named};
ghost use Rattle.cell_key.specs.Versions.{stamped, HasLimits, IsVersion};
ghost use Rattle.std.specs.Bool.{OnFalse};
ghost use Rattle.rows.specs.Batches.{place_in, AreNextVersions, HasNewest, IsFull};
ghost use Rattle.rows.specs.Reads.{AreNewestFirst, HasVersion};
ghost use Rattle.rows.specs.Slots.{slot_cells, slot_at, keyed, HasSlot, KeepsSlots, EmptiesNone, AreFilled, IsFullBut, IsFirstKey, past, HasEdited};

use crate::batches::{BatchLimits, CellVersions, VersionBatch};
use crate::cell_version::CellVersion;
use cell_key::{CellKey, Edit, Family, Qualifier, Row, Stamp, last_place};
use std::alloc::{AllocError, Global};
use std::collections::BTreeMap;
use std::ops::Bound;

pub(crate) type Slots = BTreeMap<CellKey, Option<Vec<u8>>>;

/// The first key between two bounds, with its value.
fn first(slots: &Slots, from: Bound<CellKey>, to: Bound<CellKey>) -> Option<(&CellKey, &Vec<u8>)>
    requires full { AreFilled slots.now.entries }
    requires forward { IsForward (IsLeBy key_cmp) (IsLtBy key_cmp) from to }
    ensures { IsFirstKey (slot_cells slots.now.entries) from to (option_map keyed result) }
{
    let (key, slot) = slots.range((from, to)).next()?;
    let value = slot.as_ref()?;
    Some((key, value))
}

/// The version of a cell's column with the greatest stamp in `lo..=hi`.
pub(crate) fn newest(
    slots: &Slots,
    row: &Row,
    family: &Family,
    qualifier: Qualifier,
    lo: Stamp,
    hi: Stamp,
) -> Result<Option<(Stamp, Vec<u8>)>, AllocError>
    requires { AreFilled slots.now.entries }
    ensures { IfOk result (λ found. IsNewest (slot_cells slots.now.entries)
        (version row.now family.now qualifier) lo hi (option_map stamped found)) }
{
    if hi < lo {
        return Ok(None);
    }
    let from = CellKey::new(row, family, qualifier, hi)?;
    let to = CellKey::new(row, family, qualifier, lo)?;
    match first(slots, Bound::Included(from), Bound::Included(to)) {
        Some((key, value)) => Ok(Some((key.stamp, value.clone()?))),
        None => Ok(None),
    }
}

/// The versions of a cell's column with stamps at or below `hi`, the newest first, `most` of them or all if there are
/// fewer.
pub(crate) fn versions(
    alloc: Global,
    slots: &Slots,
    row: &Row,
    family: &Family,
    qualifier: Qualifier,
    hi: Stamp,
    most: usize,
) -> Result<Vec<(Stamp, Vec<u8>)>, AllocError>
    requires full { AreFilled slots.now.entries }
    requires limits { HasLimits (slot_cells slots.now.entries) }
    ensures found { IfOk result (λ found. AreNewestFirst (slot_cells slots.now.entries)
        (version row.now family.now qualifier) hi most (map stamped found.items)) }
    ensures few { IfOk result (λ found. length found.items ≤ most) }
    ensures limits { IfOk result (λ found.
        AllByRecursion (λ version. IsVersion version.0 version.1.items) found.items) }
{
    let mut found = Vec::new(alloc);
    let mut last = hi;
    'wanted: while found.len() < most {
        let Some((stamp, value)) = newest(slots, row, family, qualifier, 0, last)? else {
            return Ok(found);
        };
        found.push((stamp, value))?;
        last = stamp - 1;
    }
    Ok(found)
}

/// Whether a cell's column has a version with a stamp in `lo..=hi`.
pub(crate) fn has_version(
    slots: &Slots,
    row: &Row,
    family: &Family,
    qualifier: Qualifier,
    lo: Stamp,
    hi: Stamp,
) -> Result<bool, AllocError>
    requires { AreFilled slots.now.entries }
    ensures { IfOk result (HasVersion (slot_cells slots.now.entries)
        (version row.now family.now qualifier) lo hi) }
{
    if hi < lo {
        return Ok(false);
    }
    let from = CellKey::new(row, family, qualifier, hi)?;
    let to = CellKey::new(row, family, qualifier, lo)?;
    Ok(first(slots, Bound::Included(from), Bound::Included(to)).is_some())
}

/// The bound at which the keys after a place begin.
fn start_after(after: Option<(&Row, &Family)>) -> Result<Bound<CellKey>, AllocError>
    ensures { IfOk result (λ from. from ≡ past (option_map place_named after.entry)) }
{
    match after {
        Some((row, family)) => {
            let last = CellKey::new(row, family, Qualifier::Write, 0)?;
            Ok(Bound::Excluded(last))
        }
        None => Ok(Bound::Unbounded),
    }
}

/// The next cell after a place.
pub(crate) fn next_cell(
    slots: &Slots,
    after: Option<(&Row, &Family)>,
) -> Result<Option<(Row, Family)>, AllocError>
    requires { AreFilled slots.now.entries }
    ensures { IfOk result (λ found.
        IsNextCell (slot_cells slots.now.entries) (option_map place_named after.entry) found) }
{
    let from = start_after(after)?;
    match first(slots, from, Bound::Unbounded) {
        Some((key, _)) => Ok(Some((key.row.clone()?, key.family.clone()?))),
        None => Ok(None),
    }
}

/// The next cells after a place, `most` of them or all if there are fewer.
pub(crate) fn next_cells(
    alloc: Global,
    slots: &Slots,
    after: Option<(&Row, &Family)>,
    most: usize,
) -> Result<Vec<(Row, Family)>, AllocError>
    requires { AreFilled slots.now.entries }
    ensures found { IfOk result (λ found. AreNextCells (slot_cells slots.now.entries)
        (option_map place_named after.entry) most found.items) }
    ensures few { IfOk result (λ found. length found.items ≤ most) }
{
    let mut found = Vec::new(alloc);
    'wanted: while found.len() < most {
        match next_cell(slots, last_place(&found, after))? {
            Some(place) => found.push(place)?,
            None => return Ok(found),
        }
    }
    Ok(found)
}

/// The version of a cell's column with the greatest stamp at or below `hi`.
fn newest_version(
    slots: &Slots,
    row: &Row,
    family: &Family,
    qualifier: Qualifier,
    hi: Stamp,
) -> Result<Option<CellVersion>, AllocError>
    requires { AreFilled slots.now.entries }
    ensures { IfOk result (IsNewest (slot_cells slots.now.entries)
        (version row.now family.now qualifier) 0 hi) }
{
    match newest(slots, row, family, qualifier, 0, hi)? {
        Some((stamp, value)) => Ok(Some(CellVersion::from_vec(stamp, value))),
        None => Ok(None),
    }
}

/// A cell with the newest versions of its columns at or below `hi`.
fn versions_of(
    slots: &Slots,
    row: &Row,
    family: &Family,
    hi: Stamp,
) -> Result<CellVersions, AllocError>
    requires { AreFilled slots.now.entries }
    ensures place { IfOk result (λ found. place_in found ≡ (row.now, family.now)) }
    ensures newest { IfOk result (HasNewest (slot_cells slots.now.entries) hi) }
{
    Ok(CellVersions {
        row: row.clone()?,
        family: family.clone()?,
        data: newest_version(slots, row, family, Qualifier::Data, hi)?,
        lock: newest_version(slots, row, family, Qualifier::Lock, hi)?,
        write: newest_version(slots, row, family, Qualifier::Write, hi)?,
    })
}

/// The next cells after a place, each with the newest versions of its columns at or below `hi`: `limits.cells` of them
/// or all if there are fewer.
pub(crate) fn next_versions(
    alloc: Global,
    slots: &Slots,
    after: Option<(&Row, &Family)>,
    limits: BatchLimits,
    hi: Stamp,
) -> Result<VersionBatch, AllocError>
    requires { AreFilled slots.now.entries }
    ensures found { IfOk result (AreNextVersions (slot_cells slots.now.entries)
        (option_map place_named after.entry) hi) }
    ensures full { IfOk result (λ batch. OnFalse batch.is_last (IsFull limits batch.cells.items)) }
    ensures few { IfOk result (λ batch. length batch.cells.items ≤ limits.cells) }
{
    let places = next_cells(alloc, slots, after, limits.cells)?;
    let mut cells = Vec::new(alloc);
    for place in &places {
        let (row, family) = place;
        let versions = versions_of(slots, row, family, hi)?;
        cells.push(versions)?;
    }
    let is_last = cells.len() < limits.cells;
    Ok(VersionBatch { cells, is_last })
}

/// The key of an edit.
fn key_of(edit: &Edit) -> &CellKey
    ensures { result.now ≡ edited_key edit.now }
{
    match edit {
        Edit::Put(key, _) => key,
        Edit::Erase(key) => key,
    }
}

/// The keys of edits.
fn keys_of(alloc: Global, edits: &[Edit]) -> Result<Vec<CellKey>, AllocError>
    ensures { IfOk result (λ keys. keys.items ≡ map edited_key edits.now) }
{
    let mut keys = Vec::with_capacity(alloc, edits.len())?;
    for edit in edits {
        let key = key_of(edit).clone()?;
        keys.push(key)?;
    }
    Ok(keys)
}

/// Adds an empty slot for the key, if it has none.
fn make_slot(slots: &mut Slots, key: &CellKey) -> Result<(), AllocError>
    ensures same { slot_cells slots.new.entries ≡ slot_cells slots.old.entries }
    ensures kept { KeepsSlots slots.old.entries slots.new.entries }
    ensures slot { OnOk result (HasSlot slots.new.entries key.now) }
    ensures empties { EmptiesNone (λ q. key.now ≢ q) slots.old.entries slots.new.entries }
{
    if !slots.contains_key(key) {
        slots.insert(key.clone()?, None)?;
    }
    Ok(())
}

/// Adds an empty slot for each key that has none.
fn make_slots(slots: &mut Slots, keys: &[CellKey]) -> Result<(), AllocError>
    ensures same { slot_cells slots.new.entries ≡ slot_cells slots.old.entries }
    ensures slots { OnOk result (All (HasSlot slots.new.entries) keys.now) }
    ensures empties { EmptiesNone
        (λ q. All (λ key. key ≢ q) keys.now) slots.old.entries slots.new.entries }
{
    for key in keys {
        make_slot(slots, key)?;
    }
    Ok(())
}

/// Sets the slot of a key, which must exist.
fn set_slot(slots: &mut Slots, key: CellKey, content: Option<Vec<u8>>)
    requires { HasSlot slots.old.entries key }
    ensures set { Updates key_cmp slots.old slots.new key (Some content) }
{
    let written: Result<_, _> = slots.insert(key, content);
    let _before = written.unwrap();
}

/// Applies an edit. Its key must have a slot.
fn write(slots: &mut Slots, edit: Edit)
    requires { HasSlot slots.old.entries (edited_key edit) }
    ensures cells { slot_cells slots.new.entries
        ≡ after_edit (slot_cells slots.old.entries) edit }
    ensures kept { KeepsSlots slots.old.entries slots.new.entries }
    ensures empties { EmptiesNone (λ q. edited_key edit ≢ q) slots.old.entries slots.new.entries }
{
    match edit {
        Edit::Put(key, value) => set_slot(slots, key, Some(value)),
        Edit::Erase(key) => set_slot(slots, key, None),
    }
}

/// Applies edits in order. Each of their keys must have a slot.
fn write_all(slots: &mut Slots, edits: Vec<Edit>)
    requires { AllByRecursion (HasEdited slots.old.entries) edits.items }
    ensures cells { slot_cells slots.new.entries
        ≡ after_edits (slot_cells slots.old.entries) edits.items }
    ensures empties { EmptiesNone (λ q. AllByRecursion (λ edit. edited_key edit ≢ q) edits.items)
        slots.old.entries slots.new.entries }
{
    for edit in edits {
        write(slots, edit);
    }
}

/// Removes the slot of a key, if it is empty.
fn drop_empty(slots: &mut Slots, key: &CellKey)
    ensures same { slot_cells slots.new.entries ≡ slot_cells slots.old.entries }
    ensures empties { (keys : List Key) → IsFullBut (key.now ∷ keys) slots.old.entries
        → IsFullBut keys slots.new.entries }
{
    let is_empty = slots.get(key).is_some_and(|slot| slot.is_none());
    if is_empty {
        slots.remove(key);
    }
}

/// Removes the empty slots, all of which must be at these keys.
fn drop_empties(slots: &mut Slots, keys: Vec<CellKey>)
    requires { IsFullBut keys.items slots.old.entries }
    ensures same { slot_cells slots.new.entries ≡ slot_cells slots.old.entries }
    ensures full { AreFilled slots.new.entries }
{
    for key in keys {
        drop_empty(slots, &key);
    }
}

/// Applies edits in order, all of them or none.
pub(crate) fn apply(alloc: Global, slots: &mut Slots, edits: Vec<Edit>) -> Result<(), AllocError>
    requires { AreFilled slots.old.entries }
    ensures ok { OnOk result (slot_cells slots.new.entries
        ≡ after_edits (slot_cells slots.old.entries) edits.items) }
    ensures err { OnErr result (slot_cells slots.new.entries ≡ slot_cells slots.old.entries) }
    ensures full { AreFilled slots.new.entries }
{
    let keys = keys_of(alloc, &edits)?;
    match make_slots(slots, &keys) {
        Ok(()) => {
            write_all(slots, edits);
            drop_empties(slots, keys);
            Ok(())
        }
        Err(error) => {
            drop_empties(slots, keys);
            Err(error)
        }
    }
}
