//! The range of a scan, with its names checked.

ghost use Rattle.std.specs.Prelude.{◌≡◌, ◌↔◌, ◌⊎◌, IfErr, IfOk, IfSome, IsSomeAnd, IsTrue, OnOk, option_map};
ghost use Rattle.cell_key.specs.Names.{IsFamily, IsRow};
ghost use Rattle.si_model.specs.Reads.{IsNameRefusal, cell_of};
ghost use Rattle.si_model.specs.Replies.{range_of};
ghost use Rattle.si_model.specs.Scans.{HasFamilies, HasRows, IsOfFamily, IsUpToRow};
ghost use Rattle.txn_client.specs.Ranges.{IsRangeRefusal, range_named};

use cell_key::{Family, Refusal, Row};
use si_model::{Cell, ScanRange};
use std::alloc::Global;

/// The cells after `after` (or from the first), up to and including the row `end` (or to the last), of one family or of
/// all.
#[derive(Drop)]
pub(crate) struct Range {
    pub(crate) after: Option<Cell>,
    pub(crate) end: Option<Row>,
    pub(crate) family: Option<Family>,
}

/// The cell with these names, if they are given. Refusals: `BadRow`, `BadColumn`, `NoMemory`.
fn cell_named(alloc: Global, names: Option<(&[u8], &[u8])>) -> Result<Option<Cell>, Refusal>
    ensures ok { IfOk result (λ cell. cell
        ≡ option_map (λ names. cell_of names.0.now names.1.now) names.entry) }
    ensures row { OnOk result (IfSome names.entry (λ names. IsRow names.0.now)) }
    ensures family { OnOk result (IfSome names.entry (λ names. IsFamily names.1.now)) }
    ensures refusal { IfErr result (λ refusal. (refusal ≡ Refusal.NoMemory) ⊎ IsSomeAnd names.entry
        (λ names. IsNameRefusal (cell_of names.0.now names.1.now) refusal)) }
{
    match names {
        Some((row, family)) => Ok(Some(Cell::new(alloc, row, family)?)),
        None => Ok(None),
    }
}

/// The row with this name, if it is given. Refusals: `BadRow`, `NoMemory`.
fn row_named(alloc: Global, name: Option<&[u8]>) -> Result<Option<Row>, Refusal>
    ensures ok { IfOk result (λ row. row ≡ option_map (λ name. name.now) name.entry) }
    ensures valid { OnOk result (IfSome name.entry (λ name. IsRow name.now)) }
    ensures refusal { IfErr result (λ refusal. (refusal ≡ Refusal.NoMemory)
        ⊎ ((refusal ≡ Refusal.BadRow) × IsSomeAnd name.entry (λ name. ¬ IsRow name.now))) }
{
    match name {
        Some(name) => Ok(Some(Row::new(alloc, name)?)),
        None => Ok(None),
    }
}

/// The family with this name, if it is given. Refusals: `BadColumn`, `NoMemory`.
fn family_named(alloc: Global, name: Option<&[u8]>) -> Result<Option<Family>, Refusal>
    ensures ok { IfOk result (λ family. family ≡ option_map (λ name. name.now) name.entry) }
    ensures valid { OnOk result (IfSome name.entry (λ name. IsFamily name.now)) }
    ensures refusal { IfErr result (λ refusal. (refusal ≡ Refusal.NoMemory)
        ⊎ ((refusal ≡ Refusal.BadColumn) × IsSomeAnd name.entry (λ name. ¬ IsFamily name.now))) }
{
    match name {
        Some(name) => Ok(Some(Family::new(alloc, name)?)),
        None => Ok(None),
    }
}

impl Range {
    /// The range with these names. Answers `BadRow` if a row is outside its limits, then `BadColumn` if a family is,
    /// and `NoMemory` if allocation fails.
    pub(crate) fn new(alloc: Global, range: ScanRange<'_>) -> Result<Range, Refusal>
        ensures ok { IfOk result (λ named. range_named named ≡ range_of range.entry) }
        ensures rows { OnOk result (HasRows (range_of range.entry)) }
        ensures families { OnOk result (HasFamilies (range_of range.entry)) }
        ensures refusal { IfErr result (IsRangeRefusal (range_of range.entry)) }
    {
        let end = row_named(alloc, range.end)?;
        let after = cell_named(alloc, range.after)?;
        let family = family_named(alloc, range.family)?;
        Ok(Range { after, end, family })
    }

    /// Whether the row is at or before the end.
    pub(crate) fn is_up_to(&self, row: &Row) -> bool
        ensures { IsTrue result ↔ IsUpToRow self.now.end row.now }
    {
        match &self.end {
            Some(end) => end.cmp(row).is_ge(),
            None => true,
        }
    }

    /// Whether the range includes the family.
    pub(crate) fn is_of_family(&self, family: &Family) -> bool
        ensures { IsTrue result ↔ IsOfFamily self.now.family family.now }
    {
        match &self.family {
            Some(wanted) => family == wanted,
            None => true,
        }
    }
}
