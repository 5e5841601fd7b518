//! Decoding of the lists of Commits and Reads.

ghost use Rattle.std.specs.Prelude.{◌≡◌, ◌≢◌, ◌<◌, ◌^◌, ◌↔◌, ◌++◌, ◌∷◌, List, ℕ, Bool, IsTrue, IfSome, IfNone, IfOk, IsOkUnless, OnErr, length};
ghost use Rattle.std.specs.List.{AllByRecursion, flat_map};
ghost use Rattle.si_model.specs.Answers.{cell_named, cells_named, write_named, writes_named};
ghost use Rattle.si_model.specs.Machine.{Change, Writes};
ghost use Rattle.si_model.specs.declared.replies.Cell.{Cell as CellOf};
ghost use Rattle.request_codec.specs.Fields.{number, cell_fields, FitsCell};
ghost use Rattle.request_codec.specs.Operations.{commit_fields, read_fields, write_fields, AreCells, AreWrites, WriteFits};
ghost use Rattle.request_codec.specs.Scans.{flag_number};

use crate::read_fields::{take_cell, take_u32, take_u64};
use crate::read_scans::{take_flag, take_optional_bytes};
use cell_key::Refusal;
use si_model::{CellName, CellWrite};
use std::alloc::Global;

/// The names of a cell.
fn take_name<'a>(rest: &mut &'a [u8]) -> Option<CellName<'a>>
    ensures found { IfSome result (λ cell.
        rest.old.now ≡ cell_fields (cell_named cell) ++ rest.new.now) }
    ensures fits { IfSome result (λ cell. FitsCell (cell_named cell)) }
    ensures none { IfNone result ((cell : CellOf) (after : List ℕ) → FitsCell cell
        → rest.old.now ≢ cell_fields cell ++ after) }
{
    let (row, family) = take_cell(rest)?;
    Some(CellName { row, family })
}

/// A cell, and its value or that it is deleted.
fn take_write<'a>(rest: &mut &'a [u8]) -> Option<CellWrite<'a>>
    ensures found { IfSome result (λ write.
        rest.old.now ≡ write_fields (write_named write) ++ rest.new.now) }
    ensures fits { IfSome result (λ write. WriteFits (write_named write)) }
    ensures none { IfNone result ((write : CellOf × Change) (after : List ℕ) → WriteFits write
        → rest.old.now ≢ write_fields write ++ after) }
{
    let cell = take_name(rest)?;
    let value = take_optional_bytes(rest)?;
    Some(CellWrite { cell, value })
}

/// Whether the bytes are `count` cells.
fn are_cells(bytes: &[u8], count: u32) -> bool
    ensures { IsTrue result ↔ AreCells count bytes.now }
{
    let mut rest = bytes;
    for _ in 0..count {
        let Some(_) = take_name(&mut rest) else {
            return false;
        };
    }
    rest.is_empty()
}

/// Whether the bytes are `count` writes.
fn are_writes(bytes: &[u8], count: u32) -> bool
    ensures { IsTrue result ↔ AreWrites count bytes.now }
{
    let mut rest = bytes;
    for _ in 0..count {
        let Some(_) = take_write(&mut rest) else {
            return false;
        };
    }
    rest.is_empty()
}

/// The fields of a Commit: a start, the number of writes that follow, and their bytes.
pub(crate) fn whole_writes(bytes: &[u8]) -> Option<(u64, u32, &[u8])>
    ensures found { IfSome result (λ p.
        bytes.now ≡ number 8 p.0 ++ (number 4 p.1 ++ p.2.now)) }
    ensures start { IfSome result (λ p. p.0 < 2 ^ 64) }
    ensures count { IfSome result (λ p. p.1 < 2 ^ 32) }
    ensures writes { IfSome result (λ p. AreWrites p.1 p.2.now) }
    ensures none { IfNone result ((start : ℕ) (writes : Writes) → AllByRecursion WriteFits writes
        → length writes < 2 ^ 32 → bytes.now ≢ commit_fields start writes) }
{
    let mut rest = bytes;
    let start = take_u64(&mut rest)?;
    let count = take_u32(&mut rest)?;
    if are_writes(rest, count) {
        Some((start, count, rest))
    } else {
        None
    }
}

/// The fields of a Read: a start, whether the session stays open, the number of cells that follow, and their bytes.
pub(crate) fn whole_cells(bytes: &[u8]) -> Option<(u64, bool, u32, &[u8])>
    ensures found { IfSome result (λ p.
        bytes.now ≡ number 8 p.0 ++ (flag_number p.1 ∷ (number 4 p.2 ++ p.3.now))) }
    ensures start { IfSome result (λ p. p.0 < 2 ^ 64) }
    ensures count { IfSome result (λ p. p.2 < 2 ^ 32) }
    ensures cells { IfSome result (λ p. AreCells p.2 p.3.now) }
    ensures none { IfNone result ((start : ℕ) (cells : List CellOf) (stays_open : Bool)
        → AllByRecursion FitsCell cells → length cells < 2 ^ 32
        → bytes.now ≢ read_fields start cells stays_open) }
{
    let mut rest = bytes;
    let start = take_u64(&mut rest)?;
    let stays_open = take_flag(&mut rest)?;
    let count = take_u32(&mut rest)?;
    if are_cells(rest, count) {
        Some((start, stays_open, count, rest))
    } else {
        None
    }
}

/// The cells in the bytes.
pub(crate) fn own_cells(
    alloc: Global,
    bytes: &[u8],
    count: u32,
) -> Result<Vec<CellName<'_>>, Refusal>
    requires { AreCells count bytes.now }
    ensures ok { IfOk result (λ own. bytes.now ≡ flat_map cell_fields (cells_named own.items)) }
    ensures count { IfOk result (λ own. length own.items ≡ count) }
    ensures fit { IfOk result (λ own. AllByRecursion FitsCell (cells_named own.items)) }
    ensures refusal { IsOkUnless result Refusal.NoMemory }
    // An empty list needs no allocation.
    ensures needed { OnErr result (0 < count) }
{
    let mut cells = Vec::new(alloc);
    let mut rest = bytes;
    for _ in 0..count {
        let Some(cell) = take_name(&mut rest) else {
            unreachable!();
        };
        cells.push(cell)?;
    }
    Ok(cells)
}

/// The writes in the bytes.
pub(crate) fn own_writes(
    alloc: Global,
    bytes: &[u8],
    count: u32,
) -> Result<Vec<CellWrite<'_>>, Refusal>
    requires { AreWrites count bytes.now }
    ensures ok { IfOk result (λ own. bytes.now ≡ flat_map write_fields (writes_named own.items)) }
    ensures count { IfOk result (λ own. length own.items ≡ count) }
    ensures fit { IfOk result (λ own. AllByRecursion WriteFits (writes_named own.items)) }
    ensures refusal { IsOkUnless result Refusal.NoMemory }
    // An empty list needs no allocation.
    ensures needed { OnErr result (0 < count) }
{
    let mut writes = Vec::new(alloc);
    let mut rest = bytes;
    for _ in 0..count {
        let Some(write) = take_write(&mut rest) else {
            unreachable!();
        };
        writes.push(write)?;
    }
    Ok(writes)
}
