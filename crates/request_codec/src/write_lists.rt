//! Encoding of Commits and Reads at the end of a buffer that has room.

ghost use Rattle.std.specs.Prelude.{◌≡◌, ◌+◌, ◌≤◌, ◌<◌, length};
ghost use Rattle.std.specs.List.{AllByRecursion, flat_map};
ghost use Rattle.si_model.specs.Answers.{cell_named, cells_named, write_named, writes_named};
ghost use Rattle.si_model.specs.Transactions.{Commit, Read};
ghost use Rattle.request_codec.specs.Buffers.{HasRoomFor, AppendsBytes};
ghost use Rattle.request_codec.specs.Fields.{cell_fields, FitsCell};
ghost use Rattle.request_codec.specs.Operations.{operation_body, write_fields, WriteFits};
ghost use Rattle.request_codec.specs.Stream.{longest};

use crate::operations::{COMMIT, READ};
use crate::write_fields::{push_byte, push_cell, push_u32, push_u64};
use crate::write_scans::{optional_length, push_flag, push_optional};
use cell_key::Stamp;
use si_model::{CellName, CellWrite};

/// The length of a write in bytes.
#[tactic(auto, using(crate::proofs::Fields::lengths), unfolding(crate::specs::Operations::write_fields))]
fn write_length(write: CellWrite<'_>) -> usize
    requires { WriteFits (write_named write) }
    ensures { result ≡ length (write_fields (write_named write.entry)) }
{
    8 + write.cell.row.len() + write.cell.family.len() + optional_length(write.value)
}

/// The length of the names of a cell in bytes.
#[tactic(auto, using(crate::proofs::Fields::lengths))]
fn name_length(name: CellName<'_>) -> usize
    requires { FitsCell (cell_named name) }
    ensures { result ≡ length (cell_fields (cell_named name.entry)) }
{
    8 + name.row.len() + name.family.len()
}

/// The length of writes in bytes.
pub(crate) fn writes_length(writes: &[CellWrite<'_>]) -> usize
    requires fits { AllByRecursion WriteFits (writes_named writes.now) }
    requires short { length (flat_map write_fields (writes_named writes.now)) ≤ longest }
    ensures { result ≡ length (flat_map write_fields (writes_named writes.now)) }
{
    let mut sum = 0;
    for write in writes.iter() {
        sum += write_length(*write);
    }
    sum
}

/// The length of the names of cells in bytes.
pub(crate) fn cells_length(cells: &[CellName<'_>]) -> usize
    requires fits { AllByRecursion FitsCell (cells_named cells.now) }
    requires short { length (flat_map cell_fields (cells_named cells.now)) ≤ longest }
    ensures { result ≡ length (flat_map cell_fields (cells_named cells.now)) }
{
    let mut sum = 0;
    for cell in cells.iter() {
        sum += name_length(*cell);
    }
    sum
}

/// Appends a write.
#[tactic(auto, using(crate::proofs::Fields::lengths), unfolding(crate::specs::Operations::write_fields))]
fn push_write(out: &mut Vec<u8>, write: CellWrite<'_>)
    requires fits { WriteFits (write_named write) }
    requires room { HasRoomFor out.old (length (write_fields (write_named write))) }
    ensures { AppendsBytes out.old out.new (write_fields (write_named write.entry)) }
{
    push_cell(out, write.cell.row, write.cell.family);
    push_optional(out, write.value);
}

/// Appends the names of a cell.
#[tactic(auto, using(crate::proofs::Fields::lengths))]
fn push_name(out: &mut Vec<u8>, name: CellName<'_>)
    requires fits { FitsCell (cell_named name) }
    requires room { HasRoomFor out.old (length (cell_fields (cell_named name))) }
    ensures { AppendsBytes out.old out.new (cell_fields (cell_named name.entry)) }
{
    push_cell(out, name.row, name.family);
}

/// Appends writes.
fn push_writes(out: &mut Vec<u8>, writes: &[CellWrite<'_>])
    requires fits { AllByRecursion WriteFits (writes_named writes.now) }
    requires room { HasRoomFor out.old (length (flat_map write_fields (writes_named writes.now))) }
    ensures { AppendsBytes out.old out.new (flat_map write_fields (writes_named writes.now)) }
{
    for write in writes.iter() {
        push_write(out, *write);
    }
}

/// Appends the names of cells.
fn push_cells(out: &mut Vec<u8>, cells: &[CellName<'_>])
    requires fits { AllByRecursion FitsCell (cells_named cells.now) }
    requires room { HasRoomFor out.old (length (flat_map cell_fields (cells_named cells.now))) }
    ensures { AppendsBytes out.old out.new (flat_map cell_fields (cells_named cells.now)) }
{
    for cell in cells.iter() {
        push_name(out, *cell);
    }
}

/// Appends the body of a Commit.
#[tactic(auto, using(crate::proofs::Fields::lengths))]
pub(crate) fn push_commit(out: &mut Vec<u8>, start: Stamp, writes: &[CellWrite<'_>])
    requires fits { AllByRecursion WriteFits (writes_named writes.now) }
    requires short { length (operation_body (Commit start (writes_named writes.now))) ≤ longest }
    requires room { HasRoomFor out.old
        (length (operation_body (Commit start (writes_named writes.now)))) }
    ensures { AppendsBytes out.old out.new
        (operation_body (Commit start (writes_named writes.now))) }
{
    push_byte(out, COMMIT);
    push_u64(out, start);
    push_u32(out, writes.len() as u32);
    push_writes(out, writes);
}

/// Appends the body of a Read.
#[tactic(auto, using(crate::proofs::Fields::lengths))]
pub(crate) fn push_read(out: &mut Vec<u8>, start: Stamp, cells: &[CellName<'_>], stays_open: bool)
    requires fits { AllByRecursion FitsCell (cells_named cells.now) }
    requires short { length (operation_body (Read start (cells_named cells.now) stays_open))
        ≤ longest }
    requires room { HasRoomFor out.old
        (length (operation_body (Read start (cells_named cells.now) stays_open))) }
    ensures { AppendsBytes out.old out.new
        (operation_body (Read start (cells_named cells.now) stays_open)) }
{
    push_byte(out, READ);
    push_u64(out, start);
    push_flag(out, stays_open);
    push_u32(out, cells.len() as u32);
    push_cells(out, cells);
}
