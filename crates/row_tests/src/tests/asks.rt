//! Requests to clusters of tablets.

ghost use Rattle.std.specs.Prelude.{IfOk};
ghost use Rattle.cell_key.specs.Cells.{IsEditOf};
ghost use Rattle.row_atomic.specs.Commands.{IsUnderRow};

use cell_key::{CellKey, Edit, Family, Qualifier, Refusal, Row, Stamp};
use file_store::MemFiles;
use row_atomic::{Cluster, Command, Outcome};
use std::alloc::Global;
use testing::edits::edits_of;

/// A request to a cluster. A write has a row, a stamp of `bal` and a value, or it is an erasure. A lock is put at the
/// stamp 1, and a read looks for one in a range of stamps.
#[derive(Clone, Copy)]
pub enum Ask {
    Write(u8, Stamp, Option<&'static [u8]>),
    Lock(u8, &'static [u8]),
    Read(u8, Stamp, Stamp),
    Minor(u32),
    Merge(u32, u32),
    Major(u32),
    Split(u8),
    Move(u32, u8),
    Sweep,
    DropCaches,
}

/// The edit that puts a lock of this value, of at most 65,536 bytes, at the stamp 1.
fn lock_edit(alloc: Global, row: &Row, value: &[u8]) -> Result<Edit, Refusal>
    ensures { IfOk result (IsEditOf row.now) }
{
    if value.len() > 65_536 {
        return Err(Refusal::BadValue);
    }
    let key = CellKey {
        row: row.clone()?,
        family: Family::new(alloc, b"c")?,
        qualifier: Qualifier::Lock,
        stamp: 1,
    };
    Ok(Edit::Put(key, Vec::from_slice(alloc, value)?))
}

/// The write of a lock of this value at the stamp 1.
fn lock_of(alloc: Global, row: u8, value: &[u8]) -> Result<Command, Refusal>
    ensures { IfOk result IsUnderRow }
{
    let row = Row::new(alloc, &[row])?;
    let mut edits = Vec::new(alloc);
    edits.push(lock_edit(alloc, &row, value)?)?;
    Ok(Command::Apply { row, edits })
}

/// The write of a value, or of an erasure.
fn write_of(alloc: Global, row: u8, stamp: Stamp, value: Option<&[u8]>) -> Result<Command, Refusal>
    ensures { IfOk result IsUnderRow }
{
    let row = Row::new(alloc, &[row])?;
    let edits = edits_of(alloc, &row, stamp, value, None)?;
    Ok(Command::Apply { row, edits })
}

fn command_of(alloc: Global, ask: Ask) -> Result<Command, Refusal>
    ensures { IfOk result IsUnderRow }
{
    match ask {
        Ask::Write(row, stamp, value) => write_of(alloc, row, stamp, value),
        Ask::Lock(row, value) => lock_of(alloc, row, value),
        Ask::Read(row, lo, hi) => Ok(Command::Newest {
            row: Row::new(alloc, &[row])?,
            family: Family::new(alloc, b"c")?,
            qualifier: Qualifier::Lock,
            lo,
            hi,
        }),
        Ask::Minor(tablet) => Ok(Command::Minor { tablet }),
        Ask::Merge(tablet, count) => Ok(Command::Merge { tablet, count }),
        Ask::Major(tablet) => Ok(Command::Major { tablet }),
        Ask::Split(row) => Ok(Command::Split {
            row: Row::new(alloc, &[row])?,
        }),
        Ask::Move(tablet, server) => Ok(Command::Move { tablet, server }),
        Ask::Sweep => Ok(Command::Sweep),
        Ask::DropCaches => Ok(Command::DropCaches),
    }
}

/// Runs one request; answers its outcome in a list.
pub fn run(
    alloc: Global,
    cluster: &mut Cluster<MemFiles>,
    ask: Ask,
) -> Result<Vec<Outcome>, Refusal> {
    let commands = vec![in alloc; command_of(alloc, ask)?]?;
    cluster.run(commands)
}
