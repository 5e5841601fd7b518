//! Searches of an audit's commits for the writes of one cell: among the cell's versions, or, if these aren't kept, in
//! the list of the commits.

ghost use Rattle.std.specs.Prelude.{◌≡◌, ◌↔◌, ◌<◌, ◌≤◌, List, Some, IsTrue, IfSome, IfNone, length, map, option_map};
ghost use Rattle.si_model.specs.Machine.{IsSnapshot, Value};
ghost use Rattle.si_model.specs.Reads.{cell_of};
ghost use Rattle.si_model.specs.Sets.{◌∈◌};
ghost use Rattle.si_model.specs.declared.replies.Cell.{Cell as CellOf};
ghost use Rattle.audit.specs.Audits.{change_of, commit_of};
ghost use Rattle.audit.specs.AuditScans.{HasValue};
ghost use Rattle.audit.specs.AuditSteps.{IsWrittenAfter};
ghost use Rattle.audit.specs.Histories.{IsHistory, IsLastUpTo, Rises};
ghost use Rattle.audit.specs.declared.audit.parts.Commit.{Commit};
ghost use Rattle.audit.specs.declared.audit.parts.Version.{Version};

use crate::audit::commits::Commits;
use crate::audit::lists;
use crate::audit::parts::{Version, Write};
use cell_key::Stamp;
use si_model::Cell;

/// The latest of the versions with a stamp up to this one.
fn last_up_to(versions: &[Version], stamp: Stamp) -> Option<&Version>
    requires { Rises versions.now }
    ensures some { IfSome result (λ version. IsLastUpTo versions.now stamp version.now) }
    ensures none { IfNone result ((v : Version) → v ∈ versions.now → stamp < v.stamp) }
{
    let count = versions.partition_point(|version| version.stamp <= stamp);
    if count == 0 {
        return None;
    }
    Some(&versions[count - 1])
}

/// Whether a read as of the stamp finds this change, told from the versions of the cell.
fn is_latest_among(
    commits: &Commits,
    versions: &[Version],
    stamp: Stamp,
    row: &[u8],
    family: &[u8],
    answer: Option<&[u8]>,
) -> bool
    requires { IsHistory commits.now (cell_of row.now family.now) versions.now }
    ensures { IsTrue result ↔ IsSnapshot (map commit_of commits.now) stamp
        (cell_of row.now family.now) (option_map (λ value. value.now) answer.entry) }
{
    let Some(version) = last_up_to(versions, stamp) else {
        return answer.is_none();
    };
    match commits.write_at(version) {
        Some(write) => lists::makes(write, row, family, answer),
        None => false,
    }
}

/// Whether a read of the cell as of the stamp finds this change.
pub(crate) fn is_snapshot(
    commits: &Commits,
    stamp: Stamp,
    row: &[u8],
    family: &[u8],
    answer: Option<&[u8]>,
) -> bool
    ensures { IsTrue result ↔ IsSnapshot (map commit_of commits.now) stamp
        (cell_of row.now family.now) (option_map (λ value. value.now) answer.entry) }
{
    match commits.history(row, family) {
        Some(versions) => is_latest_among(commits, versions, stamp, row, family, answer),
        None => lists::is_snapshot(commits.as_slice(), stamp, row, family, answer),
    }
}

/// Whether the write puts a value of at least `least` bytes.
fn is_long(write: &Write, least: usize) -> bool
    ensures { IsTrue result ↔ ((v : Value) × (change_of write.now.change ≡ Some v)
        × (least ≤ length v)) }
{
    match &write.change {
        Some(value) => value.len() >= least,
        None => false,
    }
}

/// Whether a read of the cell as of the stamp finds a value of at least `least` bytes, told from its versions.
pub(crate) fn is_long_among(
    commits: &Commits,
    versions: &[Version],
    stamp: Stamp,
    cell: &Cell,
    least: usize,
) -> bool
    requires { IsHistory commits.now cell.now versions.now }
    ensures { IsTrue result ↔ HasValue (map commit_of commits.now) stamp cell.now least }
{
    let Some(version) = last_up_to(versions, stamp) else {
        return false;
    };
    match commits.write_at(version) {
        Some(write) => is_long(write, least),
        None => false,
    }
}

/// Whether the last of the versions is after the start.
fn ends_after(versions: &[Version], start: Stamp) -> bool
    ensures { (commits : List Commit) (x : CellOf) → IsHistory commits x versions.now
        → IsTrue result ↔ IsWrittenAfter (map commit_of commits) x start }
{
    match versions.last() {
        Some(version) => version.stamp > start,
        None => false,
    }
}

/// Whether a commit after the start writes the cell.
pub(crate) fn is_written_after(commits: &Commits, row: &[u8], family: &[u8], start: Stamp) -> bool
    ensures { IsTrue result
        ↔ IsWrittenAfter (map commit_of commits.now) (cell_of row.now family.now) start }
{
    match commits.history(row, family) {
        Some(versions) => ends_after(versions, start),
        None => lists::is_written_after(commits.as_slice(), row, family, start),
    }
}
