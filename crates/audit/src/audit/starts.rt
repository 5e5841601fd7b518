//! The starts of an audit's commits, and searches for the commit of a start.

ghost use Rattle.std.specs.BTreeMap as btree;
ghost use Rattle.std.specs.Ordering.{nat_cmp};
ghost use Rattle.std.specs.Prelude.{◌≡◌, ◌↔◌, ℕ, map, IfSome, IsSome, IsTrue, Some};
ghost use Rattle.audit.specs.Audits.{HasCommit, commit_of};
ghost use Rattle.audit.specs.Histories.{IsStarted, Starts as StartsOf};

use crate::audit::commits::Commits;
use crate::audit::lists;
use cell_key::Stamp;
use std::collections::BTreeMap;

/// The stamp of each commit, by its start.
pub(crate) type Starts = BTreeMap<Stamp, Stamp>;

/// Whether a commit has this start.
fn has_start(starts: &Starts, start: Stamp) -> bool
    ensures { IsTrue result ↔ IsSome (btree.get nat_cmp starts.now start) }
{
    starts.contains_key(&start)
}

/// Whether the commit with this start has this stamp.
fn has_stamp(starts: &Starts, start: Stamp, stamp: Stamp) -> bool
    ensures { IsTrue result ↔ (btree.get nat_cmp starts.now start ≡ Some stamp) }
{
    match starts.get(&start) {
        Some(found) => *found == stamp,
        None => false,
    }
}

/// The starts with this one, which has no commit yet. `None` if they weren't kept, if it has a commit, or if there is no
/// memory for it.
pub(crate) fn with_start(starts: Option<Starts>, start: Stamp, stamp: Stamp) -> Option<Starts>
    ensures { IfSome result (λ after. (before : StartsOf) × (starts ≡ Some before)
        × IsStarted before after start stamp) }
{
    let Some(mut after) = starts else {
        return None;
    };
    match after.insert(start, stamp) {
        Ok(None) => Some(after),
        _ => None,
    }
}

/// Whether one of the commits has this start.
pub(crate) fn is_committed(commits: &Commits, start: Stamp) -> bool
    ensures { IsTrue result ↔ ((c : ℕ) × HasCommit (map commit_of commits.now) start c) }
{
    match commits.starts() {
        Some(starts) => has_start(starts, start),
        None => lists::is_committed(commits.as_slice(), start),
    }
}

/// Whether one of the commits has this start and this stamp.
pub(crate) fn is_committed_at(commits: &Commits, start: Stamp, stamp: Stamp) -> bool
    ensures { IsTrue result ↔ HasCommit (map commit_of commits.now) start stamp }
{
    match commits.starts() {
        Some(starts) => has_stamp(starts, start, stamp),
        None => lists::is_committed_at(commits.as_slice(), start, stamp),
    }
}
