//! The stamps of locks that have a value, by which a lock test skips files without reading them.

ghost use Rattle.std.specs.Prelude.{◌≡◌, ◌≤◌, ◌⊎◌, ℕ, Some, IfSome};
ghost use Rattle.sorted_file.specs.LockStamps.{InColumnOrder, IsLatest, IsLatestOf};
ghost use Rattle.sorted_file.specs.Newest.{IsAfterStamp};
ghost use Rattle.sorted_file.specs.Numbers.{IsAmong};

use cell_key::Stamp;
use std::marker::Model;

/// The stamp of a lock that has a value, and the hash of its column.
#[derive(Clone, Copy, Drop)]
pub(crate) struct LockStamp {
    pub(crate) column: u64,
    pub(crate) stamp: Stamp,
}

/// The later of `found` and `stamp`, which counts only if it is in `lo..=hi`.
fn later(found: Option<Stamp>, stamp: Stamp, lo: Stamp, hi: Stamp) -> Option<Stamp>
    requires { IfSome found (λ last. (lo ≤ last) × (last ≤ hi)) }
    ensures within { IfSome result (λ last. (lo ≤ last) × (last ≤ hi)) }
    ensures one { (result ≡ found) ⊎ (result ≡ Some stamp) }
    ensures after { (s : ℕ) → IsAfterStamp s lo result
        → IsAfterStamp s lo found × (s ≡ stamp → ¬ (s ≤ hi)) }
{
    if stamp < lo || hi < stamp {
        return found;
    }
    match found {
        Some(last) if last >= stamp => found,
        _ => Some(stamp),
    }
}

/// The greatest of these locks' stamps in `lo..=hi`.
fn latest_of(locks: &[LockStamp], lo: Stamp, hi: Stamp) -> Option<Stamp>
    ensures { IsLatestOf locks.now lo hi result }
{
    let mut latest = None;
    for lock in locks {
        latest = later(latest, lock.stamp, lo, hi);
    }
    latest
}

/// The stamps of locks.
#[derive(Drop)]
pub(crate) struct LockStamps {
    /// In ascending order of the columns' hashes.
    sorted: Vec<LockStamp>,
}

impl Model for LockStamps {
    ghost use Rattle.std.specs.Prelude.{List};
    ghost use Rattle.sorted_file.specs.LockStamps.{InColumnOrder};
    ghost use Rattle.sorted_file.specs.declared.lock_stamps.LockStamp.{LockStamp as StampOf};

    ghost Value = { List StampOf };

    ghost view = { λ locks. locks.sorted.items };

    ghost invariant = { λ locks. InColumnOrder locks.sorted.items };
}

impl LockStamps {
    /// These stamps.
    pub(crate) fn new(locks: Vec<LockStamp>) -> LockStamps
        ensures keeps { IsAmong locks.items result }
        ensures only { IsAmong result locks.items }
    {
        let mut sorted = locks;
        sorted.sort_unstable_by_key(|lock| lock.column);
        LockStamps { sorted }
    }

    /// The greatest stamp in `lo..=hi` of a lock whose column has this hash.
    pub(crate) fn latest(&self, column: u64, lo: Stamp, hi: Stamp) -> Option<Stamp>
        ensures { IsLatest self.now column lo hi result }
    {
        let to = self.sorted.partition_point(|lock| lock.column <= column);
        let up_to = self.sorted.split_at(to).0;
        let from = up_to.partition_point(|lock| lock.column < column);
        latest_of(up_to.split_at(from).1, lo, hi)
    }
}
