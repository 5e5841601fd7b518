//! Laws of servers at rest, and of Commits and Reads. Each is the contract of a function that does nothing.

ghost use Rattle.server_loop.specs.OperationLaws.{CommitsKeepCollectors, OperationsKeepCollectors, OperationsLeaveOthers};
ghost use Rattle.server_loop.specs.Resting.{RestingIsKept, RestsBetween};

use file_store::Files;
use oracle::MarkStore;
use row_atomic::root_outlasts_flushes;

/// The upkeep of `serve` between two requests leaves a server resting at the same state, if it doesn't merge by itself
/// or if no merge is due.
pub fn rests_between<F: Files, M: MarkStore>()
    ensures { RestsBetween F.Files M.mark }
{
    root_outlasts_flushes::<F>();
}

/// The files and the mark of a server that rests at a state keep the state.
pub fn resting_is_kept<F: Files, M: MarkStore>()
    ensures { RestingIsKept F.Files M.mark }
{}

/// A Commit or a Read leaves the tablets' places unchanged, and what cleaners show.
pub fn operations_leave_others()
    ensures { OperationsLeaveOthers }
{}

/// It leaves what collectors show unchanged, over the same cells.
pub fn operations_keep_collectors()
    ensures { OperationsKeepCollectors }
{}

/// A Commit leaves it unchanged too, over cells into which data and records of any writes were put.
pub fn commits_keep_collectors()
    ensures { CommitsKeepCollectors }
{}
