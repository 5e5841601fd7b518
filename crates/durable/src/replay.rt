//! The replay of a log's edits over the cells that the files keep.

ghost use Rattle.std.specs.Prelude.{◌≡◌, ◌∷◌, [], IfErr, IsErrOf, OnOk};
ghost use Rattle.std.specs.List.{AllByRecursion};
ghost use Rattle.cell_key.specs.Cells.{Cells, edited_key};
ghost use Rattle.commit_log.specs.Edits.{IsStoredEdit};
ghost use Rattle.metadata_table.specs.Roots.{RootView};
ghost use Rattle.row_atomic.specs.Clusters.{storage_of};
ghost use Rattle.row_atomic.specs.Journals.{HasRoomFor, empty_journal};
ghost use Rattle.row_atomic.specs.Changes.{IsEmptied};
ghost use Rattle.row_atomic.specs.Recorded.{FitsMemtables, OverfillsRecorded};
ghost use Rattle.rows.specs.Refusals.{IsApplyRefusal};
ghost use Rattle.durable.specs.Replay.{FollowsLog, HasRoom, Replays, ShowsRoot};

use cell_key::{Edit, Refusal};
use commit_log::edited_key;
use file_store::Files;
use row_atomic::{Recorded, Rows, opens_following, root_is_stored};
use std::alloc::Global;

/// Makes an edit.
fn make_edit<F: Files>(alloc: Global, rows: &mut Recorded<F>, edit: Edit) -> Result<(), Refusal>
    requires { IsStoredEdit edit }
    ensures ok { OnOk result (Replays F.contents (edit ∷ []) rows.old rows.new) }
    ensures stays { storage_of F.contents rows.new.cluster
        ≡ storage_of F.contents rows.old.cluster }
    ensures faults { F.faults rows.new.cluster.files ≡ F.faults rows.old.cluster.files }
    ensures refusal { IfErr result IsApplyRefusal }
    ensures full { IsErrOf result Refusal.MemtableFull
        → OverfillsRecorded rows.old (edited_key edit).row (edit ∷ []) }
{
    let row = edited_key(&edit).row.clone()?;
    let mut edits = Vec::new(alloc);
    edits.push(edit)?;
    rows.apply(&row, edits)?;
    Ok(())
}

/// Makes edits in order.
///
/// # Errors
///
/// `NoMemory`, and `MemtableFull` if the journal has no room for them. Some of them may have been made by then.
fn make_edits<F: Files>(
    alloc: Global,
    rows: &mut Recorded<F>,
    edits: Vec<Edit>,
) -> Result<(), Refusal>
    requires { AllByRecursion IsStoredEdit edits.items }
    ensures ok { OnOk result (Replays F.contents edits.items rows.old rows.new) }
    ensures stays { storage_of F.contents rows.new.cluster
        ≡ storage_of F.contents rows.old.cluster }
    ensures faults { F.faults rows.new.cluster.files ≡ F.faults rows.old.cluster.files }
    ensures refusal { IfErr result IsApplyRefusal }
    ensures full { IsErrOf result Refusal.MemtableFull → FitsMemtables rows.old
        → ¬ HasRoom rows.old.journal edits.items }
{
    for edit in edits {
        make_edit(alloc, rows, edit)?;
    }
    Ok(())
}

/// Starts the journal of rows that were just opened, and replays the edits of a log. The log counts as having them.
///
/// # Errors
///
/// `NoMemory`, and `MemtableFull` if the edits exceed the journal's bound of edits or of bytes. Some of them may have
/// been made by then.
pub(crate) fn replay<F: Files>(
    alloc: Global,
    rows: &mut Recorded<F>,
    edits: Vec<Edit>,
) -> Result<(), Refusal>
    requires { AllByRecursion IsStoredEdit edits.items }
    ensures ok { OnOk result ((root : RootView) (base : Cells)
        → ShowsRoot F.contents root base rows.old.cluster
        → FollowsLog F.contents root base edits.items rows.new) }
    ensures full { IsErrOf result Refusal.MemtableFull
        → AllByRecursion IsEmptied rows.old.cluster.tablets
        → ¬ HasRoomFor empty_journal edits.items }
    ensures stays { storage_of F.contents rows.new.cluster
        ≡ storage_of F.contents rows.old.cluster }
    ensures faults { F.faults rows.new.cluster.files ≡ F.faults rows.old.cluster.files }
    ensures refusal { IfErr result IsApplyRefusal }
{
    opens_following::<F>();
    root_is_stored::<F>();
    rows.record();
    make_edits(alloc, rows, edits)?;
    rows.settled();
    Ok(())
}
