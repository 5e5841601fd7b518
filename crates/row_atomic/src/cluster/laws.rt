//! Laws of clusters. Each is the contract of a function that does nothing.

ghost use Rattle.row_atomic.specs.Clusters.{CellsByTablet};
ghost use Rattle.row_atomic.specs.Recorded.{KeepsFollowing, OpensFollowing};
ghost use Rattle.row_atomic.specs.RootSweeps.{RootOutlastsSweeps};
ghost use Rattle.row_atomic.specs.Roots.{RootIsStored, RootOutlastsFlushes, RootOutlastsMerges, RootStays};

use cell_key::replays;
use file_store::Files;
use tablet::unnamed_may_go;

/// The cells of a row are the cells of the tablet that holds it.
pub fn cells_by_tablet()
    ensures { CellsByTablet }
{}

/// A command leaves a stored root and its cells in the files. A sweep does if the tablets have every file that the root
/// lists.
pub fn root_stays<F: Files>()
    ensures { RootStays F.contents F.faults }
{
    unnamed_may_go();
}

/// Whether the files keep a root does not depend on the memtables.
pub fn root_is_stored<F: Files>()
    ensures { RootIsStored F.contents }
{}

/// Minor compactions of many tablets leave a root and its cells in the files.
pub fn root_outlasts_flushes<F: Files>()
    ensures { RootOutlastsFlushes F.contents F.faults }
{
    unnamed_may_go();
}

/// Merges of many tablets leave a root and its cells in the files.
pub fn root_outlasts_merges<F: Files>()
    ensures { RootOutlastsMerges F.contents F.faults }
{
    unnamed_may_go();
}

/// A sweep beside the root leaves the root and its cells in the files.
pub fn root_outlasts_sweeps<F: Files>()
    ensures { RootOutlastsSweeps F.contents F.faults }
{
    unnamed_may_go();
}

/// The journal still leads from the files to the cluster's cells after everything a cluster does except `apply`:
/// commands, automatic compactions and merges, and checkpoints, done or refused. Of sweeps it does after those beside the
/// root.
pub fn keeps_following<F: Files>()
    ensures { KeepsFollowing F.contents F.faults }
{
    replays();
    root_stays::<F>();
    root_outlasts_flushes::<F>();
    root_outlasts_merges::<F>();
    root_outlasts_sweeps::<F>();
}

/// A store that was opened from a root shows that root's cells, and its memtables are empty.
pub fn opens_following<F: Files>()
    ensures { OpensFollowing F.contents }
{}
