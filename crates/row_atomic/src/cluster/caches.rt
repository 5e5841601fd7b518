//! The caches of a cluster: emptying them, their sizes and hits.

ghost use Rattle.std.specs.Prelude.{Option};
ghost use Rattle.std.specs.List.{AllZip};
ghost use Rattle.file_store.specs.Store.{Contents};
ghost use Rattle.tablet.specs.Views.{IsSameTablet};
ghost use Rattle.row_atomic.specs.Commands.{IsOutcome};

use crate::cluster::Cluster;
use crate::commands::{Command, Outcome};
use file_store::Files;
use std::num::NonZeroUsize;
use tablet::Tablet;

/// Empties the caches of tablets. The tablets are otherwise unchanged.
fn drop_each(tablets: &mut [Tablet])
    ensures { (disk : Option Contents) → AllZip (IsSameTablet disk) tablets.old tablets.new }
{
    for tablet in tablets.iter_mut() {
        tablet.drop_caches();
    }
}

/// Sets how many blocks each file of some tablets caches at most. The tablets are otherwise unchanged.
fn resize_each(tablets: &mut [Tablet], most_blocks: NonZeroUsize)
    ensures { (disk : Option Contents) → AllZip (IsSameTablet disk) tablets.old tablets.new }
{
    for tablet in tablets.iter_mut() {
        tablet.resize_caches(most_blocks);
    }
}

impl<F: Files> Cluster<F> {
    /// Empties the cache of places and the caches of every tablet's open files. All cells and places are unchanged.
    /// Allocates nothing.
    pub fn drop_caches(&mut self)
        ensures { IsOutcome
            F.contents F.faults Command.DropCaches Outcome.Done self.old self.new }
    {
        self.place_cache.clear();
        drop_each(&mut self.tablets);
    }

    /// Sets how many blocks each file of every tablet caches at most, for the open files and those opened later. A file
    /// that caches more evicts the least recently used. All cells and places are unchanged.
    pub fn resize_caches(&mut self, most_blocks: NonZeroUsize)
        ensures { IsOutcome
            F.contents F.faults Command.DropCaches Outcome.Done self.old self.new }
    {
        resize_each(&mut self.tablets, most_blocks);
    }

    /// How many calls of `newest`, `versions`, `has_version` and `apply` found their row among the 128 located last.
    /// The count saturates at 2^64 - 1. Allocates nothing.
    pub fn place_hits(&self) -> u64 {
        self.place_cache.hits()
    }
}
