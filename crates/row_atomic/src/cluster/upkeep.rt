//! Upkeep of tablets: minor compactions of full memtables, and merging compactions as a policy says.

ghost use Rattle.std.specs.Prelude.{◌≡◌, ◌<◌, ◌≤◌, ℕ, Some, IsTrue, true, length};
ghost use Rattle.std.specs.List.{slice_get};
ghost use Rattle.metadata_table.specs.Table.{HasTablet};
ghost use Rattle.row_atomic.specs.Changes.{Numbered};
ghost use Rattle.row_atomic.specs.Clusters.{tablet_numbered};
ghost use Rattle.row_atomic.specs.Memtables.{is_any_full, largest, longest};
ghost use Rattle.row_atomic.specs.Flushes.{CompactsFull, KeepsShown, MergesMany, MergesNewest, has_full, numbers_of};
ghost use Rattle.tablet.specs.MergePolicies.{IsMergeCount};

use crate::cluster::Cluster;
use crate::fill::{Fill, FlushLimits};
use file_store::Files;
use tablet::{MergePolicy, Tablet};

/// The most entries, and the most bytes, of any memtable of these tablets.
fn fullest(tablets: &[Tablet]) -> Fill
    ensures entries { result.entries ≡ longest tablets.now }
    ensures bytes { result.bytes ≡ largest tablets.now }
{
    let mut most = Fill::NONE;
    let mut rest = tablets;
    'tablets: while let Some((tablet, after)) = rest.split_first() {
        most = most.joined(Fill::of(tablet));
        rest = after;
    }
    most
}

impl<F: Files> Cluster<F> {
    /// The number of the tablet at an index in the order of the tablets' ends.
    pub(crate) fn number_at(&self, index: usize) -> u32
        requires within { index < length self.now.places }
        ensures at { slice_get (numbers_of self.now.places) index ≡ Some result }
        ensures known { HasTablet result self.now.places }
    {
        self.table.places()[index].tablet
    }

    /// Whether some tablet's memtable may be full; `false` is exact. Asks no tablet.
    fn may_have_full(&self, limits: FlushLimits) -> bool
        ensures { IsTrue (is_any_full limits self.now.tablets) → IsTrue result }
    {
        self.most.reaches(limits)
    }

    /// A number of bytes that no tablet's memtable exceeds. Asks no tablet.
    pub fn filled(&self) -> usize
        ensures { largest self.now.tablets ≤ result }
    {
        self.most.bytes
    }

    /// Whether some tablet's memtable is full, so that `compact_full` would compact it. No tablet is asked if none can
    /// be full. Allocates nothing.
    pub fn has_full(&self, limits: FlushLimits) -> bool
        ensures { result ≡ is_any_full limits self.now.tablets }
    {
        self.may_have_full(limits)
            && self
                .tablets
                .iter()
                .any(|tablet| Fill::of(tablet).reaches(limits))
    }

    /// Whether the memtable of a tablet is full.
    fn is_full(&self, tablet: u32, limits: FlushLimits) -> bool
        requires known { HasTablet tablet self.now.places }
        ensures { result ≡ has_full limits (tablet_numbered tablet self.now.tablets) }
    {
        let index = self.position(tablet);
        Fill::of(&self.tablets[index]).reaches(limits)
    }

    /// Compacts each tablet whose memtable is full.
    fn compact_each_full(&mut self, limits: FlushLimits)
        ensures compacts { CompactsFull F.contents F.faults limits self.old self.new }
        ensures keeps { KeepsShown F.contents F.faults self.old self.new }
    {
        for index in 0..self.table.len() {
            let tablet = self.number_at(index);
            if self.is_full(tablet, limits) {
                let _ = self.minor(tablet);
            }
        }
    }

    /// Compacts each tablet whose memtable is full, that is, has reached the entries or the bytes of `limits`, as
    /// `minor` does, in the order of their ends. Refusals are ignored: the tablet is then unchanged, and the next one
    /// is tried. No tablet is asked if none can be full.
    pub fn compact_full(&mut self, limits: FlushLimits)
        ensures compacts { CompactsFull F.contents F.faults limits self.old self.new }
        ensures keeps { KeepsShown F.contents F.faults self.old self.new }
    {
        if self.may_have_full(limits) {
            self.compact_each_full(limits);
            self.most = fullest(&self.tablets);
        }
    }

    /// How many of a tablet's newest files the policy has merged; 0 if there is nothing to merge.
    pub(crate) fn merge_count(&self, tablet: u32, policy: MergePolicy) -> u32
        requires known { HasTablet tablet self.now.places }
        ensures { Numbered (λ t. IsMergeCount policy t result) tablet self.now.tablets }
    {
        let index = self.position(tablet);
        self.tablets[index].merge_count(policy) as u32
    }

    /// Merges a tablet's newest files as the policy says, as `merge` does. A refusal is ignored: the tablet is then
    /// unchanged.
    fn merge_newest(&mut self, tablet: u32, policy: MergePolicy)
        requires known { HasTablet tablet self.old.places }
        ensures merges { (count : ℕ)
            × Numbered (λ t. IsMergeCount policy t count) tablet self.old.tablets
            × MergesNewest F.contents F.faults tablet count self.old self.new }
        ensures keeps { KeepsShown F.contents F.faults self.old self.new }
    {
        let count = self.merge_count(tablet, policy);
        if count > 0 {
            let _ = self.merge(tablet, count);
        }
    }

    /// Merges the newest files of each tablet as the policy says, as `merge` does, in the order of the tablets' ends.
    /// Refusals are ignored: the tablet is then unchanged, and the next one is tried.
    pub fn merge_many(&mut self, policy: MergePolicy)
        ensures merges { MergesMany F.contents F.faults policy self.old self.new }
        ensures keeps { KeepsShown F.contents F.faults self.old self.new }
    {
        for index in 0..self.table.len() {
            let tablet = self.number_at(index);
            self.merge_newest(tablet, policy);
        }
    }
}
