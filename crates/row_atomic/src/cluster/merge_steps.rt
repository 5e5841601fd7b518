//! Merges of tablets' files in steps, one at a time. Between two steps any other call may come.

ghost use Rattle.std.specs.Prelude.{◌≡◌, ◌≤◌, ◌<◌, ◌+◌, [], None, Some, true, false, is_some, vec_capacity, IfNone, IfOk, IfSome, IsNone, IsTrue, OnErr, OnOk};
ghost use Rattle.file_store.specs.Store.{KeepsOthers};
ghost use Rattle.metadata_table.specs.Table.{IsListed, HasTablet};
ghost use Rattle.row_atomic.specs.Changes.{Holds, Numbered};
ghost use Rattle.row_atomic.specs.Flushes.{KeepsShown};
ghost use Rattle.row_atomic.specs.MergeStates.{IsUsed, MayGiveUp};
ghost use Rattle.row_atomic.specs.MergeSteps.{AreListed, CanEndOver, CanJoin, GoesOn, HasNoneToMerge, IsListedMerge, IsMergeOf, IsNextToMerge, IsUnended, IsUnrooted, JoinsFile, KeepsAtEnd, KeepsRoots, StandsIn, StepsMerge, sources_of};

use crate::cluster::Cluster;
use crate::cluster::compact::{list_files, room_for_names};
use crate::cluster::open::read_root;
use crate::tablet_merge::TabletMerge;
use cell_key::{Refusal, Row};
use file_store::Files;
use metadata_table::one_root;
use std::alloc::AllocError;
use std::snapshot::Snapshot;
use tablet::{MergePolicy, RowRange, Tablet, runs_alike, unnamed_may_go};

/// With so many files a tablet's merge isn't cut into steps any more: at 64 a memtable can't be written.
const MANY_FILES: usize = 56;

/// Whether two ends of a range are the same.
fn are_same_ends(one: &Option<Row>, other: &Option<Row>) -> bool
    ensures { IsTrue result → one.now ≡ other.now }
{
    match (one, other) {
        (None, None) => true,
        (Some(row), Some(end)) => row.cmp(end).is_eq(),
        _ => false,
    }
}

/// Whether two ranges are the same.
fn are_same_ranges(one: &RowRange, other: &RowRange) -> bool
    ensures { IsTrue result → one.now ≡ other.now }
{
    are_same_ends(&one.after, &other.after) && are_same_ends(&one.end, &other.end)
}

/// A copy of a range.
fn copy_of(range: &RowRange) -> Result<RowRange, AllocError>
    ensures { IfOk result (λ copy. copy ≡ range.now) }
{
    let after = range.after.clone()?;
    let end = range.end.clone()?;
    Ok(RowRange { after, end })
}

/// Whether the tablet at an index is merged before the one found so far, if there is one: those from `from` on come first.
fn comes_first(next: &Option<(usize, u32)>, index: usize, from: usize) -> bool
    ensures { IsNone next.now → result ≡ true }
{
    match next {
        None => true,
        Some((found, _)) => *found < from && index >= from,
    }
}

impl<F: Files> Cluster<F> {
    /// Whether all files that a merge reads belong to a tablet.
    fn lists_sources(&self, merge: &TabletMerge<F>) -> bool
        ensures { IsTrue result → AreListed (sources_of merge.now) self.now.places }
    {
        for name in merge.sources() {
            if !self.table.listed(*name) {
                return false;
            }
        }
        true
    }

    /// Gives up a merge that reads a file which belongs to no tablet any more, so that it may be removed.
    pub(crate) fn give_up_unlisted(&mut self)
        ensures rest { self.new
            ≡ record self.old { files = self.new.files; merge = self.new.merge } }
        ensures merge { MayGiveUp self.old.merge self.new.merge }
        ensures listed { IsListedMerge self.new.merge self.new.places }
        ensures same { F.contents self.new.files ≡ F.contents self.old.files }
        ensures told { F.faults self.new.files ≡ F.faults self.old.files }
    {
        let Some(merge) = self.merge.take() else {
            return;
        };
        if self.lists_sources(&merge) {
            self.merge = Some(merge);
        } else {
            merge.give_up(&mut self.files);
        }
    }

    /// The index of a merge's tablet, if that still has the rows that it had when the merge was begun, and the merge's
    /// files one behind the other.
    fn index_of_merge(&self, merge: &TabletMerge<F>) -> Option<usize>
        ensures stands { IfSome result (StandsIn merge.now self.now.tablets) }
        ensures known { IfSome result (λ _. HasTablet merge.now.tablet self.now.places) }
    {
        let Ok(()) = self.check_tablet(merge.tablet) else {
            return None;
        };
        let index = self.position(merge.tablet);
        let tablet = &self.tablets[index];
        if !are_same_ranges(tablet.range(), &merge.range) {
            return None;
        }
        match tablet.place_of_merge(&merge.merge) {
            Some(_) => Some(index),
            None => None,
        }
    }

    /// Goes on with a merge, and answers it, with whether there may be more. It is given up if this is refused.
    ///
    /// # Errors
    ///
    /// `BadCount` if the merge's files don't stand in its tablet any more, `FileTooLarge`, `Device`, `NoMemory`, and
    /// `Damaged` only if one of these files has changed since it was opened.
    fn write_some(
        &mut self,
        merge: TabletMerge<F>,
        budget: usize,
    ) -> Result<(TabletMerge<F>, bool), Refusal>
        requires some { 0 < budget }
        ensures goes { IfOk result (λ went. GoesOn merge went.0) }
        ensures more { IfOk result (λ went. went.1 ≡ true
            → Holds F.contents (record self.old { merge = Some merge })
            → Holds F.contents (record self.new { merge = Some went.0 })) }
        ensures done { IfOk result (λ went. went.1 ≡ false
            → Holds F.contents (record self.old { merge = Some merge })
            → CanEndOver (F.contents self.new.files) self.new.file_limit self.new.next_name
            went.0) }
        ensures rest { self.new ≡ record self.old { files = self.new.files } }
        ensures same { F.contents self.new.files ≡ F.contents self.old.files }
        ensures later { F.faults self.old.files ≤ F.faults self.new.files }
    {
        runs_alike();
        let Some(index) = self.index_of_merge(&merge) else {
            merge.give_up(&mut self.files);
            return Err(Refusal::BadCount);
        };
        let TabletMerge {
            tablet,
            range,
            name,
            limit,
            was,
            merge: mut run,
        } = merge;
        match self.tablets[index].merge_step(&mut run, budget, &mut self.files) {
            Ok(more) => Ok((
                TabletMerge {
                    tablet,
                    range,
                    name,
                    limit,
                    was,
                    merge: run,
                },
                more,
            )),
            Err(refusal) => {
                run.give_up(&mut self.files);
                Err(refusal)
            }
        }
    }

    /// Whether a name was used, and no tablet and no root has a file of this name.
    fn is_free(&mut self, name: u64) -> Result<bool, Refusal>
        ensures used { IfOk result (λ free. free ≡ true → IsUsed self.old.next_name name) }
        ensures unlisted { IfOk result (λ free. free ≡ true → ¬ IsListed name self.old.places) }
        ensures unrooted { IfOk result (λ free. free ≡ true → IsUnrooted F.contents name self.old) }
        ensures rest { self.new ≡ record self.old { files = self.new.files } }
        ensures same { F.contents self.new.files ≡ F.contents self.old.files }
        ensures later { F.faults self.old.files ≤ F.faults self.new.files }
    {
        one_root();
        if name < 1 || name >= self.next_name || self.table.listed(name) {
            return Ok(false);
        }
        match read_root(self.alloc, &mut self.files)? {
            Some(root) => Ok(!root.table.listed(name)),
            None => Ok(true),
        }
    }

    /// What ending a merge needs: the index of its tablet, and an empty list with room for the names of the tablet's
    /// files.
    ///
    /// # Errors
    ///
    /// `BadCount` if the merge's files don't stand in its tablet any more, or its name isn't free; `Device`, `NoMemory`,
    /// and `Damaged` if the root file is malformed.
    fn room_to_end(&mut self, merge: &TabletMerge<F>) -> Result<(usize, Vec<u64>), Refusal>
        ensures can { IfOk result (λ room.
            CanJoin F.contents merge.now room.0 (vec_capacity room.1) self.old) }
        ensures empty { IfOk result (λ room. room.1.items ≡ []) }
        ensures rest { self.new ≡ record self.old { files = self.new.files } }
        ensures same { F.contents self.new.files ≡ F.contents self.old.files }
        ensures later { F.faults self.old.files ≤ F.faults self.new.files }
    {
        let Some(index) = self.index_of_merge(merge) else {
            return Err(Refusal::BadCount);
        };
        if !self.is_free(merge.name)? {
            return Err(Refusal::BadCount);
        }
        let names = room_for_names(self.alloc, &self.tablets[index])?;
        Ok((index, names))
    }

    /// Puts the file of a merge that has all its entries in the place of its files, in the tablet at an index. If it is
    /// refused nothing has changed, but a file may be left under its name. `names` has room for the names of the
    /// tablet's files.
    ///
    /// # Errors
    ///
    /// `BadCount`, `FileTooLarge`, `Device` and `NoMemory`.
    fn join_file(
        &mut self,
        merge: TabletMerge<F>,
        index: usize,
        names: Vec<u64>,
    ) -> Result<(), Refusal>
        requires none { self.old.merge ≡ None }
        requires can { CanJoin F.contents merge index (vec_capacity names) self.old }
        requires empty { names.items ≡ [] }
        ensures joined { OnOk result (JoinsFile F.contents merge self.old self.new) }
        ensures unended { OnErr result (IsUnended self.old self.new) }
        ensures others { KeepsOthers merge.name
            (F.contents self.old.files) (F.contents self.new.files) }
        ensures keeps { KeepsAtEnd F.contents merge self.old self.new }
        ensures later { F.faults self.old.files ≤ F.faults self.new.files }
    {
        runs_alike();
        unnamed_may_go();
        let _ = self.table.len();
        let TabletMerge {
            tablet,
            merge: run,
            ..
        } = merge;
        self.tablets[index].end_merge(run, &mut self.files)?;
        list_files(&mut self.table, tablet, &self.tablets[index], names);
        Ok(())
    }

    /// Ends a merge that has all its entries: its file takes the place of its files. If it is refused nothing has
    /// changed, but a file may be left under its name.
    ///
    /// # Errors
    ///
    /// Those of `room_to_end` and of `join_file`.
    fn end_merge(&mut self, merge: TabletMerge<F>) -> Result<(), Refusal>
        requires none { self.old.merge ≡ None }
        ensures joined { OnOk result (JoinsFile F.contents merge self.old self.new) }
        ensures unended { OnErr result (IsUnended self.old self.new) }
        ensures others { KeepsOthers merge.name
            (F.contents self.old.files) (F.contents self.new.files) }
        ensures keeps { KeepsAtEnd F.contents merge self.old self.new }
        ensures roots { KeepsRoots F.contents self.old self.new }
        ensures later { F.faults self.old.files ≤ F.faults self.new.files }
    {
        unnamed_may_go();
        match self.room_to_end(&merge) {
            Ok((index, names)) => self.join_file(merge, index, names),
            Err(refusal) => {
                merge.give_up(&mut self.files);
                Err(refusal)
            }
        }
    }

    /// Begins a merge of a tablet's newest `count` files, into a file of the next name.
    ///
    /// # Errors
    ///
    /// `BadCount` if `count` is below 2 or above the number of files, `Exhausted` if no name is left, `Device` and
    /// `NoMemory`.
    fn begin_merge(&mut self, tablet: u32, count: u32) -> Result<TabletMerge<F>, Refusal>
        requires known { HasTablet tablet self.old.places }
        requires none { self.old.merge ≡ None }
        ensures begun { IfOk result (λ merge. Numbered
            (IsMergeOf count self.old.file_limit self.old.next_name tablet merge)
            tablet self.old.tablets) }
        ensures can { IfOk result (λ merge. Holds F.contents self.old
            → Holds F.contents (record self.new { merge = Some merge })) }
        ensures used { OnOk result (self.new.next_name ≡ self.old.next_name + 1) }
        ensures later_name { self.old.next_name ≤ self.new.next_name }
        ensures rest { self.new ≡ record self.old {
          files = self.new.files;
          next_name = self.new.next_name;
        } }
        ensures same { F.contents self.new.files ≡ F.contents self.old.files }
        ensures later { F.faults self.old.files ≤ F.faults self.new.files }
    {
        runs_alike();
        let index = self.position(tablet);
        let range = copy_of(self.tablets[index].range())?;
        let name = self.next_name;
        let merge = self.tablets[index].begin_merge(
            count,
            self.file_limit,
            &mut self.next_name,
            &mut self.files,
        )?;
        Ok(TabletMerge {
            tablet,
            range,
            name,
            limit: self.file_limit,
            was: Snapshot::of(&self.tablets[index]),
            merge,
        })
    }

    /// The index, in the order of the tablets' ends, of a tablet whose newest files the policy has merged, and how many:
    /// of the first from `merge_from` on, or else of the first.
    fn next_to_merge(&self, policy: MergePolicy) -> Option<(usize, u32)>
        ensures found { IfSome result (IsNextToMerge policy self.now.places self.now.tablets) }
        ensures none { IfNone result (HasNoneToMerge policy self.now.places self.now.tablets) }
    {
        let mut next: Option<(usize, u32)> = None;
        for index in 0..self.table.len() {
            let count = self.merge_count(self.number_at(index), policy);
            if count > 0 && comes_first(&next, index, self.merge_from) {
                next = Some((index, count));
            }
        }
        next
    }

    /// Begins the next merge that the policy has, and answers whether one was begun.
    fn begin_next(&mut self, policy: MergePolicy) -> bool
        requires none { self.old.merge ≡ None }
        ensures steps { StepsMerge F.contents policy self.old result self.new }
        ensures keeps { KeepsShown F.contents F.faults self.old self.new }
        ensures same { F.contents self.new.files ≡ F.contents self.old.files }
        ensures later { self.old.next_name ≤ self.new.next_name }
    {
        let Some((index, count)) = self.next_to_merge(policy) else {
            return false;
        };
        self.merge_from = index.saturating_add(1);
        let tablet = self.number_at(index);
        let Ok(merge) = self.begin_merge(tablet, count) else {
            return false;
        };
        self.merge = Some(merge);
        true
    }

    /// Goes on with a merge, ends it, or gives it up. Answers whether there may be more to do: it goes on, or has ended.
    fn go_on(&mut self, merge: TabletMerge<F>, budget: usize) -> bool
        requires some { 0 < budget }
        requires none { self.old.merge ≡ None }
        ensures steps { (policy : MergePolicy) → StepsMerge F.contents policy
            (record self.old { merge = Some merge }) result self.new }
        ensures keeps { KeepsShown F.contents F.faults
            (record self.old { merge = Some merge }) self.new }
        ensures roots { KeepsRoots F.contents self.old self.new }
    {
        match self.write_some(merge, budget) {
            Ok((merge, true)) => {
                self.merge = Some(merge);
                true
            }
            Ok((merge, false)) => self.end_merge(merge).is_ok(),
            Err(_) => false,
        }
    }

    /// Whether some tablet has so many files that a merge must end now.
    fn is_crowded(&self) -> bool {
        self.tablets
            .iter()
            .any(|tablet| tablet.file_count() >= MANY_FILES)
    }

    /// Whether a merge is under way. Allocates nothing.
    pub fn is_merging(&self) -> bool
        ensures { result ≡ is_some self.now.merge }
    {
        self.merge.is_some()
    }

    /// Does the next step of a merge of some tablet's newest files: it goes on with the merge that is under way, passing
    /// entries with some `budget` bytes of texts and values, and ends it once none is left; if none is under way it begins
    /// the next one that the policy has. Where a tablet has 56 files, a merge goes on to its end. Answers whether there may
    /// be more to do; `false` if none is due, and after a refusal, which isn't reported: the tablet is then unchanged, and
    /// another tablet comes first the next time.
    pub fn merge_some(&mut self, policy: MergePolicy, budget: usize) -> bool
        requires some { 0 < budget }
        ensures steps { StepsMerge F.contents policy self.old result self.new }
        ensures keeps { KeepsShown F.contents F.faults self.old self.new }
        ensures roots { KeepsRoots F.contents self.old self.new }
    {
        let budget = if self.is_crowded() {
            usize::MAX
        } else {
            budget
        };
        match self.merge.take() {
            None => self.begin_next(policy),
            Some(merge) => self.go_on(merge, budget),
        }
    }
}
