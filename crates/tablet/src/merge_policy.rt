//! The merge policies: when the newest files of a tablet are merged without a request, and how many of them.

ghost use Rattle.std.specs.Prelude.{◌≡◌, ◌≤◌, ◌<◌, ◌+◌, ◌-◌, ◌^◌, ◌↔◌, IsTrue, length, map, min, sum, take};
ghost use Rattle.sorted_file.specs.File.{count_of};
ghost use Rattle.tablet.specs.MergePolicies.{IsMergeCount, IsSmall, LeavesFewer, MakesLevels};

use crate::tablet::Tablet;
use sorted_file::SortedFile;

/// When the newest files of a tablet are merged without a request.
#[derive(Clone, Copy, Debug, PartialEq, Eq)]
pub enum MergePolicy {
    /// When it has this many files or more, so that fewer are left. A number below 2 means never.
    AtCount(u32),
    /// When a file has no more entries than all newer ones together, so that each file then has more.
    Levels,
}

/// How many of the newest files to merge: at least `fewest`, then each next older one that has no more entries than all
/// newer ones together.
fn merged_count(files: &[SortedFile], fewest: usize) -> usize
    requires { fewest ≤ length files.now }
    ensures least { fewest ≤ result }
    ensures most { result ≤ length files.now }
{
    let mut entries: usize = 0;
    for index in 0..files.len() {
        let more = files[index].len();
        if index >= fewest && more > entries {
            return index;
        }
        entries = entries.saturating_add(more);
    }
    files.len()
}

/// How many of the newest files to merge so that fewer than `most` are left, and the next older file, if there is one,
/// has more entries than all newer ones together; 0 if there are fewer. So an entry is rewritten a logarithmic number of
/// times.
fn count_over(files: &[SortedFile], most: usize) -> usize
    ensures { LeavesFewer most (map count_of files.now) result }
{
    if most < 2 || files.len() < most {
        return 0;
    }
    merged_count(files, files.len() - most + 2)
}

/// Whether the file at this index has no more entries than all newer ones together, which have `newer` at most.
fn is_small(files: &[SortedFile], index: usize, newer: usize) -> bool
    requires within { index < length files.now }
    requires newer { newer ≡ min (sum (take index (map count_of files.now))) (2 ^ 64 - 1) }
    ensures { IsTrue result ↔ IsSmall (map count_of files.now) index }
{
    index > 0 && files[index].len() <= newer
}

/// How many files there are up to the oldest that has no more entries than all newer ones together; 0 if none is so.
fn count_of_small(files: &[SortedFile]) -> usize
    ensures { MakesLevels (map count_of files.now) result }
{
    let mut count = 0;
    let mut newer: usize = 0;
    for index in 0..files.len() {
        if is_small(files, index, newer) {
            count = index + 1;
        }
        newer = newer.saturating_add(files[index].len());
    }
    count
}

impl Tablet {
    ghost use Rattle.tablet.specs.Views.{names_of};

    /// How many of the newest files the policy has merged; 0 if there is nothing to merge. Allocates and reads nothing.
    pub fn merge_count(&self, policy: MergePolicy) -> usize
        ensures count { IsMergeCount policy self.now result }
        ensures within { result ≤ length (names_of self.now) }
    {
        match policy {
            MergePolicy::AtCount(most) => count_over(self.files.as_slice(), most as usize),
            MergePolicy::Levels => count_of_small(self.files.as_slice()),
        }
    }
}
