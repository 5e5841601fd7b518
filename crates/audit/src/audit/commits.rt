//! The commits that an audit keeps.

ghost use Rattle.std.specs.Prelude.{◌≡◌, ◌++◌, ◌∷◌, [], ℕ, length, max, Some, IfErr, IfNone, IfSome, OnErr, OnOk};
ghost use Rattle.si_model.specs.Reads.{cell_of};
ghost use Rattle.audit.specs.Commits.{AreMarked, latest_of};
ghost use Rattle.audit.specs.Histories.{AreAdded, AreHistories, AreStarts, Histories as HistoriesOf, IsHistory, IsWriteAt};
ghost use Rattle.audit.specs.declared.audit.parts.Write.{Write as WriteOf};

use crate::audit::histories::{Histories, add_all, history_of};
use crate::audit::parts::{Commit, Version, Write};
use crate::audit::starts::{Starts, with_start};
use cell_key::{Refusal, Stamp};
use std::alloc::Global;
use std::collections::BTreeMap;
use std::marker::Model;

/// The commits, in the order in which they came. The versions of each cell and the starts are kept beside them. These
/// are dropped, and the searches go over the list, if there is no memory for them, if a cell's commits don't come in the
/// order of their stamps, or if two commits have one start.
#[derive(Drop)]
pub(crate) struct Commits {
    alloc: Global,
    list: Vec<Commit>,
    histories: Option<Histories>,
    starts: Option<Starts>,
}

impl Model for Commits {
    ghost use Rattle.std.specs.Prelude.{List, IfSome};
    ghost use Rattle.audit.specs.Commits.{AreMarked};
    ghost use Rattle.audit.specs.Histories.{AreHistories, AreStarts};
    ghost use Rattle.audit.specs.declared.audit.parts.Commit.{Commit};

    ghost Value = { List Commit };

    ghost view = { λ commits. commits.list.items };

    ghost invariant = { λ commits. AreMarked 0 commits.list.items
        × IfSome commits.histories (AreHistories commits.list.items)
        × IfSome commits.starts (AreStarts commits.list.items) };
}

/// The greatest stamp of the commits, or 0 if there is none.
fn latest_of(commits: &[Commit]) -> Stamp
    ensures { result ≡ latest_of 0 commits.now }
{
    match commits.split_last() {
        Some((last, _)) => last.latest,
        None => 0,
    }
}

impl Commits {
    /// No commits.
    pub(crate) fn new(alloc: Global) -> Commits
        ensures { result ≡ [] }
    {
        Commits {
            alloc,
            list: Vec::new(alloc),
            histories: Some(BTreeMap::new(alloc)),
            starts: Some(BTreeMap::new(alloc)),
        }
    }

    /// The commits.
    pub(crate) fn as_slice(&self) -> &[Commit]
        ensures commits { result.now ≡ self.now }
        ensures marked { AreMarked 0 self.now }
    {
        self.list.as_slice()
    }

    /// The versions of the cell. `None` if they aren't kept, its names aren't valid, or there is no memory for a copy of
    /// them.
    pub(crate) fn history(&self, row: &[u8], family: &[u8]) -> Option<&[Version]>
        ensures { IfSome result (λ versions.
            IsHistory self.now (cell_of row.now family.now) versions.now) }
    {
        match &self.histories {
            Some(histories) => history_of(self.alloc, histories, row, family),
            None => None,
        }
    }

    /// The versions of each cell. `None` if they aren't kept.
    pub(crate) fn histories(&self) -> Option<&Histories>
        ensures { IfSome result (λ histories. AreHistories self.now histories.now) }
    {
        match &self.histories {
            Some(histories) => Some(histories),
            None => None,
        }
    }

    /// The stamp of each commit, by its start. `None` if they aren't kept.
    pub(crate) fn starts(&self) -> Option<&Starts>
        ensures { IfSome result (λ starts. AreStarts self.now starts.now) }
    {
        match &self.starts {
            Some(starts) => Some(starts),
            None => None,
        }
    }

    /// The write at the version's place, if there is one.
    pub(crate) fn write_at(&self, version: &Version) -> Option<&Write>
        ensures some { IfSome result (λ write. IsWriteAt self.now version.now write.now) }
        ensures none { IfNone result ((write : WriteOf) → ¬ IsWriteAt self.now version.now write) }
    {
        let Some(commit) = self.list.get(version.place) else {
            return None;
        };
        match commit.writes.get(version.write) {
            Some(write) => Some(write),
            None => None,
        }
    }

    /// Adds a commit.
    ///
    /// # Errors
    ///
    /// `NoMemory`; the commits are unchanged.
    pub(crate) fn push(
        &mut self,
        start: Stamp,
        stamp: Stamp,
        writes: Vec<Write>,
    ) -> Result<(), Refusal>
        ensures ok { OnOk result (self.new ≡ self.old ++ (record {
          start = start;
          stamp = stamp;
          writes = writes;
          latest = max (latest_of 0 self.old) stamp;
        }) ∷ []) }
        ensures err { OnErr result (self.new ≡ self.old) }
        ensures refusal { IfErr result (λ refusal. refusal ≡ Refusal.NoMemory) }
    {
        let latest = latest_of(&self.list).max(stamp);
        let place = self.list.len();
        self.list.push(Commit {
            start,
            stamp,
            writes,
            latest,
        })?;
        let before = self.histories.take();
        self.histories = with_commit(self.alloc, before, &self.list[place], place);
        self.starts = with_start(self.starts.take(), start, stamp);
        Ok(())
    }
}

/// The versions of each cell, with the versions that the commit at this place makes. `None` if they weren't kept, if
/// there is no memory for them, or if they don't all come after the versions of their cells.
fn with_commit(
    alloc: Global,
    histories: Option<Histories>,
    commit: &Commit,
    place: usize,
) -> Option<Histories>
    ensures { IfSome result (λ after. (before : HistoriesOf) × (histories ≡ Some before)
        × AreAdded before after commit.now.writes.items commit.now.stamp place
        (length commit.now.writes.items)) }
{
    let Some(mut after) = histories else {
        return None;
    };
    match add_all(alloc, &mut after, &commit.writes, commit.stamp, place) {
        Ok(true) => Some(after),
        _ => None,
    }
}
