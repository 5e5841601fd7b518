//! Merges of a tablet's files in steps, between which the tablet changes.

ghost use Rattle.std.specs.Prelude.{◌≡◌, ◌<◌, IfOk, OnOk};
ghost use Rattle.sorted_file.specs.PartialFiles.{CanGoOn, keeps_erasures};
ghost use Rattle.tablet.specs.RunMerges.{keeps_of, written_to};

use crate::tests::memory::files::refused;
use cell_key::{Family, Qualifier, Refusal, Row, Stamp};
use file_store::{Files, MemFiles};
use std::alloc::Global;
use std::test::Fail;
use tablet::{RunMerge, Tablet};
use testing::FILE_LIMIT;
use testing::edits::edits_of;

/// A tablet of which each stamp from 1 on has a file, which has the stamp as its name.
#[derive(Drop)]
struct Subject {
    alloc: Global,
    tablet: Tablet,
    next_name: u64,
    files: MemFiles,
}

impl Subject {
    /// The tablet with this many files. In its box it is dropped by one call.
    fn new(alloc: Global, count: Stamp) -> Result<Box<Subject>, Refusal> {
        let subject = Subject {
            alloc,
            tablet: Tablet::new(alloc),
            next_name: 1,
            files: MemFiles::new(alloc),
        };
        let mut subject = Box::new(alloc, subject)?;
        for stamp in 1..=count {
            subject.put(stamp)?;
        }
        Ok(subject)
    }

    /// Puts a value at a stamp, which gets a file of its own.
    fn put(&mut self, stamp: Stamp) -> Result<(), Refusal> {
        let row = Row::new(self.alloc, b"a")?;
        let edits = edits_of(self.alloc, &row, stamp, Some(b"v"), None)?;
        self.tablet.apply(&row, edits)?;
        self.tablet
            .minor(FILE_LIMIT, &mut self.next_name, &mut self.files)
    }

    /// Whether the tablet has these files, the newest first.
    fn has_files(&self, wanted: &[u64]) -> Result<bool, Refusal> {
        let mut names = Vec::new(self.alloc);
        self.tablet.push_names(&mut names)?;
        Ok(names.as_slice() == wanted)
    }

    /// Whether there is a value at this stamp.
    fn has(&mut self, stamp: Stamp) -> Result<bool, Refusal> {
        let row = Row::new(self.alloc, b"a")?;
        let family = Family::new(self.alloc, b"bal")?;
        let data = Qualifier::Data;
        let found = self
            .tablet
            .newest(&row, &family, data, stamp, stamp, &mut self.files)?;
        Ok(found.is_some())
    }
}

/// Makes the two steps that pass an entry each, and then one that ends; answers whether it went so.
fn three_steps<F: Files>(
    tablet: &Tablet,
    merge: &mut RunMerge<F::Writing>,
    files: &mut F,
) -> Result<bool, Refusal>
    requires able { CanGoOn F.has F.writes_to (written_to merge.old) }
    ensures able { OnOk result (CanGoOn F.has F.writes_to (written_to merge.new)) }
    ensures kept { keeps_of merge.new ≡ keeps_of merge.old }
    ensures same { keeps_erasures (written_to merge.new) ≡ keeps_erasures (written_to merge.old) }
{
    let first = tablet.merge_step(merge, 1, files)?;
    let second = tablet.merge_step(merge, 1, files)?;
    let third = tablet.merge_step(merge, 1, files)?;
    Ok(first && second && !third)
}

impl Subject {
    /// Merges the newest two of three files in steps. A fourth file comes before the steps, and a fifth before the end;
    /// answers whether it went so.
    fn merge_between_flushes(&mut self) -> Result<bool, Refusal> {
        let name = &mut self.next_name;
        let mut merge = self
            .tablet
            .begin_merge(2, FILE_LIMIT, name, &mut self.files)?;
        self.put(5)?;
        let is_stepped = three_steps(&self.tablet, &mut merge, &mut self.files)?;
        self.put(6)?;
        let is_before = self.has_files(&[6, 5, 3, 2, 1])?;
        self.tablet.end_merge(merge, &mut self.files)?;
        Ok(is_stepped && is_before)
    }

    /// Merges all files into one.
    fn major(&mut self) -> Result<(), Refusal> {
        self.tablet
            .major(FILE_LIMIT, &mut self.next_name, &mut self.files)
    }

    /// Begins a merge of two files, merges all of them meanwhile, and ends it.
    fn merge_over_major(&mut self) -> Result<(), Refusal> {
        let name = &mut self.next_name;
        let merge = self
            .tablet
            .begin_merge(2, FILE_LIMIT, name, &mut self.files)?;
        self.major()?;
        self.tablet.end_merge(merge, &mut self.files)
    }

    /// Whether there is no file 3.
    fn is_unwritten(&mut self) -> Result<bool, Refusal> {
        Ok(refused(self.files.size(3))?.is_none())
    }
}

/// The files that came meanwhile stay before the new one.
#[test]
fn a_merge_stays_behind_flushes(rt: HostRuntime) -> Result<(), Fail> {
    let mut subject = Subject::new(rt.alloc(), 3)?;
    assert!(rt; subject.merge_between_flushes()?);
    assert!(rt; subject.has_files(&[6, 5, 4, 1])? && subject.has(2)?);
    Ok(())
}

/// The end of a merge is refused if its files were merged meanwhile, and the tablet is as it was.
#[test]
fn a_merge_of_files_that_are_gone(rt: HostRuntime) -> Result<(), Fail> {
    let mut subject = Subject::new(rt.alloc(), 2)?;
    assert!(rt; subject.merge_over_major() == Err(Refusal::BadCount));
    assert!(rt; subject.is_unwritten()? && subject.has_files(&[4])?);
    Ok(())
}
