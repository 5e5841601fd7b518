//! Cutting a tablet in two, and moving it: after a minor compaction all its entries are in its files, which two tablets
//! can share or another server can open.

ghost use Rattle.std.specs.Prelude.{◌≡◌, ◌≢◌, ◌≤◌, ◌<◌, ◌+◌, ◌^◌, ◌∷◌, [], Some, ℕ, IfOk, IfErr, OnOk, OnErr, IfSome, IsNone, IsErrOf, IsOkUnless};
ghost use Rattle.std.specs.List.{AllByRecursion};
ghost use Rattle.sorted_file.specs.Grammar.{FitsIn};
ghost use Rattle.sorted_file.specs.Limits.{IsFileLimit};
ghost use Rattle.sorted_file.specs.File.{HasFile};
ghost use Rattle.sorted_file.specs.Source.{ReadsFiles};
ghost use Rattle.cell_key.specs.Faults.{HasReason};
ghost use Rattle.tablet.specs.Ranges.{seen};
ghost use Rattle.tablet.specs.Views.{range_of, memory_of, names_of, Holds, IsBelow, IsUnchanged, Keeps, with_name};
ghost use Rattle.tablet.specs.Splits.{Cuts, MakesParts};
ghost use Rattle.tablet.specs.declared.compactions.Compaction.TheVariants.{Minor};
ghost use Rattle.tablet.specs.Compactions.{Compacts, Flushes, IsMinorRefusal, IsRefusedFirst, LeavesFlushed, NeedsTooManyFiles, TakesName, WritesMemory};

use crate::open_files::OpenFiles;
use crate::ranges::RowRange;
use crate::tablet::Tablet;
use cell_key::{Refusal, Row};
use file_store::Files;
use memtable::Memtable;
use sorted_file::{SortedFile, one_listing, open_is_there};
use std::alloc::Global;
use std::num::NonZeroUsize;

impl Tablet {
    /// Opens the files of these names, the newest first, as a tablet of a range with an empty memtable. Each of these
    /// files, and each file that the tablet opens later, caches `most_blocks` blocks at most. The oldest is opened
    /// first.
    ///
    /// # Errors
    ///
    /// `Device`, `NoMemory`, and `Damaged` only if a file is missing or is not the file of an entry list.
    pub fn load<F: Files>(
        alloc: Global,
        range: RowRange,
        names: &[u64],
        most_blocks: NonZeroUsize,
        files: &mut F,
    ) -> Result<Tablet, Refusal>
        ensures range { IfOk result (λ t. range_of t ≡ range) }
        ensures blocks { IfOk result (λ t. t.most_blocks ≡ most_blocks) }
        ensures memory { IfOk result (λ t. memory_of t ≡ []) }
        ensures names { IfOk result (λ t. names_of t ≡ names.now) }
        ensures holds { IfOk result (λ t. IfSome (F.contents files.old) (λ m. Holds m t)) }
        ensures damaged { IsErrOf result Refusal.Damaged
            → IfSome (F.contents files.old) (λ m. ¬ AllByRecursion (HasFile m) names.now) }
        ensures reads { ReadsFiles F.contents F.faults files.old files.new result }
    {
        let mut open = OpenFiles::new(alloc);
        let mut newer = names;
        'names: while let Some((name, rest)) = newer.split_last() {
            let file = SortedFile::open_over(alloc, *name, most_blocks, open.locks(), files)?;
            open.reserve(file.len())?;
            open.replace_newest(0, file)?;
            newer = rest;
        }
        Ok(Tablet {
            alloc,
            range,
            memtable: Memtable::new(alloc),
            files: open,
            most_blocks,
        })
    }

    /// The names of the files, the newest first.
    fn names(&self) -> Result<Vec<u64>, Refusal>
        ensures names { IfOk result (λ names. names.items ≡ names_of self.now) }
        ensures refusal { IsOkUnless result Refusal.NoMemory }
    {
        let mut names = Vec::new(self.alloc);
        self.push_names(&mut names)?;
        Ok(names)
    }

    /// Opens the same files again, as a tablet of another range with an empty memtable.
    fn open_again<F: Files>(&self, range: RowRange, files: &mut F) -> Result<Tablet, Refusal>
        ensures range { IfOk result (λ t. range_of t ≡ range) }
        ensures memory { IfOk result (λ t. memory_of t ≡ []) }
        ensures names { IfOk result (λ t. names_of t ≡ names_of self.now) }
        ensures holds { IfOk result (λ t. IfSome (F.contents files.old) (λ m. Holds m t)) }
        ensures damaged { IsErrOf result Refusal.Damaged → IfSome (F.contents files.old) (λ m.
            ¬ AllByRecursion (HasFile m) (names_of self.now)) }
        ensures reads { ReadsFiles F.contents F.faults files.old files.new result }
    {
        let names = self.names()?;
        Tablet::load(self.alloc, range, &names, self.most_blocks, files)
    }

    /// Runs a minor compaction and answers the names of the files, the newest first.
    ///
    /// # Errors
    ///
    /// The errors of `minor`. A refused call may still have done the minor compaction.
    pub fn unload<F: Files>(
        &mut self,
        file_limit: u64,
        next_name: &mut u64,
        files: &mut F,
    ) -> Result<Vec<u64>, Refusal>
        requires limit { IsFileLimit file_limit }
        ensures flushed { IfOk result (λ names. (names.items ≡ names_of self.new)
            × Flushes file_limit (F.contents files.old)
            next_name.old (F.contents files.new) next_name.new self.old self.new) }
        ensures lists { OnOk result (Compacts
            Minor (F.contents files.old) next_name.old (F.contents files.new) self.old self.new) }
        ensures keeps { Keeps (F.contents files.old)
            next_name.old self.old (F.contents files.new) next_name.new self.new }
        ensures range { range_of self.new ≡ range_of self.old }
        ensures left { OnErr result (LeavesFlushed next_name.old self.old self.new) }
        ensures name { TakesName
            (F.contents files.old) next_name.old (F.contents files.new) next_name.new }
        // With 64 files it is refused before a file is written, whatever else may fail.
        ensures full { IsRefusedFirst result Refusal.TooManyFiles (NeedsTooManyFiles self.old)
            (F.contents files.old) next_name.old (F.contents files.new) next_name.new
            self.old self.new }
        ensures exhausted { IsErrOf result Refusal.Exhausted
            → (memory_of self.old ≢ []) × (2 ^ 63 ≤ next_name.old) }
        ensures large { IsErrOf result Refusal.FileTooLarge → (memory_of self.old ≢ [])
            × ¬ FitsIn file_limit (seen (range_of self.old) (memory_of self.old)) }
        ensures damaged { IsErrOf result Refusal.Damaged → IsNone (F.contents files.old) }
        ensures refusal { IfErr result IsMinorRefusal }
        ensures reason { HasReason (F.faults files.old) (F.faults files.new) result }
        ensures empty { memory_of self.old ≡ []
            → (next_name.new ≡ next_name.old) × (F.contents files.new ≡ F.contents files.old) }
    {
        self.minor(file_limit, next_name, files)?;
        self.names()
    }

    /// The range up to and including a row, and a copy of that row, after which the right part begins.
    fn left_of(&self, row: &Row) -> Result<(RowRange, Row), Refusal>
        ensures range { IfOk result (λ left.
            left.0 ≡ record { after = (range_of self.now).after; end = Some row.now }) }
        ensures row { IfOk result (λ left. left.1 ≡ row.now) }
        ensures refusal { IsOkUnless result Refusal.NoMemory }
    {
        let range = RowRange {
            after: self.range.after.clone()?,
            end: Some(row.clone()?),
        };
        Ok((range, row.clone()?))
    }

    /// Cuts the tablet, whose memtable must be empty, at a row of its range other than its end (Bigtable, tablets are
    /// split). Answers the left part, which ends with the row; the tablet becomes the right part, which begins after
    /// it. Both share its files.
    ///
    /// # Errors
    ///
    /// `Device`, `NoMemory`, and `Damaged` only if a file is missing or is not the file of an entry list. The tablet is
    /// then unchanged.
    pub fn cut<F: Files>(&mut self, row: &Row, files: &mut F) -> Result<Tablet, Refusal>
        requires flushed { memory_of self.old ≡ [] }
        ensures left_range { IfOk result (λ left.
            range_of left ≡ record { after = (range_of self.old).after; end = Some row.now }) }
        ensures right_range { OnOk result (range_of self.new
            ≡ record { after = Some row.now; end = (range_of self.old).end }) }
        ensures left_names { IfOk result (λ left. names_of left ≡ names_of self.old) }
        ensures right_names { OnOk result (names_of self.new ≡ names_of self.old) }
        ensures left_memory { IfOk result (λ left. memory_of left ≡ []) }
        ensures right_memory { memory_of self.new ≡ [] }
        ensures parts { IfOk result (λ left. (next : ℕ) → MakesParts (F.contents files.old)
            next self.old row.now (F.contents files.new) next left self.new) }
        ensures err { OnErr result (IsUnchanged self.old self.new) }
        ensures keeps { OnErr result ((next : ℕ) → Keeps
            (F.contents files.old) next self.old (F.contents files.new) next self.new) }
        ensures damaged { IsErrOf result Refusal.Damaged → IfSome (F.contents files.old) (λ m.
            ¬ AllByRecursion (HasFile m) (names_of self.old)) }
        ensures reads { ReadsFiles F.contents F.faults files.old files.new result }
    {
        one_listing();
        let (range, after) = self.left_of(row)?;
        let left = self.open_again(range, files)?;
        self.range.after = Some(after);
        Ok(left)
    }

    /// Runs a minor compaction and then `cut`.
    ///
    /// # Errors
    ///
    /// The errors of `minor` and of `cut`. A refused call may still have done the minor compaction.
    pub fn split<F: Files>(
        &mut self,
        row: &Row,
        file_limit: u64,
        next_name: &mut u64,
        files: &mut F,
    ) -> Result<Tablet, Refusal>
        requires limit { IsFileLimit file_limit }
        ensures cut { IfOk result (λ left. Cuts
            (with_name next_name.old (memory_of self.old) (names_of self.old))
            row.now self.old left self.new) }
        ensures written { OnOk result (memory_of self.old ≢ []
            → WritesMemory file_limit next_name.old next_name.new self.old) }
        ensures parts { IfOk result (λ left. MakesParts (F.contents files.old)
            next_name.old self.old row.now (F.contents files.new) next_name.new left self.new) }
        ensures keeps { OnErr result (Keeps (F.contents files.old)
            next_name.old self.old (F.contents files.new) next_name.new self.new) }
        ensures left { OnErr result (LeavesFlushed next_name.old self.old self.new) }
        ensures name { TakesName
            (F.contents files.old) next_name.old (F.contents files.new) next_name.new }
        // With 64 files it is refused before a file is written, whatever else may fail.
        ensures full { IsRefusedFirst result Refusal.TooManyFiles (NeedsTooManyFiles self.old)
            (F.contents files.old) next_name.old (F.contents files.new) next_name.new
            self.old self.new }
        ensures exhausted { IsErrOf result Refusal.Exhausted
            → (memory_of self.old ≢ []) × (2 ^ 63 ≤ next_name.old) }
        ensures large { IsErrOf result Refusal.FileTooLarge → (memory_of self.old ≢ [])
            × ¬ FitsIn file_limit (seen (range_of self.old) (memory_of self.old)) }
        ensures damaged { IsErrOf result Refusal.Damaged → IfSome (F.contents files.old) (λ m.
            IsBelow next_name.old self.old → ¬ AllByRecursion (HasFile m) (names_of self.old)) }
        ensures refusal { IfErr result IsMinorRefusal }
        ensures reason { HasReason (F.faults files.old) (F.faults files.new) result }
        ensures empty { memory_of self.old ≡ []
            → (next_name.new ≡ next_name.old) × (F.contents files.new ≡ F.contents files.old) }
    {
        open_is_there();
        self.minor(file_limit, next_name, files)?;
        self.cut(row, files)
    }
}
