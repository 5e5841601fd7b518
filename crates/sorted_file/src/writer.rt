//! Writing a file, which is open at once without reading any of it.

ghost use Rattle.std.specs.FinMap as map;
ghost use Rattle.std.specs.Prelude.{◌≡◌, ◌≤◌, ◌++◌, length, Some, IfOk, IfErr, IfSome, IsErrOf, ◌⊎◌, OnOk, OnErr, ℕ, List, []};
ghost use Rattle.cell_key.specs.Faults.{HasReason};
ghost use Rattle.file_store.specs.Store.{Contents, KeepsOthers, with_file};
ghost use Rattle.sorted_file.specs.Builder.{HasClosed, IsReady, Pushes, built};
ghost use Rattle.sorted_file.specs.File.{IsOpen, name_of};
ghost use Rattle.sorted_file.specs.Grammar.{IsFile, FitsIn};
ghost use Rattle.sorted_file.specs.Limits.{IsFileLimit};
ghost use Rattle.sorted_file.specs.Source.{ComesToEnd, IsFaultRefusal, IsWriteRefusal, StaysIfUnfit};
ghost use Rattle.sorted_file.specs.Passing.{BreaksAfter, EndsAfter, IsFileOf, PassesNoList, PassesTooMuch};

use crate::builder::FileBuilder;
use crate::cache::few_blocks;
use crate::file::SortedFile;
use crate::format::Format;
use crate::lock_index::LockIndex;
use crate::source::{Source, refusal_of};
use cell_key::Refusal;
use file_store::Files;
use std::alloc::Global;

/// Writes the source's remaining entries as a file without its last block, index and foot.
fn build<F: Files, S: Source<F>>(
    alloc: Global,
    source: &mut S,
    name: u64,
    limit: u64,
    over: &LockIndex,
    writing: &mut F::Writing,
    files: &mut F,
) -> Result<FileBuilder, Refusal>
    requires limit { 48 ≤ limit }
    requires empty { F.has writing.old [] }
    ensures closed { IfOk result (HasClosed F.has writing.new) }
    ensures ready { IfOk result IsReady }
    ensures size { IfOk result (λ builder. builder.opening.size ≡ limit) }
    ensures all { IfOk result (λ builder. EndsAfter
        (S.steps (F.contents files.old)) S.lent (built builder) source.old) }
    ensures rest { IfOk result (λ builder. S.holds (F.contents files.old) source.old
        → built builder ≡ S.remaining (F.contents files.old) source.old) }
    ensures large { IsErrOf result Refusal.FileTooLarge → S.holds (F.contents files.old) source.old
        → ¬ FitsIn limit (S.remaining (F.contents files.old) source.old) }
    ensures too_much { IsErrOf result Refusal.FileTooLarge
        → PassesTooMuch (S.steps (F.contents files.old)) S.lent limit source.old }
    ensures broken { IsErrOf result Refusal.Damaged
        → BreaksAfter (S.steps (F.contents files.old)) S.lent (S.breaks (F.contents files.old))
        source.old ⊎ PassesNoList (S.steps (F.contents files.old)) S.lent source.old }
    ensures damaged { IsErrOf result Refusal.Damaged → ¬ S.holds (F.contents files.old) source.old }
    ensures refusal { IfErr result IsWriteRefusal }
    ensures pushes { Pushes F.contents F.faults F.writes_to
        files.old files.new writing.old writing.new result }
{
    let mut builder = FileBuilder::new(alloc, name, limit)?;
    'entries: while source.advance(files)? {
        if let Some(entry) = source.current() {
            builder.push(entry, over, writing, files)?;
        }
    }
    Ok(builder)
}

/// Writes the file of the source's remaining entries, which is open once its bytes are under this name.
fn write_rest<F: Files, S: Source<F>>(
    alloc: Global,
    source: &mut S,
    name: u64,
    limit: u64,
    over: &LockIndex,
    writing: &mut F::Writing,
    files: &mut F,
) -> Result<SortedFile, Refusal>
    requires limit { 48 ≤ limit }
    requires empty { F.has writing.old [] }
    ensures image { IfOk result (λ file. (image : List ℕ)
        × (F.has writing.new image
        × (length image ≤ limit)
        × ((m : Contents) → map.get m name ≡ Some image → IsOpen m file)
        × IsFileOf (S.steps (F.contents files.old)) S.lent source.old image
        × (S.holds (F.contents files.old) source.old
        → IsFile Format.Two (S.remaining (F.contents files.old) source.old) image))) }
    ensures named { IfOk result (λ file. name_of file ≡ name) }
    ensures sized { IfOk result (λ file. file.cache.cap ≡ 8) }
    ensures comes { OnOk result
        (ComesToEnd (S.steps (F.contents files.old)) S.lent source.old) }
    ensures large { IsErrOf result Refusal.FileTooLarge → S.holds (F.contents files.old) source.old
        → ¬ FitsIn limit (S.remaining (F.contents files.old) source.old) }
    ensures too_much { IsErrOf result Refusal.FileTooLarge
        → PassesTooMuch (S.steps (F.contents files.old)) S.lent limit source.old }
    ensures broken { IsErrOf result Refusal.Damaged
        → BreaksAfter (S.steps (F.contents files.old)) S.lent (S.breaks (F.contents files.old))
        source.old ⊎ PassesNoList (S.steps (F.contents files.old)) S.lent source.old }
    ensures damaged { IsErrOf result Refusal.Damaged → ¬ S.holds (F.contents files.old) source.old }
    ensures refusal { IfErr result IsWriteRefusal }
    ensures pushes { Pushes F.contents F.faults F.writes_to
        files.old files.new writing.old writing.new result }
{
    let builder = build(alloc, source, name, limit, over, writing, files)?;
    let opening = builder.finish(writing, files)?;
    SortedFile::of_opening(alloc, name, few_blocks(), opening)
}

/// Begins a file.
pub(crate) fn begin<F: Files>(files: &mut F, name: u64) -> Result<F::Writing, Refusal>
    ensures named { IfOk result (λ writing. F.writes_to writing ≡ name) }
    ensures empty { IfOk result (λ writing. F.has writing []) }
    ensures same { F.contents files.new ≡ F.contents files.old }
    ensures refusal { IfErr result IsFaultRefusal }
    ensures reason { HasReason (F.faults files.old) (F.faults files.new) result }
{
    files.begin(name).map_err(refusal_of)
}

/// Makes or replaces the file that was begun.
pub(crate) fn finish<F: Files>(files: &mut F, writing: F::Writing) -> Result<(), Refusal>
    ensures ok { OnOk result ((image : List ℕ) → F.has writing image → F.contents files.new
        ≡ with_file (F.writes_to writing) image (F.contents files.old)) }
    ensures others { KeepsOthers (F.writes_to writing)
        (F.contents files.old) (F.contents files.new) }
    ensures refusal { IfErr result IsFaultRefusal }
    ensures reason { HasReason (F.faults files.old) (F.faults files.new) result }
{
    files.finish(writing).map_err(refusal_of)
}

/// Writes the remaining entries of a source as a file of format 2 (Bigtable, the SSTable), which replaces a file of
/// this name, and returns it open without reading any of it. Its cache holds 8 blocks. `over` is the index of the older
/// files' locks: the open file keeps the keys of those that it has an entry of, as `SortedFile::open_over` does.
///
/// # Errors
///
/// `FileTooLarge` if the file would have more than `file_limit` bytes, `Damaged` if the source is damaged or its
/// entries are no entry list, `Device` if a device fails, and `NoMemory` if there is no memory. No file changes until
/// the whole file is written. After an `Err` of its last step any bytes may be under this name. No other file changes.
pub fn write_file<F: Files, S: Source<F>>(
    alloc: Global,
    source: &mut S,
    name: u64,
    file_limit: u64,
    over: &LockIndex,
    files: &mut F,
) -> Result<SortedFile, Refusal>
    requires limit { IsFileLimit file_limit }
    ensures opened { IfOk result (λ file. IfSome (F.contents files.new) (λ m. IsOpen m file)) }
    ensures named { IfOk result (λ file. name_of file ≡ name) }
    ensures sized { IfOk result (λ file. file.cache.cap ≡ 8) }
    ensures written { OnOk result ((image : List ℕ)
        × ((F.contents files.new ≡ with_file name image (F.contents files.old))
        × (length image ≤ file_limit)
        × IsFileOf (S.steps (F.contents files.old)) S.lent source.old image
        × (S.holds (F.contents files.old) source.old
        → IsFile Format.Two (S.remaining (F.contents files.old) source.old) image))) }
    ensures comes { OnOk result
        (ComesToEnd (S.steps (F.contents files.old)) S.lent source.old) }
    ensures large { IsErrOf result Refusal.FileTooLarge → S.holds (F.contents files.old) source.old
        → ¬ FitsIn file_limit (S.remaining (F.contents files.old) source.old) }
    ensures too_much { IsErrOf result Refusal.FileTooLarge
        → PassesTooMuch (S.steps (F.contents files.old)) S.lent file_limit source.old }
    ensures broken { IsErrOf result Refusal.Damaged
        → BreaksAfter (S.steps (F.contents files.old)) S.lent (S.breaks (F.contents files.old))
        source.old ⊎ PassesNoList (S.steps (F.contents files.old)) S.lent source.old }
    ensures damaged { IsErrOf result Refusal.Damaged → ¬ S.holds (F.contents files.old) source.old }
    ensures unfit { StaysIfUnfit (F.contents files.old) (F.contents files.new) result }
    ensures others { OnErr result (KeepsOthers name (F.contents files.old) (F.contents files.new)) }
    ensures refusal { IfErr result IsWriteRefusal }
    ensures reason { HasReason (F.faults files.old) (F.faults files.new) result }
{
    let mut writing = begin(files, name)?;
    match write_rest(alloc, source, name, file_limit, over, &mut writing, files) {
        Ok(file) => {
            finish(files, writing)?;
            Ok(file)
        }
        Err(refusal) => {
            files.give_up(writing);
            Err(refusal)
        }
    }
}
