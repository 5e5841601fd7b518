//! A file that is written in steps. Between two of them no source of entries stands: each step is given one of the
//! entries from the text on from which the file goes on.

ghost use Rattle.std.specs.FinMap as map;
ghost use Rattle.std.specs.Prelude.{◌≡◌, ◌<◌, ◌≤◌, ◌++◌, ◌∷◌, ◌⊎◌, [], true, false, ℕ, List, Some, length, IfErr, IfNone, IfOk, IfSome, IsErrOf, IsOkUnless, OnErr, OnOk};
ghost use Rattle.cell_key.specs.Entries.{Entry, IsEntryList, IsRising, entries_from, lent_entry};
ghost use Rattle.cell_key.specs.Faults.{HasReason};
ghost use Rattle.file_store.specs.Store.{Contents, KeepsOthers, with_file};
ghost use Rattle.sorted_file.specs.Builder.{HasClosed, IsReady, Pushes, built};
ghost use Rattle.sorted_file.specs.File.{IsOpen, name_of};
ghost use Rattle.sorted_file.specs.Grammar.{FitsIn, IsFile};
ghost use Rattle.sorted_file.specs.Limits.{IsFileLimit};
ghost use Rattle.sorted_file.specs.PartialFiles.{CanGoOn, EndsWithin, IsUnderWay, IsWhole, PassesBudget, WritesBudget, entry_size, keeps_erasures, limit_of, next_of, next_text, target_of};
ghost use Rattle.sorted_file.specs.Source.{IsFaultRefusal, IsWriteRefusal, StaysIfUnfit};
ghost use Rattle.sorted_file.specs.Written.{is_written, only_written};

use crate::builder::FileBuilder;
use crate::cache::few_blocks;
use crate::file::SortedFile;
use crate::format::Format;
use crate::lock_index::LockIndex;
use crate::source::Source;
use crate::writer::{begin, finish};
use cell_key::{EntryRef, Refusal};
use file_store::Files;
use std::alloc::Global;

/// A file of format 2 that is written in steps. Its bytes go to the files in pieces of some 64 KiB, and it keeps what an
/// open file keeps of them. It borrows nothing between steps. One that isn't finished is to be given up.
#[derive(Drop)]
pub struct PartialFile<W> {
    alloc: Global,
    name: u64,
    /// Whether erasures are written too.
    keep_erasures: bool,
    /// The text from which the file goes on: of the entries below it none is to come.
    next: Vec<u8>,
    builder: FileBuilder,
    writing: W,
}

/// The least text above this one.
fn text_behind(alloc: Global, text: &[u8]) -> Result<Vec<u8>, Refusal>
    ensures behind { IfOk result (λ behind. behind.items ≡ next_text text.now) }
    ensures memory { IsOkUnless result Refusal.NoMemory }
{
    let mut behind = Vec::from_slice(alloc, text)?;
    behind.push(0)?;
    Ok(behind)
}

/// How many bytes an entry's text and value have.
fn size_of(entry: EntryRef<'_>) -> usize
    ensures { result ≡ entry_size (lent_entry entry.entry) }
{
    match entry.value {
        Some(value) => entry.key.len() + value.len(),
        None => entry.key.len(),
    }
}

/// Whether an entry is to be written.
fn is_written(entry: EntryRef<'_>, keep_erasures: bool) -> bool
    ensures { result ≡ is_written keep_erasures (lent_entry entry.entry) }
{
    keep_erasures || entry.value.is_some()
}

/// Adds an entry if it is to be written.
fn push_written<F: Files>(
    builder: &mut FileBuilder,
    entry: EntryRef<'_>,
    keep_erasures: bool,
    over: &LockIndex,
    writing: &mut F::Writing,
    files: &mut F,
) -> Result<(), Refusal>
    requires ready { IsReady builder.old }
    requires closed { HasClosed F.has writing.old builder.old }
    ensures ready { OnOk result (IsReady builder.new) }
    ensures closed { OnOk result (HasClosed F.has writing.new builder.new) }
    ensures size { OnOk result (builder.new.opening.size ≡ builder.old.opening.size) }
    ensures built { OnOk result (built builder.new
        ≡ built builder.old ++ only_written keep_erasures (lent_entry entry.entry ∷ [])) }
    ensures damaged { IsErrOf result Refusal.Damaged → (es : List Entry) → ¬ IsEntryList
        (built builder.old ++ only_written keep_erasures (lent_entry entry.entry ∷ es)) }
    ensures large { IsErrOf result Refusal.FileTooLarge → (es : List Entry)
        → ¬ FitsIn builder.old.opening.size
        (built builder.old ++ only_written keep_erasures (lent_entry entry.entry ∷ es)) }
    ensures refusal { IfErr result IsWriteRefusal }
    ensures pushes { Pushes F.contents F.faults F.writes_to
        files.old files.new writing.old writing.new result }
{
    if !is_written(entry, keep_erasures) {
        return Ok(());
    }
    builder.push(entry, over, writing, files)
}

/// Adds entries of a source until this many bytes of them were passed or the source ends, and answers the text from
/// which the file goes on, if the source hasn't ended. Entries that aren't written count too.
fn pass_some<F: Files, S: Source<F>>(
    alloc: Global,
    source: &mut S,
    budget: usize,
    keep_erasures: bool,
    builder: &mut FileBuilder,
    over: &LockIndex,
    writing: &mut F::Writing,
    files: &mut F,
) -> Result<Option<Vec<u8>>, Refusal>
    requires some { 0 < budget }
    requires ready { IsReady builder.old }
    requires closed { HasClosed F.has writing.old builder.old }
    ensures ready { OnOk result (IsReady builder.new) }
    ensures closed { OnOk result (HasClosed F.has writing.new builder.new) }
    ensures size { OnOk result (builder.new.opening.size ≡ builder.old.opening.size) }
    ensures goes { IfOk result (λ next. IfSome next (λ text. WritesBudget
        (S.steps (F.contents files.old)) S.lent
        (S.holds (F.contents files.old)) (S.remaining (F.contents files.old)) keep_erasures budget
        source.old source.new (built builder.old) (built builder.new) text.items)) }
    ensures ends { IfOk result (λ next. IfNone next (EndsWithin
        (S.steps (F.contents files.old)) S.lent budget source.old)) }
    ensures rest { IfOk result (λ next. IfNone next (S.holds (F.contents files.old) source.old
        → built builder.new ≡ built builder.old
        ++ only_written keep_erasures (S.remaining (F.contents files.old) source.old))) }
    ensures damaged { IsErrOf result Refusal.Damaged → S.holds (F.contents files.old) source.old
        → ¬ IsEntryList (built builder.old
        ++ only_written keep_erasures (S.remaining (F.contents files.old) source.old)) }
    ensures large { IsErrOf result Refusal.FileTooLarge → S.holds (F.contents files.old) source.old
        → ¬ FitsIn builder.old.opening.size (built builder.old
        ++ only_written keep_erasures (S.remaining (F.contents files.old) source.old)) }
    ensures refusal { IfErr result IsWriteRefusal }
    ensures pushes { Pushes F.contents F.faults F.writes_to
        files.old files.new writing.old writing.new result }
{
    let mut spent: u128 = 0;
    'entries: while source.advance(files)? {
        if let Some(entry) = source.current() {
            push_written(builder, entry, keep_erasures, over, writing, files)?;
            spent += size_of(entry) as u128;
            if spent >= budget as u128 {
                return Ok(Some(text_behind(alloc, entry.key)?));
            }
        }
    }
    Ok(None)
}

/// Pushes the rest of a file, and answers it open, as it is once its bytes are under this name.
fn end_file<F: Files>(
    alloc: Global,
    name: u64,
    builder: FileBuilder,
    writing: &mut F::Writing,
    files: &mut F,
) -> Result<SortedFile, Refusal>
    requires ready { IsReady builder }
    requires closed { HasClosed F.has writing.old builder }
    ensures image { IfOk result (λ file. (image : List ℕ)
        × (F.has writing.new image
        × (length image ≤ builder.opening.size)
        × ((m : Contents) → map.get m name ≡ Some image → IsOpen m file)
        × IsFile Format.Two (built builder) image)) }
    ensures named { IfOk result (λ file. name_of file ≡ name) }
    ensures sized { IfOk result (λ file. file.cache.cap ≡ 8) }
    ensures large { IsErrOf result Refusal.FileTooLarge
        → ¬ FitsIn builder.opening.size (built builder) }
    ensures refusal { IfErr result (λ refusal.
        (refusal ≡ Refusal.FileTooLarge) ⊎ IsFaultRefusal refusal) }
    ensures pushes { Pushes F.contents F.faults F.writes_to
        files.old files.new writing.old writing.new result }
{
    let opening = builder.finish(writing, files)?;
    SortedFile::of_opening(alloc, name, few_blocks(), opening)
}

impl<W: Drop> PartialFile<W> {
    /// Begins a file without entries, of at most `limit` bytes, which will have this name. Without `keep_erasures` only
    /// values are written. No file changes.
    ///
    /// # Errors
    ///
    /// `Device` if a device fails, and `NoMemory` if there is no memory.
    pub fn begin<F: Files<Writing = W>>(
        alloc: Global,
        name: u64,
        keep_erasures: bool,
        limit: u64,
        files: &mut F,
    ) -> Result<PartialFile<W>, Refusal>
        requires limit { IsFileLimit limit }
        ensures able { IfOk result (CanGoOn F.has F.writes_to) }
        ensures named { IfOk result (λ file. target_of file ≡ name) }
        ensures keep { IfOk result (λ file. keeps_erasures file ≡ keep_erasures) }
        ensures limit { IfOk result (λ file. limit_of file ≡ limit) }
        ensures next { IfOk result (λ file. next_of file ≡ []) }
        ensures begun { IfOk result (λ file. (whole : List Entry) → IsUnderWay whole file) }
        ensures same { F.contents files.new ≡ F.contents files.old }
        ensures refusal { IfErr result IsFaultRefusal }
        ensures reason { HasReason (F.faults files.old) (F.faults files.new) result }
    {
        let builder = FileBuilder::new(alloc, name, limit)?;
        let writing = begin(files, name)?;
        Ok(PartialFile {
            alloc,
            name,
            keep_erasures,
            next: Vec::new(alloc),
            builder,
            writing,
        })
    }

    /// The text from which the file goes on: a source for `go_on` has the entries at or above it.
    pub fn next(&self) -> &[u8]
        ensures { result.now ≡ next_of self.now }
    {
        &self.next
    }

    /// Goes on with the entries of a source, and answers whether there may be more. The source has the entries from the
    /// text on from which the file goes on. It stops once entries whose texts and values have at least `budget` bytes
    /// were passed, erasures that aren't written among them; so all but the last have fewer. If it answers `true`, the
    /// file goes on from the least text above the last one, and if `false`, the source has ended and the file can be
    /// finished. `over` is the index of the older files' locks. No file changes.
    ///
    /// # Errors
    ///
    /// `FileTooLarge` if the file would have more bytes than its limit, `Damaged` if the source is damaged or the
    /// entries are no entry list, `Device` if a device fails, and `NoMemory` if there is no memory. After an `Err` the
    /// file can only be given up.
    pub fn go_on<F: Files<Writing = W>, S: Source<F>>(
        &mut self,
        source: &mut S,
        budget: usize,
        over: &LockIndex,
        files: &mut F,
    ) -> Result<bool, Refusal>
        requires some { 0 < budget }
        requires able { CanGoOn F.has F.writes_to self.old }
        ensures able { OnOk result (CanGoOn F.has F.writes_to self.new) }
        ensures named { target_of self.new ≡ target_of self.old }
        ensures keep { keeps_erasures self.new ≡ keeps_erasures self.old }
        ensures limit { OnOk result (limit_of self.new ≡ limit_of self.old) }
        ensures step { IfOk result (λ more. more ≡ true → PassesBudget
            (S.steps (F.contents files.old)) S.lent budget
            source.old source.new (next_of self.new)) }
        ensures ends { IfOk result (λ more. more ≡ false → EndsWithin
            (S.steps (F.contents files.old)) S.lent budget source.old) }
        ensures goes { IfOk result (λ more. more ≡ true → (whole : List Entry) → IsRising whole
            → S.holds (F.contents files.old) source.old
            → S.remaining (F.contents files.old) source.old ≡ entries_from (next_of self.old) whole
            → IsUnderWay whole self.old → IsUnderWay whole self.new) }
        ensures done { IfOk result (λ more. more ≡ false → (whole : List Entry) → IsRising whole
            → S.holds (F.contents files.old) source.old
            → S.remaining (F.contents files.old) source.old ≡ entries_from (next_of self.old) whole
            → IsUnderWay whole self.old → IsWhole whole self.new) }
        ensures damaged { IsErrOf result Refusal.Damaged → (whole : List Entry)
            → IsEntryList whole
            → S.remaining (F.contents files.old) source.old ≡ entries_from (next_of self.old) whole
            → IsUnderWay whole self.old → ¬ S.holds (F.contents files.old) source.old }
        ensures large { IsErrOf result Refusal.FileTooLarge → (whole : List Entry)
            → IsRising whole → S.holds (F.contents files.old) source.old
            → S.remaining (F.contents files.old) source.old ≡ entries_from (next_of self.old) whole
            → IsUnderWay whole self.old
            → ¬ FitsIn (limit_of self.old) (only_written (keeps_erasures self.old) whole) }
        ensures same { F.contents files.new ≡ F.contents files.old }
        ensures refusal { IfErr result IsWriteRefusal }
        ensures reason { HasReason (F.faults files.old) (F.faults files.new) result }
    {
        let next = pass_some(
            self.alloc,
            source,
            budget,
            self.keep_erasures,
            &mut self.builder,
            over,
            &mut self.writing,
            files,
        )?;
        match next {
            Some(text) => {
                self.next = text;
                Ok(true)
            }
            None => Ok(false),
        }
    }

    /// Puts the file in its place, where it replaces a file of this name, and returns it open without reading any of
    /// it. Its cache holds 8 blocks.
    ///
    /// # Errors
    ///
    /// `FileTooLarge` if the file would have more bytes than its limit, `Device` if a device fails, and `NoMemory` if
    /// there is no memory. After `FileTooLarge` no file has changed, and else after an `Err` any bytes may be under this
    /// name. No other file changes.
    pub fn finish<F: Files<Writing = W>>(self, files: &mut F) -> Result<SortedFile, Refusal>
        requires able { CanGoOn F.has F.writes_to self }
        ensures opened { IfOk result (λ file. IfSome (F.contents files.new) (λ m. IsOpen m file)) }
        ensures named { IfOk result (λ file. name_of file ≡ target_of self) }
        ensures sized { IfOk result (λ file. file.cache.cap ≡ 8) }
        ensures written { OnOk result ((image : List ℕ)
            × ((F.contents files.new ≡ with_file (target_of self) image (F.contents files.old))
            × (length image ≤ limit_of self)
            × ((whole : List Entry) → IsWhole whole self
            → IsFile Format.Two (only_written (keeps_erasures self) whole) image))) }
        ensures large { IsErrOf result Refusal.FileTooLarge → (whole : List Entry)
            → IsWhole whole self
            → ¬ FitsIn (limit_of self) (only_written (keeps_erasures self) whole) }
        ensures unfit { StaysIfUnfit (F.contents files.old) (F.contents files.new) result }
        ensures others { OnErr result
            (KeepsOthers (target_of self) (F.contents files.old) (F.contents files.new)) }
        ensures refusal { IfErr result (λ refusal.
            (refusal ≡ Refusal.FileTooLarge) ⊎ IsFaultRefusal refusal) }
        ensures reason { HasReason (F.faults files.old) (F.faults files.new) result }
    {
        let PartialFile {
            alloc,
            name,
            builder,
            mut writing,
            ..
        } = self;
        match end_file(alloc, name, builder, &mut writing, files) {
            Ok(file) => {
                finish(files, writing)?;
                Ok(file)
            }
            Err(refusal) => {
                files.give_up(writing);
                Err(refusal)
            }
        }
    }

    /// Gives the file up. No file changes.
    pub fn give_up<F: Files<Writing = W>>(self, files: &mut F)
        ensures same { F.contents files.new ≡ F.contents files.old }
        ensures told { F.faults files.new ≡ F.faults files.old }
    {
        files.give_up(self.writing);
    }
}
