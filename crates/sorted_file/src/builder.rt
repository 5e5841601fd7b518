//! A file that is written in pieces, entry by entry, and the state of an open file for it.

ghost use Rattle.std.specs.List.{AllByRecursion};
ghost use Rattle.std.specs.Prelude.{◌≡◌, ◌≤◌, ◌<◌, ◌+◌, ◌^◌, ◌++◌, ◌∷◌, [], true, false, ℕ, List, length, flat_map, IfOk, IfErr, IfSome, IfNone, OnOk, IsErrOf, IsOkUnless, ◌⊎◌};
ghost use Rattle.cell_key.specs.Entries.{Entry, IsEntryList, entry_len, lent_entry};
ghost use Rattle.cell_key.specs.LentKeys.{IsLentKey};
ghost use Rattle.sorted_file.specs.Block.{IsLastText, entries_of, last_text};
ghost use Rattle.sorted_file.specs.Builder.{HasClosed, HasImage, HasRoom, HasShortText, IsReady, IsSound, Pushes, built, closed, row_spelled};
ghost use Rattle.sorted_file.specs.Check.{IsFollowed, IsFormed, IsOpening};
ghost use Rattle.sorted_file.specs.Grammar.{Fits, FitsIn, body, head};
ghost use Rattle.sorted_file.specs.Index.{blocks_of, entries_in};
ghost use Rattle.sorted_file.specs.Source.{IsFaultRefusal, IsWriteRefusal};
ghost use Rattle.sorted_file.specs.declared.format.Format.TheVariants.{Two};

use crate::block::{BlockRow, Extent, key_behind};
use crate::check::Opening;
use crate::format::{Format, push_field, push_foot, push_number, spelled_len};
use crate::gathering::GatheredBlock;
use crate::lock_index::LockIndex;
use crate::source::refusal_of;
use cell_key::{EntryRef, KeyRef, Qualifier, Refusal, Stamp};
use file_store::Files;
use std::alloc::Global;
use std::mem;

/// The extent of the last key's text, with the rest of the key behind row and family.
#[derive(Clone, Copy, Drop)]
pub(crate) struct LastKey {
    /// The extent in the open block.
    pub(crate) text: Extent,
    /// The length in bytes of the text's row and family.
    pub(crate) place_len: usize,
    pub(crate) qualifier: Qualifier,
    pub(crate) stamp: Stamp,
}

/// How many bytes of closed blocks are pushed at once, or more.
const PIECE_LEN: usize = 65_536;

/// A file of format 2 under construction. It cannot be used after an `Err`.
#[derive(Drop)]
pub(crate) struct FileBuilder {
    alloc: Global,
    /// The bytes of the head and the closed blocks that aren't pushed yet.
    out: Vec<u8>,
    /// An open file's state of these blocks.
    pub(crate) opening: Opening,
    /// The block that entries are added to.
    pub(crate) current: GatheredBlock,
    /// The key of its last entry.
    last: Option<LastKey>,
}

impl FileBuilder {
    /// A file without entries, of at most `limit` bytes. Answers `NoMemory` if there is no memory.
    pub(crate) fn new(alloc: Global, name: u64, limit: u64) -> Result<FileBuilder, Refusal>
        requires { 48 ≤ limit }
        ensures ready { IfOk result IsReady }
        ensures size { IfOk result (λ builder. builder.opening.size ≡ limit) }
        ensures built { IfOk result (λ builder. built builder ≡ []) }
        ensures out { IfOk result (λ builder. builder.out.items ≡ closed builder) }
        ensures memory { IsOkUnless result Refusal.NoMemory }
    {
        Ok(FileBuilder {
            alloc,
            out: Vec::from_slice(alloc, Format::Two.head())?,
            opening: Opening::new(alloc, name, Format::Two, limit),
            current: GatheredBlock::with_room(alloc)?,
            last: None,
        })
    }

    /// The key of the last entry, if there is one.
    fn last_key(&self) -> Option<KeyRef<'_>>
        requires { IsReady self.now }
        ensures lent { IfSome result IsLentKey }
        ensures text { IsLastText (built self.now) (last_text result) }
    {
        match self.last {
            Some(last) => Some(KeyRef {
                text: last.text.lend(&self.current.block.bytes),
                place_len: last.place_len,
                qualifier: last.qualifier,
                stamp: last.stamp,
            }),
            None => None,
        }
    }

    /// The key of an entry, if the entry can come next.
    fn key_of_next<'a>(&self, entry: EntryRef<'a>) -> Option<KeyRef<'a>>
        requires { IsReady self.now }
        ensures key { IfSome result IsLentKey }
        ensures text { IfSome result (λ key. key.text.now ≡ entry.entry.key.now) }
        ensures list { IfSome result (λ _.
            IsEntryList (built self.now ++ lent_entry entry.entry ∷ [])) }
        ensures none { IfNone result (¬ IsEntryList
            (built self.now ++ lent_entry entry.entry ∷ [])) }
    {
        key_behind(self.last_key(), entry)
    }

    /// Closes the open block and begins an empty one. Answers `NoMemory` if there is no memory.
    fn close_block(&mut self) -> Result<(), Refusal>
        requires sound { IsSound self.old }
        requires fits { Fits (entries_of self.old.current.block) }
        requires followed { IsFollowed (blocks_of self.old.opening.rows.items)
            (entries_of self.old.current.block) }
        ensures sound { OnOk result (IsSound self.new) }
        ensures closed { OnOk result ((front : List ℕ)
            → front ++ self.old.out.items ≡ closed self.old
            → front ++ self.new.out.items ≡ closed self.new) }
        ensures blocks { OnOk result (blocks_of self.new.opening.rows.items
            ≡ blocks_of self.old.opening.rows.items ++ entries_of self.old.current.block ∷ []) }
        ensures none { OnOk result (entries_of self.new.current.block ≡ []) }
        ensures size { OnOk result (self.new.opening.size ≡ self.old.opening.size) }
        ensures memory { IsOkUnless result Refusal.NoMemory }
    {
        let next = GatheredBlock::with_room(self.alloc)?;
        let closed = mem::replace(&mut self.current, next);
        self.out.extend_from_slice(&closed.block.bytes)?;
        self.opening.add(closed)
    }

    /// Closes the open block if it has no room for the entry. Answers `Device` if a device fails, and `NoMemory` if
    /// there is no memory.
    fn make_room<F: Files>(
        &mut self,
        entry: EntryRef<'_>,
        writing: &mut F::Writing,
        files: &mut F,
    ) -> Result<(), Refusal>
        requires ready { IsReady self.old }
        requires closed { HasClosed F.has writing.old self.old }
        ensures sound { OnOk result (IsSound self.new) }
        ensures closed { OnOk result (HasClosed F.has writing.new self.new) }
        ensures built { OnOk result (built self.new ≡ built self.old) }
        ensures size { OnOk result (self.new.opening.size ≡ self.old.opening.size) }
        ensures room { OnOk result (HasRoom self.new (lent_entry entry.entry)) }
        ensures refusal { IfErr result IsFaultRefusal }
        ensures pushes { Pushes F.contents F.faults F.writes_to
            files.old files.new writing.old writing.new result }
    {
        if self.current.block.has_room(entry) {
            return Ok(());
        }
        self.close_block()?;
        push_piece(&mut self.out, writing, files)
    }

    /// Whether the file with one more entry stays within its limit, without index and foot.
    fn allows(&self, entry: EntryRef<'_>) -> bool
        requires { IsReady self.now }
        ensures allows { result ≡ true → self.now.opening.end
            + length self.now.current.block.bytes.items + entry_len (lent_entry entry.entry)
            ≤ self.now.opening.size }
        ensures large { result ≡ false → (es : List Entry)
            → ¬ FitsIn self.now.opening.size (built self.now ++ lent_entry entry.entry ∷ es) }
    {
        let len = self.opening.end as u128 + self.current.block.bytes.len() as u128;
        len + spelled_len(entry) <= self.opening.size as u128
    }

    /// Adds an entry. `over` is the index of the older files' locks. Answers `Damaged` if the entries with it are no
    /// entry list, `FileTooLarge` if it doesn't fit behind the bytes so far, `Device` if a device fails, and `NoMemory`
    /// if there is no memory for it.
    pub(crate) fn push<F: Files>(
        &mut self,
        entry: EntryRef<'_>,
        over: &LockIndex,
        writing: &mut F::Writing,
        files: &mut F,
    ) -> Result<(), Refusal>
        requires ready { IsReady self.old }
        requires closed { HasClosed F.has writing.old self.old }
        ensures ready { OnOk result (IsReady self.new) }
        ensures closed { OnOk result (HasClosed F.has writing.new self.new) }
        ensures size { OnOk result (self.new.opening.size ≡ self.old.opening.size) }
        ensures built { OnOk result (built self.new
            ≡ built self.old ++ lent_entry entry.entry ∷ []) }
        ensures damaged { IsErrOf result Refusal.Damaged
            → ¬ IsEntryList (built self.old ++ lent_entry entry.entry ∷ []) }
        ensures large { IsErrOf result Refusal.FileTooLarge → (es : List Entry)
            → ¬ FitsIn self.old.opening.size (built self.old ++ lent_entry entry.entry ∷ es) }
        ensures refusal { IfErr result IsWriteRefusal }
        ensures pushes { Pushes F.contents F.faults F.writes_to
            files.old files.new writing.old writing.new result }
    {
        let Some(key) = self.key_of_next(entry) else {
            return Err(Refusal::Damaged);
        };
        if !self.allows(entry) {
            return Err(Refusal::FileTooLarge);
        }
        self.make_room(entry, writing, files)?;
        self.last = Some(LastKey {
            text: self.current.block.next_text(entry.key),
            place_len: key.place_len,
            qualifier: key.qualifier,
            stamp: key.stamp,
        });
        self.current.push(entry, key, over)?;
        Ok(())
    }

    /// Pushes the rest of the file, and answers the state of the open file. Answers `FileTooLarge` if the file has more
    /// bytes than the limit, `Device` if a device fails, and `NoMemory` if there is no memory for it.
    pub(crate) fn finish<F: Files>(
        self,
        writing: &mut F::Writing,
        files: &mut F,
    ) -> Result<Opening, Refusal>
        requires ready { IsReady self }
        requires closed { HasClosed F.has writing.old self }
        ensures opening { IfOk result IsOpening }
        ensures image { IfOk result (λ opening.
            HasImage F.has writing.new opening self.opening.size) }
        ensures entries { IfOk result (λ opening.
            entries_in (blocks_of opening.rows.items) ≡ built self) }
        ensures format { IfOk result (λ opening. opening.format ≡ Two) }
        ensures large { IsErrOf result Refusal.FileTooLarge
            → ¬ FitsIn self.opening.size (built self) }
        ensures refusal { IfErr result (λ refusal.
            (refusal ≡ Refusal.FileTooLarge) ⊎ IsFaultRefusal refusal) }
        ensures pushes { Pushes F.contents F.faults F.writes_to
            files.old files.new writing.old writing.new result }
    {
        if self.current.block.is_empty() {
            return self.push_rest(writing, files);
        }
        let mut builder = self;
        builder.close_block()?;
        builder.push_rest(writing, files)
    }

    /// Does the same of the file of the closed blocks.
    fn push_rest<F: Files>(
        self,
        writing: &mut F::Writing,
        files: &mut F,
    ) -> Result<Opening, Refusal>
        requires sound { IsSound self }
        requires closed { HasClosed F.has writing.old self }
        ensures opening { IfOk result (λ opening. opening ≡ self.opening) }
        ensures image { IfOk result (λ opening.
            HasImage F.has writing.new opening self.opening.size) }
        ensures large { IsErrOf result Refusal.FileTooLarge → ¬ FitsIn self.opening.size
            (entries_in (blocks_of self.opening.rows.items)) }
        ensures refusal { IfErr result (λ refusal.
            (refusal ≡ Refusal.FileTooLarge) ⊎ IsFaultRefusal refusal) }
        ensures pushes { Pushes F.contents F.faults F.writes_to
            files.old files.new writing.old writing.new result }
    {
        let FileBuilder {
            mut out,
            opening,
            ..
        } = self;
        push_end(&mut out, &opening)?;
        files.push(writing, &out).map_err(refusal_of)?;
        Ok(opening)
    }
}

/// Pushes bytes to a file and clears them, if they are many. Answers `Device` if a device fails, and `NoMemory` if
/// there is no memory.
fn push_piece<F: Files>(
    out: &mut Vec<u8>,
    writing: &mut F::Writing,
    files: &mut F,
) -> Result<(), Refusal>
    ensures pushed { OnOk result ((front : List ℕ) → F.has writing.old front
        → (now : List ℕ)
        × (F.has writing.new now × (now ++ out.new.items ≡ front ++ out.old.items))) }
    ensures refusal { IfErr result IsFaultRefusal }
    ensures pushes { Pushes F.contents F.faults F.writes_to
        files.old files.new writing.old writing.new result }
{
    if out.len() < PIECE_LEN {
        return Ok(());
    }
    files.push(writing, out).map_err(refusal_of)?;
    out.clear();
    Ok(())
}

/// Appends the index and the foot of a file. Answers `FileTooLarge` if the file has more bytes than the limit, and
/// `NoMemory` if there is no memory.
fn push_end(out: &mut Vec<u8>, opening: &Opening) -> Result<(), Refusal>
    requires opening { IsOpening opening.now }
    requires format { opening.now.format ≡ Two }
    ensures formed { OnOk result ((pushed : List ℕ)
        → pushed ++ out.old.items ≡ head Two ++ body (blocks_of opening.now.rows.items)
        → IsFormed opening.now (pushed ++ out.new.items)
        × (length (pushed ++ out.new.items) ≤ opening.now.size)) }
    ensures large { IsErrOf result Refusal.FileTooLarge → ¬ FitsIn opening.now.size
        (entries_in (blocks_of opening.now.rows.items)) }
    ensures refusal { IfErr result (λ refusal. (refusal ≡ Refusal.FileTooLarge)
        ⊎ (refusal ≡ Refusal.NoMemory)) }
{
    let rows_at = out.len();
    push_index(out, &opening.rows)?;
    let foot_len = Format::Two.foot_len();
    let size = opening.end as u128 + (out.len() - rows_at) as u128 + foot_len as u128;
    if size > opening.size as u128 {
        return Err(Refusal::FileTooLarge);
    }
    push_foot(
        out,
        Format::Two,
        opening.end,
        opening.rows.len() as u64,
        opening.count,
        size as u64,
    )
}

/// Appends a block's row to an index. Answers `NoMemory` if there is no memory.
fn push_row(index: &mut Vec<u8>, row: &BlockRow) -> Result<(), Refusal>
    requires { length row.now.first.items < 2 ^ 32 }
    ensures ok { OnOk result (index.new.items ≡ index.old.items ++ row_spelled row.now) }
    ensures memory { IsOkUnless result Refusal.NoMemory }
{
    push_number(index, Format::Two, row.offset)?;
    push_number(index, Format::Two, row.length as u64)?;
    push_field(index, &row.first)
}

/// Appends the index of these rows. Answers `NoMemory` if there is no memory.
fn push_index(out: &mut Vec<u8>, rows: &[BlockRow]) -> Result<(), Refusal>
    requires { AllByRecursion HasShortText rows.now }
    ensures ok { OnOk result (out.new.items ≡ out.old.items ++ flat_map row_spelled rows.now) }
    ensures memory { IsOkUnless result Refusal.NoMemory }
{
    let mut rest = rows;
    'rows: while let Some((row, after)) = rest.split_first() {
        push_row(out, row)?;
        rest = after;
    }
    Ok(())
}
