//! The check of a whole file, block by block, when it is opened.

ghost use Rattle.std.specs.FinMap as map;
ghost use Rattle.std.specs.Prelude.{◌≡◌, List, ℕ, length, IfOk, IfSome, IsSome, IsErrOf, ◌≤◌, ◌<◌, ◌+◌, take, ◌-◌, ◌++◌, ◌∷◌, ◌↔◌, [], OnOk, IsTrue, IsOkUnless};
ghost use Rattle.cell_key.specs.Entries.{Entry, IsEntryList, IsRising};
ghost use Rattle.cell_key.specs.Faults.{HasReason};
ghost use Rattle.file_store.specs.Store.{part};
ghost use Rattle.sorted_file.specs.Grammar.{IsNoFile, foot_len, head, most, block_bytes, foot, Fits};
ghost use Rattle.sorted_file.specs.Index.{Tells, blocks_of, entries_in};
ghost use Rattle.sorted_file.specs.Check.{IsFollowed, IsFramed, IsNext, IsOpening, IsReading, IsWhole};
ghost use Rattle.sorted_file.specs.Block.{IsBlock, IsParsed, entries_of};
ghost use Rattle.sorted_file.specs.Columns.{AreColumnsOf};
ghost use Rattle.sorted_file.specs.File.{HasFile};
ghost use Rattle.sorted_file.specs.Source.{ReadsFiles, IsReadRefusal};

use crate::block::{Block, BlockRow, is_followed};
use crate::format::{
    Format, HEAD, LONGEST_BLOCK, RowRef, format_of, index_offset, is_below, push_foot, read_row,
};
use crate::gathering::{Columns, GatheredBlock, read_block};
use crate::lock_index::LockIndex;
use crate::source::{read_part, refusal_of};
use cell_key::{Refusal, are_same};
use file_store::Files;
use std::alloc::Global;
use std::snapshot::Snapshot;

/// The size of a file in bytes. Answers `Damaged` if it doesn't exist, `Device` if a device fails, and `NoMemory` if
/// there is no memory.
fn file_size<F: Files>(name: u64, files: &mut F) -> Result<u64, Refusal>
    ensures size { IfOk result (λ size. (image : List ℕ)
        → Tells (F.contents files.old) name image → length image ≡ size) }
    ensures there { IfOk result (λ size.
        IfSome (F.contents files.old) (λ m. IsSome (map.get m name))) }
    ensures damaged { IsErrOf result Refusal.Damaged → (image : List ℕ)
        → Tells (F.contents files.old) name image → IsNoFile image }
    ensures reads { ReadsFiles F.contents F.faults files.old files.new result }
{
    files
        .size(name)
        .map_err(refusal_of)?
        .ok_or(Refusal::Damaged)
}

/// The format that the head of a file of this size names. Answers `Damaged` if it names none or no file of that format
/// has this size, `Device` if a device fails, and `NoMemory` if there is no memory.
fn read_format<F: Files>(
    alloc: Global,
    name: u64,
    size: u64,
    files: &mut F,
) -> Result<Format, Refusal>
    ensures head { IfOk result (λ format. (image : List ℕ)
        → Tells (F.contents files.old) name image → take 8 image ≡ head format) }
    ensures least { IfOk result (λ format. 8 + foot_len format ≤ size) }
    ensures most { IfOk result (λ format. size < most format) }
    ensures damaged { IsErrOf result Refusal.Damaged → (image : List ℕ)
        → Tells (F.contents files.old) name image → length image ≡ size → IsNoFile image }
    ensures reads { ReadsFiles F.contents F.faults files.old files.new result }
{
    let head = read_part(Vec::new(alloc), name, 0, HEAD, files)?;
    let Some(format) = format_of(&head) else {
        return Err(Refusal::Damaged);
    };
    if !format.allows(size) {
        return Err(Refusal::Damaged);
    }
    Ok(format)
}

/// The offset of the index of a file of this format and size, and the file's foot. Answers `Damaged` if the foot is
/// malformed, `Device` if a device fails, and `NoMemory` if there is no memory.
fn read_foot<F: Files>(
    alloc: Global,
    name: u64,
    format: Format,
    size: u64,
    files: &mut F,
) -> Result<(u64, Vec<u8>), Refusal>
    requires { 8 + foot_len format ≤ size }
    ensures framed { IfOk result (λ found. (image : List ℕ)
        → Tells (F.contents files.old) name image → length image ≡ size
        → take 8 image ≡ head format
        → IsFramed format image
        (part image found.0 (length image - foot_len format - found.0)) found.1.items) }
    ensures within { IfOk result (λ found. found.0 + foot_len format ≤ size) }
    ensures damaged { IsErrOf result Refusal.Damaged → (image : List ℕ)
        → Tells (F.contents files.old) name image → length image ≡ size
        → take 8 image ≡ head format → IsNoFile image }
    ensures reads { ReadsFiles F.contents F.faults files.old files.new result }
{
    let len = format.foot_len();
    let foot = read_part(Vec::new(alloc), name, size - len, len, files)?;
    let Some(at) = index_offset(format, &foot, size) else {
        return Err(Refusal::Damaged);
    };
    Ok((at, foot))
}

/// The index and the foot of a file of this format and size. Answers `Damaged` if the foot is malformed, `Device` if a
/// device fails, and `NoMemory` if there is no memory.
fn read_frame<F: Files>(
    alloc: Global,
    name: u64,
    format: Format,
    size: u64,
    files: &mut F,
) -> Result<(Vec<u8>, Vec<u8>), Refusal>
    requires { 8 + foot_len format ≤ size }
    ensures framed { IfOk result (λ frame. (image : List ℕ)
        → Tells (F.contents files.old) name image → length image ≡ size
        → take 8 image ≡ head format
        → IsFramed format image frame.0.items frame.1.items) }
    ensures damaged { IsErrOf result Refusal.Damaged → (image : List ℕ)
        → Tells (F.contents files.old) name image → length image ≡ size
        → take 8 image ≡ head format → IsNoFile image }
    ensures reads { ReadsFiles F.contents F.faults files.old files.new result }
{
    let (at, foot) = read_foot(alloc, name, format, size, files)?;
    let index = read_part(
        Vec::new(alloc),
        name,
        at,
        size - format.foot_len() - at,
        files,
    )?;
    Ok((index, foot))
}

/// A file while it is read or written: the open file's state of the blocks so far.
#[derive(Drop)]
pub(crate) struct Opening {
    alloc: Global,
    name: u64,
    format: Format,
    /// The size of the file in bytes, or its limit if it is being written.
    pub(crate) size: u64,
    pub(crate) rows: Vec<BlockRow>,
    pub(crate) columns: Columns,
    /// How many entries there are.
    pub(crate) count: u64,
    /// The text of the last entry; empty before the first.
    last: Vec<u8>,
    /// The offset of the next block.
    pub(crate) end: u64,
}

impl Opening {
    /// A file of this format and size, without blocks.
    pub(crate) fn new(alloc: Global, name: u64, format: Format, size: u64) -> Opening
        requires least { 8 + foot_len format ≤ size }
        requires most { size < most format }
        ensures opening { IsOpening result }
        ensures name { result.name ≡ name }
        ensures format { result.format ≡ format }
        ensures size { result.size ≡ size }
        ensures rows { result.rows.items ≡ [] }
    {
        Opening {
            alloc,
            name,
            format,
            size,
            rows: Vec::new(alloc),
            columns: Columns::new(alloc),
            count: 0,
            last: Vec::new(alloc),
            end: HEAD,
        }
    }

    /// The next block, which has this row. Answers `Damaged` if there is no block of this length, `Device` if a device
    /// fails, and `NoMemory` if there is no memory.
    fn next_block<F: Files>(
        &self,
        row: RowRef<'_>,
        over: &LockIndex,
        files: &mut F,
    ) -> Result<GatheredBlock, Refusal>
        requires { self.now.end ≤ self.now.size }
        ensures parsed { IfOk result (λ read. IsParsed (entries_of read.block) read.block) }
        ensures columns { IfOk result (λ read. AreColumnsOf read.columns (entries_of read.block)) }
        ensures fits { IfOk result (λ read. Fits (entries_of read.block)) }
        ensures length { IfOk result (λ read. length (block_bytes (entries_of read.block))
            ≡ row.entry.length) }
        ensures within { IfOk result (λ read. self.now.end + row.entry.length ≤ self.now.size) }
        ensures read { IfOk result (λ read. (image : List ℕ)
            → Tells (F.contents files.old) self.now.name image
            → part image self.now.end row.entry.length ≡ block_bytes (entries_of read.block)) }
        ensures damaged { IsErrOf result Refusal.Damaged → (image : List ℕ)
            → Tells (F.contents files.old) self.now.name image → length image ≡ self.now.size
            → (es : List Entry) → length (block_bytes es) ≡ row.entry.length
            → ¬ IsBlock es (part image self.now.end row.entry.length) }
        ensures reads { ReadsFiles F.contents F.faults files.old files.new result }
    {
        if row.length > self.size - self.end || row.length > LONGEST_BLOCK {
            return Err(Refusal::Damaged);
        }
        let bytes = read_part(Vec::new(self.alloc), self.name, self.end, row.length, files)?;
        let Some(read) = read_block(self.alloc, bytes, over)? else {
            return Err(Refusal::Damaged);
        };
        Ok(read)
    }

    /// Whether a block can come next, and the row matches it.
    fn accepts(&self, row: RowRef<'_>, block: &Block) -> bool
        requires opening { IsOpening self.now }
        requires parsed { IsParsed (entries_of block.now) block.now }
        requires fits { Fits (entries_of block.now) }
        ensures { IsTrue result ↔ IsNext self.now row.entry (entries_of block.now) }
    {
        let Some(first) = block.entry(0) else {
            return false;
        };
        if row.offset != self.end {
            return false;
        }
        if !are_same(row.first, first.key) {
            return false;
        }
        if !is_followed(&self.rows, first) {
            return false;
        }
        is_below(&self.last, first.key)
    }

    /// Adds the next block. Answers `NoMemory` if there is no memory.
    pub(crate) fn add(&mut self, next: GatheredBlock) -> Result<(), Refusal>
        requires opening { IsOpening self.old }
        requires followed { IsFollowed (blocks_of self.old.rows.items) (entries_of next.block) }
        requires rising { IsRising
            (entries_in (blocks_of self.old.rows.items) ++ entries_of next.block) }
        requires parsed { IsParsed (entries_of next.block) next.block }
        requires columns { AreColumnsOf next.columns (entries_of next.block) }
        requires fits { Fits (entries_of next.block) }
        requires within { self.old.end + length next.block.bytes.items ≤ self.old.size }
        ensures opening { OnOk result (IsOpening self.new) }
        ensures name { self.new.name ≡ self.old.name }
        ensures format { self.new.format ≡ self.old.format }
        ensures size { self.new.size ≡ self.old.size }
        ensures rows { OnOk result (blocks_of self.new.rows.items
            ≡ blocks_of self.old.rows.items ++ entries_of next.block ∷ []) }
        ensures refusal { IsOkUnless result Refusal.NoMemory }
    {
        let GatheredBlock { block, columns } = next;
        let length = block.bytes.len();
        let first = Vec::from_slice(self.alloc, block.first_text())?;
        let last = Vec::from_slice(self.alloc, block.last_text())?;
        let row_last = Vec::from_slice(self.alloc, block.last_text())?;
        let bounds = columns.bounds;
        self.columns.join(columns)?;
        let was = Snapshot::of(&block);
        self.rows.push(BlockRow {
            offset: self.end,
            length: length as u32,
            first,
            last: row_last,
            bounds,
            was,
        })?;
        self.last = last;
        self.count += block.len() as u64;
        self.end += length as u64;
        Ok(())
    }

    /// Reads the next block, whose row is at the front of `left`, and answers the rest of the index behind that row.
    /// Answers `Damaged` if row and block aren't a file's, `Device` if a device fails, and `NoMemory` if there is no
    /// memory.
    fn read_next<'i, F: Files>(
        &mut self,
        left: &'i [u8],
        over: &LockIndex,
        files: &mut F,
    ) -> Result<&'i [u8], Refusal>
        requires { IsOpening self.old }
        ensures opening { OnOk result (IsOpening self.new) }
        ensures shorter { IfOk result (λ rest. length rest.now < length left.now) }
        ensures read { IfOk result (λ rest. (image all end : List ℕ)
            → IsReading (F.contents files.old) self.old image all end left.now
            → IsReading (F.contents files.old) self.new image all end rest.now) }
        ensures damaged { IsErrOf result Refusal.Damaged → (image all end : List ℕ)
            → IsReading (F.contents files.old) self.old image all end left.now
            → 0 < length left.now → IsNoFile image }
        ensures reads { ReadsFiles F.contents F.faults files.old files.new result }
    {
        let Some((row, rest)) = read_row(self.format, left) else {
            return Err(Refusal::Damaged);
        };
        let read = self.next_block(row, over, files)?;
        if !self.accepts(row, &read.block) {
            return Err(Refusal::Damaged);
        }
        self.add(read)?;
        Ok(rest)
    }

    /// Reads all blocks that an index names. Answers `Damaged` if its rows and the blocks aren't a file's, `Device` if
    /// a device fails, and `NoMemory` if there is no memory.
    fn read_blocks<F: Files>(
        &mut self,
        index: &[u8],
        over: &LockIndex,
        files: &mut F,
    ) -> Result<(), Refusal>
        requires { IsOpening self.old }
        ensures opening { OnOk result (IsOpening self.new) }
        ensures read { OnOk result ((image end : List ℕ)
            → IsReading (F.contents files.old) self.old image index.now end index.now
            → IsReading (F.contents files.old) self.new image index.now end []) }
        ensures damaged { IsErrOf result Refusal.Damaged → (image end : List ℕ)
            → IsReading (F.contents files.old) self.old image index.now end index.now
            → IsNoFile image }
        ensures reads { ReadsFiles F.contents F.faults files.old files.new result }
    {
        let mut rest = index;
        'blocks: while !rest.is_empty() {
            rest = self.read_next(rest, over, files)?;
        }
        Ok(())
    }

    /// Whether the foot is right for a file of these blocks. Answers `NoMemory` if there is no memory.
    fn has_foot(&self, end: &[u8]) -> Result<bool, Refusal>
        requires { IsOpening self.now }
        ensures exact { IfOk result (λ is. IsTrue is ↔ (end.now ≡ foot self.now.format self.now.end
            (length self.now.rows.items) self.now.count self.now.size)) }
        ensures refusal { IsOkUnless result Refusal.NoMemory }
    {
        let mut foot = Vec::new(self.alloc);
        push_foot(
            &mut foot,
            self.format,
            self.end,
            self.rows.len() as u64,
            self.count,
            self.size,
        )?;
        Ok(are_same(&foot, end))
    }
}

/// Reads a file block by block. `over` is the index of the older files' locks. Answers `Damaged` if the file doesn't
/// exist or is no entry list's file, `Device` if a device fails, and `NoMemory` if there is no memory.
pub(crate) fn read_file<F: Files>(
    alloc: Global,
    name: u64,
    over: &LockIndex,
    files: &mut F,
) -> Result<Opening, Refusal>
    ensures opening { IfOk result IsOpening }
    ensures whole { IfOk result (λ o. IfSome (F.contents files.old) (λ m. IsWhole m name o)) }
    ensures damaged { IsErrOf result Refusal.Damaged
        → IfSome (F.contents files.old) (λ m. ¬ HasFile m name) }
    ensures reads { ReadsFiles F.contents F.faults files.old files.new result }
{
    let size = file_size(name, files)?;
    let format = read_format(alloc, name, size, files)?;
    let (index, end) = read_frame(alloc, name, format, size, files)?;
    let mut opening = Opening::new(alloc, name, format, size);
    opening.read_blocks(&index, over, files)?;
    if !opening.has_foot(&end)? {
        return Err(Refusal::Damaged);
    }
    Ok(opening)
}
