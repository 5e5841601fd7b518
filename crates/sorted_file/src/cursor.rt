//! A cursor over the entries of an open file. It holds the bytes of one block.

ghost use Rattle.std.specs.Prelude.{◌≡◌, ◌<◌, ◌^◌, List, ℕ, length, drop, IfOk, IfErr, IfSome, IsErrOf};
ghost use Rattle.cell_key.specs.Entries.{entries_from};
ghost use Rattle.cell_key.specs.Faults.{HasReason};
ghost use Rattle.sorted_file.specs.Cursor.{HasNoBlock, IsOpened};
ghost use Rattle.sorted_file.specs.Index.{block_of, IsBlockIn, Tells};
ghost use Rattle.sorted_file.specs.Grammar.{block_bytes};
ghost use Rattle.sorted_file.specs.Source.{ReadsFiles, IsReadRefusal};

use crate::block::{BlockRow, EntryExtent, bytes_from, entry_extent};
use crate::source::{Source, read_part};
use cell_key::{EntryRef, Refusal};
use file_store::Files;
use std::alloc::Global;

/// A cursor over the entries of an open file at or above a text. It holds the bytes of one block and lends entries as
/// parts of them. It reads the next block when it has passed the last entry of its own.
#[derive(Drop)]
pub struct FileCursor<'a> {
    alloc: Global,
    name: u64,
    from: &'a [u8],
    /// The blocks that it has not read.
    rows: &'a [BlockRow],
    /// The row of its block, once it has read one.
    row: Option<&'a BlockRow>,
    /// The bytes of its block.
    block: Vec<u8>,
    /// The offset in its block of the next entry.
    at: usize,
    /// The extents in its block of its current entry.
    current: Option<EntryExtent>,
}

impl<'a> FileCursor<'a> {
    ghost use Rattle.std.specs.Prelude.{None, []};

    /// A cursor before the first entry of these blocks at or above `from`.
    pub(crate) fn new(
        alloc: Global,
        name: u64,
        from: &'a [u8],
        rows: &'a [BlockRow],
    ) -> FileCursor<'a>
        ensures name { result.name ≡ name }
        ensures from { result.from.now ≡ from.now }
        ensures rows { result.rows.now ≡ rows.now }
        ensures row { result.row ≡ None }
        ensures block { result.block.items ≡ [] }
        ensures current { result.current ≡ None }
    {
        FileCursor {
            alloc,
            name,
            from,
            rows,
            row: None,
            block: Vec::new(alloc),
            at: 0,
            current: None,
        }
    }

    /// The bytes of a block, and the offset in it of the first entry at or above `from`. Answers `Damaged` if the block
    /// isn't there, `Device` if a device fails, and `NoMemory` if there is no memory.
    fn read_block<F: Files>(
        &self,
        row: &BlockRow,
        files: &mut F,
    ) -> Result<(Vec<u8>, usize), Refusal>
        ensures ahead { IfOk result (λ read. (image : List ℕ)
            → Tells (F.contents files.old) self.now.name image → IsBlockIn image row.now
            → drop read.1 read.0.items
            ≡ block_bytes (entries_from self.now.from.now (block_of row.now))) }
        ensures opened { IfOk result (λ read. IfSome (F.contents files.old) (λ m.
            IsOpened m self.now.name self.now.from.now row.now (drop read.1 read.0.items))) }
        ensures length { IfOk result (λ read. length read.0.items ≡ row.now.length) }
        ensures small { IfOk result (λ read. length read.0.items < 2 ^ 32) }
        ensures damaged { IsErrOf result Refusal.Damaged → (image : List ℕ)
            → Tells (F.contents files.old) self.now.name image → ¬ IsBlockIn image row.now }
        ensures broken { IsErrOf result Refusal.Damaged → IfSome (F.contents files.old) (λ m.
            HasNoBlock m self.now.name row.now) }
        ensures reads { ReadsFiles F.contents F.faults files.old files.new result }
    {
        let block = read_part(
            Vec::new(self.alloc),
            self.name,
            row.offset,
            row.length as u64,
            files,
        )?;
        let Some(rest) = bytes_from(&block, self.from) else {
            return Err(Refusal::Damaged);
        };
        let at = block.len() - rest.len();
        Ok((block, at))
    }
}

impl<F: Files> Source<F> for FileCursor<'_> {
    ghost use Rattle.sorted_file.specs.Cursor.{cursor_left, cursor_lent, cursor_list, cursor_remaining, CursorBreaks, CursorHolds, CursorSteps};

    ghost holds = { CursorHolds };

    ghost remaining = { cursor_remaining };

    ghost lent = { cursor_lent };

    ghost steps = { CursorSteps };

    ghost breaks = { CursorBreaks };

    ghost left = { cursor_left };

    fn advance(&mut self, files: &mut F) -> Result<bool, Refusal> {
        'blocks: while self.at >= self.block.len() {
            let Some((row, rest)) = self.rows.split_first() else {
                self.current = None;
                return Ok(false);
            };
            (self.block, self.at) = self.read_block(row, files)?;
            self.row = Some(row);
            self.rows = rest;
        }
        let Some((entry, end)) = entry_extent(&self.block, self.at) else {
            return Err(Refusal::Damaged);
        };
        self.current = Some(entry);
        self.at = end;
        Ok(true)
    }

    fn current(&self) -> Option<EntryRef<'_>> {
        let entry = self.current?;
        Some(entry.lend(&self.block))
    }

    ghost list = { cursor_list };
}
