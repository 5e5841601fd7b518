//! The entries of a memtable or of a file, as one kind of source.

use cell_key::{EntryRef, Refusal};
use file_store::Files;
use sorted_file::{FileCursor, Source};

/// The entries of a memtable or of a file, as a source.
#[derive(Drop)]
pub enum Input<'a> {
    /// A memtable's entries.
    Memtable(memtable::Cursor<'a>),
    /// An open file's entries.
    File(FileCursor<'a>),
}

impl<F: Files> Source<F> for Input<'_> {
    ghost use Rattle.compaction.specs.Inputs.{input_remaining, input_lent, input_left, InputBreaks, InputHolds, InputSteps};
    ghost use Rattle.compaction.specs.ListLaws.{input_list};

    ghost holds = { InputHolds };

    ghost remaining = { input_remaining };

    ghost lent = { input_lent };

    ghost steps = { InputSteps };

    ghost breaks = { InputBreaks };

    ghost left = { input_left ⟦<FileCursor<'static> as Source<F>>⟧.left };

    fn advance(&mut self, files: &mut F) -> Result<bool, Refusal> {
        match self {
            Input::Memtable(cursor) => Ok(cursor.advance()),
            Input::File(cursor) => cursor.advance(files),
        }
    }

    fn current(&self) -> Option<EntryRef<'_>> {
        match self {
            Input::Memtable(cursor) => cursor.current(),
            Input::File(cursor) => Source::<F>::current(cursor),
        }
    }

    ghost list = { input_list };
}
