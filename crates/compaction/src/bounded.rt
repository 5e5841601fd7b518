//! A source that ends before a text.

ghost use Rattle.std.specs.Prelude.{◌≡◌};
ghost use Rattle.std.specs.Option.{option_copied};
ghost use Rattle.compaction.specs.Ends.{is_below, is_at_end, end_of, source_of};

use cell_key::{EntryRef, Refusal};
use file_store::Files;
use sorted_file::Source;

/// The entries of a source whose texts are below an end, or all of them if there is no end. The source isn't advanced
/// past its first entry at or above the end. Allocates nothing itself.
#[derive(Drop)]
pub struct Bounded<'a, S> {
    source: S,
    end: Option<&'a [u8]>,
}

/// Whether a text is below an end; true if there is no end.
fn is_below(end: Option<&[u8]>, text: &[u8]) -> bool
    ensures { result ≡ is_below (option_copied end.entry) text.now }
{
    match end {
        Some(end) => text.cmp(&end).is_lt(),
        None => true,
    }
}

impl<'a, S> Bounded<'a, S> {
    /// The entries of a source whose texts are below `end`, which may be any bytes, or all of them if there is no end.
    pub fn new(source: S, end: Option<&'a [u8]>) -> Bounded<'a, S>
        ensures source { source_of result ≡ source }
        ensures end { end_of result ≡ option_copied end.entry }
    {
        Bounded { source, end }
    }

    /// Whether the source's current entry is at or above the end.
    fn is_at_end<F: Files>(&self) -> bool
    where
        S: Source<F>,
        ensures { result ≡ is_at_end (end_of self.now) (S.lent (source_of self.now)) }
    {
        if self.end.is_none() {
            return false;
        }
        match self.source.current() {
            Some(entry) => !is_below(self.end, entry.key),
            None => false,
        }
    }
}

impl<F: Files, S: Source<F>> Source<F> for Bounded<'_, S> {
    ghost use Rattle.compaction.specs.Ends.{BoundedSteps, entries_until, lent_until, end_of, source_of};
    ghost use Rattle.compaction.specs.ListLaws.{until_list};

    ghost holds = { λ disk s. S.holds disk (source_of s) };

    ghost remaining = { λ disk s. entries_until (end_of s) (S.remaining disk (source_of s)) };

    ghost lent = { λ s. lent_until (end_of s) (S.lent (source_of s)) };

    ghost steps = { λ disk s t. BoundedSteps (S.steps disk) S.lent s t };

    ghost breaks = { λ disk s. S.breaks disk (source_of s) };

    ghost left = { λ s. S.left (source_of s) };

    fn advance(&mut self, files: &mut F) -> Result<bool, Refusal> {
        if self.is_at_end::<F>() {
            return Ok(false);
        }
        let came = self.source.advance(files)?;
        Ok(came && !self.is_at_end::<F>())
    }

    fn current(&self) -> Option<EntryRef<'_>> {
        let entry = self.source.current()?;
        if is_below(self.end, entry.key) {
            Some(entry)
        } else {
            None
        }
    }

    ghost list = { λ disk s h. until_list (end_of s)
        (S.lent (source_of s)) (S.remaining disk (source_of s)) (S.list disk (source_of s) h) };
}
