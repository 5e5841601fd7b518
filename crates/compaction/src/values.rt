//! A source without its erasures.

ghost use Rattle.std.specs.Prelude.{◌≡◌, is_some, true};
ghost use Rattle.compaction.specs.Writing.{is_written_lent};

use cell_key::{EntryRef, Refusal};
use file_store::Files;
use sorted_file::Source;

/// The entries of a source, without its erasures unless they are kept.
#[derive(Drop)]
pub(crate) struct Values<S> {
    source: S,
    keep_erasures: bool,
}

impl<S> Values<S> {
    pub(crate) fn new(source: S, keep_erasures: bool) -> Values<S>
        ensures source { result.source ≡ source }
        ensures keep { result.keep_erasures ≡ keep_erasures }
    {
        Values {
            source,
            keep_erasures,
        }
    }

    /// Whether the source's current entry is to be written.
    fn is_at_written<F: Files>(&self) -> bool
    where
        S: Source<F>,
        requires { is_some (S.lent self.now.source) ≡ true }
        ensures { result ≡ is_written_lent self.now.keep_erasures (S.lent self.now.source) }
    {
        if self.keep_erasures {
            return true;
        }
        match self.source.current() {
            Some(entry) => entry.value.is_some(),
            None => false,
        }
    }
}

impl<F: Files, S: Source<F>> Source<F> for Values<S> {
    ghost use Rattle.compaction.specs.Writing.{BreaksOn, StepsOn, only_written};
    ghost use Rattle.compaction.specs.ListLaws.{written_list};

    ghost holds = { λ disk s. S.holds disk s.source };

    ghost remaining = { λ disk s. only_written s.keep_erasures (S.remaining disk s.source) };

    ghost lent = { λ s. S.lent s.source };

    ghost steps = { λ disk s t. (t.keep_erasures ≡ s.keep_erasures)
        × StepsOn s.keep_erasures (S.steps disk) S.lent s.source t.source };

    ghost breaks = { λ disk s.
        BreaksOn s.keep_erasures (S.steps disk) S.lent (S.breaks disk) s.source };

    ghost left = { λ s. S.left s.source };

    fn advance(&mut self, files: &mut F) -> Result<bool, Refusal> {
        while self.source.advance(files)? {
            if self.is_at_written::<F>() {
                return Ok(true);
            }
        }
        Ok(false)
    }

    fn current(&self) -> Option<EntryRef<'_>> {
        self.source.current()
    }

    ghost list = { λ disk s h. written_list
        s.keep_erasures (S.lent s.source) (S.remaining disk s.source) (S.list disk s.source h) };
}
