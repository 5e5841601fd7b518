//! The audit of a store with a log that was reopened.

ghost use Rattle.std.specs.Prelude.{◌≡◌, IfErr, OnErr, OnOk};
ghost use Rattle.audit.specs.Audits.{IsBegunAt, JudgesMark, Stays};

use crate::audit::Audit;
use cell_key::{MOST_STAMP, Refusal, Stamp};

impl Audit {
    /// Whether a store with a log may have been reopened over this mark of its oracle: the mark is a stamp, and each
    /// stamp that was answered is at most the mark. If so, the audit continues from there: sessions, cleaners and
    /// collectors are dropped, and stamps up to the mark count as answered. Otherwise the audit is unchanged.
    ///
    /// # Errors
    ///
    /// `NoMemory`. The audit is unchanged, and the call may be repeated.
    pub fn recover(&mut self, mark: Stamp) -> Result<bool, Refusal>
        ensures { JudgesMark mark self.old self.new result }
    {
        if mark < self.top || mark > MOST_STAMP {
            return Ok(false);
        }
        self.begin_at(mark)?;
        self.reopen();
        self.top = mark;
        self.floor = mark + 1;
        Ok(true)
    }

    /// Notes that a session began at the mark without writes, if the mark is above the top.
    fn begin_at(&mut self, mark: Stamp) -> Result<(), Refusal>
        ensures ok { OnOk result (IsBegunAt mark self.old self.new) }
        ensures err { OnErr result (Stays self.old self.new) }
        ensures refusal { IfErr result (λ refusal. refusal ≡ Refusal.NoMemory) }
    {
        if mark <= self.top {
            return Ok(());
        }
        self.begun.insert(mark, Vec::new(self.alloc))?;
        Ok(())
    }
}
