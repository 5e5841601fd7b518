//! Rows and stamps that other servers change too: what a server asks of them besides the calls of `rows`.

ghost use Rattle.std.specs.Prelude.{◌≡◌, ◌≤◌, ℕ, Bool, false, IfOk, IfErr, IfSome};
ghost use Rattle.cell_key.specs.Faults.{HasReason};
ghost use Rattle.rows.specs.Calls.{OnlyReads};
ghost use Rattle.rows.specs.Sources.{IsDrawRefusal};

use cell_key::{Refusal, Stamp};
use rows::{Rows, Stamps};

/// Rows that other servers change too. Between two calls of `forget`, a row is read once, and changed only while it is
/// as it was read.
pub trait SharedRows: Rows {
    /// Nothing is remembered of what was read.
    ghost forgot: { Self → Type 0 };

    /// Edits were refused since `forget` because their row had changed since it was read.
    ghost raced: { Self → Bool };

    /// The rows are lost for good.
    ghost lost: { Self → Bool };

    /// Forgets what was read: a request begins, and no edits were refused yet. Nothing changes.
    fn forget(&mut self)
        ensures reads { OnlyReads Self.seen self.old self.new }
        ensures told { Self.faults self.new ≡ Self.faults self.old }
        ensures forgot { forgot self.new }
        ensures calm { raced self.new ≡ false };

    /// Whether edits were refused since `forget` because their row had changed since it was read. The request is then to
    /// be made again.
    fn is_raced(&self) -> bool
        ensures { result ≡ raced self.now };

    /// Whether the rows are lost for good: nobody may know what became of edits. Nothing is to be answered any more.
    fn is_lost(&self) -> bool
        ensures { result ≡ lost self.now };
}

/// A source of stamps that other servers draw from too, and where each server publishes a floor.
pub trait SharedStamps: Stamps {
    /// A collector may begin with this floor: it isn't above any that a server has published.
    ghost allows: { Self → ℕ → Type 0 };

    /// The stamps are lost for good.
    ghost lost: { Self → Bool };

    /// Publishes a floor of this server, and returns the least of the floors that all servers have published. Where
    /// nobody else draws, that is its own.
    ///
    /// # Errors
    ///
    /// `Device` if a device failed during the call.
    fn publish(&mut self, floor: Stamp) -> Result<Stamp, Refusal>
        ensures least { IfOk result (λ least. least ≤ floor) }
        ensures allowed { IfOk result (allows self.new) }
        ensures alone { IfSome (Self.source.known self.old) (λ _.
            IfOk result (λ least. least ≡ floor)) }
        ensures last { Self.source.last self.new ≡ Self.source.last self.old }
        ensures known { Self.source.known self.new ≡ Self.source.known self.old }
        ensures refusal { IfErr result IsDrawRefusal }
        ensures reason { HasReason (Self.faults self.old) (Self.faults self.new) result };

    /// Whether the stamps are lost for good: none is drawn any more.
    fn is_lost(&self) -> bool
        ensures { result ≡ lost self.now };
}
