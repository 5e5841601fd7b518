//! Sources of stamps: the trait of their calls, and the contract of each.

ghost use Rattle.std.specs.Prelude.{◌≡◌, ◌≤◌, ◌<◌, ◌^◌, ℕ, IfOk, OnErr, IfErr, IfSome, IsErrOf};
ghost use Rattle.cell_key.specs.Faults.{HasReason};
ghost use Rattle.rows.specs.Sources.{DrawsStamp, IsDrawRefusal, Source};

use cell_key::{MOST_STAMP, Refusal, Stamp};

/// A source of stamps (Percolator, the timestamp oracle). Each stamp is above all that anyone has drawn from it before,
/// and below 2^63. Several servers may share one: between two calls of a server others may draw.
pub trait Stamps {
    /// The last stamp of the source, whether the source itself knows it, and what a refused draw leaves.
    ghost source: { Source Self };

    /// How often a device has failed. The count saturates at 2^64 - 1.
    ghost faults: { Self → ℕ };

    /// The last stamp, if the source knows it: nobody else draws from it, and the next stamp is one more.
    fn known(&self) -> Option<Stamp>
        ensures known { result ≡ source.known self.now }
        ensures last { IfSome result (λ last. last ≡ source.last self.now) }
        ensures limit { IfSome result (λ last. last < 2 ^ 63) };

    /// Draws a stamp, which is above the last one.
    ///
    /// # Errors
    ///
    /// `Exhausted` after the greatest stamp, and `Device` if a device failed during the call. A stamp may have been
    /// drawn then that nobody was told.
    fn draw(&mut self) -> Result<Stamp, Refusal>
        ensures drawn { IfOk result (λ stamp. DrawsStamp source self.old stamp self.new) }
        ensures rises { source.last self.old ≤ source.last self.new }
        ensures left { OnErr result (source.leaves self.old self.new) }
        ensures refusal { IfErr result IsDrawRefusal }
        ensures exhausted { IfSome (source.known self.old) (λ last.
            IsErrOf result Refusal.Exhausted → last ≡ MOST_STAMP) }
        ensures undrawn { IsErrOf result Refusal.Exhausted → self.new ≡ self.old }
        ensures reason { HasReason (faults self.old) (faults self.new) result };
}
