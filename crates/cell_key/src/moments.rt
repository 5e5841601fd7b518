//! Stamps within their limits.

ghost use Rattle.std.specs.Prelude.{◌≡◌, ◌+◌, ◌<◌, ◌≤◌, ◌^◌, IfOk, IfErr, OnOk};

use crate::keys::{MOST_STAMP, Stamp};
use crate::refusals::Refusal;
use std::marker::Model;

/// A stamp within the limits of stamps: from 1 to 2^63 - 1.
#[derive(Clone, Copy, Drop)]
pub struct Moment {
    stamp: Stamp,
}

impl Model for Moment {
    ghost use Rattle.std.specs.Prelude.{ℕ};
    ghost use Rattle.cell_key.specs.Moments.{IsMoment};

    ghost Value = { ℕ };

    ghost view = { λ moment. moment.stamp };

    ghost inverse = { λ stamp. record { stamp = stamp } };

    ghost invariant = { λ moment. IsMoment moment.stamp };
}

impl Moment {
    /// The moment of a stamp.
    pub fn new(stamp: Stamp) -> Moment
        requires from { 1 ≤ stamp }
        requires to { stamp < 2 ^ 63 }
        ensures { result ≡ stamp }
    {
        Moment { stamp }
    }

    /// The moment after a stamp. `Exhausted` if the stamp is the greatest.
    pub fn after(stamp: Stamp) -> Result<Moment, Refusal>
        requires { stamp < 2 ^ 63 }
        ensures next { IfOk result (λ moment. moment ≡ stamp + 1) }
        ensures limit { OnOk result (stamp + 1 < 2 ^ 63) }
        ensures refusal { IfErr result (λ refusal. (refusal ≡ Refusal.Exhausted)
            × (stamp ≡ MOST_STAMP)) }
    {
        if stamp == MOST_STAMP {
            return Err(Refusal::Exhausted);
        }
        Ok(Moment::new(stamp + 1))
    }

    /// The stamp.
    pub fn stamp(self) -> Stamp
        ensures stamp { result ≡ self }
        ensures from { 1 ≤ self }
        ensures to { self < 2 ^ 63 }
    {
        self.stamp
    }
}
