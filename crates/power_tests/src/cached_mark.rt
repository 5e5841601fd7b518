//! A mark in memory with two contents.

ghost use Rattle.std.specs.Prelude.{◌≡◌, ◌≤◌, ◌<◌, ◌^◌, Bool, cond, false, true, OnErr, OnOk};
ghost use Rattle.power_tests.specs.Views.{meant_mark};

use crate::fates::{Choice, Fates};
use cell_key::Stamp;
use oracle::{MarkFault, MarkStore};
use std::marker::{Model, PhantomData};

/// A mark that is read, and one that lasts over a loss of power. A store changes both; after a failure each of the two
/// is by itself as before or changed, and is not read until a mark is stored well.
#[derive(Drop)]
pub struct CachedMark<V: Choice> {
    read: Stamp,
    lasting: Stamp,
    in_doubt: bool,
    fates: Fates,
    faults: u64,
    meant: PhantomData<V>,
}

impl<V: Choice> Model for CachedMark<V> {
    ghost use Rattle.std.specs.Prelude.{◌≡◌, ◌<◌, ◌^◌, false};
    ghost use Rattle.power_tests.specs.Views.{MarkView};

    ghost Value = { MarkView };

    ghost view = { λ mark. record {
      read = mark.read;
      lasting = mark.lasting;
      in_doubt = mark.in_doubt;
      faults = mark.faults;
    } };

    ghost invariant = { λ mark. (mark.read < 2 ^ 63) × (mark.lasting < 2 ^ 63)
        × (mark.in_doubt ≡ false → mark.read ≡ mark.lasting) };
}

/// The new number if it replaces the old one, else the old one.
fn replaced(old: Stamp, goes: bool, new: Stamp) -> Stamp
    ensures { result ≡ cond goes new old }
{
    if goes { new } else { old }
}

impl<V: Choice> CachedMark<V> {
    /// No mark was stored.
    pub fn new(fates: Fates) -> CachedMark<V>
        ensures { result ≡ record { read = 0; lasting = 0; in_doubt = false; faults = 0 } }
    {
        CachedMark {
            read: 0,
            lasting: 0,
            in_doubt: false,
            fates,
            faults: 0,
            meant: PhantomData,
        }
    }

    /// From now on the calls have these fates.
    pub fn set_fates(&mut self, fates: Fates)
        ensures { self.new ≡ self.old }
    {
        self.fates = fates;
    }

    /// An opening after a kill stores the mark again as it is read.
    ///
    /// # Errors
    ///
    /// By the call's fate: the mark that lasts may be replaced.
    pub fn reopen(&mut self) -> Result<(), MarkFault>
        ensures ok { OnOk result ((lasts : Bool)
            → meant_mark lasts self.new ≡ meant_mark false self.old) }
        ensures err { OnErr result ((lasts : Bool) → (before : Bool)
            × (meant_mark lasts self.new ≡ meant_mark before self.old)) }
    {
        let fate = self.fates.next();
        let lasts = fate.lasts();
        let is_done = fate.is_done(true, lasts);
        self.lasting = replaced(self.lasting, lasts, self.read);
        self.in_doubt = self.in_doubt && !is_done;
        if is_done {
            return Ok(());
        }
        self.faults = self.faults.saturating_add(1);
        Err(MarkFault)
    }

    /// The mark after a loss of power: what lasts is read.
    pub fn without_power(self) -> CachedMark<V>
        ensures { (lasts : Bool) → meant_mark lasts result ≡ meant_mark true self }
    {
        let CachedMark {
            lasting,
            fates,
            faults,
            meant,
            ..
        } = self;
        CachedMark {
            read: lasting,
            lasting,
            in_doubt: false,
            fates,
            faults,
            meant,
        }
    }
}

impl<V: Choice> MarkStore for CachedMark<V> {
    ghost mark = { λ mark. meant_mark V.meant.of_mark mark };

    ghost faults = { λ mark. mark.faults };

    fn load(&mut self) -> Result<Stamp, MarkFault> {
        if !self.fates.next().is_good() || self.in_doubt {
            self.faults = self.faults.saturating_add(1);
            return Err(MarkFault);
        }
        Ok(self.read)
    }

    fn store(&mut self, number: Stamp) -> Result<(), MarkFault> {
        let fate = self.fates.next();
        let (is_read, lasts) = (fate.is_read(), fate.lasts());
        let is_done = fate.is_done(is_read, lasts);
        self.read = replaced(self.read, is_read, number);
        self.lasting = replaced(self.lasting, lasts, number);
        self.in_doubt = !is_done;
        if is_done {
            return Ok(());
        }
        self.faults = self.faults.saturating_add(1);
        Err(MarkFault)
    }

    fn faults(&self) -> u64 {
        self.faults
    }
}
