//! A log's file in memory with two contents.

ghost use Rattle.std.specs.Prelude.{◌≡◌, ◌++◌, ℕ, Bool, cond, false, true, take, IfSome, IsTrue, OnErr, OnOk};
ghost use Rattle.commit_log.specs.Faults.{HasFaultCause, HasRisen};
ghost use Rattle.power_tests.specs.Views.{meant_log};

use crate::fates::{Choice, Fates};
use commit_log::{LogFault, LogFile};
use std::alloc::Global;
use std::marker::{Model, PhantomData};

/// The bytes that are read, and the bytes that last over a loss of power. A write changes both. After a failure each of
/// the two has a beginning of what was appended, or is by itself as before or replaced; then the file takes no more
/// bytes, and is not read, until it is reopened.
#[derive(Drop)]
pub struct CachedLogFile<V: Choice> {
    read: Vec<u8>,
    lasting: Vec<u8>,
    is_stopped: bool,
    fates: Fates,
    faults: u64,
    meant: PhantomData<V>,
}

impl<V: Choice> Model for CachedLogFile<V> {
    ghost use Rattle.std.specs.Prelude.{◌≡◌, false};
    ghost use Rattle.power_tests.specs.Views.{LogView};

    ghost Value = { LogView };

    ghost view = { λ file. record {
      read = file.read.items;
      lasting = file.lasting.items;
      is_stopped = file.is_stopped;
      faults = file.faults;
    } };

    ghost invariant = { λ file. file.is_stopped ≡ false → file.read.items ≡ file.lasting.items };
}

/// Appends the first bytes of these, so many of them. Answers whether all of them were appended.
fn append_part(bytes: &mut Vec<u8>, more: &[u8], count: usize) -> bool
    ensures part { (n : ℕ) × (bytes.new.items ≡ bytes.old.items ++ take n more.now) }
    ensures whole { IsTrue result → bytes.new.items ≡ bytes.old.items ++ more.now }
{
    let part = &more[..count.min(more.len())];
    bytes.extend_from_slice(part).is_ok() && part.len() == more.len()
}

/// Replaces bytes if `goes`; answers whether they were replaced.
fn replace_if(bytes: &mut Vec<u8>, goes: bool, all: &[u8]) -> bool
    ensures { bytes.new.items ≡ cond result all.now bytes.old.items }
{
    if !goes {
        return false;
    }
    let Ok(copy) = Vec::from_slice(*bytes.allocator(), all) else {
        return false;
    };
    *bytes = copy;
    true
}

impl<V: Choice> CachedLogFile<V> {
    /// A file of these bytes, which last. `None` without memory.
    pub fn new(bytes: Vec<u8>, fates: Fates) -> Option<CachedLogFile<V>>
        ensures { IfSome result (λ file. file ≡ record {
          read = bytes.items;
          lasting = bytes.items;
          is_stopped = false;
          faults = 0;
        }) }
    {
        let Ok(lasting) = Vec::from_slice(*bytes.allocator(), &bytes) else {
            return None;
        };
        Some(CachedLogFile {
            read: bytes,
            lasting,
            is_stopped: false,
            fates,
            faults: 0,
            meant: PhantomData,
        })
    }

    /// From now on the calls have these fates.
    pub fn set_fates(&mut self, fates: Fates)
        ensures { self.new ≡ self.old }
    {
        self.fates = fates;
    }

    /// An opening after a kill writes the bytes again as they are read.
    ///
    /// # Errors
    ///
    /// `Device`, by the call's fate or without memory: the bytes that last may be replaced.
    pub fn reopen(&mut self) -> Result<(), LogFault>
        ensures ok { OnOk result ((lasts : Bool)
            → meant_log lasts self.new ≡ meant_log false self.old) }
        ensures err { OnErr result ((lasts : Bool) → (before : Bool)
            × (meant_log lasts self.new ≡ meant_log before self.old)) }
    {
        let fate = self.fates.next();
        let lasts = replace_if(&mut self.lasting, fate.lasts(), &self.read);
        if fate.is_done(true, lasts) {
            self.is_stopped = false;
            return Ok(());
        }
        self.is_stopped = true;
        self.faults = self.faults.saturating_add(1);
        Err(LogFault::Device)
    }

    /// The file after a loss of power: what lasts is read. `None` without memory.
    pub fn without_power(self) -> Option<CachedLogFile<V>>
        ensures { IfSome result (λ file. (lasts : Bool)
            → meant_log lasts file ≡ meant_log true self) }
    {
        let CachedLogFile {
            mut read,
            lasting,
            fates,
            faults,
            meant,
            ..
        } = self;
        if !replace_if(&mut read, true, &lasting) {
            return None;
        }
        Some(CachedLogFile {
            read,
            lasting,
            is_stopped: false,
            fates,
            faults,
            meant,
        })
    }
}

impl<V: Choice> LogFile for CachedLogFile<V> {
    ghost use Rattle.std.specs.Prelude.{◌≡◌, true};

    ghost bytes = { λ file. meant_log V.meant.of_log file };

    ghost is_stopped = { λ file. file.is_stopped ≡ true };

    ghost faults = { λ file. file.faults };

    fn read(&mut self, alloc: Global) -> Result<Vec<u8>, LogFault> {
        if !self.fates.next().is_good() || self.is_stopped {
            self.faults = self.faults.saturating_add(1);
            return Err(LogFault::Device);
        }
        Ok(Vec::from_slice(alloc, &self.read)?)
    }

    fn reserve(&mut self, _more: usize) -> Result<(), LogFault> {
        if !self.fates.next().is_good() || self.is_stopped {
            self.faults = self.faults.saturating_add(1);
            return Err(LogFault::Device);
        }
        Ok(())
    }

    fn reserve_renewal(&mut self) -> Result<(), LogFault> {
        self.reserve(0)
    }

    fn reserve_beside(&mut self, _len: usize) -> Result<(), LogFault> {
        self.reserve(0)
    }

    fn release_beside(&mut self) {}

    fn write(&mut self, more: &[u8]) -> Result<(), LogFault> {
        if self.is_stopped {
            self.faults = self.faults.saturating_add(1);
            return Err(LogFault::Device);
        }
        let fate = self.fates.next();
        let is_read = append_part(&mut self.read, more, fate.count_read(more.len()));
        let lasts = append_part(&mut self.lasting, more, fate.count_lasting(more.len()));
        if fate.is_done(is_read, lasts) {
            return Ok(());
        }
        self.is_stopped = true;
        self.faults = self.faults.saturating_add(1);
        Err(LogFault::Device)
    }

    fn renew(&mut self, all: &[u8]) -> Result<(), LogFault> {
        if self.is_stopped {
            self.faults = self.faults.saturating_add(1);
            return Err(LogFault::Device);
        }
        let fate = self.fates.next();
        let is_read = replace_if(&mut self.read, fate.is_read(), all);
        let lasts = replace_if(&mut self.lasting, fate.lasts(), all);
        if fate.is_done(is_read, lasts) {
            return Ok(());
        }
        self.is_stopped = true;
        self.faults = self.faults.saturating_add(1);
        Err(LogFault::Device)
    }

    fn faults(&self) -> u64 {
        self.faults
    }
}
