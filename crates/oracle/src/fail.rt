//! Fault injection for tests: a mark store with one failing call.

ghost use Rattle.std.specs.Prelude.{◌≡◌, ◌≤◌, ◌<◌, ◌^◌, IfOk, IfSome, OnErr, OnOk, false};
ghost use Rattle.cell_key.specs.Faults.{HasRisen};
ghost use Rattle.oracle.specs.Fails.{IsAnswer, LoadFails, StoreFails, counted, next_fail, together};
ghost use Rattle.oracle.specs.Marks.{MayHold, mark_after};

use crate::marks::{MarkFault, MarkStore};
use cell_key::Stamp;

/// The work that a failing call has done.
#[derive(Clone, Copy, Debug, PartialEq, Eq)]
pub enum Fail {
    /// Nothing.
    Before,
    /// Nothing, like `Before`: a mark is not written in halves.
    Half,
    /// All of it.
    After,
}

/// The number of calls so far, the call that fails and how, and the number of failed calls.
#[derive(Clone, Copy, Debug)]
struct Counter {
    at: u64,
    how: Fail,
    calls: u64,
    faults: u64,
}

impl Counter {
    /// Counts a call; answers how it fails if it is the failing one.
    fn count(&mut self) -> Option<Fail>
        ensures fail { result ≡ next_fail self.old }
        ensures counted { self.new ≡ counted self.old }
    {
        let is_due = self.calls < u64::MAX && self.calls + 1 == self.at;
        self.calls = self.calls.saturating_add(1);
        if !is_due {
            return None;
        }
        self.faults = self.faults.saturating_add(1);
        Some(self.how)
    }
}

/// A mark store with one call that answers a device's fault, whatever the inner store answers to it. All other calls
/// are passed to the inner store.
#[derive(Drop)]
pub struct FailMarkAt<M> {
    inner: M,
    counter: Counter,
    inner_failed: bool,
}

impl<M: MarkStore> FailMarkAt<M> {
    /// A mark store whose call with this number fails, counted from 1. With 0 none does.
    pub fn new(inner: M, at: u64, how: Fail) -> FailMarkAt<M>
        ensures inner { result.inner ≡ inner }
        ensures counter { result.counter ≡ record { at = at; how = how; calls = 0; faults = 0 } }
        ensures inner_failed { result.inner_failed ≡ false }
    {
        let counter = Counter {
            at,
            how,
            calls: 0,
            faults: 0,
        };
        FailMarkAt {
            inner,
            counter,
            inner_failed: false,
        }
    }

    /// How many calls of `load` and `store` there were. The count saturates at 2^64 - 1.
    pub fn calls(&self) -> u64
        ensures { result ≡ self.now.counter.calls }
    {
        self.counter.calls
    }

    /// Whether the inner store failed too in the failing call.
    pub fn inner_failed(&self) -> bool
        ensures { result ≡ self.now.inner_failed }
    {
        self.inner_failed
    }

    /// The inner mark store.
    pub fn into_inner(self) -> M
        ensures { result ≡ self.inner }
    {
        self.inner
    }
}

impl<M: MarkStore> MarkStore for FailMarkAt<M> {
    ghost mark = { λ store. M.mark store.inner };

    ghost faults = { λ store. together (M.faults store.inner) store.counter.faults };

    fn load(&mut self) -> Result<Stamp, MarkFault>
        ensures counted { self.new.counter ≡ counted self.old.counter }
        ensures answer { IsAnswer (next_fail self.old.counter)
            (M.faults self.old.inner) (M.faults self.new.inner) result }
        ensures failed { IfSome (next_fail self.old.counter) (λ how.
            LoadFails M.mark how self.old.inner self.new.inner) }
        ensures limit { IfOk result (λ number. number < 2 ^ 63) }
        ensures stored { IfOk result (λ number.
            IfSome (M.mark self.old.inner) (λ stored. number ≡ stored)) }
        ensures kept { M.mark self.new.inner ≡ M.mark self.old.inner }
        ensures later { together (M.faults self.old.inner) self.old.counter.faults
            ≤ together (M.faults self.new.inner) self.new.counter.faults }
        ensures device { OnErr result (HasRisen
            (together (M.faults self.old.inner) self.old.counter.faults)
            (together (M.faults self.new.inner) self.new.counter.faults)) }
        ensures told { OnOk result (
            together (M.faults self.new.inner) self.new.counter.faults
            ≡ together (M.faults self.old.inner) self.old.counter.faults) }
    {
        match self.counter.count() {
            None => self.inner.load(),
            Some(Fail::Before | Fail::Half) => Err(MarkFault),
            Some(Fail::After) => {
                self.inner_failed = self.inner.load().is_err();
                Err(MarkFault)
            }
        }
    }

    fn store(&mut self, number: Stamp) -> Result<(), MarkFault>
        requires { number < 2 ^ 63 }
        ensures counted { self.new.counter ≡ counted self.old.counter }
        ensures answer { IsAnswer (next_fail self.old.counter)
            (M.faults self.old.inner) (M.faults self.new.inner) result }
        ensures failed { IfSome (next_fail self.old.counter) (λ how.
            StoreFails M.mark how number self.new.inner_failed
            self.old.inner self.new.inner) }
        ensures ok { OnOk result (M.mark self.new.inner
            ≡ mark_after number (M.mark self.old.inner)) }
        ensures err { OnErr result (MayHold number
            (M.mark self.old.inner) (M.mark self.new.inner)) }
        ensures later { together (M.faults self.old.inner) self.old.counter.faults
            ≤ together (M.faults self.new.inner) self.new.counter.faults }
        ensures device { OnErr result (HasRisen
            (together (M.faults self.old.inner) self.old.counter.faults)
            (together (M.faults self.new.inner) self.new.counter.faults)) }
        ensures told { OnOk result (
            together (M.faults self.new.inner) self.new.counter.faults
            ≡ together (M.faults self.old.inner) self.old.counter.faults) }
    {
        match self.counter.count() {
            None => self.inner.store(number),
            Some(Fail::Before | Fail::Half) => Err(MarkFault),
            Some(Fail::After) => {
                self.inner_failed = self.inner.store(number).is_err();
                Err(MarkFault)
            }
        }
    }

    fn faults(&self) -> u64
        ensures { result ≡ together (M.faults self.now.inner) self.now.counter.faults }
    {
        self.inner.faults().saturating_add(self.counter.faults)
    }
}
