//! Files with one failing call, for tests.

ghost use Rattle.std.specs.Prelude.{◌≡◌, ◌≤◌, ℕ, List, [], ◌++◌, IfOk, IfSome, IsErrOf, None, OnErr, OnOk, length, option_map};
ghost use Rattle.std.specs.FinMap as map;
ghost use Rattle.file_store.specs.Fails.{FinishFails, IsAnswer, PutFails, ReadFails, RemoveFails, counted, next_fail, together};
ghost use Rattle.file_store.specs.Store.{HasFaultCause, KeepsOthers, MayLack, Reads, bytes_of, with_file, without_file};

use crate::files::{FileFault, Files};

/// How far the failing call gets.
#[derive(Clone, Copy, Debug, PartialEq, Eq)]
pub enum Fail {
    /// It does nothing.
    Before,
    /// A put writes the first half of its bytes, rounded down; any other call does nothing.
    Half,
    /// It does everything.
    After,
}

/// The number of the call that fails and how it fails, and the counts of calls and of failures.
#[derive(Clone, Copy, Debug)]
struct Counter {
    at: u64,
    how: Fail,
    calls: u64,
    faults: u64,
}

impl Counter {
    /// Counts a call, and answers how it fails, if it is the failing one.
    fn count(&mut self) -> Option<Fail>
        ensures fail { result ≡ next_fail self.old }
        ensures counted { self.new ≡ counted self.old }
    {
        let is_due = self.calls < u64::MAX && self.calls + 1 == self.at;
        self.calls = self.calls.saturating_add(1);
        if !is_due {
            return None;
        }
        self.faults = self.faults.saturating_add(1);
        Some(self.how)
    }
}

/// Files with one call that answers a device's fault, whatever the inner files answer. All other calls go to the inner
/// files. `begin`, `push` and `give_up` aren't counted, and are never the failing call. A `finish` that fails before it
/// is made, or halfway, gives its file up.
#[derive(Drop)]
pub struct FailAt<F> {
    inner: F,
    counter: Counter,
    inner_fault: Option<FileFault>,
}

impl<F: Files> FailAt<F> {
    /// Files whose call number `at` fails, counted from 1. With 0 no call fails.
    pub fn new(inner: F, at: u64, how: Fail) -> FailAt<F>
        ensures inner { result.inner ≡ inner }
        ensures counter { result.counter ≡ record { at = at; how = how; calls = 0; faults = 0 } }
        ensures inner_fault { result.inner_fault ≡ None }
    {
        let counter = Counter {
            at,
            how,
            calls: 0,
            faults: 0,
        };
        FailAt {
            inner,
            counter,
            inner_fault: None,
        }
    }

    /// How many calls of `put`, `finish`, `size`, `read_at`, `list` and `remove` there were; it stops at the greatest
    /// number.
    pub fn calls(&self) -> u64
        ensures { result ≡ self.now.counter.calls }
    {
        self.counter.calls
    }

    /// The fault that the inner files answered to the failing call, if it failed there too.
    pub fn inner_fault(&self) -> Option<FileFault>
        ensures { result ≡ self.now.inner_fault }
    {
        self.inner_fault
    }

    /// The inner files.
    pub fn into_inner(self) -> F
        ensures { result ≡ self.inner }
    {
        self.inner
    }
}

impl<F: Files> Files for FailAt<F> {
    ghost contents = { λ files. F.contents files.inner };

    ghost faults = { λ files. together (F.faults files.inner) files.counter.faults };

    ghost replaces = { ⊥ };

    type Writing = F::Writing;

    ghost writes_to = { λ writing. F.writes_to writing };

    ghost has = { λ writing bytes. F.has writing bytes };

    fn begin(&mut self, name: u64) -> Result<F::Writing, FileFault>
        ensures counter { self.new.counter ≡ self.old.counter }
        ensures named { IfOk result (λ writing. F.writes_to writing ≡ name) }
        ensures empty { IfOk result (λ writing. F.has writing []) }
        ensures same { F.contents self.new.inner ≡ F.contents self.old.inner }
        ensures cause { HasFaultCause
            (together (F.faults self.old.inner) self.old.counter.faults)
            (together (F.faults self.new.inner) self.new.counter.faults) result }
    {
        self.inner.begin(name)
    }

    fn push(&mut self, writing: &mut F::Writing, bytes: &[u8]) -> Result<(), FileFault>
        ensures counter { self.new.counter ≡ self.old.counter }
        ensures pushed { OnOk result ((before : List ℕ)
            → F.has writing.old before → F.has writing.new (before ++ bytes.now)) }
        ensures named { F.writes_to writing.new ≡ F.writes_to writing.old }
        ensures same { F.contents self.new.inner ≡ F.contents self.old.inner }
        ensures cause { HasFaultCause
            (together (F.faults self.old.inner) self.old.counter.faults)
            (together (F.faults self.new.inner) self.new.counter.faults) result }
    {
        self.inner.push(writing, bytes)
    }

    fn finish(&mut self, writing: F::Writing) -> Result<(), FileFault>
        ensures counted { self.new.counter ≡ counted self.old.counter }
        ensures answer { IsAnswer (next_fail self.old.counter)
            (F.faults self.old.inner) (F.faults self.new.inner) result }
        ensures failed { IfSome (next_fail self.old.counter) (λ how.
            FinishFails F.contents (F.has writing) how (F.writes_to writing)
            self.new.inner_fault self.old.inner self.new.inner) }
        ensures ok { OnOk result ((image : List ℕ) → F.has writing image
            → F.contents self.new.inner
            ≡ with_file (F.writes_to writing) image (F.contents self.old.inner)) }
        ensures others { KeepsOthers (F.writes_to writing)
            (F.contents self.old.inner) (F.contents self.new.inner) }
        ensures memory { IsErrOf result FileFault.Memory →
            F.contents self.new.inner ≡ F.contents self.old.inner }
        ensures cause { HasFaultCause
            (together (F.faults self.old.inner) self.old.counter.faults)
            (together (F.faults self.new.inner) self.new.counter.faults) result }
    {
        match self.counter.count() {
            None => self.inner.finish(writing),
            Some(Fail::Before | Fail::Half) => {
                self.inner.give_up(writing);
                Err(FileFault::Device)
            }
            Some(Fail::After) => {
                self.inner_fault = self.inner.finish(writing).err();
                Err(FileFault::Device)
            }
        }
    }

    fn give_up(&mut self, writing: F::Writing)
        ensures counter { self.new.counter ≡ self.old.counter }
        ensures same { F.contents self.new.inner ≡ F.contents self.old.inner }
        ensures told { F.faults self.new.inner ≡ F.faults self.old.inner }
    {
        self.inner.give_up(writing);
    }

    fn put(&mut self, name: u64, bytes: &[u8]) -> Result<(), FileFault>
        ensures counted { self.new.counter ≡ counted self.old.counter }
        ensures answer { IsAnswer (next_fail self.old.counter)
            (F.faults self.old.inner) (F.faults self.new.inner) result }
        ensures failed { IfSome (next_fail self.old.counter) (λ how.
            PutFails F.contents how name bytes.now self.new.inner_fault
            self.old.inner self.new.inner) }
        ensures ok { OnOk result (F.contents self.new.inner
            ≡ with_file name bytes.now (F.contents self.old.inner)) }
        ensures err { OnErr result (KeepsOthers name
            (F.contents self.old.inner) (F.contents self.new.inner)) }
        ensures memory { IsErrOf result FileFault.Memory →
            F.contents self.new.inner ≡ F.contents self.old.inner }
        ensures cause { HasFaultCause
            (together (F.faults self.old.inner) self.old.counter.faults)
            (together (F.faults self.new.inner) self.new.counter.faults) result }
    {
        match self.counter.count() {
            None => self.inner.put(name, bytes),
            Some(Fail::Before) => Err(FileFault::Device),
            Some(Fail::Half) => {
                let half = &bytes[..bytes.len() / 2];
                self.inner_fault = self.inner.put(name, half).err();
                Err(FileFault::Device)
            }
            Some(Fail::After) => {
                self.inner_fault = self.inner.put(name, bytes).err();
                Err(FileFault::Device)
            }
        }
    }

    fn size(&mut self, name: u64) -> Result<Option<u64>, FileFault>
        ensures counted { self.new.counter ≡ counted self.old.counter }
        ensures answer { IsAnswer (next_fail self.old.counter)
            (F.faults self.old.inner) (F.faults self.new.inner) result }
        ensures failed { IfSome (next_fail self.old.counter) (λ how.
            ReadFails F.contents how self.old.inner self.new.inner) }
        ensures ok { IfOk result (λ size. IfSome (F.contents self.old.inner) (λ m.
            size ≡ option_map length (map.get m name))) }
        ensures same { F.contents self.new.inner ≡ F.contents self.old.inner }
        ensures cause { HasFaultCause
            (together (F.faults self.old.inner) self.old.counter.faults)
            (together (F.faults self.new.inner) self.new.counter.faults) result }
    {
        match self.counter.count() {
            None => self.inner.size(name),
            Some(Fail::Before | Fail::Half) => Err(FileFault::Device),
            Some(Fail::After) => {
                self.inner_fault = self.inner.size(name).err();
                Err(FileFault::Device)
            }
        }
    }

    fn read_at(&mut self, name: u64, offset: u64, out: &mut [u8]) -> Result<usize, FileFault>
        ensures counted { self.new.counter ≡ counted self.old.counter }
        ensures answer { IsAnswer (next_fail self.old.counter)
            (F.faults self.old.inner) (F.faults self.new.inner) result }
        ensures failed { IfSome (next_fail self.old.counter) (λ how.
            ReadFails F.contents how self.old.inner self.new.inner) }
        ensures within { IfOk result (λ n. n ≤ length out.old) }
        ensures ok { IfOk result (λ n. IfSome (F.contents self.old.inner) (λ m.
            Reads (bytes_of m name) offset out.old out.new n)) }
        ensures same { F.contents self.new.inner ≡ F.contents self.old.inner }
        ensures cause { HasFaultCause
            (together (F.faults self.old.inner) self.old.counter.faults)
            (together (F.faults self.new.inner) self.new.counter.faults) result }
    {
        match self.counter.count() {
            None => self.inner.read_at(name, offset, out),
            Some(Fail::Before | Fail::Half) => Err(FileFault::Device),
            Some(Fail::After) => {
                self.inner_fault = self.inner.read_at(name, offset, out).err();
                Err(FileFault::Device)
            }
        }
    }

    fn list(&mut self, names: &mut Vec<u64>) -> Result<(), FileFault>
        ensures counted { self.new.counter ≡ counted self.old.counter }
        ensures answer { IsAnswer (next_fail self.old.counter)
            (F.faults self.old.inner) (F.faults self.new.inner) result }
        ensures failed { IfSome (next_fail self.old.counter) (λ how.
            ReadFails F.contents how self.old.inner self.new.inner) }
        ensures ok { OnOk result (IfSome (F.contents self.old.inner) (λ m.
            names.new.items ≡ names.old.items ++ map.keys m)) }
        ensures err { OnErr result (names.new.items ≡ names.old.items) }
        ensures same { F.contents self.new.inner ≡ F.contents self.old.inner }
        ensures cause { HasFaultCause
            (together (F.faults self.old.inner) self.old.counter.faults)
            (together (F.faults self.new.inner) self.new.counter.faults) result }
    {
        match self.counter.count() {
            None => self.inner.list(names),
            Some(Fail::Before | Fail::Half) => Err(FileFault::Device),
            Some(Fail::After) => {
                let mut unseen = Vec::new(*names.allocator());
                self.inner_fault = self.inner.list(&mut unseen).err();
                Err(FileFault::Device)
            }
        }
    }

    fn remove(&mut self, name: u64) -> Result<(), FileFault>
        ensures counted { self.new.counter ≡ counted self.old.counter }
        ensures answer { IsAnswer (next_fail self.old.counter)
            (F.faults self.old.inner) (F.faults self.new.inner) result }
        ensures failed { IfSome (next_fail self.old.counter) (λ how.
            RemoveFails F.contents how name self.new.inner_fault
            self.old.inner self.new.inner) }
        ensures ok { OnOk result (F.contents self.new.inner
            ≡ without_file name (F.contents self.old.inner)) }
        ensures err { OnErr result (MayLack name
            (F.contents self.old.inner) (F.contents self.new.inner)) }
        ensures cause { HasFaultCause
            (together (F.faults self.old.inner) self.old.counter.faults)
            (together (F.faults self.new.inner) self.new.counter.faults) result }
    {
        match self.counter.count() {
            None => self.inner.remove(name),
            Some(Fail::Before | Fail::Half) => Err(FileFault::Device),
            Some(Fail::After) => {
                self.inner_fault = self.inner.remove(name).err();
                Err(FileFault::Device)
            }
        }
    }

    fn faults(&self) -> u64
        ensures { result ≡ together (F.faults self.now.inner) self.now.counter.faults }
    {
        self.inner.faults().saturating_add(self.counter.faults)
    }
}
