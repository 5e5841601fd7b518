//! Files in pieces with checksums, over other files.

ghost use Rattle.std.specs.Prelude.{◌≡◌, ◌≤◌, ◌<◌, ◌+◌, ◌*◌, ◌/◌, ◌^◌, ◌++◌, ◌||◌, ℕ, List, true, false, IfErr, IfOk, IfSome, IsErrOf, IsTrue, OnErr, OnOk, drop, length, option_map};
ghost use Rattle.std.specs.BTreeSet.{IsOrdered, contains};
ghost use Rattle.std.specs.FinMap as map;
ghost use Rattle.std.specs.List.{list_any};
ghost use Rattle.std.specs.Ordering.{nat_cmp};
ghost use Rattle.file_store.specs.Fails.{together};
ghost use Rattle.file_store.specs.Store.{HasFaultCause, KeepsOthers, MayHaveFile, MayLack, Reads, bytes_of, with_file};
ghost use Rattle.file_sums.specs.Pieces.{piece, pieces};
ghost use Rattle.file_sums.specs.Shown.{KeepsAll, KeepsBut, all_shown, is_summed_as, payload_of, shows, sums_in};

use crate::pieces::{MOST_PAYLOAD, MOST_PIECE, payload_in};
use crate::runs::{copy_payload, last_pieces, whole_pieces};
use file_store::{FileFault, Files};
use std::alloc::{AllocError, Global};
use std::collections::BTreeSet;
use std::marker::Model;

/// What is added to a file's number where the inner files keep it in format 3. All numbers of files are below.
const SUMMED: u64 = 1 << 63;

/// The most pieces of a file.
const MOST_PIECES: u64 = 1 << 52;

/// Files over other files, in format 3: in pieces, each with a checksum. Bytes that changed by themselves, a file that
/// was cut, and pieces or files that took each other's place are answered `Device`, and never as values.
///
/// A file with the number n is kept by the inner files under n + 2^63. Files that were there before, under n itself, are
/// read as they are, without checksums, until they are put again. If both are there, the one under n + 2^63 counts.
///
/// A number from 2^63 on is no file's: no file of it is found, and to begin one is answered `Device`.
#[derive(Drop)]
pub struct SumFiles<F> {
    alloc: Global,
    inner: F,
    /// The numbers of the files of format 3.
    summed: BTreeSet<u64>,
    /// The numbers of files of which a `finish` failed: until they are put or removed well, reads of them fail.
    doubts: BTreeSet<u64>,
    faults: u64,
}

/// A file of format 3 that is being written.
#[derive(Drop)]
pub struct SumWriting<F: Files> {
    file: F::Writing,
    name: u64,
    /// How many pieces were pushed.
    count: u64,
    /// The payload behind them.
    waiting: Vec<u8>,
}

impl<F: Files> Model for SumWriting<F> {
    ghost use Rattle.std.specs.Prelude.{◌≡◌, ◌<◌, ◌+◌, ◌^◌};
    ghost use Rattle.file_sums.specs.Written.{WritingState};

    ghost Value = { WritingState F.Writing };

    ghost view = { λ writing.
        record {
          file = writing.file;
          name = writing.name;
          count = writing.count;
          waiting = writing.waiting.items;
        } };

    ghost invariant = { λ writing.
        (writing.name < 2 ^ 63) × (F.writes_to writing.file ≡ writing.name + 2 ^ 63) };
}

impl<F: Files> SumFiles<F> {
    /// The files that these files keep. Their names are read once.
    ///
    /// # Errors
    ///
    /// Those of `list`, with the inner files.
    pub fn open(alloc: Global, inner: F) -> Result<SumFiles<F>, (FileFault, F)>
        ensures inner { IfOk result (λ files. F.contents files.inner ≡ F.contents inner) }
        ensures summed { IfOk result (λ files. IfSome (F.contents inner) (λ m. (q : ℕ)
            → contains nat_cmp files.summed q
            ≡ list_any (λ name. is_summed_as name q) (map.keys m))) }
        ensures refused { IfErr result (λ refused.
            F.contents refused.1 ≡ F.contents inner) }
    {
        let mut inner = inner;
        let mut names = Vec::new(alloc);
        if let Err(fault) = inner.list(&mut names) {
            return Err((fault, inner));
        }
        match summed_of(alloc, &names) {
            Ok(summed) => Ok(SumFiles {
                alloc,
                inner,
                summed,
                doubts: BTreeSet::new(alloc),
                faults: 0,
            }),
            Err(_) => Err((FileFault::Memory, inner)),
        }
    }

    /// The inner files.
    pub fn into_inner(self) -> F
        ensures { result ≡ self.inner }
    {
        self.inner
    }

    /// A result, which is counted if it is a device's fault.
    fn count_fault<T: Drop>(&mut self, read: Result<T, FileFault>) -> Result<T, FileFault>
        ensures same { result ≡ read }
        ensures inner { self.new.inner ≡ self.old.inner }
        ensures summed { self.new.summed ≡ self.old.summed }
        ensures cause { HasFaultCause (together (F.faults self.old.inner) self.old.faults)
            (together (F.faults self.new.inner) self.new.faults) result }
    {
        if matches!(read, Err(FileFault::Device)) {
            self.faults = self.faults.saturating_add(1);
        }
        read
    }

    /// Pushes the last pieces of a file.
    fn push_last(
        &mut self,
        writing: &mut F::Writing,
        stored: u64,
        count: u64,
        waiting: &[u8],
    ) -> Result<(), FileFault>
        ensures pushed { OnOk result ((before : List ℕ) → F.has writing.old before
            → F.has writing.new
            (before ++ pieces stored count waiting.now (length waiting.now / 1024 + 1))) }
        ensures named { F.writes_to writing.new ≡ F.writes_to writing.old }
        ensures same { F.contents self.new.inner ≡ F.contents self.old.inner }
        ensures summed { self.new.summed ≡ self.old.summed }
        ensures cause { HasFaultCause (together (F.faults self.old.inner) self.old.faults)
            (together (F.faults self.new.inner) self.new.faults) result }
    {
        if count > MOST_PIECES {
            return Err(FileFault::Memory);
        }
        let out = last_pieces(self.alloc, stored, count, waiting)?;
        self.inner.push(writing, &out)
    }

    /// Notes that a file is put: that it is of format 3, and in doubt until it is done. Answers whether there was memory
    /// for it; if not, nothing is noted of its format.
    fn expect(&mut self, name: u64) -> bool
        ensures noted { IsTrue result → contains nat_cmp self.new.summed name ≡ true }
        ensures others { KeepsBut name (contains nat_cmp self.old.summed)
            (contains nat_cmp self.new.summed) }
        ensures refused { result ≡ false →
            KeepsAll (contains nat_cmp self.old.summed) (contains nat_cmp self.new.summed) }
        ensures inner { self.new.inner ≡ self.old.inner }
        ensures faults { self.new.faults ≡ self.old.faults }
    {
        if self.doubts.insert(name).is_err() {
            return false;
        }
        self.summed.insert(name).is_ok()
    }

    /// Takes back that a file is of format 3, if it wasn't, and that it is in doubt, if it isn't.
    fn take_back(&mut self, name: u64, was_summed: bool, is_in_doubt: bool)
        ensures removed { was_summed ≡ false → (contains nat_cmp self.new.summed name ≡ false)
            × KeepsBut name (contains nat_cmp self.old.summed) (contains nat_cmp self.new.summed) }
        ensures kept { was_summed ≡ true →
            KeepsAll (contains nat_cmp self.old.summed) (contains nat_cmp self.new.summed) }
        ensures inner { self.new.inner ≡ self.old.inner }
        ensures faults { self.new.faults ≡ self.old.faults }
    {
        if !is_in_doubt {
            let _ = self.doubts.remove(&name);
        }
        if !was_summed {
            let _ = self.summed.remove(&name);
        }
    }

    /// Puts a file that has all its pieces in its place, and removes one of an earlier format.
    fn place(&mut self, name: u64, file: F::Writing) -> Result<(), FileFault>
        requires low { name < 2 ^ 63 }
        requires named { F.writes_to file ≡ name + 2 ^ 63 }
        ensures ok { OnOk result ((image : List ℕ) → F.has file image
            → all_shown (sums_in self.new.summed) (F.contents self.new.inner)
            ≡ with_file name (payload_of image)
            (all_shown (sums_in self.old.summed) (F.contents self.old.inner))) }
        ensures others { KeepsOthers name
            (all_shown (sums_in self.old.summed) (F.contents self.old.inner))
            (all_shown (sums_in self.new.summed) (F.contents self.new.inner)) }
        ensures whole { F.replaces → OnErr result ((image : List ℕ) → F.has file image
            → MayHaveFile name (payload_of image)
            (all_shown (sums_in self.old.summed) (F.contents self.old.inner))
            (all_shown (sums_in self.new.summed) (F.contents self.new.inner))) }
        ensures memory { IsErrOf result FileFault.Memory
            → all_shown (sums_in self.new.summed) (F.contents self.new.inner)
            ≡ all_shown (sums_in self.old.summed) (F.contents self.old.inner) }
        ensures cause { HasFaultCause (together (F.faults self.old.inner) self.old.faults)
            (together (F.faults self.new.inner) self.new.faults) result }
    {
        let was_summed = self.summed.contains(&name);
        let was_in_doubt = self.doubts.contains(&name);
        if !self.expect(name) {
            self.inner.give_up(file);
            return Err(FileFault::Memory);
        }
        if let Err(fault) = self.inner.finish(file) {
            let is_in_doubt = was_in_doubt || fault == FileFault::Device;
            self.take_back(name, was_summed, is_in_doubt);
            return Err(fault);
        }
        let _ = self.doubts.remove(&name);
        self.remove_plain(name)
    }

    /// Removes the file of this number that is not of format 3, which no longer counts. It may stay without memory.
    fn remove_plain(&mut self, name: u64) -> Result<(), FileFault>
        ensures may { MayLack name (F.contents self.old.inner) (F.contents self.new.inner) }
        ensures summed { self.new.summed ≡ self.old.summed }
        ensures told { ¬ IsErrOf result FileFault.Memory }
        ensures cause { HasFaultCause (together (F.faults self.old.inner) self.old.faults)
            (together (F.faults self.new.inner) self.new.faults) result }
    {
        match self.inner.remove(name) {
            Err(FileFault::Device) => Err(FileFault::Device),
            Ok(()) | Err(FileFault::Memory) => Ok(()),
        }
    }

    /// The size of the payload of a file of format 3, if it exists. Its last piece is read.
    ///
    /// # Errors
    ///
    /// `Device` also if its end is not the last piece.
    fn size_of_pieces(&mut self, stored: u64) -> Result<Option<u64>, FileFault>
        ensures size { IfOk result (λ size. IfSome (F.contents self.old.inner) (λ m.
            size ≡ option_map (λ bytes. length (payload_of bytes)) (map.get m stored))) }
        ensures same { F.contents self.new.inner ≡ F.contents self.old.inner }
        ensures summed { self.new.summed ≡ self.old.summed }
        ensures cause { HasFaultCause (together (F.faults self.old.inner) self.old.faults)
            (together (F.faults self.new.inner) self.new.faults) result }
    {
        let Some(size) = self.inner.size(stored)? else {
            return Ok(None);
        };
        let count = size / MOST_PIECE as u64;
        let mut last = [0; MOST_PIECE];
        let len = self
            .inner
            .read_at(stored, count * MOST_PIECE as u64, &mut last)?;
        let found = last_size(stored, count, &last[..len]);
        let size = self.count_fault(found)?;
        Ok(Some(size))
    }

    /// Reads from an offset of a file of format 3 where no piece is. Answers 0 if the file ends before.
    ///
    /// # Errors
    ///
    /// `Device` also if the file was cut.
    fn read_behind(&mut self, stored: u64, offset: u64) -> Result<usize, FileFault>
        ensures none { IfOk result (λ n. n ≡ 0) }
        ensures end { OnOk result (IfSome (F.contents self.old.inner) (λ m.
            length (payload_of (bytes_of m stored)) ≤ offset)) }
        ensures same { F.contents self.new.inner ≡ F.contents self.old.inner }
        ensures summed { self.new.summed ≡ self.old.summed }
        ensures cause { HasFaultCause (together (F.faults self.old.inner) self.old.faults)
            (together (F.faults self.new.inner) self.new.faults) result }
    {
        match self.size_of_pieces(stored)? {
            Some(size) if size > offset => self.count_fault(Err(FileFault::Device)),
            _ => Ok(0),
        }
    }

    /// Reads from an offset of a file of format 3 into a buffer, and answers how many bytes were read.
    ///
    /// # Errors
    ///
    /// `Device` also if a piece that is read is not as it was written.
    fn read_pieces(&mut self, stored: u64, offset: u64, out: &mut [u8]) -> Result<usize, FileFault>
        ensures within { IfOk result (λ n. n ≤ length out.old) }
        ensures read { IfOk result (λ n. IfSome (F.contents self.old.inner) (λ m.
            Reads (payload_of (bytes_of m stored)) offset out.old out.new n)) }
        ensures same { F.contents self.new.inner ≡ F.contents self.old.inner }
        ensures summed { self.new.summed ≡ self.old.summed }
        ensures cause { HasFaultCause (together (F.faults self.old.inner) self.old.faults)
            (together (F.faults self.new.inner) self.new.faults) result }
    {
        let first = offset / MOST_PAYLOAD as u64;
        let skip = (offset % MOST_PAYLOAD as u64) as usize;
        if out.is_empty() {
            return Ok(0);
        }
        if first > MOST_PIECES {
            return self.read_behind(stored, offset);
        }
        let count = (skip + out.len() - 1) / MOST_PAYLOAD + 1;
        let mut bytes = vec![in self.alloc; 0; count * MOST_PIECE]?;
        let len = self
            .inner
            .read_at(stored, first * MOST_PIECE as u64, &mut bytes)?;
        if len == 0 {
            return self.read_behind(stored, offset);
        }
        let ends = len < bytes.len();
        let read = copy_payload(self.alloc, stored, first, &bytes[..len], ends, skip, out);
        self.count_fault(read)
    }

    /// Fails if a `finish` of this file failed.
    fn check_doubt(&mut self, name: u64) -> Result<(), FileFault>
        ensures inner { self.new.inner ≡ self.old.inner }
        ensures summed { self.new.summed ≡ self.old.summed }
        ensures cause { HasFaultCause (together (F.faults self.old.inner) self.old.faults)
            (together (F.faults self.new.inner) self.new.faults) result }
    {
        if self.doubts.contains(&name) {
            return self.count_fault(Err(FileFault::Device));
        }
        Ok(())
    }
}

/// The size of the payload of a file whose last piece has this number and these bytes.
///
/// # Errors
///
/// `Device` if they are no last piece.
fn last_size(stored: u64, count: u64, bytes: &[u8]) -> Result<u64, FileFault>
    requires { count * 1030 < 2 ^ 64 }
    ensures { IfOk result (λ size. (payload : List ℕ)
        × (bytes.now ≡ piece stored count payload) × (size ≡ count * 1024 + length payload)) }
{
    match payload_in(stored, count, bytes) {
        Some(payload) if payload.len() < MOST_PAYLOAD => {
            Ok(count * MOST_PAYLOAD as u64 + payload.len() as u64)
        }
        _ => Err(FileFault::Device),
    }
}

/// Adds the number of the file that is shown for the file below of this name, if there is one.
fn add_shown(shown: &mut BTreeSet<u64>, name: u64, summed: &BTreeSet<u64>) -> Result<(), AllocError>
    ensures { OnOk result ((q : ℕ) → contains nat_cmp shown.new q
        ≡ (shows (sums_in summed.now) name q || contains nat_cmp shown.old q)) }
{
    if name < SUMMED {
        if !summed.contains(&name) {
            let _ = shown.insert(name)?;
        }
        return Ok(());
    }
    if summed.contains(&(name - SUMMED)) {
        let _ = shown.insert(name - SUMMED)?;
    }
    Ok(())
}

/// The numbers of the files that are shown for the files below of these names.
fn shown_of(
    alloc: Global,
    names: &[u64],
    summed: &BTreeSet<u64>,
) -> Result<BTreeSet<u64>, AllocError>
    ensures { IfOk result (λ shown. (q : ℕ) → contains nat_cmp shown q
        ≡ list_any (λ name. shows (sums_in summed.now) name q) names.now) }
{
    let mut shown = BTreeSet::new(alloc);
    for name in names {
        add_shown(&mut shown, *name, summed)?;
    }
    Ok(shown)
}

/// Appends numbers in ascending order. After an `Err` the list is unchanged.
fn append_all(names: &mut Vec<u64>, numbers: &BTreeSet<u64>) -> Result<(), AllocError>
    ensures ok { OnOk result (names.new.items ≡ names.old.items ++ numbers.now.keys) }
    ensures ordered { IsOrdered nat_cmp numbers.now }
    ensures err { OnErr result (names.new.items ≡ names.old.items) }
{
    names.reserve(numbers.len())?;
    for number in numbers.iter() {
        names.push_reserved(*number);
    }
    Ok(())
}

impl<F: Files> Files for SumFiles<F> {
    type Writing = SumWriting<F>;

    ghost writes_to = { λ writing. writing.name };

    ghost has = { λ writing bytes.
        F.has writing.file (pieces (writing.name + 2 ^ 63) 0 bytes writing.count)
        × (writing.waiting ≡ drop (writing.count * 1024) bytes)
        × (writing.count * 1024 ≤ length bytes) };

    ghost contents = { λ files.
        all_shown (sums_in files.summed) (F.contents files.inner) };

    ghost faults = { λ files. together (F.faults files.inner) files.faults };

    ghost replaces = { F.replaces };

    fn begin(&mut self, name: u64) -> Result<SumWriting<F>, FileFault> {
        if name >= SUMMED {
            return self.count_fault(Err(FileFault::Device));
        }
        let file = self.inner.begin(name + SUMMED)?;
        Ok(SumWriting {
            file,
            name,
            count: 0,
            waiting: Vec::new(self.alloc),
        })
    }

    fn push(&mut self, writing: &mut SumWriting<F>, bytes: &[u8]) -> Result<(), FileFault> {
        if writing.count > MOST_PIECES {
            return Err(FileFault::Memory);
        }
        let stored = writing.name + SUMMED;
        writing.waiting.extend_from_slice(bytes)?;
        let waiting = writing.waiting.as_slice();
        let (out, rest) = whole_pieces(self.alloc, stored, writing.count, waiting)?;
        let count = (waiting.len() / MOST_PAYLOAD) as u64;
        let rest = Vec::from_slice(self.alloc, rest)?;
        self.inner.push(&mut writing.file, &out)?;
        writing.count += count;
        writing.waiting = rest;
        Ok(())
    }

    fn finish(&mut self, writing: SumWriting<F>) -> Result<(), FileFault> {
        let SumWriting {
            mut file,
            name,
            count,
            waiting,
        } = writing;
        if let Err(fault) = self.push_last(&mut file, name + SUMMED, count, &waiting) {
            self.inner.give_up(file);
            return Err(fault);
        }
        self.place(name, file)
    }

    fn give_up(&mut self, writing: SumWriting<F>) {
        self.inner.give_up(writing.file);
    }

    fn size(&mut self, name: u64) -> Result<Option<u64>, FileFault> {
        if name >= SUMMED {
            return Ok(None);
        }
        self.check_doubt(name)?;
        if self.summed.contains(&name) {
            return self.size_of_pieces(name + SUMMED);
        }
        self.inner.size(name)
    }

    fn read_at(&mut self, name: u64, offset: u64, out: &mut [u8]) -> Result<usize, FileFault> {
        if name >= SUMMED {
            return Ok(0);
        }
        self.check_doubt(name)?;
        if self.summed.contains(&name) {
            return self.read_pieces(name + SUMMED, offset, out);
        }
        self.inner.read_at(name, offset, out)
    }

    fn list(&mut self, names: &mut Vec<u64>) -> Result<(), FileFault> {
        let mut found = Vec::new(self.alloc);
        self.inner.list(&mut found)?;
        let shown = shown_of(self.alloc, &found, &self.summed)?;
        append_all(names, &shown)?;
        Ok(())
    }

    fn remove(&mut self, name: u64) -> Result<(), FileFault> {
        if name >= SUMMED {
            return Ok(());
        }
        self.inner.remove(name)?;
        self.inner.remove(name + SUMMED)?;
        let _ = self.summed.remove(&name);
        let _ = self.doubts.remove(&name);
        Ok(())
    }

    fn faults(&self) -> u64 {
        self.inner.faults().saturating_add(self.faults)
    }
}

/// Adds the number of the file of format 3 that the inner files keep under this name, if it is one.
fn add_summed(summed: &mut BTreeSet<u64>, name: u64) -> Result<(), AllocError>
    ensures { OnOk result ((q : ℕ) → contains nat_cmp summed.new q
        ≡ (is_summed_as name q || contains nat_cmp summed.old q)) }
{
    if name >= SUMMED {
        let _ = summed.insert(name - SUMMED)?;
    }
    Ok(())
}

/// The numbers of the files of format 3 among the names of the inner files.
fn summed_of(alloc: Global, names: &[u64]) -> Result<BTreeSet<u64>, AllocError>
    ensures { IfOk result (λ summed. (q : ℕ) → contains nat_cmp summed q
        ≡ list_any (λ name. is_summed_as name q) names.now) }
{
    let mut summed = BTreeSet::new(alloc);
    for name in names {
        add_summed(&mut summed, *name)?;
    }
    Ok(summed)
}
