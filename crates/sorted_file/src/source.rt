//! Sources, which give entries one after another, and reads of parts of files.

ghost use Rattle.std.specs.Prelude.{◌≡◌, ◌≤◌, ◌+◌, ℕ, List, Option, option_map, is_some, IfOk, OnOk, IsErrOf, IfErr, IfSome, if◌then◌else◌, length, ◌<◌, IsOkUnless};
ghost use Rattle.cell_key.specs.Entries.{Entry, IsEntryList, Takes, lent_entry};
ghost use Rattle.cell_key.specs.Faults.{HasReason};
ghost use Rattle.file_store.specs.Store.{Contents, Reads, bytes_of, part};
ghost use Rattle.sorted_file.specs.Index.{Tells};
ghost use Rattle.sorted_file.specs.Source.{ReadsFiles, IsReadRefusal, pending, fault_refusal};

use cell_key::{EntryRef, Refusal};
use file_store::{FileFault, Files};
use std::alloc::Global;

/// Entries, one after another. A source cannot be used after an `Err` of `advance`: the contract then speaks only of
/// the files, the count of faults and damage.
pub trait Source<F: Files> {
    /// If it holds over the files' contents, the source stands for a list of entries. For a source that reads no files
    /// the contents don't matter.
    ghost holds: { Option Contents → Self → Type 0 };

    /// The entries that it has not reached.
    ghost remaining: { Option Contents → Self → List Entry };

    /// Its current entry.
    ghost lent: { Self → Option Entry };

    /// A step of the source from the first state to the second over these contents, through bytes that are entries,
    /// whatever was there before.
    ghost steps: { Option Contents → Self → Self → Type 0 };

    /// Over these contents its entries break off behind its current entry: the bytes there are no entries.
    ghost breaks: { Option Contents → Self → Type 0 };

    /// An upper bound of the number of entries that it can still reach, whatever the files give.
    ghost left: { Self → ℕ };

    /// Goes to the next entry, and answers whether there is one. Answers `Device` if a device fails, `NoMemory` if
    /// there is no memory, and `Damaged` only if the files don't hold the entries that the source stands for, and its
    /// entries break off at its place.
    fn advance(&mut self, files: &mut F) -> Result<bool, Refusal>
        ensures files { F.contents files.new ≡ F.contents files.old }
        ensures reason { HasReason (F.faults files.old) (F.faults files.new) result }
        ensures refusal { IfErr result IsReadRefusal }
        ensures damaged { IsErrOf result Refusal.Damaged → ¬ holds (F.contents files.old) self.old }
        ensures broken { IsErrOf result Refusal.Damaged → breaks (F.contents files.old) self.old }
        ensures more { IfOk result (λ more. more ≡ is_some (lent self.new)) }
        ensures lower { IfOk result (λ more.
            left self.new + (if more then 1 else 0) ≤ left self.old) }
        ensures steps { OnOk result (steps (F.contents files.old) self.old self.new) }
        ensures holds { OnOk result (holds (F.contents files.old) self.old
            → holds (F.contents files.old) self.new) }
        ensures takes { OnOk result (holds (F.contents files.old) self.old
            → Takes (lent self.new) (remaining (F.contents files.old) self.old)
            (remaining (F.contents files.old) self.new)) };

    /// Its current entry.
    fn current(&self) -> Option<EntryRef<'_>>
        ensures { option_map lent_entry result ≡ lent self.now };

    ghost list: { (disk : Option Contents) (s : Self) → holds disk s
        → IsEntryList (pending (lent s) (remaining disk s)) };
}

/// The refusal for a fault of files.
pub fn refusal_of(fault: FileFault) -> Refusal
    ensures { result ≡ fault_refusal fault }
{
    match fault {
        FileFault::Device => Refusal::Device,
        FileFault::Memory => Refusal::NoMemory,
    }
}

/// Reads a file from an offset into a buffer, up to the buffer's length, and answers how many bytes were read.
fn read_into<F: Files>(
    name: u64,
    offset: u64,
    buffer: &mut [u8],
    files: &mut F,
) -> Result<usize, Refusal>
    ensures within { IfOk result (λ n. n ≤ length buffer.old) }
    ensures read { IfOk result (λ n. (image : List ℕ) → Tells (F.contents files.old) name image
        → Reads image offset buffer.old buffer.new n) }
    ensures now { IfOk result (λ n. IfSome (F.contents files.old) (λ m.
        Reads (bytes_of m name) offset buffer.old buffer.new n)) }
    ensures sound { ¬ IsErrOf result Refusal.Damaged }
    ensures reads { ReadsFiles F.contents F.faults files.old files.new result }
{
    files.read_at(name, offset, buffer).map_err(refusal_of)
}

/// Any `len` bytes, in the memory of `room` if they fit there. Answers `NoMemory` if there is no memory.
fn with_length(room: Vec<u8>, len: usize) -> Result<Vec<u8>, Refusal>
    ensures length { IfOk result (λ bytes. length bytes.items ≡ len) }
    ensures refusal { IsOkUnless result Refusal.NoMemory }
{
    let mut bytes = room;
    if bytes.capacity() < len {
        bytes.clear();
        bytes.reserve_exact(len)?;
    }
    bytes.resize(len, 0)?;
    Ok(bytes)
}

/// `len` bytes of a file from an offset on, in the memory of `room` if they fit there. Answers `Damaged` if the file ends
/// before that, `Device` if a device fails, and `NoMemory` if there is no memory.
pub(crate) fn read_part<F: Files>(
    room: Vec<u8>,
    name: u64,
    offset: u64,
    len: u64,
    files: &mut F,
) -> Result<Vec<u8>, Refusal>
    ensures part { IfOk result (λ bytes. (image : List ℕ)
        → Tells (F.contents files.old) name image → bytes.items ≡ part image offset len) }
    ensures now { IfOk result (λ bytes. IfSome (F.contents files.old) (λ m.
        bytes.items ≡ part (bytes_of m name) offset len)) }
    ensures length { IfOk result (λ bytes. length bytes.items ≡ len) }
    ensures damaged { IsErrOf result Refusal.Damaged → (image : List ℕ)
        → Tells (F.contents files.old) name image → length image < offset + len }
    ensures short { IsErrOf result Refusal.Damaged → IfSome (F.contents files.old) (λ m.
        length (part (bytes_of m name) offset len) < len) }
    ensures reads { ReadsFiles F.contents F.faults files.old files.new result }
{
    let mut bytes = with_length(room, len as usize)?;
    let read = read_into(name, offset, &mut bytes, files)?;
    if read < len as usize {
        return Err(Refusal::Damaged);
    }
    Ok(bytes)
}
