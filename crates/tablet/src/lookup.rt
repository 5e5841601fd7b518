//! Look-ups in a memtable and files: of one version, and of the newest entry of a column (Bigtable, tablet serving).

ghost use Rattle.std.specs.Prelude.{◌≡◌, ◌≤◌, ◌<◌, ◌^◌, ◌∷◌, option_map, map, length, IfOk, IfErr, IfSome, IsErrOf};
ghost use Rattle.std.specs.Option.{option_copied};
ghost use Rattle.std.specs.List.{AllByRecursion, AllZip};
ghost use Rattle.cell_key.specs.Entries.{first_naming, merged, value_of};
ghost use Rattle.cell_key.specs.Keys.{text};
ghost use Rattle.file_store.specs.Store.{Contents};
ghost use Rattle.sorted_file.specs.File.{IsOpen, IsSameFile, listed};
ghost use Rattle.sorted_file.specs.Source.{ReadsFiles};
ghost use Rattle.sorted_file.specs.Newest.{IsNewestEntry, IsShortValue, found_bytes};
ghost use Rattle.tablet.specs.Reads.{IsValue};
ghost use Rattle.tablet.specs.Gathering.{IsGatheringRefusal};

use crate::open_files::OpenFiles;
use cell_key::{Refusal, Stamp};
use file_store::Files;
use memtable::Memtable;
use sorted_file::{LookupKey, SortedFile};
use std::alloc::Global;

/// The most bytes of a value.
const MOST_VALUE: usize = 65_536;

/// A copy of a value, if there is one. Answers `Damaged` if it is longer than a value may be, and `NoMemory` if there
/// is no memory for the copy.
pub(crate) fn copy_value(alloc: Global, value: Option<&[u8]>) -> Result<Option<Vec<u8>>, Refusal>
    ensures copy { IfOk result (λ copy.
        option_map (λ bytes. bytes.items) copy ≡ option_copied value.entry) }
    ensures short { IfOk result (λ copy. IfSome copy (λ bytes. length bytes.items ≤ 65536)) }
    ensures damaged { IsErrOf result Refusal.Damaged
        → ¬ IfSome (option_copied value.entry) IsValue }
    ensures refusal { IfErr result IsGatheringRefusal }
{
    let Some(value) = value else {
        return Ok(None);
    };
    if value.len() > MOST_VALUE {
        return Err(Refusal::Damaged);
    }
    let copy = Vec::from_slice(alloc, value)?;
    Ok(Some(copy))
}

/// The newest entry of the key's column in some files, at a stamp from `lo` to the key's: its stamp, and its value or
/// `None` for an erasure. Where several files have an entry at this stamp, the first of them, which is the newest,
/// decides. The files are unchanged.
pub(crate) fn newest<F: Files>(
    files: &mut [SortedFile],
    key: &LookupKey,
    lo: Stamp,
    store: &mut F,
) -> Result<Option<(Stamp, Option<Vec<u8>>)>, Refusal>
    requires { key.now.stamp < 2 ^ 63 }
    ensures found { IfOk result (λ found. IfSome (F.contents store.old) (λ m.
        AllByRecursion (IsOpen m) files.old → IsNewestEntry (merged (map (listed m) files.old))
        key.now lo (option_map found_bytes found))) }
    ensures within { IfOk result (λ found.
        IfSome found (λ entry. (lo ≤ entry.0) × (entry.0 ≤ key.now.stamp))) }
    ensures short { IfOk result (λ found. IfSome found (λ entry. IsShortValue entry.1)) }
    ensures stay { AllZip (IsSameFile (F.contents store.old)) files.old files.new }
    ensures damaged { IsErrOf result Refusal.Damaged → IfSome (F.contents store.old)
        (λ m. ¬ AllByRecursion (IsOpen m) files.old) }
    ensures reads { ReadsFiles F.contents F.faults store.old store.new result }
{
    let mut found = None;
    let mut from = lo;
    for file in files.iter_mut() {
        if key.key().stamp < from {
            return Ok(found);
        }
        if let Some(entry) = file.newest(key, from, store)? {
            from = entry.0 + 1;
            found = Some(entry);
        }
    }
    Ok(found)
}

/// The value of a key in the memtable or, if that does not name the key, in the first file that does; `None` for an
/// erasure. No file is asked if the filter of their keys rules out the key. The files are unchanged.
pub(crate) fn lookup<F: Files>(
    alloc: Global,
    memtable: &Memtable,
    files: &mut OpenFiles,
    key: &LookupKey,
    store: &mut F,
) -> Result<Option<Vec<u8>>, Refusal>
    requires from { 1 ≤ key.now.stamp }
    requires to { key.now.stamp < 2 ^ 63 }
    ensures found { IfOk result (λ found.
        IfSome (F.contents store.old) (λ m. AllByRecursion (IsOpen m) files.old
        → option_map (λ bytes. bytes.items) found
        ≡ value_of (first_naming (memtable.now ∷ map (listed m) files.old) (text key.now)))) }
    ensures short { IfOk result (λ found. IfSome found (λ bytes. length bytes.items ≤ 65536)) }
    ensures stay { AllZip (IsSameFile (F.contents store.old)) files.old files.new }
    ensures damaged { IsErrOf result Refusal.Damaged
        → IfSome (F.contents store.old) (λ m. ¬ AllByRecursion (IsOpen m) files.old) }
    ensures reads { ReadsFiles F.contents F.faults store.old store.new result }
{
    if let Some(newest) = memtable.lookup(key.key()) {
        return copy_value(alloc, newest.value);
    }
    match files.newest(key, key.key().stamp, store)? {
        Some((_, value)) => Ok(value),
        None => Ok(None),
    }
}
