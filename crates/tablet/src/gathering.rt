//! Cells with their newest versions, gathered from entries that arrive in order.

ghost use Rattle.std.specs.Prelude.{◌≡◌, ◌≢◌, ◌≤◌, ◌<◌, ◌-◌, ◌^◌, ◌++◌, ◌∷◌, [], List, ℕ, length, false, true, Some, IfErr, IfNone, IfOk, IfSome, IsErrOf, OnOk, IsOkUnless};
ghost use Rattle.std.specs.Bool.{OnFalse, OnTrue};
ghost use Rattle.cell_key.specs.Entries.{Entry, IsEntry, IsEntryList, lent_entry};
ghost use Rattle.cell_key.specs.Keys.{qualifier_name, IsKeyText};
ghost use Rattle.cell_key.specs.Texts.{ended, stamp_text};
ghost use Rattle.cell_key.specs.declared.keys.Qualifier.{Qualifier as Names};
ghost use Rattle.rows.specs.Batches.{bytes_in, IsFull};
ghost use Rattle.tablet.specs.Gathering.{last_of, AreVersionsIn, Begins, BeginsWith, Gathers, IsGatheringRefusal, IsWithin, KeepsLimits};

use cell_key::{CellKey, EntryRef, Qualifier, Refusal, Stamp, stamp_of};
use rows::{BatchLimits, CellVersions, VersionBatch};
use std::alloc::Global;

/// The most cells that room is reserved for at the start.
const ROOM: usize = 256;

/// The qualifier and the stamp encoded in these bytes, the rest of a key's text after its place.
fn version_of(bytes: &[u8]) -> Option<(Qualifier, Stamp)>
    ensures found { IfSome result (λ found.
        bytes.now ≡ ended (qualifier_name found.0) ++ stamp_text found.1) }
    ensures small { IfSome result (λ found. found.1 < 2 ^ 64) }
    ensures none { IfNone result ((qualifier : Names) (stamp : ℕ)
        → bytes.now ≢ ended (qualifier_name qualifier) ++ stamp_text stamp) }
{
    if let Some(stamp) = bytes.strip_prefix(b"data\0\0") {
        return Some((Qualifier::Data, stamp_of(stamp)?));
    }
    if let Some(stamp) = bytes.strip_prefix(b"lock\0\0") {
        return Some((Qualifier::Lock, stamp_of(stamp)?));
    }
    let stamp = bytes.strip_prefix(b"write\0\0")?;
    Some((Qualifier::Write, stamp_of(stamp)?))
}

/// Cells being gathered: the last one may still get values, those before it are complete.
#[derive(Drop)]
pub(crate) struct Gathering {
    limits: BatchLimits,
    hi: Stamp,
    cells: Vec<CellVersions>,
    /// The text of the last cell's place; empty without a cell.
    place: Vec<u8>,
    /// How many bytes of values the limits leave after the cells before the last.
    room: usize,
}

impl Gathering {
    /// An empty gathering, with room for as many cells as `limits` allows, but at most 256. Answers `NoMemory` if there
    /// is no memory.
    pub(crate) fn new(alloc: Global, limits: BatchLimits, hi: Stamp) -> Result<Gathering, Refusal>
        ensures limits { IfOk result (λ gathering. gathering.limits ≡ limits) }
        ensures hi { IfOk result (λ gathering. gathering.hi ≡ hi) }
        ensures within { IfOk result IsWithin }
        ensures none { IfOk result (Gathers []) }
        ensures refusal { IsOkUnless result Refusal.NoMemory }
    {
        Ok(Gathering {
            limits,
            hi,
            cells: Vec::with_capacity(alloc, limits.cells.min(ROOM))?,
            place: Vec::new(alloc),
            room: limits.bytes,
        })
    }

    /// How many bytes of values the limits leave after all cells.
    fn room_left(&self) -> usize
        requires { IsWithin self.now }
        ensures { result ≡ self.now.limits.bytes - bytes_in self.now.cells.items }
    {
        match self.cells.last() {
            Some(last) => last.bytes_after(self.room),
            None => self.room,
        }
    }

    /// Takes a value if it belongs to the last cell, and keeps it if it is the newest of its column at or below `hi`.
    /// Answers whether it belongs to that cell.
    fn take_last(&mut self, alloc: Global, text: &[u8], value: &[u8]) -> Result<bool, Refusal>
        requires { IsWithin self.old }
        ensures within { IsWithin self.new }
        ensures taken { (es : List Entry) → IsEntryList (es ++ (text.now, Some value.now) ∷ [])
            → Gathers es self.old → IfOk result (λ taken. OnTrue taken
            (Gathers (es ++ (text.now, Some value.now) ∷ []) self.new)) }
        ensures other { IfOk result (λ taken. OnFalse taken ((self.new ≡ self.old)
            × IfSome (last_of self.old.cells.items)
            (λ last. ¬ BeginsWith self.old.place.items text.now))) }
        ensures limits { KeepsLimits self.old self.new }
        ensures damaged { (es : List Entry) → Gathers es self.old
            → IsErrOf result Refusal.Damaged → ¬ IsKeyText text.now }
        ensures refusal { IfErr result IsGatheringRefusal }
    {
        let Some(rest) = text.strip_prefix(self.place.as_slice()) else {
            return Ok(false);
        };
        let Some(last) = self.cells.last_mut() else {
            return Ok(false);
        };
        let Some((qualifier, stamp)) = version_of(rest) else {
            return Err(Refusal::Damaged);
        };
        if stamp <= self.hi {
            last.keep(alloc, qualifier, stamp, value)?;
        }
        Ok(true)
    }

    /// Appends the cell of a value, with the value if its stamp is at or below `hi`. Answers `Damaged` if `text` isn't
    /// the text of a key, and `NoMemory` if there is no memory.
    fn begin(&mut self, alloc: Global, text: &[u8], value: &[u8]) -> Result<(), Refusal>
        ensures begins { OnOk result (Begins text.now value.now self.old self.new) }
        ensures limits { KeepsLimits self.old self.new }
        ensures damaged { IsErrOf result Refusal.Damaged → ¬ IsKeyText text.now }
        ensures refusal { IfErr result IsGatheringRefusal }
    {
        let Some(key) = CellKey::decode(alloc, text)? else {
            return Err(Refusal::Damaged);
        };
        let len = text.len() - key.qualifier.name().len() - 10;
        self.place.clear();
        self.place.extend_from_slice(&text[..len])?;
        let mut cell = CellVersions {
            row: key.row,
            family: key.family,
            data: None,
            lock: None,
            write: None,
        };
        if key.stamp <= self.hi {
            cell.keep(alloc, key.qualifier, key.stamp, value)?;
        }
        self.cells.push(cell)?;
        Ok(())
    }

    /// Takes an entry, unless it is a value of a new cell and the batch is full. Answers whether it did.
    pub(crate) fn take(&mut self, alloc: Global, entry: EntryRef<'_>) -> Result<bool, Refusal>
        requires { IsWithin self.old }
        ensures gathers { (es : List Entry) → IsEntryList (es ++ lent_entry entry.entry ∷ [])
            → Gathers es self.old → IfOk result (λ taken. OnTrue taken
            (Gathers (es ++ lent_entry entry.entry ∷ []) self.new)) }
        ensures stops { (es more : List Entry) → IsEntryList (es ++ lent_entry entry.entry ∷ more)
            → Gathers es self.old → IfOk result (λ taken. OnFalse taken (AreVersionsIn
            (es ++ lent_entry entry.entry ∷ more) self.old.hi self.new.cells.items false)) }
        ensures full { IfOk result (λ taken. OnFalse taken
            (IsFull self.old.limits self.new.cells.items)) }
        ensures within { OnOk result (IsWithin self.new) }
        ensures limits { KeepsLimits self.old self.new }
        ensures damaged { (es : List Entry) → Gathers es self.old
            → IsErrOf result Refusal.Damaged → ¬ IsEntry (lent_entry entry.entry) }
        ensures refusal { IfErr result IsGatheringRefusal }
    {
        let Some(value) = entry.value else {
            return Ok(true);
        };
        if self.take_last(alloc, entry.key, value)? {
            return Ok(true);
        }
        let room = self.room_left();
        if self.cells.len() >= self.limits.cells || room == 0 {
            return Ok(false);
        }
        self.begin(alloc, entry.key, value)?;
        self.room = room;
        Ok(true)
    }

    /// The batch of the cells after an entry was refused: not the last batch.
    pub(crate) fn stopped(self) -> VersionBatch
        ensures cells { result.cells.items ≡ self.cells.items }
        ensures more { result.is_last ≡ false }
    {
        let Gathering { cells, .. } = self;
        VersionBatch {
            cells,
            is_last: false,
        }
    }

    /// The batch of the cells after the last entry: the last batch.
    pub(crate) fn ended(self) -> VersionBatch
        requires { IsWithin self }
        ensures versions { (es : List Entry) → IsEntryList es → Gathers es self
            → AreVersionsIn es self.hi result.cells.items true }
        ensures last { result.is_last ≡ true }
        ensures few { length result.cells.items ≤ self.limits.cells }
    {
        let Gathering { cells, .. } = self;
        VersionBatch {
            cells,
            is_last: true,
        }
    }
}
