//! Edits of cells in the records of a log: encoded as bytes, and decoded.

ghost use Rattle.std.specs.Prelude.{◌≡◌, ◌≢◌, ◌⊎◌, ◌+◌, ◌*◌, ◌<◌, ◌≤◌, ◌^◌, ◌++◌, ◌↔◌, ℕ, List, flat_map, length, take, IfErr, IfNone, IfOk, IfSome, IsErrOf, IsTrue, OnErr, OnOk};
ghost use Rattle.std.specs.List.{AllByRecursion};
ghost use Rattle.std.specs.Option.{option_copied};
ghost use Rattle.cell_key.specs.Cells.{IsEditOf, edited_key};
ghost use Rattle.cell_key.specs.Entries.{Entry, lent_entry, spelled};
ghost use Rattle.cell_key.specs.Keys.{IsStored};
ghost use Rattle.cell_key.specs.Texts.{escaped};
ghost use Rattle.cell_key.specs.declared.edits.Edit.{Edit as CellEdit};
ghost use Rattle.commit_log.specs.Edits.{HasShortParts, HoldEdits, IsMarked, IsStampedUpTo, IsStoredEdit, IsUnmarked, Part, edit_value, form_kind, lent_key, made_in, spelled_as, spelled_edit, spelled_edits, spelled_entries, spelled_entry, spelled_part};
ghost use Rattle.commit_log.specs.Frames.{bytes_of};
ghost use Rattle.commit_log.specs.declared.edits.EditForm.{EditForm as Form};
ghost use Rattle.commit_log.specs.declared.records.RecordKind.TheVariants.{AnyRoot, Root};

use crate::faults::LogFault;
use crate::fields::{KeyFields, push_field, push_key, split_field, split_key, split_value};
use crate::records::{RecordKind, split_record};
use cell_key::{CellKey, Edit, EntryRef, Family, MOST_STAMP, Refusal, Row, Stamp};
use std::alloc::Global;

/// The upper bound of a value's length, in bytes.
const MOST_VALUE: usize = 65_536;

/// The bytes of an entry besides its names and its value: the lengths of the key's text and of the value, the byte of a
/// put, the ends of the three names, and the stamp. An erasure has no length of a value.
const PUT_BYTES: usize = 23;

const ERASURE_BYTES: usize = 19;

/// The form of the edits in a record.
#[derive(Clone, Copy)]
pub(crate) enum EditForm {
    /// Their fields.
    Fields,
    /// Entries as in a sorted file, of an earlier program.
    Entries,
}

/// The key of the cell version that an edit changes.
pub fn edited_key(edit: &Edit) -> &CellKey
    ensures { result.now ≡ edited_key edit.now }
{
    match edit {
        Edit::Put(key, _) => key,
        Edit::Erase(key) => key,
    }
}

/// Appends an edit of a row, encoded. After an `Err` a part may have been appended.
fn push_edit(out: &mut Vec<u8>, row: &Row, edit: &Edit) -> Result<(), Refusal>
    requires { IsEditOf row.now edit.now }
    ensures ok { OnOk result (out.new.items ≡ out.old.items ++ spelled_edit edit.now) }
    ensures stored { OnOk result (IsStoredEdit edit.now) }
    ensures front { take (length out.old.items) out.new.items ≡ out.old.items }
    ensures refusal { IfErr result (λ refusal. refusal ≡ Refusal.NoMemory) }
{
    let key = edited_key(edit);
    // These calls show that row and family are within their limits.
    let _row = row.as_bytes();
    let _family = key.family.as_bytes();
    match edit {
        Edit::Put(_, value) => {
            push_key(out, key, true)?;
            push_field(out, value)
        }
        Edit::Erase(_) => push_key(out, key, false),
    }
}

/// Appends edits of a row, encoded. After an `Err` a part may have been appended.
fn push_each(out: &mut Vec<u8>, row: &Row, edits: &[Edit]) -> Result<(), Refusal>
    requires { AllByRecursion (IsEditOf row.now) edits.now }
    ensures ok { OnOk result (out.new.items ≡ out.old.items ++ spelled_edits edits.now) }
    ensures stored { OnOk result (AllByRecursion IsStoredEdit edits.now) }
    ensures front { take (length out.old.items) out.new.items ≡ out.old.items }
    ensures refusal { IfErr result (λ refusal. refusal ≡ Refusal.NoMemory) }
{
    for edit in edits {
        push_edit(out, row, edit)?;
    }
    Ok(())
}

/// Appends edits of a row, encoded one after another.
///
/// # Errors
///
/// `NoMemory`: nothing is appended.
pub fn push_edits(out: &mut Vec<u8>, row: &Row, edits: &[Edit]) -> Result<(), Refusal>
    requires { AllByRecursion (IsEditOf row.now) edits.now }
    ensures ok { OnOk result (out.new.items ≡ out.old.items ++ spelled_edits edits.now) }
    ensures stored { OnOk result (AllByRecursion IsStoredEdit edits.now) }
    ensures err { OnErr result (out.new.items ≡ out.old.items) }
    ensures refusal { IfErr result (λ refusal. refusal ≡ Refusal.NoMemory) }
{
    let length = out.len();
    let pushed = push_each(out, row, edits);
    if pushed.is_err() {
        out.truncate(length);
    }
    pushed
}

/// How many of the bytes are 0. Each takes one byte more when it is escaped.
fn zero_count(bytes: &[u8]) -> usize
    ensures length { length (escaped bytes.now) ≡ length bytes.now + result }
    ensures bound { result ≤ length bytes.now }
{
    let mut count = 0;
    for byte in bytes {
        count += if *byte == 0 { 1 } else { 0 };
    }
    count
}

/// The length of the entry of an edit of a row.
fn entry_len(row: &Row, edit: &Edit) -> usize
    requires { IsEditOf row.now edit.now }
    ensures len { result ≡ length (spelled_entry edit.now) }
    ensures bound { result ≤ 73628 }
{
    let key = edited_key(edit);
    let row = row.as_bytes();
    let family = key.family.as_bytes();
    let column = key.qualifier.name().as_bytes();
    let names = row.len() + zero_count(row) + family.len() + column.len();
    match edit {
        Edit::Put(_, value) => PUT_BYTES + names + value.len(),
        Edit::Erase(_) => ERASURE_BYTES + names,
    }
}

/// The bytes that edits of a row take as entries of a memtable: at most 73,628 for each, and no fewer than as fields.
pub fn entries_len(row: &Row, edits: &[Edit]) -> usize
    requires edits { AllByRecursion (IsEditOf row.now) edits.now }
    requires few { length edits.now ≤ 100000 }
    ensures len { result ≡ length (spelled_entries edits.now) }
    ensures bound { result ≤ 73628 * length edits.now }
    ensures fields { length (spelled_edits edits.now) ≤ result }
{
    let mut len = 0;
    for edit in edits {
        len += entry_len(row, edit);
    }
    len
}

/// The entry at the front, and the bytes after it.
fn split_entry(bytes: &[u8]) -> Option<(EntryRef<'_>, &[u8])>
    ensures found { IfSome result (λ p. bytes.now ≡ spelled (lent_entry p.0) ++ p.1.now) }
    ensures short { IfSome result (λ p. HasShortParts (lent_entry p.0)) }
    ensures none { IfNone result ((entry : Entry) (rest : List ℕ) → HasShortParts entry
        → bytes.now ≢ spelled entry ++ rest) }
{
    let (key, after_key) = split_field(bytes)?;
    let (kind, after) = after_key.split_first()?;
    if *kind == 0 {
        return Some((EntryRef { key, value: None }, after));
    }
    if *kind != 1 {
        return None;
    }
    let (value, rest) = split_field(after)?;
    let value = Some(value);
    Some((EntryRef { key, value }, rest))
}

/// The key of borrowed fields.
///
/// # Errors
///
/// `Damaged` if it is outside the limits; `NoMemory`.
fn key_of(alloc: Global, fields: KeyFields<'_>) -> Result<CellKey, Refusal>
    ensures key { IfOk result (λ key. key ≡ lent_key fields.entry) }
    ensures stored { IfOk result IsStored }
    ensures damaged { IsErrOf result Refusal.Damaged → ¬ IsStored (lent_key fields.entry) }
    ensures refusal { IfErr result (λ refusal. (refusal ≡ Refusal.Damaged)
        ⊎ (refusal ≡ Refusal.NoMemory)) }
{
    if fields.stamp < 1 || fields.stamp > MOST_STAMP {
        return Err(Refusal::Damaged);
    }
    let row = match Row::new(alloc, fields.row) {
        Ok(row) => row,
        Err(Refusal::BadRow) => return Err(Refusal::Damaged),
        Err(refusal) => return Err(refusal),
    };
    let family = match Family::new(alloc, fields.family) {
        Ok(family) => family,
        Err(Refusal::BadColumn) => return Err(Refusal::Damaged),
        Err(refusal) => return Err(refusal),
    };
    Ok(CellKey {
        row,
        family,
        qualifier: fields.column,
        stamp: fields.stamp,
    })
}

/// The edit that puts a value at a key, or erases the key if there is none.
///
/// # Errors
///
/// `Damaged` if the value is too long; `NoMemory`.
fn edit_of(alloc: Global, key: CellKey, value: Option<&[u8]>) -> Result<Edit, Refusal>
    requires { IsStored key }
    ensures key { IfOk result (λ edit. edited_key edit ≡ key) }
    ensures value { IfOk result (λ edit. edit_value edit ≡ option_copied value.entry) }
    ensures stored { IfOk result IsStoredEdit }
    ensures damaged { IsErrOf result Refusal.Damaged
        → ¬ IfSome (option_copied value.entry) (λ bytes. length bytes ≤ 65536) }
    ensures refusal { IfErr result (λ refusal. (refusal ≡ Refusal.Damaged)
        ⊎ (refusal ≡ Refusal.NoMemory)) }
{
    let Some(value) = value else {
        return Ok(Edit::Erase(key));
    };
    if value.len() > MOST_VALUE {
        return Err(Refusal::Damaged);
    }
    Ok(Edit::Put(key, Vec::from_slice(alloc, value)?))
}

/// The edit at the front of bytes, as fields, and the bytes after it.
///
/// # Errors
///
/// `Damaged` if the bytes don't begin with the fields of an edit within the limits; `NoMemory`.
fn first_fields(alloc: Global, bytes: &[u8]) -> Result<(Edit, &[u8]), Refusal>
    ensures found { IfOk result (λ p. bytes.now ≡ spelled_edit p.0 ++ p.1.now) }
    ensures shorter { IfOk result (λ p. length p.1.now < length bytes.now) }
    ensures stored { IfOk result (λ p. IsStoredEdit p.0) }
    ensures damaged { IsErrOf result Refusal.Damaged → (edit : CellEdit) (rest : List ℕ)
        → IsStoredEdit edit → bytes.now ≢ spelled_edit edit ++ rest }
    ensures refusal { IfErr result (λ refusal. (refusal ≡ Refusal.Damaged)
        ⊎ (refusal ≡ Refusal.NoMemory)) }
{
    let Some((fields, puts, after)) = split_key(bytes) else {
        return Err(Refusal::Damaged);
    };
    let Some((value, rest)) = split_value(after, puts) else {
        return Err(Refusal::Damaged);
    };
    let key = key_of(alloc, fields)?;
    let edit = edit_of(alloc, key, value)?;
    Ok((edit, rest))
}

/// The edit at the front of bytes, as an entry, and the bytes after it.
///
/// # Errors
///
/// `Damaged` if the bytes don't begin with the entry of an edit within the limits; `NoMemory`.
fn first_entry(alloc: Global, bytes: &[u8]) -> Result<(Edit, &[u8]), Refusal>
    ensures found { IfOk result (λ p. bytes.now ≡ spelled_entry p.0 ++ p.1.now) }
    ensures shorter { IfOk result (λ p. length p.1.now < length bytes.now) }
    ensures stored { IfOk result (λ p. IsStoredEdit p.0) }
    ensures damaged { IsErrOf result Refusal.Damaged → (edit : CellEdit) (rest : List ℕ)
        → IsStoredEdit edit → bytes.now ≢ spelled_entry edit ++ rest }
    ensures refusal { IfErr result (λ refusal. (refusal ≡ Refusal.Damaged)
        ⊎ (refusal ≡ Refusal.NoMemory)) }
{
    let Some((entry, rest)) = split_entry(bytes) else {
        return Err(Refusal::Damaged);
    };
    let Some(key) = CellKey::decode(alloc, entry.key)? else {
        return Err(Refusal::Damaged);
    };
    let edit = edit_of(alloc, key, entry.value)?;
    Ok((edit, rest))
}

/// The edit at the front of bytes in a form, and the bytes after it.
///
/// # Errors
///
/// `Damaged` if the bytes don't begin with an edit within the limits; `NoMemory`.
fn first_edit(alloc: Global, form: EditForm, bytes: &[u8]) -> Result<(Edit, &[u8]), Refusal>
    ensures found { IfOk result (λ p. bytes.now ≡ spelled_as form p.0 ++ p.1.now) }
    ensures shorter { IfOk result (λ p. length p.1.now < length bytes.now) }
    ensures stored { IfOk result (λ p. IsStoredEdit p.0) }
    ensures damaged { IsErrOf result Refusal.Damaged → (edit : CellEdit) (rest : List ℕ)
        → IsStoredEdit edit → bytes.now ≢ spelled_as form edit ++ rest }
    ensures refusal { IfErr result (λ refusal. (refusal ≡ Refusal.Damaged)
        ⊎ (refusal ≡ Refusal.NoMemory)) }
{
    match form {
        EditForm::Fields => first_fields(alloc, bytes),
        EditForm::Entries => first_entry(alloc, bytes),
    }
}

/// Decodes edits in a form and appends them to `edits`.
///
/// # Errors
///
/// `Damaged` if the bytes don't encode edits within the limits; `NoMemory`. Some may have been appended by then.
fn read_edits(
    alloc: Global,
    form: EditForm,
    bytes: &[u8],
    edits: &mut Vec<Edit>,
) -> Result<(), Refusal>
    ensures ok { OnOk result ((more : List CellEdit) × (edits.new.items ≡ edits.old.items ++ more)
        × (bytes.now ≡ flat_map (spelled_as form) more) × AllByRecursion IsStoredEdit more) }
    ensures damaged { IsErrOf result Refusal.Damaged → (more : List CellEdit)
        → AllByRecursion IsStoredEdit more → bytes.now ≢ flat_map (spelled_as form) more }
    ensures refusal { IfErr result (λ refusal. (refusal ≡ Refusal.Damaged)
        ⊎ (refusal ≡ Refusal.NoMemory)) }
{
    let mut rest = bytes;
    while !rest.is_empty() {
        let (edit, after) = first_edit(alloc, form, rest)?;
        edits.push(edit)?;
        rest = after;
    }
    Ok(())
}

/// Whether the stamps of edits are up to a mark.
fn are_up_to(edits: &[Edit], mark: Stamp) -> bool
    ensures { IsTrue result ↔ AllByRecursion (IsStampedUpTo mark) edits.now }
{
    edits.iter().all(|edit| edited_key(edit).stamp <= mark)
}

/// Checks that a record of format 1 has edits, and that their stamps are up to a mark.
///
/// # Errors
///
/// `Damaged` if it has no edits within the limits, or one with a stamp above the mark; `Memory`.
pub(crate) fn check_marked(alloc: Global, bytes: &[u8], mark: Stamp) -> Result<(), LogFault>
    ensures ok { OnOk result (IsMarked mark bytes.now) }
    ensures damaged { IsErrOf result LogFault.Damaged → IsUnmarked mark bytes.now }
    ensures fault { IfErr result (λ fault. (fault ≡ LogFault.Damaged)
        ⊎ (fault ≡ LogFault.Memory)) }
{
    let mut edits = Vec::new(alloc);
    match read_edits(alloc, EditForm::Entries, bytes, &mut edits) {
        Ok(()) if are_up_to(&edits, mark) => Ok(()),
        Err(Refusal::NoMemory) => Err(LogFault::Memory),
        _ => Err(LogFault::Damaged),
    }
}

/// The form of the edits in a record of a kind, if it holds edits.
fn form_of(kind: RecordKind) -> Option<EditForm>
    ensures found { IfSome result (λ form. kind ≡ form_kind form) }
    ensures none { IfNone result ((form : Form) → kind ≢ form_kind form) }
{
    match kind {
        RecordKind::Edits => Some(EditForm::Fields),
        RecordKind::Entries => Some(EditForm::Entries),
        RecordKind::Root | RecordKind::AnyRoot => None,
    }
}

/// Whether a record of this kind, stamp and body names a root, or says that the log is over any root.
fn is_of_root(kind: RecordKind, stamp: Stamp, body: &[u8]) -> bool
    ensures { IsTrue result ↔ ((kind ≡ Root) × (length body.now ≡ 4))
        ⊎ ((kind ≡ AnyRoot) × (stamp ≡ 0) × (length body.now ≡ 0)) }
{
    match kind {
        RecordKind::Edits | RecordKind::Entries => false,
        RecordKind::Root => body.len() == 4,
        RecordKind::AnyRoot => stamp == 0 && body.is_empty(),
    }
}

/// Appends the edits of a record to `edits`. A record that names a root has none.
///
/// # Errors
///
/// `Damaged` if the bytes are not a record, or its stamp or body doesn't fit its kind; `NoMemory`. Some may have been
/// appended by then.
fn read_record(alloc: Global, bytes: &[u8], edits: &mut Vec<Edit>) -> Result<(), Refusal>
    ensures ok { OnOk result ((part : Part) × (edits.new.items ≡ edits.old.items ++ made_in part)
        × (bytes.now ≡ spelled_part part) × AllByRecursion IsStoredEdit (made_in part)) }
    ensures damaged { IsErrOf result Refusal.Damaged → (part : Part)
        → AllByRecursion IsStoredEdit (made_in part) → bytes.now ≢ spelled_part part }
    ensures refusal { IfErr result (λ refusal. (refusal ≡ Refusal.Damaged)
        ⊎ (refusal ≡ Refusal.NoMemory)) }
{
    let Some((kind, stamp, body)) = split_record(bytes) else {
        return Err(Refusal::Damaged);
    };
    if let Some(form) = form_of(kind) {
        return read_edits(alloc, form, body, edits);
    }
    if !is_of_root(kind, stamp, body) {
        return Err(Refusal::Damaged);
    }
    Ok(())
}

/// The edits that records hold.
///
/// # Errors
///
/// `Damaged` if a record neither holds edits within the limits nor names a root; `NoMemory`.
pub fn edits_in(alloc: Global, records: &[Vec<u8>]) -> Result<Vec<Edit>, Refusal>
    ensures held { IfOk result (λ edits. HoldEdits (bytes_of records.now) edits.items) }
    ensures stored { IfOk result (λ edits. AllByRecursion IsStoredEdit edits.items) }
    ensures damaged { IsErrOf result Refusal.Damaged → (edits : List CellEdit)
        → AllByRecursion IsStoredEdit edits → ¬ HoldEdits (bytes_of records.now) edits }
    ensures refusal { IfErr result (λ refusal. (refusal ≡ Refusal.Damaged)
        ⊎ (refusal ≡ Refusal.NoMemory)) }
{
    let mut edits = Vec::new(alloc);
    for record in records {
        read_record(alloc, record, &mut edits)?;
    }
    Ok(edits)
}
