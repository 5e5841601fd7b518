//! The records of a log: their kinds and stamps, and the root that a log of records is over.

ghost use Rattle.std.specs.Prelude.{◌≡◌, ◌≢◌, ◌⊎◌, ◌<◌, ◌^◌, ◌↔◌, ◌++◌, ℕ, List, IfNone, IfOk, IfSome, IsTrue, OnOk};
ghost use Rattle.std.specs.Int.{to_be_bytes, w32};
ghost use Rattle.commit_log.specs.Frames.{bytes_of};
ghost use Rattle.commit_log.specs.Records.{HasRecord, HasStamp, IsGreatest, IsUpTo, NamesRoot, any_root, kind_byte, root_record, spelled_record};
ghost use Rattle.commit_log.specs.declared.records.RecordKind.{RecordKind as Kind};

use crate::numbers::{number_bytes, split_number};
use cell_key::Stamp;
use std::alloc::{AllocError, Global};

/// The kind of a record.
#[derive(Clone, Copy, Debug, PartialEq, Eq)]
pub enum RecordKind {
    /// The body is the edits that were made, as fields. The stamp is a mark: no later one had been answered.
    Edits,
    /// The log is over this root, or the root is about to be put: the stamp is the root's greatest, the body its
    /// checksum.
    Root,
    /// The log is over any root. The body is empty.
    AnyRoot,
    /// The same as `Edits`, but the body is entries as in a sorted file. Only earlier programs wrote it.
    Entries,
}

/// The byte of a kind.
fn kind_byte(kind: RecordKind) -> u8
    ensures { result ≡ kind_byte kind }
{
    match kind {
        RecordKind::Entries => 0,
        RecordKind::Root => 1,
        RecordKind::AnyRoot => 2,
        RecordKind::Edits => 3,
    }
}

/// The kind of a byte, if it encodes one.
fn kind_of(byte: u8) -> Option<RecordKind>
    ensures found { IfSome result (λ kind. byte ≡ kind_byte kind) }
    ensures none { IfNone result ((kind : Kind) → byte ≢ kind_byte kind) }
{
    match byte {
        0 => Some(RecordKind::Entries),
        1 => Some(RecordKind::Root),
        2 => Some(RecordKind::AnyRoot),
        3 => Some(RecordKind::Edits),
        _ => None,
    }
}

/// Appends the bytes of a record. After an `Err` a part may have been appended.
pub(crate) fn push_record(
    out: &mut Vec<u8>,
    kind: RecordKind,
    stamp: Stamp,
    body: &[u8],
) -> Result<(), AllocError>
    ensures { OnOk result
        (out.new.items ≡ out.old.items ++ spelled_record kind stamp body.now) }
{
    out.extend_from_slice(&[kind_byte(kind)])?;
    out.extend_from_slice(&number_bytes(stamp))?;
    out.extend_from_slice(body)?;
    Ok(())
}

/// The bytes of a record.
pub(crate) fn record_of(
    alloc: Global,
    kind: RecordKind,
    stamp: Stamp,
    body: &[u8],
) -> Result<Vec<u8>, AllocError>
    ensures { IfOk result (λ bytes. bytes.items ≡ spelled_record kind stamp body.now) }
{
    let mut bytes = Vec::new(alloc);
    push_record(&mut bytes, kind, stamp, body)?;
    Ok(bytes)
}

/// The kind, the stamp and the body of a record, if it has them.
pub(crate) fn split_record(bytes: &[u8]) -> Option<(RecordKind, Stamp, &[u8])>
    ensures found { IfSome result (λ p. bytes.now ≡ spelled_record p.0 p.1 p.2.now) }
    ensures none { IfNone result ((kind : Kind) (stamp : ℕ) (body : List ℕ)
        → bytes.now ≢ spelled_record kind stamp body) }
{
    let (byte, after) = bytes.split_first()?;
    let kind = kind_of(*byte)?;
    let (stamp, body) = split_number(after)?;
    Some((kind, stamp, body))
}

/// The checksum of a root, as the body of a record.
pub fn root_sum_bytes(sum: u32) -> [u8; 4]
    ensures { result ≡ to_be_bytes w32 sum }
{
    sum.to_be_bytes()
}

/// Whether a record says that the log is over any root.
fn is_any_root(bytes: &[u8]) -> bool
    ensures { IsTrue result ↔ (bytes.now ≡ any_root) }
{
    let Some((kind, stamp, body)) = split_record(bytes) else {
        return false;
    };
    match kind {
        RecordKind::Edits | RecordKind::Root | RecordKind::Entries => false,
        RecordKind::AnyRoot => stamp == 0 && body.is_empty(),
    }
}

/// Whether a log of these records is over any root.
pub fn is_over_any(records: &[Vec<u8>]) -> bool
    ensures { IsTrue result ↔ HasRecord (bytes_of records.now) any_root }
{
    for record in records {
        if is_any_root(record) {
            return true;
        }
    }
    false
}

/// Whether a record says that the log is over this root, or over any root.
fn is_over(bytes: &[u8], top: Stamp, sum: u32) -> bool
    ensures { IsTrue result
        ↔ (bytes.now ≡ root_record top sum) ⊎ (bytes.now ≡ any_root) }
{
    let Some((kind, stamp, body)) = split_record(bytes) else {
        return false;
    };
    match kind {
        RecordKind::Edits | RecordKind::Entries => false,
        RecordKind::Root => stamp == top && body == root_sum_bytes(sum).as_slice(),
        RecordKind::AnyRoot => stamp == 0 && body.is_empty(),
    }
}

/// Whether a log of these records is over the root with this greatest stamp and checksum.
pub fn names_root(records: &[Vec<u8>], top: Stamp, sum: u32) -> bool
    ensures { IsTrue result ↔ NamesRoot (bytes_of records.now) top sum }
{
    for record in records {
        if is_over(record, top, sum) {
            return true;
        }
    }
    false
}

/// The stamp of a record; 0 of bytes that are no record.
fn stamp_of(bytes: &[u8]) -> Stamp
    ensures up_to { IsUpTo result bytes.now }
    ensures has { (result ≡ 0) ⊎ HasStamp bytes.now result }
{
    let Some((_, stamp, _)) = split_record(bytes) else {
        return 0;
    };
    stamp
}

/// The greatest of a mark and of the records' stamps.
pub fn greatest_stamp(mark: Stamp, records: &[Vec<u8>]) -> Stamp
    ensures { IsGreatest mark (bytes_of records.now) result }
{
    let mut greatest = mark;
    for record in records {
        greatest = greatest.max(stamp_of(record));
    }
    greatest
}
