//! The log of a store as bytes, in format 2: created, read, and upgraded from format 1.

ghost use Rattle.std.specs.Prelude.{◌≡◌, ◌≢◌, ◌+◌, ◌*◌, ◌≤◌, ◌<◌, ◌^◌, ◌⊎◌, ◌++◌, ◌∷◌, ◌↔◌, [], ℕ, List, drop, length, take, IfErr, IfNone, IfOk, IfSome, IsErrOf, OnOk};
ghost use Rattle.std.specs.List.{AllByRecursion};
ghost use Rattle.commit_log.specs.Edits.{IsMarked, IsUnmarked};
ghost use Rattle.commit_log.specs.Frames.{IsBody, IsLog, bytes_of, frame, head};
ghost use Rattle.commit_log.specs.Numbered.{IsShort, IsStoreLog, numbered, store_head, store_log, upgraded};
ghost use Rattle.commit_log.specs.Records.{HasRecord, any_root, spelled_record};
ghost use Rattle.commit_log.specs.declared.records.RecordKind.TheVariants.{Entries};

use crate::edits::check_marked;
use crate::faults::LogFault;
use crate::frames::{LONGEST_RECORD, read_log};
use crate::numbered::{NO_NUMBER, first_numbered, numbered_frame, read_numbered};
use crate::numbers::{NUMBER, number_bytes, split_number};
use crate::records::RecordKind;
use cell_key::Stamp;
use std::alloc::{AllocError, Global};

/// The bytes with which a log of format 2 begins.
const STORE_HEAD: [u8; 8] = *b"TABLOG02";

/// The bytes of a log's header: the above and the store's number.
const HEAD_BYTES: usize = 8 + NUMBER;

/// The upper bound of a body's length, in bytes: a number, a kind and a stamp come before it in the record.
const LONGEST_BODY: usize = LONGEST_RECORD - 17;

/// The contents of a store's log.
#[derive(Drop)]
pub(crate) struct StoreReading {
    /// The number of the store.
    pub store: u64,
    /// The number of the first record.
    pub first: u64,
    /// The records of the whole frames.
    pub records: Vec<Vec<u8>>,
    /// The offset of their end.
    pub end: usize,
}

/// The store's number in the header of a log, and the bytes after the header.
fn split_head(bytes: &[u8]) -> Option<(u64, &[u8])>
    ensures found { IfSome result (λ p. bytes.now ≡ store_head p.0 ++ p.1.now) }
    ensures none { IfNone result ((store : ℕ) (frames : List ℕ)
        → bytes.now ≢ store_head store ++ frames) }
{
    let Some(rest) = bytes.strip_prefix(&STORE_HEAD) else {
        return None;
    };
    split_number(rest)
}

/// The number of the whole frame at the front of bytes, if there is one and a log may begin with that number.
fn first_number(bytes: &[u8]) -> Option<u64>
    ensures found { IfSome result (λ number. (payload behind : List ℕ) × IsShort payload
        × (bytes.now ≡ frame (numbered number payload) ++ behind)) }
    ensures within { IfSome result (λ number. number < 2 ^ 63) }
    ensures none { IfNone result ((number : ℕ) (payload behind : List ℕ) → number < 2 ^ 63
        → IsShort payload → bytes.now ≢ frame (numbered number payload) ++ behind) }
{
    let Some((number, _)) = first_numbered(bytes) else {
        return None;
    };
    if number >= NO_NUMBER {
        return None;
    }
    Some(number)
}

/// Reads the log of a store. The bytes behind its last whole frame are ignored.
///
/// # Errors
///
/// `Damaged` if the bytes are not a store's log; `Memory`.
pub(crate) fn read_store_log(alloc: Global, bytes: &[u8]) -> Result<StoreReading, LogFault>
    ensures ok { IfOk result (λ found. IsStoreLog found.store found.first bytes.now
        (bytes_of found.records.items) (drop found.end bytes.now)) }
    ensures end { IfOk result (λ found. found.end ≤ length bytes.now) }
    ensures few { IfOk result (λ found. 16 * length found.records.items ≤ length bytes.now) }
    ensures damaged { IsErrOf result LogFault.Damaged → (store first : ℕ)
        (records : List (List ℕ)) (tail : List ℕ)
        → ¬ IsStoreLog store first bytes.now records tail }
    ensures fault { IfErr result (λ fault. (fault ≡ LogFault.Damaged)
        ⊎ (fault ≡ LogFault.Memory)) }
{
    let Some((store, frames)) = split_head(bytes) else {
        return Err(LogFault::Damaged);
    };
    let Some(first) = first_number(frames) else {
        return Err(LogFault::Damaged);
    };
    let found = read_numbered(alloc, frames, first)?;
    Ok(StoreReading {
        store,
        first,
        records: found.records,
        end: HEAD_BYTES + found.end,
    })
}

/// The bytes of a store's log of one record, with this number.
pub(crate) fn log_of_one(
    alloc: Global,
    store: u64,
    number: u64,
    kind: RecordKind,
    stamp: Stamp,
    body: &[u8],
) -> Result<Vec<u8>, AllocError>
    requires { IsBody body.now }
    ensures { IfOk result (λ bytes.
        bytes.items ≡ store_log store number (spelled_record kind stamp body.now ∷ [])) }
{
    let mut bytes = Vec::from_slice(alloc, &STORE_HEAD)?;
    bytes.extend_from_slice(&number_bytes(store))?;
    bytes.extend_from_slice(&numbered_frame(alloc, number, kind, stamp, body)?)?;
    Ok(bytes)
}

/// The bytes of a new log of a store. Its only record, with this number, says that it is over any root.
pub fn new_log(alloc: Global, store: u64, first: u64) -> Result<Vec<u8>, AllocError>
    requires { first < 2 ^ 63 }
    ensures spelled { IfOk result (λ bytes. bytes.items ≡ store_log store first (any_root ∷ [])) }
    ensures is_log { IfOk result (λ bytes.
        IsStoreLog store first bytes.items (any_root ∷ []) []) }
{
    log_of_one(alloc, store, first, RecordKind::AnyRoot, 0, &[])
}

/// The frame of the edits in a record of format 1, whose stamps are up to a mark.
///
/// # Errors
///
/// `Damaged` if the record isn't edits within the limits, or one has a stamp above the mark; `Refused` if they are too
/// long; `Memory`.
fn upgraded_frame(
    alloc: Global,
    number: u64,
    edits: &[u8],
    mark: Stamp,
) -> Result<Vec<u8>, LogFault>
    ensures ok { IfOk result (λ bytes.
        bytes.items ≡ frame (numbered number (spelled_record Entries 0 edits.now))) }
    ensures body { OnOk result (IsBody edits.now) }
    ensures marked { OnOk result (IsMarked mark edits.now) }
    ensures damaged { IsErrOf result LogFault.Damaged → IsUnmarked mark edits.now }
    ensures refused { IsErrOf result LogFault.Refused → ¬ IsBody edits.now }
    ensures device { ¬ IsErrOf result LogFault.Device }
{
    check_marked(alloc, edits, mark)?;
    if edits.len() > LONGEST_BODY {
        return Err(LogFault::Refused);
    }
    Ok(numbered_frame(alloc, number, RecordKind::Entries, 0, edits)?)
}

/// Upgrades a log of format 1 to the bytes of a store's log. Each record becomes one of entries, of stamp 0. The record
/// before them has this number. A program that wrote format 1 stored the oracle's mark before it answered a stamp: so if
/// an edit has a stamp above the mark that is stored, the mark was lost.
///
/// # Errors
///
/// `Damaged` if the bytes don't begin with the header of format 1, a record isn't edits within the limits, or an edit's
/// stamp is above the mark; `Refused` if a record is too long; `Memory`.
pub fn upgrade_log(
    alloc: Global,
    bytes: &[u8],
    mark: Stamp,
    store: u64,
    first: u64,
) -> Result<Vec<u8>, LogFault>
    requires { first < 2 ^ 63 }
    ensures ok { IfOk result (λ made. (records : List (List ℕ)) (tail : List ℕ)
        → IsLog bytes.now records tail → IsStoreLog store first made.items (upgraded records) []) }
    ensures marked { OnOk result ((records : List (List ℕ)) (tail : List ℕ)
        → IsLog bytes.now records tail → AllByRecursion (IsMarked mark) records) }
    ensures headed { take 8 bytes.now ≢ head → IsErrOf result LogFault.Damaged }
    ensures damaged { IsErrOf result LogFault.Damaged → (take 8 bytes.now ≢ head)
        ⊎ ((records : List (List ℕ)) (tail : List ℕ) → IsLog bytes.now records tail
        → (one : List ℕ) × HasRecord records one × IsUnmarked mark one) }
    ensures refused { IsErrOf result LogFault.Refused → (records : List (List ℕ)) (tail : List ℕ)
        → IsLog bytes.now records tail → ¬ AllByRecursion IsBody records }
    ensures device { ¬ IsErrOf result LogFault.Device }
{
    let found = read_log(alloc, bytes)?;
    let mut made = new_log(alloc, store, first)?;
    let mut number = first;
    for edits in &found.records {
        number += 1;
        made.extend_from_slice(&upgraded_frame(alloc, number, edits, mark)?)?;
    }
    Ok(made)
}
