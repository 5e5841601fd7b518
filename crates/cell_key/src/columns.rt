//! The values of the lock and write columns: encoding and decoding.

ghost use Rattle.std.specs.Prelude.{◌≡◌, ◌≢◌, ◌≤◌, ℕ, List, length, IfErr, IfNone, IfOk, IfSome};
ghost use Rattle.cell_key.specs.Columns.{IsLockText, IsParted, NamesWrite, kind_byte, lock_text, record_text};
ghost use Rattle.cell_key.specs.Names.{IsFamily, IsRow};
ghost use Rattle.cell_key.specs.declared.columns.WriteKind.{WriteKind as Kind};

use crate::decoding::decode_place;
use crate::escapes;
use crate::keys::Stamp;
use crate::names::{Family, Row};
use crate::refusals::Refusal;
use byteorder::{BigEndian, ByteOrder};
use std::alloc::Global;

/// The kind of a write: it gives its cell a value, or it deletes the cell.
#[derive(Clone, Copy, Debug, PartialEq, Eq)]
pub enum WriteKind {
    /// It gives the cell a value.
    Set,
    /// It deletes the cell.
    Delete,
}

impl WriteKind {
    /// The last byte of the values of its lock and its write record.
    pub fn byte(self) -> u8
        ensures { result ≡ kind_byte self }
    {
        match self {
            WriteKind::Set => b'S',
            WriteKind::Delete => b'D',
        }
    }

    /// The kind with this byte; `None` if no kind has it.
    pub fn of_byte(byte: u8) -> Option<WriteKind>
        ensures some { IfSome result (λ kind. kind_byte kind ≡ byte) }
        ensures none { IfNone result ((kind : Kind) → kind_byte kind ≢ byte) }
    {
        match byte {
            b'S' => Some(WriteKind::Set),
            b'D' => Some(WriteKind::Delete),
            _ => None,
        }
    }
}

/// The content of a lock: the row and the family of its session's first cell, and the kind of its write.
#[derive(Debug, PartialEq, Eq, Drop)]
pub struct Lock {
    pub row: Row,
    pub family: Family,
    pub kind: WriteKind,
}

/// Splits a lock's value into the place and the kind of its write, whose byte comes last. A value that ends with no
/// kind's byte is of an older form: all of it is the place, and the kind is a set.
fn parted(text: &[u8]) -> (&[u8], WriteKind)
    ensures { IsParted text.now result.0.now result.1 }
{
    if let [place @ .., last] = text {
        if let Some(kind) = WriteKind::of_byte(*last) {
            return (place, kind);
        }
    }
    (text, WriteKind::Set)
}

impl Lock {
    /// The value of a lock with this row, family and kind of write.
    pub fn encode(
        alloc: Global,
        row: &Row,
        family: &Family,
        kind: WriteKind,
    ) -> Result<Vec<u8>, Refusal>
        ensures text { IfOk result (λ text. text.items ≡ lock_text row.now family.now kind) }
        ensures few { IfOk result (λ text. length text.items ≤ 8069) }
        ensures refusal { IfErr result (λ refusal. refusal ≡ Refusal.NoMemory) }
    {
        let row = row.as_bytes();
        let family = family.as_bytes();
        let row_len = escapes::escaped_len(row);
        let len = row_len + family.len() + 5;
        let mut text = Vec::with_capacity(alloc, len)?;
        escapes::push_escaped(&mut text, row, row_len);
        escapes::push_bytes(&mut text, b"\0\0");
        escapes::push_bytes(&mut text, family);
        escapes::push_bytes(&mut text, b"\0\0");
        text.push_reserved(kind.byte());
        Ok(text)
    }

    /// The content of a lock with this value; `None` if it has no row and family within their limits. A value without a
    /// kind is of an older form and means a set. Answers `NoMemory` if there is no memory for the names.
    pub fn decode(alloc: Global, text: &[u8]) -> Result<Option<Lock>, Refusal>
        ensures found { IfOk result (λ found. IfSome found (λ lock.
            IsLockText lock.row lock.family lock.kind text.now)) }
        ensures none { IfOk result (λ found. IfNone found ((row family : List ℕ) (kind : Kind)
            → IsRow row → IsFamily family → ¬ IsLockText row family kind text.now)) }
        ensures refusal { IfErr result (λ refusal. refusal ≡ Refusal.NoMemory) }
    {
        let (place, kind) = parted(text);
        let Some((row, family)) = decode_place(alloc, place)? else {
            return Ok(None);
        };
        Ok(Some(Lock { row, family, kind }))
    }

    /// The kind of write of a lock with this value, whatever its place is. Allocates nothing.
    pub fn kind_of(text: &[u8]) -> WriteKind
        ensures { (place : List ℕ) × IsParted text.now place result }
    {
        parted(text).1
    }
}

/// The content of a write record: the start of its session, and the kind of its write.
#[derive(Clone, Copy, Debug, PartialEq, Eq)]
pub struct Record {
    pub start: Stamp,
    pub kind: WriteKind,
}

impl Record {
    /// The value of the write record.
    pub fn encode(self, alloc: Global) -> Result<Vec<u8>, Refusal>
        ensures text { IfOk result (λ text. text.items ≡ record_text self.start self.kind) }
        ensures refusal { IfErr result (λ refusal. refusal ≡ Refusal.NoMemory) }
    {
        let mut start = [0u8; 8];
        BigEndian::write_u64(&mut start, self.start);
        let mut text = Vec::with_capacity(alloc, 9)?;
        escapes::push_bytes(&mut text, &start);
        text.push_reserved(self.kind.byte());
        Ok(text)
    }

    /// The content of a write record with this value; `None` if it is no write record's. A value of eight bytes,
    /// without a kind, is of an older form and means a set. Allocates nothing.
    pub fn decode(text: &[u8]) -> Option<Record>
        ensures named { IfSome result (λ named. NamesWrite text.now named.start named.kind) }
        ensures none { IfNone result ((t : ℕ) (kind : Kind) → ¬ NamesWrite text.now t kind) }
    {
        let kind = match text.len() {
            8 => WriteKind::Set,
            9 => WriteKind::of_byte(text[8])?,
            _ => return None,
        };
        let start = BigEndian::read_u64(text);
        Some(Record { start, kind })
    }
}
