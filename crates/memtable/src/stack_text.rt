//! Texts of keys on the stack, so that a search needs no allocation.

ghost use Rattle.std.specs.Prelude.{◌≡◌, ◌<◌, ◌≤◌, ◌++◌, [], length, OnErr, OnOk};
ghost use Rattle.cell_key.specs.Keys.{qualifier_name, text};
ghost use Rattle.cell_key.specs.Texts.{escaped, ended};
ghost use Rattle.memtable.specs.Order.{key_of};

use crate::sought::Version;
use arrayvec::{ArrayVec, CapacityError};
use byteorder::{BigEndian, ByteOrder};
use cell_key::Qualifier;

/// A buffer for a short text.
pub(crate) type ShortBytes = ArrayVec<u8, 96>;

/// A buffer for the text of any key: the longest has 8,083 bytes.
pub(crate) type LongBytes = ArrayVec<u8, 8192>;

/// How many bytes are tested at once.
const CHUNK: usize = 32;

/// 32 zeros.
const ZEROS: &[u8] = b"\0\0\0\0\0\0\0\0\0\0\0\0\0\0\0\0\0\0\0\0\0\0\0\0\0\0\0\0\0\0\0\0";

/// The same zeros, escaped.
const ESCAPED_ZEROS: &[u8] = b"\0\xFF\0\xFF\0\xFF\0\xFF\0\xFF\0\xFF\0\xFF\0\xFF\
    \0\xFF\0\xFF\0\xFF\0\xFF\0\xFF\0\xFF\0\xFF\0\xFF\0\xFF\0\xFF\0\xFF\0\xFF\
    \0\xFF\0\xFF\0\xFF\0\xFF\0\xFF\0\xFF\0\xFF\0\xFF\0\xFF\0\xFF\0\xFF\0\xFF";

/// Appends bytes one by one, with each 0 escaped as 0 and 255. Fails if there is no room.
fn push_each<const CAP: usize>(
    out: &mut ArrayVec<u8, CAP>,
    bytes: &[u8],
) -> Result<(), CapacityError>
    ensures ok { OnOk result (out.new.items ≡ out.old.items ++ escaped bytes.now) }
    ensures full { OnErr result (CAP < length (out.old.items ++ escaped bytes.now)) }
{
    for byte in bytes {
        if *byte == 0 {
            out.try_extend_from_slice(b"\0\xFF")?;
        } else {
            out.try_extend_from_slice(&[*byte])?;
        }
    }
    Ok(())
}

/// Appends some bytes, with each 0 escaped as 0 and 255. Bytes without a 0, and 32 zeros, are copied at once.
fn push_chunk<const CAP: usize>(
    out: &mut ArrayVec<u8, CAP>,
    chunk: &[u8],
) -> Result<(), CapacityError>
    ensures ok { OnOk result (out.new.items ≡ out.old.items ++ escaped chunk.now) }
    ensures full { OnErr result (CAP < length (out.old.items ++ escaped chunk.now)) }
{
    if !chunk.contains(&0) {
        return out.try_extend_from_slice(chunk);
    }
    if chunk == ZEROS {
        return out.try_extend_from_slice(ESCAPED_ZEROS);
    }
    push_each(out, chunk)
}

/// Appends a row, with each 0 escaped as 0 and 255. Fails if there is no room.
fn push_escaped<const CAP: usize>(
    out: &mut ArrayVec<u8, CAP>,
    row: &[u8],
) -> Result<(), CapacityError>
    ensures ok { OnOk result (out.new.items ≡ out.old.items ++ escaped row.now) }
    ensures full { OnErr result (CAP < length (out.old.items ++ escaped row.now)) }
{
    if out.remaining_capacity() < row.len() {
        return out.try_extend_from_slice(row);
    }
    if !row.contains(&0) {
        return out.try_extend_from_slice(row);
    }
    let mut left = row;
    'chunks: while !left.is_empty() {
        let (chunk, rest) = left.split_at(left.len().min(CHUNK));
        push_chunk(out, chunk)?;
        left = rest;
    }
    Ok(())
}

/// Appends a part and its end. Fails if there is no room.
fn push_ended<const CAP: usize>(
    out: &mut ArrayVec<u8, CAP>,
    part: &[u8],
) -> Result<(), CapacityError>
    ensures ok { OnOk result (out.new.items ≡ out.old.items ++ ended part.now) }
    ensures full { OnErr result (CAP < length (out.old.items ++ ended part.now)) }
{
    out.try_extend_from_slice(part)?;
    out.try_extend_from_slice(b"\0\0")
}

/// Appends a qualifier's name and its end, as an array of known length. Fails if there is no room.
fn push_name<const CAP: usize>(
    out: &mut ArrayVec<u8, CAP>,
    qualifier: Qualifier,
) -> Result<(), CapacityError>
    ensures ok { OnOk result (out.new.items
        ≡ out.old.items ++ ended (qualifier_name qualifier)) }
    ensures full { OnErr result
        (CAP < length (out.old.items ++ ended (qualifier_name qualifier))) }
{
    match qualifier {
        Qualifier::Data => out.try_extend_from_slice(b"data\0\0"),
        Qualifier::Lock => out.try_extend_from_slice(b"lock\0\0"),
        Qualifier::Write => out.try_extend_from_slice(b"write\0\0"),
    }
}

impl Version<'_> {
    /// Appends the text. Fails if there is no room.
    pub(crate) fn push_text<const CAP: usize>(
        self,
        out: &mut ArrayVec<u8, CAP>,
    ) -> Result<(), CapacityError>
        ensures ok { OnOk result (out.new.items ≡ out.old.items ++ text (key_of self.entry)) }
        ensures full { OnErr result (CAP < length (out.old.items ++ text (key_of self.entry))) }
    {
        let stamp = self.stamp;
        let mut falling = [0u8; 8];
        BigEndian::write_u64(&mut falling, u64::MAX - stamp);
        push_escaped(out, self.row.as_bytes())?;
        out.try_extend_from_slice(b"\0\0")?;
        push_ended(out, self.family.as_bytes())?;
        push_name(out, self.qualifier)?;
        out.try_extend_from_slice(falling.as_slice())
    }

    /// Appends the text. There is always room.
    pub(crate) fn push_long_text(self, out: &mut LongBytes)
        requires { out.old.items ≡ [] }
        ensures { out.new.items ≡ text (key_of self.entry) }
    {
        // These calls show that row and family are within their limits.
        let _row = self.row.as_bytes();
        let _family = self.family.as_bytes();
        self.push_text(out).unwrap();
    }
}
