//! Keys, and the bodies of requests and replies.

use cell_key::{CellKey, Family, Lock, Qualifier, Refusal, Row, WriteKind};
use request_codec::{
    Answer, Operation, Reply, Request, decode_answer, decode_operation, decode_reply,
    decode_request, encode_answer, encode_operation, encode_reply, encode_request,
};
use std::alloc::Global;
use testing::memory::{Call, Subject, Table};

/// A key of the row `a\0b`, and a text that bytes are appended to.
#[derive(Drop)]
pub struct Keys {
    key: CellKey,
    text: Vec<u8>,
}

const KEY: &[u8] = b"a\0\xFFb\0\0bal\0\0data\0\0\xFF\xFF\xFF\xFF\xFF\xFF\xFF\xFE";

/// Names that need an allocation.
const LONG_ROW: &[u8] = b"the name of a row that takes memory";

const LONG_FAMILY: &[u8] = b"family_of_columns";

const GET: &[u8] = b"\x02\0\0\0\0\0\0\0\x01\0\0\0\x01a\0\0\0\x03bal";

const RAW: &[u8] = b"\x91\x01\0\0\0\0\0\0\0\x01\0\0\0\x06m\0\0c\0\0";

/// A Commit of one deletion.
const COMMIT: &[u8] = b"\x32\0\0\0\0\0\0\0\x01\0\0\0\x01\0\0\0\x01m\0\0\0\x01c\0";

/// A Read's answer that tells of one cell, which has nothing.
const TOLD: &[u8] = b"\xB3\0\0\0\0\0\0\0\x01\0\0\0\x01\0";

const CALLS: [Call; 15] = [
    // Row::new
    (LONG_ROW, b"text"),
    // Family::new
    (LONG_FAMILY, b"text"),
    // CellKey::clone
    (b"a\0b", b"text"),
    // Row::fence
    (b"a\0\xFFb\0\0\xFF", b"text"),
    // Lock::encode
    (b"a\0\xFFb\0\0bal\0\0S", b"text"),
    // CellKey::encode
    (
        b"",
        b"texta\0\xFFb\0\0bal\0\0data\0\0\xFF\xFF\xFF\xFF\xFF\xFF\xFF\xFE",
    ),
    // CellKey::decode
    (b"a\0b", b"text"),
    // CellKey::decode of no key
    (b"", b"text"),
    // encode_request
    (b"", b"text\x02\0\0\0\0\0\0\0\x01\0\0\0\x01a\0\0\0\x03bal"),
    // encode_reply
    (b"", b"text\x81\0\0\0\0\0\0\0\x07"),
    // decode_reply
    (b"m\0\0c\0\0", b"text"),
    // decode_operation
    (b"m", b"text"),
    // decode_answer
    (b"", b"text"),
    // encode_operation
    (b"", b"text\x01"),
    // encode_answer
    (b"", b"text\x81\0\0\0\0\0\0\0\x07"),
];

/// Whether the key of a text has this row. If the text is malformed, the wanted row must be empty.
fn is_decoded(alloc: Global, text: &[u8], wanted: &[u8]) -> Result<bool, Refusal> {
    match CellKey::decode(alloc, text)? {
        Some(key) => Ok(key.row.as_bytes() == wanted),
        None => Ok(wanted.is_empty()),
    }
}

/// Whether it is a Commit whose first write is under this row.
fn commits_row(operation: &Option<Operation<'_>>, wanted: &[u8]) -> bool {
    let Some(Operation::Commit { writes, .. }) = operation else {
        return false;
    };
    match writes.first() {
        Some(write) => write.cell.row == wanted,
        None => false,
    }
}

/// Whether the Commit is read, with its row.
fn is_commit_read(alloc: Global, wanted: &[u8]) -> Result<bool, Refusal> {
    let operation = decode_operation(alloc, COMMIT)?;
    Ok(commits_row(&operation, wanted))
}

/// Whether the Read's answer is read, with its one cell.
fn is_answer_read(alloc: Global) -> Result<bool, Refusal> {
    match &decode_answer(alloc, TOLD)? {
        Some(Answer::Read(reply)) => Ok(reply.found.len() == 1),
        _ => Ok(false),
    }
}

impl Keys {
    /// Calls of names, and of a raw reply.
    fn names(&self, alloc: Global, number: usize, wanted: &[u8]) -> Result<bool, Refusal> {
        match number {
            0 => Ok(Row::new(alloc, LONG_ROW)?.as_bytes() == wanted),
            1 => Ok(Family::new(alloc, LONG_FAMILY)?.as_bytes() == wanted),
            2 => Ok(self.key.clone()?.row.as_bytes() == wanted),
            3 => Ok(self.key.row.fence(alloc)?.as_slice() == wanted),
            4 => {
                let (row, family) = (&self.key.row, &self.key.family);
                Ok(Lock::encode(alloc, row, family, WriteKind::Set)?.as_slice() == wanted)
            }
            _ => match decode_reply(alloc, RAW)? {
                Some(Reply::Raw(Some((_, value)))) => Ok(value.as_slice() == wanted),
                _ => Ok(false),
            },
        }
    }

    /// Writes a request after the text.
    fn write_request(&mut self) -> Result<(), Refusal> {
        match decode_request(GET) {
            Some(request) => encode_request(&request, &mut self.text),
            None => Err(Refusal::BadRequest),
        }
    }
}

pub const KEYS: Table = (b"text", &CALLS);

impl Subject for Keys {
    fn set_up(alloc: Global) -> Result<Keys, Refusal> {
        let row = Row::new(alloc, b"a\0b")?;
        let family = Family::new(alloc, b"bal")?;
        let text = Vec::from_slice(alloc, b"text")?;
        let key = CellKey {
            row,
            family,
            qualifier: Qualifier::Data,
            stamp: 1,
        };
        Ok(Keys { key, text })
    }

    fn answers(&mut self, alloc: Global, number: usize, wanted: &[u8]) -> Result<bool, Refusal> {
        match number {
            5 => self.key.encode(&mut self.text)?,
            6 => return is_decoded(alloc, KEY, wanted),
            7 => return is_decoded(alloc, b"a\0", wanted),
            8 => self.write_request()?,
            9 => encode_reply(&Reply::Begin(7), &mut self.text)?,
            11 => return is_commit_read(alloc, wanted),
            12 => return is_answer_read(alloc),
            13 => encode_operation(&Operation::One(Request::Begin), &mut self.text)?,
            14 => encode_answer(&Answer::Said(Reply::Begin(7)), &mut self.text)?,
            _ => return self.names(alloc, number, wanted),
        }
        Ok(wanted.is_empty())
    }

    fn read(&mut self, alloc: Global) -> Result<Vec<u8>, Refusal> {
        Ok(Vec::from_slice(alloc, &self.text)?)
    }
}
