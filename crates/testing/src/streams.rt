//! Readers and writers for the tests.

ghost use Rattle.std.specs.Prelude.{Some, drop};

use std::alloc::{AllocError, Global};
use std::cell::Cell;
use std::io;
use std::io::{Read, Write};

/// A reader of bytes. A read gives at most `most` of them, and doesn't cross the offset `cut`. It fails at the offset
/// `fails_at`.
#[derive(Drop)]
pub struct Pieces {
    pub bytes: Vec<u8>,
    pub at: usize,
    pub most: usize,
    pub cut: usize,
    pub fails_at: usize,
}

impl Pieces {
    /// A reader that gives all bytes asked for.
    pub fn new(alloc: Global, bytes: &[u8]) -> Result<Pieces, AllocError> {
        Ok(Pieces {
            bytes: bytes.to_vec(alloc)?,
            at: 0,
            most: usize::MAX,
            cut: 0,
            fails_at: usize::MAX,
        })
    }
}

impl Read for Pieces {
    fn read(&mut self, buf: &mut [u8]) -> io::Result<usize> {
        if self.at == self.fails_at {
            return Err(io::Error::other("broken"));
        }
        let mut count = buf.len().min(self.most);
        if self.at < self.cut {
            count = count.min(self.cut - self.at);
        }
        let Some((_, rest)) = self.bytes.split_at_checked(self.at) else {
            return Ok(0);
        };
        let count = count.min(rest.len());
        buf[..count].copy_from_slice(&rest[..count]);
        self.at += count;
        Ok(count)
    }
}

/// A reader that gives all bytes asked for, and records the size of each read's buffer.
#[derive(Drop)]
pub struct Recording<'a> {
    pub rest: &'a [u8],
    pub asked: Vec<usize>,
}

impl Read for Recording<'_> {
    fn read(&mut self, buf: &mut [u8]) -> io::Result<usize> {
        self.asked.push(buf.len())?;
        self.rest.read(buf)
    }
}

/// A writer that takes one byte a call. After `calls_left` calls it fails or, if it `stalls`, takes nothing more.
#[derive(Drop)]
pub struct Narrow {
    pub written: Vec<u8>,
    pub calls_left: usize,
    pub stalls: bool,
}

impl Write for Narrow {
    fn write(&mut self, buf: &[u8]) -> io::Result<usize> {
        if self.calls_left == 0 && self.stalls {
            return Ok(0);
        }
        if self.calls_left == 0 {
            return Err(io::Error::other("broken"));
        }
        let Some(byte) = buf.first() else {
            return Ok(0);
        };
        self.calls_left -= 1;
        self.written.push(*byte)?;
        Ok(1)
    }

    fn flush(&mut self) -> io::Result<()> {
        Ok(())
    }
}

/// A reader of two requests that fails if the second is asked for before the reply to the first was flushed.
#[derive(Drop)]
pub struct Asking<'a> {
    pub first: &'a [u8],
    pub second: &'a [u8],
    pub left: &'a Cell<bool>,
}

impl Read for Asking<'_> {
    fn read(&mut self, buf: &mut [u8]) -> io::Result<usize> {
        if !self.first.is_empty() {
            return self.first.read(buf);
        }
        if !self.left.get() {
            return Err(io::Error::other("asked too early"));
        }
        self.second.read(buf)
    }
}

/// A writer that sets `left` when it flushes bytes.
#[derive(Drop)]
pub struct Telling<'a> {
    pub written: Vec<u8>,
    pub left: &'a Cell<bool>,
}

impl Write for Telling<'_> {
    fn write(&mut self, buf: &[u8]) -> io::Result<usize> {
        self.written.extend_from_slice(buf)?;
        Ok(buf.len())
    }

    fn flush(&mut self) -> io::Result<()> {
        self.left.set(!self.written.is_empty());
        Ok(())
    }
}

/// A writer that holds bytes until a flush, and fails after `flushes_left` flushes.
#[derive(Drop)]
pub struct Holding {
    pub held: Vec<u8>,
    pub out: Vec<u8>,
    pub flushes_left: usize,
}

impl Holding {
    /// A writer that never fails.
    pub fn new(alloc: Global) -> Holding {
        Holding {
            held: Vec::new(alloc),
            out: Vec::new(alloc),
            flushes_left: usize::MAX,
        }
    }
}

impl Write for Holding {
    fn write(&mut self, buf: &[u8]) -> io::Result<usize> {
        self.held.extend_from_slice(buf)?;
        Ok(buf.len())
    }

    fn flush(&mut self) -> io::Result<()> {
        if self.flushes_left == 0 {
            return Err(io::Error::other("broken"));
        }
        self.flushes_left -= 1;
        self.out.extend_from_slice(&self.held)?;
        self.held.clear();
        Ok(())
    }
}
