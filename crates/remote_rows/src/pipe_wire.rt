//! A wire through two pipes. Its messages are in `specs/Messages.antt`, and each reply is a field too: its length as
//! four bytes, and its body.

ghost use Rattle.std.specs.Prelude.{◌≡◌, ◌≤◌, vec_len, Ok, Some, None, ⊤, true, IfOk, IfErr, IsErrOf, IsOkUnless};
ghost use Rattle.remote_rows.specs.Wires.{IsWireRefusal};

use crate::wire::{FetchedRow, Page, RowWire, StampWire, Swap};
use crate::{messages, replies};
use cell_key::{Edit, Family, Refusal, Row, Stamp};
use std::alloc::Global;
use std::io::{Read, Write};

/// The first byte of each reply: to a fetch, a swap, a page, a draw and the publishing of a floor.
const FETCHED: u8 = 0x81;

const SWAPPED: u8 = 0x82;

const PAGE: u8 = 0x83;

const DRAWN: u8 = 0x84;

const PUBLISHED: u8 = 0x85;

/// The only byte of a reply that says that the engine failed.
const FAILED: u8 = 0xFF;

/// The most bytes of a reply's body.
const MOST_REPLY: u32 = 268_435_456;

/// A wire through two pipes, whose other end tells nothing of its cells and stamps. Once a pipe has failed, or a reply
/// was malformed, each later call is refused with `Device` and asks nothing, since the pipes may be out of step.
#[derive(Drop)]
pub struct PipeWire<W: Write, R: Read> {
    alloc: Global,
    to: W,
    from: R,
    is_failed: bool,
    /// A request has begun, of which the other end isn't told yet.
    begins: bool,
}

impl<W: Write, R: Read> PipeWire<W, R> {
    /// A wire whose messages are written to `to`, and whose replies are read from `from`.
    pub fn new(alloc: Global, to: W, from: R) -> PipeWire<W, R> {
        PipeWire {
            alloc,
            to,
            from,
            is_failed: false,
            begins: false,
        }
    }

    /// Fails for good.
    fn fail<T>(&mut self) -> Result<T, Refusal>
        ensures { IsErrOf result Refusal.Device }
    {
        self.is_failed = true;
        Err(Refusal::Device)
    }

    /// Sends a message.
    fn send(&mut self, message: &[u8]) -> Result<(), Refusal>
        ensures { IsOkUnless result Refusal.Device }
    {
        if self.is_failed {
            return Err(Refusal::Device);
        }
        if self.to.write_all(message).is_err() || self.to.flush().is_err() {
            return self.fail();
        }
        Ok(())
    }

    /// Sends a message of a request. The first one comes behind the word that the request begins.
    fn send_of_request(&mut self, message: &[u8]) -> Result<(), Refusal>
        ensures { IsOkUnless result Refusal.Device }
    {
        if self.begins {
            self.send(&messages::begin_message())?;
            self.begins = false;
        }
        self.send(message)
    }

    /// Reads bytes.
    fn read(&mut self, bytes: &mut [u8]) -> Result<(), Refusal>
        ensures { IsOkUnless result Refusal.Device }
    {
        if self.from.read_exact(bytes).is_err() {
            return self.fail();
        }
        Ok(())
    }

    /// Reads the length of a reply's body, which has a byte at least, and `most` at most.
    fn read_len(&mut self, most: u32) -> Result<usize, Refusal>
        ensures some { IfOk result (λ len. 1 ≤ len) }
        ensures few { IfOk result (λ len. len ≤ most) }
        ensures refusal { IsOkUnless result Refusal.Device }
    {
        let mut bytes = [0u8; 4];
        self.read(&mut bytes)?;
        let len = u32::from_be_bytes(bytes);
        if len < 1 || len > most {
            return self.fail();
        }
        Ok(len as usize)
    }

    /// Checks the first byte of a reply.
    fn check(&mut self, kind: u8, found: u8, len: usize) -> Result<(), Refusal>
        ensures { IsOkUnless result Refusal.Device }
    {
        if found == kind {
            return Ok(());
        }
        if found == FAILED && len == 1 {
            return Err(Refusal::Device);
        }
        self.fail()
    }

    /// Asks for a reply of a kind, of any length, and returns its body. If there is no memory for it, the wire fails for
    /// good.
    fn ask(&mut self, message: &[u8], kind: u8) -> Result<Vec<u8>, Refusal>
        ensures some { IfOk result (λ body. 1 ≤ vec_len body) }
        ensures refusal { IfErr result IsWireRefusal }
    {
        self.send_of_request(message)?;
        let len = self.read_len(MOST_REPLY)?;
        let Ok(mut body) = vec![in self.alloc; 0u8; len] else {
            self.is_failed = true;
            return Err(Refusal::NoMemory);
        };
        self.read(body.as_mut_slice())?;
        self.check(kind, body[0], len)?;
        Ok(body)
    }

    /// Asks for a reply of a kind that has one byte more. Allocates nothing.
    fn ask_byte(&mut self, message: &[u8], kind: u8) -> Result<u8, Refusal>
        ensures { IsOkUnless result Refusal.Device }
    {
        self.send_of_request(message)?;
        let len = self.read_len(2)?;
        let mut body = [0u8; 2];
        self.read(&mut body[..len])?;
        self.check(kind, body[0], len)?;
        if len < 2 {
            return self.fail();
        }
        Ok(body[1])
    }

    /// Asks for a reply of a kind that has one number more. Allocates nothing.
    fn ask_number(&mut self, message: &[u8], kind: u8) -> Result<u64, Refusal>
        ensures { IsOkUnless result Refusal.Device }
    {
        self.send(message)?;
        let len = self.read_len(9)?;
        let mut body = [0u8; 9];
        self.read(&mut body[..len])?;
        self.check(kind, body[0], len)?;
        match replies::whole_u64(&body[1..len]) {
            Some(number) => Ok(number),
            None => self.fail(),
        }
    }

    /// What a reply told, or the fault of one that was malformed.
    fn told<T>(&mut self, found: Result<Option<T>, Refusal>) -> Result<T, Refusal>
        requires { IsOkUnless found Refusal.NoMemory }
        ensures told { IfOk result (λ value. found ≡ Ok (Some value)) }
        ensures refusal { IfErr result IsWireRefusal }
    {
        match found? {
            Some(value) => Ok(value),
            None => self.fail(),
        }
    }
}

impl<W: Write, R: Read> RowWire for PipeWire<W, R> {
    ghost seen = { record { cells = λ _. None; guard = λ _ _. 0 } };

    ghost failed = { λ wire. wire.is_failed };

    ghost begun = { λ wire. wire.begins ≡ true };

    fn begin(&mut self) {
        self.begins = true;
    }

    fn fetch(&mut self, row: &Row) -> Result<FetchedRow, Refusal> {
        let prefix = messages::row_prefix(self.alloc, row)?;
        let message = messages::fetch_message(self.alloc, &prefix)?;
        let body = self.ask(&message, FETCHED)?;
        let found = replies::fetched_row(self.alloc, row, &prefix, &body[1..]);
        self.told(found)
    }

    fn swap(&mut self, row: &Row, guard: u64, edits: Vec<Edit>) -> Result<Swap, Refusal> {
        let message = messages::swap_message(self.alloc, row, guard, &edits)?;
        match self.ask_byte(&message, SWAPPED)? {
            0 => Ok(Swap::Done),
            1 => Ok(Swap::Raced),
            _ => self.fail(),
        }
    }

    fn page(&mut self, after: Option<(&Row, &Family)>, most: u32) -> Result<Page, Refusal> {
        let from = messages::text_after(self.alloc, after)?;
        let message = messages::page_message(self.alloc, &from, most)?;
        let body = self.ask(&message, PAGE)?;
        let found = replies::page(self.alloc, &from, &body[1..]);
        self.told(found)
    }

    fn is_failed(&self) -> bool {
        self.is_failed
    }
}

impl<W: Write, R: Read> StampWire for PipeWire<W, R> {
    ghost last = { λ _. None };

    ghost told = { λ _ _. ⊤ };

    ghost failed = { λ wire. wire.is_failed };

    fn known(&self) -> Option<Stamp> {
        None
    }

    fn draw(&mut self) -> Result<Stamp, Refusal> {
        self.ask_number(&messages::draw_message(), DRAWN)
    }

    fn publish(&mut self, floor: Stamp) -> Result<Stamp, Refusal> {
        self.ask_number(&messages::publish_message(floor), PUBLISHED)
    }

    fn is_failed(&self) -> bool {
        self.is_failed
    }
}
