//! Pipes that take only the wanted messages, and give the replies of a list.

use remote_rows::PipeWire;
use std::alloc::Global;
use std::io;
use std::io::Write;

/// A pipe that takes only these messages, one at each write.
#[derive(Drop)]
pub struct Wanted {
    messages: &'static [&'static [u8]],
    at: usize,
}

impl Write for Wanted {
    fn write(&mut self, bytes: &[u8]) -> io::Result<usize> {
        let message = self.messages.get(self.at).copied();
        if message != Some(bytes) {
            return Err(io::Error::other("another message"));
        }
        self.at = self.at.saturating_add(1);
        Ok(bytes.len())
    }

    fn flush(&mut self) -> io::Result<()> {
        Ok(())
    }
}

/// A wire that takes only these messages, and gives these replies.
pub fn new_wire(
    alloc: Global,
    messages: &'static [&'static [u8]],
    replies: &'static [u8],
) -> PipeWire<Wanted, &'static [u8]> {
    PipeWire::new(alloc, Wanted { messages, at: 0 }, replies)
}
