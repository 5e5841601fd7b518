//! The ends and faults of `serve`, and the program's exit statuses and messages.

ghost use Rattle.std.specs.Prelude.{◌≡◌};
ghost use Rattle.server_loop.specs.Statuses.{end_status_of, end_line_of, open_status_of, open_line_of};

use cell_key::Refusal;
use thiserror::Error;

/// How the input of `serve` ended.
#[derive(Clone, Copy, Debug, PartialEq, Eq)]
pub enum End {
    /// Between two frames.
    Clean,
    /// Inside a frame.
    Truncated,
    /// At a frame whose length is past the limit. The frame was refused, and nothing was read after the piece with the
    /// end of that length.
    TooLarge,
    /// After the permitted number of reads.
    ReadsUsedUp,
}

/// Why `serve` gave up.
#[derive(Debug, Drop, Error)]
pub enum ServeFault {
    /// A read failed.
    #[error("read failed")]
    Read,
    /// A write or a flush failed, or a write accepted no byte.
    #[error("write failed")]
    Write,
    /// The buffers could not be allocated. Nothing was read or written.
    #[error("no memory")]
    NoMemory,
    /// The log failed. No reply was written whose edits may be missing from the log.
    #[error("log failed")]
    Log,
}

/// The program's exit status after this end of `serve`, and its line on standard error, which is empty for status 0.
pub fn end_status(ended: &Result<End, ServeFault>) -> (u8, &'static str)
    ensures status { result.0 ≡ end_status_of ended.now }
    ensures line { result.1.now ≡ end_line_of ended.now }
{
    match ended {
        Ok(End::Clean) => (0, ""),
        Ok(End::Truncated) => (2, "tabletd: input ends inside a frame"),
        Ok(End::TooLarge) => (3, "tabletd: frame too large"),
        Ok(End::ReadsUsedUp) => (8, "tabletd: reads used up"),
        Err(ServeFault::Read | ServeFault::Write) => (6, "tabletd: read or write failed"),
        Err(ServeFault::NoMemory) => (7, "tabletd: no memory"),
        Err(ServeFault::Log) => (4, "tabletd: log failed"),
    }
}

/// The program's exit status if no server could be made or opened, and its line on standard error.
pub fn open_status(refusal: &Refusal) -> (u8, &'static str)
    ensures status { result.0 ≡ open_status_of refusal.now }
    ensures line { result.1.now ≡ open_line_of refusal.now }
{
    match refusal {
        Refusal::Device => (4, "tabletd: device failed at open"),
        Refusal::Damaged => (5, "tabletd: damaged at open"),
        _ => (7, "tabletd: no memory"),
    }
}
