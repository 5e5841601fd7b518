//! Tests of limits that the program doesn't show, and of replies in each order of steps, judged by the audit.

mod audits;
mod limits;

use cell_key::Refusal;
use file_store::MemFiles;
use oracle::MemMark;
use server_loop::{Config, FlushLimits, Server};
use std::alloc::Global;
use testing::FILE_LIMIT;

type MemServer = Server<MemFiles, MemMark>;

/// A server over files in memory, each of `file_limit` bytes at most. In its box it is dropped by one call.
fn new_server(alloc: Global, file_limit: u64) -> Result<Box<MemServer>, Refusal> {
    if file_limit < 48 || file_limit > FILE_LIMIT {
        return Err(Refusal::FileTooLarge);
    }
    let flush = FlushLimits {
        entries: 10_000,
        bytes: None,
    };
    let config = Config { flush, file_limit };
    match Server::new(alloc, MemFiles::new(alloc), MemMark::new(), config) {
        Ok(server) => Ok(Box::new(alloc, server)?),
        Err((refusal, _, _)) => Err(refusal),
    }
}
