//! Tests of files in pieces with checksums, over files in memory.

mod damages;
mod formats;

/// The name below of the file 7 in format 3.
const SEVEN: u64 = 0x8000_0000_0000_0007;
