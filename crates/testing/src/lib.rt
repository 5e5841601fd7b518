//! Shared code of the test crates: requests with their replies, edits, readers and writers, folders, and calls that are
//! repeated after a refused allocation.
#![tactic(auto)]

pub mod cleaning;
pub mod collecting;
pub mod deleting;
pub mod edits;
pub mod folders;
pub mod frames;
pub mod memory;
pub mod rows;
pub mod scanning;
pub mod script;
pub mod streams;
pub mod transactions;
pub mod upkeep;

/// The maximum size of a sorted file in bytes.
pub const FILE_LIMIT: u64 = 68_719_476_736;

/// The root of a new store.
pub const NEW_ROOT: &[u8] =
    b"TABROOT2\0\0\0\0\0\0\0\0\0\0\0\0\0\0\0\0\0\0\0\0\0\0\0\x01\0\0\0\x02\0\0\0\x01\0\0\0\x01\x01\0\0\0\0\0TABROOTZ";
