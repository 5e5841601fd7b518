//! Files in pieces with checksums, over other files.
#![tactic(auto)]

mod atomic_put;
mod files;
mod format;
mod pieces;
mod runs;

pub use files::{SumFiles, SumWriting};
pub use format::{give_sums, has_sums};
