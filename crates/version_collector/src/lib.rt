//! Collectors over rows of cells: each erases old versions that no session can read any more, and each call is a step of
//! the snapshot machine.
#![tactic(auto)]

mod ahead;
mod collector;
mod collectors;
mod erasing;
mod laws;
mod versions;

pub use collectors::Collectors;
pub use laws::{shows_on, shows_same};
