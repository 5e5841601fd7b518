//! Cleaners over rows of cells: each clears one abandoned lock, and each call is a step of the snapshot machine.
#![tactic(auto)]

mod cleaner;
mod cleaners;
mod clearing;
mod fates;
mod laws;
mod locks;

pub use cleaners::Cleaners;
pub use laws::{shows_on, shows_same};
