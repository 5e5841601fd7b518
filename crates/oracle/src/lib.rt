//! Strictly ascending stamps, from ranges whose last number is stored first.
#![tactic(auto)]

mod fail;
mod folder;
mod marks;
mod memory;
mod source;
mod stamps;

pub use fail::{Fail, FailMarkAt};
pub use folder::DirMark;
pub use marks::{MarkFault, MarkStore};
pub use memory::MemMark;
pub use stamps::Oracle;
