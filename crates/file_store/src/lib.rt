//! Files named by numbers, with files in memory and in a folder.
#![tactic(auto)]

mod fail;
mod files;
mod folder;
mod memory;
mod open_files;
mod whole;

pub use fail::{Fail, FailAt};
pub use files::{FileFault, Files};
pub use folder::{DirFiles, DirWriting};
pub use memory::{MemFiles, MemWriting};
pub use whole::read_whole;
