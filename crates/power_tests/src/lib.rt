//! Devices in memory of which a loss of power leaves less than a kill does, and servers with a log over them.
#![tactic(auto)]

mod cached_files;
mod cached_log;
mod cached_mark;
mod fates;
mod servers;

pub use cached_files::CachedFiles;
pub use cached_log::CachedLogFile;
pub use cached_mark::CachedMark;
pub use fates::{Choice, Fate, Fates};
pub use servers::{CachedDevices, CachedServer, open, serve};
