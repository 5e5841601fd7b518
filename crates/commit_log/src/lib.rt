//! A log of records that survive a kill: frames of bytes, a log in memory, and a log in a file of a folder.
#![tactic(auto)]

mod checksums;
mod edits;
mod faults;
mod fields;
mod file_log;
mod files;
mod folder;
mod frames;
pub mod laws;
mod logs;
mod mem_file;
mod memory;
mod numbered;
mod numbers;
mod records;
mod store_log;

pub use checksums::crc32;
pub use edits::{edited_key, edits_in, entries_len, push_edits};
pub use faults::LogFault;
pub use file_log::FileLog;
pub use files::LogFile;
pub use folder::{DirFile, DirLog, OpenLog, make_log, open_log, read_opened};
pub use frames::{HEAD, LONGEST_RECORD, Reading, first_record, frame_of, read_log};
pub use logs::Log;
pub use mem_file::MemFile;
pub use memory::MemLog;
pub use numbered::BEFORE_BODY;
pub use records::{RecordKind, greatest_stamp, is_over_any, names_root, root_sum_bytes};
pub use store_log::{new_log, upgrade_log};
