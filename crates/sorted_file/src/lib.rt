//! Files of entries in key order, and sources of entries (Bigtable, the SSTable).
#![tactic(auto)]

mod block;
mod bounds;
mod builder;
mod cache;
mod check;
mod cursor;
mod file;
mod filter;
mod format;
mod gathering;
mod key_filter;
mod laws;
mod lock_index;
mod lock_stamps;
mod lock_values;
mod lookup_key;
mod numbers;
mod partial_file;
mod source;
mod writer;

pub use cache::few_blocks;
pub use cursor::FileCursor;
pub use file::SortedFile;
pub use key_filter::KeyFilter;
pub use laws::{
    one_image, one_list, one_listing, open_is_there, rest_is_list, stays_covered, stays_indexed,
    stays_open, written_is_listed, written_is_there,
};
pub use lock_index::LockIndex;
pub use lookup_key::LookupKey;
pub use partial_file::PartialFile;
pub use source::{Source, refusal_of};
pub use writer::write_file;
