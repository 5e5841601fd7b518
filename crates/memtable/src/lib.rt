//! A sorted buffer of the recent writes of a tablet (Bigtable, tablet serving: the memtable).
#![tactic(auto)]

mod blocks;
mod cursor;
mod entries;
mod key_text;
mod prepared;
mod searches;
mod size;
mod sought;
mod stack_text;
mod staging;
mod stamp_range;
mod table;

pub use cursor::Cursor;
pub use prepared::Prepared;
pub use table::Memtable;
