//! Sources of entries, merged (Bigtable, tablet serving: compactions).
#![tactic(auto)]

mod bounded;
mod input;
mod laws;
mod merge;
mod merge_step;
mod values;
mod writing;

pub use bounded::Bounded;
pub use input::Input;
pub use laws::{keeps_one_list, merges_ranges, names_first, writes_entry_lists};
pub use merge::Merge;
pub use merge_step::merge_on;
pub use writing::merge_into;
