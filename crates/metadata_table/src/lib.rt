//! The metadata table: where each tablet's rows end, on which server it is, and which files it has
//! (Bigtable, tablet location). It has one level.
#![tactic(auto)]

mod laws;
mod places;
mod root;
mod search;
mod table;

pub use laws::{
    cut_ranges, cut_rows, holder_range, one_holder, one_measure, one_range, one_root, same_ranges,
};
pub use places::Place;
pub use root::Root;
pub use table::MetadataTable;
