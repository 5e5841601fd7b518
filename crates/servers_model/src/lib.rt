//! Several servers over one row store and one source of stamps: their requests, merged, are a run of the snapshot
//! machine.
#![tactic(auto)]

mod laws;
mod served;

pub use laws::{all_begin, merged_from_new, merged_runs, one_moment, served_at_one_moment};
pub use served::{
    floor_to_publish, serve_begin, serve_clean_begin, serve_clean_step, serve_collect_begin,
    serve_collect_step, serve_delete, serve_get, serve_scan, serve_set, serve_step, serve_stop,
    start,
};
