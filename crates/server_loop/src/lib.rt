//! The server: it answers a stream of framed requests, reply by reply, as a run of the snapshot machine.
#![tactic(auto)]

mod cleaners;
mod client_server;
mod collectors;
mod debt;
mod frame_loop;
mod frames;
mod journals;
mod laws;
mod opening;
mod scans;
mod server;
mod sessions;
mod status;
mod statuses;
mod transactions;
mod upkeep;

pub use audit::Audit;
pub use client_server::{ClientServer, Lookup};
pub use frame_loop::{
    FrameHandler, Handler, Incoming, LONGEST_FRAME, Rest, answer_incoming, serve_all,
};
pub use laws::{
    commits_keep_collectors, operations_keep_collectors, operations_leave_others, resting_is_kept,
    rests_between,
};
pub use row_atomic::{FlushLimits, MergePolicy};
pub use server::{Config, Server};
pub use statuses::{End, ServeFault, end_status, open_status};
pub use upkeep::RootName;
