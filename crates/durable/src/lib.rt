//! A server with a log: its answers survive a kill.
#![tactic(auto)]

mod atomic_put;
mod clients;
mod journaled;
mod journaled_server;
mod recovery;
mod replay;
mod serve;
mod server;
mod stored_mark;

pub use atomic_put::AtomicPut;
pub use clients::serve_clients;
pub use row_atomic::ROOT_NAME;
pub use server::DurableServer;
