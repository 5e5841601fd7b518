//! A server of several over one row store: it answers the requests of its own sessions, cleaners and collectors.
#![tactic(auto)]

mod cleaners;
mod collectors;
mod handler;
mod serve;
mod server;
mod sessions;

pub use serve::serve_clients;
pub use server::RowServer;
