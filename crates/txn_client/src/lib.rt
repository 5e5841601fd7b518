//! Sessions over rows of cells, each of whose calls is a step of the snapshot machine.
#![tactic(auto)]

mod cell_order;
mod cell_reads;
mod cells;
mod laws;
mod newest_read;
mod puts;
mod range;
mod scan;
mod session;
mod sessions;
mod steps;
mod takings;
mod transactions;
mod value;
mod writes;

pub use laws::shows_on;
pub use sessions::Clients;
