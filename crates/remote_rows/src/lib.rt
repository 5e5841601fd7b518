//! Rows and stamps that another program keeps, which several servers share.
#![tactic(auto)]

mod faults;
mod held_row;
mod memory_wire;
mod messages;
mod pipe_wire;
mod remote_rows;
mod remote_stamps;
mod replies;
mod shared;
mod span;
mod wire;

pub use memory_wire::MemoryWire;
pub use pipe_wire::PipeWire;
pub use remote_rows::RemoteRows;
pub use remote_stamps::RemoteStamps;
pub use shared::{SharedRows, SharedStamps};
pub use wire::{FetchedRow, Page, RowWire, StampWire, Swap};
