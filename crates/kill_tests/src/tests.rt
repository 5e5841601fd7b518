//! Tests of a server with a log: the log's bytes, and kills at each call of the devices.

mod kills;
mod logs;
mod memory;
mod power;
mod servers;
mod stopping;

use server_loop::FlushLimits;

/// The limits at which memtables are compacted.
const FLUSH: FlushLimits = FlushLimits {
    entries: 10_000,
    bytes: None,
};
