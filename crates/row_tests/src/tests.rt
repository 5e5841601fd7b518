//! Tests of rows: clusters of tablets, sessions over rows, and the oracle.

mod asks;
mod caches;
mod clusters;
mod memory;
mod merges;
mod recorded;
mod shared;
mod stamps;
