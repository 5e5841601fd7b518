//! Tests of the bodies of requests and replies, and of the audit's judgements of recorded ones.

mod bodies;
mod memory;
mod operations;
mod recorded_operations;
mod recordings;
