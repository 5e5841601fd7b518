//! Tests of remote rows and stamps.

mod memory;
mod pipes;
mod row_calls;
mod stamps;
