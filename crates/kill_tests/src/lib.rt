//! Tests of a server with a log: the log's bytes, and kills at each call of the devices.
#![tactic(auto)]

#[cfg(test)]
mod tests;
