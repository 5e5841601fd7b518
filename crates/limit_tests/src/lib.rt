//! Tests of a server's limits, and of its replies in each order of steps, judged by the audit.
#![tactic(auto)]

#[cfg(test)]
mod tests;
