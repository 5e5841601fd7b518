//! Tests of rows: clusters of tablets, sessions over rows, and the oracle.
#![tactic(auto)]

#[cfg(test)]
mod tests;
