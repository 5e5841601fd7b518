//! Tests of files in pieces with checksums.
#![tactic(auto)]

#[cfg(test)]
mod tests;
