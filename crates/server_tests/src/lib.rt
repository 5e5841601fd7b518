//! Tests of a server, as its users meet it.
#![tactic(auto)]

#[cfg(test)]
mod tests;
