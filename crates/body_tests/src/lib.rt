//! Tests of the bodies of requests and replies, and of the audit's judgements of recorded ones.
#![tactic(auto)]

#[cfg(test)]
mod tests;
