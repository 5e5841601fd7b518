//! Tests of rows and stamps that another program keeps: the bytes of each message, and what is answered.
#![tactic(auto)]

#[cfg(test)]
mod tests;
