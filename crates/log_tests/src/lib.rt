//! Tests of logs: their bytes, a file that fails, a real folder, and the edits in records.
#![tactic(auto)]

#[cfg(test)]
mod tests;
