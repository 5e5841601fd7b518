//! Tests of the storage crates: names and texts, files, memtables, sorted files, tablets and the metadata table.
#![tactic(auto)]

#[cfg(test)]
mod tests;
