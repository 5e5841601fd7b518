//! Tests of the storage crates: names and texts, files, memtables, sorted files, tablets and the metadata table.

mod compactions;
mod damages;
mod files;
mod folders;
mod keys;
mod memory;
mod memtables;
mod places;
mod run_merges;
mod sorted_files;
