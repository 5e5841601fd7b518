//! Folders for the tests.

use std::rt::Files as Folders;
use std::{fs, io};

/// A new folder in the machine's temporary folder, named after the process number and this name.
pub fn new_folder<R: AllocGlobal + Folders>(
    rt: &R,
    process: u32,
    name: &str,
) -> io::Result<String> {
    let folder = format!(in rt.alloc(); "/tmp/duqishom-{process}-{name}")?;
    let _ = fs::remove_dir_all(rt, folder.as_str());
    fs::create_dir(rt, folder.as_str())?;
    Ok(folder)
}
