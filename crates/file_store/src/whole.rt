//! Reading a whole file.

ghost use Rattle.std.specs.Prelude.{◌≡◌, option_map, IfOk, IfSome};
ghost use Rattle.std.specs.FinMap as map;
ghost use Rattle.file_store.specs.Store.{HasFaultCause};

use crate::files::{FileFault, Files};
use std::alloc::Global;

/// The bytes of a file, if it exists. Allocates as many bytes as the files answer for its size.
pub fn read_whole<F: Files>(
    alloc: Global,
    files: &mut F,
    name: u64,
) -> Result<Option<Vec<u8>>, FileFault>
    ensures ok { IfOk result (λ found.
        IfSome (F.contents files.old) (λ m. option_map (λ v. v.items) found ≡ map.get m name)) }
    ensures same { F.contents files.new ≡ F.contents files.old }
    ensures cause { HasFaultCause (F.faults files.old) (F.faults files.new) result }
{
    let Some(size) = files.size(name)? else {
        return Ok(None);
    };
    let mut bytes = vec![in alloc; 0; size as usize]?;
    let len = files.read_at(name, 0, &mut bytes)?;
    bytes.truncate(len);
    Ok(Some(bytes))
}
