//! Files, sorted files, tablets and the metadata table: calls that allocate.

pub mod files;
pub mod tablets;

use std::test::Fail;
use testing::memory::are_answered;

#[test]
fn calls_of_storage(rt: HostRuntime) -> Result<(), Fail> {
    assert!(rt; are_answered::<files::Stored>(rt.alloc(), files::STORED)?);
    assert!(rt; are_answered::<files::Sorted>(rt.alloc(), files::SORTED)?);
    assert!(rt; are_answered::<tablets::Served>(rt.alloc(), tablets::SERVED)?);
    assert!(rt; are_answered::<tablets::Placed>(rt.alloc(), tablets::PLACED)?);
    Ok(())
}
