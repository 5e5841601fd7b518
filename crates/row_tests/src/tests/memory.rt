//! Rows and sessions: calls that allocate.

pub mod clusters;
pub mod sessions;

use std::test::Fail;
use testing::memory::are_answered;

#[test]
fn calls_of_rows(rt: HostRuntime) -> Result<(), Fail> {
    assert!(rt; are_answered::<clusters::Plain>(rt.alloc(), clusters::PLAIN)?);
    assert!(rt; are_answered::<clusters::Clustered>(rt.alloc(), clusters::CLUSTERED)?);
    assert!(rt; are_answered::<clusters::Parted>(rt.alloc(), clusters::PARTED)?);
    assert!(rt; are_answered::<sessions::Sessions>(rt.alloc(), sessions::SESSIONS)?);
    Ok(())
}
