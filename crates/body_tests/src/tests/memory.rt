//! Keys and bodies: calls that allocate.

pub mod keys;

use std::test::Fail;
use testing::memory::are_answered;

#[test]
fn calls_of_bodies(rt: HostRuntime) -> Result<(), Fail> {
    assert!(rt; are_answered::<keys::Keys>(rt.alloc(), keys::KEYS)?);
    Ok(())
}
