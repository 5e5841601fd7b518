//! Servers: calls that allocate.

pub mod servers;

use std::test::Fail;
use testing::memory::are_answered;

#[test]
fn calls_of_servers(rt: HostRuntime) -> Result<(), Fail> {
    assert!(rt; are_answered::<servers::Asked>(rt.alloc(), servers::ASKED)?);
    Ok(())
}
