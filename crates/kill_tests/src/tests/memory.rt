//! Servers with a log: calls that allocate.

pub mod logs;

use std::test::Fail;
use testing::memory::are_answered;

#[test]
fn calls_of_servers_with_a_log(rt: HostRuntime) -> Result<(), Fail> {
    assert!(rt; are_answered::<logs::Logged>(rt.alloc(), logs::LOGGED)?);
    Ok(())
}
