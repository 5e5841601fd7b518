//! The last stamp that the oracle draws.

use crate::tests::memory::sessions::new_oracle;
use cell_key::Refusal;
use oracle::{MarkStore, MemMark};
use std::test::Fail;

#[test]
fn ends_with_the_greatest_stamp(rt: HostRuntime) -> Result<(), Fail> {
    let mut mark = MemMark::new();
    mark.store(9_223_372_036_854_775_806)?;
    let mut oracle = new_oracle(mark)?;
    assert!(rt; oracle.draw()? == 9_223_372_036_854_775_807);
    assert!(rt; oracle.draw() == Err(Refusal::Exhausted));
    assert!(rt; oracle.last() == 9_223_372_036_854_775_807 && oracle.faults() == 0);
    assert!(rt; oracle.into_mark().load()? == 9_223_372_036_854_775_807);
    Ok(())
}
