//! Stamps over a wire.

use crate::tests::pipes::new_wire;
use cell_key::{Refusal, Stamp};
use remote_rows::{MemoryWire, RemoteStamps, SharedStamps};
use rows::Stamps;
use std::test::Fail;

/// Draws a stamp, and publishes the floor 5.
const DRAW: &[u8] = b"\0\0\0\x01\x04";

const PUBLISH: &[u8] = b"\0\0\0\x09\x05\0\0\0\0\0\0\0\x05";

/// Replies to a draw, and what is answered.
const DRAWN: [(&[u8], Result<Stamp, Refusal>); 5] = [
    (b"\0\0\0\x09\x84\0\0\0\0\0\0\x10\x02", Ok(4_098)),
    (
        b"\0\0\0\x09\x84\x7F\xFF\xFF\xFF\xFF\xFF\xFF\xFF",
        Ok(9_223_372_036_854_775_807),
    ),
    // not above 0, above the greatest stamp, the engine failed
    (b"\0\0\0\x09\x84\0\0\0\0\0\0\0\0", Err(Refusal::Device)),
    (b"\0\0\0\x09\x84\x80\0\0\0\0\0\0\0", Err(Refusal::Device)),
    (b"\0\0\0\x01\xFF", Err(Refusal::Device)),
];

#[test]
fn draws(rt: HostRuntime) -> Result<(), Fail> {
    let alloc = rt.alloc();
    for (reply, wanted) in DRAWN {
        let mut stamps = RemoteStamps::new(new_wire(alloc, &[DRAW], reply));
        let drawn = stamps.draw();
        assert!(rt; stamps.known().is_none());
        assert!(rt; drawn == wanted);
    }
    Ok(())
}

#[test]
fn publishes(rt: HostRuntime) -> Result<(), Fail> {
    let alloc = rt.alloc();
    let replies = b"\0\0\0\x09\x85\0\0\0\0\0\0\0\x03\0\0\0\x09\x85\0\0\0\0\0\0\0\x06";
    let mut stamps = RemoteStamps::new(new_wire(alloc, &[PUBLISH, PUBLISH], replies));
    assert!(rt; stamps.publish(5) == Ok(3));
    // a least floor that is above the published one
    assert!(rt; stamps.publish(5) == Err(Refusal::Device));
    Ok(())
}

#[test]
fn draws_in_memory(rt: HostRuntime) -> Result<(), Fail> {
    let mut stamps = RemoteStamps::new(MemoryWire::new(rt.alloc()));
    assert!(rt; stamps.draw() == Ok(1) && stamps.draw() == Ok(2));
    assert!(rt; stamps.known() == Some(2) && stamps.publish(1) == Ok(1));
    Ok(())
}
