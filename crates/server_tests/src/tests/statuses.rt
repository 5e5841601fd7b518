//! Exit statuses, and the texts of refusals and faults.

use cell_key::Refusal;
use file_store::FileFault;
use server_loop::{End, ServeFault, end_status, open_status};
use std::alloc::Global;
use std::fmt::Display;
use std::test::Fail;

#[test]
fn statuses(rt: HostRuntime) -> Result<(), Fail> {
    let table = [
        (Ok(End::Clean), 0, ""),
        (Ok(End::Truncated), 2, "tabletd: input ends inside a frame"),
        (Ok(End::TooLarge), 3, "tabletd: frame too large"),
        (Err(ServeFault::Read), 6, "tabletd: read or write failed"),
        (Err(ServeFault::Write), 6, "tabletd: read or write failed"),
        (Err(ServeFault::NoMemory), 7, "tabletd: no memory"),
        (Err(ServeFault::Log), 4, "tabletd: log failed"),
        (Ok(End::ReadsUsedUp), 8, "tabletd: reads used up"),
    ];
    for (ended, status, line) in &table {
        let told = end_status(ended);
        assert!(rt; told.0 == *status);
        assert!(rt; told.1 == *line);
    }
    let table = [
        (Refusal::Device, 4, "tabletd: device failed at open"),
        (Refusal::Damaged, 5, "tabletd: damaged at open"),
        (Refusal::NoMemory, 7, "tabletd: no memory"),
        (Refusal::Exhausted, 7, "tabletd: no memory"),
    ];
    for (refusal, status, line) in &table {
        let told = open_status(refusal);
        assert!(rt; told.0 == *status);
        assert!(rt; told.1 == *line);
    }
    Ok(())
}

/// Whether a refusal or a fault has this text.
fn is_text<T: Display>(alloc: Global, told: &T, text: &str) -> Result<bool, Fail> {
    Ok(told.to_string(alloc)?.as_str() == text)
}

#[test]
fn texts(rt: HostRuntime) -> Result<(), Fail> {
    let table = [
        (ServeFault::Read, "read failed"),
        (ServeFault::Write, "write failed"),
        (ServeFault::NoMemory, "no memory"),
        (ServeFault::Log, "log failed"),
    ];
    for (fault, text) in &table {
        assert!(rt; is_text(rt.alloc(), fault, *text)?);
    }
    assert!(rt; is_text(rt.alloc(), &Refusal::NoMemory, "refused 20: NoMemory")?);
    assert!(rt; is_text(rt.alloc(), &FileFault::Device, "device failed")?);
    assert!(rt; is_text(rt.alloc(), &FileFault::Memory, "no memory")?);
    Ok(())
}
