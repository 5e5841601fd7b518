//! Audits of recorded runs with a wrong last reply, and of requests that may be answered in more than one way.

use audit::Audit;
use cell_key::Refusal;
use request_codec::{decode_reply, decode_request};
use std::alloc::Global;
use std::test::Fail;
use testing::cleaning::{ROLLED_FORWARD, SESSION_STOPPED};
use testing::rows::{CELL_HELD, COMMITTED, Exchange, TRANSFER};

/// A later session begins.
const BEGUN: [Exchange; 1] = [
    // Begin: 5
    (b"\x01", b"\x81\0\0\0\0\0\0\0\x05"),
];

/// A cleaner of the other cell's lock finds the commit.
const DECIDED: [Exchange; 2] = [
    // CleanBegin Joe bal: Cleaner 1 3
    (
        b"\x06\0\0\0\x03Joe\0\0\0\x03bal",
        b"\x86\x01\0\0\0\0\0\0\0\x01\0\0\0\0\0\0\0\x03",
    ),
    // CleanStep 1: Decided
    (b"\x07\0\0\0\0\0\0\0\x01", b"\x87\x01"),
];

/// A second session writes the cell that is held.
const SECOND: [Exchange; 2] = [
    // Begin: 2
    (b"\x01", b"\x81\0\0\0\0\0\0\0\x02"),
    // Set 2 r c w: done
    (
        b"\x03\0\0\0\0\0\0\0\x02\0\0\0\x01r\0\0\0\x01c\0\0\0\x01w",
        b"\x83",
    ),
];

/// The session that holds the cell stops, and a collector is opened.
const COLLECTING: [Exchange; 2] = [
    // Stop 1: done
    (b"\x05\0\0\0\0\0\0\0\x01", b"\x85"),
    // CollectBegin: 1, floor 2
    (b"\x08", b"\x88\0\0\0\0\0\0\0\x01\0\0\0\0\0\0\0\x02"),
];

/// A run: the number of the transfer's exchanges that come first, the parts after them, and a last exchange.
type Recording = (usize, &'static [&'static [Exchange]], Exchange);

/// Runs whose last reply is wrong.
const WRONG: [Recording; 12] = [
    // A stale value, Get 5 Joe bal: 2
    (
        COMMITTED,
        &[&SESSION_STOPPED, &BEGUN, &ROLLED_FORWARD],
        (
            b"\x02\0\0\0\0\0\0\0\x05\0\0\0\x03Joe\0\0\0\x03bal",
            b"\x82\x01\0\0\0\x012",
        ),
    ),
    // A second commit, Step 3: Committed 4
    (
        COMMITTED,
        &[],
        (b"\x04\0\0\0\0\0\0\0\x03", b"\x84\x04\0\0\0\0\0\0\0\x04"),
    ),
    // A lock that is gone, Get 5 Joe bal: Pending 3
    (
        COMMITTED,
        &[&SESSION_STOPPED, &BEGUN, &ROLLED_FORWARD],
        (
            b"\x02\0\0\0\0\0\0\0\x05\0\0\0\x03Joe\0\0\0\x03bal",
            b"\x82\x02\0\0\0\0\0\0\0\x03",
        ),
    ),
    // A commit that is rolled back, CleanStep 1: RolledBack
    (
        COMMITTED,
        &[&SESSION_STOPPED, &DECIDED],
        (b"\x07\0\0\0\0\0\0\0\x01", b"\x87\x03"),
    ),
    // A commit that is rolled forward at another stamp, CleanStep 1: RolledForward 3
    (
        COMMITTED,
        &[&SESSION_STOPPED, &DECIDED],
        (b"\x07\0\0\0\0\0\0\0\x01", b"\x87\x02\0\0\0\0\0\0\0\x03"),
    ),
    // A cell that another session holds, Step 2: Held 1 1
    (
        0,
        &[&CELL_HELD, &SECOND],
        (b"\x04\0\0\0\0\0\0\0\x02", b"\x84\x01\0\x01\0\x01"),
    ),
    // A stamp that was answered before, Step 1: Stamped 1
    (
        0,
        &[&CELL_HELD],
        (b"\x04\0\0\0\0\0\0\0\x01", b"\x84\x03\0\0\0\0\0\0\0\x01"),
    ),
    // More cells than were set, Step 3: Finished 3 3
    (
        COMMITTED,
        &[],
        (b"\x04\0\0\0\0\0\0\0\x03", b"\x84\x06\0\x03\0\x03"),
    ),
    // A collection past a lock, CollectStep 1 1000: Collected
    (
        0,
        &[&CELL_HELD, &COLLECTING],
        (b"\x09\0\0\0\0\0\0\0\x01\0\0\x03\xE8", b"\x89\x03"),
    ),
    // A lock that isn't seen, CleanBegin r c: NoLock
    (0, &[&CELL_HELD], (b"\x06\0\0\0\x01r\0\0\0\x01c", b"\x86\0")),
    // A refusal that does not apply, Step 3: refused 1
    (COMMITTED, &[], (b"\x04\0\0\0\0\0\0\0\x03", b"\xFF\x01")),
    // The answer to another request, Stop 3: Set is done
    (COMMITTED, &[], (b"\x05\0\0\0\0\0\0\0\x03", b"\x83")),
];

/// Runs whose last reply is allowed, though this store would give another one.
const FREE: [Recording; 6] = [
    // Begin: 2001
    (COMMITTED, &[], (b"\x01", b"\x81\0\0\0\0\0\0\x07\xD1")),
    // Sweep: 7
    (0, &[], (b"\x0F", b"\x8F\0\0\0\0\0\0\0\x07")),
    // Merge 1 9: refused 14
    (0, &[], (b"\x0B\0\0\0\x01\0\0\0\x09", b"\xFF\x0E")),
    // Raw Bob bal data 0..9: stamp 3, 7
    (
        0,
        &[],
        (
            b"\x11\0\0\0\x03Bob\0\0\0\x03bal\x01\0\0\0\0\0\0\0\0\0\0\0\0\0\0\0\x09",
            b"\x91\x01\0\0\0\0\0\0\0\x03\0\0\0\x017",
        ),
    ),
    // Status 1: any report
    (0, &[], (b"\x34\0\0\0\x01", b"\xB4any")),
    // Step 3: refused 19
    (COMMITTED, &[], (b"\x04\0\0\0\0\0\0\0\x03", b"\xFF\x13")),
];

/// Runs whose last reply is a wrong one to a scan.
const WRONG_SCANS: [Recording; 16] = [
    // A stale value, Scan 5 1000: Bob bal 3; Joe bal 2; End
    (
        COMMITTED,
        &[&SESSION_STOPPED, &BEGUN, &ROLLED_FORWARD],
        (
            b"\x31\0\0\0\0\0\0\0\x05\0\0\0\0\0\0\x03\xE8",
            b"\
        \xB1\x01\0\0\0\x02\
        \0\0\0\x03Bob\0\0\0\x03bal\x01\0\0\0\x013\
        \0\0\0\x03Joe\0\0\0\x03bal\x01\0\0\0\x012",
        ),
    ),
    // A cell that is left out, Scan 5 1000: Bob bal 3; End
    (
        COMMITTED,
        &[&SESSION_STOPPED, &BEGUN, &ROLLED_FORWARD],
        (
            b"\x31\0\0\0\0\0\0\0\x05\0\0\0\0\0\0\x03\xE8",
            b"\xB1\x01\0\0\0\x01\0\0\0\x03Bob\0\0\0\x03bal\x01\0\0\0\x013",
        ),
    ),
    // A cell that has nothing, Scan 5 1000: Bob bal 3; Jim bal Unsent; Joe bal 9; End
    (
        COMMITTED,
        &[&SESSION_STOPPED, &BEGUN, &ROLLED_FORWARD],
        (
            b"\x31\0\0\0\0\0\0\0\x05\0\0\0\0\0\0\x03\xE8",
            b"\
        \xB1\x01\0\0\0\x03\
        \0\0\0\x03Bob\0\0\0\x03bal\x01\0\0\0\x013\
        \0\0\0\x03Jim\0\0\0\x03bal\x03\
        \0\0\0\x03Joe\0\0\0\x03bal\x01\0\0\0\x019",
        ),
    ),
    // A value hidden by a lock, Scan 5 1000: Bob bal 3; Joe bal 2; End
    (
        COMMITTED,
        &[&SESSION_STOPPED, &BEGUN],
        (
            b"\x31\0\0\0\0\0\0\0\x05\0\0\0\0\0\0\x03\xE8",
            b"\
        \xB1\x01\0\0\0\x02\
        \0\0\0\x03Bob\0\0\0\x03bal\x01\0\0\0\x013\
        \0\0\0\x03Joe\0\0\0\x03bal\x01\0\0\0\x012",
        ),
    ),
    // A lock that is left out, Scan 5 1000: Bob bal 3; End
    (
        COMMITTED,
        &[&SESSION_STOPPED, &BEGUN],
        (
            b"\x31\0\0\0\0\0\0\0\x05\0\0\0\0\0\0\x03\xE8",
            b"\xB1\x01\0\0\0\x01\0\0\0\x03Bob\0\0\0\x03bal\x01\0\0\0\x013",
        ),
    ),
    // A lock of another session, Scan 5 1000: Bob bal 3; Joe bal Pending 1; End
    (
        COMMITTED,
        &[&SESSION_STOPPED, &BEGUN],
        (
            b"\x31\0\0\0\0\0\0\0\x05\0\0\0\0\0\0\x03\xE8",
            b"\
        \xB1\x01\0\0\0\x02\
        \0\0\0\x03Bob\0\0\0\x03bal\x01\0\0\0\x013\
        \0\0\0\x03Joe\0\0\0\x03bal\x02\0\0\0\0\0\0\0\x01",
        ),
    ),
    // A lock that is gone, Scan 5 1000: Bob bal 3; Joe bal Pending 3; End
    (
        COMMITTED,
        &[&SESSION_STOPPED, &BEGUN, &ROLLED_FORWARD],
        (
            b"\x31\0\0\0\0\0\0\0\x05\0\0\0\0\0\0\x03\xE8",
            b"\
        \xB1\x01\0\0\0\x02\
        \0\0\0\x03Bob\0\0\0\x03bal\x01\0\0\0\x013\
        \0\0\0\x03Joe\0\0\0\x03bal\x02\0\0\0\0\0\0\0\x03",
        ),
    ),
    // Out of order, Scan 5 1000: Joe bal 9; Bob bal 3; End
    (
        COMMITTED,
        &[&SESSION_STOPPED, &BEGUN, &ROLLED_FORWARD],
        (
            b"\x31\0\0\0\0\0\0\0\x05\0\0\0\0\0\0\x03\xE8",
            b"\
        \xB1\x01\0\0\0\x02\
        \0\0\0\x03Joe\0\0\0\x03bal\x01\0\0\0\x019\
        \0\0\0\x03Bob\0\0\0\x03bal\x01\0\0\0\x013",
        ),
    ),
    // A cell twice, Scan 5 1000: Bob bal 3; Bob bal 3; Joe bal 9; End
    (
        COMMITTED,
        &[&SESSION_STOPPED, &BEGUN, &ROLLED_FORWARD],
        (
            b"\x31\0\0\0\0\0\0\0\x05\0\0\0\0\0\0\x03\xE8",
            b"\
        \xB1\x01\0\0\0\x03\
        \0\0\0\x03Bob\0\0\0\x03bal\x01\0\0\0\x013\
        \0\0\0\x03Bob\0\0\0\x03bal\x01\0\0\0\x013\
        \0\0\0\x03Joe\0\0\0\x03bal\x01\0\0\0\x019",
        ),
    ),
    // A cell before the range, Scan 5 after Bob bal 1000: Bob bal 3; Joe bal 9; End
    (
        COMMITTED,
        &[&SESSION_STOPPED, &BEGUN, &ROLLED_FORWARD],
        (
            b"\x31\0\0\0\0\0\0\0\x05\0\x01\0\0\0\x03Bob\0\0\0\x03bal\0\0\0\0\x03\xE8",
            b"\
        \xB1\x01\0\0\0\x02\
        \0\0\0\x03Bob\0\0\0\x03bal\x01\0\0\0\x013\
        \0\0\0\x03Joe\0\0\0\x03bal\x01\0\0\0\x019",
        ),
    ),
    // A cell of another family, Scan 5 family c 1000: Bob bal 3; End
    (
        COMMITTED,
        &[&SESSION_STOPPED, &BEGUN, &ROLLED_FORWARD],
        (
            b"\x31\0\0\0\0\0\0\0\x05\0\0\0\x01\0\0\0\x01c\0\0\x03\xE8",
            b"\xB1\x01\0\0\0\x01\0\0\0\x03Bob\0\0\0\x03bal\x01\0\0\0\x013",
        ),
    ),
    // A cell after the one that the scan reached, Scan 5 1000: Bob bal 3; Joe bal 9; More Bob bal
    (
        COMMITTED,
        &[&SESSION_STOPPED, &BEGUN, &ROLLED_FORWARD],
        (
            b"\x31\0\0\0\0\0\0\0\x05\0\0\0\0\0\0\x03\xE8",
            b"\
        \xB1\x02\0\0\0\x03Bob\0\0\0\x03bal\0\0\0\x02\
        \0\0\0\x03Bob\0\0\0\x03bal\x01\0\0\0\x013\
        \0\0\0\x03Joe\0\0\0\x03bal\x01\0\0\0\x019",
        ),
    ),
    // More cells than are asked for, Scan 5 1: Bob bal 3; Joe bal 9; End
    (
        COMMITTED,
        &[&SESSION_STOPPED, &BEGUN, &ROLLED_FORWARD],
        (
            b"\x31\0\0\0\0\0\0\0\x05\0\0\0\0\0\0\0\x01",
            b"\
        \xB1\x01\0\0\0\x02\
        \0\0\0\x03Bob\0\0\0\x03bal\x01\0\0\0\x013\
        \0\0\0\x03Joe\0\0\0\x03bal\x01\0\0\0\x019",
        ),
    ),
    // A value instead of a key, Scan 5 keys 1000: Bob bal 3; Joe bal Unsent; End
    (
        COMMITTED,
        &[&SESSION_STOPPED, &BEGUN, &ROLLED_FORWARD],
        (
            b"\x31\0\0\0\0\0\0\0\x05\x01\0\0\0\0\0\x03\xE8",
            b"\
        \xB1\x01\0\0\0\x02\
        \0\0\0\x03Bob\0\0\0\x03bal\x01\0\0\0\x013\
        \0\0\0\x03Joe\0\0\0\x03bal\x03",
        ),
    ),
    // Values that aren't sent, Scan 5 1000: Bob bal Unsent; Joe bal Unsent; End
    (
        COMMITTED,
        &[&SESSION_STOPPED, &BEGUN, &ROLLED_FORWARD],
        (
            b"\x31\0\0\0\0\0\0\0\x05\0\0\0\0\0\0\x03\xE8",
            b"\xB1\x01\0\0\0\x02\0\0\0\x03Bob\0\0\0\x03bal\x03\0\0\0\x03Joe\0\0\0\x03bal\x03",
        ),
    ),
    // A scan that doesn't go on, Scan 5 after Joe bal 1000: More Bob bal
    (
        COMMITTED,
        &[&SESSION_STOPPED, &BEGUN, &ROLLED_FORWARD],
        (
            b"\x31\0\0\0\0\0\0\0\x05\0\x01\0\0\0\x03Joe\0\0\0\x03bal\0\0\0\0\x03\xE8",
            b"\xB1\x02\0\0\0\x03Bob\0\0\0\x03bal\0\0\0\0",
        ),
    ),
];

/// Runs whose last reply, to a scan, is allowed.
const FREE_SCANS: [Recording; 5] = [
    // Fewer cells than are asked for, Scan 5 1000: Bob bal 3; More Bob bal
    (
        COMMITTED,
        &[&SESSION_STOPPED, &BEGUN, &ROLLED_FORWARD],
        (
            b"\x31\0\0\0\0\0\0\0\x05\0\0\0\0\0\0\x03\xE8",
            b"\xB1\x02\0\0\0\x03Bob\0\0\0\x03bal\0\0\0\x01\0\0\0\x03Bob\0\0\0\x03bal\x01\0\0\0\x013",
        ),
    ),
    // Up to a cell that has nothing, Scan 5 1000: Bob bal 3; More Jim bal
    (
        COMMITTED,
        &[&SESSION_STOPPED, &BEGUN, &ROLLED_FORWARD],
        (
            b"\x31\0\0\0\0\0\0\0\x05\0\0\0\0\0\0\x03\xE8",
            b"\xB1\x02\0\0\0\x03Jim\0\0\0\x03bal\0\0\0\x01\0\0\0\x03Bob\0\0\0\x03bal\x01\0\0\0\x013",
        ),
    ),
    // Keys alone, Scan 5 keys 1000: Bob bal Unsent; Joe bal Unsent; End
    (
        COMMITTED,
        &[&SESSION_STOPPED, &BEGUN, &ROLLED_FORWARD],
        (
            b"\x31\0\0\0\0\0\0\0\x05\x01\0\0\0\0\0\x03\xE8",
            b"\xB1\x01\0\0\0\x02\0\0\0\x03Bob\0\0\0\x03bal\x03\0\0\0\x03Joe\0\0\0\x03bal\x03",
        ),
    ),
    // A lock, Scan 5 1000: Bob bal 3; Joe bal Pending 3; End
    (
        COMMITTED,
        &[&SESSION_STOPPED, &BEGUN],
        (
            b"\x31\0\0\0\0\0\0\0\x05\0\0\0\0\0\0\x03\xE8",
            b"\
        \xB1\x01\0\0\0\x02\
        \0\0\0\x03Bob\0\0\0\x03bal\x01\0\0\0\x013\
        \0\0\0\x03Joe\0\0\0\x03bal\x02\0\0\0\0\0\0\0\x03",
        ),
    ),
    // Nothing in a range, Scan 5 after Bob bal end Bob 1000: End
    (
        COMMITTED,
        &[&SESSION_STOPPED, &BEGUN, &ROLLED_FORWARD],
        (
            b"\x31\0\0\0\0\0\0\0\x05\0\x01\0\0\0\x03Bob\0\0\0\x03bal\x01\0\0\0\x03Bob\0\0\0\x03\xE8",
            b"\xB1\x01\0\0\0\0",
        ),
    ),
];

/// Whether the audit accepts an exchange. `false` if a body is malformed.
fn takes(alloc: Global, audit: &mut Audit, exchange: &Exchange) -> Result<bool, Refusal> {
    let Some(request) = decode_request(exchange.0) else {
        return Ok(false);
    };
    match decode_reply(alloc, exchange.1)? {
        Some(reply) => audit.take(&request, &reply),
        None => Ok(false),
    }
}

/// An audit that has accepted all exchanges before the last one, or `None` if it rejected one.
fn audit_before(alloc: Global, recording: &Recording) -> Result<Option<Audit>, Refusal> {
    let mut audit = Audit::new(alloc)?;
    for exchange in TRANSFER.iter().take(recording.0) {
        if !takes(alloc, &mut audit, exchange)? {
            return Ok(None);
        }
    }
    for part in recording.1 {
        for exchange in *part {
            if !takes(alloc, &mut audit, exchange)? {
                return Ok(None);
            }
        }
    }
    Ok(Some(audit))
}

/// Whether the audit accepts all exchanges before the last one, and judges the last one as `said`.
fn is_judged(alloc: Global, recording: &Recording, said: bool) -> Result<bool, Refusal> {
    match audit_before(alloc, recording)? {
        Some(audit) => {
            let mut audit = audit;
            Ok(takes(alloc, &mut audit, &recording.2)? == said)
        }
        None => Ok(false),
    }
}

/// The recordings, and whether the last reply of each is accepted.
const JUDGED: [(&[Recording], bool); 4] = [
    (&WRONG, false),
    (&FREE, true),
    (&WRONG_SCANS, false),
    (&FREE_SCANS, true),
];

/// The last exchange of the first recording of a list that is judged otherwise.
fn first_wrong(
    alloc: Global,
    recordings: &[Recording],
    said: bool,
) -> Result<Option<Exchange>, Refusal> {
    for recording in recordings {
        if !is_judged(alloc, recording, said)? {
            return Ok(Some(recording.2));
        }
    }
    Ok(None)
}

#[test]
fn recorded_replies(rt: HostRuntime) -> Result<(), Fail> {
    for (recordings, said) in JUDGED {
        let wrong = first_wrong(rt.alloc(), recordings, said)?;
        assert!(rt; wrong.is_none(), "{wrong:?}");
    }
    Ok(())
}

/// A step that is refused after a restart of the store, because its session is gone, and a cleaner of the session's
/// lock.
const STOPPED_BY_RESTART: [Exchange; 2] = [
    // Step 3: refused 1
    (b"\x04\0\0\0\0\0\0\0\x03", b"\xFF\x01"),
    // CleanBegin Joe bal: Cleaner 1 3
    (
        b"\x06\0\0\0\x03Joe\0\0\0\x03bal",
        b"\x86\x01\0\0\0\0\0\0\0\x01\0\0\0\0\0\0\0\x03",
    ),
];

#[test]
fn reopened_audit(rt: HostRuntime) -> Result<(), Fail> {
    let alloc = rt.alloc();
    let mut audit = Audit::new(alloc)?;
    for exchange in TRANSFER.iter().take(COMMITTED) {
        assert!(rt; takes(alloc, &mut audit, exchange)?);
    }
    assert!(rt; !takes(alloc, &mut audit, &STOPPED_BY_RESTART[0])?);
    audit.reopen();
    for exchange in &STOPPED_BY_RESTART {
        assert!(rt; takes(alloc, &mut audit, exchange)?);
    }
    Ok(())
}
