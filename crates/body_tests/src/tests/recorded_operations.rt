//! Audits of Commits and Reads.

use audit::Audit;
use cell_key::Refusal;
use request_codec::{decode_answer, decode_operation};
use std::alloc::Global;
use std::test::Fail;
use testing::rows::Exchange;

/// Two cells are written together.
const PAIR: [Exchange; 1] = [
    // Commit 0 a=1 b=1: Committed 1 2
    (
        b"2\0\0\0\0\0\0\0\0\0\0\0\x02\0\0\0\x01a\0\0\0\x01c\x01\0\0\0\x011\0\0\0\x01b\0\0\0\x01c\x01\0\0\0\x011",
        b"\xB2\x01\0\0\0\0\0\0\0\x01\0\0\0\0\0\0\0\x02",
    ),
];

/// They are written again after a session has begun.
const LATER: [Exchange; 2] = [
    // Begin: 3
    (b"\x01", b"\x81\0\0\0\0\0\0\0\x03"),
    // Commit 0 a=2 b=2: Committed 4 5
    (
        b"2\0\0\0\0\0\0\0\0\0\0\0\x02\0\0\0\x01a\0\0\0\x01c\x01\0\0\0\x012\0\0\0\x01b\0\0\0\x01c\x01\0\0\0\x012",
        b"\xB2\x01\0\0\0\0\0\0\0\x04\0\0\0\0\0\0\0\x05",
    ),
];

/// A session holds one of them.
const HOLDING: [Exchange; 3] = [
    // Begin: 3
    (b"\x01", b"\x81\0\0\0\0\0\0\0\x03"),
    // Set 3 a 3: done
    (
        b"\x03\0\0\0\0\0\0\0\x03\0\0\0\x01a\0\0\0\x01c\0\0\0\x013",
        b"\x83",
    ),
    // Step 3: Held 1 1
    (b"\x04\0\0\0\0\0\0\0\x03", b"\x84\x01\0\x01\0\x01"),
];

/// A new session finds that one held.
const CLASHING: [Exchange; 1] = [
    // Commit 0 b=4 a=4: Conflict 9 2
    (
        b"2\0\0\0\0\0\0\0\0\0\0\0\x02\0\0\0\x01b\0\0\0\x01c\x01\0\0\0\x014\0\0\0\x01a\0\0\0\x01c\x01\0\0\0\x014",
        b"\xB2\x02\0\0\0\0\0\0\0\x09\0\x02",
    ),
];

/// The session that holds it is stopped.
const STOPPED: [Exchange; 1] = [
    // Stop 3: done
    (b"\x05\0\0\0\0\0\0\0\x03", b"\x85"),
];

/// The parts of a run, and a last exchange.
type Recording = (&'static [&'static [Exchange]], Exchange);

/// Runs whose last answer is right.
const RIGHT: [Recording; 13] = [
    // A Read of two cells, which ends
    (
        &[&PAIR],
        (
            b"3\0\0\0\0\0\0\0\0\0\0\0\0\x03\0\0\0\x01a\0\0\0\x01c\0\0\0\x01n\0\0\0\x01c\0\0\0\x01b\0\0\0\x01c",
            b"\xB3\0\0\0\0\0\0\0\x03\0\0\0\x03\x01\0\0\0\x011\0\x01\0\0\0\x011",
        ),
    ),
    // The snapshot of a session that began before
    (
        &[&PAIR, &LATER],
        (
            b"3\0\0\0\0\0\0\0\x03\x01\0\0\0\x02\0\0\0\x01a\0\0\0\x01c\0\0\0\x01b\0\0\0\x01c",
            b"\xB3\0\0\0\0\0\0\0\x03\0\0\0\x02\x01\0\0\0\x011\x01\0\0\0\x011",
        ),
    ),
    // A write since the session began
    (
        &[&PAIR, &LATER],
        (
            b"2\0\0\0\0\0\0\0\x03\0\0\0\x02\0\0\0\x01n\0\0\0\x01c\x01\0\0\0\x017\0\0\0\x01b\0\0\0\x01c\x01\0\0\0\x013",
            b"\xB2\x02\0\0\0\0\0\0\0\x03\0\x02",
        ),
    ),
    // A deletion, at any later stamp
    (
        &[&PAIR, &LATER],
        (
            b"2\0\0\0\0\0\0\0\0\0\0\0\x01\0\0\0\x01a\0\0\0\x01c\0",
            b"\xB2\x01\0\0\0\0\0\0\0\x06\0\0\0\0\0\0\x03\xE8",
        ),
    ),
    // A lock
    (
        &[&PAIR, &HOLDING],
        (
            b"3\0\0\0\0\0\0\0\0\x01\0\0\0\x02\0\0\0\x01b\0\0\0\x01c\0\0\0\x01a\0\0\0\x01c",
            b"\xB3\0\0\0\0\0\0\0\x09\0\0\0\x02\x01\0\0\0\x011\x02\0\0\0\0\0\0\0\x03",
        ),
    ),
    // A Commit behind the first step
    (
        &[&PAIR, &HOLDING],
        (
            b"2\0\0\0\0\0\0\0\x03\0\0\0\x01\0\0\0\x01b\0\0\0\x01c\x01\0\0\0\x013",
            b"\xFF\x02",
        ),
    ),
    // A Commit of other cells, at stamps above
    (
        &[&PAIR, &HOLDING, &CLASHING],
        (
            b"2\0\0\0\0\0\0\0\0\0\0\0\x01\0\0\0\x01b\0\0\0\x01c\x01\0\0\0\x014",
            b"\xB2\x01\0\0\0\0\0\0\0\x0A\0\0\0\0\0\0\0\x0B",
        ),
    ),
    // A floor, one above the start that the conflict told
    (
        &[&PAIR, &HOLDING, &STOPPED, &CLASHING],
        (b"\x08", b"\x88\0\0\0\0\0\0\0\x01\0\0\0\0\0\0\0\x0A"),
    ),
    // A session that isn't active
    (&[&PAIR], (b"2\0\0\0\0\0\0\0\x09\0\0\0\0", b"\xFF\x01")),
    // No write
    (&[&PAIR], (b"2\0\0\0\0\0\0\0\0\0\0\0\0", b"\xFF\x08")),
    // A row without a byte, behind another cell
    (
        &[&PAIR],
        (
            b"3\0\0\0\0\0\0\0\0\0\0\0\0\x02\0\0\0\x01a\0\0\0\x01c\0\0\0\0\0\0\0\x01c",
            b"\xFF\x03",
        ),
    ),
    // No cell, in a session that isn't active
    (&[&PAIR], (b"3\0\0\0\0\0\0\0\x09\0\0\0\0\0", b"\xFF\x0E")),
    // No room in a tablet
    (
        &[&PAIR],
        (
            b"2\0\0\0\0\0\0\0\0\0\0\0\x01\0\0\0\x01a\0\0\0\x01c\x01\0\0\0\x012",
            b"\xFF\x0F",
        ),
    ),
];

/// Runs whose last answer is wrong.
const WRONG: [Recording; 20] = [
    // A conflict without a cause
    (
        &[&PAIR],
        (
            b"2\0\0\0\0\0\0\0\0\0\0\0\x01\0\0\0\x01a\0\0\0\x01c\x01\0\0\0\x012",
            b"\xB2\x02\0\0\0\0\0\0\0\x03\0\x01",
        ),
    ),
    // A conflict behind the first cell that clashes
    (
        &[&PAIR, &LATER],
        (
            b"2\0\0\0\0\0\0\0\x03\0\0\0\x02\0\0\0\x01a\0\0\0\x01c\x01\0\0\0\x013\0\0\0\x01b\0\0\0\x01c\x01\0\0\0\x013",
            b"\xB2\x02\0\0\0\0\0\0\0\x03\0\x02",
        ),
    ),
    // A conflict of another session than the one named
    (
        &[&PAIR, &LATER],
        (
            b"2\0\0\0\0\0\0\0\x03\0\0\0\x01\0\0\0\x01b\0\0\0\x01c\x01\0\0\0\x013",
            b"\xB2\x02\0\0\0\0\0\0\0\x04\0\x01",
        ),
    ),
    // A conflict of a new session at a start that was answered
    (
        &[&PAIR, &HOLDING],
        (
            b"2\0\0\0\0\0\0\0\0\0\0\0\x01\0\0\0\x01a\0\0\0\x01c\x01\0\0\0\x014",
            b"\xB2\x02\0\0\0\0\0\0\0\x03\0\x01",
        ),
    ),
    // A Commit over a write since the session began
    (
        &[&PAIR, &LATER],
        (
            b"2\0\0\0\0\0\0\0\x03\0\0\0\x01\0\0\0\x01b\0\0\0\x01c\x01\0\0\0\x013",
            b"\xB2\x01\0\0\0\0\0\0\0\x03\0\0\0\0\0\0\0\x06",
        ),
    ),
    // A Commit over a lock
    (
        &[&PAIR, &HOLDING],
        (
            b"2\0\0\0\0\0\0\0\0\0\0\0\x01\0\0\0\x01a\0\0\0\x01c\x01\0\0\0\x014",
            b"\xB2\x01\0\0\0\0\0\0\0\x04\0\0\0\0\0\0\0\x05",
        ),
    ),
    // Two moments in one Read
    (
        &[&PAIR, &LATER],
        (
            b"3\0\0\0\0\0\0\0\0\0\0\0\0\x02\0\0\0\x01a\0\0\0\x01c\0\0\0\x01b\0\0\0\x01c",
            b"\xB3\0\0\0\0\0\0\0\x06\0\0\0\x02\x01\0\0\0\x012\x01\0\0\0\x011",
        ),
    ),
    // A value behind the session's start
    (
        &[&PAIR, &LATER],
        (
            b"3\0\0\0\0\0\0\0\x03\x01\0\0\0\x02\0\0\0\x01a\0\0\0\x01c\0\0\0\x01b\0\0\0\x01c",
            b"\xB3\0\0\0\0\0\0\0\x03\0\0\0\x02\x01\0\0\0\x012\x01\0\0\0\x012",
        ),
    ),
    // A value left out though it fits
    (
        &[&PAIR],
        (
            b"3\0\0\0\0\0\0\0\0\0\0\0\0\x01\0\0\0\x01a\0\0\0\x01c",
            b"\xB3\0\0\0\0\0\0\0\x03\0\0\0\x01\x03",
        ),
    ),
    // Fewer cells than were asked for
    (
        &[&PAIR],
        (
            b"3\0\0\0\0\0\0\0\0\0\0\0\0\x02\0\0\0\x01a\0\0\0\x01c\0\0\0\x01b\0\0\0\x01c",
            b"\xB3\0\0\0\0\0\0\0\x03\0\0\0\x01\x01\0\0\0\x011",
        ),
    ),
    // The commit stamp at the start
    (
        &[&PAIR],
        (
            b"2\0\0\0\0\0\0\0\0\0\0\0\x01\0\0\0\x01a\0\0\0\x01c\x01\0\0\0\x012",
            b"\xB2\x01\0\0\0\0\0\0\0\x03\0\0\0\0\0\0\0\x03",
        ),
    ),
    // A start that was answered
    (
        &[&PAIR],
        (
            b"2\0\0\0\0\0\0\0\0\0\0\0\x01\0\0\0\x01a\0\0\0\x01c\x01\0\0\0\x012",
            b"\xB2\x01\0\0\0\0\0\0\0\x02\0\0\0\0\0\0\0\x04",
        ),
    ),
    // Another session than the one named
    (
        &[&PAIR, &LATER],
        (
            b"2\0\0\0\0\0\0\0\x03\0\0\0\x01\0\0\0\x01n\0\0\0\x01c\x01\0\0\0\x013",
            b"\xB2\x01\0\0\0\0\0\0\0\x06\0\0\0\0\0\0\0\x07",
        ),
    ),
    // A refused session where a cell clashes
    (
        &[&PAIR, &HOLDING],
        (
            b"2\0\0\0\0\0\0\0\0\0\0\0\x01\0\0\0\x01a\0\0\0\x01c\x01\0\0\0\x014",
            b"\xFF\x01",
        ),
    ),
    // A refusal of names that are valid
    (
        &[&PAIR],
        (
            b"3\0\0\0\0\0\0\0\0\0\0\0\0\x01\0\0\0\x01a\0\0\0\x01c",
            b"\xFF\x03",
        ),
    ),
    // An answer to a Read
    (
        &[&PAIR],
        (
            b"2\0\0\0\0\0\0\0\0\0\0\0\x01\0\0\0\x01a\0\0\0\x01c\x01\0\0\0\x012",
            b"\xB3\0\0\0\0\0\0\0\x03\0\0\0\x01\x01\0\0\0\x011",
        ),
    ),
    // An answer to a Commit
    (
        &[&PAIR],
        (
            b"3\0\0\0\0\0\0\0\0\0\0\0\0\x01\0\0\0\x01a\0\0\0\x01c",
            b"\xB2\x01\0\0\0\0\0\0\0\x03\0\0\0\0\0\0\0\x04",
        ),
    ),
    // A reply to one request
    (
        &[&PAIR],
        (
            b"2\0\0\0\0\0\0\0\0\0\0\0\x01\0\0\0\x01a\0\0\0\x01c\x01\0\0\0\x012",
            b"\x83",
        ),
    ),
    // The start that a conflict told
    (
        &[&PAIR, &HOLDING, &CLASHING],
        (b"\x01", b"\x81\0\0\0\0\0\0\0\x09"),
    ),
    // A floor at it
    (
        &[&PAIR, &HOLDING, &STOPPED, &CLASHING],
        (b"\x08", b"\x88\0\0\0\0\0\0\0\x01\0\0\0\0\0\0\0\x09"),
    ),
];

/// Whether the audit accepts an exchange. `false` if a body is malformed.
fn takes(alloc: Global, audit: &mut Audit, exchange: &Exchange) -> Result<bool, Refusal> {
    let Some(operation) = decode_operation(alloc, exchange.0)? else {
        return Ok(false);
    };
    match decode_answer(alloc, exchange.1)? {
        Some(answer) => audit.take_operation(&operation, &answer),
        None => Ok(false),
    }
}

/// Whether the audit accepts all exchanges before the last one, and judges the last one as `said`.
fn is_judged(alloc: Global, recording: &Recording, said: bool) -> Result<bool, Refusal> {
    let mut audit = Audit::new(alloc)?;
    for part in recording.0 {
        for exchange in *part {
            if !takes(alloc, &mut audit, exchange)? {
                return Ok(false);
            }
        }
    }
    Ok(takes(alloc, &mut audit, &recording.1)? == said)
}

#[test]
fn commits_and_reads(rt: HostRuntime) -> Result<(), Fail> {
    for recording in RIGHT {
        assert!(rt;
            is_judged(rt.alloc(), &recording, true)?,
            "{:?}",
            recording.1
        );
    }
    for recording in WRONG {
        assert!(rt;
            is_judged(rt.alloc(), &recording, false)?,
            "{:?}",
            recording.1
        );
    }
    Ok(())
}
