//! Rows of exchanges with scans.

use crate::rows::{BALANCES, Exchange, Row};

/// A session that writes two cells holds the first. A scan names its lock instead of a value, and continues after it.
const HELD: [Exchange; 9] = [
    // Begin: 3
    (b"\x01", b"\x81\0\0\0\0\0\0\0\x03"),
    // Set 3 Bob bal 3: done
    (
        b"\x03\0\0\0\0\0\0\0\x03\0\0\0\x03Bob\0\0\0\x03bal\0\0\0\x013",
        b"\x83",
    ),
    // Set 3 Jim bal 7: done
    (
        b"\x03\0\0\0\0\0\0\0\x03\0\0\0\x03Jim\0\0\0\x03bal\0\0\0\x017",
        b"\x83",
    ),
    // Step 3: Held 1 2
    (b"\x04\0\0\0\0\0\0\0\x03", b"\x84\x01\0\x01\0\x02"),
    // Begin: 4
    (b"\x01", b"\x81\0\0\0\0\0\0\0\x04"),
    // Scan 4 1000: Bob bal Pending 3; Joe bal 2; End
    (
        b"\x31\0\0\0\0\0\0\0\x04\0\0\0\0\0\0\x03\xE8",
        b"\
        \xB1\x01\0\0\0\x02\
        \0\0\0\x03Bob\0\0\0\x03bal\x02\0\0\0\0\0\0\0\x03\
        \0\0\0\x03Joe\0\0\0\x03bal\x01\0\0\0\x012",
    ),
    // Scan 3 1000: refused 2
    (b"\x31\0\0\0\0\0\0\0\x03\0\0\0\0\0\0\x03\xE8", b"\xFF\x02"),
    // Set 4 Joe bal 9: done
    (
        b"\x03\0\0\0\0\0\0\0\x04\0\0\0\x03Joe\0\0\0\x03bal\0\0\0\x019",
        b"\x83",
    ),
    // Scan 4 after Bob bal 1000: Joe bal 2; End
    (
        b"\x31\0\0\0\0\0\0\0\x04\0\x01\0\0\0\x03Bob\0\0\0\x03bal\0\0\0\0\x03\xE8",
        b"\xB1\x01\0\0\0\x01\0\0\0\x03Joe\0\0\0\x03bal\x01\0\0\0\x012",
    ),
];

/// The holder commits after the scan's session began, and this session still sees the old values. A later session sees
/// both new values.
const COMMITTED_ABOVE: [Exchange; 10] = [
    // Step 3: Held 2 2
    (b"\x04\0\0\0\0\0\0\0\x03", b"\x84\x01\0\x02\0\x02"),
    // Step 3: Stamped 5
    (b"\x04\0\0\0\0\0\0\0\x03", b"\x84\x03\0\0\0\0\0\0\0\x05"),
    // Scan 4 1000: Bob bal Pending 3; Jim bal Pending 3; Joe bal 2; End
    (
        b"\x31\0\0\0\0\0\0\0\x04\0\0\0\0\0\0\x03\xE8",
        b"\
        \xB1\x01\0\0\0\x03\
        \0\0\0\x03Bob\0\0\0\x03bal\x02\0\0\0\0\0\0\0\x03\
        \0\0\0\x03Jim\0\0\0\x03bal\x02\0\0\0\0\0\0\0\x03\
        \0\0\0\x03Joe\0\0\0\x03bal\x01\0\0\0\x012",
    ),
    // Step 3: Committed 5
    (b"\x04\0\0\0\0\0\0\0\x03", b"\x84\x04\0\0\0\0\0\0\0\x05"),
    // Scan 4 1000: Bob bal 10; Jim bal Pending 3; Joe bal 2; End
    (
        b"\x31\0\0\0\0\0\0\0\x04\0\0\0\0\0\0\x03\xE8",
        b"\
        \xB1\x01\0\0\0\x03\
        \0\0\0\x03Bob\0\0\0\x03bal\x01\0\0\0\x0210\
        \0\0\0\x03Jim\0\0\0\x03bal\x02\0\0\0\0\0\0\0\x03\
        \0\0\0\x03Joe\0\0\0\x03bal\x01\0\0\0\x012",
    ),
    // Begin: 6
    (b"\x01", b"\x81\0\0\0\0\0\0\0\x06"),
    // Scan 6 1000: Bob bal 3; Jim bal Pending 3; Joe bal 2; End
    (
        b"\x31\0\0\0\0\0\0\0\x06\0\0\0\0\0\0\x03\xE8",
        b"\
        \xB1\x01\0\0\0\x03\
        \0\0\0\x03Bob\0\0\0\x03bal\x01\0\0\0\x013\
        \0\0\0\x03Jim\0\0\0\x03bal\x02\0\0\0\0\0\0\0\x03\
        \0\0\0\x03Joe\0\0\0\x03bal\x01\0\0\0\x012",
    ),
    // Step 3: Finished 2 2
    (b"\x04\0\0\0\0\0\0\0\x03", b"\x84\x06\0\x02\0\x02"),
    // Scan 4 1000: Bob bal 10; Joe bal 2; End
    (
        b"\x31\0\0\0\0\0\0\0\x04\0\0\0\0\0\0\x03\xE8",
        b"\
        \xB1\x01\0\0\0\x02\
        \0\0\0\x03Bob\0\0\0\x03bal\x01\0\0\0\x0210\
        \0\0\0\x03Joe\0\0\0\x03bal\x01\0\0\0\x012",
    ),
    // Scan 6 1000: Bob bal 3; Jim bal 7; Joe bal 2; End
    (
        b"\x31\0\0\0\0\0\0\0\x06\0\0\0\0\0\0\x03\xE8",
        b"\
        \xB1\x01\0\0\0\x03\
        \0\0\0\x03Bob\0\0\0\x03bal\x01\0\0\0\x013\
        \0\0\0\x03Jim\0\0\0\x03bal\x01\0\0\0\x017\
        \0\0\0\x03Joe\0\0\0\x03bal\x01\0\0\0\x012",
    ),
];

/// The holder is rolled back by a cleaner, and leaves nothing behind.
const CLEANED: [Exchange; 4] = [
    // CleanBegin Bob bal: Cleaner 1 3
    (
        b"\x06\0\0\0\x03Bob\0\0\0\x03bal",
        b"\x86\x01\0\0\0\0\0\0\0\x01\0\0\0\0\0\0\0\x03",
    ),
    // CleanStep 1: Decided
    (b"\x07\0\0\0\0\0\0\0\x01", b"\x87\x01"),
    // CleanStep 1: Gone
    (b"\x07\0\0\0\0\0\0\0\x01", b"\x87\x04"),
    // Scan 4 1000: Bob bal 10; Joe bal 2; End
    (
        b"\x31\0\0\0\0\0\0\0\x04\0\0\0\0\0\0\x03\xE8",
        b"\
        \xB1\x01\0\0\0\x02\
        \0\0\0\x03Bob\0\0\0\x03bal\x01\0\0\0\x0210\
        \0\0\0\x03Joe\0\0\0\x03bal\x01\0\0\0\x012",
    ),
];

/// A scan of two of four cells.
const BATCH: [Exchange; 16] = [
    // Begin: 1
    (b"\x01", b"\x81\0\0\0\0\0\0\0\x01"),
    // Set 1 a c 1: done
    (
        b"\x03\0\0\0\0\0\0\0\x01\0\0\0\x01a\0\0\0\x01c\0\0\0\x011",
        b"\x83",
    ),
    // Set 1 b c 2: done
    (
        b"\x03\0\0\0\0\0\0\0\x01\0\0\0\x01b\0\0\0\x01c\0\0\0\x012",
        b"\x83",
    ),
    // Set 1 d c 4: done
    (
        b"\x03\0\0\0\0\0\0\0\x01\0\0\0\x01d\0\0\0\x01c\0\0\0\x014",
        b"\x83",
    ),
    // Set 1 e c 5: done
    (
        b"\x03\0\0\0\0\0\0\0\x01\0\0\0\x01e\0\0\0\x01c\0\0\0\x015",
        b"\x83",
    ),
    // Step 1: Held 1 4
    (b"\x04\0\0\0\0\0\0\0\x01", b"\x84\x01\0\x01\0\x04"),
    // Step 1: Held 2 4
    (b"\x04\0\0\0\0\0\0\0\x01", b"\x84\x01\0\x02\0\x04"),
    // Step 1: Held 3 4
    (b"\x04\0\0\0\0\0\0\0\x01", b"\x84\x01\0\x03\0\x04"),
    // Step 1: Held 4 4
    (b"\x04\0\0\0\0\0\0\0\x01", b"\x84\x01\0\x04\0\x04"),
    // Step 1: Stamped 2
    (b"\x04\0\0\0\0\0\0\0\x01", b"\x84\x03\0\0\0\0\0\0\0\x02"),
    // Step 1: Committed 2
    (b"\x04\0\0\0\0\0\0\0\x01", b"\x84\x04\0\0\0\0\0\0\0\x02"),
    // Step 1: Finished 2 4
    (b"\x04\0\0\0\0\0\0\0\x01", b"\x84\x06\0\x02\0\x04"),
    // Step 1: Finished 3 4
    (b"\x04\0\0\0\0\0\0\0\x01", b"\x84\x06\0\x03\0\x04"),
    // Step 1: Finished 4 4
    (b"\x04\0\0\0\0\0\0\0\x01", b"\x84\x06\0\x04\0\x04"),
    // Begin: 3
    (b"\x01", b"\x81\0\0\0\0\0\0\0\x03"),
    // Scan 3 2: a c 1; b c 2; More b c
    (
        b"\x31\0\0\0\0\0\0\0\x03\0\0\0\0\0\0\0\x02",
        b"\
        \xB1\x02\0\0\0\x01b\0\0\0\x01c\0\0\0\x02\
        \0\0\0\x01a\0\0\0\x01c\x01\0\0\0\x011\
        \0\0\0\x01b\0\0\0\x01c\x01\0\0\0\x012",
    ),
];

/// Between two batches one cell is added, one is set, and one is deleted.
const BETWEEN: [Exchange; 11] = [
    // Begin: 4
    (b"\x01", b"\x81\0\0\0\0\0\0\0\x04"),
    // Set 4 c c 3: done
    (
        b"\x03\0\0\0\0\0\0\0\x04\0\0\0\x01c\0\0\0\x01c\0\0\0\x013",
        b"\x83",
    ),
    // Set 4 d c 6: done
    (
        b"\x03\0\0\0\0\0\0\0\x04\0\0\0\x01d\0\0\0\x01c\0\0\0\x016",
        b"\x83",
    ),
    // Delete 4 e c: done
    (b"\x13\0\0\0\0\0\0\0\x04\0\0\0\x01e\0\0\0\x01c", b"\x93"),
    // Step 4: Held 1 3
    (b"\x04\0\0\0\0\0\0\0\x04", b"\x84\x01\0\x01\0\x03"),
    // Step 4: Held 2 3
    (b"\x04\0\0\0\0\0\0\0\x04", b"\x84\x01\0\x02\0\x03"),
    // Step 4: Held 3 3
    (b"\x04\0\0\0\0\0\0\0\x04", b"\x84\x01\0\x03\0\x03"),
    // Step 4: Stamped 5
    (b"\x04\0\0\0\0\0\0\0\x04", b"\x84\x03\0\0\0\0\0\0\0\x05"),
    // Step 4: Committed 5
    (b"\x04\0\0\0\0\0\0\0\x04", b"\x84\x04\0\0\0\0\0\0\0\x05"),
    // Step 4: Finished 2 3
    (b"\x04\0\0\0\0\0\0\0\x04", b"\x84\x06\0\x02\0\x03"),
    // Step 4: Finished 3 3
    (b"\x04\0\0\0\0\0\0\0\x04", b"\x84\x06\0\x03\0\x03"),
];

/// The second batch reads as of the same start. A later session sees the changes.
const NO_PHANTOM: [Exchange; 5] = [
    // Scan 3 after b c 1000: d c 4; e c 5; End
    (
        b"\x31\0\0\0\0\0\0\0\x03\0\x01\0\0\0\x01b\0\0\0\x01c\0\0\0\0\x03\xE8",
        b"\
        \xB1\x01\0\0\0\x02\
        \0\0\0\x01d\0\0\0\x01c\x01\0\0\0\x014\
        \0\0\0\x01e\0\0\0\x01c\x01\0\0\0\x015",
    ),
    // Begin: 6
    (b"\x01", b"\x81\0\0\0\0\0\0\0\x06"),
    // Scan 6 1000: a c 1; b c 2; c c 3; d c 6; End
    (
        b"\x31\0\0\0\0\0\0\0\x06\0\0\0\0\0\0\x03\xE8",
        b"\
        \xB1\x01\0\0\0\x04\
        \0\0\0\x01a\0\0\0\x01c\x01\0\0\0\x011\
        \0\0\0\x01b\0\0\0\x01c\x01\0\0\0\x012\
        \0\0\0\x01c\0\0\0\x01c\x01\0\0\0\x013\
        \0\0\0\x01d\0\0\0\x01c\x01\0\0\0\x016",
    ),
    // Scan 6 after b c 1: c c 3; More c c
    (
        b"\x31\0\0\0\0\0\0\0\x06\0\x01\0\0\0\x01b\0\0\0\x01c\0\0\0\0\0\x01",
        b"\xB1\x02\0\0\0\x01c\0\0\0\x01c\0\0\0\x01\0\0\0\x01c\0\0\0\x01c\x01\0\0\0\x013",
    ),
    // Scan 6 after c c 1: d c 6; More d c
    (
        b"\x31\0\0\0\0\0\0\0\x06\0\x01\0\0\0\x01c\0\0\0\x01c\0\0\0\0\0\x01",
        b"\xB1\x02\0\0\0\x01d\0\0\0\x01c\0\0\0\x01\0\0\0\x01d\0\0\0\x01c\x01\0\0\0\x016",
    ),
];

/// Tablets are split behind two rows: ranges end at a tablet's last row, after it and within a tablet.
const SPLIT: [Exchange; 8] = [
    // Split b: 2
    (b"\x0D\0\0\0\x01b", b"\x8D\0\0\0\x02"),
    // Split d: 3
    (b"\x0D\0\0\0\x01d", b"\x8D\0\0\0\x03"),
    // Scan 3 end b 1000: a c 1; b c 2; End
    (
        b"\x31\0\0\0\0\0\0\0\x03\0\0\x01\0\0\0\x01b\0\0\0\x03\xE8",
        b"\
        \xB1\x01\0\0\0\x02\
        \0\0\0\x01a\0\0\0\x01c\x01\0\0\0\x011\
        \0\0\0\x01b\0\0\0\x01c\x01\0\0\0\x012",
    ),
    // Scan 3 end b\0 1000: a c 1; b c 2; End
    (
        b"\x31\0\0\0\0\0\0\0\x03\0\0\x01\0\0\0\x02b\0\0\0\0\x03\xE8",
        b"\
        \xB1\x01\0\0\0\x02\
        \0\0\0\x01a\0\0\0\x01c\x01\0\0\0\x011\
        \0\0\0\x01b\0\0\0\x01c\x01\0\0\0\x012",
    ),
    // Scan 3 after a c end d 1000: b c 2; d c 4; End
    (
        b"\x31\0\0\0\0\0\0\0\x03\0\x01\0\0\0\x01a\0\0\0\x01c\x01\0\0\0\x01d\0\0\0\x03\xE8",
        b"\
        \xB1\x01\0\0\0\x02\
        \0\0\0\x01b\0\0\0\x01c\x01\0\0\0\x012\
        \0\0\0\x01d\0\0\0\x01c\x01\0\0\0\x014",
    ),
    // Scan 3 after b c end b 1000: End
    (
        b"\x31\0\0\0\0\0\0\0\x03\0\x01\0\0\0\x01b\0\0\0\x01c\x01\0\0\0\x01b\0\0\0\x03\xE8",
        b"\xB1\x01\0\0\0\0",
    ),
    // Scan 3 after a\0 c end c 1000: b c 2; End
    (
        b"\x31\0\0\0\0\0\0\0\x03\0\x01\0\0\0\x02a\0\0\0\0\x01c\x01\0\0\0\x01c\0\0\0\x03\xE8",
        b"\xB1\x01\0\0\0\x01\0\0\0\x01b\0\0\0\x01c\x01\0\0\0\x012",
    ),
    // Scan 3 after a d 3: b c 2; d c 4; More d c
    (
        b"\x31\0\0\0\0\0\0\0\x03\0\x01\0\0\0\x01a\0\0\0\x01d\0\0\0\0\0\x03",
        b"\
        \xB1\x02\0\0\0\x01d\0\0\0\x01c\0\0\0\x02\
        \0\0\0\x01b\0\0\0\x01c\x01\0\0\0\x012\
        \0\0\0\x01d\0\0\0\x01c\x01\0\0\0\x014",
    ),
];

/// A session after the deletion doesn't see the cell, before the deletion is collected and after it.
const COLLECTED: [Exchange; 7] = [
    // Begin: 6
    (b"\x01", b"\x81\0\0\0\0\0\0\0\x06"),
    // Stop 3: done
    (b"\x05\0\0\0\0\0\0\0\x03", b"\x85"),
    // Scan 6 after d c 1000: End
    (
        b"\x31\0\0\0\0\0\0\0\x06\0\x01\0\0\0\x01d\0\0\0\x01c\0\0\0\0\x03\xE8",
        b"\xB1\x01\0\0\0\0",
    ),
    // CollectBegin: 1, floor 6
    (b"\x08", b"\x88\0\0\0\0\0\0\0\x01\0\0\0\0\0\0\0\x06"),
    // CollectStep 1 20: Collected
    (b"\x09\0\0\0\0\0\0\0\x01\0\0\0\x14", b"\x89\x03"),
    // Scan 6 after d c 1000: End
    (
        b"\x31\0\0\0\0\0\0\0\x06\0\x01\0\0\0\x01d\0\0\0\x01c\0\0\0\0\x03\xE8",
        b"\xB1\x01\0\0\0\0",
    ),
    // Scan 6 5: a c 1; b c 2; c c 3; d c 6; End
    (
        b"\x31\0\0\0\0\0\0\0\x06\0\0\0\0\0\0\0\x05",
        b"\
        \xB1\x01\0\0\0\x04\
        \0\0\0\x01a\0\0\0\x01c\x01\0\0\0\x011\
        \0\0\0\x01b\0\0\0\x01c\x01\0\0\0\x012\
        \0\0\0\x01c\0\0\0\x01c\x01\0\0\0\x013\
        \0\0\0\x01d\0\0\0\x01c\x01\0\0\0\x016",
    ),
];

/// The store is empty.
const NOTHING: [Exchange; 3] = [
    // Begin: 1
    (b"\x01", b"\x81\0\0\0\0\0\0\0\x01"),
    // Scan 1 1000: End
    (
        b"\x31\0\0\0\0\0\0\0\x01\0\0\0\0\0\0\x03\xE8",
        b"\xB1\x01\0\0\0\0",
    ),
    // Scan 1 keys after r c end z family c 1: End
    (
        b"\x31\0\0\0\0\0\0\0\x01\x01\x01\0\0\0\x01r\0\0\0\x01c\x01\0\0\0\x01z\x01\0\0\0\x01c\0\0\0\x01",
        b"\xB1\x01\0\0\0\0",
    ),
];

/// Two rows have cells in two families. A cell of another family counts as looked at.
const FAMILIES: [Exchange; 20] = [
    // Set 1 a c 1: done
    (
        b"\x03\0\0\0\0\0\0\0\x01\0\0\0\x01a\0\0\0\x01c\0\0\0\x011",
        b"\x83",
    ),
    // Set 1 a d '': done
    (
        b"\x03\0\0\0\0\0\0\0\x01\0\0\0\x01a\0\0\0\x01d\0\0\0\0",
        b"\x83",
    ),
    // Set 1 b c 3: done
    (
        b"\x03\0\0\0\0\0\0\0\x01\0\0\0\x01b\0\0\0\x01c\0\0\0\x013",
        b"\x83",
    ),
    // Set 1 b d 4: done
    (
        b"\x03\0\0\0\0\0\0\0\x01\0\0\0\x01b\0\0\0\x01d\0\0\0\x014",
        b"\x83",
    ),
    // Step 1: Held 1 4
    (b"\x04\0\0\0\0\0\0\0\x01", b"\x84\x01\0\x01\0\x04"),
    // Step 1: Held 2 4
    (b"\x04\0\0\0\0\0\0\0\x01", b"\x84\x01\0\x02\0\x04"),
    // Step 1: Held 3 4
    (b"\x04\0\0\0\0\0\0\0\x01", b"\x84\x01\0\x03\0\x04"),
    // Step 1: Held 4 4
    (b"\x04\0\0\0\0\0\0\0\x01", b"\x84\x01\0\x04\0\x04"),
    // Step 1: Stamped 2
    (b"\x04\0\0\0\0\0\0\0\x01", b"\x84\x03\0\0\0\0\0\0\0\x02"),
    // Step 1: Committed 2
    (b"\x04\0\0\0\0\0\0\0\x01", b"\x84\x04\0\0\0\0\0\0\0\x02"),
    // Step 1: Finished 2 4
    (b"\x04\0\0\0\0\0\0\0\x01", b"\x84\x06\0\x02\0\x04"),
    // Step 1: Finished 3 4
    (b"\x04\0\0\0\0\0\0\0\x01", b"\x84\x06\0\x03\0\x04"),
    // Step 1: Finished 4 4
    (b"\x04\0\0\0\0\0\0\0\x01", b"\x84\x06\0\x04\0\x04"),
    // Begin: 3
    (b"\x01", b"\x81\0\0\0\0\0\0\0\x03"),
    // Scan 3 family d 1000: a d ''; b d 4; End
    (
        b"\x31\0\0\0\0\0\0\0\x03\0\0\0\x01\0\0\0\x01d\0\0\x03\xE8",
        b"\
        \xB1\x01\0\0\0\x02\
        \0\0\0\x01a\0\0\0\x01d\x01\0\0\0\0\
        \0\0\0\x01b\0\0\0\x01d\x01\0\0\0\x014",
    ),
    // Scan 3 end a family c 1000: a c 1; End
    (
        b"\x31\0\0\0\0\0\0\0\x03\0\0\x01\0\0\0\x01a\x01\0\0\0\x01c\0\0\x03\xE8",
        b"\xB1\x01\0\0\0\x01\0\0\0\x01a\0\0\0\x01c\x01\0\0\0\x011",
    ),
    // Scan 3 family e 1000: End
    (
        b"\x31\0\0\0\0\0\0\0\x03\0\0\0\x01\0\0\0\x01e\0\0\x03\xE8",
        b"\xB1\x01\0\0\0\0",
    ),
    // Scan 3 family d 1: More a c
    (
        b"\x31\0\0\0\0\0\0\0\x03\0\0\0\x01\0\0\0\x01d\0\0\0\x01",
        b"\xB1\x02\0\0\0\x01a\0\0\0\x01c\0\0\0\0",
    ),
    // Scan 3 after a c family d 1: a d ''; More a d
    (
        b"\x31\0\0\0\0\0\0\0\x03\0\x01\0\0\0\x01a\0\0\0\x01c\0\x01\0\0\0\x01d\0\0\0\x01",
        b"\xB1\x02\0\0\0\x01a\0\0\0\x01d\0\0\0\x01\0\0\0\x01a\0\0\0\x01d\x01\0\0\0\0",
    ),
    // Scan 3 after a c 1000: a d ''; b c 3; b d 4; End
    (
        b"\x31\0\0\0\0\0\0\0\x03\0\x01\0\0\0\x01a\0\0\0\x01c\0\0\0\0\x03\xE8",
        b"\
        \xB1\x01\0\0\0\x03\
        \0\0\0\x01a\0\0\0\x01d\x01\0\0\0\0\
        \0\0\0\x01b\0\0\0\x01c\x01\0\0\0\x013\
        \0\0\0\x01b\0\0\0\x01d\x01\0\0\0\x014",
    ),
];

/// Keys only, of cells with a value. Locks are named as in any scan.
const KEYS: [Exchange; 6] = [
    // Scan 3 keys 1000: a c Unsent; a d Unsent; b c Unsent; b d Unsent; End
    (
        b"\x31\0\0\0\0\0\0\0\x03\x01\0\0\0\0\0\x03\xE8",
        b"\
        \xB1\x01\0\0\0\x04\
        \0\0\0\x01a\0\0\0\x01c\x03\
        \0\0\0\x01a\0\0\0\x01d\x03\
        \0\0\0\x01b\0\0\0\x01c\x03\
        \0\0\0\x01b\0\0\0\x01d\x03",
    ),
    // Begin: 4
    (b"\x01", b"\x81\0\0\0\0\0\0\0\x04"),
    // Set 4 a d 5: done
    (
        b"\x03\0\0\0\0\0\0\0\x04\0\0\0\x01a\0\0\0\x01d\0\0\0\x015",
        b"\x83",
    ),
    // Step 4: Held 1 1
    (b"\x04\0\0\0\0\0\0\0\x04", b"\x84\x01\0\x01\0\x01"),
    // Begin: 5
    (b"\x01", b"\x81\0\0\0\0\0\0\0\x05"),
    // Scan 5 keys family d 1000: a d Pending 4; b d Unsent; End
    (
        b"\x31\0\0\0\0\0\0\0\x05\x01\0\0\x01\0\0\0\x01d\0\0\x03\xE8",
        b"\
        \xB1\x01\0\0\0\x02\
        \0\0\0\x01a\0\0\0\x01d\x02\0\0\0\0\0\0\0\x04\
        \0\0\0\x01b\0\0\0\x01d\x03",
    ),
];

/// Ranges without a cell: after the last one, before the first, between two, and with an end before the start.
const EMPTY_RANGES: [Exchange; 6] = [
    // Scan 3 after b d 1000: End
    (
        b"\x31\0\0\0\0\0\0\0\x03\0\x01\0\0\0\x01b\0\0\0\x01d\0\0\0\0\x03\xE8",
        b"\xB1\x01\0\0\0\0",
    ),
    // Scan 3 after z c 1000: End
    (
        b"\x31\0\0\0\0\0\0\0\x03\0\x01\0\0\0\x01z\0\0\0\x01c\0\0\0\0\x03\xE8",
        b"\xB1\x01\0\0\0\0",
    ),
    // Scan 3 end A 1000: End
    (
        b"\x31\0\0\0\0\0\0\0\x03\0\0\x01\0\0\0\x01A\0\0\0\x03\xE8",
        b"\xB1\x01\0\0\0\0",
    ),
    // Scan 3 after a e end aa 1000: End
    (
        b"\x31\0\0\0\0\0\0\0\x03\0\x01\0\0\0\x01a\0\0\0\x01e\x01\0\0\0\x02aa\0\0\0\x03\xE8",
        b"\xB1\x01\0\0\0\0",
    ),
    // Scan 3 after b c end a 1000: End
    (
        b"\x31\0\0\0\0\0\0\0\x03\0\x01\0\0\0\x01b\0\0\0\x01c\x01\0\0\0\x01a\0\0\0\x03\xE8",
        b"\xB1\x01\0\0\0\0",
    ),
    // Scan 3 keys after b d end b family d 1000: End
    (
        b"\x31\0\0\0\0\0\0\0\x03\x01\x01\0\0\0\x01b\0\0\0\x01d\x01\0\0\0\x01b\x01\0\0\0\x01d\0\0\x03\xE8",
        b"\xB1\x01\0\0\0\0",
    ),
];

/// Refusals, in the order of the checks.
const REFUSED: [Exchange; 15] = [
    // Scan 1 after '' : end '' family : 0: refused 1
    (
        b"\x31\0\0\0\0\0\0\0\x01\0\x01\0\0\0\0\0\0\0\x01:\x01\0\0\0\0\x01\0\0\0\x01:\0\0\0\0",
        b"\xFF\x01",
    ),
    // Begin: 1
    (b"\x01", b"\x81\0\0\0\0\0\0\0\x01"),
    // Scan 1 after '' : end r family : 0: refused 3
    (
        b"\x31\0\0\0\0\0\0\0\x01\0\x01\0\0\0\0\0\0\0\x01:\x01\0\0\0\x01r\x01\0\0\0\x01:\0\0\0\0",
        b"\xFF\x03",
    ),
    // Scan 1 after r : end '' family : 0: refused 3
    (
        b"\x31\0\0\0\0\0\0\0\x01\0\x01\0\0\0\x01r\0\0\0\x01:\x01\0\0\0\0\x01\0\0\0\x01:\0\0\0\0",
        b"\xFF\x03",
    ),
    // Scan 1 after r : end r family c 0: refused 4
    (
        b"\x31\0\0\0\0\0\0\0\x01\0\x01\0\0\0\x01r\0\0\0\x01:\x01\0\0\0\x01r\x01\0\0\0\x01c\0\0\0\0",
        b"\xFF\x04",
    ),
    // Scan 1 family '' 0: refused 4
    (
        b"\x31\0\0\0\0\0\0\0\x01\0\0\0\x01\0\0\0\0\0\0\0\0",
        b"\xFF\x04",
    ),
    // Scan 1 0: refused 14
    (b"\x31\0\0\0\0\0\0\0\x01\0\0\0\0\0\0\0\0", b"\xFF\x0E"),
    // Scan 1 1001: refused 14
    (b"\x31\0\0\0\0\0\0\0\x01\0\0\0\0\0\0\x03\xE9", b"\xFF\x0E"),
    // Scan 1 1000: End
    (
        b"\x31\0\0\0\0\0\0\0\x01\0\0\0\0\0\0\x03\xE8",
        b"\xB1\x01\0\0\0\0",
    ),
    // Set 1 r c v: done
    (
        b"\x03\0\0\0\0\0\0\0\x01\0\0\0\x01r\0\0\0\x01c\0\0\0\x01v",
        b"\x83",
    ),
    // Scan 1 1000: End
    (
        b"\x31\0\0\0\0\0\0\0\x01\0\0\0\0\0\0\x03\xE8",
        b"\xB1\x01\0\0\0\0",
    ),
    // Step 1: Held 1 1
    (b"\x04\0\0\0\0\0\0\0\x01", b"\x84\x01\0\x01\0\x01"),
    // Scan 1 after '' : 0: refused 2
    (
        b"\x31\0\0\0\0\0\0\0\x01\0\x01\0\0\0\0\0\0\0\x01:\0\0\0\0\0\0",
        b"\xFF\x02",
    ),
    // Stop 1: done
    (b"\x05\0\0\0\0\0\0\0\x01", b"\x85"),
    // Scan 1 1000: refused 1
    (b"\x31\0\0\0\0\0\0\0\x01\0\0\0\0\0\0\x03\xE8", b"\xFF\x01"),
];

/// Rows of scans.
pub const ROWS: [Row; 8] = [
    // a lock is named instead of a value
    (BALANCES, &[&HELD, &COMMITTED_ABOVE]),
    (BALANCES, &[&HELD, &CLEANED]),
    // a commit between two batches isn't seen
    (0, &[&BATCH, &BETWEEN, &NO_PHANTOM]),
    (0, &[&BATCH, &BETWEEN, &SPLIT]),
    (0, &[&BATCH, &BETWEEN, &COLLECTED]),
    (0, &[&NOTHING, &FAMILIES, &KEYS]),
    (0, &[&NOTHING, &FAMILIES, &EMPTY_RANGES]),
    (0, &[&REFUSED]),
];
