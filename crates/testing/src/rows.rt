//! Requests with their replies, as bodies of frames: single and concurrent transactions.

/// A request's body and its reply's.
pub type Exchange = (&'static [u8], &'static [u8]);

/// A row of exchanges: the number of the transfer's exchanges that come first, and the parts after them.
pub type Row = (usize, &'static [&'static [Exchange]]);

/// A session holds the one cell that it sets.
pub const CELL_HELD: [Exchange; 3] = [
    // Begin: 1
    (b"\x01", b"\x81\0\0\0\0\0\0\0\x01"),
    // Set 1 r c v: done
    (
        b"\x03\0\0\0\0\0\0\0\x01\0\0\0\x01r\0\0\0\x01c\0\0\0\x01v",
        b"\x83",
    ),
    // Step 1: Held 1 1
    (b"\x04\0\0\0\0\0\0\0\x01", b"\x84\x01\0\x01\0\x01"),
];

/// It draws its commit stamp.
pub const CELL_STAMPED: [Exchange; 1] = [
    // Step 1: Stamped 2
    (b"\x04\0\0\0\0\0\0\0\x01", b"\x84\x03\0\0\0\0\0\0\0\x02"),
];

/// It commits.
pub const CELL_COMMITTED: [Exchange; 1] = [
    // Step 1: Committed 2
    (b"\x04\0\0\0\0\0\0\0\x01", b"\x84\x04\0\0\0\0\0\0\0\x02"),
];

/// A later session reads the cell.
const CELL_READ: [Exchange; 2] = [
    // Begin: 3
    (b"\x01", b"\x81\0\0\0\0\0\0\0\x03"),
    // Get 3 r c: v
    (
        b"\x02\0\0\0\0\0\0\0\x03\0\0\0\x01r\0\0\0\x01c",
        b"\x82\x01\0\0\0\x01v",
    ),
];

/// One cell is set, committed and read.
pub const FIRST_CELL: Row = (0, &[&CELL_HELD, &CELL_STAMPED, &CELL_COMMITTED, &CELL_READ]);

/// A transfer between two cells, to its end.
pub const TRANSFER: [Exchange; 22] = [
    // Begin: 1
    (b"\x01", b"\x81\0\0\0\0\0\0\0\x01"),
    // Set 1 Bob bal 10: done
    (
        b"\x03\0\0\0\0\0\0\0\x01\0\0\0\x03Bob\0\0\0\x03bal\0\0\0\x0210",
        b"\x83",
    ),
    // Set 1 Joe bal 2: done
    (
        b"\x03\0\0\0\0\0\0\0\x01\0\0\0\x03Joe\0\0\0\x03bal\0\0\0\x012",
        b"\x83",
    ),
    // Step 1: Held 1 2
    (b"\x04\0\0\0\0\0\0\0\x01", b"\x84\x01\0\x01\0\x02"),
    // Step 1: Held 2 2
    (b"\x04\0\0\0\0\0\0\0\x01", b"\x84\x01\0\x02\0\x02"),
    // Step 1: Stamped 2
    (b"\x04\0\0\0\0\0\0\0\x01", b"\x84\x03\0\0\0\0\0\0\0\x02"),
    // Step 1: Committed 2
    (b"\x04\0\0\0\0\0\0\0\x01", b"\x84\x04\0\0\0\0\0\0\0\x02"),
    // Step 1: Finished 2 2
    (b"\x04\0\0\0\0\0\0\0\x01", b"\x84\x06\0\x02\0\x02"),
    // Begin: 3
    (b"\x01", b"\x81\0\0\0\0\0\0\0\x03"),
    // Get 3 Bob bal: 10
    (
        b"\x02\0\0\0\0\0\0\0\x03\0\0\0\x03Bob\0\0\0\x03bal",
        b"\x82\x01\0\0\0\x0210",
    ),
    // Get 3 Joe bal: 2
    (
        b"\x02\0\0\0\0\0\0\0\x03\0\0\0\x03Joe\0\0\0\x03bal",
        b"\x82\x01\0\0\0\x012",
    ),
    // Set 3 Bob bal 3: done
    (
        b"\x03\0\0\0\0\0\0\0\x03\0\0\0\x03Bob\0\0\0\x03bal\0\0\0\x013",
        b"\x83",
    ),
    // Set 3 Joe bal 9: done
    (
        b"\x03\0\0\0\0\0\0\0\x03\0\0\0\x03Joe\0\0\0\x03bal\0\0\0\x019",
        b"\x83",
    ),
    // Step 3: Held 1 2
    (b"\x04\0\0\0\0\0\0\0\x03", b"\x84\x01\0\x01\0\x02"),
    // Step 3: Held 2 2
    (b"\x04\0\0\0\0\0\0\0\x03", b"\x84\x01\0\x02\0\x02"),
    // Step 3: Stamped 4
    (b"\x04\0\0\0\0\0\0\0\x03", b"\x84\x03\0\0\0\0\0\0\0\x04"),
    // Step 3: Committed 4
    (b"\x04\0\0\0\0\0\0\0\x03", b"\x84\x04\0\0\0\0\0\0\0\x04"),
    // Step 3: Finished 2 2
    (b"\x04\0\0\0\0\0\0\0\x03", b"\x84\x06\0\x02\0\x02"),
    // Begin: 5
    (b"\x01", b"\x81\0\0\0\0\0\0\0\x05"),
    // Get 5 Bob bal: 3
    (
        b"\x02\0\0\0\0\0\0\0\x05\0\0\0\x03Bob\0\0\0\x03bal",
        b"\x82\x01\0\0\0\x013",
    ),
    // Get 5 Joe bal: 9
    (
        b"\x02\0\0\0\0\0\0\0\x05\0\0\0\x03Joe\0\0\0\x03bal",
        b"\x82\x01\0\0\0\x019",
    ),
    // Step 3: refused 1
    (b"\x04\0\0\0\0\0\0\0\x03", b"\xFF\x01"),
];

/// The number of the transfer's exchanges until both cells have their first values.
pub const BALANCES: usize = 8;

/// Until it holds both cells.
pub const HELD: usize = 15;

/// Until it has its commit stamp.
pub const STAMPED: usize = 16;

/// Until its first cell is committed.
pub const COMMITTED: usize = 17;

/// The commit point is the first cell: the other follows.
const COMMIT_POINT: [Exchange; 7] = [
    // Begin: 5
    (b"\x01", b"\x81\0\0\0\0\0\0\0\x05"),
    // Get 5 Bob bal: Pending 3
    (
        b"\x02\0\0\0\0\0\0\0\x05\0\0\0\x03Bob\0\0\0\x03bal",
        b"\x82\x02\0\0\0\0\0\0\0\x03",
    ),
    // Step 3: Committed 4
    (b"\x04\0\0\0\0\0\0\0\x03", b"\x84\x04\0\0\0\0\0\0\0\x04"),
    // Get 5 Bob bal: 3
    (
        b"\x02\0\0\0\0\0\0\0\x05\0\0\0\x03Bob\0\0\0\x03bal",
        b"\x82\x01\0\0\0\x013",
    ),
    // Get 5 Joe bal: Pending 3
    (
        b"\x02\0\0\0\0\0\0\0\x05\0\0\0\x03Joe\0\0\0\x03bal",
        b"\x82\x02\0\0\0\0\0\0\0\x03",
    ),
    // Step 3: Finished 2 2
    (b"\x04\0\0\0\0\0\0\0\x03", b"\x84\x06\0\x02\0\x02"),
    // Get 5 Joe bal: 9
    (
        b"\x02\0\0\0\0\0\0\0\x05\0\0\0\x03Joe\0\0\0\x03bal",
        b"\x82\x01\0\0\0\x019",
    ),
];

/// Two sessions set one cell.
const TWO_SESSIONS: [Exchange; 4] = [
    // Begin: 1
    (b"\x01", b"\x81\0\0\0\0\0\0\0\x01"),
    // Begin: 2
    (b"\x01", b"\x81\0\0\0\0\0\0\0\x02"),
    // Set 1 r c v: done
    (
        b"\x03\0\0\0\0\0\0\0\x01\0\0\0\x01r\0\0\0\x01c\0\0\0\x01v",
        b"\x83",
    ),
    // Set 2 r c v: done
    (
        b"\x03\0\0\0\0\0\0\0\x02\0\0\0\x01r\0\0\0\x01c\0\0\0\x01v",
        b"\x83",
    ),
];

/// The first to hold it wins.
const FIRST_COMMITTER: [Exchange; 3] = [
    // Step 1: Held 1 1
    (b"\x04\0\0\0\0\0\0\0\x01", b"\x84\x01\0\x01\0\x01"),
    // Step 2: Conflict 1
    (b"\x04\0\0\0\0\0\0\0\x02", b"\x84\x02\0\x01"),
    // Step 2: refused 1
    (b"\x04\0\0\0\0\0\0\0\x02", b"\xFF\x01"),
];

/// The same, but the later session is the first.
const SECOND_COMMITTER: [Exchange; 4] = [
    // Step 2: Held 1 1
    (b"\x04\0\0\0\0\0\0\0\x02", b"\x84\x01\0\x01\0\x01"),
    // Step 2: Stamped 3
    (b"\x04\0\0\0\0\0\0\0\x02", b"\x84\x03\0\0\0\0\0\0\0\x03"),
    // Step 2: Committed 3
    (b"\x04\0\0\0\0\0\0\0\x02", b"\x84\x04\0\0\0\0\0\0\0\x03"),
    // Step 1: Conflict 1
    (b"\x04\0\0\0\0\0\0\0\x01", b"\x84\x02\0\x01"),
];

/// A restart of the oracle drops the range that it serves.
const ORACLE_RESTART: [Exchange; 6] = [
    // Begin: 1
    (b"\x01", b"\x81\0\0\0\0\0\0\0\x01"),
    // Begin: 2
    (b"\x01", b"\x81\0\0\0\0\0\0\0\x02"),
    // Begin: 3
    (b"\x01", b"\x81\0\0\0\0\0\0\0\x03"),
    // Begin: 4
    (b"\x01", b"\x81\0\0\0\0\0\0\0\x04"),
    // OracleRestart: restarted
    (b"\x10", b"\x90"),
    // Begin: 1001
    (b"\x01", b"\x81\0\0\0\0\0\0\x03\xE9"),
];

/// Each restart goes on from the stored mark.
const ORACLE_RANGES: [Exchange; 7] = [
    // OracleRestart: restarted
    (b"\x10", b"\x90"),
    // Begin: 1
    (b"\x01", b"\x81\0\0\0\0\0\0\0\x01"),
    // OracleRestart: restarted
    (b"\x10", b"\x90"),
    // OracleRestart: restarted
    (b"\x10", b"\x90"),
    // Begin: 1001
    (b"\x01", b"\x81\0\0\0\0\0\0\x03\xE9"),
    // OracleRestart: restarted
    (b"\x10", b"\x90"),
    // Begin: 2001
    (b"\x01", b"\x81\0\0\0\0\0\0\x07\xD1"),
];

/// Write skew: two concurrent sessions that write different cells both commit.
const WRITE_SKEW: [Exchange; 21] = [
    // Begin: 1
    (b"\x01", b"\x81\0\0\0\0\0\0\0\x01"),
    // Set 1 x c 1: done
    (
        b"\x03\0\0\0\0\0\0\0\x01\0\0\0\x01x\0\0\0\x01c\0\0\0\x011",
        b"\x83",
    ),
    // Set 1 y c 1: done
    (
        b"\x03\0\0\0\0\0\0\0\x01\0\0\0\x01y\0\0\0\x01c\0\0\0\x011",
        b"\x83",
    ),
    // Step 1: Held 1 2
    (b"\x04\0\0\0\0\0\0\0\x01", b"\x84\x01\0\x01\0\x02"),
    // Step 1: Held 2 2
    (b"\x04\0\0\0\0\0\0\0\x01", b"\x84\x01\0\x02\0\x02"),
    // Step 1: Stamped 2
    (b"\x04\0\0\0\0\0\0\0\x01", b"\x84\x03\0\0\0\0\0\0\0\x02"),
    // Step 1: Committed 2
    (b"\x04\0\0\0\0\0\0\0\x01", b"\x84\x04\0\0\0\0\0\0\0\x02"),
    // Step 1: Finished 2 2
    (b"\x04\0\0\0\0\0\0\0\x01", b"\x84\x06\0\x02\0\x02"),
    // Begin: 3
    (b"\x01", b"\x81\0\0\0\0\0\0\0\x03"),
    // Begin: 4
    (b"\x01", b"\x81\0\0\0\0\0\0\0\x04"),
    // Set 3 x c 0: done
    (
        b"\x03\0\0\0\0\0\0\0\x03\0\0\0\x01x\0\0\0\x01c\0\0\0\x010",
        b"\x83",
    ),
    // Set 4 y c 0: done
    (
        b"\x03\0\0\0\0\0\0\0\x04\0\0\0\x01y\0\0\0\x01c\0\0\0\x010",
        b"\x83",
    ),
    // Step 3: Held 1 1
    (b"\x04\0\0\0\0\0\0\0\x03", b"\x84\x01\0\x01\0\x01"),
    // Step 4: Held 1 1
    (b"\x04\0\0\0\0\0\0\0\x04", b"\x84\x01\0\x01\0\x01"),
    // Step 3: Stamped 5
    (b"\x04\0\0\0\0\0\0\0\x03", b"\x84\x03\0\0\0\0\0\0\0\x05"),
    // Step 4: Stamped 6
    (b"\x04\0\0\0\0\0\0\0\x04", b"\x84\x03\0\0\0\0\0\0\0\x06"),
    // Step 3: Committed 5
    (b"\x04\0\0\0\0\0\0\0\x03", b"\x84\x04\0\0\0\0\0\0\0\x05"),
    // Step 4: Committed 6
    (b"\x04\0\0\0\0\0\0\0\x04", b"\x84\x04\0\0\0\0\0\0\0\x06"),
    // Begin: 7
    (b"\x01", b"\x81\0\0\0\0\0\0\0\x07"),
    // Get 7 x c: 0
    (
        b"\x02\0\0\0\0\0\0\0\x07\0\0\0\x01x\0\0\0\x01c",
        b"\x82\x01\0\0\0\x010",
    ),
    // Get 7 y c: 0
    (
        b"\x02\0\0\0\0\0\0\0\x07\0\0\0\x01y\0\0\0\x01c",
        b"\x82\x01\0\0\0\x010",
    ),
];

/// A stopped session is unknown; names are tested; after the first step nothing is read or set.
const PHASES: [Exchange; 12] = [
    // Begin: 1
    (b"\x01", b"\x81\0\0\0\0\0\0\0\x01"),
    // Stop 1: stopped
    (b"\x05\0\0\0\0\0\0\0\x01", b"\x85"),
    // Stop 1: refused 1
    (b"\x05\0\0\0\0\0\0\0\x01", b"\xFF\x01"),
    // Begin: 2
    (b"\x01", b"\x81\0\0\0\0\0\0\0\x02"),
    // Get 2  c: refused 3
    (b"\x02\0\0\0\0\0\0\0\x02\0\0\0\0\0\0\0\x01c", b"\xFF\x03"),
    // Get 2 r :: refused 4
    (b"\x02\0\0\0\0\0\0\0\x02\0\0\0\x01r\0\0\0\x01:", b"\xFF\x04"),
    // Get 1  :: refused 1
    (b"\x02\0\0\0\0\0\0\0\x01\0\0\0\0\0\0\0\x01:", b"\xFF\x01"),
    // Get 2 r c: Nothing
    (b"\x02\0\0\0\0\0\0\0\x02\0\0\0\x01r\0\0\0\x01c", b"\x82\0"),
    // Set 2 r c v: done
    (
        b"\x03\0\0\0\0\0\0\0\x02\0\0\0\x01r\0\0\0\x01c\0\0\0\x01v",
        b"\x83",
    ),
    // Step 2: Held 1 1
    (b"\x04\0\0\0\0\0\0\0\x02", b"\x84\x01\0\x01\0\x01"),
    // Get 2 r c: refused 2
    (b"\x02\0\0\0\0\0\0\0\x02\0\0\0\x01r\0\0\0\x01c", b"\xFF\x02"),
    // Set 2 r c v: refused 2
    (
        b"\x03\0\0\0\0\0\0\0\x02\0\0\0\x01r\0\0\0\x01c\0\0\0\x01v",
        b"\xFF\x02",
    ),
];

/// Rows of transactions.
pub const ROWS: [Row; 9] = [
    FIRST_CELL,
    (TRANSFER.len(), &[]),
    (STAMPED, &[&COMMIT_POINT]),
    (0, &[&TWO_SESSIONS, &FIRST_COMMITTER]),
    (0, &[&TWO_SESSIONS, &SECOND_COMMITTER]),
    (0, &[&ORACLE_RESTART]),
    (0, &[&ORACLE_RANGES]),
    (0, &[&WRITE_SKEW]),
    (0, &[&PHASES]),
];
