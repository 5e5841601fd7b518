//! The replies of the store, and the longest frame of one.

use cell_key::{Refusal, Stamp};
use si_model::{CleanReply, CleanStart, CollectReply, Found, Progress, ScanReply};

/// The most bytes of a reply's frame, the four bytes of its length included: a stamp and the longest value.
pub const LONGEST_REPLY: usize = 65_554;

/// The reply of the store to a request. The fields are the result of the operation of the same name.
#[derive(Debug, Drop)]
pub enum Reply {
    /// A session began at this stamp.
    Begin(Stamp),
    /// The result of the read.
    Get(Found),
    /// The result of the scan, and how far it went.
    Scan(ScanReply),
    /// The write is buffered.
    Set,
    /// The deletion is buffered.
    Delete,
    /// The result of the step.
    Step(Progress),
    /// The session has ended.
    Stop,
    /// The result of the cleaner's beginning.
    CleanBegin(CleanStart),
    /// The result of the cleaner's step.
    CleanStep(CleanReply),
    /// A collector was opened: its number, and its floor.
    CollectBegin(u64, Stamp),
    /// The result of the collector's step.
    CollectStep(CollectReply),
    /// The tablet's memtable was written to a file.
    Minor,
    /// The files of the tablet were merged.
    Merge,
    /// All data of the tablet is in one file.
    Major,
    /// The number of the left tablet.
    Split(u32),
    /// The tablet is on that server.
    Move,
    /// The number of files removed.
    Sweep(u64),
    /// The oracle continues from its stored mark.
    OracleRestart,
    /// The stamp and the value of the newest version in the range, if there is one.
    Raw(Option<(Stamp, Vec<u8>)>),
    /// The files keep the store, and it can be opened from them.
    Checkpoint,
    /// How the store and the tablet are: a text of at most 65,536 bytes.
    Status(Vec<u8>),
    /// The request was refused, for this reason.
    Refused(Refusal),
}

pub(crate) const BEGIN: u8 = 0x81;

pub(crate) const GET: u8 = 0x82;

pub(crate) const NOTHING: u8 = 0x00;

pub(crate) const VALUE: u8 = 0x01;

pub(crate) const PENDING: u8 = 0x02;

pub(crate) const SCAN: u8 = 0xB1;

pub(crate) const REACH_END: u8 = 0x01;

pub(crate) const REACH_MORE: u8 = 0x02;

pub(crate) const ITEM_VALUE: u8 = 0x01;

pub(crate) const ITEM_PENDING: u8 = 0x02;

pub(crate) const ITEM_UNSENT: u8 = 0x03;

pub(crate) const SET: u8 = 0x83;

pub(crate) const STEP: u8 = 0x84;

pub(crate) const HELD: u8 = 0x01;

pub(crate) const CONFLICT: u8 = 0x02;

pub(crate) const STAMPED: u8 = 0x03;

pub(crate) const COMMITTED: u8 = 0x04;

pub(crate) const LOST: u8 = 0x05;

pub(crate) const FINISHED: u8 = 0x06;

pub(crate) const STOP: u8 = 0x85;

pub(crate) const CLEAN_BEGIN: u8 = 0x86;

pub(crate) const NO_LOCK: u8 = 0x00;

pub(crate) const CLEANER: u8 = 0x01;

pub(crate) const CLEAN_STEP: u8 = 0x87;

pub(crate) const DECIDED: u8 = 0x01;

pub(crate) const ROLLED_FORWARD: u8 = 0x02;

pub(crate) const ROLLED_BACK: u8 = 0x03;

pub(crate) const GONE: u8 = 0x04;

pub(crate) const COLLECT_BEGIN: u8 = 0x88;

pub(crate) const COLLECT_STEP: u8 = 0x89;

pub(crate) const MORE: u8 = 0x01;

pub(crate) const BLOCKED: u8 = 0x02;

pub(crate) const COLLECTED: u8 = 0x03;

pub(crate) const MINOR: u8 = 0x8A;

pub(crate) const MERGE: u8 = 0x8B;

pub(crate) const MAJOR: u8 = 0x8C;

pub(crate) const SPLIT: u8 = 0x8D;

pub(crate) const MOVE: u8 = 0x8E;

pub(crate) const SWEEP: u8 = 0x8F;

pub(crate) const ORACLE_RESTART: u8 = 0x90;

pub(crate) const RAW: u8 = 0x91;

pub(crate) const VERSION: u8 = 0x01;

pub(crate) const CHECKPOINT: u8 = 0x92;

pub(crate) const DELETE: u8 = 0x93;

pub(crate) const STATUS: u8 = 0xB4;

pub(crate) const REFUSED: u8 = 0xFF;
