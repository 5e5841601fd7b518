//! Requests and answers in words.

use cell_key::Qualifier;
use ownership::Frame;
use request_codec::{Answer, Operation, Reply, Request};
use si_model::{
    CleanReply, CleanStart, CollectReply, CommitReply, Found, Progress, ScanRange, ScanReach,
    ScanReply,
};
use std::fmt;

/// The most bytes of a name or a value that are shown.
const MOST_SHOWN: usize = 64;

/// Bytes as text: unprintable bytes as numbers, and only the first 64 bytes of a longer text.
#[derive(Clone, Copy, Drop)]
struct Text<'a>(&'a [u8]);

impl fmt::Display for Text<'_> {
    fn fmt<W: fmt::Write>(&self, f: &mut fmt::Formatter<W>) -> fmt::Result {
        match self.0.split_at_checked(MOST_SHOWN) {
            Some((shown, rest)) if !rest.is_empty() => {
                write!(
                    f,
                    "\"{}\" and {} bytes more",
                    shown.escape_ascii(),
                    rest.len()
                )
            }
            _ => write!(f, "\"{}\"", self.0.escape_ascii()),
        }
    }
}

/// The name of a column.
fn column_name(qualifier: Qualifier) -> &'static str {
    match qualifier {
        Qualifier::Data => "data",
        Qualifier::Lock => "lock",
        Qualifier::Write => "write",
    }
}

/// What a client sent, in words: its number, and the request.
#[derive(Drop)]
pub struct FrameWords<'a>(pub &'a Frame<'a>);

impl fmt::Display for FrameWords<'_> {
    fn fmt<W: fmt::Write>(&self, f: &mut fmt::Formatter<W>) -> fmt::Result {
        match self.0 {
            Frame::Asks(client, operation) => {
                let operation = OperationWords(operation);
                write!(f, "client {client}: {operation}")
            }
            Frame::Leaves(client) => write!(f, "client {client}: gone"),
            Frame::Malformed(client) => write!(f, "client {client}: no request"),
            Frame::NoClient => write!(f, "no client"),
        }
    }
}

/// A request in words, which may stand for several: its name and its fields, and the number of its cells if it has more
/// than one.
#[derive(Drop)]
pub struct OperationWords<'a>(pub &'a Operation<'a>);

impl fmt::Display for OperationWords<'_> {
    fn fmt<W: fmt::Write>(&self, f: &mut fmt::Formatter<W>) -> fmt::Result {
        match self.0 {
            Operation::One(request) => {
                let request = RequestWords(request);
                write!(f, "{request}")
            }
            Operation::Commit { start, writes } => {
                write!(f, "Commit {start}, {} writes", writes.len())
            }
            Operation::Read {
                start,
                cells,
                stays_open,
            } => {
                let then = if *stays_open { "stays open" } else { "ends" };
                write!(f, "Read {start}, {} cells, {then}", cells.len())
            }
        }
    }
}

/// An answer in words, without the name of its request.
#[derive(Drop)]
pub struct AnswerWords<'a>(pub &'a Answer);

impl fmt::Display for AnswerWords<'_> {
    fn fmt<W: fmt::Write>(&self, f: &mut fmt::Formatter<W>) -> fmt::Result {
        match self.0 {
            Answer::Said(reply) => {
                let reply = ReplyWords(reply);
                write!(f, "{reply}")
            }
            Answer::Commit(CommitReply::Committed(start, stamp)) => {
                write!(f, "Committed {start} {stamp}")
            }
            Answer::Commit(CommitReply::Conflict(start, place)) => {
                write!(f, "Conflict {start} {place}")
            }
            Answer::Read(reply) => {
                write!(f, "Read {}, {} cells", reply.start, reply.found.len())
            }
        }
    }
}

/// A request in words: its name and its fields.
#[derive(Drop)]
struct RequestWords<'a>(&'a Request<'a>);

impl fmt::Display for RequestWords<'_> {
    fn fmt<W: fmt::Write>(&self, f: &mut fmt::Formatter<W>) -> fmt::Result {
        match *self.0 {
            Request::Begin | Request::Step { .. } | Request::Stop { .. } => {
                write_session(self.0, f)
            }
            Request::Get { .. } | Request::Set { .. } | Request::Delete { .. } => {
                write_cell(self.0, f)
            }
            Request::Scan {
                start,
                range,
                keys_only,
                cells,
            } => {
                let what = if keys_only { "keys" } else { "cells" };
                write!(f, "Scan {start} {cells} {what}")?;
                write_range(&range, f)
            }
            Request::Raw {
                row,
                family,
                qualifier,
                lo,
                hi,
            } => {
                let column = column_name(qualifier);
                write!(f, "Raw {} {} {column} {lo}..{hi}", Text(row), Text(family))
            }
            _ => write_upkeep(self.0, f),
        }
    }
}

/// A request of a session that names no cell, in words.
fn write_session<W: fmt::Write>(request: &Request<'_>, f: &mut fmt::Formatter<W>) -> fmt::Result {
    match *request {
        Request::Step { start } => write!(f, "Step {start}"),
        Request::Stop { start } => write!(f, "Stop {start}"),
        _ => write!(f, "Begin"),
    }
}

/// A request of a session that names a cell, in words.
fn write_cell<W: fmt::Write>(request: &Request<'_>, f: &mut fmt::Formatter<W>) -> fmt::Result {
    match *request {
        Request::Get { start, row, family } => {
            write!(f, "Get {start} {} {}", Text(row), Text(family))
        }
        Request::Set {
            start,
            row,
            family,
            value,
        } => {
            write!(f, "Set {start} {} {}", Text(row), Text(family))?;
            write!(f, " {}", Text(value))
        }
        Request::Delete { start, row, family } => {
            write!(f, "Delete {start} {} {}", Text(row), Text(family))
        }
        _ => Ok(()),
    }
}

/// The range of a scan, in words.
fn write_range<W: fmt::Write>(range: &ScanRange<'_>, f: &mut fmt::Formatter<W>) -> fmt::Result {
    if let Some((row, family)) = range.after {
        write!(f, " after {} {}", Text(row), Text(family))?;
    }
    if let Some(end) = range.end {
        write!(f, " up to {}", Text(end))?;
    }
    if let Some(family) = range.family {
        write!(f, " of {}", Text(family))?;
    }
    Ok(())
}

/// A request for the upkeep of cells or tablets, in words.
fn write_upkeep<W: fmt::Write>(request: &Request<'_>, f: &mut fmt::Formatter<W>) -> fmt::Result {
    match *request {
        Request::CleanBegin { row, family } => {
            write!(f, "CleanBegin {} {}", Text(row), Text(family))
        }
        Request::CleanStep { cleaner } => write!(f, "CleanStep {cleaner}"),
        Request::CollectBegin => write!(f, "CollectBegin"),
        Request::CollectStep { collector, visits } => {
            write!(f, "CollectStep {collector} {visits}")
        }
        _ => write_upkeep_of_tablets(request, f),
    }
}

/// A request for the upkeep of tablets, in words.
fn write_upkeep_of_tablets<W: fmt::Write>(
    request: &Request<'_>,
    f: &mut fmt::Formatter<W>,
) -> fmt::Result {
    match *request {
        Request::Minor { tablet } => write!(f, "Minor {tablet}"),
        Request::Merge { tablet, count } => write!(f, "Merge {tablet} {count}"),
        Request::Major { tablet } => write!(f, "Major {tablet}"),
        Request::Split { row } => write!(f, "Split {}", Text(row)),
        Request::Move { tablet, server } => write!(f, "Move {tablet} {server}"),
        Request::Sweep => write!(f, "Sweep"),
        Request::OracleRestart => write!(f, "OracleRestart"),
        Request::Checkpoint => write!(f, "Checkpoint"),
        Request::Status { tablet } => write!(f, "Status {tablet}"),
        _ => Ok(()),
    }
}

/// A reply in words, without the name of its request.
#[derive(Drop)]
struct ReplyWords<'a>(&'a Reply);

impl fmt::Display for ReplyWords<'_> {
    fn fmt<W: fmt::Write>(&self, f: &mut fmt::Formatter<W>) -> fmt::Result {
        match self.0 {
            Reply::Get(found) => write_found(found, f),
            Reply::Scan(reply) => write_scanned(reply, f),
            Reply::Step(progress) => write_progress(*progress, f),
            Reply::CleanBegin(start) => write_clean_start(*start, f),
            Reply::CleanStep(done) => write_cleaning(*done, f),
            Reply::CollectStep(done) => write_collecting(done, f),
            Reply::Raw(None) => write!(f, "Raw nothing"),
            Reply::Raw(Some((stamp, value))) => write!(f, "Raw {stamp} {}", Text(value)),
            Reply::Status(report) => write!(f, "Status {}", Text(report)),
            Reply::Refused(refusal) => write!(f, "{refusal}"),
            _ => write_numbers(self.0, f),
        }
    }
}

/// A reply with numbers or without fields, in words.
fn write_numbers<W: fmt::Write>(reply: &Reply, f: &mut fmt::Formatter<W>) -> fmt::Result {
    match *reply {
        Reply::Begin(start) => write!(f, "Begin {start}"),
        Reply::CollectBegin(collector, floor) => {
            write!(f, "Collector {collector}, floor {floor}")
        }
        Reply::Split(tablet) => write!(f, "Split {tablet}"),
        Reply::Sweep(count) => write!(f, "Sweep {count}"),
        _ => write!(f, "{} done", done_name(reply)),
    }
}

/// The name of the request that a reply without fields belongs to.
fn done_name(reply: &Reply) -> &'static str {
    match reply {
        Reply::Set => "Set",
        Reply::Delete => "Delete",
        Reply::Stop => "Stop",
        Reply::Minor => "Minor",
        Reply::Merge => "Merge",
        Reply::Major => "Major",
        Reply::Move => "Move",
        Reply::OracleRestart => "OracleRestart",
        _ => "Checkpoint",
    }
}

/// The outcome of a CleanBegin, in words.
fn write_clean_start<W: fmt::Write>(start: CleanStart, f: &mut fmt::Formatter<W>) -> fmt::Result {
    match start {
        CleanStart::NoLock => write!(f, "NoLock"),
        CleanStart::Cleaner(cleaner, start) => write!(f, "Cleaner {cleaner} {start}"),
    }
}

/// The result of a read, in words.
fn write_found<W: fmt::Write>(found: &Found, f: &mut fmt::Formatter<W>) -> fmt::Result {
    match found {
        Found::Value(value) => write!(f, "Value {}", Text(value)),
        Found::Nothing => write!(f, "Nothing"),
        Found::Pending(start) => write!(f, "Pending {start}"),
    }
}

/// The result of a scan, in words: the number of cells that it names, and how far it went.
fn write_scanned<W: fmt::Write>(reply: &ScanReply, f: &mut fmt::Formatter<W>) -> fmt::Result {
    let count = reply.items.len();
    match &reply.reach {
        ScanReach::End => write!(f, "Scan {count} cells, End"),
        ScanReach::More(cell) => {
            let row = Text(cell.row.as_bytes());
            let family = Text(cell.family.as_bytes());
            write!(f, "Scan {count} cells, More after {row} {family}")
        }
    }
}

/// The outcome of a session's step, in words.
fn write_progress<W: fmt::Write>(progress: Progress, f: &mut fmt::Formatter<W>) -> fmt::Result {
    match progress {
        Progress::Held(count, all) => write!(f, "Held {count} {all}"),
        Progress::Conflict(count) => write!(f, "Conflict {count}"),
        Progress::Stamped(stamp) => write!(f, "Stamped {stamp}"),
        Progress::Committed(stamp) => write!(f, "Committed {stamp}"),
        Progress::Lost => write!(f, "Lost"),
        Progress::Finished(count, all) => write!(f, "Finished {count} {all}"),
    }
}

/// The outcome of a cleaner's step, in words.
fn write_cleaning<W: fmt::Write>(done: CleanReply, f: &mut fmt::Formatter<W>) -> fmt::Result {
    match done {
        CleanReply::Decided => write!(f, "Decided"),
        CleanReply::RolledForward(stamp) => write!(f, "RolledForward {stamp}"),
        CleanReply::RolledBack => write!(f, "RolledBack"),
        CleanReply::Gone => write!(f, "Gone"),
    }
}

/// The outcome of a collector's step, in words.
fn write_collecting<W: fmt::Write>(done: &CollectReply, f: &mut fmt::Formatter<W>) -> fmt::Result {
    match done {
        CollectReply::More => write!(f, "More"),
        CollectReply::Blocked(cell, start) => {
            let row = Text(cell.row.as_bytes());
            let family = Text(cell.family.as_bytes());
            write!(f, "Blocked {row} {family} {start}")
        }
        CollectReply::Collected => write!(f, "Collected"),
    }
}
