//! The report of a server's state: its counts, and those of one tablet.

ghost use Rattle.std.specs.Prelude.{◌≡◌, ◌≤◌, ◌++◌, IfOk, OnOk, IsOkUnless, length};
ghost use Rattle.metadata_table.specs.Places.{view_of};
ghost use Rattle.server_loop.specs.Reports.{end_bytes, tablet_counts, words};

use crate::server::Server;
use cell_key::Refusal;
use file_store::Files;
use metadata_table::Place;
use oracle::MarkStore;
use request_codec::{Reply, Request};
use tablet::Tablet;

/// Appends numbers of eight bytes each. Answers `NoMemory` if there is no memory.
fn push_words(out: &mut Vec<u8>, numbers: &[u64]) -> Result<(), Refusal>
    ensures ok { OnOk result (out.new.items ≡ out.old.items ++ words numbers.now) }
    ensures refusal { IsOkUnless result Refusal.NoMemory }
{
    let mut rest = numbers;
    'numbers: while let Some((number, after)) = rest.split_first() {
        out.extend_from_slice(&number.to_be_bytes())?;
        rest = after;
    }
    Ok(())
}

/// Appends the end of a place's rows; nothing for the last place. Answers `NoMemory` if there is no memory.
fn push_end(out: &mut Vec<u8>, place: &Place) -> Result<(), Refusal>
    ensures ok { OnOk result (out.new.items
        ≡ out.old.items ++ end_bytes (view_of place.now).end) }
    ensures short { OnOk result (length (end_bytes (view_of place.now).end) ≤ 4096) }
    ensures refusal { IsOkUnless result Refusal.NoMemory }
{
    if let Some(end) = &place.end {
        out.extend_from_slice(end.as_bytes())?;
    }
    Ok(())
}

/// The counts of a tablet.
fn counts_of(place: &Place, tablet: &Tablet) -> [u64; 5]
    ensures { result ≡ tablet_counts (view_of place.now) tablet.now }
{
    [
        place.server as u64,
        tablet.len() as u64,
        tablet.entry_bytes() as u64,
        tablet.file_count() as u64,
        tablet.file_bytes(),
    ]
}

/// Appends the counts of a tablet, and the end of its rows. Answers `NoMemory` if there is no memory.
fn push_tablet(out: &mut Vec<u8>, place: &Place, tablet: &Tablet) -> Result<(), Refusal>
    ensures ok { OnOk result (out.new.items ≡ out.old.items
        ++ (words (tablet_counts (view_of place.now) tablet.now)
        ++ end_bytes (view_of place.now).end)) }
    ensures short { OnOk result (length (end_bytes (view_of place.now).end) ≤ 4096) }
    ensures refusal { IsOkUnless result Refusal.NoMemory }
{
    push_words(out, &counts_of(place, tablet))?;
    push_end(out, place)
}

impl<F: Files + Drop, M: MarkStore + Drop> Server<F, M> {
    ghost use Rattle.server_loop.specs.Answer.{IsPlainAnswer};
    ghost use Rattle.server_loop.specs.Reports.{AreCounts, IsReport, report_limit};

    /// The counts of this server.
    fn counts(&self) -> [u64; 9]
        ensures { AreCounts F.contents self.now result }
    {
        [
            self.oracle.last(),
            self.clients.floor(),
            self.collectors.greatest_floor(),
            self.clients.len() as u64,
            self.cleaners.len() as u64,
            self.collectors.len() as u64,
            self.clients.buffered(),
            self.rows.written_bytes() as u64,
            self.rows.cluster.tablet_count() as u64,
        ]
    }

    /// The report of this server, and of the tablet with this number if there is one. Answers `NoMemory` if there is no
    /// memory.
    fn report(&self, tablet: u32) -> Result<Vec<u8>, Refusal>
        ensures is { IfOk result (λ report. IsReport F.contents self.now tablet report.items) }
        ensures short { IfOk result (λ report. length report.items ≤ report_limit) }
        ensures refusal { IsOkUnless result Refusal.NoMemory }
    {
        let mut out = Vec::new(self.alloc);
        push_words(&mut out, &self.counts())?;
        if let Some((place, tablet)) = self.rows.cluster.tablet(tablet) {
            push_tablet(&mut out, place, tablet)?;
        }
        Ok(out)
    }

    /// Answers a Status: the report. Nothing changes.
    pub(crate) fn status(&self, tablet: u32) -> Reply
        ensures { IsPlainAnswer F.Files M.MarkStore self.now
            (Request.Status tablet) result self.now }
    {
        match self.report(tablet) {
            Ok(report) => Reply::Status(report),
            Err(refusal) => Reply::Refused(refusal),
        }
    }
}
