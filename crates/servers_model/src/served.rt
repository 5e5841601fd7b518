//! The calls of a server, with what their contracts say of one server among several.

ghost use Rattle.std.specs.Prelude.{◌≡◌, ℕ};
ghost use Rattle.cell_key.specs.Cells.{Cells};
ghost use Rattle.servers_model.specs.Servers.{IsNew};
ghost use Rattle.servers_model.specs.Serves.{BeginsCollector, MayPublish, ServesCleaner, ServesCollector, ServesSession};
ghost use Rattle.si_model.specs.Machine as machine;
ghost use Rattle.si_model.specs.Reads.{cell_of};
ghost use Rattle.si_model.specs.Replies.{clean_reply, clean_start_reply, collect_reply, found_reply, progress_reply, range_of, result_reply, scan_reply};

use cell_key::{Refusal, Stamp};
use clean_up::Cleaners;
use rows::{Rows, Stamps};
use si_model::{CleanReply, CleanStart, CollectReply, Found, Progress, ScanRange, ScanReply};
use std::alloc::Global;
use txn_client::Clients;
use version_collector::Collectors;

/// A server begins, without sessions, cleaners and collectors. It need not know a stamp or a floor.
pub fn start(alloc: Global) -> (Clients, Cleaners, Collectors)
    ensures { IsNew (record { clients = result.0; cleaners = result.1; collectors = result.2 }) }
{
    (
        Clients::new(alloc, 0),
        Cleaners::new(alloc),
        Collectors::new(alloc, 0),
    )
}

/// A session begins. Refusals: as of `Clients::begin`.
pub fn serve_begin<S: Stamps>(clients: &mut Clients, stamps: &mut S) -> Result<Stamp, Refusal>
    ensures serves { (cells : Cells) → ServesSession
        cells clients.old (S.source.last stamps.old) machine.Begin
        (result_reply machine.Begun result) cells clients.new (S.source.last stamps.new) }
{
    clients.begin(stamps)
}

/// A session reads a cell. Refusals: as of `Clients::get`.
pub fn serve_get<R: Rows>(
    clients: &mut Clients,
    rows: &mut R,
    start: Stamp,
    row: &[u8],
    family: &[u8],
) -> Result<Found, Refusal>
    ensures serves { R.seen.holds rows.old → (last : ℕ) → ServesSession
        (R.seen.cells rows.old) clients.old last (machine.Get start (cell_of row.now family.now))
        (result_reply found_reply result) (R.seen.cells rows.new) clients.new last }
{
    clients.get(rows, start, row, family)
}

/// A session reads a range. Refusals: as of `Clients::scan`.
pub fn serve_scan<R: Rows>(
    clients: &mut Clients,
    rows: &mut R,
    start: Stamp,
    range: ScanRange<'_>,
    keys_only: bool,
    cells: u32,
) -> Result<ScanReply, Refusal>
    ensures serves { R.seen.holds rows.old → (last : ℕ) → ServesSession
        (R.seen.cells rows.old) clients.old last
        (machine.ScanFrom start (range_of range.entry) keys_only cells)
        (result_reply scan_reply result) (R.seen.cells rows.new) clients.new last }
{
    clients.scan(rows, start, range, keys_only, cells)
}

/// A session buffers a write. Refusals: as of `Clients::set`.
pub fn serve_set(
    clients: &mut Clients,
    start: Stamp,
    row: &[u8],
    family: &[u8],
    value: &[u8],
) -> Result<(), Refusal>
    ensures serves { (cells : Cells) (last : ℕ) → ServesSession cells clients.old last
        (machine.Set start (cell_of row.now family.now) value.now)
        (result_reply (λ _. machine.SetDone) result) cells clients.new last }
{
    clients.set(start, row, family, value)
}

/// A session buffers a deletion. Refusals: as of `Clients::delete`.
pub fn serve_delete(
    clients: &mut Clients,
    start: Stamp,
    row: &[u8],
    family: &[u8],
) -> Result<(), Refusal>
    ensures serves { (cells : Cells) (last : ℕ) → ServesSession cells clients.old last
        (machine.Delete start (cell_of row.now family.now))
        (result_reply (λ _. machine.DeleteDone) result) cells clients.new last }
{
    clients.delete(start, row, family)
}

/// A session takes its next step. Refusals: as of `Clients::step`.
pub fn serve_step<R: Rows, S: Stamps>(
    clients: &mut Clients,
    rows: &mut R,
    stamps: &mut S,
    start: Stamp,
) -> Result<Progress, Refusal>
    ensures serves { R.seen.holds rows.old → ServesSession
        (R.seen.cells rows.old) clients.old (S.source.last stamps.old) (machine.Advance start)
        (result_reply progress_reply result)
        (R.seen.cells rows.new) clients.new (S.source.last stamps.new) }
{
    clients.step(rows, stamps, start)
}

/// A session ends. Refusals: as of `Clients::stop`.
pub fn serve_stop(clients: &mut Clients, start: Stamp) -> Result<(), Refusal>
    ensures serves { (cells : Cells) (last : ℕ) → ServesSession cells clients.old last
        (machine.Stop start) (result_reply (λ _. machine.StopDone) result)
        cells clients.new last }
{
    clients.stop(start)
}

/// A cleaner begins. Refusals: as of `Cleaners::begin`.
pub fn serve_clean_begin<R: Rows>(
    cleaners: &mut Cleaners,
    rows: &mut R,
    row: &[u8],
    family: &[u8],
) -> Result<CleanStart, Refusal>
    ensures serves { R.seen.holds rows.old → ServesCleaner (R.seen.cells rows.old) cleaners.old
        (machine.CleanBegin (cell_of row.now family.now))
        (result_reply clean_start_reply result) (R.seen.cells rows.new) cleaners.new }
{
    cleaners.begin(rows, row, family)
}

/// A cleaner takes its next step. Refusals: as of `Cleaners::step`.
pub fn serve_clean_step<R: Rows>(
    cleaners: &mut Cleaners,
    rows: &mut R,
    number: u64,
) -> Result<CleanReply, Refusal>
    ensures serves { R.seen.holds rows.old → ServesCleaner (R.seen.cells rows.old) cleaners.old
        (machine.CleanStep number) (result_reply clean_reply result)
        (R.seen.cells rows.new) cleaners.new }
{
    cleaners.step(rows, number)
}

/// A floor that a server may publish, and so may any lower one: it is kept where other servers read it.
pub fn floor_to_publish(clients: &Clients) -> Stamp
    ensures { MayPublish clients.now result }
{
    clients.floor()
}

/// A collector begins, with a floor that isn't above any server's published one. Refusals: as of `Collectors::begin`.
pub fn serve_collect_begin(collectors: &mut Collectors, floor: Stamp) -> Result<u64, Refusal>
    ensures serves { BeginsCollector collectors.old floor result collectors.new }
{
    collectors.begin(floor)
}

/// A collector makes visits. Refusals: as of `Collectors::step`.
pub fn serve_collect_step<R: Rows>(
    collectors: &mut Collectors,
    rows: &mut R,
    number: u64,
    visits: u32,
) -> Result<CollectReply, Refusal>
    ensures serves { R.seen.holds rows.old → ServesCollector
        (R.seen.cells rows.old) collectors.old (machine.CollectStep number visits)
        (result_reply collect_reply result) (R.seen.cells rows.new) collectors.new }
{
    collectors.step(rows, number, visits)
}
