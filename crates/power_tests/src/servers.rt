//! Servers with a log over devices with two contents: they serve, are killed or lose power, and are opened again.

ghost use Rattle.std.specs.Prelude.{◌≡◌, ◌≢◌, IfSome, IsErr, IsTrue, MatchResult, OnErr, OnOk};
ghost use Rattle.durable.specs.Recovery.{OpensFrom};
ghost use Rattle.durable.specs.OverDevices.{LastsOver, ServesOver};
ghost use Rattle.server_loop.specs.Server.{IsConfig};
ghost use Rattle.si_model.specs.Machine.{IsReached, State};
ghost use Rattle.power_tests.specs.Keeping.{EndsWith, KeepsBy, lasting, taken_over};
ghost use Rattle.power_tests.specs.Meant.{Meant};

use crate::cached_files::CachedFiles;
use crate::cached_log::CachedLogFile;
use crate::cached_mark::CachedMark;
use crate::fates::Choice;
use cell_key::Refusal;
use commit_log::{FileLog, Log, LogFault};
use durable::DurableServer;
use file_store::{FileFault, Files};
use oracle::{MarkStore, MemMark};
use server_loop::{Config, End, ServeFault, Server};
use std::alloc::Global;
use std::io::{Read, Write};

/// A server with a log over devices with two contents.
pub type CachedServer<V> = DurableServer<
    Server<CachedFiles<V>, MemMark>,
    CachedMark<V>,
    FileLog<CachedLogFile<V>>,
>;

/// Files, a mark and a log's file with two contents.
#[derive(Drop)]
pub struct CachedDevices<V: Choice> {
    pub files: CachedFiles<V>,
    pub marks: CachedMark<V>,
    pub log: CachedLogFile<V>,
}

/// The refusal for a fault of a log.
fn refusal_of(fault: LogFault) -> Refusal
    ensures damaged { result ≡ Refusal.Damaged → fault ≡ LogFault.Damaged }
    ensures others { result ≢ Refusal.MemtableFull }
{
    match fault {
        LogFault::Damaged => Refusal::Damaged,
        LogFault::Memory => Refusal::NoMemory,
        LogFault::Device | LogFault::Refused => Refusal::Device,
    }
}

/// Serves, and gives the devices as the last call left them. From some call on each may fail, as in a kill or a loss of
/// power.
pub fn serve<V: Choice, I: Read, O: Write>(
    server: CachedServer<V>,
    reader: &mut I,
    writer: &mut O,
    most_reads: u64,
) -> (Result<End, ServeFault>, CachedDevices<V>)
    ensures { EndsWith
        (λ last. ServesOver ⟦<CachedFiles<V> as Files>⟧ ⟦<MemMark as MarkStore>⟧
        ⟦<CachedMark<V> as MarkStore>⟧ ⟦<FileLog<CachedLogFile<V>> as Log>⟧ server last
        (I.remaining reader.old) (I.remaining reader.new) (O.contents writer.old)
        (O.contents writer.new) most_reads result.0)
        (LastsOver ⟦<CachedFiles<V> as Files>⟧ ⟦<FileLog<CachedLogFile<V>> as Log>⟧)
        (KeepsBy V.meant result.1.files result.1.marks result.1.log) }
{
    let mut server = server;
    let ended = server.serve(reader, writer, most_reads);
    let (files, marks, log) = server.into_devices();
    let log = log.into_file();
    (ended, CachedDevices { files, marks, log })
}

/// A server over these devices.
///
/// # Errors
///
/// Those of `DurableServer::open`. The devices are given back.
pub fn open<V: Choice>(
    alloc: Global,
    devices: CachedDevices<V>,
    config: Config,
) -> Result<CachedServer<V>, (Refusal, CachedDevices<V>)>
    requires { IsConfig config }
    ensures { (st : State) → IsReached st
        → KeepsBy V.meant devices.files devices.marks devices.log st
        → MatchResult result (OpensFrom ⟦<CachedFiles<V> as Files>⟧
        ⟦<CachedMark<V> as MarkStore>⟧ ⟦<FileLog<CachedLogFile<V>> as Log>⟧ st)
        (λ refused. (refused.0 ≢ Refusal.Damaged) × (refused.0 ≢ Refusal.MemtableFull)
        × KeepsBy V.meant refused.1.files refused.1.marks refused.1.log st) }
{
    let CachedDevices { files, marks, log } = devices;
    let log = match FileLog::open(alloc, log) {
        Ok(log) => log,
        Err((fault, log)) => return Err((refusal_of(fault), CachedDevices { files, marks, log })),
    };
    match DurableServer::open(alloc, files, marks, log, config) {
        Ok(server) => Ok(server),
        Err((refusal, files, marks, log)) => {
            let log = log.into_file();
            Err((refusal, CachedDevices { files, marks, log }))
        }
    }
}

impl<V: Choice> CachedDevices<V> {
    /// An opening after a kill: root, mark and log are written again as they are read. Then each choice of contents
    /// keeps what was kept of these three as they are read. If that fails, each keeps what some choice kept.
    ///
    /// # Errors
    ///
    /// `Device` or `NoMemory`.
    pub fn reopen(&mut self) -> Result<(), Refusal>
        ensures ok { OnOk result ((meant : Meant) (st : State)
            → KeepsBy (taken_over meant) self.old.files self.old.marks self.old.log st
            → KeepsBy meant self.new.files self.new.marks self.new.log st) }
        ensures err { OnErr result ((meant : Meant) → (before : Meant) × ((st : State)
            → KeepsBy before self.old.files self.old.marks self.old.log st
            → KeepsBy meant self.new.files self.new.marks self.new.log st)) }
    {
        match self.files.reopen() {
            Ok(()) => {}
            Err(FileFault::Device) => return Err(Refusal::Device),
            Err(FileFault::Memory) => return Err(Refusal::NoMemory),
        }
        if self.marks.reopen().is_err() {
            return Err(Refusal::Device);
        }
        if self.log.reopen().is_err() {
            return Err(Refusal::Device);
        }
        Ok(())
    }

    /// The devices after a loss of power: what lasts is read. `None` without memory.
    pub fn without_power(self) -> Option<CachedDevices<V>>
        ensures { IfSome result (λ after. (meant : Meant) (st : State)
            → KeepsBy lasting self.files self.marks self.log st
            → KeepsBy meant after.files after.marks after.log st) }
    {
        let CachedDevices { files, marks, log } = self;
        let files = files.without_power()?;
        let marks = marks.without_power();
        let log = log.without_power()?;
        Some(CachedDevices { files, marks, log })
    }
}
