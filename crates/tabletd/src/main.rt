//! `tabletd [--dir DIR [--log] [--format 3]] [--log-bytes L] [--flush N] [--flush-bytes B] [--merge M] [--cache C]
//! [--upkeep] [--session-bytes S] [--clients [--admin A]]` serves framed requests from standard input, and writes a
//! framed reply to each to standard output. The store is in memory, or in a folder, with or without a log. Several clients may share
//! the streams.
#![tactic(auto)]

mod row_service;

ghost use Rattle.std.specs.Prelude.{◌≡◌, ◌≤◌, IfErr, IfOk, IfSome, None, OnOk, Some, false, true};

use cell_key::{Refusal, Stamp};
use clap::error::ErrorKind;
use command_line::{Options, options};
use commit_log::{DirLog, Log, LogFault, OpenLog, make_log, open_log};
use durable::{AtomicPut, DurableServer, ROOT_NAME};
use file_store::{DirFiles, FileFault, Files, MemFiles, read_whole};
use file_sums::{SumFiles, give_sums, has_sums};
use oracle::{DirMark, MarkStore, MemMark};
use row_service::serve_rows;
use server_loop::{
    ClientServer, Config, FlushLimits, MergePolicy, Server, end_status, open_status,
};
use std::alloc::{AllocError, Global};
use std::fs::File;
use std::io::BufWriter;
use std::num::NonZeroUsize;
use std::process::ExitCode;
use std::rt::{Env, Files as Folders};
use std::{env, io, mem};

/// The exit status after help or the version is printed.
const DONE: u8 = 0;

/// The exit status for a refused command line.
const REFUSED: u8 = 1;

/// The exit status for lack of memory, and its line on standard error.
const NO_MEMORY: u8 = 7;

const NO_MEMORY_LINE: &str = "tabletd: no memory";

/// The size of the buffer of replies for standard output, in bytes. It is flushed before each read.
const WAITING: usize = 65_536;

/// The most bytes of a sorted file.
const FILE_LIMIT: u64 = 68_719_476_736;

/// Why the command line can't be parsed.
#[derive(Drop)]
enum LineError {
    NoMemory,
    NotText(io::Error),
    Refused(clap::Error),
}

impl From<AllocError> for LineError {
    fn from(_error: AllocError) -> LineError {
        LineError::NoMemory
    }
}

impl From<io::Error> for LineError {
    fn from(error: io::Error) -> LineError {
        match error.kind() {
            io::ErrorKind::OutOfMemory => LineError::NoMemory,
            _ => LineError::NotText(error),
        }
    }
}

impl From<clap::Error> for LineError {
    fn from(error: clap::Error) -> LineError {
        match error.kind() {
            ErrorKind::OutOfMemory => LineError::NoMemory,
            _ => LineError::Refused(error),
        }
    }
}

/// The exit status if a folder's files can't be opened, and its line on standard error.
fn folder_status(fault: &FileFault) -> (u8, &'static str) {
    match fault {
        FileFault::Device => open_status(&Refusal::Device),
        FileFault::Memory => open_status(&Refusal::NoMemory),
    }
}

/// The log's fault for a fault of the files beside it.
fn fault_of_files(fault: FileFault) -> LogFault {
    match fault {
        FileFault::Device => LogFault::Device,
        FileFault::Memory => LogFault::Memory,
    }
}

/// The exit status if a folder's log can't be opened or made, and its line on standard error.
fn log_status(fault: &LogFault) -> (u8, &'static str) {
    match fault {
        LogFault::Device => open_status(&Refusal::Device),
        LogFault::Memory => open_status(&Refusal::NoMemory),
        LogFault::Damaged | LogFault::Refused => open_status(&Refusal::Damaged),
    }
}

/// Whether a store with this mark lost its root: the files have no root, but there is another file, or the mark is above
/// 0.
fn lacks_root<F: Files>(alloc: Global, files: &mut F, mark: Stamp) -> Result<bool, LogFault> {
    if files.size(ROOT_NAME).map_err(fault_of_files)?.is_some() {
        return Ok(false);
    }
    let mut names = Vec::new(alloc);
    files.list(&mut names).map_err(fault_of_files)?;
    Ok(!names.is_empty() || mark > 0)
}

/// Puts the root again, if there is one: the root that is read may not last if a sync of it failed before a kill. The
/// files are unchanged. Returns whether it isn't empty, as a file is read that is gone by then: an empty one isn't put.
fn renew_root<F: Files>(alloc: Global, files: &mut F) -> Result<bool, FileFault>
    ensures same { OnOk result (F.contents files.new ≡ F.contents files.old) }
{
    let Some(root) = read_whole(alloc, files, ROOT_NAME)? else {
        return Ok(true);
    };
    if root.is_empty() {
        return Ok(false);
    }
    files.put(ROOT_NAME, &root)?;
    Ok(true)
}

/// Writes the oracle's mark anew, if there is one: the mark that is read may not last if a sync of it failed before a
/// kill. The mark is unchanged.
fn renew_mark<M: MarkStore>(marks: &mut M) -> Result<(), Refusal>
    ensures same { M.mark marks.new ≡ M.mark marks.old }
    ensures refusal { IfErr result (λ refusal. refusal ≡ Refusal.Device) }
{
    let mark = marks.load()?;
    if mark > 0 {
        marks.store(mark)?;
    }
    Ok(())
}

/// Opens the log of the folder with these files and this mark, or makes one if it is wanted; `None` without a log. If
/// the log was cut, standard error says so.
///
/// # Errors
///
/// The errors of `open_log` and `make_log`, and `Damaged` if the folder lost its root.
fn log_of<R, F: Files, M: MarkStore>(
    rt: &R,
    folder: &str,
    makes: bool,
    files: &mut F,
    marks: &mut M,
) -> Result<Option<DirLog<R>>, LogFault>
where
    R: AllocGlobal + Eprint + Folders<File = File> + Clone + Drop,
{
    let mark = marks.load().map_err(|_| LogFault::Device)?;
    let mut found = open_log(rt.clone()?, folder, mark)?;
    if found.is_none() && !makes {
        return Ok(None);
    }
    if lacks_root(rt.alloc(), files, mark)? {
        return Err(LogFault::Damaged);
    }
    if found.is_none() {
        make_log(rt, folder)?;
        found = open_log(rt.clone()?, folder, mark)?;
    }
    let Some(OpenLog { log, cut }) = found else {
        return Ok(None);
    };
    if cut > 0 {
        let _ = eprintln!(rt;
            "tabletd: {cut} bytes at the end of the log were cut and kept in commit.cut"
        );
    }
    Ok(Some(log))
}

/// When files are merged without a request: at the number that the command line gives, or with upkeep by levels. By levels
/// a merge goes in steps, which come between two replies.
fn merge_policy(options: &Options<'_>) -> Option<MergePolicy>
    ensures count { IfSome options.now.merge (λ most. result ≡ Some (MergePolicy.AtCount most)) }
    ensures levels { options.now.merge ≡ None → options.now.upkeep ≡ true
        → result ≡ Some MergePolicy.Levels }
    ensures never { options.now.merge ≡ None → options.now.upkeep ≡ false → result ≡ None }
{
    match options.merge {
        Some(most) => Some(MergePolicy::AtCount(most)),
        None if options.upkeep => Some(MergePolicy::Levels),
        None => None,
    }
}

/// Serves the clients that share standard input. Returns the exit status, with its line on standard error.
fn serve_clients<R: AllocGlobal + Input + Print, F: Files + Drop, M: MarkStore + Drop>(
    rt: &R,
    server: Server<F, M>,
    admin: Option<u32>,
) -> (u8, &'static str) {
    let mut server = ClientServer::new(rt.alloc(), server, admin);
    let mut reader = rt.reader();
    let ended = match BufWriter::with_capacity(rt.alloc(), WAITING, io::writer(rt)) {
        Ok(mut writer) => end_status(&server.serve(&mut reader, &mut writer, 1, u64::MAX)),
        Err(_) => (NO_MEMORY, NO_MEMORY_LINE),
    };
    // The program ends, and the system frees its memory at once.
    mem::forget(server);
    ended
}

/// Serves standard input with a server that was made or opened. Returns the exit status, with its line on standard
/// error.
fn serve<R: AllocGlobal + Input + Print, F: Files + Drop, M: MarkStore + Drop>(
    rt: &R,
    opened: Result<Server<F, M>, (Refusal, F, M)>,
    options: &Options<'_>,
) -> (u8, &'static str) {
    let mut server = match opened {
        Ok(server) => server,
        Err((refusal, _, _)) => return open_status(&refusal),
    };
    if let Some(policy) = merge_policy(options) {
        server.merge_by(policy);
    }
    if let Some(most_blocks) = NonZeroUsize::new(options.cache as usize) {
        server.cache_blocks(most_blocks);
    }
    if let Some(most) = options.session_bytes {
        server.limit_buffer(u64::from(most));
    }
    if options.clients {
        return serve_clients(rt, server, options.admin);
    }
    let mut reader = rt.reader();
    let ended = match BufWriter::with_capacity(rt.alloc(), WAITING, io::writer(rt)) {
        Ok(mut writer) => end_status(&server.serve(&mut reader, &mut writer, u64::MAX)),
        Err(_) => (NO_MEMORY, NO_MEMORY_LINE),
    };
    // The program ends, and the system frees its memory at once.
    mem::forget(server);
    ended
}

/// Serves the clients that share standard input with a server that has opened its log. Returns the exit status, with its
/// line on standard error.
fn serve_logged_clients<R, F, M, L>(
    rt: &R,
    server: DurableServer<Server<F, MemMark>, M, L>,
    admin: Option<u32>,
) -> (u8, &'static str)
where
    R: AllocGlobal + Input + Print,
    F: AtomicPut + Drop,
    M: MarkStore + Drop,
    L: Log + Drop,
{
    let mut server = ClientServer::new(rt.alloc(), server, admin);
    let mut reader = rt.reader();
    let ended = match BufWriter::with_capacity(rt.alloc(), WAITING, io::writer(rt)) {
        Ok(mut writer) => end_status(&durable::serve_clients(
            rt.alloc(),
            &mut server,
            &mut reader,
            &mut writer,
            u64::MAX,
        )),
        Err(_) => (NO_MEMORY, NO_MEMORY_LINE),
    };
    // The program ends, and the system frees its memory at once.
    mem::forget(server);
    ended
}

/// Serves standard input with a server that has opened its log. Returns the exit status, with its line on standard
/// error.
fn serve_logged<
    R: AllocGlobal + Input + Print,
    F: AtomicPut + Drop,
    M: MarkStore + Drop,
    L: Log + Drop,
>(
    rt: &R,
    opened: Result<DurableServer<Server<F, MemMark>, M, L>, (Refusal, F, M, L)>,
    options: &Options<'_>,
) -> (u8, &'static str) {
    let mut server = match opened {
        Ok(server) => server,
        Err((refusal, _, _, _)) => return open_status(&refusal),
    };
    if let Err(refusal @ (Refusal::Device | Refusal::NoMemory)) = server.name_root() {
        return open_status(&refusal);
    }
    server.checkpoint_at(options.log_bytes as usize);
    if options.upkeep {
        server.sweep_after_checkpoints();
    }
    if let Some(policy) = merge_policy(options) {
        server.merge_by(policy);
    }
    if let Some(most_blocks) = NonZeroUsize::new(options.cache as usize) {
        server.cache_blocks(most_blocks);
    }
    if let Some(most) = options.session_bytes {
        server.limit_buffer(u64::from(most));
    }
    if options.clients {
        return serve_logged_clients(rt, server, options.admin);
    }
    let mut reader = rt.reader();
    let ended = match BufWriter::with_capacity(rt.alloc(), WAITING, io::writer(rt)) {
        Ok(mut writer) => end_status(&server.serve(&mut reader, &mut writer, u64::MAX)),
        Err(_) => (NO_MEMORY, NO_MEMORY_LINE),
    };
    // The program ends, and the system frees its memory at once.
    mem::forget(server);
    ended
}

/// Serves a store in memory.
fn serve_memory<R: AllocGlobal + Input + Print>(
    rt: &R,
    config: Config,
    options: &Options<'_>,
) -> (u8, &'static str)
    requires flush_least { 1 ≤ config.flush.entries }
    requires flush_most { config.flush.entries ≤ 100000 }
    requires flush_bytes { IfSome config.flush.bytes (λ bytes.
        (1048576 ≤ bytes) × (bytes ≤ 67108864)) }
    requires limit { config.file_limit ≡ FILE_LIMIT }
{
    let alloc = rt.alloc();
    let made = Server::new(alloc, MemFiles::new(alloc), MemMark::new(), config);
    serve(rt, made, options)
}

/// Whether the files of a folder are of format 3, which a folder gets if that is wanted.
fn format_of<R: AllocGlobal + Folders<File = File>>(
    rt: &R,
    folder: &str,
    is_wanted: bool,
) -> io::Result<bool> {
    if has_sums(rt, rt.alloc(), folder)? {
        return Ok(true);
    }
    if is_wanted {
        give_sums(rt, rt.alloc(), folder)?;
    }
    Ok(is_wanted)
}

/// The exit status if the format of a folder's files can't be read or noted, and its line on standard error.
fn format_status(error: &io::Error) -> (u8, &'static str) {
    match error.kind() {
        io::ErrorKind::OutOfMemory => open_status(&Refusal::NoMemory),
        io::ErrorKind::InvalidData => open_status(&Refusal::Damaged),
        _ => open_status(&Refusal::Device),
    }
}

/// Serves the store of a folder, in the format of its files, with its log if it has one.
fn serve_folder<R: AllocGlobal + Input + Print + Eprint + Folders<File = File> + Clone + Drop>(
    rt: &R,
    folder: &str,
    config: Config,
    options: &Options<'_>,
) -> Result<(u8, &'static str), AllocError>
    requires flush_least { 1 ≤ config.flush.entries }
    requires flush_most { config.flush.entries ≤ 100000 }
    requires flush_bytes { IfSome config.flush.bytes (λ bytes.
        (1048576 ≤ bytes) × (bytes ≤ 67108864)) }
    requires limit { config.file_limit ≡ FILE_LIMIT }
{
    let files = match DirFiles::open(rt.clone()?, folder) {
        Ok(files) => files,
        Err(fault) => return Ok(folder_status(&fault)),
    };
    match format_of(rt, folder, options.format.is_some()) {
        Ok(false) => serve_files(rt, folder, files, config, options),
        Ok(true) => match SumFiles::open(rt.alloc(), files) {
            Ok(files) => serve_files(rt, folder, files, config, options),
            Err((fault, _)) => Ok(folder_status(&fault)),
        },
        Err(error) => Ok(format_status(&error)),
    }
}

/// Serves the store of a folder with these files, with its log if it has one.
fn serve_files<R, F>(
    rt: &R,
    folder: &str,
    files: F,
    config: Config,
    options: &Options<'_>,
) -> Result<(u8, &'static str), AllocError>
where
    R: AllocGlobal + Input + Print + Eprint + Folders<File = File> + Clone + Drop,
    F: AtomicPut + Drop,
    requires flush_least { 1 ≤ config.flush.entries }
    requires flush_most { config.flush.entries ≤ 100000 }
    requires flush_bytes { IfSome config.flush.bytes (λ bytes.
        (1048576 ≤ bytes) × (bytes ≤ 67108864)) }
    requires limit { config.file_limit ≡ FILE_LIMIT }
{
    let mut files = files;
    let Ok(mut marks) = DirMark::open(rt.clone()?, folder) else {
        return Ok(open_status(&Refusal::Device));
    };
    let alloc = rt.alloc();
    match log_of(rt, folder, options.log, &mut files, &mut marks) {
        Ok(Some(log)) => {
            match renew_root(alloc, &mut files) {
                Ok(true) => {}
                Ok(false) => return Ok(log_status(&LogFault::Damaged)),
                Err(fault) => return Ok(log_status(&fault_of_files(fault))),
            }
            if let Err(refusal) = renew_mark(&mut marks) {
                return Ok(open_status(&refusal));
            }
            let opened = DurableServer::open(alloc, files, marks, log, config);
            Ok(serve_logged(rt, opened, options))
        }
        Ok(None) => Ok(serve(rt, Server::open(alloc, files, marks, config), options)),
        Err(fault) => Ok(log_status(&fault)),
    }
}

/// Serves the store that the command line names.
fn serve_options<R: AllocGlobal + Input + Print + Eprint + Folders<File = File> + Clone + Drop>(
    rt: &R,
    options: &Options<'_>,
) -> Result<(u8, &'static str), AllocError>
    requires flush_least { 1 ≤ options.now.flush }
    requires flush_most { options.now.flush ≤ 100000 }
    requires flush_bytes { IfSome options.now.flush_bytes (λ bytes.
        (1048576 ≤ bytes) × (bytes ≤ 67108864)) }
{
    let config = Config {
        flush: FlushLimits {
            entries: options.flush,
            bytes: options.flush_bytes,
        },
        file_limit: FILE_LIMIT,
    };
    if let Some(folder) = options.rows {
        return Ok(serve_rows(rt, folder, options));
    }
    match options.dir {
        Some(folder) => serve_folder(rt, folder, config, options),
        None => Ok(serve_memory(rt, config, options)),
    }
}

/// Serves as the command line says. Returns the exit status, with its line on standard error.
fn serve_line<R>(rt: &R) -> Result<(u8, &'static str), LineError>
where
    R: Env + AllocGlobal + Input + Print + Eprint + Folders<File = File> + Clone + Drop,
{
    let args: Vec<String> = env::args(rt)?.collect(rt.alloc())?;
    let words: Vec<&str> = args.iter().map(|arg| arg.as_str()).collect(rt.alloc())?;
    let options = options(rt.alloc(), words.as_slice())?;
    let ended = serve_options(rt, &options)?;
    Ok(ended)
}

/// Runs the program. Returns the exit status.
fn run<R>(rt: &R) -> u8
where
    R: Env + AllocGlobal + Input + Print + Eprint + Folders<File = File> + Clone + Drop,
{
    let (status, line) = match serve_line(rt) {
        Ok(ended) => ended,
        Err(LineError::NoMemory) => (NO_MEMORY, NO_MEMORY_LINE),
        Err(LineError::NotText(error)) => {
            let _ = rt.eprintln(error);
            (REFUSED, "")
        }
        Err(LineError::Refused(error)) => {
            let _ = error.print(rt);
            (if error.use_stderr() { REFUSED } else { DONE }, "")
        }
    };
    if !line.is_empty() {
        let _ = rt.eprintln(line);
    }
    status
}

fn main(rt: HostRuntime) -> ExitCode {
    ExitCode::from(run(&rt))
}
