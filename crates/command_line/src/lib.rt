//! The command line of `tabletd`: its options, and its parser.
#![tactic(auto)]

mod command_options;

ghost use Rattle.std.specs.Prelude.{◌≡◌, ◌≤◌, IfOk, IfSome, IsTrue, is_some, false, true};

use clap::builder::ValueParser;
use clap::{Arg, ArgAction, Command, Error};
pub use command_options::{
    DEFAULT_FLUSH, LEAST_CACHE, LEAST_FLUSH_BYTES, LEAST_LOG_BYTES, LEAST_SESSION_BYTES,
    MOST_CACHE, MOST_FLUSH, MOST_FLUSH_BYTES, MOST_LOG_BYTES, MOST_MERGE, Options, SUMS_FORMAT,
    VERSION,
};
use std::alloc::{AllocError, Global};

/// The help text: the program, its input and output, and how durable its data are.
const ABOUT: &str =
    "A wide-column tablet store with snapshot-isolated transactions over many rows. It reads framed \
    requests from the standard input and writes a framed reply to each to the standard output, until the input ends. \
    The store is in memory and ends with the program, or in a folder, where it lasts as of its last checkpoint, and \
    with a log as of the last reply.";

const DIR_HELP: &str =
    "A folder that keeps the store, and no other program has: opened as its last checkpoint left it, and new \
    where it is empty [default: memory]";

const ROWS_HELP: &str =
    "A folder with the pipes rows.to, rows.from, stamps.to and stamps.from to a program that keeps rows and stamps, which \
    several servers share: this server has sessions, cleaners and collectors alone [default: the store is its own]";

const LOG_HELP: &str =
    "Make a log in the folder, if it has none: no reply leaves before the disk has what it says. A folder that has a log \
    is always opened with it [default: none is made]";

const FORMAT_HELP: &str =
    "Write the folder's files with checksums from now on, in format 3: bytes that changed on the disk are answered as the \
    device's fault, and never as values. A folder that has the format keeps it [default: the folder's; a new one has \
    none]";

const LOG_BYTES_HELP: &str =
    "Bytes of a log's edits at which a checkpoint empties it: 4096 to 33554432 [default: 33554432]";

const FLUSH_HELP: &str =
    "Entries of a memtable at which it is compacted: 1 to 100000. From 99490 on one can be too full for a Commit of 256 \
    cells and stay so, from 99746 on for a collector's step too, and at 100000 for a commit's step [default: 10000]";

const FLUSH_BYTES_HELP: &str =
    "Bytes of its entries at which it is compacted too: 1048576 to 67108864. From 46186498 on one can be too full for a \
    Commit of 256 cells and stay so, from 65038466 on for a collector's step too, and from 67019079 on for a commit's \
    step [default: bytes don't count]";

const MERGE_HELP: &str =
    "Files of a tablet at which the newest ones are merged after a file was written: 2 to 64 [default: never, or with \
    --upkeep by levels]";

const CACHE_HELP: &str =
    "Blocks of each file that stay in memory, those that were read last: 8 to 4096 [default: 8]";

const SESSION_BYTES_HELP: &str =
    "Bytes of rows, families and values in the Sets and Deletes that all sessions buffer, past which one that adds to them \
    is refused NoMemory: 1048576 to 4294967295 [default: no limit]";

const UPKEEP_HELP: &str =
    "Merge tablets' newest files after a file was written, a step between two replies, so that each has more entries than \
    all newer ones together; in a folder with a log, remove the files that neither a tablet nor the root needs after each \
    checkpoint that comes by itself [default: only a Merge or a Major merges, and only a Sweep removes files]";

const CLIENTS_HELP: &str =
    "Serve several clients, each with its own sessions, cleaners and collectors: the body of each request and reply begins \
    with a client's number of four bytes [default: one client, without a number]";

const ADMIN_HELP: &str =
    "The client that alone may compact, merge, split, move, sweep, checkpoint, restart the oracle and read raw: 1 to \
    4294967295 [default: each client may]";

/// An option that takes a number from `least` to `most`.
fn number<'a>(
    alloc: Global,
    long: &'a str,
    letter: &'a str,
    help: &'a str,
    least: u32,
    most: u32,
) -> Arg<'a> {
    Arg::new(alloc, long)
        .long(long)
        .value_name(letter)
        .help(help)
        .action(ArgAction::Set)
        .value_parser(ValueParser::unsigned(least as u64, most as u64))
}

/// The options of the store: where it is, and its log.
fn store_command<'a>(alloc: Global) -> Result<Command<'a>, AllocError> {
    let dir = Arg::new(alloc, "dir")
        .long("dir")
        .value_name("DIR")
        .help(DIR_HELP)
        .action(ArgAction::Set);
    let rows = Arg::new(alloc, "rows")
        .long("rows")
        .value_name("DIR")
        .help(ROWS_HELP)
        .action(ArgAction::Set)
        .conflicts_with("dir")?;
    let log = Arg::new(alloc, "log")
        .long("log")
        .help(LOG_HELP)
        .action(ArgAction::SetTrue)
        .requires_arg("dir")?;
    let format = number(alloc, "format", "F", FORMAT_HELP, SUMS_FORMAT, SUMS_FORMAT).requires_arg(
        "dir",
    )?;
    let log_bytes = number(
        alloc,
        "log-bytes",
        "L",
        LOG_BYTES_HELP,
        LEAST_LOG_BYTES,
        MOST_LOG_BYTES,
    );
    Command::new(alloc, "tabletd")
        .about(ABOUT)
        .version(VERSION)
        .arg(dir)?
        .arg(rows)?
        .arg(log)?
        .arg(format)?
        .arg(log_bytes)
}

/// The same, with the options of upkeep.
fn upkeep_command<'a>(alloc: Global) -> Result<Command<'a>, AllocError> {
    let flush = number(alloc, "flush", "N", FLUSH_HELP, 1, MOST_FLUSH);
    let flush_bytes = number(
        alloc,
        "flush-bytes",
        "B",
        FLUSH_BYTES_HELP,
        LEAST_FLUSH_BYTES,
        MOST_FLUSH_BYTES,
    );
    let merge = number(alloc, "merge", "M", MERGE_HELP, 2, MOST_MERGE);
    let cache = number(alloc, "cache", "C", CACHE_HELP, LEAST_CACHE, MOST_CACHE);
    let upkeep = Arg::new(alloc, "upkeep")
        .long("upkeep")
        .help(UPKEEP_HELP)
        .action(ArgAction::SetTrue)
        .requires_arg("dir")?;
    store_command(alloc)?
        .arg(flush)?
        .arg(flush_bytes)?
        .arg(merge)?
        .arg(cache)?
        .arg(upkeep)
}

/// The command with all its options.
fn command<'a>(alloc: Global) -> Result<Command<'a>, AllocError> {
    let session_bytes = number(
        alloc,
        "session-bytes",
        "S",
        SESSION_BYTES_HELP,
        LEAST_SESSION_BYTES,
        u32::MAX,
    );
    let clients = Arg::new(alloc, "clients")
        .long("clients")
        .help(CLIENTS_HELP)
        .action(ArgAction::SetTrue);
    let admin = number(alloc, "admin", "A", ADMIN_HELP, 1, u32::MAX).requires_arg("clients")?;
    upkeep_command(alloc)?
        .arg(session_bytes)?
        .arg(clients)?
        .arg(admin)
}

/// Parses the words of the command line, the program's name first: `tabletd [--dir DIR [--log] [--format 3] |
/// --rows DIR] [--log-bytes L] [--flush N] [--flush-bytes B] [--merge M] [--cache C] [--upkeep] [--session-bytes S] [--clients [--admin A]]`,
/// where L is 4,096 to 33,554,432, N is 1 to 100,000, B is 1,048,576 to 67,108,864, M is 2 to 64, C is 8 to 4,096, S is
/// 1,048,576 or more and A is 1 or more. An error has the parser's text, which for a request for help or the version is
/// that.
pub fn options<'a>(alloc: Global, words: &'a [&'a str]) -> Result<Options<'a>, Error>
    ensures log { IfOk result (λ options. options.log ≡ true → is_some options.dir ≡ true) }
    ensures format { IfOk result (λ options. IfSome options.format (λ format.
        (format ≡ SUMS_FORMAT) × (is_some options.dir ≡ true))) }
    ensures log_bytes { IfOk result (λ options.
        (LEAST_LOG_BYTES ≤ options.log_bytes) × (options.log_bytes ≤ MOST_LOG_BYTES)) }
    ensures flush { IfOk result (λ options. (1 ≤ options.flush) × (options.flush ≤ MOST_FLUSH)) }
    ensures flush_bytes { IfOk result (λ options. IfSome options.flush_bytes (λ bytes.
        (LEAST_FLUSH_BYTES ≤ bytes) × (bytes ≤ MOST_FLUSH_BYTES))) }
    ensures merge { IfOk result (λ options.
        IfSome options.merge (λ most. (2 ≤ most) × (most ≤ MOST_MERGE))) }
    ensures cache { IfOk result (λ options.
        (LEAST_CACHE ≤ options.cache) × (options.cache ≤ MOST_CACHE)) }
    ensures session_bytes { IfOk result (λ options. IfSome options.session_bytes (λ bytes.
        LEAST_SESSION_BYTES ≤ bytes)) }
    ensures admin { IfOk result (λ options. is_some options.admin ≡ true → options.clients ≡ true) }
    ensures nobody { IfOk result (λ options. IfSome options.admin (λ admin. 1 ≤ admin)) }
{
    let matches = command(alloc)?.try_get_matches_from(words)?;
    let dir = matches.get_str("dir");
    let rows = matches.get_str("rows");
    // The parser has refused a log or a format without a folder, and an administrator without clients.
    let log = dir.is_some() && matches.get_flag("log");
    let clients = matches.get_flag("clients");
    Ok(Options {
        dir,
        rows,
        log,
        format: format_of(dir.is_some(), matches.get_one::<u32>("format")),
        log_bytes: log_bytes_of(matches.get_one::<u32>("log-bytes")),
        flush: flush_of(matches.get_one::<u32>("flush")),
        flush_bytes: within(
            matches.get_one::<u32>("flush-bytes"),
            LEAST_FLUSH_BYTES,
            MOST_FLUSH_BYTES,
        ),
        merge: within(matches.get_one::<u32>("merge"), 2, MOST_MERGE),
        cache: cache_of(matches.get_one::<u32>("cache")),
        session_bytes: within(
            matches.get_one::<u32>("session-bytes"),
            LEAST_SESSION_BYTES,
            u32::MAX,
        ),
        upkeep: matches.get_flag("upkeep"),
        clients,
        admin: admin_of(clients, matches.get_one::<u32>("admin")),
    })
}

/// The number that was given, if any. The parser has refused a number outside the limits.
fn within(given: Option<u32>, least: u32, most: u32) -> Option<u32>
    ensures { IfSome result (λ number. (least ≤ number) × (number ≤ most)) }
{
    match given {
        Some(number) if least <= number && number <= most => Some(number),
        _ => None,
    }
}

/// The format that was given, if there is a folder. The parser has refused any other number.
fn format_of(has_folder: bool, given: Option<u32>) -> Option<u32>
    ensures { IfSome result (λ format. (format ≡ SUMS_FORMAT) × (has_folder ≡ true)) }
{
    if !has_folder {
        return None;
    }
    within(given, SUMS_FORMAT, SUMS_FORMAT)
}

/// The administrator that was given, if there are clients.
fn admin_of(clients: bool, given: Option<u32>) -> Option<u32>
    ensures clients { is_some result ≡ true → clients ≡ true }
    ensures nobody { IfSome result (λ admin. 1 ≤ admin) }
{
    if !clients {
        return None;
    }
    match given {
        Some(admin) if admin > 0 => Some(admin),
        _ => None,
    }
}

/// The size of the log that was given, or the default.
fn log_bytes_of(given: Option<u32>) -> u32
    ensures least { LEAST_LOG_BYTES ≤ result }
    ensures most { result ≤ MOST_LOG_BYTES }
{
    match within(given, LEAST_LOG_BYTES, MOST_LOG_BYTES) {
        Some(number) => number,
        None => MOST_LOG_BYTES,
    }
}

/// The number of entries that was given, or the default.
fn flush_of(given: Option<u32>) -> u32
    ensures least { 1 ≤ result }
    ensures most { result ≤ MOST_FLUSH }
{
    match within(given, 1, MOST_FLUSH) {
        Some(number) => number,
        None => DEFAULT_FLUSH,
    }
}

/// The number of blocks that was given, or the default.
fn cache_of(given: Option<u32>) -> u32
    ensures least { LEAST_CACHE ≤ result }
    ensures most { result ≤ MOST_CACHE }
{
    match within(given, LEAST_CACHE, MOST_CACHE) {
        Some(number) => number,
        None => LEAST_CACHE,
    }
}
