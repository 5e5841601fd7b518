//! The command line of `tablet_audit`: its options, and its parser.

use crate::reopenings::Reopening;
use crate::sharing::Sharing;
use clap::builder::ValueParser;
use clap::{Arg, ArgAction, ArgMatches, Command, Error};
use std::alloc::{AllocError, Global};

/// The help text.
const ABOUT: &str =
    "Judges a recorded run of a tablet store: whether each reply is a step of the snapshot machine. \
    REQUESTS has the frames that went into the store, REPLIES those that came out. The status is 0 where each reply is a step, 1 where \
    one is none, 2 where a file is cut or outside the grammar, 3 without memory, and 4 where a file can't be read.";

/// The names of the two files, and of the option.
const REQUESTS: &str = "requests";

const REPLIES: &str = "replies";

const REOPENED: &str = "reopened-at";

const REOPENED_HELP: &str =
    "Replies behind which the store was closed after a Checkpoint and opened again, by their numbers from 1";

const RECOVERED: &str = "recovered-at";

const RECOVERED_HELP: &str =
    "Replies behind which a store with a log was opened again, each with the mark of its oracle then";

const CLIENTS: &str = "clients";

const CLIENTS_HELP: &str =
    "The body of each frame begins with a client's number, as `tabletd --clients` has it";

const ADMIN: &str = "admin";

const ADMIN_HELP: &str =
    "With --clients, the one client that might ask for upkeep and raw reads: 1 to 4,294,967,295";

/// The options given on the command line.
#[derive(Drop)]
pub struct Options<'a> {
    /// The file of the requests' frames.
    pub requests: &'a str,
    /// The file of the replies' frames.
    pub replies: &'a str,
    /// How the stream was shared.
    pub sharing: Sharing,
    /// The places at which the store was reopened.
    pub reopenings: Vec<Reopening>,
}

/// Why a command line is refused.
#[derive(Drop)]
pub enum LineError {
    NoMemory,
    /// The parser's text, also for a request for help.
    Parser(Error),
    /// A value of `--recovered-at` isn't a number and a mark.
    NoMark,
}

impl From<AllocError> for LineError {
    fn from(_error: AllocError) -> LineError {
        LineError::NoMemory
    }
}

impl From<Error> for LineError {
    fn from(error: Error) -> LineError {
        LineError::Parser(error)
    }
}

/// A file that the command line must name.
fn file<'a>(alloc: Global, id: &'a str, shown: &'a str, help: &'a str) -> Arg<'a> {
    Arg::new(alloc, id)
        .value_name(shown)
        .help(help)
        .required(true)
}

/// An option that takes a list of values.
fn list<'a>(alloc: Global, id: &'a str, shown: &'a str, help: &'a str) -> Arg<'a> {
    Arg::new(alloc, id)
        .long(id)
        .value_name(shown)
        .help(help)
        .action(ArgAction::Append)
        .value_delimiter(',')
}

/// The command with its options.
fn command<'a>(alloc: Global) -> Result<Command<'a>, AllocError> {
    let requests = file(alloc, REQUESTS, "REQUESTS", "The frames of the requests");
    let replies = file(alloc, REPLIES, "REPLIES", "The frames of the replies");
    let reopened = list(alloc, REOPENED, "K,..", REOPENED_HELP).value_parser(ValueParser::unsigned(
        1,
        u64::MAX,
    ));
    let recovered = list(alloc, RECOVERED, "K:MARK,..", RECOVERED_HELP);
    let clients = Arg::new(alloc, CLIENTS)
        .long(CLIENTS)
        .help(CLIENTS_HELP)
        .action(ArgAction::SetTrue);
    let admin = Arg::new(alloc, ADMIN)
        .long(ADMIN)
        .value_name("A")
        .help(ADMIN_HELP)
        .action(ArgAction::Set)
        .value_parser(ValueParser::unsigned(1, u32::MAX as u64))
        .requires_arg(CLIENTS)?;
    Command::new(alloc, "tablet_audit")
        .about(ABOUT)
        .arg(requests)?
        .arg(replies)?
        .arg(reopened)?
        .arg(recovered)?
        .arg(clients)?
        .arg(admin)
}

/// How the stream was shared.
fn sharing_of(matches: &ArgMatches<'_>) -> Sharing {
    if !matches.get_flag(CLIENTS) {
        return Sharing::Alone;
    }
    Sharing::Shared(matches.get_one::<u32>(ADMIN))
}

/// The places at which a store without a log was reopened.
fn clean_reopenings(alloc: Global, matches: &ArgMatches<'_>) -> Result<Vec<Reopening>, AllocError> {
    let mut given = Vec::new(alloc);
    let Some(numbers) = matches.get_many::<u64>(REOPENED) else {
        return Ok(given);
    };
    for number in numbers {
        // The parser has refused texts that are not numbers.
        if let Ok(behind) = number {
            given.push(Reopening { behind, mark: None })?;
        }
    }
    Ok(given)
}

/// The place given by a text like `7:1000`, if it is one.
fn recovery_of(text: &str) -> Option<Reopening> {
    let (behind, mark) = text.split_once(':')?;
    Some(Reopening {
        behind: behind.parse().ok()?,
        mark: Some(mark.parse().ok()?),
    })
}

/// Adds the places at which a store with a log was reopened.
fn add_recoveries(given: &mut Vec<Reopening>, matches: &ArgMatches<'_>) -> Result<(), LineError> {
    let Some(texts) = matches.get_strs(RECOVERED) else {
        return Ok(());
    };
    for text in texts {
        let Some(recovery) = recovery_of(text) else {
            return Err(LineError::NoMark);
        };
        given.push(recovery).map_err(AllocError::from)?;
    }
    Ok(())
}

/// Parses the words of the command line, the program's name first.
pub fn read_options<'a>(alloc: Global, words: &'a [&'a str]) -> Result<Options<'a>, LineError> {
    let matches = command(alloc)?.try_get_matches_from(words)?;
    let mut reopenings = clean_reopenings(alloc, &matches)?;
    add_recoveries(&mut reopenings, &matches)?;
    Ok(Options {
        requests: matches.get_str(REQUESTS).unwrap_or(""),
        replies: matches.get_str(REPLIES).unwrap_or(""),
        sharing: sharing_of(&matches),
        reopenings,
    })
}
