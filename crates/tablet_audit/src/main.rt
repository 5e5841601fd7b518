//! `tablet_audit REQUESTS REPLIES [--clients [--admin A]] [--reopened-at K,..] [--recovered-at K:MARK,..]` judges a
//! recorded run of a store: whether each reply is a step of the snapshot machine, and, with `--clients`, whether each is
//! what its client may be answered. REQUESTS is the file of request frames, REPLIES the file of reply frames.
#![tactic(auto)]

mod command_line;
mod frames;
mod judge;
mod judges;
mod reopenings;
mod shared;
mod sharing;
mod verdicts;
mod words;

use cell_key::Refusal;
use clap::error::ErrorKind;
use command_line::{LineError, Options, read_options};
use judge::judge;
use std::alloc::AllocError;
use std::fs::File;
use std::process::ExitCode;
use std::rt::{Env, Files as Folders};
use std::{env, fs, io};

/// The exit status if the audit runs out of memory.
const NO_MEMORY: u8 = 3;

/// The exit status if the command line is refused, or a file can't be read.
const UNREAD: u8 = 4;

/// Why there is no judgement.
#[derive(Drop)]
enum Failure {
    NoMemory,
    Unread(io::Error),
    Line(clap::Error),
    Help(clap::Error),
    NoMark,
}

impl From<AllocError> for Failure {
    fn from(_error: AllocError) -> Failure {
        Failure::NoMemory
    }
}

impl From<Refusal> for Failure {
    fn from(_refusal: Refusal) -> Failure {
        Failure::NoMemory
    }
}

impl From<io::Error> for Failure {
    fn from(error: io::Error) -> Failure {
        match error.kind() {
            io::ErrorKind::OutOfMemory => Failure::NoMemory,
            _ => Failure::Unread(error),
        }
    }
}

impl From<clap::Error> for Failure {
    fn from(error: clap::Error) -> Failure {
        match error.kind() {
            ErrorKind::OutOfMemory => Failure::NoMemory,
            ErrorKind::DisplayHelp => Failure::Help(error),
            _ => Failure::Line(error),
        }
    }
}

impl From<LineError> for Failure {
    fn from(error: LineError) -> Failure {
        match error {
            LineError::NoMemory => Failure::NoMemory,
            LineError::Parser(error) => Failure::from(error),
            LineError::NoMark => Failure::NoMark,
        }
    }
}

/// The frames of the requests and the frames of the replies.
fn read_files<R>(rt: &R, options: &Options<'_>) -> Result<(Vec<u8>, Vec<u8>), Failure>
where
    R: AllocGlobal + Folders<File = File> + Clone + Drop,
{
    let requests = fs::read(rt, options.requests)?;
    let replies = fs::read(rt, options.replies)?;
    Ok((requests, replies))
}

/// Judges the two files, and prints the verdict. Returns the exit status.
fn judge_files<R>(rt: &R, options: &Options<'_>) -> Result<u8, Failure>
where
    R: AllocGlobal + Print + Folders<File = File> + Clone + Drop,
{
    let (requests, replies) = read_files(rt, options)?;
    let verdict = judge(
        rt.alloc(),
        &requests,
        &replies,
        options.sharing,
        &options.reopenings,
    )?;
    println!(rt; "{verdict}")?;
    Ok(verdict.status())
}

/// Judges the files that the command line names.
fn judge_line<R>(rt: &R) -> Result<u8, Failure>
where
    R: Env + AllocGlobal + Print + Folders<File = File> + Clone + Drop,
{
    let args: Vec<String> = env::args(rt)?.collect(rt.alloc())?;
    let words: Vec<&str> = args.iter().map(|arg| arg.as_str()).collect(rt.alloc())?;
    let options = read_options(rt.alloc(), words.as_slice())?;
    judge_files(rt, &options)
}

/// Runs the program. Returns the exit status.
fn run<R>(rt: &R) -> u8
where
    R: Env + AllocGlobal + Print + Eprint + Folders<File = File> + Clone + Drop,
{
    match judge_line(rt) {
        Ok(status) => status,
        Err(Failure::NoMemory) => {
            let _ = rt.eprintln("tablet_audit: no memory");
            NO_MEMORY
        }
        Err(Failure::Unread(error)) => {
            let _ = eprintln!(rt; "tablet_audit: {error}");
            UNREAD
        }
        Err(Failure::NoMark) => {
            let _ = rt.eprintln(
                "tablet_audit: --recovered-at takes K:MARK, the number of a reply and a mark",
            );
            UNREAD
        }
        Err(Failure::Line(error)) => {
            let _ = eprint!(rt; "{error}");
            UNREAD
        }
        Err(Failure::Help(text)) => {
            let _ = print!(rt; "{text}");
            0
        }
    }
}

fn main(rt: HostRuntime) -> ExitCode {
    ExitCode::from(run(&rt))
}
