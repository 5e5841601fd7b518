//! The script of requests with one failing call of the files or of the mark store. If a request or the new server makes
//! the call, it is refused Device; repeated, it gets the same reply as without a fault. If an automatic compaction
//! makes the call, nothing is refused. All other replies are the same as without a fault.

ghost use Rattle.std.specs.Prelude.{None, ⊤};

use crate::tests::script::{Came, Room, Run, Watch, played_over};
use cell_key::Refusal;
use file_store::{FailAt, FileFault, Files, MemFiles};
use oracle::{FailMarkAt, MemMark};
use std::alloc::Global;
use std::test::Fail;

/// The number of the script's calls of the mark store: it loads the mark and stores the end of a range, and both again
/// after the oracle restarts.
const MARK_CALLS: u64 = 4;

/// Whether the server compacts by itself, and the numbers of the script's file calls: by requests, and by compactions
/// between two answers.
const FILE_CALLS: [(bool, u64, u64); 2] = [(false, 32, 0), (true, 48, 37)];

/// An upper bound of the number of calls.
const MOST_CALLS: u64 = 1000;

/// Files that are watched.
#[derive(Drop)]
struct Watched<'a, F> {
    files: F,
    watch: &'a Watch,
}

impl<F: Files> Files for Watched<'_, F> {
    ghost contents = { λ _. None };

    ghost faults = { λ watched. F.faults watched.files };

    ghost replaces = { ⊥ };

    type Writing = F::Writing;

    ghost writes_to = { λ writing. F.writes_to writing };

    ghost has = { λ _ _. ⊤ };

    fn begin(&mut self, name: u64) -> Result<F::Writing, FileFault> {
        let begun = self.files.begin(name);
        self.watch.note(begun.is_err());
        begun
    }

    fn push(&mut self, writing: &mut F::Writing, bytes: &[u8]) -> Result<(), FileFault> {
        let done = self.files.push(writing, bytes);
        self.watch.note(done.is_err());
        done
    }

    fn finish(&mut self, writing: F::Writing) -> Result<(), FileFault> {
        let done = self.files.finish(writing);
        self.watch.note(done.is_err());
        done
    }

    fn give_up(&mut self, writing: F::Writing) {
        self.files.give_up(writing);
    }

    fn size(&mut self, name: u64) -> Result<Option<u64>, FileFault> {
        let size = self.files.size(name);
        self.watch.note(size.is_err());
        size
    }

    fn read_at(&mut self, name: u64, offset: u64, out: &mut [u8]) -> Result<usize, FileFault> {
        let count = self.files.read_at(name, offset, out);
        self.watch.note(count.is_err());
        count
    }

    fn list(&mut self, names: &mut Vec<u64>) -> Result<(), FileFault> {
        let done = self.files.list(names);
        self.watch.note(done.is_err());
        done
    }

    fn remove(&mut self, name: u64) -> Result<(), FileFault> {
        let done = self.files.remove(name);
        self.watch.note(done.is_err());
        done
    }

    fn faults(&self) -> u64 {
        self.files.faults()
    }
}

/// Room for the script of a server that compacts by itself, or on request.
fn room(alloc: Global, by_itself: bool) -> Result<Room, Refusal> {
    if by_itself {
        return Room::by_itself(alloc);
    }
    Room::new(alloc)
}

/// The outcome of the script if the file call with this number, counted from 1, fails in this way; and whether there is
/// such a call.
fn came_of_files(
    alloc: Global,
    by_itself: bool,
    at: u64,
    how: file_store::Fail,
) -> Result<(Came, bool), Refusal> {
    let watch = Watch::new();
    let run = Run {
        refusal: Refusal::Device,
        watch: &watch,
    };
    let files = Watched {
        files: FailAt::new(MemFiles::new(alloc), at, how),
        watch: &watch,
    };
    let came = played_over(alloc, files, MemMark::new(), run, room(alloc, by_itself)?)?;
    Ok((came, watch.has_failed()))
}

/// The number of calls by requests, each of which reports its fault, and of calls between two answers, whose faults
/// nothing reports. `None` if a fault has another outcome.
fn calls_of_files(
    alloc: Global,
    by_itself: bool,
    how: file_store::Fail,
) -> Result<Option<(u64, u64)>, Refusal> {
    let (mut asked, mut between) = (0u64, 0u64);
    for at in 1..=MOST_CALLS {
        match came_of_files(alloc, by_itself, at, how)? {
            (Came::AnsweredLater, true) => asked = asked.saturating_add(1),
            (Came::Answered, true) => between = between.saturating_add(1),
            (Came::Answered, false) => return Ok(Some((asked, between))),
            _ => return Ok(None),
        }
    }
    Ok(None)
}

#[test]
fn a_call_of_the_files_fails(rt: HostRuntime) -> Result<(), Fail> {
    let ways = [
        file_store::Fail::Before,
        file_store::Fail::Half,
        file_store::Fail::After,
    ];
    for how in ways {
        for (by_itself, asked, between) in FILE_CALLS {
            let calls = calls_of_files(rt.alloc(), by_itself, how)?;
            assert!(rt; calls == Some((asked, between)), "{how:?} {calls:?}");
        }
    }
    Ok(())
}

/// The outcome of the script if the mark store's call with this number fails in this way.
fn came_of_mark(
    alloc: Global,
    by_itself: bool,
    at: u64,
    how: oracle::Fail,
) -> Result<Came, Refusal> {
    let watch = Watch::new();
    let run = Run {
        refusal: Refusal::Device,
        watch: &watch,
    };
    let marks = FailMarkAt::new(MemMark::new(), at, how);
    played_over(
        alloc,
        MemFiles::new(alloc),
        marks,
        run,
        room(alloc, by_itself)?,
    )
}

/// Whether the fault of each call of the mark store is reported, and there are no more calls.
fn is_reported(alloc: Global, by_itself: bool, how: oracle::Fail) -> Result<bool, Refusal> {
    for at in 1..=MARK_CALLS {
        let came = came_of_mark(alloc, by_itself, at, how)?;
        if !matches!(came, Came::AnsweredLater) {
            return Ok(false);
        }
    }
    let came = came_of_mark(alloc, by_itself, MARK_CALLS.saturating_add(1), how)?;
    Ok(matches!(came, Came::Answered))
}

#[test]
fn a_call_of_the_mark_store_fails(rt: HostRuntime) -> Result<(), Fail> {
    let ways = [
        oracle::Fail::Before,
        oracle::Fail::Half,
        oracle::Fail::After,
    ];
    for how in ways {
        for by_itself in [false, true] {
            assert!(rt; is_reported(rt.alloc(), by_itself, how)?, "{how:?}");
        }
    }
    Ok(())
}
