//! Tables of calls that allocate: the answer of each, and the state read before and after it. If an allocation was
//! refused, the state is unchanged, and the call is made again. `scripts/refuse_allocations` refuses allocations.

use cell_key::Refusal;
use std::alloc::Global;

/// The answer of a call, and the state read after it.
pub type Call = (&'static [u8], &'static [u8]);

/// The state read before each call, and the calls by their numbers.
pub type Table = (&'static [u8], &'static [Call]);

/// A subject that calls are made on.
pub trait Subject: Sized + Drop {
    /// The subject as it is before a call.
    fn set_up(alloc: Global) -> Result<Self, Refusal>;

    /// Makes a call, and returns whether it gave this answer. Allocates nothing once the call has changed something.
    fn answers(&mut self, alloc: Global, number: usize, wanted: &[u8]) -> Result<bool, Refusal>;

    /// Reads the state.
    fn read(&mut self, alloc: Global) -> Result<Vec<u8>, Refusal>;
}

/// The outcome of a call.
#[derive(Clone, Copy, Debug)]
pub enum Came {
    /// The right answer, at once.
    Answered,
    /// The refusal NoMemory with the state unchanged, and then the right answer.
    AnsweredLater,
    /// The state before the call was wrong.
    WrongBefore,
    /// The answer was wrong.
    WrongAnswer,
    /// The state had changed after a refusal.
    WrongRefused,
    /// The state after the answer was wrong.
    WrongAfter,
}

/// The outcome of a call, on a subject of its own. The call is made once more if it was refused with NoMemory.
pub fn tried<S: Subject>(alloc: Global, table: Table, number: usize) -> Result<Came, Refusal> {
    let Some((answer, after)) = table.1.get(number) else {
        return Ok(Came::WrongAnswer);
    };
    let mut subject = S::set_up(alloc)?;
    if subject.read(alloc)?.as_slice() != table.0 {
        return Ok(Came::WrongBefore);
    }
    let mut came = Came::Answered;
    let mut answered = subject.answers(alloc, number, answer);
    if answered == Err(Refusal::NoMemory) {
        if subject.read(alloc)?.as_slice() != table.0 {
            return Ok(Came::WrongRefused);
        }
        came = Came::AnsweredLater;
        answered = subject.answers(alloc, number, answer);
    }
    if !answered? {
        return Ok(Came::WrongAnswer);
    }
    if subject.read(alloc)?.as_slice() != *after {
        return Ok(Came::WrongAfter);
    }
    Ok(came)
}

/// Whether each call of a table gives the right answer at once, with the right states before and after it.
pub fn are_answered<S: Subject>(alloc: Global, table: Table) -> Result<bool, Refusal> {
    for number in 0..table.1.len() {
        if !matches!(tried::<S>(alloc, table, number)?, Came::Answered) {
            return Ok(false);
        }
    }
    Ok(true)
}
