//! The places of a recording at which the store was reopened.

ghost use Rattle.std.specs.Prelude.{◌≡◌, IfErr, IfOk};
ghost use Rattle.tablet_audit.specs.Reopenings.{JudgesOpening, JudgesReopening};
ghost use Rattle.tablet_audit.specs.Runs.{reopening_behind};

use crate::judges::Judge;
use audit::Audit;
use cell_key::Refusal;
use ownership::Owners;
use std::alloc::Global;

/// A reopening of the store: the number of the reply before it, counted from 1, and the mark of the oracle if the store
/// has a log.
#[derive(Drop, Clone, Copy)]
pub struct Reopening {
    pub behind: u64,
    pub mark: Option<u64>,
}

/// The first of the reopenings after the reply with this number.
fn find_behind(number: u64, reopenings: &[Reopening]) -> Option<Reopening>
    ensures { result ≡ reopening_behind number reopenings.now }
{
    let mut rest = reopenings;
    'places: while let Some((reopening, after)) = rest.split_first() {
        if reopening.behind == number {
            return Some(*reopening);
        }
        rest = after;
    }
    None
}

/// Whether a store may have been opened again over this mark, or without one. If so, the audit continues from there.
///
/// # Errors
///
/// `NoMemory`.
fn open_over(audit: &mut Audit, mark: Option<u64>) -> Result<bool, Refusal>
    ensures judged { IfOk result (JudgesOpening mark audit.old audit.new) }
    ensures refusal { IfErr result (λ refusal. refusal ≡ Refusal.NoMemory) }
{
    match mark {
        Some(mark) => audit.recover(mark),
        None => {
            audit.reopen();
            Ok(true)
        }
    }
}

/// Whether the store may have been reopened after the reply with this number, as the options say. If so, the judge
/// continues from there, and nobody has anything.
///
/// # Errors
///
/// `NoMemory`.
pub fn reopen(
    alloc: Global,
    judge: &mut Judge,
    number: u64,
    reopenings: &[Reopening],
) -> Result<bool, Refusal>
    ensures judged { IfOk result (JudgesReopening
        (reopening_behind number reopenings.now) judge.old judge.new) }
    ensures refusal { IfErr result (λ refusal. refusal ≡ Refusal.NoMemory) }
{
    let Some(reopening) = find_behind(number, reopenings) else {
        return Ok(true);
    };
    if !open_over(&mut judge.audit, reopening.mark)? {
        return Ok(false);
    }
    judge.owners = Owners::new(alloc);
    Ok(true)
}
