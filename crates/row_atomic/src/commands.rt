//! Commands, and the contract of the tablet store as one call, `Cluster::run`: a list of commands, done in order.

ghost use Rattle.std.specs.Prelude.{◌≡◌, IfOk, OnErr, option_map, IsOkUnless};
ghost use Rattle.std.specs.List.{AllByRecursion};
ghost use Rattle.cell_key.specs.Places.{place_named};
ghost use Rattle.row_atomic.specs.Changes.{Holds};
ghost use Rattle.row_atomic.specs.Commands.{AnswersAll, IsOutcome, IsUnderRow, done_of};

use crate::cluster::Cluster;
use cell_key::{Edit, Family, Qualifier, Refusal, Row, Stamp};
use file_store::Files;
use rows::Rows;

/// A request to a cluster.
#[derive(Drop)]
pub enum Command {
    /// The version of a cell's column with the greatest stamp in `lo..=hi`.
    Newest {
        row: Row,
        family: Family,
        qualifier: Qualifier,
        lo: Stamp,
        hi: Stamp,
    },
    /// The next cell after this one, or the first cell.
    NextCell {
        after: Option<(Row, Family)>,
    },
    /// Edits to one row, all of them or none.
    Apply {
        row: Row,
        edits: Vec<Edit>,
    },
    /// A minor compaction of a tablet.
    Minor {
        tablet: u32,
    },
    /// A merging compaction of the newest `count` files of a tablet.
    Merge {
        tablet: u32,
        count: u32,
    },
    /// A major compaction of a tablet.
    Major {
        tablet: u32,
    },
    /// A split of the tablet that holds a row.
    Split {
        row: Row,
    },
    /// A move of a tablet to another server.
    Move {
        tablet: u32,
        server: u8,
    },
    /// A sweep of the files that no tablet has.
    Sweep,
    /// Emptying all caches.
    DropCaches,
}

/// The outcome of a command.
#[derive(Drop)]
pub enum Outcome {
    /// The requested version, if there is one: its stamp and its value.
    Newest(Option<(Stamp, Vec<u8>)>),
    /// The requested cell, if there is one.
    NextCell(Option<(Row, Family)>),
    /// An apply, a compaction or a move was done, or the caches were emptied.
    Done,
    /// The number of the left part.
    Split(u32),
    /// How many files were removed.
    Swept(u64),
    /// The command was refused.
    Refused(Refusal),
}

/// The outcome of a call without a result.
fn done(call: Result<(), Refusal>) -> Outcome
    ensures { result ≡ done_of call }
{
    match call {
        Ok(()) => Outcome::Done,
        Err(reason) => Outcome::Refused(reason),
    }
}

/// The place as references, which a scan takes.
fn lent(after: &Option<(Row, Family)>) -> Option<(&Row, &Family)>
    ensures { option_map place_named result ≡ after.now }
{
    match after {
        Some((row, family)) => Some((row, family)),
        None => None,
    }
}

impl<F: Files> Cluster<F> {
    /// Runs one command.
    fn answer(&mut self, command: Command) -> Outcome
        requires { IsUnderRow command }
        ensures { IsOutcome F.contents F.faults command result self.old self.new }
    {
        match command {
            Command::Newest {
                row,
                family,
                qualifier,
                lo,
                hi,
            } => match self.newest(&row, &family, qualifier, lo, hi) {
                Ok(found) => Outcome::Newest(found),
                Err(refusal) => Outcome::Refused(refusal),
            },
            Command::NextCell { after } => match self.next_cell(lent(&after)) {
                Ok(found) => Outcome::NextCell(found),
                Err(refusal) => Outcome::Refused(refusal),
            },
            Command::Apply { row, edits } => done(self.apply(&row, edits)),
            Command::Minor { tablet } => done(self.minor(tablet)),
            Command::Merge { tablet, count } => done(self.merge(tablet, count)),
            Command::Major { tablet } => done(self.major(tablet)),
            Command::Split { row } => match self.split(&row) {
                Ok(left) => Outcome::Split(left),
                Err(refusal) => Outcome::Refused(refusal),
            },
            Command::Move { tablet, server } => done(self.move_to(tablet, server)),
            Command::Sweep => match self.sweep() {
                Ok(count) => Outcome::Swept(count),
                Err(refusal) => Outcome::Refused(refusal),
            },
            Command::DropCaches => {
                self.drop_caches();
                Outcome::Done
            }
        }
    }

    /// Runs commands in order and answers the outcome of each, all by the one cell map that the cluster shows. An
    /// accepted command has its effect on tablets and files and exceeds no limit. A refused one changes no cell and has
    /// a cause for its refusal; the commands after it still run. None writes more than one file.
    ///
    /// # Errors
    ///
    /// `NoMemory` if there is no memory for the outcomes. Nothing is done then.
    pub fn run(&mut self, commands: Vec<Command>) -> Result<Vec<Outcome>, Refusal>
        requires { AllByRecursion IsUnderRow commands.items }
        ensures still { Holds F.contents self.old → Holds F.contents self.new }
        ensures answers { IfOk result (λ outcomes.
            AnswersAll F.contents F.faults self.old commands.items outcomes.items self.new) }
        ensures err { OnErr result (self.new ≡ self.old) }
        ensures refusal { IsOkUnless result Refusal.NoMemory }
    {
        let mut outcomes = Vec::new(self.alloc);
        outcomes.reserve(commands.len())?;
        for command in commands {
            let outcome = self.answer(command);
            outcomes.push_reserved(outcome);
        }
        Ok(outcomes)
    }
}
