//! The laws of the merged run, and of the row store below it. Each is a function that does nothing: its contract is
//! the law.

ghost use Rattle.servers_model.specs.Guarded.{OneMoment, ServedAtOneMoment};
ghost use Rattle.servers_model.specs.Merged.{AllBegin, MergedFromNew, MergedRuns};

/// New servers over cells that show a state of the machine show it.
pub fn all_begin()
    ensures { AllBegin }
{}

/// The requests of several servers, merged, are a run of the snapshot machine, and snapshot isolation holds after it:
/// each server has promised of its own requests what the contracts of its calls say, and no more.
pub fn merged_runs()
    ensures { MergedRuns }
{}

/// The same of new servers over an empty store.
pub fn merged_from_new()
    ensures { MergedFromNew }
{}

/// A row that is read, and changed on the condition that it hasn't changed since, is read and changed at one moment.
pub fn one_moment()
    ensures { OneMoment }
{}

/// What a server promises of a request over the row as it was read holds at the moment of the change.
pub fn served_at_one_moment()
    ensures { ServedAtOneMoment }
{}
