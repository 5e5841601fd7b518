//! The laws of several servers. Each is a function that does nothing: its contract is the law.

ghost use Rattle.si_model.specs.Machine.{IsReached, State};
ghost use Rattle.si_model.specs.ServerLaws.{IsLawful, PartsStay, ViewsLift, ViewsShown};
ghost use Rattle.si_model.specs.Servers.{IsPartOf, IsReachedByServers, Own, view};
ghost use Rattle.si_model.specs.Laws.{IsNeverStuck};

/// One server reaches no other states than several do.
pub fn reached_by_servers()
    ensures { (st : State) → IsReached st → IsReachedByServers st }
{}

/// The laws of snapshot isolation hold, however many servers take steps.
pub fn servers_lawful()
    ensures { (st : State) → IsReachedByServers st → IsLawful st }
{}

/// What a server sees is such a state, so all that is said of these states holds of it.
pub fn views_reached()
    ensures { (st : State) (own : Own) → IsReachedByServers st → IsPartOf own st
        → IsReachedByServers (view st own) }
{}

/// Cells that show the machine show what each server sees of it.
pub fn views_shown()
    ensures { ViewsShown }
{}

/// A step of a server, as it sees the machine, is a step of the machine, and leaves the sessions of all others.
pub fn views_lift()
    ensures { ViewsLift }
{}

/// What a server knows of cleaners and collectors stays right, whoever takes a step.
pub fn parts_stay()
    ensures { PartsStay }
{}

/// A request of a session or a cleaner that no refusal keeps from a server has an answer there, whatever other servers
/// do, as long as there are stamps and numbers.
pub fn servers_never_stuck()
    ensures { (st : State) → IsReachedByServers st → IsNeverStuck st }
{}
