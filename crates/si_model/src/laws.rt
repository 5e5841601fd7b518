//! The laws of the machine. Each is a function that does nothing: its contract is the law.

ghost use Rattle.std.specs.Prelude.{ℕ, List};
ghost use Rattle.cell_key.specs.Cells.{Cells};
ghost use Rattle.cell_key.specs.declared.edits.Edit.{Edit as RowEdit};
ghost use Rattle.si_model.specs.Collection.{ComeStays, ComesFurther, LeftFalls, MayEraseBelow, NamesNearest, StaysShown};
ghost use Rattle.si_model.specs.Deciding.{CleanersKnow, FirstTells};
ghost use Rattle.si_model.specs.Edits.{MakeCells};
ghost use Rattle.si_model.specs.Enduring.{Endures, HaveTried};
ghost use Rattle.si_model.specs.Kinds.{EachLeavesOthers};
ghost use Rattle.si_model.specs.Laws.{AtEachStep, Bounds, ClearsItsFloor, CommitSeen, FateSeen, FirstCommitterWins, FloorStaysLow, Goes, GoneForGood, HasFewSessions, IsNeverStuck, IsSettled, Numbers, OneFate, OneMark, OneSnapshot, RefusesFirst, StartsLow, StaysCleared, TellsFate, TellsMarks, WritesWithinLimits};
ghost use Rattle.si_model.specs.Machine.{IsReached, State, reopened};
ghost use Rattle.si_model.specs.Recovered.{Recovers};
ghost use Rattle.si_model.specs.ScanLaws.{NothingThere, PagesCover, PagesGoOn, ScansAsGets, ScansMeet, ScansSettled};
ghost use Rattle.si_model.specs.ShowsCells.{ShowsCells, WhereShown};
ghost use Rattle.si_model.specs.TransactionLaws.{AnswersTruly, PutsAtOnce, ReadsOneMoment, StaysReached};
ghost use Rattle.si_model.specs.declared.replies.Cell.{Cell};

/// Each value answered is the last one committed by its session's start, in the commits as they are now.
pub fn settled()
    ensures { (st : State) → IsReached st → IsSettled st }
{}

/// Each scan's answer, for all cells that it covered, is right at its session's start, in the commits as they are now.
pub fn scans_settled()
    ensures { (st : State) → IsReached st → ScansSettled st }
{}

/// Two scans with the same start agree on a cell, unless a mark blocked it for one of them.
pub fn scans_meet()
    ensures { (st : State) → IsReached st → ScansMeet st }
{}

/// Pages of a range, each behind the one before it and the last to the end, leave out none of its cells.
pub fn pages_cover()
    ensures { (st : State) → IsReached st → PagesCover st }
{}

/// A page that isn't the last one goes on, at least by a cell.
pub fn pages_go_on()
    ensures { (st : State) → PagesGoOn st }
{}

/// For each cell that it covers, a scan gives the answer of a Get with the same start.
pub fn scans_as_gets()
    ensures { (st : State) → ScansAsGets st }
{}

/// A cell without a key has no mark, and has no value at any stamp from the floor on.
pub fn nothing_there()
    ensures { WhereShown NothingThere }
{}

/// No two commits of one cell overlap.
pub fn first_committer()
    ensures { (st : State) → IsReached st → FirstCommitterWins st }
{}

/// No start is both dead and committed, or committed twice.
pub fn one_fate()
    ensures { (st : State) → IsReached st → OneFate st }
{}

/// A cell has at most one mark.
pub fn one_mark()
    ensures { (st : State) → IsReached st → OneMark st }
{}

/// A mark that was removed never comes back in the same run.
pub fn gone_for_good()
    ensures { (st : State) → IsReached st → GoneForGood st }
{}

/// A cell has one snapshot at a stamp.
pub fn one_snapshot()
    ensures { (st : State) → IsReached st → OneSnapshot st }
{}

/// If a refusal is the first that applies, the reply is that refusal or one of the store, and the state is unchanged.
pub fn refuses_first()
    ensures { (st : State) → RefusesFirst st }
{}

/// No session began above the top.
pub fn starts_low()
    ensures { (st : State) → IsReached st → StartsLow st }
{}

/// A session with a commit stamp may commit exactly if the mark of its first cell is there.
pub fn commit_seen()
    ensures { (st : State) → IsReached st → CommitSeen st }
{}

/// The fate of a start shows in the mark of its first cell.
pub fn fate_seen()
    ensures { (st : State) → IsReached st → FateSeen st }
{}

/// A stamp that is at or below the floor and each mark stays so.
pub fn stays_cleared()
    ensures { (st : State) → IsReached st → StaysCleared st }
{}

/// The numbers of the machine are within their limits, and each session that has not ended has begun.
pub fn bounded()
    ensures numbers { (st : State) → IsReached st → Bounds st }
    ensures sessions { (st : State) → IsReached st → HasFewSessions st }
{}

/// The effects of each step on starts that are no longer open or have a mark, and on cleared stamps.
pub fn goes_on()
    ensures { AtEachStep Goes }
{}

/// Replies tell a start's fate truthfully, and after a cleaner's second step the mark is gone.
pub fn tells_fate()
    ensures { (st : State) → IsReached st → TellsFate st }
{}

/// Replies tell marks truthfully, in every state, reached or not: Pending, NoLock, Cleaning, Blocked, and Conflict,
/// whose cell has a mark or a later commit.
pub fn tells_marks()
    ensures { (st : State) → TellsMarks st }
{}

/// The floor is at most each active start and the top plus one, and no open collector has a higher floor.
pub fn floor_stays_low()
    ensures { (st : State) → IsReached st → FloorStaysLow st }
{}

/// A collector that ends has cleared everything below its floor.
pub fn clears_its_floor()
    ensures { (st : State) → IsReached st → ClearsItsFloor st }
{}

/// The next number of a cleaner or collector is above the numbers of all open ones, and cleaners, collectors and
/// tablets are within their limits.
pub fn numbered()
    ensures { (st : State) → IsReached st → Numbers st }
{}

/// A request of a session or a cleaner to which no refusal applies has an answer other than a refusal, as long as there
/// are stamps and numbers.
pub fn never_stuck()
    ensures { (st : State) → IsReached st → IsNeverStuck st }
{}

/// A request on sessions, cleaners, collectors or the places of tablets leaves the parts of the other kinds unchanged,
/// and a request of the storage changes nothing. Marks belong to sessions and to cleaners.
pub fn leaves_others()
    ensures { EachLeavesOthers }
{}

/// The cells and values that sessions write are within the limits of rows, families and values.
pub fn writes_within_limits()
    ensures { (st : State) → IsReached st → WritesWithinLimits st }
{}

/// The start of each mark has had its chance at the mark's cell, and the start of each open cleaner at the cleaner's
/// cell.
pub fn have_tried()
    ensures { (st : State) → IsReached st → HaveTried st }
{}

/// Whoever takes a step, a mark that was removed doesn't come back, an added mark is at or above the floor, and commits
/// and rollbacks are final.
pub fn endures()
    ensures { AtEachStep Endures }
{}

/// The first cell of a start tells its fate.
pub fn first_tells()
    ensures { WhereShown FirstTells }
{}

/// An open cleaner's knowledge stays right, whoever takes a step.
pub fn cleaners_know()
    ensures { AtEachStep CleanersKnow }
{}

/// Of a cell's records, only the first above a start can name that start.
pub fn names_nearest()
    ensures { WhereShown NamesNearest }
{}

/// Cells after a collection show the same state.
pub fn stays_shown()
    ensures { (cells : Cells) (st : State) → ShowsCells cells st → StaysShown cells st }
{}

/// Cells that show a state also show it after a clean restart.
pub fn shows_reopened()
    ensures { (cells : Cells) (st : State) → ShowsCells cells st
        → ShowsCells cells (reopened st) }
{}

/// From each reached state the machine can go, by the beginnings of a session and a collector and by clean restarts, to
/// a state that the same cells show, with the oracle's mark as its top and the mark plus one as its floor.
pub fn recovers()
    ensures { Recovers }
{}

/// If no mark is below a floor, a collector may erase the records older than a record at or below it, with their data,
/// the data below it that no record names, and the record of a deletion at or below it that is its cell's oldest.
pub fn may_erase()
    ensures { WhereShown MayEraseBelow }
{}

/// How a collector's progress continues from a place.
pub fn comes_further()
    ensures { (cells : Cells) (st : State) → ShowsCells cells st → ComesFurther cells st }
{}

/// No step of anyone undoes a collector's progress.
pub fn come_stays()
    ensures { WhereShown ComeStays }
{}

/// Each action of a collector reduces its remaining work by at least one.
pub fn left_falls()
    ensures { (cells : Cells) → LeftFalls cells }
{}

/// The effect on the cells of the edits that remove a lock.
pub fn make_cells()
    ensures { (cells : Cells) (x : Cell) (t : ℕ) (edits : List RowEdit)
        → MakeCells cells x t edits }
{}

/// A request that stands for several leads from a reached state to a reached state, so the machine's laws hold after
/// it.
pub fn stays_reached()
    ensures { StaysReached }
{}

/// A transaction whose cells are free may put data and record of each of its writes, and no lock.
pub fn puts_at_once()
    ensures { PutsAtOnce }
{}

/// What is read together holds at one moment.
pub fn reads_one_moment()
    ensures { ReadsOneMoment }
{}

/// The answer of a transaction is true.
pub fn answers_truly()
    ensures { AnswersTruly }
{}
