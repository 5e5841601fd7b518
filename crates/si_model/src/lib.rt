//! The snapshot machine: its definitions, its laws over all reached states, and the answers of its calls.
#![tactic(auto)]

mod laws;
mod replies;
mod scans;
mod scripts;
mod servers;
mod transactions;

pub use laws::{
    answers_truly, bounded, cleaners_know, clears_its_floor, come_stays, comes_further,
    commit_seen, endures, fate_seen, first_committer, first_tells, floor_stays_low, goes_on,
    gone_for_good, have_tried, leaves_others, left_falls, make_cells, may_erase, names_nearest,
    never_stuck, nothing_there, numbered, one_fate, one_mark, one_snapshot, puts_at_once,
    reads_one_moment, recovers, refuses_first, scans_as_gets, scans_meet, scans_settled, settled,
    shows_reopened, starts_low, stays_cleared, stays_reached, stays_shown, tells_fate, tells_marks,
    writes_within_limits,
};
pub use replies::{Cell, CleanReply, CleanStart, CollectReply, Found, Progress};
pub use scans::{ScanFound, ScanItem, ScanRange, ScanReach, ScanReply};
pub use scripts::{
    commit_point, deleted_cell, first_cell, first_holder, lost, mark_stays, rolled_back,
    scanned_cells, split_tablet, stranded_mark, transfer, write_skew, younger_first,
};
pub use servers::{
    parts_stay, reached_by_servers, servers_lawful, servers_never_stuck, views_lift, views_reached,
    views_shown,
};
pub use transactions::{CellName, CellWrite, CommitReply, ReadReply, told_bytes};
