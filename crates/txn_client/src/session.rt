//! A session and its phases.

use crate::writes::Writes;
use cell_key::Moment;
use si_model::Progress;

/// The phase of a session. The number is of cells held, or of cells finished.
#[derive(Clone, Copy, Drop)]
pub(crate) enum Phase {
    Open,
    Holding(u16),
    Stamped,
    Finishing(u16),
}

/// A session: its start; its commit stamp, equal to the start until one is drawn; its phase and its writes.
#[derive(Drop)]
pub(crate) struct Session {
    pub(crate) start: Moment,
    pub(crate) commit: Moment,
    pub(crate) phase: Phase,
    pub(crate) writes: Writes,
}

/// The outcome of a session's step, and whether the session has ended with it.
#[derive(Clone, Copy, Drop)]
pub(crate) struct Outcome {
    pub(crate) progress: Progress,
    pub(crate) ended: bool,
}
