//! Each client its own: which sessions, cleaners and collectors are whose, and what is refused to others.
#![tactic(auto)]

mod frames;
mod holdings;
mod laws;
mod names;
mod owners;

pub use frames::{Frame, decode_frame, split_client};
pub use holdings::Holdings;
pub use laws::{
    each_was_given, is_gone, is_left_alone, others_are_refused, stays_known, touches_its_own,
};
pub use names::{Kind, Name, given_kind, may_close, may_end, named};
pub use owners::Owners;
