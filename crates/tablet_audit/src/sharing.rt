//! How the stream of a recording was shared.

ghost use Rattle.std.specs.Prelude.{◌≡◌};
ghost use Rattle.tablet_audit.specs.Limits.{longest_replied};

use request_codec::LONGEST_BODY;

/// Whether the recorded stream was one client's alone, or several clients shared it.
#[derive(Clone, Copy, Drop)]
pub enum Sharing {
    /// One client's.
    Alone,
    /// The body of each frame begins with a client's number. With an administrator, only that client may ask for upkeep
    /// and raw reads.
    Shared(Option<u32>),
}

impl Sharing {
    /// The longest body of a reply, in bytes.
    pub fn longest_reply(self) -> usize
        ensures { result ≡ longest_replied self }
    {
        match self {
            Sharing::Alone => LONGEST_BODY,
            Sharing::Shared(_) => LONGEST_BODY + 4,
        }
    }
}
