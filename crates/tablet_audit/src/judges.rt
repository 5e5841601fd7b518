//! A judge of a recording: an audit, and which client's is what is open there.

ghost use Rattle.std.specs.Prelude.{◌≡◌, ℕ, IfErr, IfOk};
ghost use Rattle.tablet_audit.specs.Judges.{Keeps};
ghost use Rattle.tablet_audit.specs.Runs.{beginning};
ghost use Rattle.tablet_audit.specs.declared.sharing.Sharing.{Sharing as SharingOf};

use audit::Audit;
use cell_key::Refusal;
use ownership::Owners;
use std::alloc::Global;

/// A judge of a recording. It follows the run of the machine, and, if several clients made it, knows whose is what is
/// open.
#[derive(Drop)]
pub struct Judge {
    pub audit: Audit,
    pub owners: Owners,
}

impl Judge {
    /// The judge of a recording that begins with a new store.
    ///
    /// # Errors
    ///
    /// `NoMemory`.
    pub fn new(alloc: Global) -> Result<Judge, Refusal>
        ensures ok { IfOk result (λ judge. (sharing : SharingOf) → Keeps sharing judge beginning) }
        ensures refusal { IfErr result (λ refusal. refusal ≡ Refusal.NoMemory) }
    {
        let audit = Audit::new(alloc)?;
        Ok(Judge {
            audit,
            owners: Owners::new(alloc),
        })
    }
}
