//! The starts that an audit's cleaners have rolled back.

ghost use Rattle.std.specs.BTreeMap as btree;
ghost use Rattle.std.specs.Ordering.{nat_cmp};
ghost use Rattle.std.specs.Prelude.{◌≡◌, ◌↔◌, ◌++◌, ◌∷◌, [], IfErr, IfSome, IsSome, IsTrue, OnErr, OnOk, Some};
ghost use Rattle.si_model.specs.Sets.{◌∈◌};
ghost use Rattle.audit.specs.Dead.{IsPut, StartSet as SetOf};

use crate::audit::lists;
use cell_key::{Refusal, Stamp};
use std::alloc::Global;
use std::collections::BTreeMap;
use std::marker::Model;

/// A set of starts, as a map of each start to itself.
type StartSet = BTreeMap<Stamp, Stamp>;

/// The starts, in the order in which they were rolled back. A set of them is kept beside the list. It is dropped, and
/// the searches go over the list, if there is no memory for it.
#[derive(Drop)]
pub(crate) struct Dead {
    list: Vec<Stamp>,
    set: Option<StartSet>,
}

impl Model for Dead {
    ghost use Rattle.std.specs.Prelude.{List, ℕ, IfSome};
    ghost use Rattle.audit.specs.Dead.{IsSetOf};

    ghost Value = { List ℕ };

    ghost view = { λ dead. dead.list.items };

    ghost invariant = { λ dead. IfSome dead.set (IsSetOf dead.list.items) };
}

/// Whether the start is in the set.
fn is_in(set: &StartSet, start: Stamp) -> bool
    ensures { IsTrue result ↔ IsSome (btree.get nat_cmp set.now start) }
{
    set.contains_key(&start)
}

/// The set with this start. `None` if it wasn't kept, or if there is no memory for the start.
fn with_start(set: Option<StartSet>, start: Stamp) -> Option<StartSet>
    ensures { IfSome result (λ after. (before : SetOf) × (set ≡ Some before)
        × IsPut before after start) }
{
    let Some(mut after) = set else {
        return None;
    };
    match after.insert(start, start) {
        Ok(_) => Some(after),
        Err(_) => None,
    }
}

impl Dead {
    /// No starts.
    pub(crate) fn new(alloc: Global) -> Dead
        ensures { result ≡ [] }
    {
        Dead {
            list: Vec::new(alloc),
            set: Some(BTreeMap::new(alloc)),
        }
    }

    /// Whether the start was rolled back.
    pub(crate) fn has(&self, start: Stamp) -> bool
        ensures { IsTrue result ↔ (start ∈ self.now) }
    {
        match &self.set {
            Some(set) => is_in(set, start),
            None => lists::is_among(&self.list, start),
        }
    }

    /// Adds a start.
    ///
    /// # Errors
    ///
    /// `NoMemory`; the starts are unchanged.
    pub(crate) fn push(&mut self, start: Stamp) -> Result<(), Refusal>
        ensures ok { OnOk result (self.new ≡ self.old ++ start ∷ []) }
        ensures err { OnErr result (self.new ≡ self.old) }
        ensures refusal { IfErr result (λ refusal. refusal ≡ Refusal.NoMemory) }
    {
        self.list.push(start)?;
        self.set = with_start(self.set.take(), start);
        Ok(())
    }
}
