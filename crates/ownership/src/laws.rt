//! Laws of what has a name, and of clients. Each is the contract of a function that does nothing.

ghost use Rattle.ownership.specs.Effects.{EachTouchesItsOwn};
ghost use Rattle.ownership.specs.Laws.{EachNamesWhatItNeeds, EachWasGiven, IsGone, IsLeftAlone, OthersAreRefused, StaysKnown};

/// An operation changes only what it names, and opens only what its answer gives, which is new.
pub fn touches_its_own()
    ensures { EachTouchesItsOwn }
{}

/// Each operation names what it needs to be open.
pub fn names_what_it_needs()
    ensures { EachNamesWhatItNeeds }
{}

/// Exactly what is open has an owner, after each frame.
pub fn stays_known()
    ensures { StaysKnown }
{}

/// What names another's is refused, and changes nothing.
pub fn others_are_refused()
    ensures { OthersAreRefused }
{}

/// What is a client's was given to it by an answer.
pub fn each_was_given()
    ensures { EachWasGiven }
{}

/// Nobody else's frames touch what is a client's.
pub fn is_left_alone()
    ensures { IsLeftAlone }
{}

/// After its end nothing is a client's, and its sessions are closed.
pub fn is_gone()
    ensures { IsGone }
{}
