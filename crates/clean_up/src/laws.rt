//! Laws of cleaners, whatever is called. Each is a function that does nothing: its contract is the law.

ghost use Rattle.clean_up.specs.Shows.{AreShownOn, AreShownSame};

/// Cleaners show the same after each step of others: of sessions, of collectors, and of the storage.
pub fn shows_on()
    ensures { AreShownOn }
{}

/// Equal cleaners show the same states.
pub fn shows_same()
    ensures { AreShownSame }
{}
