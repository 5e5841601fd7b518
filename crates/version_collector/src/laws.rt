//! Laws of collectors, whatever is called. Each is a function that does nothing: its contract is the law.

ghost use Rattle.version_collector.specs.Shows.{AreShownOn, AreShownSame};

/// Collectors show the same after each step of others: of sessions, of cleaners, and of the storage.
pub fn shows_on()
    ensures { AreShownOn }
{}

/// Equal collectors show the same states.
pub fn shows_same()
    ensures { AreShownSame }
{}
