//! What becomes of the calls of a device with two contents, and which of the two is meant.

ghost use Rattle.std.specs.Prelude.{◌≡◌, IsTrue, true};
ghost use Rattle.power_tests.specs.Meant.{Meant};

/// Which content of a device is meant. It has no value at run time: what is proved holds for each choice.
pub trait Choice {
    ghost meant: { Meant };
}

/// What becomes of a call of a device.
#[derive(Clone, Copy, Debug)]
pub enum Fate {
    /// It is made.
    Works,
    /// It is answered that the device failed. Of bytes to be appended so many come to what is read, and so many to what
    /// lasts. What is replaced or removed is so in either unless the number is 0.
    Fails { read: usize, lasts: usize },
}

impl Fate {
    /// Whether the call is made.
    pub(crate) fn is_good(self) -> bool {
        matches!(self, Fate::Works)
    }

    /// Whether what is read is replaced.
    pub(crate) fn is_read(self) -> bool {
        !matches!(self, Fate::Fails { read: 0, .. })
    }

    /// Whether what lasts is replaced.
    pub(crate) fn lasts(self) -> bool {
        !matches!(self, Fate::Fails { lasts: 0, .. })
    }

    /// How many bytes of this many come to what is read.
    pub(crate) fn count_read(self, most: usize) -> usize {
        match self {
            Fate::Works => most,
            Fate::Fails { read, .. } => read,
        }
    }

    /// How many bytes of this many come to what lasts.
    pub(crate) fn count_lasting(self, most: usize) -> usize {
        match self {
            Fate::Works => most,
            Fate::Fails { lasts, .. } => lasts,
        }
    }

    /// Whether the call is made, and was made by both contents.
    pub(crate) fn is_done(self, is_read: bool, lasts: bool) -> bool
        ensures read { IsTrue result → is_read ≡ true }
        ensures lasts { IsTrue result → lasts ≡ true }
    {
        self.is_good() && is_read && lasts
    }
}

/// The fates of the next calls of a device. After them each call is made.
#[derive(Drop)]
pub struct Fates {
    /// The last one comes next.
    left: Vec<Fate>,
}

impl Fates {
    /// These fates, of which the last one comes first.
    pub fn new(left: Vec<Fate>) -> Fates {
        Fates { left }
    }

    /// The fate of the next call.
    pub(crate) fn next(&mut self) -> Fate {
        self.left.pop().unwrap_or(Fate::Works)
    }
}
