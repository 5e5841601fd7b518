//! The block caches of a tablet's files: emptying them and setting their sizes.

ghost use Rattle.std.specs.Prelude.{◌≡◌, Option};
ghost use Rattle.file_store.specs.Store.{Contents};
ghost use Rattle.tablet.specs.Views.{IsSameTablet};

use crate::tablet::Tablet;
use std::num::NonZeroUsize;

impl Tablet {
    /// Sets how many blocks each file caches at most, for the open files and those opened later. The tablet is
    /// otherwise unchanged.
    pub fn resize_caches(&mut self, most_blocks: NonZeroUsize)
        ensures same { (disk : Option Contents) → IsSameTablet disk self.old self.new }
        ensures blocks { self.new.most_blocks ≡ most_blocks }
    {
        self.files.resize_caches(most_blocks);
        self.most_blocks = most_blocks;
    }

    /// Empties the caches of the files. The tablet is unchanged. Allocates nothing.
    pub fn drop_caches(&mut self)
        ensures { (disk : Option Contents) → IsSameTablet disk self.old self.new }
    {
        self.files.drop_caches();
    }
}
