//! Laws of the file format, of open files and of sources. Each is the contract of a function that does nothing.

ghost use Rattle.sorted_file.specs.KeyFilters.{StaysCovered};
ghost use Rattle.sorted_file.specs.LockIndexes.{StaysIndexed};
ghost use Rattle.sorted_file.specs.Grammar.{OneImage, OneList};
ghost use Rattle.sorted_file.specs.Source.{RestIsList};
ghost use Rattle.sorted_file.specs.File.{StaysOpen, OneListing, OpenIsThere, WrittenIsThere, WrittenIsListed};

/// A list of entries has at most one image in each format.
pub fn one_image()
    ensures { OneImage }
{}

/// An image is the image of one list of entries only, in one format only.
pub fn one_list()
    ensures { OneList }
{}

/// An open file stays open and has the same entries, as long as the bytes under its name don't change.
pub fn stays_open()
    ensures { StaysOpen }
{}

/// A file that a key filter covers is still covered if only its cache has changed.
pub fn stays_covered()
    ensures { StaysCovered }
{}

/// An index of the locks of files is still their index if only their caches have changed.
pub fn stays_indexed()
    ensures { StaysIndexed }
{}

/// Two open files with one name have the same entries.
pub fn one_listing()
    ensures { OneListing }
{}

/// Under the name of an open file there is an entry list's file.
pub fn open_is_there()
    ensures { OpenIsThere }
{}

/// After an entry list's file was written, there is one, so that `open` cannot find it damaged.
pub fn written_is_there()
    ensures { WrittenIsThere }
{}

/// A file that is open under the name of a written file has the entries that were written.
pub fn written_is_listed()
    ensures { WrittenIsListed }
{}

/// The entries that remain in a source are an entry list.
pub fn rest_is_list()
    ensures { RestIsList }
{}
