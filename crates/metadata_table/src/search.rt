//! Searches of a list of places: by row, by tablet and by file.

ghost use Rattle.std.specs.Prelude.{◌≡◌, ◌<◌, ◌==◌, MatchResult, IfOk, length, position};
ghost use Rattle.std.specs.List.{list_any};
ghost use Rattle.metadata_table.specs.Places.{views};
ghost use Rattle.metadata_table.specs.Table.{EndsRise, HasTablet};
ghost use Rattle.metadata_table.specs.Search.{HoldsRowAt, IsTabletAt};

use crate::places::Place;
use cell_key::{Refusal, Row};

/// The position of the place that holds a row.
pub(crate) fn by_row(places: &[Place], row: &Row) -> usize
    requires { EndsRise (views places.now) }
    ensures bound { result < length places.now }
    ensures holder { HoldsRowAt row.now (views places.now) result }
{
    places.partition_point(|place| place.ends_before(row))
}

/// The first position of a place with this number.
fn first_of(places: &[Place], tablet: u32) -> Option<usize>
    ensures { result ≡ position (λ place. place.tablet == tablet) places.now }
{
    places.iter().position(|place| place.tablet == tablet)
}

/// The position of a tablet's place.
pub(crate) fn by_tablet(places: &[Place], tablet: u32) -> Result<usize, Refusal>
    ensures bound { IfOk result (λ position. position < length places.now) }
    ensures cases { MatchResult result (λ position. IsTabletAt tablet (views places.now) position)
        (λ refusal. (refusal ≡ Refusal.UnknownTablet) × ¬ (HasTablet tablet (views places.now))) }
{
    first_of(places, tablet).ok_or(Refusal::UnknownTablet)
}

/// Whether some place has a file of this name.
pub(crate) fn has_file(places: &[Place], name: u64) -> bool
    ensures { result
        ≡ list_any (λ place. list_any (λ file. file == name) place.files.items) places.now }
{
    places.iter().any(|place| place.files.contains(&name))
}
