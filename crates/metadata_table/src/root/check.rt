//! Checks that places, names and lengths are a root's.

ghost use Rattle.std.specs.Prelude.{◌≡◌, ◌≢◌, ◌≤◌, ◌<◌, ◌^◌, ◌↔◌, length, IsTrue, AllPairs};
ghost use Rattle.std.specs.List.{AllByRecursion};
ghost use Rattle.metadata_table.specs.Places.{view_of, views};
ghost use Rattle.metadata_table.specs.Roots.{AreFiles, HasLengths, IsNaming, file_names};
ghost use Rattle.metadata_table.specs.Table.{EndsRise, IsNumbered, IsTable};

use crate::places::Place;
use crate::root::format::RootFormat;
use crate::table::MetadataTable;

/// The most files of a tablet.
const MOST_FILES: usize = 64;

/// The greatest name that the next file may have.
const MOST_NEXT_NAME: u64 = 9_223_372_036_854_775_808;

/// Whether the ends strictly ascend, up to the infinite one.
fn ends_rise(places: &[Place]) -> bool
    ensures { IsTrue result ↔ EndsRise (views places.now) }
{
    let Some((mut last, mut rest)) = places.split_first() else {
        return false;
    };
    'places: while let Some((next, after)) = rest.split_first() {
        if !last.ends_below(next) {
            return false;
        }
        last = next;
        rest = after;
    }
    last.end.is_none()
}

/// Whether no place belongs to this tablet.
fn lacks_tablet(places: &[Place], tablet: u32) -> bool
    ensures { IsTrue result ↔ AllByRecursion (λ place. tablet ≢ place.tablet) places.now }
{
    places.iter().all(|place| tablet != place.tablet)
}

/// Whether no two places belong to the same tablet.
fn tablets_differ(places: &[Place]) -> bool
    ensures { IsTrue result ↔ AllPairs (λ p q. p.tablet ≢ q.tablet) (views places.now) }
{
    let mut rest = places;
    'places: while let Some((place, after)) = rest.split_first() {
        if !lacks_tablet(after, place.tablet) {
            return false;
        }
        rest = after;
    }
    true
}

/// Whether the tablet's number is from 1 to the count of tablets, and its server exists.
fn is_numbered(place: &Place, count: usize) -> bool
    ensures { IsTrue result ↔ IsNumbered count (view_of place.now) }
{
    place.tablet >= 1 && place.tablet as usize <= count && place.server < MetadataTable::SERVERS
}

/// Whether `is_numbered` holds for each place.
fn are_numbered(places: &[Place], count: usize) -> bool
    ensures { IsTrue result
        ↔ AllByRecursion (λ place. IsNumbered count (view_of place)) places.now }
{
    places.iter().all(|place| is_numbered(place, count))
}

/// Whether the places are a table.
fn is_table(places: &[Place]) -> bool
    ensures { IsTrue result ↔ IsTable (views places.now) }
{
    places.len() <= MetadataTable::MOST_TABLETS
        && ends_rise(places)
        && tablets_differ(places)
        && are_numbered(places, places.len())
}

/// Whether the names are from 1 on and below the next one.
fn are_named(names: &[u64], next_name: u64) -> bool
    ensures { IsTrue result ↔ AllByRecursion (λ name. (1 ≤ name) × (name < next_name)) names.now }
{
    names.iter().all(|name| *name >= 1 && *name < next_name)
}

/// Whether none of the names is this one.
fn lacks_name(names: &[u64], name: u64) -> bool
    ensures { IsTrue result ↔ AllByRecursion (λ other. name ≢ other) names.now }
{
    names.iter().all(|other| name != *other)
}

/// Whether no two names are the same.
fn names_differ(names: &[u64]) -> bool
    ensures { IsTrue result ↔ AllPairs (λ m n. m ≢ n) names.now }
{
    let mut rest = names;
    'names: while let Some((name, after)) = rest.split_first() {
        if !lacks_name(after, *name) {
            return false;
        }
        rest = after;
    }
    true
}

/// Whether the names may be a tablet's files: at most 64, all different, from 1 on and below the next one.
fn are_files(names: &[u64], next_name: u64) -> bool
    ensures { IsTrue result ↔ AreFiles next_name names.now }
{
    names.len() <= MOST_FILES && names_differ(names) && are_named(names, next_name)
}

/// Whether a place's files are valid.
fn has_files(place: &Place, next_name: u64) -> bool
    ensures { IsTrue result ↔ AreFiles next_name place.now.files.items }
{
    are_files(&place.files, next_name)
}

/// Whether `has_files` holds for each place.
fn all_files(places: &[Place], next_name: u64) -> bool
    ensures { IsTrue result
        ↔ AllByRecursion (λ place. AreFiles next_name place.files.items) places.now }
{
    places.iter().all(|place| has_files(place, next_name))
}

/// Whether the next name is in its range, and the files of all places are valid and below it.
fn is_naming(places: &[Place], next_name: u64) -> bool
    ensures { IsTrue result ↔ IsNaming next_name (views places.now) }
{
    next_name >= 1 && next_name <= MOST_NEXT_NAME && all_files(places, next_name)
}

/// Whether the places are a table whose files are valid and below the next name.
pub(crate) fn is_named_table(places: &[Place], next_name: u64) -> bool
    ensures { IsTrue result ↔ (IsTable (views places.now) × IsNaming next_name (views places.now)) }
{
    is_table(places) && is_naming(places, next_name)
}

/// Whether there is exactly one length for each file of the places.
fn is_measured(places: &[Place], lengths: &[u64]) -> bool
    ensures { IsTrue result ↔ (length lengths.now ≡ length (file_names (views places.now))) }
{
    let mut rest = places;
    let mut left = lengths;
    'places: while let Some((place, after)) = rest.split_first() {
        let count = place.files.len();
        if count > left.len() {
            return false;
        }
        (_, left) = left.split_at(count);
        rest = after;
    }
    left.is_empty()
}

/// Whether the lengths fit the format: none in format 1, one for each file of the places in format 2.
pub(crate) fn has_lengths(format: RootFormat, places: &[Place], lengths: &[u64]) -> bool
    ensures { IsTrue result ↔ HasLengths format (views places.now) lengths.now }
{
    match format {
        RootFormat::One => lengths.is_empty(),
        RootFormat::Two => is_measured(places, lengths),
    }
}

/// Each of these numbers fits in eight bytes.
pub(crate) fn all_fit(numbers: &[u64])
    ensures { AllByRecursion (λ number. number < 2 ^ 64) numbers.now }
{
    let mut rest = numbers;
    'numbers: while let Some((number, after)) = rest.split_first() {
        let _number = *number;
        rest = after;
    }
}
