//! The writer of a root's bytes.

ghost use Rattle.std.specs.Prelude.{◌≡◌, ◌≤◌, ◌<◌, ◌+◌, ◌^◌, ◌++◌, length, take, drop, flat_map, codes, IfOk, IfErr, OnOk, IfSome, IsOkUnless};
ghost use Rattle.std.specs.List.{AllByRecursion};
ghost use Rattle.std.specs.Int.{w32, w64, to_be_bytes};
ghost use Rattle.cell_key.specs.Entries.{field};
ghost use Rattle.cell_key.specs.Names.{IsRow};
ghost use Rattle.metadata_table.specs.Places.{view_of, views};
ghost use Rattle.metadata_table.specs.Roots.{AreEnds, AreFiles, IsNaming, end_bytes, files_bytes, numbers_of, place_bytes, places_bytes, root_bytes, with_lengths};
ghost use Rattle.metadata_table.specs.Table.{most_tablets};

use crate::places::Place;
use crate::root::format::RootFormat;
use cell_key::{Refusal, Row};
use std::alloc::Global;

/// Appends a four-byte number.
fn push_u32(out: &mut Vec<u8>, number: u32) -> Result<(), Refusal>
    ensures ok { OnOk result (out.new.items ≡ out.old.items ++ to_be_bytes w32 number) }
    ensures memory { IsOkUnless result Refusal.NoMemory }
{
    out.extend_from_slice(&number.to_be_bytes())?;
    Ok(())
}

/// Appends an eight-byte number.
fn push_u64(out: &mut Vec<u8>, number: u64) -> Result<(), Refusal>
    ensures ok { OnOk result (out.new.items ≡ out.old.items ++ to_be_bytes w64 number) }
    ensures memory { IsOkUnless result Refusal.NoMemory }
{
    out.extend_from_slice(&number.to_be_bytes())?;
    Ok(())
}

/// Appends a row, prefixed with its length.
fn push_row(out: &mut Vec<u8>, row: &Row) -> Result<(), Refusal>
    ensures ok { OnOk result (out.new.items ≡ out.old.items ++ field row.now) }
    ensures valid { IsRow row.now }
    ensures memory { IsOkUnless result Refusal.NoMemory }
{
    let bytes = row.as_bytes();
    push_u32(out, bytes.len() as u32)?;
    out.extend_from_slice(bytes)?;
    Ok(())
}

/// Appends the end of a tablet.
fn push_end(out: &mut Vec<u8>, end: &Option<Row>) -> Result<(), Refusal>
    ensures ok { OnOk result (out.new.items ≡ out.old.items ++ end_bytes end.now) }
    ensures valid { OnOk result (IfSome end.now IsRow) }
    ensures memory { IsOkUnless result Refusal.NoMemory }
{
    match end {
        Some(row) => {
            out.push(0)?;
            push_row(out, row)
        }
        None => {
            out.push(1)?;
            Ok(())
        }
    }
}

/// Appends names, each followed by its length as far as there are lengths.
fn push_names(out: &mut Vec<u8>, names: &[u64], lengths: &[u64]) -> Result<(), Refusal>
    ensures ok { OnOk result (out.new.items
        ≡ out.old.items ++ flat_map (to_be_bytes w64) (numbers_of names.now lengths.now)) }
    ensures memory { IsOkUnless result Refusal.NoMemory }
{
    let mut rest = names;
    let mut left = lengths;
    'names: while let Some((name, after)) = rest.split_first() {
        push_u64(out, *name)?;
        if let Some((len, others)) = left.split_first() {
            push_u64(out, *len)?;
            left = others;
        }
        rest = after;
    }
    Ok(())
}

/// Appends the files of a tablet.
fn push_files(out: &mut Vec<u8>, names: &[u64], lengths: &[u64]) -> Result<(), Refusal>
    requires { length names.now < 2 ^ 32 }
    ensures ok { OnOk result (out.new.items ≡ out.old.items ++ files_bytes names.now lengths.now) }
    ensures memory { IsOkUnless result Refusal.NoMemory }
{
    push_u32(out, names.len() as u32)?;
    push_names(out, names, lengths)
}

/// Appends a place, with the lengths of its files.
fn push_place(out: &mut Vec<u8>, place: &Place, lengths: &[u64]) -> Result<(), Refusal>
    requires { length place.now.files.items < 2 ^ 32 }
    ensures ok { OnOk result (out.new.items
        ≡ out.old.items ++ place_bytes (view_of place.now, lengths.now)) }
    ensures valid { OnOk result (IfSome place.now.end IsRow) }
    ensures memory { IsOkUnless result Refusal.NoMemory }
{
    push_u32(out, place.tablet)?;
    push_end(out, &place.end)?;
    out.push(place.server)?;
    push_files(out, &place.files, lengths)
}

/// The lengths of a place's files, and the lengths left for the places after it.
fn own_lengths<'a>(place: &Place, lengths: &'a [u64]) -> (&'a [u64], &'a [u64])
    ensures own { result.0.now ≡ take (length place.now.files.items) lengths.now }
    ensures others { result.1.now ≡ drop (length place.now.files.items) lengths.now }
{
    let count = place.files.len();
    if count > lengths.len() {
        return (lengths, &[]);
    }
    lengths.split_at(count)
}

/// Appends places in order.
fn push_each(out: &mut Vec<u8>, places: &[Place], lengths: &[u64]) -> Result<(), Refusal>
    requires { AllByRecursion (λ place. length place.files.items < 2 ^ 32) places.now }
    ensures ok { OnOk result (out.new.items ≡ out.old.items
        ++ flat_map place_bytes (with_lengths (views places.now) lengths.now)) }
    ensures valid { OnOk result (AreEnds (views places.now)) }
    ensures memory { IsOkUnless result Refusal.NoMemory }
{
    let mut rest = places;
    let mut left = lengths;
    'places: while let Some((place, after)) = rest.split_first() {
        let (own, others) = own_lengths(place, left);
        push_place(out, place, own)?;
        left = others;
        rest = after;
    }
    Ok(())
}

/// Appends the places of all tablets.
fn push_places(out: &mut Vec<u8>, places: &[Place], lengths: &[u64]) -> Result<(), Refusal>
    requires few { length places.now ≤ most_tablets }
    requires files { AllByRecursion (λ place. length place.files.items < 2 ^ 32) places.now }
    ensures ok { OnOk result (out.new.items
        ≡ out.old.items ++ places_bytes (views places.now) lengths.now) }
    ensures valid { OnOk result (AreEnds (views places.now)) }
    ensures memory { IsOkUnless result Refusal.NoMemory }
{
    let count = places.len() as u32;
    push_u32(out, count + 1)?;
    push_u32(out, count)?;
    push_each(out, places, lengths)
}

/// The bytes of a root.
pub(crate) fn root_image(
    alloc: Global,
    format: RootFormat,
    top: u64,
    floor: u64,
    next_name: u64,
    places: &[Place],
    lengths: &[u64],
) -> Result<Vec<u8>, Refusal>
    requires few { length places.now ≤ most_tablets }
    requires naming { IsNaming next_name (views places.now) }
    ensures ok { IfOk result (λ bytes. bytes.items ≡ root_bytes format (record {
      top = top;
      floor = floor;
      next_name = next_name;
      places = views places.now;
    }) lengths.now) }
    ensures valid { OnOk result (AreEnds (views places.now)) }
    ensures memory { IfErr result (λ refusal. refusal ≡ Refusal.NoMemory) }
{
    let mut out = Vec::from_slice(alloc, format.head())?;
    push_u64(&mut out, top)?;
    push_u64(&mut out, floor)?;
    push_u64(&mut out, next_name)?;
    push_places(&mut out, places, lengths)?;
    out.extend_from_slice(b"TABROOTZ")?;
    Ok(out)
}
