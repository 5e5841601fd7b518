//! The root of a store: its content, and its bytes.

ghost use Rattle.std.specs.Prelude.{◌≡◌, ◌≤◌, ◌<◌, ◌^◌, ◌++◌, ◌↔◌, ◌⊎◌, IsTrue, IfOk, IfErr, IfSome, IfNone, OnOk, OnErr, IsOkUnless, length};
ghost use Rattle.metadata_table.specs.Roots.{HasLengths, IsNaming, IsNoRoot, IsRootIn, IsRootWith, IsSoundRoot, lengths_of, root_bytes, root_of};
ghost use Rattle.metadata_table.specs.RootReader.{draft_of, drafted};
ghost use Rattle.std.specs.List.{AllByRecursion};

mod check;
mod format;
mod reader;
mod writer;

use crate::root::check::{all_fit, has_lengths, is_named_table};
use crate::root::format::RootFormat;
use crate::root::reader::{Draft, ReadFault, read_draft};
use crate::root::writer::root_image;
use crate::table::MetadataTable;
use cell_key::{Refusal, Stamp};
use std::alloc::Global;

/// The content of a root: the greatest stamp ever answered, the greatest floor of a collector, the name of the next
/// file, and the tablets' places. A stamp is 0 if there is none.
#[derive(Drop)]
pub struct Root {
    pub top: Stamp,
    pub floor: Stamp,
    pub next_name: u64,
    pub table: MetadataTable,
    /// The files' lengths, in the order in which the table names the files. Empty for a root of format 1.
    pub lengths: Vec<u64>,
}

/// Whether the draft read from these bytes is valid, and written again gives the same bytes.
fn is_root(alloc: Global, draft: &Draft, bytes: &[u8]) -> Result<bool, Refusal>
    ensures exact { IfOk result (λ is. IsTrue is
        ↔ IsRootIn draft.now.format (draft_of draft.now) draft.now.lengths.items bytes.now) }
    ensures refusal { IfErr result (λ refusal. refusal ≡ Refusal.NoMemory) }
{
    if !is_named_table(&draft.places, draft.next_name) {
        return Ok(false);
    }
    if !has_lengths(draft.format, &draft.places, &draft.lengths) {
        return Ok(false);
    }
    all_fit(&draft.lengths);
    let image = root_image(
        alloc,
        draft.format,
        draft.top,
        draft.floor,
        draft.next_name,
        &draft.places,
        &draft.lengths,
    )?;
    Ok(image.as_slice() == bytes)
}

/// The root's content, if the bytes are a root.
fn draft_of_root(alloc: Global, bytes: &[u8]) -> Result<Option<Draft>, Refusal>
    ensures form { IfOk result (λ found.
        IfSome found (λ draft.
        IsRootIn draft.format (draft_of draft) draft.lengths.items bytes.now)) }
    ensures none { IfOk result (λ found. IfNone found (IsNoRoot bytes.now)) }
    ensures refusal { IfErr result (λ refusal. refusal ≡ Refusal.NoMemory) }
{
    match read_draft(alloc, bytes) {
        Ok(draft) => {
            if is_root(alloc, &draft, bytes)? {
                Ok(Some(draft))
            } else {
                Ok(None)
            }
        }
        Err(ReadFault::Malformed) => Ok(None),
        Err(ReadFault::Memory) => Err(Refusal::NoMemory),
    }
}

impl MetadataTable {
    /// Appends the bytes of the root in format 2 with this table, these numbers and the lengths of the files, in the
    /// order in which the table names them. Each tablet must have at most 64 files, each once, with names from 1 on and
    /// below the next one, which is at most 2^63.
    ///
    /// # Errors
    ///
    /// `NoMemory` if an allocation failed. `out` is then unchanged.
    pub fn write_root(
        &self,
        top: Stamp,
        floor: Stamp,
        next_name: u64,
        lengths: &[u64],
        out: &mut Vec<u8>,
    ) -> Result<(), Refusal>
        requires naming { IsNaming next_name self.now }
        requires measured { HasLengths RootFormat.Two self.now lengths.now }
        ensures ok { OnOk result (out.new.items
            ≡ out.old.items ++ root_bytes RootFormat.Two (record {
              top = top;
              floor = floor;
              next_name = next_name;
              places = self.now;
            }) lengths.now) }
        ensures sound { OnOk result (IsSoundRoot (record {
          top = top;
          floor = floor;
          next_name = next_name;
          places = self.now;
        })) }
        ensures fit { OnOk result (AllByRecursion (λ n. n < 2 ^ 64) lengths.now) }
        ensures err { OnErr result (out.new.items ≡ out.old.items) }
        ensures refusal { IsOkUnless result Refusal.NoMemory }
    {
        let alloc = *out.allocator();
        all_fit(lengths);
        let image = root_image(
            alloc,
            RootFormat::Two,
            top,
            floor,
            next_name,
            self.places(),
            lengths,
        )?;
        out.extend_from_slice(&image)?;
        Ok(())
    }

    /// The root with these bytes, or `None` if they are not a root; with bytes before the head or after the foot they
    /// are not. Allocates a few times the size of the bytes.
    ///
    /// # Errors
    ///
    /// `NoMemory` if an allocation failed.
    pub fn read_root(alloc: Global, bytes: &[u8]) -> Result<Option<Root>, Refusal>
        ensures form { IfOk result (λ found.
            IfSome found (λ root. IsRootWith (root_of root) (lengths_of root) bytes.now)) }
        ensures none { IfOk result (λ found. IfNone found (IsNoRoot bytes.now)) }
        ensures refusal { IfErr result (λ refusal. refusal ≡ Refusal.NoMemory) }
    {
        let Some(draft) = draft_of_root(alloc, bytes)? else {
            return Ok(None);
        };
        let Draft {
            top,
            floor,
            next_name,
            places,
            lengths,
            ..
        } = draft;
        Ok(Some(Root {
            top,
            floor,
            next_name,
            table: MetadataTable::from_places(places),
            lengths,
        }))
    }
}
