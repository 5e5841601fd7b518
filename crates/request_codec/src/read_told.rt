//! Decoding of the fields of a Read's answer.

ghost use Rattle.std.specs.Prelude.{◌≡◌, ◌≢◌, ◌<◌, ◌≤◌, ◌+◌, ◌*◌, ◌^◌, ◌↔◌, ◌++◌, List, ℕ, Option, IsTrue, IfSome, IfNone, IfOk, IsOkUnless, OnErr, length, option_map};
ghost use Rattle.std.specs.List.{AllByRecursion, flat_map};
ghost use Rattle.si_model.specs.Messages.{Item};
ghost use Rattle.si_model.specs.Replies.{found_item};
ghost use Rattle.si_model.specs.Transactions.{most_read, most_told};
ghost use Rattle.si_model.specs.Answers.{told_items};
ghost use Rattle.si_model.specs.AnswerLimits.{IsInReadLimits};
ghost use Rattle.request_codec.specs.Answers.{told_fields, AreTold, ToldFits};
ghost use Rattle.request_codec.specs.Fields.{number};
ghost use Rattle.request_codec.specs.Scans.{lent_said};

use crate::read_fields::{take_u32, take_u64};
use crate::read_items::{LentFound, own_found, take_said};
use crate::replies::NOTHING;
use cell_key::Refusal;
use si_model::ScanFound;
use std::alloc::Global;

/// The most cells of a Read.
const MOST_READ: u32 = 256;

/// The most bytes of what a Read tells of its cells: 1,046,268, and a mark for each of 255 cells.
const MOST_TOLD_BYTES: usize = 1_048_563;

/// What a Read tells of a cell.
fn take_told<'a>(rest: &mut &'a [u8]) -> Option<Option<LentFound<'a>>>
    ensures found { IfSome result (λ told.
        rest.old.now ≡ told_fields (option_map lent_said told) ++ rest.new.now) }
    ensures fits { IfSome result (λ told. ToldFits (option_map lent_said told)) }
    ensures none { IfNone result ((told : Option Item) (after : List ℕ) → ToldFits told
        → rest.old.now ≢ told_fields told ++ after) }
{
    let (tag, after) = rest.split_first()?;
    if *tag == NOTHING {
        *rest = after;
        return Some(None);
    }
    let said = take_said(rest)?;
    Some(Some(said))
}

/// Whether the bytes are what is told of `count` cells.
fn are_told(bytes: &[u8], count: u32) -> bool
    ensures { IsTrue result ↔ AreTold count bytes.now }
{
    let mut rest = bytes;
    for _ in 0..count {
        let Some(_) = take_told(&mut rest) else {
            return false;
        };
    }
    rest.is_empty()
}

/// The fields of a Read's answer: a start, the number of cells, and the bytes of what is told of them.
pub(crate) fn whole_told(bytes: &[u8]) -> Option<(u64, u32, &[u8])>
    ensures found { IfSome result (λ p.
        bytes.now ≡ number 8 p.0 ++ (number 4 p.1 ++ p.2.now)) }
    ensures start { IfSome result (λ p. p.0 < 2 ^ 64) }
    ensures told { IfSome result (λ p. AreTold p.1 p.2.now) }
    ensures few { IfSome result (λ p. p.1 ≤ most_read) }
    ensures short { IfSome result (λ p. length p.2.now ≤ most_told + 255 * 9) }
    ensures none { IfNone result ((start : ℕ) (said : List (Option Item))
        → AllByRecursion ToldFits said → IsInReadLimits said → bytes.now
        ≢ number 8 start ++ (number 4 (length said) ++ flat_map told_fields said)) }
{
    let mut rest = bytes;
    let start = take_u64(&mut rest)?;
    let count = take_u32(&mut rest)?;
    if count <= MOST_READ && rest.len() <= MOST_TOLD_BYTES && are_told(rest, count) {
        Some((start, count, rest))
    } else {
        None
    }
}

/// What is told of a cell, as an owned copy.
fn own_said(alloc: Global, told: Option<LentFound<'_>>) -> Result<Option<ScanFound>, Refusal>
    ensures ok { IfOk result (λ own.
        option_map found_item own ≡ option_map lent_said told.entry) }
    ensures refusal { IsOkUnless result Refusal.NoMemory }
{
    match told {
        None => Ok(None),
        Some(said) => Ok(Some(own_found(alloc, said)?)),
    }
}

/// What is told in the bytes, as owned copies.
pub(crate) fn own_told(
    alloc: Global,
    bytes: &[u8],
    count: u32,
) -> Result<Vec<Option<ScanFound>>, Refusal>
    requires { AreTold count bytes.now }
    ensures ok { IfOk result (λ own. bytes.now ≡ flat_map told_fields (told_items own.items)) }
    ensures count { IfOk result (λ own. length own.items ≡ count) }
    ensures fit { IfOk result (λ own. AllByRecursion ToldFits (told_items own.items)) }
    ensures refusal { IsOkUnless result Refusal.NoMemory }
    // An empty list needs no allocation.
    ensures needed { OnErr result (0 < count) }
{
    let mut found = Vec::new(alloc);
    let mut rest = bytes;
    for _ in 0..count {
        let Some(told) = take_told(&mut rest) else {
            unreachable!();
        };
        found.push(own_said(alloc, told)?)?;
    }
    Ok(found)
}
