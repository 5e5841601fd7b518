//! A key to look up in files, with the text and the hashes that the look-ups need.

ghost use Rattle.std.specs.Prelude.{◌≡◌, ◌≢◌, ◌≤◌, ◌<◌, ◌^◌, ℕ, length, IfOk, IfSome, IfNone, IsOkUnless, IsTrue};
ghost use Rattle.cell_key.specs.Keys.{text};
ghost use Rattle.cell_key.specs.declared.keys.CellKey.{CellKey as KeyOf};
ghost use Rattle.cell_key.specs.declared.keys.Qualifier.TheVariants.{Lock};
ghost use Rattle.sorted_file.specs.LookupKey.{entry_number};
ghost use Rattle.sorted_file.specs.Newest.{at_stamp};
ghost use Rattle.sorted_file.specs.Numbers.{number_of};

use crate::numbers::{column_number, text_number};
use cell_key::{CellKey, Qualifier, Refusal, Stamp, are_same, set_stamp, stamp_of};
use std::alloc::Global;
use std::marker::Model;

/// A key to look up in files. Its text and its hashes are made once for all files.
#[derive(Drop)]
pub struct LookupKey {
    key: CellKey,
    text: Vec<u8>,
    column: u64,
    entry: u64,
}

impl Model for LookupKey {
    ghost use Rattle.cell_key.specs.declared.keys.CellKey.{CellKey as KeyOf};
    ghost use Rattle.sorted_file.specs.LookupKey.{IsLookupKey};

    ghost Value = { KeyOf };

    ghost view = { λ lookup. lookup.key };

    ghost invariant = { λ lookup.
        IsLookupKey lookup.key lookup.text.items lookup.column lookup.entry };
}

/// The hash that an entry of the key with this text is tested by: of its text for a lock, else of its column.
fn entry_number(qualifier: Qualifier, text: &[u8], column: u64) -> u64
    requires { column ≡ number_of text.now }
    ensures { result ≡ entry_number qualifier text.now }
{
    match qualifier {
        Qualifier::Lock => text_number(text),
        Qualifier::Data | Qualifier::Write => column,
    }
}

/// The stamp of the text `bytes`, if it is in the column of the text `column`.
fn stamp_in(column: &[u8], bytes: &[u8]) -> Option<Stamp>
    requires { 8 ≤ length column.now }
    ensures some { IfSome result (λ stamp. (key : KeyOf) → column.now ≡ text key
        → bytes.now ≡ text (at_stamp key stamp)) }
    ensures none { IfNone result ((key : KeyOf) → column.now ≡ text key
        → (stamp : ℕ) → bytes.now ≢ text (at_stamp key stamp)) }
    ensures small { IfSome result (λ stamp. stamp < 2 ^ 64) }
{
    if bytes.len() != column.len() {
        return None;
    }
    let at = column.len() - 8;
    let (front, falling) = bytes.split_at(at);
    if are_same(front, column.split_at(at).0) {
        stamp_of(falling)
    } else {
        None
    }
}

impl LookupKey {
    ghost use Rattle.cell_key.specs.Keys.{IsKey};
    ghost use Rattle.sorted_file.specs.Newest.{IsOutside};

    /// The lookup key of a key. Answers `NoMemory` if there is no memory.
    pub fn new(alloc: Global, key: CellKey) -> Result<LookupKey, Refusal>
        ensures key { IfOk result (λ lookup. lookup ≡ key) }
        ensures refusal { IsOkUnless result Refusal.NoMemory }
    {
        // These show that row, family and stamp are within their limits.
        let _row = key.row.as_bytes();
        let _family = key.family.as_bytes();
        let _stamp = key.stamp;
        let mut text = Vec::new(alloc);
        key.encode(&mut text)?;
        let column = column_number(&text);
        let entry = entry_number(key.qualifier, &text, column);
        Ok(LookupKey {
            key,
            text,
            column,
            entry,
        })
    }

    /// Changes the key's stamp; the column is unchanged. Allocates nothing.
    pub fn set_stamp(&mut self, stamp: Stamp)
        ensures { self.new ≡ at_stamp self.old stamp }
    {
        self.key.stamp = stamp;
        set_stamp(&mut self.text, stamp);
        self.entry = entry_number(self.key.qualifier, &self.text, self.column);
    }

    /// The key.
    pub fn key(&self) -> &CellKey
        ensures key { result.now ≡ self.now }
        ensures limits { IsKey self.now }
    {
        &self.key
    }

    /// The text of the key.
    pub(crate) fn text(&self) -> &[u8]
        ensures text { result.now ≡ text self.now }
        ensures limits { IsKey self.now }
    {
        &self.text
    }

    /// The stamp of the key with this text, if that key is in the key's column at a stamp from `lo` to the key's.
    pub(crate) fn stamp_from(&self, lo: Stamp, bytes: &[u8]) -> Option<Stamp>
        ensures some { IfSome result (λ stamp. bytes.now ≡ text (at_stamp self.now stamp)) }
        ensures within { IfSome result (λ stamp. (lo ≤ stamp) × (stamp ≤ self.now.stamp)) }
        ensures none { IfNone result (IsOutside self.now lo bytes.now) }
    {
        let last = self.key().stamp;
        let stamp = stamp_in(self.text(), bytes)?;
        if stamp < lo || last < stamp {
            return None;
        }
        Some(stamp)
    }

    /// The hash of the key's column.
    pub(crate) fn column_number(&self) -> u64
        ensures { result ≡ number_of (text self.now) }
    {
        self.column
    }

    /// Whether the stamps from `lo` to the key's are one lock's: the key is a lock's, and its stamp is `lo`.
    pub(crate) fn is_one_lock(&self, lo: Stamp) -> bool
        ensures one { IsTrue result → lo ≡ self.now.stamp }
        ensures lock { IsTrue result → self.now.qualifier ≡ Lock }
    {
        lo == self.key.stamp && self.key.qualifier == Qualifier::Lock
    }

    /// The hash that an entry of the key is tested by.
    pub(crate) fn entry_number(&self) -> u64
        ensures { result ≡ entry_number self.now.qualifier (text self.now) }
    {
        self.entry
    }
}
