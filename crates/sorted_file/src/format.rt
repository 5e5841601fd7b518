//! The formats of files, read and written: head, entries, rows of the index, foot.

ghost use Rattle.std.specs.Int.{w32, to_be_bytes, w64};
ghost use Rattle.std.specs.Prelude.{◌≡◌, IsTrue, ◌↔◌, ◌≢◌, IfSome, IfNone, ◌≤◌, ◌<◌, ◌+◌, ◌^◌, ◌++◌, length, OnOk, IsOkUnless, ℕ, List, ◌-◌, take, drop};
ghost use Rattle.cell_key.specs.Entries.{field, Entry, lent_entry, spelled, entry_len};
ghost use Rattle.cell_key.specs.Keys.{byte_cmp};
ghost use Rattle.std.specs.Option.{option_copied};
ghost use Rattle.std.specs.Ordering.{is_lt};
ghost use Rattle.sorted_file.specs.Index.{row_bytes};
ghost use Rattle.sorted_file.specs.Grammar.{IsNoFile, head, foot_len, most, number_bytes, number_len, foot};

use cell_key::{EntryRef, Refusal, are_same, compare_texts};

/// The length of the head in bytes.
pub(crate) const HEAD: u64 = 8;

/// The length in bytes of a field's length.
pub(crate) const LENGTH: usize = 4;

/// The most bytes in a value.
pub(crate) const MOST_VALUE: usize = 65536;

/// The most bytes in a block of several entries.
pub(crate) const BLOCK_LIMIT: u128 = 4096;

/// The most bytes in a block: one entry with the longest text and the longest value.
pub(crate) const LONGEST_BLOCK: u64 = 73_628;

/// The formats of a file. They differ in the head and in the size of a number in index and foot: four bytes in format
/// 1, eight in format 2. Both are read; format 2 is written.
#[derive(Clone, Copy, PartialEq, Eq)]
pub enum Format {
    One,
    Two,
}

impl Format {
    /// The head of a file.
    pub(crate) fn head(self) -> &'static [u8]
        ensures { result.now ≡ head self }
    {
        match self {
            Format::One => b"TABLET01",
            Format::Two => b"TABLET02",
        }
    }

    /// The length of the foot in bytes.
    pub(crate) fn foot_len(self) -> u64
        ensures { result ≡ foot_len self }
    {
        match self {
            Format::One => 24,
            Format::Two => 40,
        }
    }

    /// Whether a file of this format can have this size.
    pub(crate) fn allows(self, size: u64) -> bool
        ensures { IsTrue result ↔ ((8 + foot_len self ≤ size) × (size < most self)) }
    {
        match self {
            Format::One => size >= 32 && size <= u32::MAX as u64,
            Format::Two => size >= 48,
        }
    }
}

/// The format with this head.
pub(crate) fn format_of(bytes: &[u8]) -> Option<Format>
    ensures found { IfSome result (λ format. bytes.now ≡ head format) }
    ensures none { IfNone result ((format : Format) → bytes.now ≢ head format) }
{
    if are_same(bytes, Format::One.head()) {
        return Some(Format::One);
    }
    if are_same(bytes, Format::Two.head()) {
        return Some(Format::Two);
    }
    None
}

/// Whether a text is below another.
pub(crate) fn is_below(first: &[u8], second: &[u8]) -> bool
    ensures { result ≡ is_lt (byte_cmp first.now second.now) }
{
    compare_texts(first, second).is_lt()
}

/// The four-byte number at the front, and the bytes behind it.
fn read_short(bytes: &[u8]) -> Option<(u32, &[u8])>
    ensures found { IfSome result (λ p. bytes.now ≡ to_be_bytes w32 p.0 ++ p.1.now) }
    ensures fits { IfSome result (λ p. p.0 < 2 ^ 32) }
    ensures none { IfNone result (length bytes.now < 4) }
{
    if bytes.len() < 4 {
        return None;
    }
    let (number, rest) = bytes.split_at(4);
    Some((
        u32::from_be_bytes([number[0], number[1], number[2], number[3]]),
        rest,
    ))
}

/// Appends a four-byte number.
fn push_short(out: &mut Vec<u8>, number: u32) -> Result<(), Refusal>
    ensures ok { OnOk result (out.new.items ≡ out.old.items ++ to_be_bytes w32 number) }
    ensures memory { IsOkUnless result Refusal.NoMemory }
{
    out.extend_from_slice(&number.to_be_bytes())?;
    Ok(())
}

/// The eight-byte number at the front, and the bytes behind it.
fn read_long(bytes: &[u8]) -> Option<(u64, &[u8])>
    ensures found { IfSome result (λ p. bytes.now ≡ to_be_bytes w64 p.0 ++ p.1.now) }
    ensures fits { IfSome result (λ p. p.0 < 2 ^ 64) }
    ensures none { IfNone result (length bytes.now < 8) }
{
    if bytes.len() < 8 {
        return None;
    }
    let (number, rest) = bytes.split_at(8);
    Some((
        u64::from_be_bytes([
            number[0], number[1], number[2], number[3], number[4], number[5], number[6], number[7],
        ]),
        rest,
    ))
}

/// The number of an index or foot at the front, and the bytes behind it.
fn read_number(format: Format, bytes: &[u8]) -> Option<(u64, &[u8])>
    ensures found { IfSome result (λ p. bytes.now ≡ number_bytes format p.0 ++ p.1.now) }
    ensures fits { IfSome result (λ p. p.0 < most format) }
    ensures none { IfNone result (length bytes.now < number_len format) }
{
    match format {
        Format::One => {
            let (number, rest) = read_short(bytes)?;
            Some((number as u64, rest))
        }
        Format::Two => read_long(bytes),
    }
}

/// Appends a number of an index or foot.
pub(crate) fn push_number(out: &mut Vec<u8>, format: Format, number: u64) -> Result<(), Refusal>
    requires { number < most format }
    ensures ok { OnOk result (out.new.items ≡ out.old.items ++ number_bytes format number) }
    ensures memory { IsOkUnless result Refusal.NoMemory }
{
    match format {
        Format::One => push_short(out, number as u32),
        Format::Two => {
            out.extend_from_slice(&number.to_be_bytes())?;
            Ok(())
        }
    }
}

/// The field at the front (a length and that many bytes), and the bytes behind it.
fn read_field(bytes: &[u8]) -> Option<(&[u8], &[u8])>
    ensures found { IfSome result (λ p. bytes.now ≡ field p.0.now ++ p.1.now) }
    ensures short { IfSome result (λ p. length p.0.now < 2 ^ 32) }
    ensures none { IfNone result ((part rest : List ℕ) → length part < 2 ^ 32
        → bytes.now ≢ field part ++ rest) }
{
    let (len, rest) = read_short(bytes)?;
    if rest.len() < len as usize {
        return None;
    }
    Some(rest.split_at(len as usize))
}

/// Appends a length and that many bytes.
pub(crate) fn push_field(out: &mut Vec<u8>, bytes: &[u8]) -> Result<(), Refusal>
    requires { length bytes.now < 2 ^ 32 }
    ensures ok { OnOk result (out.new.items ≡ out.old.items ++ field bytes.now) }
    ensures memory { IsOkUnless result Refusal.NoMemory }
{
    push_short(out, bytes.len() as u32)?;
    out.extend_from_slice(bytes)?;
    Ok(())
}

/// The entry at the front, and the bytes behind it.
pub(crate) fn read_entry(bytes: &[u8]) -> Option<(EntryRef<'_>, &[u8])>
    ensures found { IfSome result (λ p. bytes.now ≡ spelled (lent_entry p.0) ++ p.1.now) }
    ensures none { IfNone result (length bytes.now < 2 ^ 32 → (entry : Entry) (rest : List ℕ)
        → bytes.now ≢ spelled entry ++ rest) }
{
    let (key, rest) = read_field(bytes)?;
    let (kind, after) = rest.split_first()?;
    if *kind == 0 {
        return Some((EntryRef { key, value: None }, after));
    }
    if *kind != 1 {
        return None;
    }
    let (value, end) = read_field(after)?;
    let value = Some(value);
    Some((EntryRef { key, value }, end))
}

/// Appends the bytes of an entry.
pub(crate) fn push_entry(out: &mut Vec<u8>, entry: EntryRef<'_>) -> Result<(), Refusal>
    requires { entry_len (lent_entry entry) < 2 ^ 32 }
    ensures ok { OnOk result (out.new.items ≡ out.old.items ++ spelled (lent_entry entry.entry)) }
    ensures memory { IsOkUnless result Refusal.NoMemory }
{
    push_field(out, entry.key)?;
    match entry.value {
        Some(value) => {
            out.push(1)?;
            push_field(out, value)?;
        }
        None => out.push(0)?,
    }
    Ok(())
}

/// The length of an entry in a file, in bytes.
pub(crate) fn spelled_len(entry: EntryRef<'_>) -> u128
    ensures { result ≡ entry_len (lent_entry entry.entry) }
{
    let text = 4 + entry.key.len() as u128;
    match entry.value {
        Some(value) => text + 5 + value.len() as u128,
        None => text + 1,
    }
}

/// Whether the value isn't longer than a value may be; true for an erasure.
pub(crate) fn is_short(value: Option<&[u8]>) -> bool
    ensures { IsTrue result
        ↔ IfSome (option_copied value.entry) (λ bytes. length bytes ≤ 65536) }
{
    match value {
        Some(bytes) => bytes.len() <= MOST_VALUE,
        None => true,
    }
}

/// A borrowed row of the index.
#[derive(Clone, Copy)]
pub(crate) struct RowRef<'a> {
    pub(crate) offset: u64,
    pub(crate) length: u64,
    pub(crate) first: &'a [u8],
}

/// The row at the front, and the bytes behind it.
pub(crate) fn read_row(format: Format, bytes: &[u8]) -> Option<(RowRef<'_>, &[u8])>
    ensures found { IfSome result (λ p. bytes.now ≡ row_bytes format p.0 ++ p.1.now) }
    ensures offset { IfSome result (λ p. p.0.offset < most format) }
    ensures length { IfSome result (λ p. p.0.length < most format) }
    ensures first { IfSome result (λ p. length p.0.first.now < 2 ^ 32) }
    ensures none { IfNone result ((offset len : ℕ) (first rest : List ℕ) → length first < 2 ^ 32
        → bytes.now ≢ number_bytes format offset
        ++ (number_bytes format len ++ (field first ++ rest))) }
{
    let (offset, after_offset) = read_number(format, bytes)?;
    let (length, after_length) = read_number(format, after_offset)?;
    let (first, rest) = read_field(after_length)?;
    let row = RowRef {
        offset,
        length,
        first,
    };
    Some((row, rest))
}

/// The offset of the index, read from the foot of a file of this size.
pub(crate) fn index_offset(format: Format, foot: &[u8], size: u64) -> Option<u64>
    requires foot { length foot.now ≡ foot_len format }
    requires size { 8 + foot_len format ≤ size }
    ensures named { IfSome result (λ at. (numbers : List ℕ)
        × (foot.now ≡ number_bytes format at ++ numbers)) }
    ensures from { IfSome result (λ at. 8 ≤ at) }
    ensures to { IfSome result (λ at. at + foot_len format ≤ size) }
    ensures none { IfNone result ((image : List ℕ) → length image ≡ size
        → take 8 image ≡ head format
        → foot.now ≡ drop (length image - foot_len format) image → IsNoFile image) }
{
    let (at, _) = read_number(format, foot)?;
    if at < HEAD || at > size - format.foot_len() {
        return None;
    }
    Some(at)
}

/// Appends the foot.
pub(crate) fn push_foot(
    out: &mut Vec<u8>,
    format: Format,
    index_at: u64,
    blocks: u64,
    entries: u64,
    size: u64,
) -> Result<(), Refusal>
    requires index_at { index_at < most format }
    requires blocks { blocks < most format }
    requires entries { entries < most format }
    requires size { size < most format }
    ensures ok { OnOk result (out.new.items
        ≡ out.old.items ++ foot format index_at blocks entries size) }
    ensures memory { IsOkUnless result Refusal.NoMemory }
{
    push_number(out, format, index_at)?;
    push_number(out, format, blocks)?;
    push_number(out, format, entries)?;
    push_number(out, format, size)?;
    out.extend_from_slice(b"TABLETZZ")?;
    Ok(())
}
