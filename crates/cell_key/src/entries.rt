//! Borrowed entries of a memtable or a file.

/// A borrowed entry of a memtable or a file: the text of its key, and its value, or `None` for an erasure.
#[derive(Clone, Copy, Debug)]
pub struct EntryRef<'a> {
    /// The text of the key.
    pub key: &'a [u8],
    /// The value; `None` for an erasure.
    pub value: Option<&'a [u8]>,
}
