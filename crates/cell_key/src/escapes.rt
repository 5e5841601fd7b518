//! Escaping each byte 0, and appending bytes to a buffer with room for them.

ghost use Rattle.std.specs.Prelude.{◌≡◌, ◌+◌, ◌*◌, ◌≤◌, ◌<◌, ◌++◌, ◌∷◌, [], length, vec_len, vec_capacity};
ghost use Rattle.cell_key.specs.Texts.{escaped};

/// The most bytes that are escaped at once.
const MOST_ESCAPED: usize = 4000;

/// How many bytes are tested at once.
const CHUNK: usize = 32;

/// 32 zeros, escaped.
const ESCAPED_ZEROS: &[u8] = b"\0\xFF\0\xFF\0\xFF\0\xFF\0\xFF\0\xFF\0\xFF\0\xFF\
    \0\xFF\0\xFF\0\xFF\0\xFF\0\xFF\0\xFF\0\xFF\0\xFF\0\xFF\0\xFF\0\xFF\0\xFF\
    \0\xFF\0\xFF\0\xFF\0\xFF\0\xFF\0\xFF\0\xFF\0\xFF\0\xFF\0\xFF\0\xFF\0\xFF";

/// How many of a few bytes are 0. Escaping adds this many bytes.
fn zero_count(chunk: &[u8]) -> u8
    requires { length chunk.now ≤ CHUNK }
    ensures length { length (escaped chunk.now) ≡ length chunk.now + result }
    ensures bound { result ≤ length chunk.now }
{
    let mut count = 0;
    for byte in chunk {
        count += if *byte == 0 { 1 } else { 0 };
    }
    count
}

/// The length of the bytes when they are escaped.
pub(crate) fn escaped_len(bytes: &[u8]) -> usize
    requires { length bytes.now ≤ MOST_ESCAPED }
    ensures length { result ≡ length (escaped bytes.now) }
    ensures bound { result ≤ 2 * length bytes.now }
{
    if !bytes.contains(&0) {
        return bytes.len();
    }
    let mut len = bytes.len();
    let mut left = bytes;
    'chunks: while !left.is_empty() {
        let (chunk, rest) = left.split_at(left.len().min(CHUNK));
        len += usize::from(zero_count(chunk));
        left = rest;
    }
    len
}

/// Appends bytes.
pub(crate) fn push_bytes(out: &mut Vec<u8>, bytes: &[u8])
    requires { vec_len out.old + length bytes.now ≤ vec_capacity out.old }
    ensures items { out.new.items ≡ out.old.items ++ bytes.now }
    ensures len { vec_len out.new ≡ vec_len out.old + length bytes.now }
    ensures room { vec_capacity out.old ≤ vec_capacity out.new }
{
    out.extend_from_slice(bytes).unwrap();
}

/// Appends bytes one by one, with each 0 escaped as 0 and 255.
fn push_each(out: &mut Vec<u8>, bytes: &[u8])
    requires { vec_len out.old + length (escaped bytes.now) ≤ vec_capacity out.old }
    ensures items { out.new.items ≡ out.old.items ++ escaped bytes.now }
    ensures len { vec_len out.new ≡ vec_len out.old + length (escaped bytes.now) }
    ensures room { vec_capacity out.old ≤ vec_capacity out.new }
{
    for byte in bytes {
        out.push_reserved(*byte);
        if *byte == 0 {
            out.push_reserved(255);
        }
    }
}

/// Appends a few bytes, with each 0 escaped as 0 and 255. Bytes without a 0, and zeros alone, are copied at once.
fn push_chunk(out: &mut Vec<u8>, chunk: &[u8])
    requires few { length chunk.now ≤ CHUNK }
    requires room { vec_len out.old + length (escaped chunk.now) ≤ vec_capacity out.old }
    ensures items { out.new.items ≡ out.old.items ++ escaped chunk.now }
    ensures len { vec_len out.new ≡ vec_len out.old + length (escaped chunk.now) }
    ensures room { vec_capacity out.old ≤ vec_capacity out.new }
{
    let zeros = usize::from(zero_count(chunk));
    if zeros == 0 {
        push_bytes(out, chunk);
    } else if zeros == chunk.len() {
        push_bytes(out, ESCAPED_ZEROS.split_at(2 * zeros).0);
    } else {
        push_each(out, chunk);
    }
}

/// Appends bytes, with each 0 escaped as 0 and 255; `len` is the escaped length.
pub(crate) fn push_escaped(out: &mut Vec<u8>, bytes: &[u8], len: usize)
    requires len { len ≡ length (escaped bytes.now) }
    requires room { vec_len out.old + length (escaped bytes.now) ≤ vec_capacity out.old }
    ensures items { out.new.items ≡ out.old.items ++ escaped bytes.now }
    ensures len { vec_len out.new ≡ vec_len out.old + length (escaped bytes.now) }
    ensures room { vec_capacity out.old ≤ vec_capacity out.new }
{
    if len == bytes.len() {
        push_bytes(out, bytes);
        return;
    }
    let mut left = bytes;
    'chunks: while !left.is_empty() {
        let (chunk, rest) = left.split_at(left.len().min(CHUNK));
        push_chunk(out, chunk);
        left = rest;
    }
}
