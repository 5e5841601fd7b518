//! Frames out of a stream that comes in pieces.

ghost use Rattle.std.specs.Prelude.{◌≡◌, ◌==◌, ◌≤◌, ◌<◌, ◌+◌, ◌-◌, ◌++◌, ◌⊎◌, [], length, take, drop, min, slice_get, IfNone, IfOk, IfSome, IsOkUnless, Some, ⊤};
ghost use Rattle.std.specs.Borrow.{sem, follows_so};
ghost use Rattle.std.specs.Int.{from_be_bytes, to_be_bytes, w32};
ghost use Rattle.request_codec.specs.Framing.{IsAtFirst, IsReady, HandsOut, longest_frame};
ghost use Rattle.request_codec.specs.Stream.{announced, longest, IsPartial};
ghost use mathlib.Core.Option.{none};

use cell_key::Refusal;
use circular_buffer::HeapCircularBuffer;
use std::alloc::{AllocError, Global};
use std::marker::Model;

/// The most bytes of a frame's body.
pub const LONGEST_BODY: usize = 1_048_576;

/// The most bytes of a frame, the four bytes of its length included.
const LONGEST_FRAME: usize = 1_048_580;

/// The next result of a framer.
#[derive(Clone, Copy)]
pub enum Next<'a> {
    /// No whole frame: more bytes are needed.
    More,
    /// The body of the next frame.
    Frame(&'a [u8]),
    /// The next frame's length is above the limit. The framer gives this result from now on.
    TooLarge,
}

/// The front of a framer's bytes: part of a frame, a whole frame with the length of its body, or a length above the
/// limit.
#[derive(Clone, Copy)]
pub(crate) enum First {
    Part,
    Whole(usize),
    TooLarge,
}

/// A vector of zeros. The size is a parameter, so that no proof computes a list of a million.
fn zeros(alloc: Global, size: usize) -> Result<Vec<u8>, AllocError>
    ensures { IfOk result (λ v. length v.items ≡ size) }
{
    vec![in alloc; 0u8; size]
}

/// The byte at a place.
fn byte_at(ring: &HeapCircularBuffer<u8>, at: usize) -> u8
    requires { at < length ring.now.items }
    ensures { slice_get ring.now.items at ≡ Some result }
{
    match ring.get(at) {
        Some(byte) => *byte,
        None => 0,
    }
}

/// The first four bytes, if there are four.
fn header_of(ring: &HeapCircularBuffer<u8>) -> Option<[u8; 4]>
    ensures some { IfSome result (λ header. take 4 ring.now.items ≡ header) }
    ensures four { IfSome result (λ header. 4 ≤ length ring.now.items) }
    ensures none { IfNone result (length ring.now.items < 4) }
{
    if ring.len() < 4 {
        return None;
    }
    Some([
        byte_at(ring, 0),
        byte_at(ring, 1),
        byte_at(ring, 2),
        byte_at(ring, 3),
    ])
}

/// The length that a header gives.
pub(crate) fn length_in(header: [u8; 4]) -> u32
    ensures value { result ≡ from_be_bytes w32 header }
    ensures spells { to_be_bytes w32 result ≡ header }
    ensures four { length header ≡ 4 }
{
    u32::from_be_bytes(header)
}

/// Moves the body of the first frame, which must be whole, to the front of a buffer.
fn take_body(ring: &mut HeapCircularBuffer<u8>, body: &mut [u8], len: usize)
    requires whole { 4 + len ≤ length ring.old.items }
    requires room { len ≤ length body.old }
    ensures items { ring.new.items ≡ drop (4 + len) ring.old.items }
    ensures body { take len body.new ≡ take len (drop 4 ring.old.items) }
    ensures same { length body.new ≡ length body.old }
    ensures capacity { ring.new.capacity ≡ ring.old.capacity }
{
    let mut header = [0u8; 4];
    let _ = ring.read_into(&mut header);
    let _ = ring.read_into(&mut body[..len]);
}

/// Looks at the front of the ring. A whole frame is removed, and its body moved to the front of the buffer.
fn advance(ring: &mut HeapCircularBuffer<u8>, body: &mut [u8]) -> First
    requires { length body.old ≡ longest }
    ensures first { IsAtFirst result body.new ring.old.items ring.new.items }
    ensures same { length body.new ≡ length body.old }
    ensures capacity { ring.new.capacity ≡ ring.old.capacity }
{
    let Some(header) = header_of(ring) else {
        return First::Part;
    };
    let len = length_in(header) as usize;
    if len > LONGEST_BODY {
        return First::TooLarge;
    }
    if ring.len() < 4 + len {
        return First::Part;
    }
    take_body(ring, body, len);
    First::Whole(len)
}

/// The bytes of a stream that were taken but not yet handed out as frames. There is room for the longest frame.
#[derive(Drop)]
pub struct Framer {
    ring: HeapCircularBuffer<u8>,
    body: Vec<u8>,
}

impl Model for Framer {
    ghost use Rattle.std.specs.Prelude.{◌≡◌, ◌≤◌, List, ℕ, length};
    ghost use Rattle.request_codec.specs.Framing.{longest_frame};
    ghost use Rattle.request_codec.specs.Stream.{longest};

    ghost Value = { List ℕ };

    ghost view = { λ framer. framer.ring.items };

    ghost invariant = { λ framer. (framer.ring.capacity ≡ longest_frame)
        × (length framer.ring.items ≤ longest_frame) × (length framer.body.items ≡ longest) };
}

impl Framer {
    ghost use Rattle.request_codec.specs.contracts.framer.Framer.{the_row};

    /// An empty framer. All its memory is allocated here.
    ///
    /// # Errors
    ///
    /// `NoMemory` if an allocation failed.
    pub fn new(alloc: Global) -> Result<Framer, Refusal>
        ensures empty { IfOk result (λ framer. framer ≡ []) }
        ensures refusal { IsOkUnless result Refusal.NoMemory }
    {
        let ring = HeapCircularBuffer::with_capacity(alloc, LONGEST_FRAME)?;
        let body = zeros(alloc, LONGEST_BODY)?;
        Ok(Framer { ring, body })
    }

    /// Takes bytes from the front of a piece, as far as there is room, and returns their number. That is 0 only for an
    /// empty piece, or if `next` has a frame or TooLarge to return.
    pub fn feed(&mut self, piece: &[u8]) -> usize
        ensures count { result ≡ min (length piece.now) (longest_frame - length self.old) }
        ensures bytes { self.new ≡ self.old ++ take result piece.now }
        ensures taken { result ≡ 0 → (piece.now ≡ []) ⊎ IsReady self.old }
    {
        self.ring.fill_from_slice(piece)
    }

    /// Whether all bytes taken were handed out.
    pub fn is_empty(&self) -> bool
        ensures { result ≡ (length self.now == 0) }
    {
        self.ring.is_empty()
    }

    /// The number of bytes still missing from the first frame's length, or else from its body: at least 1.
    pub fn wanted(&self) -> usize
        ensures some { 1 ≤ result }
        ensures of_length { length self.now < 4 → length self.now + result ≡ 4 }
        ensures of_body { 4 ≤ length self.now → IsPartial self.now
            → length self.now + result ≡ 4 + announced self.now }
    {
        match header_of(&self.ring) {
            Some(header) => {
                let len = 4 + length_in(header) as usize;
                len.saturating_sub(self.ring.len()).max(1)
            }
            None => 4 - self.ring.len(),
        }
    }

    /// The body of the next frame, if a whole one was taken; or that the next frame is too large, or that more bytes
    /// are needed.
    pub fn next(&mut self) -> Next<'_>
        ensures* hands_out { sem 𝓛 (follows_so the_row the_row self.entry.ghost_name none (λ _ _. ⊤)
            (λ left. HandsOut result self.old left)) }
    {
        match advance(&mut self.ring, &mut self.body) {
            First::Part => Next::More,
            First::Whole(len) => Next::Frame(&self.body[..len]),
            First::TooLarge => Next::TooLarge,
        }
    }
}
