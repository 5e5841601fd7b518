//! Whole frames within a piece of a stream.

ghost use Rattle.std.specs.Prelude.{◌≡◌, ◌++◌, IfNone, IfSome};
ghost use Rattle.request_codec.specs.Stream.{BeginsNoFrame, IsBody, frame};

use crate::framer::{LONGEST_BODY, length_in};

/// The body of the first frame of these bytes, and the bytes after the frame. `None` if they don't begin with a whole
/// frame whose body has at most 1,048,576 bytes. Nothing is copied.
pub fn split_frame(bytes: &[u8]) -> Option<(&[u8], &[u8])>
    ensures some { IfSome result (λ p. IsBody p.0.now × (bytes.now ≡ frame p.0.now ++ p.1.now)) }
    ensures none { IfNone result (BeginsNoFrame bytes.now) }
{
    let (header, after) = bytes.split_first_chunk::<4>()?;
    let len = length_in(*header) as usize;
    if len > LONGEST_BODY {
        return None;
    }
    let (body, rest) = after.split_at_checked(len)?;
    Some((body, rest))
}
