//! The frames of a recording.

ghost use Rattle.std.specs.Prelude.{◌≡◌, ◌≤◌, IfErr, IfOk, Some};
ghost use Rattle.std.specs.Int.{from_be_bytes, to_be_bytes, w32};
ghost use Rattle.tablet_audit.specs.Frames.{IsFlawed, Splits};
ghost use Rattle.tablet_audit.specs.Flaws.{flaw_text};

use std::fmt;

/// A flaw of a frame in a recording.
#[derive(Clone, Copy, Debug, PartialEq, Eq)]
pub enum Flaw {
    /// The file has no such frame.
    Missing,
    /// The file ends within the frame.
    Cut,
    /// The frame is outside the grammar.
    OutsideGrammar,
}

/// The length that a header gives.
fn length_in(header: [u8; 4]) -> u32
    ensures value { result ≡ from_be_bytes w32 header }
    ensures spells { to_be_bytes w32 result ≡ header }
{
    u32::from_be_bytes(header)
}

/// The body of the first frame, which may have at most `most` bytes, and the bytes after the frame.
pub fn first_frame(bytes: &[u8], most: usize) -> Result<(&[u8], &[u8]), Flaw>
    ensures ok { IfOk result (λ p. Splits most bytes.now p.0.now p.1.now) }
    ensures err { IfErr result (λ flaw. IsFlawed most bytes.now flaw) }
{
    if bytes.is_empty() {
        return Err(Flaw::Missing);
    }
    let Some((header, after)) = bytes.split_first_chunk::<4>() else {
        return Err(Flaw::Cut);
    };
    let length = length_in(*header) as usize;
    if length > most {
        return Err(Flaw::OutsideGrammar);
    }
    let Some((body, rest)) = after.split_at_checked(length) else {
        return Err(Flaw::Cut);
    };
    Ok((body, rest))
}

impl fmt::Display for Flaw {
    ghost output = { λ flaw. Some (flaw_text flaw) };

    fn fmt<W: fmt::Write>(&self, f: &mut fmt::Formatter<W>) -> fmt::Result {
        match self {
            Flaw::Missing => write!(f, "is missing"),
            Flaw::Cut => write!(f, "is cut"),
            Flaw::OutsideGrammar => write!(f, "is outside the grammar"),
        }
    }
}
