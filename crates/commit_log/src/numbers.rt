//! Numbers in eight bytes, the highest first.

ghost use Rattle.std.specs.Prelude.{◌≡◌, ◌<◌, ◌++◌, length, IfNone, IfSome};
ghost use Rattle.commit_log.specs.Records.{spelled_number};

/// The bytes of a number.
pub(crate) const NUMBER: usize = 8;

/// The number encoded in eight bytes.
pub(crate) fn number_in(bytes: [u8; 8]) -> u64
    ensures { spelled_number result ≡ bytes }
{
    u64::from_be_bytes(bytes)
}

/// A number as eight bytes.
pub(crate) fn number_bytes(number: u64) -> [u8; 8]
    ensures { result ≡ spelled_number number }
{
    number.to_be_bytes()
}

/// The number at the front of bytes, and the bytes after it.
pub(crate) fn split_number(bytes: &[u8]) -> Option<(u64, &[u8])>
    ensures found { IfSome result (λ p. bytes.now ≡ spelled_number p.0 ++ p.1.now) }
    ensures none { IfNone result (length bytes.now < 8) }
{
    let (number, rest) = bytes.split_first_chunk::<8>()?;
    Some((number_in(*number), rest))
}
