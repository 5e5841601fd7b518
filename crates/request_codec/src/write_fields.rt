//! Encoding of fields at the end of a buffer that has room.
ghost use Rattle.std.specs.Prelude.{◌+◌, ◌∷◌, [], length};
ghost use Rattle.si_model.specs.Reads.{cell_of};
ghost use Rattle.request_codec.specs.Buffers.{HasRoomFor, AppendsBytes};
ghost use Rattle.request_codec.specs.Fields.{number, field, cell_fields, qualifier_number, FitsField};

use crate::qualifiers::number_of;
use byteorder::{BigEndian, ByteOrder};
use cell_key::Qualifier;

/// Appends a byte.
pub(crate) fn push_byte(out: &mut Vec<u8>, byte: u8)
    requires { HasRoomFor out.old 1 }
    ensures { AppendsBytes out.old out.new (byte ∷ []) }
{
    out.push(byte).unwrap();
}

/// Appends bytes.
pub(crate) fn push_bytes(out: &mut Vec<u8>, bytes: &[u8])
    requires { HasRoomFor out.old (length bytes.now) }
    ensures { AppendsBytes out.old out.new bytes.now }
{
    out.extend_from_slice(bytes).unwrap();
}

/// Appends a number of one byte.
#[tactic(auto, unfolding(crate::specs::Fields::number))]
pub(crate) fn push_u8(out: &mut Vec<u8>, n: u8)
    requires { HasRoomFor out.old 1 }
    ensures { AppendsBytes out.old out.new (number 1 n) }
{
    push_byte(out, n);
}

/// Appends a number of two bytes.
#[tactic(auto, unfolding(crate::specs::Fields::number))]
pub(crate) fn push_u16(out: &mut Vec<u8>, n: u16)
    requires { HasRoomFor out.old 2 }
    ensures { AppendsBytes out.old out.new (number 2 n) }
{
    let mut bytes = [0; 2];
    BigEndian::write_u16(&mut bytes, n);
    push_bytes(out, &bytes);
}

/// Appends a number of four bytes.
#[tactic(auto, unfolding(crate::specs::Fields::number))]
pub(crate) fn push_u32(out: &mut Vec<u8>, n: u32)
    requires { HasRoomFor out.old 4 }
    ensures { AppendsBytes out.old out.new (number 4 n) }
{
    let mut bytes = [0; 4];
    BigEndian::write_u32(&mut bytes, n);
    push_bytes(out, &bytes);
}

/// Appends a number of eight bytes.
#[tactic(auto, unfolding(crate::specs::Fields::number))]
pub(crate) fn push_u64(out: &mut Vec<u8>, n: u64)
    requires { HasRoomFor out.old 8 }
    ensures { AppendsBytes out.old out.new (number 8 n) }
{
    let mut bytes = [0; 8];
    BigEndian::write_u64(&mut bytes, n);
    push_bytes(out, &bytes);
}

/// Appends a length and that many bytes.
#[tactic(auto, using(crate::proofs::Fields::lengths), unfolding(crate::specs::Fields::field))]
pub(crate) fn push_field(out: &mut Vec<u8>, bytes: &[u8])
    requires fits { FitsField bytes.now }
    requires room { HasRoomFor out.old (length bytes.now + 4) }
    ensures { AppendsBytes out.old out.new (field bytes.now) }
{
    push_u32(out, bytes.len() as u32);
    push_bytes(out, bytes);
}

/// Appends the row and the family of a cell.
#[tactic(auto, using(crate::proofs::Fields::lengths), unfolding(crate::specs::Fields::cell_fields))]
pub(crate) fn push_cell(out: &mut Vec<u8>, row: &[u8], family: &[u8])
    requires row { FitsField row.now }
    requires family { FitsField family.now }
    requires room { HasRoomFor out.old (length row.now + length family.now + 8) }
    ensures { AppendsBytes out.old out.new (cell_fields (cell_of row.now family.now)) }
{
    push_field(out, row);
    push_field(out, family);
}

/// Appends the number of a qualifier.
pub(crate) fn push_qualifier(out: &mut Vec<u8>, qualifier: Qualifier)
    requires { HasRoomFor out.old 1 }
    ensures { AppendsBytes out.old out.new (number 1 (qualifier_number qualifier)) }
{
    push_u8(out, number_of(qualifier));
}
