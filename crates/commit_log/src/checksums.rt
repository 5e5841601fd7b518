//! The checksum CRC-32 of bytes.

ghost use Rattle.std.specs.Prelude.{◌≡◌, ◌<◌, ◌++◌, fold};
ghost use Rattle.commit_log.specs.Crc32.{crc32, next_byte, shifted};

/// A table that has, at each index, the `^` of those of the numbers whose bit in the index is 1, the lowest bit first.
macro_rules! spanned {
    ([$($sum:expr),*]) => { [$($sum),*] };
    ([$($sum:expr),*] $next:literal $($more:literal)*) => {
        spanned!([$($sum,)* $($sum ^ $next),*] $($more)*)
    };
}

/// The CRC of each byte with 0 to 7 bytes 0 behind it, without the initial and final inversion. Each table is made of
/// those of the bytes 1, 2, 4 and so on to 128.
const TABLES: [[u32; 256]; 8] = [
    spanned!([0]
        0x7707_3096 0xEE0E_612C 0x076D_C419 0x0EDB_8832
        0x1DB7_1064 0x3B6E_20C8 0x76DC_4190 0xEDB8_8320),
    spanned!([0]
        0x191B_3141 0x3236_6282 0x646C_C504 0xC8D9_8A08
        0x4AC2_1251 0x9584_24A2 0xF079_4F05 0x3B83_984B),
    spanned!([0]
        0x01C2_6A37 0x0384_D46E 0x0709_A8DC 0x0E13_51B8
        0x1C26_A370 0x384D_46E0 0x709A_8DC0 0xE135_1B80),
    spanned!([0]
        0xB8BC_6765 0xAA09_C88B 0x8F62_9757 0xC5B4_28EF
        0x5019_579F 0xA032_AF3E 0x9B14_583D 0xED59_B63B),
    spanned!([0]
        0x3D60_29B0 0x7AC0_5360 0xF580_A6C0 0x3070_4BC1
        0x60E0_9782 0xC1C1_2F04 0x58F3_5849 0xB1E6_B092),
    spanned!([0]
        0xCB5C_D3A5 0x4DC8_A10B 0x9B91_4216 0xEC53_826D
        0x03D6_029B 0x07AC_0536 0x0F58_0A6C 0x1EB0_14D8),
    spanned!([0]
        0xA677_0BB4 0x979F_1129 0xF44F_2413 0x33EF_4E67
        0x67DE_9CCE 0xCFBD_399C 0x440B_7579 0x8816_EAF2),
    spanned!([0]
        0xCCAA_009E 0x4225_077D 0x844A_0EFA 0xD3E5_1BB5
        0x7CBB_312B 0xF976_6256 0x299D_C2ED 0x533B_85DA),
];

/// The tables' CRC of a byte with some bytes 0 behind it.
fn shifted(byte: u8, zeros: usize) -> u32
    requires { zeros < 8 }
    ensures { result ≡ shifted zeros byte }
{
    TABLES[zeros][byte as usize]
}

/// The checksum after one more byte.
fn next_byte(sum: u32, byte: u8) -> u32
    ensures { result ≡ next_byte sum byte }
{
    (sum / 256) ^ shifted((sum % 256) as u8 ^ byte, 0)
}

/// The checksum after eight more bytes.
fn next_eight(sum: u32, bytes: &[u8; 8]) -> u32
    ensures { result ≡ fold next_byte sum bytes.now }
{
    let front = u32::from_le_bytes([bytes[0], bytes[1], bytes[2], bytes[3]]);
    let [first, second, third, fourth] = (front ^ sum).to_le_bytes();
    shifted(first, 7)
        ^ shifted(second, 6)
        ^ shifted(third, 5)
        ^ shifted(fourth, 4)
        ^ shifted(bytes[4], 3)
        ^ shifted(bytes[5], 2)
        ^ shifted(bytes[6], 1)
        ^ shifted(bytes[7], 0)
}

/// The checksum after a few more bytes.
fn next_few(sum: u32, bytes: &[u8]) -> u32
    ensures { result ≡ fold next_byte sum bytes.now }
{
    let mut next = sum;
    for byte in bytes {
        next = next_byte(next, *byte);
    }
    next
}

/// The checksum after more bytes.
fn next_bytes(sum: u32, bytes: &[u8]) -> u32
    ensures { result ≡ fold next_byte sum bytes.now }
{
    let (eights, few) = bytes.as_chunks::<8>();
    let mut next = sum;
    for eight in eights {
        next = next_eight(next, eight);
    }
    next_few(next, few)
}

/// The CRC-32 of two runs of bytes, joined.
pub fn crc32(front: &[u8], behind: &[u8]) -> u32
    ensures { result ≡ crc32 (front.now ++ behind.now) }
{
    !next_bytes(next_bytes(u32::MAX, front), behind)
}
