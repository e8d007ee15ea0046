//! The fields of a block, by the bytes of an index and a length.

ghost use Rattle.std.specs.Prelude.{◌≡◌, ◌+◌, ◌*◌, ◌<◌, ◌≤◌, ◌^◌, length};
ghost use Rattle.un_frame.specs.Bytes.{number_at};
ghost use Rattle.un_frame.specs.Ntb.{is_crc_signature, signature_number};
ghost use Rattle.un_ntb.specs.Formats.{format_of};

use byteorder::{ByteOrder, LittleEndian};

/// The most tables that a block may have.
pub const MOST_TABLES: usize = 32;

/// The bytes of an index or a length.
pub fn width<const WIDTH: usize>() -> usize
    ensures value { result ≡ (format_of WIDTH).width }
    ensures range { (2 ≤ result) × (result ≤ 4) }
{
    if WIDTH == 2 { 2 } else { 4 }
}

/// The bytes of a block's header (wHeaderLength).
pub fn header<const WIDTH: usize>() -> usize
    ensures value { result ≡ (format_of WIDTH).header }
    ensures fields { result ≡ 8 + 2 * (format_of WIDTH).width }
    ensures range { (12 ≤ result) × (result ≤ 16) }
{
    if WIDTH == 2 { 12 } else { 16 }
}

/// The place of the first table's index (wNdpIndex, dwNdpIndex) in a header.
pub fn ndp_index<const WIDTH: usize>() -> usize
    ensures value { result ≡ (format_of WIDTH).ndp_index }
    ensures inside { result + (format_of WIDTH).width ≡ (format_of WIDTH).header }
    ensures range { result ≤ 12 }
{
    if WIDTH == 2 { 10 } else { 12 }
}

/// The bytes of a table before its pairs.
pub fn head<const WIDTH: usize>() -> usize
    ensures value { result ≡ (format_of WIDTH).head }
    ensures range { (8 ≤ result) × (result ≤ 16) }
{
    if WIDTH == 2 { 8 } else { 16 }
}

/// The place of the next table's index (wNextNdpIndex, dwNextNdpIndex) in a table.
pub fn next_ndp_index<const WIDTH: usize>() -> usize
    ensures value { result ≡ (format_of WIDTH).next_ndp_index }
    ensures inside { result + (format_of WIDTH).width ≤ (format_of WIDTH).head }
    ensures range { (6 ≤ result) × (result ≤ 8) }
{
    if WIDTH == 2 { 6 } else { 8 }
}

/// The bytes of a pair: a datagram's index and length (wDatagramIndex, wDatagramLength, or dw).
pub fn pair<const WIDTH: usize>() -> usize
    ensures value { result ≡ (format_of WIDTH).pair }
    ensures fields { result ≡ 2 * (format_of WIDTH).width }
    ensures range { (4 ≤ result) × (result ≤ 8) }
{
    if WIDTH == 2 { 4 } else { 8 }
}

/// The signature of a block's header.
pub fn block_signature<const WIDTH: usize>() -> [u8; 4]
    ensures { result ≡ (format_of WIDTH).signature }
{
    if WIDTH == 2 { *b"NCMH" } else { *b"ncmh" }
}

/// The signature of a table.
pub fn table_signature<const WIDTH: usize>() -> [u8; 4]
    ensures { result ≡ (format_of WIDTH).table_signature }
{
    if WIDTH == 2 { *b"NCM0" } else { *b"ncm0" }
}

/// Whether this is the signature of a table whose datagrams end in a check value, in either format.
pub fn is_checked(signature: u32) -> bool
    ensures { result ≡ is_crc_signature signature }
{
    signature == u32::from_le_bytes(*b"NCM1") || signature == u32::from_le_bytes(*b"ncm1")
}

/// The index, length or size at a place.
#[tactic(auto, unfolding(un_frame::specs::Bytes::number_at))]
pub fn number<const WIDTH: usize>(block: &[u8], at: usize) -> usize
    requires { at + (format_of WIDTH).width ≤ length block.now }
    ensures value { result ≡ number_at (format_of WIDTH).width block.now at }
    ensures bound { result < 2 ^ 32 }
{
    if WIDTH == 2 {
        LittleEndian::read_u16(&block[at..]) as usize
    } else {
        LittleEndian::read_u32(&block[at..]) as usize
    }
}

/// The field of 16 bits at a place, which a length of a header or a table is in either format.
#[tactic(auto, unfolding(un_frame::specs::Bytes::number_at))]
pub fn short(block: &[u8], at: usize) -> usize
    requires { at + 2 ≤ length block.now }
    ensures value { result ≡ number_at 2 block.now at }
    ensures bound { result < 65536 }
{
    LittleEndian::read_u16(&block[at..]) as usize
}

/// The signature at a place, as a number.
#[tactic(auto, unfolding(un_frame::specs::Bytes::number_at))]
pub fn signature(block: &[u8], at: usize) -> u32
    requires { at + 4 ≤ length block.now }
    ensures { result ≡ number_at 4 block.now at }
{
    LittleEndian::read_u32(&block[at..])
}
