//! The header of a packet, and the fields in it (EEM 1.0, 5.1).

ghost use Rattle.std.specs.Prelude.{◌≡◌, ◌+◌, ◌≤◌, ◌<◌, length};
ghost use Rattle.un_frame.specs.Bytes.{number_at};
ghost use Rattle.un_frame.specs.Eem.{command_code, command_parameter, echo_length, is_data, packet_size};

use byteorder::{ByteOrder, LittleEndian};

/// The bytes of a header.
pub const HEADER: usize = 2;

/// What stands in place of a check value where bit 14 of a data packet's header is 0.
pub const SENTINEL: [u8; 4] = [0xde, 0xad, 0xbe, 0xef];

/// The header at a place.
#[tactic(auto, unfolding(un_frame::specs::Bytes::number_at))]
pub fn header_at(bytes: &[u8], at: usize) -> u16
    requires { at + 2 ≤ length bytes.now }
    ensures { result ≡ number_at 2 bytes.now at }
{
    LittleEndian::read_u16(&bytes[at..])
}

/// Whether a packet is data.
pub fn is_data(header: u16) -> bool
    ensures { result ≡ Rattle.un_frame.specs.Eem.is_data header }
{
    header < 0x8000 && header != 0
}

/// Bits 13 to 11 of a command's header.
pub fn command_code(header: u16) -> u8
    ensures { result ≡ Rattle.un_frame.specs.Eem.command_code header }
{
    (header / 0x0800 % 8) as u8
}

/// Bits 10 to 0 of a command's header.
pub fn command_parameter(header: u16) -> u16
    ensures { result ≡ Rattle.un_frame.specs.Eem.command_parameter header }
{
    header % 0x0800
}

/// How many bytes follow a command's header.
pub fn echo_length(header: u16) -> usize
    ensures length { result ≡ Rattle.un_frame.specs.Eem.echo_length header }
    ensures most { result < 2048 }
{
    if header / 0x4000 % 2 == 0 && command_code(header) < 2 {
        command_parameter(header) as usize
    } else {
        0
    }
}

/// How many bytes a packet has.
pub fn packet_size(header: u16) -> usize
    ensures size { result ≡ Rattle.un_frame.specs.Eem.packet_size header }
    ensures least { 2 ≤ result }
    ensures most { result < 65536 }
{
    if header < 0x8000 {
        if header == 0 {
            HEADER
        } else {
            (header % 0x4000) as usize + HEADER
        }
    } else {
        echo_length(header) + HEADER
    }
}
