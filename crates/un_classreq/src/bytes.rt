//! Numbers as bytes, the lowest first (USB 2.0, 8.1).

ghost use Rattle.std.specs.Prelude.{◌≡◌, ◌++◌, OnOk};
ghost use Rattle.un_frame.specs.Bytes.{number_bytes};

use byteorder::{ByteOrder, LittleEndian};
use std::alloc::AllocError;

/// The two bytes of a number.
#[tactic(auto, unfolding(un_frame::specs::Bytes::number_bytes))]
pub fn short(number: u16) -> [u8; 2]
    ensures { result ≡ number_bytes 2 number }
{
    let mut bytes = [0u8; 2];
    LittleEndian::write_u16(&mut bytes, number);
    bytes
}

/// The four bytes of a number.
#[tactic(auto, unfolding(un_frame::specs::Bytes::number_bytes))]
pub fn long(number: u32) -> [u8; 4]
    ensures { result ≡ number_bytes 4 number }
{
    let mut bytes = [0u8; 4];
    LittleEndian::write_u32(&mut bytes, number);
    bytes
}

/// Appends a number of 16 bits.
pub fn push_short(bytes: &mut Vec<u8>, number: u16) -> Result<(), AllocError>
    ensures { OnOk result (bytes.new.items ≡ bytes.old.items ++ number_bytes 2 number) }
{
    bytes.extend_from_slice(&short(number))
}

/// Appends a number of 32 bits.
pub fn push_long(bytes: &mut Vec<u8>, number: u32) -> Result<(), AllocError>
    ensures { OnOk result (bytes.new.items ≡ bytes.old.items ++ number_bytes 4 number) }
{
    bytes.extend_from_slice(&long(number))
}
