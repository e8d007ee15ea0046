//! The set-up packet.

ghost use Rattle.std.specs.Prelude.{◌≡◌, length};
ghost use Rattle.un_classreq.specs.Setup;

use crate::bytes::short;
use byteorder::{ByteOrder, LittleEndian};

/// The set-up packet of a control transfer, which the host sends (USB 2.0, 9.3).
#[derive(Clone, Copy, Debug, PartialEq, Eq)]
pub struct Setup {
    /// Bit 7 is set where the device answers with bytes; the others say whose request it is, and to whom (USB 2.0, table 9-2).
    pub request_type: u8,
    /// The code of the request.
    pub request: u8,
    /// The request's parameter: what it is differs by request.
    pub value: u16,
    /// The number of an interface, where the request is to one.
    pub index: u16,
    /// How many bytes follow to the device, or are wanted from it at most.
    pub length: u16,
}

/// The eight bytes of the packet of these fields.
#[tactic(auto, unfolding(un_frame::specs::Bytes::number_bytes))]
fn spell(request_type: u8, request: u8, value: u16, index: u16, length: u16) -> [u8; 8]
    ensures bytes { result ≡ Rattle.un_classreq.specs.Setup.setup_bytes (record { request_type = request_type; request = request; value = value; index = index; length = length }) }
    ensures again { Rattle.un_classreq.specs.Setup.setup_of result ≡ record { request_type = request_type; request = request; value = value; index = index; length = length } }
{
    let [value_low, value_high] = short(value);
    let [index_low, index_high] = short(index);
    let [length_low, length_high] = short(length);
    [
        request_type,
        request,
        value_low,
        value_high,
        index_low,
        index_high,
        length_low,
        length_high,
    ]
}

/// The packet that eight bytes are.
#[tactic(auto, unfolding(un_frame::specs::Bytes::number_at))]
fn parse(bytes: &[u8]) -> Setup
    requires { length bytes.now ≡ 8 }
    ensures packet { result ≡ Rattle.un_classreq.specs.Setup.setup_of bytes.now }
    ensures again { Rattle.un_classreq.specs.Setup.setup_bytes result ≡ bytes.now }
{
    Setup {
        request_type: bytes[0],
        request: bytes[1],
        value: LittleEndian::read_u16(&bytes[2..]),
        index: LittleEndian::read_u16(&bytes[4..]),
        length: LittleEndian::read_u16(&bytes[6..]),
    }
}

impl Setup {
    ghost use Rattle.un_classreq.specs.Setup.{setup_bytes, setup_of};

    /// Its eight bytes, each number with its lowest byte first.
    pub fn to_bytes(&self) -> [u8; 8]
        ensures bytes { result ≡ setup_bytes self.now }
        ensures again { setup_of result ≡ self.now }
    {
        spell(
            self.request_type,
            self.request,
            self.value,
            self.index,
            self.length,
        )
    }

    /// The packet that eight bytes are.
    pub fn from_bytes(bytes: &[u8; 8]) -> Setup
        ensures packet { result ≡ setup_of bytes.now }
        ensures again { setup_bytes result ≡ bytes.now }
    {
        parse(bytes)
    }
}
