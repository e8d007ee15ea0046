//! The numbers in the header of a message (MS-RNDIS 2.2.14).

ghost use Rattle.std.specs.Prelude.{◌≡◌, ◌+◌, ◌<◌, ◌≤◌, ◌^◌, length};
ghost use Rattle.un_frame.specs.Bytes.{number_at};

use byteorder::{ByteOrder, LittleEndian};

/// The bytes of a header: eleven numbers of 32 bits.
pub const HEADER: usize = 44;

/// The type of a data message (REMOTE_NDIS_PACKET_MSG).
pub const DATA: usize = 1;

/// The least data offset: it counts from its own field, at 8, to the header's end.
pub const PAST_THE_HEADER: usize = 36;

/// The number of 32 bits at a place.
#[tactic(auto, unfolding(un_frame::specs::Bytes::number_at))]
pub fn number(bytes: &[u8], at: usize) -> usize
    requires { at + 4 ≤ length bytes.now }
    ensures value { result ≡ number_at 4 bytes.now at }
    ensures bound { result < 2 ^ 32 }
{
    LittleEndian::read_u32(&bytes[at..]) as usize
}
