//! Data packets, written into a request in place.

ghost use Rattle.std.specs.Prelude.{◌≡◌, ◌+◌, ◌≤◌, ◌<◌, ◌++◌, ◌∷◌, ◌%◌, ◌==◌, [], List, ℕ, length, if◌then◌else◌};
ghost use Rattle.un_frame.specs.Bytes.{number_bytes};
ghost use Rattle.un_frame.specs.Eem.{Data, Empty, packet_bytes, eem_form};
ghost use Rattle.un_eem.specs.Transfer.{data_packets};

use crate::header::SENTINEL;
use byteorder::{ByteOrder, LittleEndian};
use un_req::Request;

/// Appends a header.
#[tactic(auto, unfolding(un_frame::specs::Bytes::number_bytes))]
fn push_header(request: &mut Request, header: u16)
    requires { length request.old.bytes + 2 ≤ request.old.capacity }
    ensures bytes { request.new ≡ record request.old { bytes = request.old.bytes ++ number_bytes 2 header } }
    ensures len { length request.new.bytes ≡ length request.old.bytes + 2 }
    ensures capacity { request.new.capacity ≡ request.old.capacity }
{
    let mut bytes = [0u8; 2];
    LittleEndian::write_u16(&mut bytes, header);
    request.push(&bytes);
}

/// Appends a data packet with this frame of 14 to 16,379 bytes: bit 14 of its header is clear, and the sentinel follows the frame
/// (EEM 1.0, 5.1.2). The request has room for the frame and 6 bytes more.
pub fn append(request: &mut Request, frame: &[u8])
    requires least { 14 ≤ length frame.now }
    requires most { length frame.now ≤ 16379 }
    requires room { length request.old.bytes + length frame.now + 6 ≤ request.old.capacity }
    ensures bytes { request.new ≡ record request.old { bytes = request.old.bytes ++ packet_bytes (Data frame.now) } }
    ensures len { length request.new.bytes ≡ length request.old.bytes + length frame.now + 6 }
    ensures grows { (frames : List (List ℕ)) → request.old.bytes ≡ data_packets frames → request.new.bytes ≡ data_packets (frames ++ frame.now ∷ []) }
{
    push_header(request, (frame.len() + 4) as u16);
    request.push(frame);
    request.push(&SENTINEL);
}

/// Ends a transfer: appends the empty packet where the length is a multiple of the bus's packet size, in bytes, so that with packets
/// of more than 2 bytes the last one on the bus is short (EEM 1.0, 5.1.2). The request has room for 2 bytes more.
pub fn finish(request: &mut Request, packet: u32)
    requires packet { 1 ≤ packet }
    requires room { length request.old.bytes + 2 ≤ request.old.capacity }
    ensures bytes { request.new ≡ record request.old { bytes = request.old.bytes ++ (if length request.old.bytes % packet == 0 then packet_bytes Empty else []) } }
    ensures form { (frames : List (List ℕ)) → request.old.bytes ≡ data_packets frames → request.new.bytes ≡ eem_form packet frames }
{
    if request.bytes().len() % packet as usize == 0 {
        push_header(request, 0);
    }
}
