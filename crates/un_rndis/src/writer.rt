//! A data message, written into a request in place.

ghost use Rattle.std.specs.Prelude.{◌≡◌, ◌+◌, ◌≤◌, ◌++◌, [], length};
ghost use Rattle.un_frame.specs.Bytes.{number_bytes};
ghost use Rattle.un_frame.specs.Rndis.{message_bytes};

use byteorder::{ByteOrder, LittleEndian};
use un_req::Request;

/// Appends a number of 32 bits.
#[tactic(auto, unfolding(un_frame::specs::Bytes::number_bytes))]
fn push_number(request: &mut Request, number: u32)
    requires { length request.old.bytes + 4 ≤ request.old.capacity }
    ensures bytes { request.new ≡ record request.old { bytes = request.old.bytes ++ number_bytes 4 number } }
    ensures len { length request.new.bytes ≡ length request.old.bytes + 4 }
    ensures capacity { request.new.capacity ≡ request.old.capacity }
{
    let mut bytes = [0u8; 4];
    LittleEndian::write_u32(&mut bytes, number);
    request.push(&bytes);
}

/// Writes the data message with this frame (MS-RNDIS 2.2.14): its type 1, its length, the data offset 36, the frame's
/// length, seven numbers that are 0, and the frame. The request is empty, and has room for the frame and 44 bytes more.
pub fn append(request: &mut Request, frame: &[u8])
    requires empty { request.old.bytes ≡ [] }
    requires room { length frame.now + 44 ≤ request.old.capacity }
    ensures bytes { request.new ≡ record request.old { bytes = message_bytes frame.now } }
    ensures len { length request.new.bytes ≡ length frame.now + 44 }
{
    // a capacity has 32 bits, and so has what fits it
    let _capacity = request.capacity();
    let size = frame.len() as u32;
    push_number(request, 1);
    push_number(request, size + 44);
    push_number(request, 36);
    push_number(request, size);
    request.push_zeros(28);
    request.push(frame);
}
