//! Packets of a transfer, and the copy from one request to another.

ghost use Rattle.std.specs.Prelude.{◌≡◌, ◌+◌, ◌<◌, ◌/◌, ◌≤◌, length};
ghost use Rattle.un_packet.specs.Packets.{packet_bytes};

use un_req::Request;

/// How many packets a transfer of `length` bytes has, for packets of at most `packet` bytes (8 or more): the full ones and the
/// short one that ends the transfer, which may be empty (USB 2.0, 5.8.3; that it always comes is this project's own).
pub fn packets(length: u64, packet: u32) -> u64
    requires { 8 ≤ packet }
    ensures { result ≡ length / packet + 1 }
{
    length / packet as u64 + 1
}

/// Lends the packet `index` of a transfer, from 0; the last is short and may be empty.
pub fn packet_at(bytes: &[u8], packet: u32, index: u64) -> &[u8]
    requires size { 8 ≤ packet }
    requires within { index < length bytes.now / packet + 1 }
    ensures { result.now ≡ packet_bytes bytes.now packet index }
{
    let start = index as usize * packet as usize;
    let rest = bytes.len() - start;
    if rest < packet as usize {
        &bytes[start..]
    } else {
        &bytes[start..start + packet as usize]
    }
}

/// Copies a transfer from one request into another, with its span and serial; the code goes packet by packet. The receiver must have room for
/// the sender's bytes; its number and capacity stay, all else becomes the sender's. No memory is taken.
#[tactic(auto, using(crate::proofs::Pieces::pieces_more, crate::proofs::Pieces::pieces_all))]
pub fn carry(from: &Request, into: &mut Request, packet: u32)
    requires size { 8 ≤ packet }
    requires room { length from.now.bytes ≤ into.old.capacity }
    ensures { into.new ≡ record from.now { number = into.old.number; capacity = into.old.capacity } }
{
    into.clear();
    into.stamp(from.from(), from.to(), from.serial());
    let bytes = from.bytes();
    for index in 0..packets(bytes.len() as u64, packet) {
        into.push(packet_at(bytes, packet, index));
    }
}
