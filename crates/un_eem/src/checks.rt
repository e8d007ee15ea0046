//! The checks of a transfer, in their order.

ghost use Rattle.std.specs.Prelude.{◌≡◌, ◌+◌, ◌-◌, ◌≤◌, ◌<◌, length, take, drop, IfOk, OnOk};
ghost use Rattle.std.specs.Str.{bytes_eq};
ghost use Rattle.un_frame.specs.Bytes.{number_at};
ghost use Rattle.un_frame.specs.Eem.{SENTINEL, packet_fault, packet_size, eem_fault};
ghost use Rattle.un_frame.specs.Fault.{fault_in};
ghost use Rattle.un_eem.specs.Walk.{fault_from};

use crate::header::{HEADER, SENTINEL, header_at, is_data, packet_size};
use un_frame::{Fault, Kind};

/// A fault of this kind at this place.
fn fault(kind: Kind, at: usize) -> Fault
    ensures { result ≡ record { kind = kind; at = at } }
{
    Fault {
        kind,
        at: at as u64,
    }
}

/// The four bytes at a place.
fn four_at(bytes: &[u8], at: usize) -> &[u8]
    requires { at + 4 ≤ length bytes.now }
    ensures { result.now ≡ take 4 (drop at bytes.now) }
{
    let rest = &bytes[at..];
    &rest[..4]
}

/// Whether the four bytes at a place are the sentinel.
fn is_sentinel(bytes: &[u8], at: usize) -> bool
    requires { at + 4 ≤ length bytes.now }
    ensures { result ≡ bytes_eq (take 4 (drop at bytes.now)) Rattle.un_frame.specs.Eem.SENTINEL }
{
    four_at(bytes, at) == SENTINEL.as_slice()
}

/// Checks the packet at a place, and answers how many bytes it has.
#[tactic(auto, unfolding(un_frame::specs::Eem::packet_fault))]
fn check_packet(bytes: &[u8], at: usize) -> Result<usize, Fault>
    requires { at < length bytes.now }
    ensures fault { fault_in result ≡ packet_fault bytes.now at (number_at 2 bytes.now at) }
    ensures size { IfOk result (λ size. size ≡ Rattle.un_frame.specs.Eem.packet_size (number_at 2 bytes.now at)) }
    ensures inside { IfOk result (λ size. at + size ≤ length bytes.now) }
    ensures least { IfOk result (λ size. 2 ≤ size) }
{
    if bytes.len() < at + HEADER {
        return Err(fault(Kind::Truncated, at));
    }
    let header = header_at(bytes, at);
    let size = packet_size(header);
    if is_data(header) && 0x4000 <= header {
        return Err(fault(Kind::CrcPacket, at));
    }
    if is_data(header) && header < 18 {
        return Err(fault(Kind::ShortFrame, at));
    }
    if bytes.len() < at + size {
        return Err(fault(Kind::Truncated, at));
    }
    if is_data(header) && !is_sentinel(bytes, at + size - 4) {
        return Err(fault(Kind::BadSentinel, at));
    }
    Ok(size)
}

/// Checks a whole transfer.
#[tactic(auto, using(crate::proofs::Steps::fault_start, crate::proofs::Steps::fault_end, crate::proofs::Steps::fault_here, crate::proofs::Steps::fault_on))]
pub fn check(bytes: &[u8]) -> Result<(), Fault>
    ensures fault { fault_in result ≡ eem_fault bytes.now }
{
    let mut at = 0;
    while at < bytes.len() {
        at += check_packet(bytes, at)?;
    }
    Ok(())
}
