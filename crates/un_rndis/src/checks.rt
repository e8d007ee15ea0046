//! The checks of a transfer, in their order.

ghost use Rattle.std.specs.Prelude.{◌≡◌, ◌+◌, ◌≤◌, ◌<◌, length, false, IfOk};
ghost use Rattle.un_frame.specs.Fault.{fault_in};
ghost use Rattle.un_frame.specs.Rndis.{message_fault, message_length, rndis_fault};
ghost use Rattle.un_rndis.specs.Walk.{fault_from};

use crate::header::{DATA, HEADER, PAST_THE_HEADER, number};
use un_frame::{Fault, Kind};

/// A fault of this kind at this place.
fn fault(kind: Kind, at: usize) -> Fault
    ensures { result ≡ record { kind = kind; at = at } }
{
    Fault {
        kind,
        at: at as u64,
    }
}

/// Whether no message begins at a place: it is the end, or only the one further byte is left that may follow a message.
pub fn is_past(bytes: &[u8], at: usize) -> bool
    ensures { result ≡ Rattle.un_frame.specs.Rndis.is_past bytes.now at }
{
    bytes.len() <= at || (at != 0 && bytes.len() == at + 1)
}

/// Checks the message at a place, and answers how many bytes it has.
#[tactic(auto, unfolding(un_frame::specs::Rndis::message_fault))]
fn check_message(bytes: &[u8], at: usize) -> Result<usize, Fault>
    requires { at < length bytes.now }
    ensures fault { fault_in result ≡ message_fault bytes.now at }
    ensures size { IfOk result (λ size. size ≡ message_length bytes.now at) }
    ensures inside { IfOk result (λ size. at + size ≤ length bytes.now) }
    ensures least { IfOk result (λ size. 44 ≤ size) }
{
    if bytes.len() < at + HEADER {
        return Err(fault(Kind::Truncated, at));
    }
    if number(bytes, at) != DATA {
        return Err(fault(Kind::BadMessageType, at));
    }
    let size = number(bytes, at + 4);
    if size < HEADER || bytes.len() < at + size {
        return Err(fault(Kind::BadMessageLength, at + 4));
    }
    let offset = number(bytes, at + 8);
    let length = number(bytes, at + 12);
    if offset < PAST_THE_HEADER || size < 8 + offset + length {
        return Err(fault(Kind::BadEntry, at + 8));
    }
    if length < 14 {
        return Err(fault(Kind::ShortFrame, at + 12));
    }
    Ok(size)
}

/// Checks a whole transfer.
#[tactic(auto, using(crate::proofs::Steps::fault_start, crate::proofs::Steps::fault_end, crate::proofs::Steps::fault_here, crate::proofs::Steps::fault_on))]
pub fn check(bytes: &[u8]) -> Result<(), Fault>
    ensures { fault_in result ≡ rndis_fault bytes.now }
{
    let mut at = 0;
    while !is_past(bytes, at) {
        at += check_message(bytes, at)?;
    }
    Ok(())
}
