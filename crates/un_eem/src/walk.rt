//! A walk over the frames of a transfer that keeps no borrow of its bytes: whoever owns the bytes keeps a place beside them,
//! in bytes from the transfer's beginning, and hands both to each call.

ghost use Rattle.std.specs.Prelude.{◌≡◌, ◌∷◌, ◌+◌, ◌^◌, ◌<◌, ◌≤◌, nat_le, if◌then◌else◌, [], List, ℕ, IfNone, IfOk, IfSome, None, drop, length, true};
ghost use Rattle.un_frame.specs.Bytes.{Place, number_at};
ghost use Rattle.un_frame.specs.Eem.{Data};
ghost use Rattle.un_frame.specs.Fault.{fault_in};
ghost use Rattle.un_frame.specs.Parts.{places_as};
ghost use Rattle.un_frame.specs.Spans.{place_of};
ghost use Rattle.un_frame.specs.Wire.{Reads, fault_of};
ghost use Rattle.un_frame.specs.declared.params.Class.TheVariants.{Eem};
ghost use Rattle.un_eem.specs.Frames.{IsOn, commands_of, frames_from, places_from};
ghost use Rattle.un_eem.specs.Walk.{IsSound, packet_at};

use crate::checks::check;
use crate::header::{HEADER, header_at, is_data, packet_size};
use un_frame::{Fault, Span};

/// The place of the first frame's packet, or the transfer's end where it has no frame; else the first fault with its place. The
/// whole transfer is checked first.
pub fn begin(bytes: &[u8]) -> Result<usize, Fault>
    ensures found { IfOk result (λ at. Reads Eem bytes.now (frames_from bytes.now at) (commands_of bytes.now)) }
    ensures on { IfOk result (λ at. IsOn bytes.now at) }
    ensures places { IfOk result (λ at. places_from bytes.now at ≡ places_as Eem bytes.now) }
    ensures fault { fault_in result ≡ fault_of Eem bytes.now }
{
    check(bytes)?;
    Ok(skip_commands(bytes, 0))
}

/// Lends the frame of the packet at the place; `None` exactly where no frame is left.
pub fn part_at(bytes: &[u8], at: usize) -> Option<&[u8]>
    requires { IsOn bytes.now at }
    ensures part { IfSome result (λ part. (rest : List (List ℕ)) × (frames_from bytes.now at ≡ part.now ∷ rest)) }
    ensures end { IfNone result (frames_from bytes.now at ≡ []) }
{
    if bytes.len() <= at {
        return None;
    }
    Some(frame_at(bytes, at))
}

/// Tells where the frame of the packet at the place stands; `None` exactly where no frame is left.
pub fn span_at(bytes: &[u8], at: usize) -> Option<Span>
    requires { IsOn bytes.now at }
    ensures span { IfSome result (λ span. (rest : List Place) × (places_from bytes.now at ≡ place_of span ∷ rest)) }
    ensures inside { IfSome result (λ span. span.at + span.size ≤ length bytes.now) }
    ensures end { IfNone result (places_from bytes.now at ≡ []) }
{
    if bytes.len() <= at {
        return None;
    }
    Some(span_of(bytes, at))
}

/// The place of the next frame's packet, or the transfer's end; the end stays.
pub fn next(bytes: &[u8], at: usize) -> usize
    requires { IsOn bytes.now at }
    ensures on { IsOn bytes.now result }
    ensures one { frames_from bytes.now result ≡ drop 1 (frames_from bytes.now at) }
    ensures places { places_from bytes.now result ≡ drop 1 (places_from bytes.now at) }
{
    if bytes.len() <= at {
        return at;
    }
    skip_commands(bytes, after(bytes, at))
}

/// How many commands a transfer without a fault has.
pub fn commands(bytes: &[u8]) -> u64
    requires { fault_of Eem bytes.now ≡ None }
    ensures { result ≡ commands_of bytes.now }
{
    let mut at = 0;
    let mut count = 0;
    while at < bytes.len() {
        count += commands_here(bytes, at);
        at = after(bytes, at);
    }
    count
}

/// The place of the first data packet from a place on, or the transfer's end.
#[tactic(auto, using(crate::proofs::FrameSteps::frames_skip, crate::proofs::FrameSteps::frames_end, crate::proofs::PlaceSteps::places_skip))]
fn skip_commands(bytes: &[u8], at: usize) -> usize
    requires { IsSound bytes.now at }
    ensures on { IsOn bytes.now result }
    ensures same { frames_from bytes.now result ≡ frames_from bytes.now at }
    ensures places { places_from bytes.now result ≡ places_from bytes.now at }
{
    let mut at = at;
    while at < bytes.len() {
        if is_data(header_of(bytes, at)) {
            return at;
        }
        at = after(bytes, at);
    }
    at
}

/// The header of the packet at a place.
fn header_of(bytes: &[u8], at: usize) -> u16
    requires within { at < length bytes.now }
    requires sound { IsSound bytes.now at }
    ensures { result ≡ number_at 2 bytes.now at }
{
    header_at(bytes, at)
}

/// The place after the packet at a place.
fn after(bytes: &[u8], at: usize) -> usize
    requires within { at < length bytes.now }
    requires sound { IsSound bytes.now at }
    ensures next { result ≡ at + Rattle.un_frame.specs.Eem.packet_size (number_at 2 bytes.now at) }
    ensures further { at < result }
    ensures sound { IsSound bytes.now result }
{
    at + packet_size(header_of(bytes, at))
}

/// How many commands the packet at a place is: one or none.
fn commands_here(bytes: &[u8], at: usize) -> u64
    requires within { at < length bytes.now }
    requires sound { IsSound bytes.now at }
    ensures count { result ≡ (if nat_le (2 ^ 15) (number_at 2 bytes.now at) then 1 else 0) }
    ensures most { result ≤ 1 }
{
    if 0x8000 <= header_of(bytes, at) { 1 } else { 0 }
}

/// Where the frame of the data packet at a place stands.
fn span_of(bytes: &[u8], at: usize) -> Span
    requires within { at < length bytes.now }
    requires sound { IsSound bytes.now at }
    requires frame { Rattle.un_frame.specs.Eem.is_data (number_at 2 bytes.now at) ≡ true }
    ensures first { result.at ≡ at + 2 }
    ensures size { result.size + 4 ≡ number_at 2 bytes.now at }
    ensures inside { result.at + result.size ≤ length bytes.now }
{
    Span {
        at: at + HEADER,
        size: header_of(bytes, at) as usize - 4,
    }
}

/// The frame of the data packet at a place.
fn frame_at(bytes: &[u8], at: usize) -> &[u8]
    requires within { at < length bytes.now }
    requires sound { IsSound bytes.now at }
    requires frame { Rattle.un_frame.specs.Eem.is_data (number_at 2 bytes.now at) ≡ true }
    ensures { packet_at bytes.now at ≡ Data result.now }
{
    span_of(bytes, at).of(bytes)
}
