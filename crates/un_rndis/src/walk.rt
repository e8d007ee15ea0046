//! A walk over the frames of a transfer that keeps no borrow of its bytes: whoever owns the bytes keeps a place beside them,
//! in bytes from the transfer's beginning, and hands both to each call.

ghost use Rattle.std.specs.Prelude.{◌≡◌, ◌∷◌, ◌+◌, ◌≤◌, [], List, ℕ, IfNone, IfOk, IfSome, drop, false, length};
ghost use Rattle.un_frame.specs.Bytes.{Place, slice_at};
ghost use Rattle.un_frame.specs.Fault.{fault_in};
ghost use Rattle.un_frame.specs.Rndis.{message_frame, rndis_fault, rndis_places};
ghost use Rattle.un_frame.specs.Spans.{place_of};
ghost use Rattle.un_rndis.specs.Frames.{IsOn, frames_from};
ghost use Rattle.un_rndis.specs.Transfer.{IsTransfer};
ghost use Rattle.un_rndis.specs.Walk.{places_from};

use crate::checks::{check, is_past};
use crate::header::number;
use un_frame::{Fault, Span};

/// The place of the first message, or the first fault with its place. The whole transfer is checked first.
pub fn begin(bytes: &[u8]) -> Result<usize, Fault>
    ensures found { IfOk result (λ at. IsTransfer bytes.now (frames_from bytes.now at)) }
    ensures on { IfOk result (λ at. IsOn bytes.now at) }
    ensures places { IfOk result (λ at. places_from bytes.now at ≡ rndis_places (length bytes.now) bytes.now 0) }
    ensures fault { fault_in result ≡ rndis_fault bytes.now }
{
    check(bytes)?;
    Ok(0)
}

/// Lends the frame of the message at the place; `None` exactly where no frame is left.
pub fn part_at(bytes: &[u8], at: usize) -> Option<&[u8]>
    requires { IsOn bytes.now at }
    ensures part { IfSome result (λ part. (rest : List (List ℕ)) × (frames_from bytes.now at ≡ part.now ∷ rest)) }
    ensures end { IfNone result (frames_from bytes.now at ≡ []) }
{
    if is_past(bytes, at) {
        return None;
    }
    Some(frame_at(bytes, at))
}

/// Tells where the frame of the message at the place stands; `None` exactly where no frame is left.
pub fn span_at(bytes: &[u8], at: usize) -> Option<Span>
    requires { IsOn bytes.now at }
    ensures span { IfSome result (λ span. (rest : List Place) × (places_from bytes.now at ≡ place_of span ∷ rest)) }
    ensures inside { IfSome result (λ span. span.at + span.size ≤ length bytes.now) }
    ensures end { IfNone result (places_from bytes.now at ≡ []) }
{
    if is_past(bytes, at) {
        return None;
    }
    Some(span_of(bytes, at))
}

/// The place of the next message, or that behind the last one, where no frame is left; the end stays.
pub fn next(bytes: &[u8], at: usize) -> usize
    requires { IsOn bytes.now at }
    ensures on { IsOn bytes.now result }
    ensures one { frames_from bytes.now result ≡ drop 1 (frames_from bytes.now at) }
    ensures places { places_from bytes.now result ≡ drop 1 (places_from bytes.now at) }
{
    if is_past(bytes, at) {
        return at;
    }
    at + number(bytes, at + 4)
}

/// Where the frame of the message at a place stands.
fn span_of(bytes: &[u8], at: usize) -> Span
    requires more { Rattle.un_frame.specs.Rndis.is_past bytes.now at ≡ false }
    requires on { IsOn bytes.now at }
    ensures place { place_of result ≡ message_frame bytes.now at }
    ensures inside { result.at + result.size ≤ length bytes.now }
{
    Span {
        at: at + 8 + number(bytes, at + 8),
        size: number(bytes, at + 12),
    }
}

/// The frame of the message at a place.
fn frame_at(bytes: &[u8], at: usize) -> &[u8]
    requires more { Rattle.un_frame.specs.Rndis.is_past bytes.now at ≡ false }
    requires on { IsOn bytes.now at }
    ensures { result.now ≡ slice_at bytes.now (message_frame bytes.now at) }
{
    span_of(bytes, at).of(bytes)
}
