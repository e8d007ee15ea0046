//! Where the frames of a transfer stand, told into an array of the caller's.

ghost use Rattle.std.specs.Prelude.{◌≡◌, ◌<◌, ◌^◌, IfErr, IfOk, length};
ghost use Rattle.un_frame.specs.Fault.{fault_in};
ghost use Rattle.un_frame.specs.Parts.{places_as};
ghost use Rattle.un_frame.specs.Wire.{ReadsAt, fault_of};
ghost use Rattle.un_wire.specs.Places.{IsSoundAt, places_at};
ghost use Rattle.un_wire.specs.Spans.{filled, put_at};

use crate::cursor::{Cursor, begin, commands};
use un_frame::{Class, Fault, Span};

/// What a transfer holds.
#[derive(Clone, Copy, Debug)]
pub struct Held {
    /// How many frames it has.
    pub frames: usize,
    /// How many commands it has, which EEM alone knows.
    pub commands: u64,
}

/// Reads a transfer of this class: tells from the array's first element on where its frames stand, in their order, as many as the
/// array has room for, and answers how many frames and commands the transfer has, exactly where the grammar of the class reads it.
/// The elements behind the last frame stay what they were. Else answers the first fault with its place, and the whole array stays.
/// The whole transfer is checked before anything is written. It takes no memory and copies no frame.
pub fn read_spans(class: Class, bytes: &[u8], spans: &mut [Span]) -> Result<Held, Fault>
    ensures found { IfOk result (λ held. ReadsAt class bytes.now (places_as class bytes.now) held.commands) }
    ensures frames { IfOk result (λ held. held.frames ≡ length (places_as class bytes.now)) }
    ensures spans { IfOk result (λ held. spans.new ≡ filled (places_as class bytes.now) spans.old) }
    ensures fault { fault_in result ≡ fault_of class bytes.now }
    ensures kept { IfErr result (λ fault. spans.new ≡ spans.old) }
{
    let cursor = begin(class, bytes)?;
    let frames = fill(bytes, cursor, spans);
    Ok(Held {
        frames,
        commands: commands(class, bytes),
    })
}

/// Tells where the parts from a cursor on stand, as many as the array has room for, and answers how many they are.
fn fill(bytes: &[u8], cursor: Cursor, spans: &mut [Span]) -> usize
    requires sound { IsSoundAt bytes.now cursor.place }
    requires few { length (places_at bytes.now cursor.place) < 2 ^ 64 }
    ensures spans { spans.new ≡ filled (places_at bytes.now cursor.place) spans.old }
    ensures count { result ≡ length (places_at bytes.now cursor.place) }
{
    let mut cursor = cursor;
    let mut count = 0;
    while let Some(span) = cursor.span(bytes) {
        put(spans, count, span);
        cursor = cursor.next(bytes);
        count += 1;
    }
    count
}

/// Writes a span at an index of the array, where it has one.
fn put(spans: &mut [Span], index: usize, span: Span)
    ensures { spans.new ≡ put_at index span spans.old }
{
    if index < spans.len() {
        spans[index] = span;
    }
}
