//! The command decode: the frames of one transfer, as a text.

ghost use Rattle.std.specs.Prelude.{◌≡◌, ◌+◌, ◌≤◌, ◌++◌, [], length};
ghost use Rattle.usbnet_run.specs.Decode.{
  Decodes,
  commands_text,
  decoded_text,
  frame_head,
  frame_line,
  frame_lines,
  head_text,
};
ghost use Rattle.usbnet_run.specs.Refusals.{Does, Writes};
ghost use Rattle.un_text.specs.Puts.{Puts};

use crate::refusal::{Ending, Refusal};
use un_frame::Class;
use un_io::{Sink, WriteFault};
use un_text::{Buffer, Page, class_word, number, word};
use un_wire::{Parts, read};

/// The bytes that the words of a line have at most, but for a frame's digits.
const WORDS: usize = 64;

/// The lines before the frames, in an empty buffer.
fn push_head(buffer: &mut Buffer, class: Class, frames: u64)
    requires { buffer.old ≡ [] }
    ensures { buffer.new ≡ head_text class frames }
{
    buffer.push(b"class");
    word(buffer, class_word(class));
    buffer.push(b"\nframes");
    number(buffer, frames);
    buffer.push(b"\n");
}

/// The words of a frame's line before its digits.
fn push_frame_head(buffer: &mut Buffer, index: u64, size: u64)
    requires { length buffer.old + WORDS ≤ 8192 }
    ensures { buffer.new ≡ buffer.old ++ frame_head index size }
{
    buffer.push(b"frame");
    number(buffer, index);
    number(buffer, size);
    buffer.push(b" ");
}

/// The line after the frames.
fn push_commands(buffer: &mut Buffer, commands: u64)
    requires { length buffer.old + WORDS ≤ 8192 }
    ensures { buffer.new ≡ buffer.old ++ commands_text commands }
{
    buffer.push(b"commands");
    number(buffer, commands);
    buffer.push(b"\n");
}

/// The line of a frame, its digits straight from where the frame stands.
fn put_frame<O: Sink>(out: &mut O, page: &mut Page, index: u64, frame: &[u8])
    ensures { Puts (O.held out.old) (O.faults out.old) page.old (O.held out.new) (O.faults out.new) page.new (frame_line index frame.now) }
{
    page.reserve(out, WORDS);
    push_frame_head(&mut page.pending, index, frame.len() as u64);
    page.put_hex(out, frame);
    page.put(out, b"\n");
}

/// A line for each frame that is left, with indices from 0 on.
fn put_frames<O: Sink>(out: &mut O, page: &mut Page, parts: &mut Parts, count: u64)
    requires { count ≡ length parts.old.frames }
    ensures { Puts (O.held out.old) (O.faults out.old) page.old (O.held out.new) (O.faults out.new) page.new (frame_lines 0 parts.old.frames) }
{
    for index in 0..count {
        let Some(frame) = parts.next() else {
            return;
        };
        put_frame(out, page, index, frame);
    }
}

/// Adds the text of a transfer that was read to a sink. At a write fault the sink has grown by a front of that text, and not by all of it.
/// Takes no memory, and copies no frame.
fn write_decoded<O: Sink>(out: &mut O, class: Class, parts: &mut Parts) -> Result<(), WriteFault>
    ensures writes { Writes (O.held out.old) (O.held out.new) (O.faults out.old) (O.faults out.new) (decoded_text class parts.old.frames parts.old.commands) result }
    ensures never_falls { O.faults out.old ≤ O.faults out.new }
{
    let commands = parts.commands();
    let count = parts.count();
    let mut page = Page::blank();
    push_head(&mut page.pending, class, count);
    put_frames(out, &mut page, parts, count);
    page.reserve(out, WORDS);
    push_commands(&mut page.pending, commands);
    page.finish(out)
}

/// Decodes one transfer of a class, and adds the text of its frames to a sink. The refusal, which leaves the sink as it is, is
/// `BadTransfer` with the first fault, exactly where the grammar has no reading of the bytes. Takes no memory.
pub fn decode<O: Sink>(out: &mut O, class: Class, bytes: &[u8]) -> Ending
    ensures does { Does (Decodes class bytes.now) (O.held out.old) (O.held out.new) (O.faults out.old) (O.faults out.new) result }
    ensures never_falls { O.faults out.old ≤ O.faults out.new }
{
    match read(class, bytes) {
        Ok(mut parts) => Ok(write_decoded(out, class, &mut parts)),
        Err(fault) => Err(Refusal::BadTransfer(fault)),
    }
}
