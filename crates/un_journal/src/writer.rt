//! A history as a text.

ghost use Rattle.std.specs.Prelude.{◌≡◌, ◌≤◌, OnOk, OnErr};
ghost use Rattle.std.specs.Io.KnownBytes.{Appends};
ghost use Rattle.un_io.specs.Io.{Rose, Stopped};
ghost use Rattle.un_journal.specs.Text.{bytes_words, entry_text, trace};
ghost use Rattle.un_text.specs.Puts.{Puts};
ghost use Rattle.un_text.specs.Words.{spaced};

use crate::journal::Journal;
use crate::lines::Line;
use crate::rows::head;
use un_io::{Sink, WriteFault};
use un_text::Page;

/// The word of a line's bytes behind a space, where it carries some.
fn put_bytes<O: Sink>(out: &mut O, page: &mut Page, bytes: &[u8])
    ensures { Puts (O.held out.old) (O.faults out.old) page.old (O.held out.new) (O.faults out.new) page.new (spaced (bytes_words bytes.now)) }
{
    if bytes.len() > 0 {
        page.put(out, b" ");
        page.put_hex(out, bytes);
    }
}

/// A line of the trace, with its line feed.
fn put_entry<O: Sink>(out: &mut O, page: &mut Page, line: Line, bytes: &[u8])
    ensures { Puts (O.held out.old) (O.faults out.old) page.old (O.held out.new) (O.faults out.new) page.new (entry_text (line, bytes.now)) }
{
    page.reserve(out, 128);
    head(&mut page.pending, line);
    put_bytes(out, page, bytes);
    page.put(out, b"\n");
}

/// Adds the text of a history to a sink: the line `trace`, one line for each entry, and the line `end`. At a write fault the sink
/// has grown by a front of that text, and not by all of it. Takes no memory.
pub fn write_trace<O: Sink>(out: &mut O, journal: &Journal) -> Result<(), WriteFault>
    ensures written { OnOk result (Appends (O.held out.old) (O.held out.new) (trace journal.now.history)) }
    ensures stopped { OnErr result (Stopped (O.held out.old) (O.held out.new) (trace journal.now.history)) }
    ensures never_falls { O.faults out.old ≤ O.faults out.new }
    ensures cause { OnErr result (Rose (O.faults out.old) (O.faults out.new)) }
{
    let mut page = Page::blank();
    page.put(out, b"trace\n");
    for index in 0..journal.len() {
        let (line, bytes) = journal.entry(index);
        put_entry(out, &mut page, line, bytes);
    }
    page.put(out, b"end\n");
    page.finish(out)
}
