//! The part of a report on the set-up.

ghost use Rattle.std.specs.Prelude.{◌≡◌, ◌≤◌, ◌++◌, length};
ghost use Rattle.std.specs.List.{flat_map};
ghost use Rattle.un_classreq.specs.Setup.{setup_bytes};
ghost use Rattle.un_report.specs.Report.{payload_word, control_head, control_line, notify_line, set_up};
ghost use Rattle.un_text.specs.Puts.{Puts};

use crate::lines::push_opening;
use un_classreq::Setup;
use un_frame::Bytes;
use un_io::Sink;
use un_setup::{Agreed, Exchange};
use un_text::{Buffer, Page};

/// The first words of an exchange's line: 25 bytes.
#[tactic(auto, unfolding(crate::specs::Report::control_head))]
fn push_setup(buffer: &mut Buffer, setup: Setup)
    requires { length buffer.old ≤ 8128 }
    ensures { buffer.new ≡ buffer.old ++ control_head setup }
{
    buffer.push(b"control ");
    buffer.push_hex(&setup.to_bytes());
    buffer.push(b" ");
}

/// Bytes as a word; a dash where there are none.
fn put_payload<O: Sink>(out: &mut O, page: &mut Page, bytes: &[u8])
    ensures { Puts (O.held out.old) (O.faults out.old) page.old (O.held out.new) (O.faults out.new) page.new (payload_word bytes.now) }
{
    if bytes.len() == 0 {
        page.put(out, b"-");
    } else {
        page.put_hex(out, bytes);
    }
}

/// The line of an exchange.
#[tactic(auto, unfolding(crate::specs::Report::control_line))]
fn put_control<O: Sink>(out: &mut O, page: &mut Page, exchange: &Exchange)
    ensures { Puts (O.held out.old) (O.faults out.old) page.old (O.held out.new) (O.faults out.new) page.new (control_line exchange.now) }
{
    page.reserve(out, 64);
    push_setup(&mut page.pending, exchange.setup);
    put_payload(out, page, exchange.payload.as_slice());
    page.put(out, b"\n");
}

/// The line of a notification.
#[tactic(auto, unfolding(crate::specs::Report::notify_line))]
fn put_note<O: Sink>(out: &mut O, page: &mut Page, note: &[u8])
    ensures { Puts (O.held out.old) (O.faults out.old) page.old (O.held out.new) (O.faults out.new) page.new (notify_line note.now) }
{
    page.put(out, b"notify ");
    page.put_hex(out, note);
    page.put(out, b"\n");
}

/// The lines of all exchanges.
fn put_controls<O: Sink>(out: &mut O, page: &mut Page, exchanges: &[Exchange])
    ensures { Puts (O.held out.old) (O.faults out.old) page.old (O.held out.new) (O.faults out.new) page.new (flat_map control_line exchanges.now) }
{
    for exchange in exchanges {
        put_control(out, page, exchange);
    }
}

/// The lines of all notifications.
fn put_notes<O: Sink>(out: &mut O, page: &mut Page, notes: &[Bytes])
    ensures { Puts (O.held out.old) (O.faults out.old) page.old (O.held out.new) (O.faults out.new) page.new (flat_map notify_line notes.now) }
{
    for note in notes {
        put_note(out, page, note.as_slice());
    }
}

/// What was agreed on, and what crossed meanwhile.
#[tactic(auto, unfolding(crate::specs::Report::set_up))]
pub fn put_setup<O: Sink>(out: &mut O, page: &mut Page, agreed: &Agreed)
    ensures { Puts (O.held out.old) (O.faults out.old) page.old (O.held out.new) (O.faults out.new) page.new (set_up agreed.now) }
{
    page.reserve(out, 1200);
    push_opening(&mut page.pending, &agreed.params);
    put_controls(out, page, agreed.exchanges.as_slice());
    put_notes(out, page, agreed.notes.as_slice());
}
