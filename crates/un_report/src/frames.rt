//! The part of a report on a lane.

ghost use Rattle.std.specs.Prelude.{◌≡◌};
ghost use Rattle.std.specs.List.{flat_map};
ghost use Rattle.un_report.specs.Report.{lane_part, delivered_line, frame_line};
ghost use Rattle.un_text.specs.Puts.{Puts};

use crate::lines::{push_frame, push_lane};
use crate::survey::fed;
use crate::tally::Tally;
use un_frame::Lane;
use un_io::Sink;
use un_journal::{Journal, Line};
use un_script::Script;
use un_text::Page;

/// The number of a datagram that a line of the lane delivers.
fn given_number(lane: Lane, line: Line) -> Option<u64>
    ensures { result ≡ Rattle.un_report.specs.Report.given_number lane line }
{
    match line {
        Line::Gave { lane: l, number } => if lane == l { Some(number) } else { None },
        _ => None,
    }
}

/// The line of a delivered datagram.
#[tactic(auto, unfolding(crate::specs::Report::delivered_line))]
fn put_frame<O: Sink>(out: &mut O, page: &mut Page, lane: Lane, n: u64, bytes: &[u8])
    ensures { Puts (O.held out.old) (O.faults out.old) page.old (O.held out.new) (O.faults out.new) page.new (delivered_line lane n bytes.now) }
{
    page.reserve(out, 64);
    push_frame(&mut page.pending, lane, n);
    page.put_hex(out, bytes);
    page.put(out, b"\n");
}

/// The line of a datagram that a line of the lane delivers, and nothing for any other line.
#[tactic(auto, using(un_text::proofs::Putting::puts_none))]
fn put_given<O: Sink>(out: &mut O, page: &mut Page, lane: Lane, line: Line, bytes: &[u8])
    ensures { Puts (O.held out.old) (O.faults out.old) page.old (O.held out.new) (O.faults out.new) page.new (frame_line lane (line, bytes.now)) }
{
    if let Some(n) = given_number(lane, line) {
        put_frame(out, page, lane, n, bytes);
    }
}

/// The lines of all delivered datagrams of a lane.
fn put_frames<O: Sink>(out: &mut O, page: &mut Page, lane: Lane, journal: &Journal)
    ensures { Puts (O.held out.old) (O.faults out.old) page.old (O.held out.new) (O.faults out.new) page.new (flat_map (frame_line lane) journal.now.history) }
{
    for index in 0..journal.len() {
        let (line, bytes) = journal.entry(index);
        put_given(out, page, lane, line, bytes);
    }
}

/// A lane's counts and its delivered datagrams.
pub fn put_lane<O: Sink>(
    out: &mut O,
    page: &mut Page,
    script: &Script,
    lane: Lane,
    tally: &Tally,
    journal: &Journal,
)
    ensures { Puts (O.held out.old) (O.faults out.old) page.old (O.held out.new) (O.faults out.new) page.new (lane_part script.now lane tally.now journal.now.history) }
{
    page.reserve(out, 800);
    push_lane(
        &mut page.pending,
        lane,
        tally,
        fed(script, lane, tally.consumed),
    );
    put_frames(out, page, lane, journal);
}
