//! The whole report.

ghost use Rattle.std.specs.Prelude.{◌≡◌, ◌≤◌, OnOk, OnErr};
ghost use Rattle.std.specs.Io.KnownBytes.{Appends};
ghost use Rattle.un_frame.specs.Params.{AreInRange};
ghost use Rattle.un_io.specs.Io.{Rose, Stopped};
ghost use Rattle.un_journal.specs.Fits.{Legal};
ghost use Rattle.un_report.specs.Report.{lanes, last_lines, report};
ghost use Rattle.un_text.specs.Puts.{Puts};

use crate::frames::put_lane;
use crate::lines::push_last;
use crate::setup::put_setup;
use crate::survey::{Survey, go_over};
use un_frame::{Lane, Phase};
use un_io::{Sink, WriteFault};
use un_journal::Journal;
use un_script::Script;
use un_setup::Agreed;
use un_text::Page;

/// Both lanes, outward first.
#[tactic(auto, unfolding(crate::specs::Report::lanes))]
fn put_lanes<O: Sink>(
    out: &mut O,
    page: &mut Page,
    script: &Script,
    found: &Survey,
    journal: &Journal,
)
    ensures { Puts (O.held out.old) (O.faults out.old) page.old (O.held out.new) (O.faults out.new) page.new (lanes script.now found.now.outward found.now.inward journal.now.history) }
{
    put_lane(out, page, script, Lane::Outward, &found.outward, journal);
    put_lane(out, page, script, Lane::Inward, &found.inward, journal);
}

/// The phase and the end.
fn put_last<O: Sink>(out: &mut O, page: &mut Page, phase: Phase)
    ensures { Puts (O.held out.old) (O.faults out.old) page.old (O.held out.new) (O.faults out.new) page.new (last_lines phase) }
{
    page.reserve(out, 128);
    push_last(&mut page.pending, phase);
}

/// The report on a page.
#[tactic(auto, unfolding(crate::specs::Report::report))]
fn put_report<O: Sink>(
    out: &mut O,
    page: &mut Page,
    script: &Script,
    agreed: &Agreed,
    journal: &Journal,
)
    requires legal { Legal script.now journal.now.history }
    requires range { AreInRange agreed.now.params }
    ensures { Puts (O.held out.old) (O.faults out.old) page.old (O.held out.new) (O.faults out.new) page.new (report script.now agreed.now journal.now.history) }
{
    let found = go_over(script, journal, agreed.params.packet);
    put_setup(out, page, agreed);
    put_lanes(out, page, script, &found, journal);
    put_last(out, page, found.phase);
}

/// Adds the report to a sink: what was agreed on and what crossed meanwhile, the counts and the delivered datagrams of the outward
/// and of the inward lane, and the phase. The journal's history is a legal one of the script, and the agreed parameters are in their
/// ranges, as those are that `agree` answers for the script's. At a write fault, which comes only where the sink's count of faults
/// rose, the sink has grown by a front of that text, and not by all of it. Takes no memory. The lines are counted in one pass, and
/// gone over once more for the delivered ones of each lane.
pub fn write<O: Sink>(
    out: &mut O,
    script: &Script,
    agreed: &Agreed,
    journal: &Journal,
) -> Result<(), WriteFault>
    requires legal { Legal script.now journal.now.history }
    requires range { AreInRange agreed.now.params }
    ensures written { OnOk result (Appends (O.held out.old) (O.held out.new) (report script.now agreed.now journal.now.history)) }
    ensures stopped { OnErr result (Stopped (O.held out.old) (O.held out.new) (report script.now agreed.now journal.now.history)) }
    ensures never_falls { O.faults out.old ≤ O.faults out.new }
    ensures cause { OnErr result (Rose (O.faults out.old) (O.faults out.new)) }
{
    let mut page = Page::blank();
    put_report(out, &mut page, script, agreed, journal);
    page.finish(out)
}
