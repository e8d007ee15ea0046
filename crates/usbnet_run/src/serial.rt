//! The command serial: a script's link, drained without threads.

ghost use Rattle.std.specs.Prelude.{◌≤◌};
ghost use Rattle.un_frame.specs.Params.{AreInRange};
ghost use Rattle.un_journal.specs.Fits.{Legal};
ghost use Rattle.un_journal.specs.Log.{AreEntries};
ghost use Rattle.usbnet_run.specs.Command.{IsDrained};
ghost use Rattle.usbnet_run.specs.Refusals.{Does, Writes};
ghost use Rattle.usbnet_run.specs.Runs.{Runs, output};

use crate::prepare::{Prepared, prepare};
use crate::refusal::Ending;
use std::alloc::Global;
use un_io::{Sink, WriteFault};
use un_journal::{Journal, write_trace};
use un_script::Script;
use un_setup::Agreed;

/// Adds the trace of a history and its report to a sink. At a write fault, which comes only where the sink's count of faults rose,
/// the sink has grown by a front of that text, and not by all of it. Takes no memory.
pub fn print<O: Sink>(
    out: &mut O,
    script: &Script,
    agreed: &Agreed,
    journal: &Journal,
) -> Result<(), WriteFault>
    requires legal { Legal script.now journal.now.history }
    requires in_range { AreInRange agreed.now.params }
    ensures writes { Writes (O.held out.old) (O.held out.new) (O.faults out.old) (O.faults out.new) (output script.now agreed.now journal.now.history) result }
    ensures entries { AreEntries journal.now.history }
    ensures never_falls { O.faults out.old ≤ O.faults out.new }
{
    journal.prove_entries();
    write_trace(out, journal)?;
    un_report::write(out, script, agreed, journal)
}

/// Runs a script's link by its serial drain and prints the trace and the report. A refusal is that of `prepare`, and leaves the sink
/// as it is. No call after the first byte of output has an answer for want of memory.
pub fn serial<O: Sink>(alloc: Global, out: &mut O, text: Vec<u8>) -> Ending
    ensures does { Does (Runs IsDrained text.items) (O.held out.old) (O.held out.new) (O.faults out.old) (O.faults out.new) result }
    ensures never_falls { O.faults out.old ≤ O.faults out.new }
{
    let Prepared { mut link, agreed } = prepare(alloc, text)?;
    link.drain();
    Ok(print(out, link.script(), &agreed, link.journal()))
}
