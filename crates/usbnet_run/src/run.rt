//! The command run: a script's link, with all its workers.

ghost use Rattle.std.specs.Prelude.{◌≤◌};
ghost use Rattle.usbnet_run.specs.Kept.{IsKept};
ghost use Rattle.usbnet_run.specs.Refusals.{Does};
ghost use Rattle.usbnet_run.specs.Runs.{Runs};

use crate::prepare::{Prepared, prepare};
use crate::refusal::Ending;
use crate::serial::print;
use crate::work::work;
use std::alloc::Global;
use std::sync::Wait;
use std::thread::Threads;
use un_io::Sink;
use un_share::Gate;

/// Runs a script's link by its eleven workers and a last drain, and prints the trace and the report of its history. What is printed is
/// of one history of the script, which is done and which the drain makes of a legal one (`IsKept`); that it is the workers' own is how
/// `work` is built. A refusal is that of `prepare`, or want of memory, and leaves the sink as it is. No call after the first byte of
/// output has an answer for want of memory.
pub(crate) fn run<R: Threads + Wait + Sync, O: Sink, G: Gate + Sync>(
    rt: &R,
    alloc: Global,
    out: &mut O,
    text: Vec<u8>,
    gate: &G,
) -> Ending
    ensures does { Does (Runs IsKept text.items) (O.held out.old) (O.held out.new) (O.faults out.old) (O.faults out.new) result }
    ensures never_falls { O.faults out.old ≤ O.faults out.new }
{
    let Prepared { link, agreed } = prepare(alloc, text)?;
    let link = work(rt, alloc, link, gate)?;
    Ok(print(out, link.script(), &agreed, link.journal()))
}
