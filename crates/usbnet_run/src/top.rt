//! The whole program over a source, a sink and a gate.

ghost use Rattle.std.specs.Prelude.{◌≡◌, ℕ, List, IsErrOf, map};
ghost use Rattle.std.specs.String.{string_bytes};
ghost use Rattle.std.specs.Io.KnownBytes.{Consumes};
ghost use Rattle.un_io.specs.Io.{Rose};
ghost use Rattle.usbnet_run.specs.Refusals.{Does};
ghost use Rattle.usbnet_run.specs.Top.{HistoryIsOne, MainAnswers, MainEnds, MainRefusalsAreExact, RunIsComplete};

use crate::command::do_command;
use crate::load::load;
use crate::reading::read_input;
use crate::refusal::{Ending, Refusal, finish};
use crate::run::run;
use crate::words::{Job, job_of};
use std::alloc::Global;
use std::sync::Wait;
use std::thread::Threads;
use un_io::{Sink, Source};
use un_share::Gate;

/// Does what `usbnet_main` does, but for a refusal's line: a refusal leaves the sink as it is.
fn do_job<R: Threads + Wait + Sync, I: Source, O: Sink, G: Gate + Sync>(
    rt: &R,
    alloc: Global,
    words: &[String],
    input: &mut I,
    out: &mut O,
    gate: &G,
) -> Ending
    ensures does { (given : List ℕ) × Consumes (I.left input.old) (I.left input.new) given
        × Does (MainAnswers (map string_bytes words.now) given (I.left input.new)) (O.held out.old) (O.held out.new) (O.faults out.old) (O.faults out.new) result }
    ensures read_fault { IsErrOf result Refusal.ReadFault → Rose (I.faults input.old) (I.faults input.new) }
{
    match job_of(words) {
        Job::Run => {
            let text = read_input(alloc, input)?;
            run(rt, alloc, out, text, gate)
        }
        Job::Load(count) => load(rt, alloc, out, count, gate),
        Job::Plain => do_command(alloc, words, input, out),
    }
}

/// Does the command `run`: reads a script from the source, lets the eleven workers run its link under one turn and drains what they
/// leave, and adds the trace text of the link's history and the report to the sink. Does the command `load` with a number of frames
/// from 1 to 65,536: the same with that many generated frames, of which it adds the line `taken N given N lost 0`; it reads nothing.
/// All other words are those of `plain_command`. The gate hangs on the workers and gets no access to the link.
///
/// What the clauses say of `run` at status 0: the source was read to its end, and told the text of a script whose parameters agree; the
/// sink grew by the trace and the report of one history of that script; no step fits after it, and the drain makes it of a legal
/// history out of which nothing flies; and where no fault is planned, nothing is stopped, cut or unplugged, and the link ends awake, it
/// gives all that is to be taken. The printed text tells this history and no other (`the_history_is_one`). That it is the history which was kept under the turn is how `run` is built: the link moves into the turn and
/// comes out of it. Tests show that, and that the workers run beside each other. Of `load` they say that the line was added and nothing
/// was read; the line is fixed by its number, and that a link ran for it is built and tested in the same way.
///
/// The statuses are those of `plain_command`. Nothing here says that two workers run at a time, or that the workers end: a call that
/// returns has these clauses, whatever order the seats win the turn in. No call after the first byte of output has an answer for want
/// of memory.
pub fn usbnet_main<R: Threads + Wait + Sync, I: Source, O: Sink, G: Gate + Sync>(
    rt: &R,
    alloc: Global,
    words: &[String],
    input: &mut I,
    out: &mut O,
    gate: &G,
) -> u8
    // What the status says.
    ensures ends { (given : List ℕ) × Consumes (I.left input.old) (I.left input.new) given
        × MainEnds (map string_bytes words.now) given (I.left input.new) (O.held out.old) (O.held out.new) (O.faults out.old) (O.faults out.new) result }

    // A fault is the source's or the sink's own.
    ensures read_fault { result ≡ 2 → Rose (I.faults input.old) (I.faults input.new) }
    ensures write_fault { result ≡ 3 → Rose (O.faults out.old) (O.faults out.new) }
{
    finish(do_job(rt, alloc, words, input, out, gate), out)
}

/// Where the words ask for a run, the input is a script of at most 16,777,216 bytes whose parameters agree, no read and no write fails,
/// and memory suffices, the status is 0: the input was read to its end and the whole output of one history written, which is done.
pub fn run_is_complete()
    ensures { RunIsComplete }
{}

/// A printed text tells one history: two runs whose outputs begin one text have the same history.
pub fn the_history_is_one()
    ensures { HistoryIsOne }
{}

/// Each refusal of the whole program comes exactly where it is due, but for want of memory and a read fault.
pub fn main_refusals_are_exact()
    ensures { MainRefusalsAreExact }
{}
