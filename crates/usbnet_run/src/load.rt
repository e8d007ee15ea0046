//! The command load: generated frames, with all workers.

ghost use Rattle.std.specs.Prelude.{◌≡◌, ◌≤◌, ◌+◌, [], IfOk};
ghost use Rattle.un_journal.specs.Fits.{Legal};
ghost use Rattle.un_link.specs.Link.{flights_of};
ghost use Rattle.un_script.specs.Load.{load_script};
ghost use Rattle.usbnet_run.specs.Loads.{IsLoad, IsLossless, IsWholeLoad, Loads, load_line};
ghost use Rattle.usbnet_run.specs.Refusals.{Does, Writes};

use crate::refusal::Ending;
use crate::work::work;
use std::alloc::{AllocError, Global};
use std::sync::Wait;
use std::thread::Threads;
use un_io::{Sink, WriteFault, write_whole};
use un_journal::Journal;
use un_link::Link;
use un_report::{Tally, go_over};
use un_script::{Script, generate};
use un_setup::agree;
use un_share::Gate;
use un_text::{Buffer, number};

/// The bytes of a load's packets.
const PACKET: u32 = 512;

/// A new link for a load. The error is want of memory.
fn load_link(alloc: Global, count: u32) -> Result<Link, AllocError>
    requires least { 1 ≤ count }
    requires most { count ≤ 65536 }
    ensures { IfOk result (λ link. (link.script ≡ load_script count) × (link.log.history ≡ []) × (flights_of link ≡ [])) }
{
    let script = generate(alloc, count)?;
    script.prove_ready();
    let Ok(agreed) = agree(alloc, script.params()) else {
        return Err(AllocError);
    };
    Link::make(alloc, script, &agreed)
}

/// A load's link, after the workers and the last drain. The error is want of memory, and comes before any worker starts.
fn loaded<R: Threads + Wait + Sync, G: Gate + Sync>(
    rt: &R,
    alloc: Global,
    count: u32,
    gate: &G,
) -> Result<Link, AllocError>
    requires least { 1 ≤ count }
    requires most { count ≤ 65536 }
    ensures script { IfOk result (λ link. link.script ≡ load_script count) }
    ensures load { IfOk result (λ link. IsLoad count link.log.history) }
{
    work(rt, alloc, load_link(alloc, count)?, gate)
}

/// The sums over both lanes of the accepted, the delivered and the lost datagrams.
#[derive(Clone, Copy, Debug)]
struct Sums {
    taken: u64,
    given: u64,
    lost: u128,
}

/// The sums of a load's counts.
fn sums_of(outward: Tally, inward: Tally, _count: u32) -> Sums
    requires { IsWholeLoad _count outward inward }
    ensures taken { result.taken ≡ outward.taken + inward.taken }
    ensures given { result.given ≡ outward.given + inward.given }
    ensures lost { result.lost ≡ outward.failed + outward.cut + outward.dropped + (inward.failed + inward.cut + inward.dropped) }
{
    Sums {
        taken: outward.taken + inward.taken,
        given: outward.given + inward.given,
        lost: outward.failed
            + outward.cut
            + outward.dropped
            + (inward.failed + inward.cut + inward.dropped),
    }
}

/// Adds the line of a load's sums to a sink. At a write fault, which comes only where the sink's count of faults rose, the sink has grown by a front of it, and not by all of it.
fn print_sums<O: Sink>(
    out: &mut O,
    count: u32,
    script: &Script,
    journal: &Journal,
) -> Result<(), WriteFault>
    requires legal { Legal script.now journal.now.history }
    requires whole { IsLossless count journal.now.history }
    ensures writes { Writes (O.held out.old) (O.held out.new) (O.faults out.old) (O.faults out.new) (load_line count) result }
    ensures never_falls { O.faults out.old ≤ O.faults out.new }
{
    let found = go_over(script, journal, PACKET);
    let sums = sums_of(found.outward, found.inward, count);
    let mut line = Buffer::make();
    line.push(b"taken");
    number(&mut line, sums.taken);
    line.push(b" given");
    number(&mut line, sums.given);
    line.push(b" lost");
    number(&mut line, sums.lost as u64);
    line.push(b"\n");
    write_whole(out, line.as_slice())
}

/// Runs the generated script of so many frames by the eleven workers and a last drain, and prints the sums of what was accepted,
/// delivered and lost, counted over the lines of its history. The clauses say that the line is `taken N given N lost 0`, which the
/// number alone fixes; that a link was run for it is how this is built, and tests show it. The refusal is want of memory, and leaves
/// the sink as it is. No call after the first byte of output has an answer for want of memory.
pub(crate) fn load<R: Threads + Wait + Sync, O: Sink, G: Gate + Sync>(
    rt: &R,
    alloc: Global,
    out: &mut O,
    count: u32,
    gate: &G,
) -> Ending
    requires least { 1 ≤ count }
    requires most { count ≤ 65536 }
    ensures does { Does (Loads count) (O.held out.old) (O.held out.new) (O.faults out.old) (O.faults out.new) result }
    ensures never_falls { O.faults out.old ≤ O.faults out.new }
{
    let link = loaded(rt, alloc, count, gate)?;
    Ok(print_sums(out, count, link.script(), link.journal()))
}
