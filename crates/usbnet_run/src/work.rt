//! The eleven workers on one link.

ghost use Rattle.std.specs.Prelude.{◌≡◌, [], IfOk};
ghost use Rattle.un_link.specs.Link.{flights_of};
ghost use Rattle.usbnet_run.specs.Kept.{IsKept};

use std::alloc::{AllocError, Global};
use std::sync::Wait;
use std::thread::Threads;
use un_link::Link;
use un_share::{Gate, run_workers};
use un_turn::Turn;

/// How many workers share the turn.
const WORKERS: u32 = 11;

/// Lets all workers run a link out of which nothing flies, under one turn, and drains what they leave. Whatever order the seats win the
/// turn in, the link has its script, and its history is what the drain makes of a legal history of it out of which nothing flies: so
/// its clauses say. That it is the one history which was kept under the turn is how this is built: the link moves into the turn and
/// out of it again. The error is want of memory, and comes before any worker starts.
pub(crate) fn work<R: Threads + Wait + Sync, G: Gate + Sync>(
    rt: &R,
    alloc: Global,
    link: Link,
    gate: &G,
) -> Result<Link, AllocError>
    requires none_out { flights_of link ≡ [] }
    ensures script { IfOk result (λ done. done.script ≡ link.script) }
    ensures kept { IfOk result (λ done. IsKept link.script done.log.history) }
{
    let boxed = Box::new(alloc, link)?;
    let (turn, seat) = Turn::make(alloc, boxed, WORKERS)?;
    let seat = run_workers(rt, &turn, seat, gate);
    let mut link = Box::into_inner(turn.close(seat));
    link.prove_holds();
    link.drain();
    Ok(link)
}
