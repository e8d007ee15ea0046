//! The turn and its workers over a queue: one thread, two and eleven.

ghost use Rattle.std.specs.Prelude.{◌≡◌, ◌<◌, ℕ, []};

use super::*;
use std::sync::Wait;
use std::test::Fail;
use std::thread::{Threads, join};
use un_share::{OpenGate, run_workers};
use un_turn::{Held, Seat, Turn};

const OFFER: Action = Action::Offer {
    lane: Lane::Outward,
    sender: 0,
};

#[test]
fn a_held_turn_is_refused(rt: HostRuntime) -> Result<(), Fail> {
    let (turn, seat) = Turn::make(rt.alloc(), Queue::make(rt.alloc(), 5)?, 2)?;
    let (one, two) = turn.split(seat, 1);
    let mut guard = turn.enter(&rt, one);
    let Err(Held { word, seat: two }) = turn.try_enter(two) else {
        panic!(rt; "two have the turn")
    };
    assert_eq!(rt; word, 1);
    assert_eq!(rt; guard.perform(OFFER), Answer::Did);
    let seat = turn.join(guard.leave(), two);
    let queue = turn.close(seat);
    assert_eq!(rt; queue.journal().len(), 1);
    Ok(())
}

#[test]
fn a_flight_is_out_while_another_holds_the_turn(rt: HostRuntime) -> Result<(), Fail> {
    let (turn, seat) = Turn::make(rt.alloc(), Queue::make(rt.alloc(), 5)?, 2)?;
    let mut guard = turn.enter(&rt, seat);
    assert_eq!(rt; guard.perform(OFFER), Answer::Did);
    let (one, two) = turn.split(guard.leave(), 1);
    let mut guard = turn.enter(&rt, one);
    let Got::Part(part) = guard.take_part(Lane::Outward) else {
        panic!(rt; "nothing flies")
    };
    let one = guard.leave();
    let done = Queue::carry(part);
    let mut guard = turn.enter(&rt, two);
    let offered = guard.perform(OFFER);
    let two = guard.leave();
    let mut guard = turn.enter(&rt, one);
    let landed = guard.land_part(done);
    assert_eq!(rt; (offered, landed), (Answer::Did, Answer::Did));
    turn.join(guard.leave(), two);
    Ok(())
}

// Offers once, in a hold of its own.
fn offer<R: Wait>(rt: &R, turn: &Turn<Queue>, seat: Seat<Queue>) -> Seat<Queue>
    requires turn { seat.turn ≡ turn.now }
    requires none_known { seat.view.known ≡ [] }
    ensures turn { result.turn ≡ turn.now }
    ensures seat { (result.view.shares ≡ seat.view.shares) × (result.view.total ≡ seat.view.total) × (result.view.known ≡ []) }
{
    let mut guard = turn.enter(rt, seat);
    guard.perform(OFFER);
    guard.leave()
}

fn offer_twice<R: Threads + Wait + Sync>(
    rt: &R,
    turn: &Turn<Queue>,
    seat: Seat<Queue>,
) -> Seat<Queue>
    requires turn { seat.turn ≡ turn.now }
    requires none_known { seat.view.known ≡ [] }
    requires shares { 1 < seat.view.shares }
    ensures turn { result.turn ≡ turn.now }
    ensures seat { (result.view.shares ≡ seat.view.shares) × (result.view.total ≡ seat.view.total) × (result.view.known ≡ []) }
{
    let (one, two) = turn.split(seat, 1);
    let (one, two) = join(
        rt,
        move || -> Seat<Queue>
            requires { (one.turn ≡ turn.now) × (one.view.known ≡ []) }
            ensures turn { result.turn ≡ turn.entry.now }
            ensures seat { (result.view.shares ≡ one.view.shares) × (result.view.total ≡ one.view.total) × (result.view.known ≡ []) }
        { offer(rt, turn, one) },
        move || -> Seat<Queue>
            requires { (two.turn ≡ turn.now) × (two.view.known ≡ []) }
            ensures turn { result.turn ≡ turn.entry.now }
            ensures seat { (result.view.shares ≡ two.view.shares) × (result.view.total ≡ two.view.total) × (result.view.known ≡ []) }
        { offer(rt, turn, two) },
    );
    turn.join(one, two)
}

#[test]
fn two_threads_offer(rt: HostRuntime) -> Result<(), Fail> {
    let (turn, seat) = Turn::make(rt.alloc(), Queue::make(rt.alloc(), 2)?, 2)?;
    let seat = offer_twice(&rt, &turn, seat);
    let queue = turn.close(seat);
    assert_eq!(rt; queue.journal().len(), 2);
    Ok(())
}

#[test]
fn eleven_workers_offer_all(rt: HostRuntime) -> Result<(), Fail> {
    let (turn, seat) = Turn::make(rt.alloc(), Queue::make(rt.alloc(), 1000)?, 11)?;
    let seat = run_workers(&rt, &turn, seat, &OpenGate);
    let queue = turn.close(seat);
    assert!(rt; queue.journal().len() >= 1000);
    Ok(())
}
