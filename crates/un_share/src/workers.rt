//! Single workers, each with a seat of its own.

ghost use Rattle.std.specs.Prelude.{◌≡◌, ◌+◌, ◌≤◌, ℕ, []};
ghost use Rattle.un_share.specs.Workers.{Worked};

use crate::gate::Gate;
use crate::holds::{act, land, take};
use crate::roles::{Role, action_of, role_of};
use crate::rota::Rota;
use crate::shift::Shift;
use std::sync::Wait;
use un_frame::Lane;
use un_journal::{Action, Answer, Got, Machine};
use un_turn::{Seat, Turn};

/// The holds in a row that didn't answer `Did` after which a worker ends.
const IDLE_HOLDS: u64 = 65536;

/// A worker's turns, until the machine is finished or it gives up. It knows no flight when it ends.
pub(crate) fn run<R: Wait, M: Machine<Act = Action, Ans = Answer>, G: Gate>(
    rt: &R,
    turn: &Turn<M>,
    seat: Seat<M>,
    gate: &G,
    rota: &Rota,
    actor: u32,
) -> Seat<M>
    requires turn { seat.turn ≡ turn.now }
    requires none_known { seat.view.known ≡ [] }
    ensures turn { result.turn ≡ turn.now }
    ensures worked { Worked M.is_finished seat.view result.view 65536 }
{
    let mut shift = Shift::begin(rt, rota, actor);
    let seat = take_turns(rt, turn, seat, gate, &mut shift, actor);
    shift.end(rt);
    seat
}

// The turns of a worker that has begun.
fn take_turns<R: Wait, M: Machine<Act = Action, Ans = Answer>, G: Gate>(
    rt: &R,
    turn: &Turn<M>,
    seat: Seat<M>,
    gate: &G,
    shift: &mut Shift<'_>,
    actor: u32,
) -> Seat<M>
    requires turn { seat.turn ≡ turn.now }
    requires none_known { seat.view.known ≡ [] }
    ensures turn { result.turn ≡ turn.now }
    ensures worked { Worked M.is_finished seat.view result.view 65536 }
{
    match role_of(actor) {
        Role::Completion { lane } => complete(rt, turn, seat, gate, shift, actor, lane),
        role => perform(rt, turn, seat, gate, shift, actor, role),
    }
}

// The worker that performs its role's actions.
fn perform<R: Wait, M: Machine<Act = Action, Ans = Answer>, G: Gate>(
    rt: &R,
    turn: &Turn<M>,
    seat: Seat<M>,
    gate: &G,
    shift: &mut Shift<'_>,
    actor: u32,
    role: Role,
) -> Seat<M>
    requires turn { seat.turn ≡ turn.now }
    requires none_known { seat.view.known ≡ [] }
    ensures turn { result.turn ≡ turn.now }
    ensures worked { Worked M.is_finished seat.view result.view 65536 }
{
    let mut seat = seat;
    let mut idle = 0;
    for count in 0..u64::MAX {
        if idle >= IDLE_HOLDS {
            return seat;
        }
        gate.before(rt, actor, count);
        let action = action_of(role, count);
        let (answer, after) = act(rt, turn, seat, action);
        seat = after;
        match answer {
            None => return seat,
            Some(Answer::Did) => {
                idle = 0;
                shift.did(action);
            }
            Some(answer) => {
                idle += 1;
                shift.found(rt, answer);
            }
        }
    }
    seat
}

// The completion of a lane: it takes a flight in one hold, copies it outside the turn, and lands it in its next hold.
fn complete<R: Wait, M: Machine<Act = Action, Ans = Answer>, G: Gate>(
    rt: &R,
    turn: &Turn<M>,
    seat: Seat<M>,
    gate: &G,
    shift: &mut Shift<'_>,
    actor: u32,
    lane: Lane,
) -> Seat<M>
    requires turn { seat.turn ≡ turn.now }
    requires none_known { seat.view.known ≡ [] }
    ensures turn { result.turn ≡ turn.now }
    ensures worked { Worked M.is_finished seat.view result.view 65536 }
{
    let mut seat = seat;
    let mut idle = 0;
    let mut count: u64 = 0;
    for round in 0..u64::MAX {
        if idle >= IDLE_HOLDS {
            return seat;
        }
        gate.before(rt, actor, count);
        count = count.wrapping_add(1);
        let (got, after) = take(rt, turn, seat, lane);
        match got {
            None => return after,
            Some(Got::Part(part)) => {
                gate.holding(rt, actor);
                let done = M::carry(part);
                gate.before(rt, actor, count);
                count = count.wrapping_add(1);
                seat = land(rt, turn, after, done);
                idle = 0;
                shift.did(Action::Move { lane });
            }
            Some(Got::Cut) => {
                seat = after;
                idle = 0;
                shift.did(Action::Move { lane });
            }
            Some(Got::Not(answer)) => {
                seat = after;
                idle += 1;
                shift.found(rt, answer);
            }
        }
    }
    seat
}
