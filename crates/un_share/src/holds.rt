//! Single holds of the turn: a worker asks whether the machine is finished and, where it isn't, makes one call.

ghost use Rattle.std.specs.Prelude.{◌≡◌, ℕ, true, [], MatchOption};
ghost use Rattle.un_share.specs.Workers.{HasFinished, Later, KnowsOnly, Attempted};

use std::sync::Wait;
use un_frame::Lane;
use un_journal::{Action, Answer, Got, Machine};
use un_turn::{Seat, Turn};

/// One action, or nothing where the machine is finished.
pub(crate) fn act<R: Wait, M: Machine<Act = Action, Ans = Answer>>(
    rt: &R,
    turn: &Turn<M>,
    seat: Seat<M>,
    action: Action,
) -> (Option<Answer>, Seat<M>)
    requires turn { seat.turn ≡ turn.now }
    requires none_known { seat.view.known ≡ [] }
    ensures turn { result.1.turn ≡ turn.now }
    ensures none_known { result.1.view.known ≡ [] }
    ensures view { MatchOption result.0
        (Later seat.view result.1.view 0 × HasFinished M.is_finished result.1.view.script result.1.view.seen)
        (λ _. Later seat.view result.1.view 1) }
{
    let mut guard = turn.enter(rt, seat);
    if guard.finished() {
        return (None, guard.leave());
    }
    let answer = guard.perform(action);
    (Some(answer), guard.leave())
}

/// One attempt to take a flight, or nothing where the machine is finished.
pub(crate) fn take<R: Wait, M: Machine<Act = Action, Ans = Answer>>(
    rt: &R,
    turn: &Turn<M>,
    seat: Seat<M>,
    lane: Lane,
) -> (Option<Got<M::Part>>, Seat<M>)
    requires turn { seat.turn ≡ turn.now }
    requires none_known { seat.view.known ≡ [] }
    ensures turn { result.1.turn ≡ turn.now }
    ensures known { Attempted M.flight_of result.0 result.1.view.known }
    ensures view { MatchOption result.0
        (Later seat.view result.1.view 0 × HasFinished M.is_finished result.1.view.script result.1.view.seen)
        (λ _. Later seat.view result.1.view 1) }
{
    let mut guard = turn.enter(rt, seat);
    if guard.finished() {
        return (None, guard.leave());
    }
    let got = guard.take_part(lane);
    (Some(got), guard.leave())
}

/// Lands the one flight that the seat knows. It is out, so the machine isn't finished and needn't be asked.
pub(crate) fn land<R: Wait, M: Machine<Act = Action, Ans = Answer>>(
    rt: &R,
    turn: &Turn<M>,
    seat: Seat<M>,
    done: M::Done,
) -> Seat<M>
    requires turn { seat.turn ≡ turn.now }
    requires known { KnowsOnly (M.carried_flight_of done) seat.view.known }
    ensures turn { result.turn ≡ turn.now }
    ensures none_known { result.view.known ≡ [] }
    ensures view { Later seat.view result.view 1 }
{
    let mut guard = turn.enter(rt, seat);
    guard.land_part(done);
    guard.leave()
}
