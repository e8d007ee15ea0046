//! All workers at once, by nested joins of threads.

ghost use Rattle.std.specs.Prelude.{◌≡◌, ◌+◌, ◌-◌, ◌*◌, ◌<◌, ◌≤◌, ℕ, []};
ghost use Rattle.std.specs.Thread.{IsSend, IsSync};
ghost use Rattle.un_share.specs.Workers.{Worked};

use crate::gate::Gate;
use crate::roles::LAST_ACTOR;
use crate::rota::Rota;
use crate::workers::run;
use std::sync::Wait;
use std::thread::{Threads, join};
use un_journal::{Action, Answer, Machine};
use un_turn::{Seat, Turn};

/// A turn as the workers share it, by what its seats have seen and counted. A closure that is sent to a thread holds the turn and a
/// seat through this bound, since it can't hold both with the machine's type in sight.
pub trait SharedTurn<S> {
    ghost use Rattle.std.specs.Prelude.{◌≡◌, ◌<◌, List, Bool, []};
    ghost use Rattle.un_journal.specs.History.{History};
    ghost use Rattle.un_turn.specs.declared.view.View.{View};
    ghost use Rattle.un_turn.specs.Views.{StartsWith};
    ghost use Rattle.un_turn.specs.Steps.{split_left, split_right, joined};
    ghost use Rattle.un_share.specs.Workers.{Worked};

    /// A seat.
    type Place;

    ghost is_finished: { S → History → Bool };

    // The place is one of this turn.
    ghost is_here: { Self → Self.Place → Type 0 };

    ghost view: { Self.Place → View S };

    /// A second place, with one share.
    fn split(&self, place: Self::Place) -> (Self::Place, Self::Place)
        requires here { is_here self.now place }
        requires shares { 1 < (view place).shares }
        ensures here { is_here self.now result.0 × is_here self.now result.1 }
        ensures views { (view result.0 ≡ split_left 1 (view place)) × (view result.1 ≡ split_right 1 (view place)) };

    /// One place of two.
    fn join(&self, left: Self::Place, right: Self::Place) -> Self::Place
        requires here { is_here self.now left × is_here self.now right }
        requires none_known { (view right).known ≡ [] }
        ensures here { is_here self.now result }
        ensures view { view result ≡ joined (view left) (view right) }
        ensures longer { StartsWith (view result).seen (view left).seen × StartsWith (view result).seen (view right).seen };

    /// The turns of one worker.
    fn work<R: Wait, G: Gate>(
        &self,
        rt: &R,
        place: Self::Place,
        gate: &G,
        rota: &Rota,
        actor: u32,
    ) -> Self::Place
        requires here { is_here self.now place }
        requires none_known { (view place).known ≡ [] }
        ensures here { is_here self.now result }
        ensures worked { Worked is_finished (view place) (view result) 65536 };
}

impl<M: Machine<Act = Action, Ans = Answer>> SharedTurn<M::Script> for Turn<M> {
    type Place = Seat<M>;

    ghost is_finished = { M.is_finished };

    ghost is_here = { λ turn seat. seat.turn ≡ turn };

    ghost view = { λ seat. seat.view };

    fn split(&self, place: Seat<M>) -> (Seat<M>, Seat<M>) {
        Turn::split(self, place, 1)
    }

    fn join(&self, left: Seat<M>, right: Seat<M>) -> Seat<M> {
        Turn::join(self, left, right)
    }

    fn work<R: Wait, G: Gate>(
        &self,
        rt: &R,
        place: Seat<M>,
        gate: &G,
        rota: &Rota,
        actor: u32,
    ) -> Seat<M> {
        run(rt, self, place, gate, rota, actor)
    }
}

// The workers from an actor on: the others in a thread of their own, beside this one.
fn run_from<
    R: Threads + Wait + Sync,
    S,
    T: SharedTurn<S, Place = P> + Sync,
    P: Send + Drop,
    G: Gate + Sync,
>(rt: &R, turn: &T, place: P, gate: &G, rota: &Rota, actor: u32) -> P
    requires here { T.is_here turn.now place }
    requires none_known { (T.view place).known ≡ [] }
    requires actor { actor ≤ 10 }
    requires shares { 11 ≤ (T.view place).shares + actor }
    ensures here { T.is_here turn.now result }
    ensures worked { Worked T.is_finished (T.view place) (T.view result) (65536 * (11 - actor)) }
{
    if actor >= LAST_ACTOR {
        return turn.work(rt, place, gate, rota, actor);
    }
    let (others, mine) = turn.split(place);
    let (others, mine) = join(
        rt,
        move || -> P
            requires { IsSync R.row × IsSync T.row × IsSend P.row × IsSync G.row × T.is_here turn.now others × ((T.view others).known ≡ []) × (actor < 10) × (10 ≤ (T.view others).shares + actor) }
            ensures here { T.is_here turn.entry.now result }
            ensures worked { Worked T.is_finished (T.view others) (T.view result) (65536 * (10 - actor)) }
        { run_from(rt, turn, others, gate, rota, actor + 1) },
        move || -> P
            requires { T.is_here turn.now mine × ((T.view mine).known ≡ []) }
            ensures here { T.is_here turn.entry.now result }
            ensures worked { Worked T.is_finished (T.view mine) (T.view result) 65536 }
        { turn.work(rt, mine, gate, rota, actor) },
    );
    turn.join(others, mine)
}

/// Runs the eleven workers, each with a seat of its own and in a thread of its own (where the system has none to give, another worker's
/// thread does its work), until the machine is finished or each has given up; that they end isn't promised. The seat has at least 11
/// shares and knows no flight. Afterwards it has the shares it had and knows no
/// flight, and what it has seen begins with what it had seen; and what it has seen has a beginning at which the machine is
/// finished, or it has at least 720,896 calls more, which is 65,536 for each worker. It refuses nothing, and takes no memory but
/// what the system takes for the threads.
pub fn run_workers<
    R: Threads + Wait + Sync,
    M: Machine<Act = Action, Ans = Answer> + Send,
    G: Gate + Sync,
>(rt: &R, turn: &Turn<M>, seat: Seat<M>, gate: &G) -> Seat<M>
    requires turn { seat.turn ≡ turn.now }
    requires none_known { seat.view.known ≡ [] }
    requires shares { 11 ≤ seat.view.shares }
    ensures turn { result.turn ≡ turn.now }
    ensures worked { Worked M.is_finished seat.view result.view 720896 }
{
    let rota = Rota::new();
    run_from(rt, turn, seat, gate, &rota, 0)
}
