//! Guards: the right to work on the machine.

ghost use Rattle.std.specs.Prelude.{◌≡◌, ◌++◌, ℕ, ◌<◌, true, false, []};
ghost use Rattle.un_facts.specs.Numbers.{one_if};
ghost use Rattle.un_journal.specs.Flights.{times, Takes, Loses};
ghost use Rattle.un_turn.specs.Steps.{left};
ghost use Rattle.un_turn.specs.Views.{Follows};

use crate::seat::{Seat, Token};
use crate::turn::Turn;
use std::marker::{Brand, Model};
use un_frame::Lane;
use un_journal::{Got, Machine};

/// The turn was held: the word that the exchange found, which is 1, and the seat, which counts a loss.
#[derive(Drop)]
pub struct Held<M: Machine> {
    pub word: u64,
    pub seat: Seat<M>,
}

/// The right to work on the machine. Contracts see of which turn it is, what its seat knew when it entered, the machine, and
/// whether a call was made; at most one is. A guard that is dropped without `leave` keeps the turn for good, and its seat
/// can't be joined.
#[derive(Drop)]
pub struct Guard<'a, M: Machine> {
    pub(crate) turn: &'a Turn<M>,
    pub(crate) token: Token<M>,
    pub(crate) machine: M,
    pub(crate) called: bool,
}

impl<'a, M: Machine> Model for Guard<'a, M> {
    ghost use Rattle.std.specs.Prelude.{◌≡◌, ◌<◌, ℕ, true, None, [], ◌∷◌, Some};
    ghost use Rattle.atomic_table.specs.Seated.{TableId};
    ghost use Rattle.un_turn.specs.Views.{Hold, KeepsMachine};

    ghost Value = { Hold M M.Script };

    ghost view = { λ h. record { turn = h.token.table_id; id = h.token.id; view = h.token.me.0; machine = h.machine; called = h.called } };

    ghost invariant = { λ h. (h.token.table_id ≡ h.turn.now) × (h.token.me.1 ≡ (0, None) ∷ []) × (h.token.me.0.heard ≡ []) × KeepsMachine M.script M.history M.flights h.token.me.0 h.machine h.called };
}

impl<M: Machine> Guard<'_, M> {
    /// Performs an action. It answers what the machine answers at the history found, and adds the lines of that call.
    pub fn perform(&mut self, action: M::Act) -> M::Ans
        requires { self.old.called ≡ false }
        ensures answer { result ≡ M.answer (M.script self.old.machine) (M.history self.old.machine) action }
        ensures history { M.history self.new.machine ≡ M.history self.old.machine ++ M.lines (M.script self.old.machine) (M.history self.old.machine) action }
        ensures script { M.script self.new.machine ≡ M.script self.old.machine }
        ensures flights { M.flights self.new.machine ≡ M.flights self.old.machine }
        ensures called { self.new.called ≡ true }
        ensures same { (self.new.turn ≡ self.old.turn) × (self.new.id ≡ self.old.id) × (self.new.view ≡ self.old.view) }
    {
        self.called = true;
        self.machine.step(action)
    }

    /// Tries to take a flight of a lane. Once the guard has left, its seat alone knows the flight.
    pub fn take_part(&mut self, lane: Lane) -> Got<M::Part>
        requires { self.old.called ≡ false }
        ensures taken { Takes M.flight_of result (M.taken (M.script self.old.machine) (M.history self.old.machine) lane) (M.flights self.old.machine) (M.flights self.new.machine) }
        ensures history { M.history self.new.machine ≡ M.history self.old.machine ++ M.taken_lines (M.script self.old.machine) (M.history self.old.machine) lane }
        ensures script { M.script self.new.machine ≡ M.script self.old.machine }
        ensures called { self.new.called ≡ true }
        ensures same { (self.new.turn ≡ self.old.turn) × (self.new.id ≡ self.old.id) × (self.new.view ≡ self.old.view) }
    {
        self.called = true;
        self.machine.take_part(lane)
    }

    /// Lands a flight that the seat knows.
    pub fn land_part(&mut self, done: M::Done) -> M::Ans
        requires once { self.old.called ≡ false }
        requires known { 0 < times (M.carried_flight_of done) self.old.view.known }
        ensures answer { result ≡ M.landed (M.script self.old.machine) (M.history self.old.machine) (M.carried_flight_of done).transfer }
        ensures history { M.history self.new.machine ≡ M.history self.old.machine ++ M.landed_lines (M.script self.old.machine) (M.history self.old.machine) (M.carried_flight_of done).transfer }
        ensures script { M.script self.new.machine ≡ M.script self.old.machine }
        ensures flights { Loses (M.carried_flight_of done) (M.flights self.old.machine) (M.flights self.new.machine) }
        ensures called { self.new.called ≡ true }
        ensures same { (self.new.turn ≡ self.old.turn) × (self.new.id ≡ self.old.id) × (self.new.view ≡ self.old.view) }
    {
        self.called = true;
        self.machine.land_part(done)
    }

    /// Whether the machine has no work left; no flight is out then. It is no call.
    pub fn finished(&self) -> bool
        ensures answer { result ≡ M.is_finished (M.script self.now.machine) (M.history self.now.machine) }
        ensures none_out { result ≡ true → M.flights self.now.machine ≡ [] }
    {
        self.machine.finished()
    }

    /// Gives the turn back. The seat has seen the machine's history, which ends with the lines of the call; it has one call more,
    /// or as many where none was made; and it knows one flight more, or one less, where the machine's flights are so.
    pub fn leave(self) -> Seat<M>
        ensures turn { (result.turn ≡ self.entry.turn) × (result.id ≡ self.entry.id) }
        ensures view { result.view ≡ left self.entry.view (one_if self.entry.called) (M.history self.entry.machine) result.view.known }
        ensures known { Follows self.entry.view.flying (M.flights self.entry.machine) self.entry.view.known result.view.known }
    {
        let Guard {
            turn,
            mut token,
            machine,
            called,
        } = self;
        drop(turn.table.shared.exchange(&mut token, 0, Some(machine)));
        turn.free::<Brand>(&mut token, called);
        turn.wake();
        Seat { token }
    }
}
