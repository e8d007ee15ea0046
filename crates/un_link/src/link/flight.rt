//! Flights that are taken out of a link and landed.

ghost use Rattle.std.specs.Prelude.{◌≡◌, ◌++◌, ◌<◌};
ghost use Rattle.un_journal.specs.declared.actions.Action.TheVariants.{Move};
ghost use Rattle.un_journal.specs.declared.actions.Answer.TheVariants.{Did};
ghost use Rattle.un_journal.specs.Flights.{Loses, Takes, times};
ghost use Rattle.un_journal.specs.Step.{outcome};
ghost use Rattle.un_lane.specs.Answered.{UnlessTaken};
ghost use Rattle.un_link.specs.Flights.{LandsIn, TakesFrom, flight_of, landed_lines, taken_lines, taken_of};
ghost use Rattle.un_link.specs.Link.{Steps, flights_of};

use crate::flight::{LinkCarried, LinkFlight};
use crate::link::LinkOver;
use un_endpoint::{RxEnd, TxEnd};
use un_frame::Lane;
use un_journal::{Answer, Got};

impl<A: TxEnd + Drop, B: RxEnd + Drop, C: TxEnd + Drop, D: RxEnd + Drop> LinkOver<A, B, C, D> {
    /// Takes a flight of a lane out of the link: the first queued transfer with the first posted request. A marked transfer is cut instead. The first that applies is the answer: a flight of the lane is out
    /// (`Flying`); nothing is queued (`Nothing`); the first is marked (`Cut`); the link sleeps (`Asleep`); the endpoint is halted (`Halted`); nothing is posted (`NoBuffer`).
    pub fn take_flight(&mut self, lane: Lane) -> Got<LinkFlight>
        ensures taken { Takes flight_of result (taken_of self.old.script self.old.log.history lane) (flights_of self.old) (flights_of self.new) }
        ensures script { self.new.script ≡ self.old.script }
        ensures history { self.new.log.history ≡ self.old.log.history ++ taken_lines self.old.script self.old.log.history lane }
        ensures lanes { TakesFrom lane self.old self.new result }
        ensures refused { UnlessTaken result (self.new ≡ self.old) }
    {
        match lane {
            Lane::Outward => self.out.take(&mut self.shared, lane),
            Lane::Inward => self.inward.take(&mut self.shared, lane),
        }
    }

    /// Lands a flight that is out of this link, carried: it is cut where it was marked; where a fault is planned for it, it is queued again before all others or fails, as the plan says; and else it has landed. The answer is `Did`.
    pub fn land_flight(&mut self, carried: LinkCarried) -> Answer
        requires { 0 < times (flight_of carried) (flights_of self.old) }
        ensures answer { result ≡ Did }
        ensures script { self.new.script ≡ self.old.script }
        ensures history { self.new.log.history ≡ self.old.log.history ++ landed_lines self.old.script self.old.log.history (flight_of carried).transfer }
        ensures flights { Loses (flight_of carried) (flights_of self.old) (flights_of self.new) }
        ensures lanes { LandsIn carried.lane self.old self.new }
    {
        match carried.lane {
            Lane::Outward => self.out.land(&mut self.shared, carried),
            Lane::Inward => self.inward.land(&mut self.shared, carried),
        }
        Answer::Did
    }

    /// Takes a flight of a lane, copies it and lands it.
    pub(crate) fn move_flight(&mut self, lane: Lane) -> Answer
        ensures { Steps self.old self.new (outcome self.old.script self.old.log.history (Move lane)) result }
    {
        match self.take_flight(lane) {
            Got::Part(flight) => self.land_flight(flight.carry()),
            Got::Cut => {
                // None of the lane's flights is out, so nothing would land.
                let _ = &self.shared;
                Answer::Did
            }
            Got::Not(answer) => answer,
        }
    }
}
