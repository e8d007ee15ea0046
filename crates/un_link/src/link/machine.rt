//! A link as a machine that is worked on by turns.

use crate::flight::{LinkCarried, LinkFlight};
use crate::link::LinkOver;
use un_endpoint::{RxEnd, TxEnd};
use un_frame::Lane;
use un_journal::{Action, Answer, Got, Machine};
use un_script::Script;

impl<A: TxEnd + Drop, B: RxEnd + Drop, C: TxEnd + Drop, D: RxEnd + Drop> Machine
    for LinkOver<A, B, C, D> {
    ghost use Rattle.un_journal.specs.declared.actions.Answer.TheVariants.{Did};
    ghost use Rattle.un_journal.specs.Step.{answer_of, step_of};
    ghost use Rattle.un_link.specs.Ends.{is_finished};
    ghost use Rattle.un_link.specs.Flights.{flight_of, landed_lines, taken_lines, taken_of};
    ghost use Rattle.un_link.specs.Link.{flights_of};

    type Act = Action;

    type Ans = Answer;

    type Part = LinkFlight;

    type Done = LinkCarried;

    type Script = Script;

    ghost script = { λ l. l.script };

    ghost history = { λ l. l.log.history };

    ghost flights = { flights_of };

    ghost flight_of = { flight_of };

    ghost carried_flight_of = { flight_of };

    ghost answer = { answer_of };

    ghost lines = { step_of };

    ghost taken = { taken_of };

    ghost taken_lines = { taken_lines };

    ghost landed = { λ _ _ _. Did };

    ghost landed_lines = { landed_lines };

    ghost is_finished = { is_finished };

    fn step(&mut self, action: Action) -> Answer {
        self.step(action)
    }

    fn take_part(&mut self, lane: Lane) -> Got<LinkFlight> {
        self.take_flight(lane)
    }

    fn carry(part: LinkFlight) -> LinkCarried {
        part.carry()
    }

    fn land_part(&mut self, done: LinkCarried) -> Answer {
        self.land_flight(done)
    }

    fn finished(&self) -> bool {
        // What flies is what the history says.
        let _ = &self.shared;
        self.finished()
    }
}
