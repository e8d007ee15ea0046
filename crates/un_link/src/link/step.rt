//! The steps of a link.

ghost use Rattle.std.specs.Prelude.{◌≡◌, ◌++◌, Some};
ghost use Rattle.un_journal.specs.Step.{answer_of, step_of, work};
ghost use Rattle.un_lane.specs.Answered.{UnlessDid};
ghost use Rattle.un_link.specs.Halves.{acts_on, work_of};
ghost use Rattle.un_link.specs.Link.{Steps, flights_of};

use crate::link::LinkOver;
use un_endpoint::{RxEnd, TxEnd};
use un_frame::Lane;
use un_journal::{Action, Answer};

impl<A: TxEnd + Drop, B: RxEnd + Drop, C: TxEnd + Drop, D: RxEnd + Drop> LinkOver<A, B, C, D> {
    /// Performs an action, and answers as its rules say: the first that applies. Every answer but `Did` leaves link and history as they were. A step takes constant time and that of the bytes that it moves; a control takes it for each request that it marks, cuts, queues or recalls.
    pub fn step(&mut self, action: Action) -> Answer
        ensures answer { result ≡ answer_of self.old.script self.old.log.history action }
        ensures script { self.new.script ≡ self.old.script }
        ensures history { self.new.log.history ≡ self.old.log.history ++ step_of self.old.script self.old.log.history action }
        ensures flights { flights_of self.new ≡ flights_of self.old }
        ensures refused { UnlessDid result (self.new ≡ self.old) }
    {
        match action {
            Action::Offer { lane, .. } => self.lane_work(lane, action),
            Action::Tick { lane } => self.lane_work(lane, action),
            Action::Move { lane } => self.move_flight(lane),
            Action::TxDone { lane } => self.lane_work(lane, action),
            Action::RxDone { lane } => self.lane_work(lane, action),
            Action::Deliver { lane } => self.lane_work(lane, action),
            Action::Refill { lane } => self.lane_work(lane, action),
            Action::Unlink { lane } => self.lane_work(lane, action),
            Action::ClearHalt { lane } => self.lane_work(lane, action),
            Action::Control { force } => self.control(force),
            Action::Settle => self.settle(),
        }
    }

    /// Does an action of one lane, but for a move.
    fn lane_work(&mut self, lane: Lane, action: Action) -> Answer
        requires { acts_on action ≡ Some lane }
        ensures { Steps self.old self.new (work self.old.script self.old.log.history (work_of lane action)) result }
    {
        match lane {
            Lane::Outward => self.out.perform(&mut self.shared, action),
            Lane::Inward => self.inward.perform(&mut self.shared, action),
        }
    }
}
