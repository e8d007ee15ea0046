//! A small machine, a bounded queue whose items fly, with which the turn and its workers are run at a concrete type.
//!
//! ```text
//! let mut queue = Queue::make(alloc, 5)?;                             // five items may be offered
//! queue.step(Action::Offer { lane: Lane::Outward, sender: 0 });       // Did, and Nothing after five
//! if let Got::Part(part) = queue.take_part(Lane::Outward) {           // the item flies
//!     let done = Queue::carry(part);                                  // nobody needs the queue for this
//!     queue.land_part(done);                                          // and it has landed
//! }
//! let (turn, seat) = Turn::make(alloc, queue, 2)?;                    // behind a lock, as any machine
//! ```
//!
//! A `Queue` has `make` and `journal` of its own; all else it does as a `Machine` of un_journal. Its items go outward,
//! one at a time; every action but such an offer answers `Nothing`. It is finished once as many items have landed as it
//! may have. A [`QueuePart`] and a [`QueueDone`] can't be dropped: what flies is landed.
#![tactic(auto)]

ghost use Rattle.std.specs.Prelude.{◌≡◌, ◌+◌, ◌*◌, ◌<◌, ◌≤◌, ◌++◌, ℕ, [], IfOk};
ghost use Rattle.un_frame.specs.declared.params.Lane.TheVariants.{Outward};
ghost use Rattle.un_journal.specs.declared.actions.Action.TheVariants.{Offer};
ghost use Rattle.un_journal.specs.Flights.{times, Takes, Loses};
ghost use Rattle.un_toy.specs.Queue.{took_in, flown_in, landed_in, transfer, flight, flights_of, answer_of, lines_of, taken_of, taken_lines_of, landed_lines_of};

mod part;
#[cfg(test)]
mod tests;

pub use part::{QueueDone, QueuePart};
use std::alloc::{AllocError, Global};
use std::marker::Model;
use un_frame::Lane;
use un_journal::{Action, Answer, Got, Journal, Line, Machine};

/// What a queue is to do, which contracts see as the number of its items.
#[derive(Drop)]
pub struct Plan {
    limit: u64,
}

impl Model for Plan {
    ghost use Rattle.std.specs.Prelude.{ℕ};

    ghost Value = { ℕ };

    ghost view = { λ p. p.limit };
}

/// A queue of so many items: each is offered outward, flies and lands, one flight at a time. It keeps its history.
#[derive(Drop)]
pub struct Queue {
    plan: Plan,
    journal: Journal,
    offered: u64,
    flown: u64,
    landed: u64,
    ghost offers: { offered ≡ took_in journal.history },
    ghost flights: { flown ≡ flown_in journal.history },
    ghost landings: { landed ≡ landed_in journal.history },
    ghost order: { (landed ≤ flown) × (flown ≤ landed + 1) × (flown ≤ offered) × (offered ≤ plan) },
    ghost room: { 3 * plan ≤ journal.spare_lines + offered + flown + landed },
}

impl Machine for Queue {
    ghost use Rattle.un_journal.specs.declared.actions.Answer.TheVariants.{Did};
    ghost use Rattle.un_toy.specs.Queue.{flight, flights_of, answer_of, lines_of, taken_of, taken_lines_of, landed_lines_of, is_finished};

    type Act = Action;

    type Ans = Answer;

    type Part = QueuePart;

    type Done = QueueDone;

    type Script = Plan;

    ghost script = { λ q. q.plan };

    ghost history = { λ q. q.journal.history };

    ghost flights = { λ q. flights_of q.flown q.landed };

    ghost flight_of = { λ p. flight p.serial };

    ghost carried_flight_of = { λ p. flight p.serial };

    ghost answer = { answer_of };

    ghost lines = { lines_of };

    ghost taken = { λ _. taken_of };

    ghost taken_lines = { λ _. taken_lines_of };

    ghost landed = { λ _ _ _. Did };

    ghost landed_lines = { λ _ _. landed_lines_of };

    ghost is_finished = { is_finished };

    fn step(&mut self, action: Action) -> Answer {
        match action {
            Action::Offer {
                lane: Lane::Outward,
                sender,
            } => self.offer(sender),
            _ => Answer::Nothing,
        }
    }

    fn take_part(&mut self, lane: Lane) -> Got<QueuePart> {
        match lane {
            Lane::Outward => self.fly(),
            Lane::Inward => Got::Not(Answer::Nothing),
        }
    }

    fn carry(part: QueuePart) -> QueueDone {
        part.carry()
    }

    fn land_part(&mut self, done: QueueDone) -> Answer {
        let QueueDone { serial } = done;
        self.land(serial);
        Answer::Did
    }

    fn finished(&self) -> bool {
        self.landed >= self.plan.limit
    }
}

impl Queue {
    /// A queue of so many items, fewer than 1,000,000, of which none was offered yet. The error is want of memory.
    pub fn make(alloc: Global, limit: u64) -> Result<Queue, AllocError>
        requires { limit < 1000000 }
        ensures { IfOk result (λ q. (q.plan ≡ limit) × (q.journal.history ≡ []) × (flights_of q.flown q.landed ≡ [])) }
    {
        Ok(Queue {
            plan: Plan { limit },
            journal: Journal::make(alloc, 3 * limit, 0)?,
            offered: 0,
            flown: 0,
            landed: 0,
        })
    }

    /// Its history.
    pub fn journal(&self) -> &Journal
        ensures { result.now ≡ self.now.journal }
    {
        &self.journal
    }
}

impl Queue {
    // Adds an item while there is room.
    fn offer(&mut self, sender: u32) -> Answer
        ensures answer { result ≡ answer_of self.old.plan self.old.journal.history (Offer Outward sender) }
        ensures history { self.new.journal.history ≡ self.old.journal.history ++ lines_of self.old.plan self.old.journal.history (Offer Outward sender) }
        ensures same { (self.new.plan ≡ self.old.plan) × (self.new.flown ≡ self.old.flown) × (self.new.landed ≡ self.old.landed) }
    {
        if self.offered >= self.plan.limit {
            return Answer::Nothing;
        }
        let lane = Lane::Outward;
        self.journal.push(Line::Took { lane, sender }, &[]);
        self.offered += 1;
        Answer::Did
    }

    // The next item flies where none does.
    fn fly(&mut self) -> Got<QueuePart>
        ensures taken { Takes (λ p. flight p.serial) result (taken_of self.old.journal.history Outward) (flights_of self.old.flown self.old.landed) (flights_of self.new.flown self.new.landed) }
        ensures history { self.new.journal.history ≡ self.old.journal.history ++ taken_lines_of self.old.journal.history Outward }
        ensures same { self.new.plan ≡ self.old.plan }
    {
        if self.flown >= self.offered || self.landed < self.flown {
            return Got::Not(Answer::Nothing);
        }
        let (lane, serial) = (Lane::Outward, self.flown);
        self.journal.push(Line::Flying { lane, serial }, &[]);
        self.flown += 1;
        Got::Part(QueuePart { serial })
    }

    // The item that is out lands.
    fn land(&mut self, serial: u64)
        requires { 0 < times (flight serial) (flights_of self.old.flown self.old.landed) }
        ensures history { self.new.journal.history ≡ self.old.journal.history ++ landed_lines_of (transfer serial) }
        ensures same { self.new.plan ≡ self.old.plan }
        ensures flights { Loses (flight serial) (flights_of self.old.flown self.old.landed) (flights_of self.new.flown self.new.landed) }
    {
        let lane = Lane::Outward;
        self.journal.push(Line::Landed { lane, serial }, &[]);
        self.landed += 1;
    }
}
