//! The serial drain.

ghost use Rattle.std.specs.Prelude.{◌≡◌, ◌<◌, ◌++◌, [], Some, slice_get, true};
ghost use Rattle.un_frame.specs.declared.params.Lane.{Lane as JournalLane};
ghost use Rattle.un_journal.specs.Done.{IsFinished};
ghost use Rattle.un_journal.specs.Drain.{drain, round, run};
ghost use Rattle.un_journal.specs.Fits.{IsDone};
ghost use Rattle.un_journal.specs.History.{given, past};
ghost use Rattle.un_journal.specs.Step.{step_of};
ghost use Rattle.un_journal.specs.Unplug.{AwaitsUnplug, IsPrefix, IsSettledAway};
ghost use Rattle.un_link.specs.Drain.{DrainsOn};
ghost use Rattle.un_link.specs.Link.{flights_of};

use crate::link::LinkOver;
use un_endpoint::{RxEnd, TxEnd};
use un_frame::Lane;
use un_journal::{Action, Answer};

/// A round of the serial drain: the 26 actions, each once, in this order; the first is the control's.
pub static ROUND: [Action; 26] = [
    Action::Control { force: false },
    Action::Refill {
        lane: Lane::Outward,
    },
    Action::Refill { lane: Lane::Inward },
    Action::Offer {
        lane: Lane::Outward,
        sender: 0,
    },
    Action::Offer {
        lane: Lane::Outward,
        sender: 1,
    },
    Action::Offer {
        lane: Lane::Outward,
        sender: 2,
    },
    Action::Offer {
        lane: Lane::Outward,
        sender: 3,
    },
    Action::Offer {
        lane: Lane::Inward,
        sender: 0,
    },
    Action::Offer {
        lane: Lane::Inward,
        sender: 1,
    },
    Action::Offer {
        lane: Lane::Inward,
        sender: 2,
    },
    Action::Offer {
        lane: Lane::Inward,
        sender: 3,
    },
    Action::Tick {
        lane: Lane::Outward,
    },
    Action::Tick { lane: Lane::Inward },
    Action::Move {
        lane: Lane::Outward,
    },
    Action::Move { lane: Lane::Inward },
    Action::TxDone {
        lane: Lane::Outward,
    },
    Action::TxDone { lane: Lane::Inward },
    Action::RxDone {
        lane: Lane::Outward,
    },
    Action::RxDone { lane: Lane::Inward },
    Action::Deliver {
        lane: Lane::Outward,
    },
    Action::Deliver { lane: Lane::Inward },
    Action::Unlink {
        lane: Lane::Outward,
    },
    Action::Unlink { lane: Lane::Inward },
    Action::ClearHalt {
        lane: Lane::Outward,
    },
    Action::ClearHalt { lane: Lane::Inward },
    Action::Settle,
];

impl<A: TxEnd + Drop, B: RxEnd + Drop, C: TxEnd + Drop, D: RxEnd + Drop> LinkOver<A, B, C, D> {
    /// Repeats a round of every action; after a round that did nothing the next control is forced. It ends after a round that did nothing with no control left. No flight is out at its start; afterwards the link is finished. Where an unplug was the one control left it is away: the `settled` line is the last of its history, every request is at home, and every datagram is at the peer or lost. What was given before begins what is given then.
    pub fn drain(&mut self)
        requires { flights_of self.old ≡ [] }
        ensures script { self.new.script ≡ self.old.script }
        ensures history { self.new.log.history ≡ drain self.old.script self.old.log.history }
        ensures done { IsDone self.new.script self.new.log.history }
        ensures finished { IsFinished self.new.script self.new.log.history }
        ensures cut { AwaitsUnplug self.old.script self.old.log.history → IsSettledAway self.new.script self.new.log.history }
        ensures kept { (lane : JournalLane) → IsPrefix (given (past lane self.old.log.history)) (given (past lane self.new.log.history)) }
        ensures flights { flights_of self.new ≡ [] }
    {
        let _ = &self.shared;
        while self.drain_on() {}
    }

    /// A round, and where it did nothing a forced control; false where that did nothing either.
    fn drain_on(&mut self) -> bool
        ensures { DrainsOn self.old self.new result }
    {
        let before = self.shared.journal.len();
        self.round();
        if self.shared.journal.len() > before {
            return true;
        }
        self.step(Action::Control { force: true });
        self.shared.journal.len() > before
    }

    /// Every action once.
    fn round(&mut self)
        ensures script { self.new.script ≡ self.old.script }
        ensures history { self.new.log.history ≡ run self.old.script self.old.log.history round }
        ensures flights { flights_of self.new ≡ flights_of self.old }
    {
        for index in 0..26 {
            self.perform(action_at(index));
        }
    }

    /// Performs an action of the round. An offer from a feed without a further frame would write nothing, so it isn't made: most
    /// offers are such, and seeing it costs less than the answer.
    fn perform(&mut self, action: Action)
        ensures script { self.new.script ≡ self.old.script }
        ensures history { self.new.log.history ≡ self.old.log.history ++ step_of self.old.script self.old.log.history action }
        ensures flights { flights_of self.new ≡ flights_of self.old }
    {
        if !self.passes_over(action) {
            self.step(action);
        }
    }

    /// Whether an action is an offer from a feed without a further frame.
    fn passes_over(&self, action: Action) -> bool
        ensures { result ≡ true → step_of self.now.script self.now.log.history action ≡ [] }
    {
        match action {
            Action::Offer { lane, sender } => self.is_spent(lane, sender),
            _ => false,
        }
    }
}

/// The action of the round with this index.
fn action_at(index: usize) -> Action
    requires { index < 26 }
    ensures { slice_get round index ≡ Some result }
{
    ROUND[index]
}
