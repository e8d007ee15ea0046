//! A lane's half of a link, and the work of its lane.

ghost use Rattle.std.specs.Prelude.{◌≡◌, [], IfOk, Some};
ghost use Rattle.un_journal.specs.Step.{ClearHalt, Refill, Unlink};
ghost use Rattle.un_lane.specs.Fresh.{AreFresh};
ghost use Rattle.un_lane.specs.Stands.{Stands};
ghost use Rattle.un_link.specs.Halves.{Does, Ready, acts_on, work_of};
ghost use Rattle.un_script.specs.Cursors.{nothing_read};

use crate::shared::Shared;
use std::alloc::{AllocError, Global};
use un_endpoint::{RxEnd, TxEnd};
use un_frame::{Lane, Phase};
use un_journal::{Action, Answer};
use un_lane::Path;
use un_script::{Cursors, sleeps};

/// A lane's half of a link: its path, and how far its feeds are read. Each call that writes does so into what both lanes share.
#[derive(Drop)]
pub struct Half<T: TxEnd + Drop, R: RxEnd + Drop> {
    pub(crate) path: Path<T, R>,
    pub(crate) read: Cursors,
}

impl<T: TxEnd + Drop, R: RxEnd + Drop> Half<T, R> {
    /// A half over two fresh ends with all of their requests home, whose feeds are unread. The error is want of memory.
    pub(crate) fn make(
        alloc: Global,
        lane: Lane,
        tx: T,
        rx: R,
        tx_count: u32,
        rx_count: u32,
    ) -> Result<Half<T, R>, AllocError>
        requires { AreFresh lane (T.transmitter tx) (R.receiver rx) tx_count rx_count }
        ensures { IfOk result (λ h. Stands h.path [] × (h.path.lane ≡ lane) × (h.path.tx ≡ T.transmitter tx) × (h.read ≡ nothing_read)) }
    {
        let path = Path::make(alloc, lane, tx, rx, tx_count, rx_count)?;
        Ok(Half {
            path,
            read: Cursors::start(),
        })
    }

    /// Does an action of this lane, but for a move.
    pub(crate) fn perform(&mut self, shared: &mut Shared, action: Action) -> Answer
        requires own { acts_on action ≡ Some self.old.path.lane }
        requires ready { Ready (work_of self.old.path.lane action) shared.old self.old }
        ensures { Does (work_of self.old.path.lane action) shared.old shared.new self.old self.new result }
    {
        match action {
            Action::Offer { lane, sender } => self.offer(shared, lane, sender),
            Action::Tick { .. } => self.path.tick(&mut shared.journal, sleeps(shared.phase)),
            Action::TxDone { .. } => self.path.tx_done(&mut shared.journal),
            Action::RxDone { .. } => self.path.rx_done(&mut shared.journal),
            Action::Deliver { .. } => self.path.deliver(&mut shared.journal),
            Action::Refill { .. } => self.refill(shared),
            Action::Unlink { .. } => self.unlink(shared),
            Action::ClearHalt { .. } => self.clear_halt(shared),
            Action::Move { .. } => unreachable!(),
            Action::Control { .. } => unreachable!(),
            Action::Settle => unreachable!(),
        }
    }

    /// Posts a receive request of an awake link.
    fn refill(&mut self, shared: &mut Shared) -> Answer
        requires { Ready (Refill self.old.path.lane) shared.old self.old }
        ensures { Does (Refill self.old.path.lane) shared.old shared.new self.old self.new result }
    {
        let phase = shared.phase;
        match phase {
            Phase::Up => self.path.refill(&mut shared.journal),
            Phase::Asleep => Answer::Asleep,
            _ => Answer::Down { phase },
        }
    }

    /// Clears the halt of an awake link.
    fn clear_halt(&mut self, shared: &mut Shared) -> Answer
        requires { Ready (ClearHalt self.old.path.lane) shared.old self.old }
        ensures { Does (ClearHalt self.old.path.lane) shared.old shared.new self.old self.new result }
    {
        let phase = shared.phase;
        match phase {
            Phase::Up => self.path.clear_halt(&mut shared.journal),
            Phase::Asleep => Answer::Asleep,
            _ => Answer::Down { phase },
        }
    }

    /// Goes on with a stop, whose control was the last that was done.
    fn unlink(&mut self, shared: &mut Shared) -> Answer
        requires { Ready (Unlink self.old.path.lane) shared.old self.old }
        ensures { Does (Unlink self.old.path.lane) shared.old shared.new self.old self.new result }
    {
        let cause = shared.next_control.saturating_sub(1);
        match shared.phase {
            Phase::Stopping => self.path.unlink(&mut shared.journal, cause),
            _ => Answer::Nothing,
        }
    }
}
