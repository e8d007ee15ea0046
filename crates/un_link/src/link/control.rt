//! The controls of a link.

ghost use Rattle.std.specs.Prelude.{◌≡◌, Some, not, is_some, length, reverse, slice_get};
ghost use Rattle.un_journal.specs.History.{past, taken};
ghost use Rattle.un_journal.specs.Lookup.{controls_done, feed_head, feeds_empty};
ghost use Rattle.un_journal.specs.Step.{control, control_now, hinders, is_due};
ghost use Rattle.un_lane.specs.Stands.{flight_serial};
ghost use Rattle.un_link.specs.Link.{Steps};

use crate::link::LinkOver;
use crate::orders::obey;
use un_endpoint::{RxEnd, TxEnd};
use un_frame::Lane;
use un_journal::{Answer, Control, Due, Line};
use un_lane::Path;
use un_script::{phase_after, stops};

/// How many flights of a lane are out: one or none.
fn flights_out<T: TxEnd + Drop, R: RxEnd + Drop>(path: &Path<T, R>) -> u64
    ensures { result ≡ length (flight_serial path.now.bus.flight) }
{
    match path.flying() {
        Some(_) => 1,
        None => 0,
    }
}

impl<A: TxEnd + Drop, B: RxEnd + Drop, C: TxEnd + Drop, D: RxEnd + Drop> LinkOver<A, B, C, D> {
    /// Does the first control that isn't done, where it is due, or where it is forced and the link is quiet.
    pub(crate) fn control(&mut self, force: bool) -> Answer
        ensures { Steps self.old self.new (control self.old.script self.old.log.history force) result }
    {
        let Some(due) = self.shared.script.control(self.shared.next_control) else {
            return Answer::NoControl;
        };
        let phase = self.shared.phase;
        if stops(phase) {
            return Answer::Down { phase };
        }
        if self.is_due(due) {
            return self.order(due, false);
        }
        if force && self.quiet() {
            return self.order(due, true);
        }
        Answer::NotDue {
            have: self.accepted(due.lane),
            want: due.want,
        }
    }

    /// Does a control that may be done now, unless transfers hinder it.
    fn order(&mut self, due: Due, forced: bool) -> Answer
        requires head { slice_get self.old.script.controls (controls_done (reverse self.old.log.history)) ≡ Some due }
        requires fits { control self.old.script self.old.log.history forced ≡ control_now self.old.script self.old.log.history due forced }
        ensures { Steps self.old self.new (control_now self.old.script self.old.log.history due forced) result }
    {
        let count = self.hinders(due.control);
        if count > 0 {
            return Answer::InFlight { count };
        }
        self.shared.script.prove_ready();
        let index = self.shared.next_control;
        let phase = phase_after(due.control, self.shared.phase);
        self.shared
            .journal
            .push(Line::Control { index, forced }, &[]);
        obey(
            &mut self.out.path,
            &mut self.inward.path,
            &mut self.shared,
            due.control,
        );
        self.shared.phase = phase;
        self.shared.next_control = index + 1;
        Answer::Did
    }

    /// Whether a control is due: `want` datagrams were accepted in its lane, or all feeds of that lane are empty. It takes constant time.
    fn is_due(&self, due: Due) -> bool
        ensures { result ≡ is_due self.now.script self.now.log.history due }
    {
        due.want <= self.accepted(due.lane) || self.has_spent(due.lane)
    }

    /// How many transfers are queued outward or fly in either lane, for a suspend; 0 for every other control.
    fn hinders(&self, control: Control) -> u64
        ensures { result ≡ hinders control self.now.phase (past Lane.Outward self.now.log.history) (past Lane.Inward self.now.log.history) }
    {
        match control {
            Control::Suspend => self.in_flight(),
            _ => 0,
        }
    }

    /// How many transfers are queued outward or fly in either lane.
    fn in_flight(&self) -> u64
        ensures { result ≡ hinders Control.Suspend self.now.phase (past Lane.Outward self.now.log.history) (past Lane.Inward self.now.log.history) }
    {
        u64::from(self.out.path.queued())
            + flights_out(&self.out.path)
            + flights_out(&self.inward.path)
    }

    /// How many datagrams of a lane were accepted.
    pub(crate) fn accepted(&self, lane: Lane) -> u64
        ensures { result ≡ taken (past lane self.now.log.history) }
    {
        match lane {
            Lane::Outward => self.out.path.accepted(),
            Lane::Inward => self.inward.path.accepted(),
        }
    }

    /// Whether the feeds of a lane are empty.
    fn has_spent(&self, lane: Lane) -> bool
        ensures { result ≡ feeds_empty self.now.script lane (past lane self.now.log.history) }
    {
        self.is_spent(lane, 0)
            && self.is_spent(lane, 1)
            && self.is_spent(lane, 2)
            && self.is_spent(lane, 3)
    }

    /// Whether a sender's feed is empty.
    pub(crate) fn is_spent(&self, lane: Lane, sender: u32) -> bool
        ensures { result ≡ not (is_some (feed_head self.now.script lane (past lane self.now.log.history) sender)) }
    {
        let script = &self.shared.script;
        match lane {
            Lane::Outward => self.out.is_spent(script, lane, sender),
            Lane::Inward => self.inward.is_spent(script, lane, sender),
        }
    }
}
