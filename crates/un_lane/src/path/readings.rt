//! What a path tells. No reading takes memory or changes anything.

ghost use Rattle.std.specs.Prelude.{◌≡◌, ◌≤◌, List, ℕ, length, not};
ghost use Rattle.un_endpoint.specs.Bus.{flying_serial};
ghost use Rattle.un_endpoint.specs.EndOutcomes.{with_frame};
ghost use Rattle.un_journal.specs.Census.{lane_census};
ghost use Rattle.un_journal.specs.History.{History, taken};
ghost use Rattle.un_journal.specs.LaneSteps.{accept};
ghost use Rattle.un_journal.specs.Lookup.{is_asleep, rx_home, tx_home};
ghost use Rattle.un_journal.specs.Step.{is_still};
ghost use Rattle.un_frame.specs.declared.kinds.Phase.{Phase as LinkPhase};
ghost use Rattle.un_lane.specs.Phases.{Agrees};
ghost use Rattle.un_lane.specs.Stands.{Stands};
ghost use Rattle.un_lane.specs.Still.{is_idle, is_lane_still, posts_nothing, stays, takes_nothing};

use crate::path::Path;
use un_endpoint::{RxEnd, TxEnd};
use un_frame::Phase;
use un_journal::Census;

impl<T: TxEnd + Drop, R: RxEnd + Drop> Path<T, R> {
    /// How many datagrams were accepted.
    pub fn accepted(&self) -> u64
        ensures now { result ≡ self.now.accepted }
        ensures lines { (g : History) → Stands self.now g → result ≡ taken g }
    {
        self.accepted
    }

    /// How many transfers are queued.
    pub fn queued(&self) -> u32
        ensures { result ≡ length self.now.bus.queue }
    {
        self.bus.queued()
    }

    /// The serial of the transfer that flies.
    pub fn flying(&self) -> Option<u64>
        ensures { result ≡ flying_serial self.now.bus.flight }
    {
        self.bus.flying()
    }

    /// How many transmit requests are home, and how many receive requests.
    pub fn homes(&self) -> (u32, u32)
        ensures tx { result.0 ≡ length self.now.tx.home }
        ensures rx { result.1 ≡ length self.now.rx.home }
        ensures lines { (g : History) → Stands self.now g → (result.0 ≡ tx_home self.now.tx.params self.now.lane g) × (result.1 ≡ rx_home self.now.tx.params self.now.lane g) }
    {
        (self.tx.home(), self.rx.home())
    }

    /// Whether an offer of a frame of `length` bytes, a segment at most, would not answer `Busy`.
    pub fn can_offer(&self, length: u32) -> bool
        ensures { (g : History) (sender : ℕ) (frame : List ℕ) → Stands self.now g → Rattle.std.specs.Prelude.length frame ≡ length → length ≤ self.now.tx.params.segment → is_still (accept self.now.tx.params self.now.lane sender (with_frame self.now.tx frame) g) ≡ not result }
    {
        self.tx.can_offer(length)
    }

    /// Whether no flight is out and in this phase, which is the link's, none of Tick, Take, TxDone, RxDone, Deliver, Refill, Unlink and ClearHalt of the lane would answer `Did`. It takes constant time.
    pub fn still(&self, phase: Phase) -> bool
        ensures now { result ≡ stays phase self.now }
        ensures lines { (frames : List (List ℕ)) (cause : ℕ) (g : History) → Stands self.now g → Agrees (is_asleep phase) self.now → result ≡ is_lane_still self.now.tx.params phase self.now.lane frames cause g }
    {
        self.stays(phase)
    }

    /// How often the number of a datagram stands in each place of the path; `given` and `lost` are 0. It walks the path's own lists.
    pub fn census(&self, number: u64) -> Census
        ensures { (phase : LinkPhase) (g : History) → Stands self.now g → Agrees (is_asleep phase) self.now → result ≡ record (lane_census self.now.tx.params phase self.now.lane g number) { given = 0; lost = 0 } }
    {
        let (builder, remainder, deferred) = self.tx.tx_census(number);
        let (queued, flying) = self.bus.census(number);
        let (arrived, current) = self.rx.rx_census(number);
        Census {
            builder,
            remainder,
            deferred,
            queued,
            flying,
            arrived,
            current,
            given: 0,
            lost: 0,
        }
    }

    /// Whether nothing flies, and the two ends have nothing to do: no tick would wait or close, nothing is done, nothing has arrived and nothing is current.
    fn is_idle(&self) -> bool
        ensures { result ≡ is_idle self.now }
    {
        self.bus.flying().is_none()
            && !self.tx.can_tick()
            && self.tx.done() == 0
            && self.rx.arrived() == 0
            && !self.rx.current()
    }

    /// Whether nothing flies and the path has nothing to do in this phase, by what it has.
    fn stays(&self, phase: Phase) -> bool
        ensures { result ≡ stays phase self.now }
    {
        self.is_idle() && self.takes_nothing(phase) && self.posts_nothing(phase)
    }

    /// Whether the first queued transfer stays, where nothing flies.
    fn takes_nothing(&self, phase: Phase) -> bool
        ensures { result ≡ takes_nothing (is_asleep phase) self.now.bus }
    {
        if self.bus.queued() == 0 {
            return true;
        }
        !self.bus.head_marked()
            && (phase == Phase::Asleep || self.bus.halted() || self.bus.posted() == 0)
    }

    /// Whether no request is posted or recalled, nothing is marked and no halt is cleared.
    fn posts_nothing(&self, phase: Phase) -> bool
        ensures { result ≡ posts_nothing phase self.now }
    {
        match phase {
            Phase::Up => self.rx.home() == 0 && !self.bus.halted(),
            Phase::Stopping => self.bus.unmarked() == 0 && self.bus.posted() == 0,
            _ => true,
        }
    }
}
