//! What a link tells. No reading takes memory or changes anything.

ghost use Rattle.std.specs.Prelude.{◌≡◌, ◌&&◌, true, not};
ghost use Rattle.un_frame.specs.declared.params.Lane.TheVariants.{Outward, Inward};
ghost use Rattle.un_journal.specs.Done.{IsFinished};
ghost use Rattle.un_journal.specs.Fits.{IsDone, Legal};
ghost use Rattle.un_journal.specs.History.{past};
ghost use Rattle.un_journal.specs.Lookup.{phase_of, rx_home, tx_home};
ghost use Rattle.un_journal.specs.Step.{Settle, is_still, quiet, work, offers_still};
ghost use Rattle.un_link.specs.Ends.{is_finished};
ghost use Rattle.un_link.specs.Lawful.{AtEveryMoment};
ghost use Rattle.un_link.specs.Link.{Holds};
ghost use Rattle.un_link.specs.Requests.{KeepsRequests};

use crate::homes::Homes;
use crate::link::LinkOver;
use un_endpoint::{RxEnd, TxEnd};
use un_frame::{Lane, Phase};
use un_journal::{Census, Journal};
use un_script::{Script, stops};

impl<A: TxEnd + Drop, B: RxEnd + Drop, C: TxEnd + Drop, D: RxEnd + Drop> LinkOver<A, B, C, D> {
    /// The phase.
    pub fn phase(&self) -> Phase
        ensures { result ≡ phase_of self.now.script self.now.log.history }
    {
        self.shared.phase
    }

    /// Lends the history. It is legal, and at every moment, that is after each of its steps, the laws hold: each accepted datagram is in exactly one place; what was given rises strictly and is unchanged; each
    /// loss has its cause; and each `settled` line found every request home, as its four numbers say. Of the link itself each request of each pool is in exactly one place, and as many are in all places together as the
    /// pool has.
    pub fn journal(&self) -> &Journal
        ensures log { result.now ≡ self.now.log }
        ensures legal { Legal self.now.script self.now.log.history }
        ensures moments { AtEveryMoment self.now.script self.now.log.history }
        ensures requests { KeepsRequests self.now.out × KeepsRequests self.now.inward }
    {
        &self.shared.journal
    }

    /// Lends the script that the link was made with.
    pub fn script(&self) -> &Script
        ensures { result.now ≡ self.now.script }
    {
        &self.shared.script
    }

    /// What holds of each link: its history is legal, and all that it keeps is what the history says.
    pub fn prove_holds(&self)
        ensures { Holds self.now }
    {
        let _ = &self.shared;
    }

    /// How many requests of each pool are home.
    pub fn homes(&self) -> Homes
        ensures tx_out { result.tx_out ≡ tx_home self.now.script.params Outward (past Outward self.now.log.history) }
        ensures rx_out { result.rx_out ≡ rx_home self.now.script.params Outward (past Outward self.now.log.history) }
        ensures tx_in { result.tx_in ≡ tx_home self.now.script.params Inward (past Inward self.now.log.history) }
        ensures rx_in { result.rx_in ≡ rx_home self.now.script.params Inward (past Inward self.now.log.history) }
    {
        let (tx_out, rx_out) = self.out.path.homes();
        let (tx_in, rx_in) = self.inward.path.homes();
        Homes {
            tx_out,
            rx_out,
            tx_in,
            rx_in,
        }
    }

    /// Whether no flight is out and no action but a control would answer `Did`. It takes constant time.
    pub fn quiet(&self) -> bool
        ensures { result ≡ quiet self.now.script self.now.log.history }
    {
        let out = self.out.path.still(self.shared.phase);
        let inward = self.inward.path.still(self.shared.phase);
        let offers = self.offers_nothing();
        let settles = self.would_settle();
        are_all(out, inward, offers, !settles)
    }

    /// Whether the link is quiet and no control is left; then no step fits any more, no flight is out, each stop is settled, and each datagram is given or lost, or waits in a sleeping link.
    pub fn finished(&self) -> bool
        ensures answer { result ≡ is_finished self.now.script self.now.log.history }
        ensures done { result ≡ true → IsDone self.now.script self.now.log.history }
        ensures finished { result ≡ true → IsFinished self.now.script self.now.log.history }
    {
        self.quiet() && self.shared.next_control == self.shared.script.control_count()
    }

    /// Whether no offer would take or refuse a frame.
    fn offers_nothing(&self) -> bool
        ensures { result ≡ (offers_still self.now.script self.now.log.history Outward && offers_still self.now.script self.now.log.history Inward) }
    {
        self.out.offers_nothing(&self.shared, Lane::Outward)
            && self.inward.offers_nothing(&self.shared, Lane::Inward)
    }

    /// Whether a stop would settle.
    fn would_settle(&self) -> bool
        ensures { is_still (work self.now.script self.now.log.history Settle) ≡ not result }
    {
        let away = self.requests_away();
        stops(self.shared.phase) && away == 0
    }
}

/// Whether all of these hold.
fn are_all(first: bool, second: bool, third: bool, fourth: bool) -> bool
    ensures { result ≡ ((first && second) && (third && fourth)) }
{
    first && second && third && fourth
}
