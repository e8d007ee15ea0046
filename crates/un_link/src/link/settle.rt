//! The end of a stop.

ghost use Rattle.std.specs.Prelude.{◌≡◌, ◌==◌, ◌&&◌, ◌∷◌, []};
ghost use Rattle.un_journal.specs.History.{past};
ghost use Rattle.un_journal.specs.LaneSteps.{Writes, bare};
ghost use Rattle.un_journal.specs.Step.{all_home, away, settle, settled_line};
ghost use Rattle.un_link.specs.Link.{Steps};

use crate::link::LinkOver;
use un_endpoint::{RxEnd, TxEnd};
use un_frame::Params;
use un_journal::{Answer, Line};
use un_script::{phase_settled, stops};

/// Whether so many requests are all of their pools.
fn are_full(params: &Params, tx_out: u32, rx_out: u32, tx_in: u32, rx_in: u32) -> bool
    ensures { result ≡ (tx_out == params.now.tx_out && rx_out == params.now.rx_out && tx_in == params.now.tx_in && rx_in == params.now.rx_in) }
{
    tx_out == params.tx_out
        && rx_out == params.rx_out
        && tx_in == params.tx_in
        && rx_in == params.rx_in
}

impl<A: TxEnd + Drop, B: RxEnd + Drop, C: TxEnd + Drop, D: RxEnd + Drop> LinkOver<A, B, C, D> {
    /// Settles a stop once every request is home.
    pub(crate) fn settle(&mut self) -> Answer
        ensures { Steps self.old self.new (settle self.old.script self.old.log.history) result }
    {
        if !stops(self.shared.phase) {
            return Answer::Nothing;
        }
        if !self.has_all_home() {
            return Answer::Away {
                count: self.requests_away(),
            };
        }
        self.end_stop()
    }

    /// Ends a stop: the halts are cleared.
    fn end_stop(&mut self) -> Answer
        requires { settle self.old.script self.old.log.history ≡ Writes (bare (settled_line self.old.script self.old.log.history) ∷ []) }
        ensures { Steps self.old self.new (settle self.old.script self.old.log.history) result }
    {
        let (tx_out, rx_out) = self.out.path.homes();
        let (tx_in, rx_in) = self.inward.path.homes();
        self.shared.journal.push(
            Line::Settled {
                tx_out,
                rx_out,
                tx_in,
                rx_in,
            },
            &[],
        );
        self.out.path.settle();
        self.inward.path.settle();
        let phase = phase_settled(self.shared.phase);
        self.shared.phase = phase;
        Answer::Did
    }

    /// Whether every request of both lanes is home.
    pub(crate) fn has_all_home(&self) -> bool
        ensures { result ≡ all_home self.now.script self.now.log.history }
    {
        let params = self.shared.script.params();
        let (tx_out, rx_out) = self.out.path.homes();
        let (tx_in, rx_in) = self.inward.path.homes();
        are_full(params, tx_out, rx_out, tx_in, rx_in)
    }

    /// How many requests of both lanes aren't home.
    pub(crate) fn requests_away(&self) -> u64
        ensures { result ≡ away self.now.script self.now.log.history }
    {
        let params = self.shared.script.params();
        let (tx_out, rx_out) = self.out.path.homes();
        let (tx_in, rx_in) = self.inward.path.homes();
        let pools = u64::from(params.tx_out)
            + u64::from(params.rx_out)
            + u64::from(params.tx_in)
            + u64::from(params.rx_in);
        let homes = u64::from(tx_out) + u64::from(rx_out) + u64::from(tx_in) + u64::from(rx_in);
        pools.saturating_sub(homes)
    }
}
