//! A link over its four ends.

ghost use Rattle.std.specs.Prelude.{◌≡◌, [], IfOk};
ghost use Rattle.un_frame.specs.declared.kinds.Phase.TheVariants.{Up};
ghost use Rattle.un_frame.specs.declared.params.Lane.TheVariants.{Outward, Inward};
ghost use Rattle.un_frame.specs.Params.{Agree};
ghost use Rattle.un_lane.specs.Fresh.{AreFresh};
ghost use Rattle.un_link.specs.Link.{flights_of};

mod census;
mod control;
mod drain;
mod flight;
mod machine;
mod settle;
mod step;
mod tells;

use crate::half::Half;
use crate::shared::Shared;
pub use drain::ROUND;
use std::alloc::{AllocError, Global};
use std::marker::Model;
use un_endpoint::{RxEnd, TxEnd};
use un_frame::Lane;
use un_script::Script;

/// A link: two lanes between a host and a gadget, the script that says what is sent and done, and the one history of both lanes. `A` and `B` are the outward lane's transmitting and receiving
/// ends, `C` and `D` those of the inward lane. Contracts see it as its script, its history, and the two paths; at every moment the history is legal and all that the link keeps is what the history says. No call
/// after its making takes memory.
#[derive(Drop)]
pub struct LinkOver<A: TxEnd + Drop, B: RxEnd + Drop, C: TxEnd + Drop, D: RxEnd + Drop> {
    out: Half<A, B>,
    inward: Half<C, D>,
    shared: Shared,
}

impl<A: TxEnd + Drop, B: RxEnd + Drop, C: TxEnd + Drop, D: RxEnd + Drop> Model
    for LinkOver<A, B, C, D> {
    ghost use Rattle.un_link.specs.Link.{Holds, Link};

    ghost Value = { Link };

    ghost view = { λ l. record { script = l.shared.script; log = l.shared.journal; out = l.out.path; inward = l.inward.path; out_read = l.out.read; in_read = l.inward.read; phase = l.shared.phase; next_control = l.shared.next_control } };

    ghost invariant = { λ l. Holds (record { script = l.shared.script; log = l.shared.journal; out = l.out.path; inward = l.inward.path; out_read = l.out.read; in_read = l.inward.read; phase = l.shared.phase; next_control = l.shared.next_control }) };
}

impl<A: TxEnd + Drop, B: RxEnd + Drop, C: TxEnd + Drop, D: RxEnd + Drop> LinkOver<A, B, C, D> {
    /// A link in phase `Up` with an empty history and every request home, over four fresh ends with the script's parameters, which agree. The error is want of memory; no later call takes any.
    pub(crate) fn make_over(
        alloc: Global,
        script: Script,
        out_tx: A,
        out_rx: B,
        in_tx: C,
        in_rx: D,
    ) -> Result<LinkOver<A, B, C, D>, AllocError>
        requires agree { Agree script.params }
        requires out { AreFresh Outward (A.transmitter out_tx) (B.receiver out_rx) script.params.tx_out script.params.rx_out }
        requires inward { AreFresh Inward (C.transmitter in_tx) (D.receiver in_rx) script.params.tx_in script.params.rx_in }
        requires out_params { (A.transmitter out_tx).params ≡ script.params }
        requires in_params { (C.transmitter in_tx).params ≡ script.params }
        ensures { IfOk result (λ l. (l.script ≡ script) × (l.log.history ≡ []) × (l.phase ≡ Up) × (flights_of l ≡ [])) }
    {
        script.prove_ready();
        let params = *script.params();
        let (tx_count, rx_count) = (params.tx_out, params.rx_out);
        let out = Half::make(alloc, Lane::Outward, out_tx, out_rx, tx_count, rx_count)?;
        let (tx_count, rx_count) = (params.tx_in, params.rx_in);
        let inward = Half::make(alloc, Lane::Inward, in_tx, in_rx, tx_count, rx_count)?;
        let shared = Shared::make(alloc, script)?;
        Ok(LinkOver {
            out,
            inward,
            shared,
        })
    }
}
