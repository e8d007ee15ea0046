//! A link between a host and a gadget.

ghost use Rattle.std.specs.Prelude.{◌≡◌, [], IfOk, Ok};
ghost use Rattle.un_frame.specs.declared.kinds.Phase.TheVariants.{Up};
ghost use Rattle.un_link.specs.Link.{flights_of};
ghost use Rattle.un_setup.specs.Agreement.{agreed_of};

use crate::link::LinkOver;
use std::alloc::{AllocError, Global};
use un_gadget::{GadRx, GadTx};
use un_host::{HostRx, HostTx};
use un_script::Script;
use un_setup::Agreed;

/// A link between the host's two ends and the gadget's.
pub type Link = LinkOver<HostTx, GadRx, GadTx, HostRx>;

impl LinkOver<HostTx, GadRx, GadTx, HostRx> {
    /// A link in phase `Up` with an empty history and every request home. `agreed` is what the two ends agree on for the script's parameters. The error is want of memory; no later call takes any.
    pub fn make(alloc: Global, script: Script, agreed: &Agreed) -> Result<Link, AllocError>
        requires { agreed_of script.params ≡ Ok agreed.now }
        ensures { IfOk result (λ l. (l.script ≡ script) × (l.log.history ≡ []) × (l.phase ≡ Up) × (flights_of l ≡ [])) }
    {
        script.prove_ready();
        let params = agreed.params;
        let (out_tx, in_rx) = un_host::make(alloc, &params)?;
        let (in_tx, out_rx) = un_gadget::make(alloc, &params)?;
        LinkOver::make_over(alloc, script, out_tx, out_rx, in_tx, in_rx)
    }
}
