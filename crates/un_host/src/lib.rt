//! The host's two ends: it transmits on the outward lane and receives on the inward one.
//!
//! ```text
//! let (mut tx, mut rx) = un_host::make(alloc, &params)?;
//! tx.offer(frame, number, serial);      // as TxEnd: a frame becomes part of a transfer to the gadget
//! let empty = rx.refill();              // as RxEnd: a request for a transfer from the gadget
//! ```
//!
//! `make` is its one call of its own. The calls of `HostTx` are those of `LaneTx` in un_transmit, those of `HostRx` are those of `LaneRx` in un_receive.
#![tactic(auto)]

ghost use Rattle.std.specs.Prelude.{◌≡◌, IfOk};
ghost use Rattle.un_endpoint.specs.Sound.{fresh_tx};
ghost use Rattle.un_frame.specs.Params.{Agree, AreInRange};
ghost use Rattle.un_frame.specs.declared.params.Lane.TheVariants.{Inward, Outward};
ghost use Rattle.un_receive.specs.Rx.{fresh_rx};

use std::alloc::{AllocError, Global};
use un_frame::Params;

/// Transmits to the gadget, with `tx_out` requests. Each of them stands in one place at most.
pub type HostTx = un_transmit::LaneTx<un_agg::HostAgg>;

/// Receives from the gadget, with `rx_in` requests. Each of them stands in one place at most.
pub type HostRx = un_receive::LaneRx<un_receive::Inward>;

/// The host's two ends on a link of these parameters, with all of their requests home. It takes all the memory that they will ever need; an error is want of memory.
pub fn make(alloc: Global, params: &Params) -> Result<(HostTx, HostRx), AllocError>
    requires in_range { AreInRange params.now }
    requires agree { Agree params.now }
    ensures { IfOk result (λ ends. (ends.0 ≡ fresh_tx Outward params.now) × (ends.1 ≡ fresh_rx Inward params.now)) }
{
    let tx = HostTx::make(alloc, params)?;
    let rx = HostRx::make(alloc, params)?;
    Ok((tx, rx))
}
