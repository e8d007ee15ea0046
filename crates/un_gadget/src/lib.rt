//! The gadget's two ends: it transmits on the inward lane and receives on the outward one.
//!
//! ```text
//! let (mut tx, mut rx) = un_gadget::make(alloc, &params)?;
//! tx.offer(frame, number, serial);      // as TxEnd: a frame becomes part of a transfer to the host
//! let empty = rx.refill();              // as RxEnd: a request for a transfer from the host
//! ```
//!
//! `make` is its one call of its own. The calls of `GadTx` are those of `LaneTx` in un_transmit, those of `GadRx` are those of `LaneRx` in un_receive.
#![tactic(auto)]

ghost use Rattle.std.specs.Prelude.{◌≡◌, IfOk};
ghost use Rattle.un_endpoint.specs.Sound.{fresh_tx};
ghost use Rattle.un_frame.specs.Params.{Agree, AreInRange};
ghost use Rattle.un_frame.specs.declared.params.Lane.TheVariants.{Inward, Outward};
ghost use Rattle.un_receive.specs.Rx.{fresh_rx};

use std::alloc::{AllocError, Global};
use un_frame::Params;

/// Transmits to the host, with `tx_in` requests. Each of them stands in one place at most.
pub type GadTx = un_transmit::LaneTx<un_agg::GadWrap>;

/// Receives from the host, with `rx_out` requests. Each of them stands in one place at most.
pub type GadRx = un_receive::LaneRx<un_receive::Outward>;

/// The gadget's two ends on a link of these parameters, with all of their requests home. It takes all the memory that they will ever need; an error is want of memory.
pub fn make(alloc: Global, params: &Params) -> Result<(GadTx, GadRx), AllocError>
    requires in_range { AreInRange params.now }
    requires agree { Agree params.now }
    ensures { IfOk result (λ ends. (ends.0 ≡ fresh_tx Inward params.now) × (ends.1 ≡ fresh_rx Outward params.now)) }
{
    let tx = GadTx::make(alloc, params)?;
    let rx = GadRx::make(alloc, params)?;
    Ok((tx, rx))
}
