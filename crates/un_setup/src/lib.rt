//! The set-up of a link: the host and the device agree on its parameters by the requests that a host sends to a new
//! device.
//!
//! ```text
//! match agree(alloc, &params) {
//!     Ok(agreed) => {
//!         for exchange in agreed.exchanges.as_slice() { .. }      // a set-up packet, and the bytes with it
//!         let notes = agreed.notes.as_slice();                    // what the device then notified the host of
//!     }
//!     Err(SetupFault::NoMemory) => ..
//!     Err(fault) => ..                    // of NCM alone: BadDivisor, BadAlignment or NoFit
//! }
//! ```
//!
//! `agree` is the whole set-up: it tests the parameters, and then a host takes its steps in turn at a new `Device` of
//! un_classreq. An [`Agreed`] also has the parameters, which agree, and the function that the host read from the
//! configuration that crossed. The set-up of RNDIS stays out of this project: its two ends agree at once. `exchange_steps`
//! takes any steps at any device, until one is stalled. `exchanges_succeed` does nothing: its contract is the law that a
//! new device answers each step of the host.
#![tactic(auto)]

mod agreement;
mod exchange;
mod host;
mod laws;
mod steps;
mod tested;

pub use agreement::{Agreed, SetupFault};
pub use exchange::{Exchange, ExchangeFault, Exchanges, Notes};
pub use host::{agree, exchange_steps};
pub use laws::exchanges_succeed;
