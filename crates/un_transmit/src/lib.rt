//! The transmitting end of a lane, which the host and the gadget share: what differs is the builder.
//!
//! A frame is offered with its number and the serial that its transfer would get; a request that is made goes out, and comes back to be finished and brought home:
//!
//! ```text
//! let mut end = LaneTx::<HostAgg>::make(alloc, &params)?;
//! match end.offer(frame, number, serial) {
//!     Built::Busy => ..                 // building needs a request, and none is home
//!     Built::Kept => ..                 // it waits in an open block: tick() lets it wait, or closes it
//!     Built::Made(request) => ..        // to the endpoint, or defer(request) while the link sleeps
//! }
//! end.finish(request);                  // the bus is done with it
//! let serial = end.tx_done();           // and it is home
//! ```
//!
//! The calls of `LaneTx` are those of `TxEnd`, by what they are for: `offer`, `tick` and `drop_build` build; `defer` and `next_deferred` keep transfers of a sleeping link; `finish` and `tx_done` bring requests
//! home; `can_offer`, `can_tick`, `tx_census`, `capacity`, `deferred`, `done` and `home` are for one who looks, and change nothing.
#![tactic(auto)]

mod transmitter;

pub use transmitter::LaneTx;
