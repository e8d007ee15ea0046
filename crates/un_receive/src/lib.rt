//! The receiving end of a lane, which the host and the gadget share: what differs is the lane that it is on.
//!
//! A request goes out empty and arrives with a transfer, whose datagrams are lent one by one where they stand:
//!
//! ```text
//! let mut end = LaneRx::<Inward>::make(alloc, &params)?;
//! let empty = end.refill();             // to the endpoint, to be posted
//! end.arrive(request);                  // a flight has landed in it
//! let serial = end.rx_done();           // the first arrived one is current now
//! while let Some((number, datagram)) = end.lend() {
//!     ..
//!     end.advance();                    // after the last datagram the request is home
//! }
//! ```
//!
//! The calls of `LaneRx` are those of `RxEnd`, by what they are for: `refill`, `give_back` and `arrive` hand requests over; `rx_done`, `lend` and `advance` read what arrived; `rx_census`, `capacity`,
//! `arrived`, `current` and `home` are for one who looks, and change nothing.
#![tactic(auto)]

mod lane;
mod receiver;

pub use lane::{Inward, OnLane, Outward};
pub use receiver::LaneRx;
