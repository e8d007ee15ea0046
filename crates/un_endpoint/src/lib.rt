//! The bus between the two ends of a lane, what the ends do, and the lists of requests that they keep.
//!
//! A transmit request is queued and a receive request is posted; both leave the endpoint as one flight, which is copied outside of it, and come back by its landing:
//!
//! ```text
//! endpoint.queue(made)?;                          // a transfer that the transmitting end has built
//! endpoint.post(empty)?;                          // a request that the receiving end has lent
//! if let Some(Taken::Flight(flight)) = endpoint.take(false) {
//!     let carried = flight.carry(512);            // nobody needs the endpoint for this
//!     match endpoint.land(carried, planned) {     // what a script plans for it
//!         Landed::Arrived { tx, rx } => ..        // tx is done, rx has the bytes
//!         Landed::Retried { rx, attempt } => ..   // tx is first in the queue again
//!         Landed::Failed { tx, rx, kind } => ..   // the fault that was planned
//!         Landed::Cut { tx, rx, cause } => ..     // a control has marked it
//!     }
//! }
//! ```
//!
//! A request is a value that moves, and a flight can't be dropped: what compiles has lost none. [`TxEnd`] and [`RxEnd`] are what a lane asks of its two ends.
#![tactic(auto)]

mod endpoint;
mod ends;
mod flight;
mod outcome;
mod record;
mod requests;

pub use endpoint::Endpoint;
pub use ends::{RxEnd, TxEnd};
pub use flight::{Carried, Flight};
pub use outcome::{Built, Full, Landed, Taken, Ticked};
pub use record::FlightRecord;
pub use requests::{Requests, come_home};
