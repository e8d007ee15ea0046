//! The base of the project: the parameters of a link, the verdict on a frame, the faults of a transfer, and every
//! definition of bytes on the bus with its laws (specs/, docs/DEFINITIONS.md).
//!
//! ```text
//! let params = Params::of_class(Class::Ncm16);        // in their ranges, and they agree
//! match verdict(&params, Lane::Inward, &frame) {
//!     Verdict::Take => ..                             // 14 bytes to a segment, and the filter lets it through
//!     Verdict::Short | Verdict::Long => ..
//!     Verdict::Filtered => ..                         // inward alone
//! }
//! let text = Bytes::make(bytes);                      // kept for good: as_slice() lends them
//! ```
//!
//! By subject: `Params`, `Class`, `Lane` and `TIMER_TICKS` are what a link is made with; `verdict` and `address` judge
//! a frame; `Fault` and `Kind` tell why a transfer is refused, and a `Span` where a frame stands in one; `Phase`, `FaultKind` and `Planned` are words of
//! histories and scripts. Each other call does nothing: its contract is a law of the wire formats, which a crate above
//! takes from here.
#![tactic(auto)]

mod bytes;
mod fault;
mod judge;
mod kinds;
mod laws;
mod params;
mod span;

pub use bytes::Bytes;
pub use fault::{Fault, Kind};
pub use judge::{address, verdict};
pub use kinds::{Address, FaultKind, Phase, Planned, Verdict};
pub use laws::{
    faults_are_exact, forms_are_read, forms_are_short, open_transfers, parts_are_frames,
    readings_are_one, segments_fit, taken_frames,
};
pub use params::{Class, Lane, Params, TIMER_TICKS};
pub use span::Span;
