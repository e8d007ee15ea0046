//! One lane of a link: the path of a datagram between the lane's two ends, over the endpoint between them.
//!
//! ```text
//! let mut path = Path::make(alloc, Lane::Outward, tx, rx, 8, 8)?;     // between two fresh ends
//! path.refill(&mut journal);                              // a receive request waits at the endpoint
//! path.offer(&mut journal, sender, &frame, asleep);       // a frame that was taken becomes part of a transfer
//! match path.take(&mut journal, asleep) { Got::Part(flight) => .., .. }
//! ```
//!
//! Each call that writes adds the lines of its step to the journal and answers by its cause, or refuses and changes nothing
//! (specs/Calls). By their subject: `offer` and `tick` build; `take`, `land`, `tx_done`, `rx_done`, `deliver`, `refill` and
//! `clear_halt` move transfers; `unlink`, `mark_all`, `drop_all`, `recall_all`, `resume` and `settle` are what controls and
//! stops do to a lane; the readings change nothing.
#![tactic(auto)]

mod path;
mod write;

pub use path::Path;
