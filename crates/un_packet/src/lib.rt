//! Packets of a transfer, the copy from one request to another, and ECM, whose transfers are bare frames.
//!
//! ```text
//! ecm_append(&mut request, &frame);                           // of 1,024 bytes, into an empty request with the room
//! let read = ecm_read(request.bytes())?;                      // the frame again; below 14 bytes it is a ShortFrame
//! let count = packets(1024, 512);                             // 3: the last one is short, and here it is empty
//! let last = packet_at(request.bytes(), 512, count - 1);      // lent from the request's bytes
//! carry(&request, &mut other, 512);                           // bytes, span and serial are now in both
//! ```
//!
//! `ecm_append` and `ecm_read` write and read ECM. `packets` and `packet_at` cut a transfer of any class as the bus
//! does, into full packets of 8 bytes or more and a short one at the end, which may be empty. `carry` copies a transfer
//! as a whole: of the receiver the number and the capacity stay.
#![tactic(auto)]

mod ecm;
mod transfer;

pub use ecm::{ecm_append, ecm_read};
pub use transfer::{carry, packet_at, packets};
