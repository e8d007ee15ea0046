//! Transfers of the Ethernet Emulation Model (CDC EEM 1.0): packets with frames and commands, read and written.
//!
//! ```text
//! append(&mut request, &frame);                       // a data packet: header, frame and sentinel
//! finish(&mut request, params.packet);                // an empty packet, where the last one on the bus would be full
//! let mut items = read(request.bytes())?;             // or the first fault with its place
//! while let Some(item) = items.next() {
//!     match item {
//!         Item::Frame(frame) => ..                    // lent from the request's bytes
//!         Item::Command { code, parameter, echo } => ..
//!         Item::Empty => ..
//!     }
//! }
//! ```
//!
//! `append` and `finish` write into a request that has the room. `read` lends every packet; `begin`, `part_at` and
//! `next` walk over the frames alone, at a place that the owner of the bytes keeps beside them, `span_at` tells where
//! one stands, and `commands` counts the commands. `read` and `begin` check the whole transfer before anything is lent.
#![tactic(auto)]

mod checks;
mod header;
mod items;
mod walk;
mod writer;

pub use items::{Item, Items, read};
pub use walk::{begin, commands, next, part_at, span_at};
pub use writer::{append, finish};
