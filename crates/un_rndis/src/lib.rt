//! Transfers of RNDIS (MS-RNDIS 2.2.14): data messages with one frame each, read and written.
//!
//! ```text
//! append(&mut request, &frame);                       // one data message: a header of 44 bytes, and the frame
//! let mut messages = read(request.bytes())?;          // or the first fault with its place
//! while let Some(frame) = messages.next() {
//!     ..                                              // lent from the request's bytes
//! }
//! ```
//!
//! `append` writes into an empty request that has the room. `read` lends every frame; `begin`, `part_at` and `next` walk
//! over the frames at a place that the owner of the bytes keeps beside them, and `span_at` tells where one stands. `read`
//! and `begin` check the whole transfer before anything is lent.
#![tactic(auto)]

mod checks;
mod header;
mod messages;
mod walk;
mod writer;

pub use messages::{Messages, read};
pub use walk::{begin, next, part_at, span_at};
pub use writer::append;
