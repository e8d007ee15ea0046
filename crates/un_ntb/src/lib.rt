//! Blocks of NCM, read and written in place: one logic for both formats, which differ in the bytes of an index and a
//! length. `WIDTH` is that number, 2 for NTB16 and 4 for NTB32; un_ntb16 and un_ntb32 fix it.
//!
//! ```text
//! let mut writer = Writer::<2>::make(alloc, limit, block, divisor, remainder, alignment)?;
//! writer.start(&mut request);                         // an empty request with room for `block` bytes
//! writer.append(&mut request, &frame);                // where writer.fits(length) says so
//! writer.close(&mut request, serial);                 // the block is whole
//! let mut parts = read::<2>(request.bytes())?;        // or the first fault with its place
//! while let Some(datagram) = parts.next() { .. }      // lent from the request's bytes
//! ```
//!
//! A `Writer` writes by `start`, `append` and `close`; `fits`, `count` and `most` change nothing, and no call after
//! `make` takes memory. `read` lends the datagrams in turn; `begin`, `part_at` and `next` walk over them with a
//! `Cursor`, which the owner of the bytes keeps beside them, and `span_at` tells where one stands. `read` and `begin`
//! check the whole transfer before anything is lent.
#![tactic(auto)]

mod checks;
mod cursor;
mod fields;
mod parts;
mod table;
mod walk;
mod writer;

pub use cursor::Cursor;
pub use parts::{Parts, read};
pub use walk::{begin, next, part_at, span_at};
pub use writer::Writer;
