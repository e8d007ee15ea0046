//! Bytes in and bytes out, with counts of faults.
//!
//! A [`Source`] gives bytes and a [`Sink`] takes them. Each counts its faults, so that a failure can be laid to it, and
//! tells contracts its bytes where it can.
//!
//! ```text
//! let mut source = StdSource::make(reader);               // over a reader of std
//! let bytes = read_whole(alloc, &mut source, limit)?;     // all that it gives: `limit` bytes at most
//! let mut sink = StdSink::make(writer);                   // over a writer of std
//! write_whole(&mut sink, &bytes)?;                        // all of them
//! ```
//!
//! `StdSource` and `StdSink` stand over std; `MemSource` and `MemSink` have their bytes in memory and fail where they
//! are told to; `SureSource` and `SureSink` never fail. `read_whole` and `write_whole` work over any of them. A read or
//! a write fails only where the count rose; after a `WriteFault` the sink has grown by a front of the bytes, and not by
//! all.
#![tactic(auto)]

mod copy;
mod memory;
mod standard;
mod sure;
mod traits;
mod whole;

pub use memory::{MemSink, MemSource};
pub use standard::{StdSink, StdSource};
pub use sure::{SureSink, SureSource};
pub use traits::{Failed, Sink, Source};
pub use whole::{ReadError, WriteFault, read_whole, write_whole};
