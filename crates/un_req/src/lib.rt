//! Requests and their pools: room for a transfer that is reserved once, and that is in one place at any time.
//!
//! ```text
//! let mut pool = Pool::make(alloc, 8, 2048)?;         // requests 0 to 7 of 2,048 bytes each, all home
//! if let Some(mut request) = pool.take() {            // empty; None exactly where none is home
//!     request.push(&bytes);                           // at most its capacity in all
//!     request.stamp(from, to, serial);                // the transfer's span of datagrams, and its serial
//!     pool.put(request);                              // home, and empty again
//! }
//! ```
//!
//! A `Pool` lends by `take` and `put`; `home`, `count` and `capacity` change nothing. A [`Request`] is filled by
//! `push`, `push_zeros`, `patch` and `stamp` and emptied by `clear`; `number`, `from`, `to`, `serial`, `capacity` and
//! `bytes` change nothing. A request is a moved value that can't be cloned, its bytes are at most its capacity, and no
//! call after `Pool::make` takes memory.
#![tactic(auto)]

mod bytes;
mod pool;
mod request;

pub use pool::Pool;
pub use request::Request;
