//! A request.

ghost use Rattle.std.specs.Prelude.{◌≡◌, ◌+◌, ◌++◌, ◌≤◌, [], IfOk, length, replicate};
ghost use Rattle.un_req.specs.Request.{blank, patched};

use crate::bytes::{append, append_zeros, overwrite};
use std::alloc::{AllocError, Global};
use std::marker::Model;

/// A USB request: room for one bulk transfer, and the transfer that stands in it.
///
/// It has a number in its pool, a capacity in bytes that is reserved when the pool is made, the bytes (at most the capacity), the
/// span of datagrams from `from` (inclusive) to `to` (exclusive), and the transfer's serial. It can't be cloned: a request is
/// a moved value, and so in one place at any time. No call on it takes memory.
#[derive(Drop)]
pub struct Request {
    number: u32,
    from: u64,
    to: u64,
    serial: u64,
    bytes: Vec<u8>,
    capacity: u32,
}

impl Model for Request {
    ghost use Rattle.std.specs.Prelude.{◌≤◌, vec_capacity, vec_len};
    ghost use Rattle.un_req.specs.Request.{Buffer};

    ghost Value = { Buffer };

    ghost view = { λ r. record { number = r.number; capacity = r.capacity; from = r.from; to = r.to; serial = r.serial; bytes = r.bytes.items } };

    ghost invariant = { λ r. (r.capacity ≤ vec_capacity r.bytes) × (vec_len r.bytes ≤ r.capacity) };
}

impl Request {
    /// An empty request of this number, with room for `capacity` bytes. An error is want of memory.
    pub(crate) fn make(alloc: Global, number: u32, capacity: u32) -> Result<Request, AllocError>
        ensures { IfOk result (λ r. r ≡ blank number capacity) }
    {
        let bytes = Vec::with_capacity(alloc, capacity as usize)?;
        Ok(Request {
            number,
            from: 0,
            to: 0,
            serial: 0,
            bytes,
            capacity,
        })
    }

    /// Its number in its pool, from 0.
    pub fn number(&self) -> u32
        ensures { result ≡ self.now.number }
    {
        self.number
    }

    /// The number of the first datagram of its transfer.
    pub fn from(&self) -> u64
        ensures { result ≡ self.now.from }
    {
        self.from
    }

    /// One more than the number of the last datagram of its transfer.
    pub fn to(&self) -> u64
        ensures { result ≡ self.now.to }
    {
        self.to
    }

    /// The serial of its transfer, as it was stamped.
    pub fn serial(&self) -> u64
        ensures { result ≡ self.now.serial }
    {
        self.serial
    }

    /// How many bytes it may hold.
    pub fn capacity(&self) -> u32
        ensures capacity { result ≡ self.now.capacity }
        ensures within { length self.now.bytes ≤ result }
    {
        self.capacity
    }

    /// The bytes of its transfer.
    pub fn bytes(&self) -> &[u8]
        ensures bytes { result.now ≡ self.now.bytes }
        ensures within { length result.now ≤ self.now.capacity }
    {
        &self.bytes
    }

    /// Empties it; number, capacity, span and serial stay.
    pub fn clear(&mut self)
        ensures { self.new ≡ record self.old { bytes = [] } }
    {
        self.bytes.clear();
    }

    /// Appends bytes, which must fit the capacity.
    pub fn push(&mut self, bytes: &[u8])
        requires { length self.old.bytes + length bytes.now ≤ self.old.capacity }
        ensures bytes { self.new ≡ record self.old { bytes = self.old.bytes ++ bytes.now } }
        ensures len { length self.new.bytes ≡ length self.old.bytes + length bytes.now }
        ensures capacity { self.new.capacity ≡ self.old.capacity }
    {
        append(&mut self.bytes, bytes);
    }

    /// Appends `count` zero bytes, which must fit the capacity.
    pub fn push_zeros(&mut self, count: u32)
        requires { length self.old.bytes + count ≤ self.old.capacity }
        ensures bytes { self.new ≡ record self.old { bytes = self.old.bytes ++ replicate count 0 } }
        ensures len { length self.new.bytes ≡ length self.old.bytes + count }
        ensures capacity { self.new.capacity ≡ self.old.capacity }
    {
        append_zeros(&mut self.bytes, count);
    }

    /// Writes bytes over others that are there, from the byte `at` on.
    pub fn patch(&mut self, at: u32, bytes: &[u8])
        requires { at + length bytes.now ≤ length self.old.bytes }
        ensures { self.new ≡ record self.old { bytes = patched self.old.bytes at bytes.now } }
    {
        overwrite(&mut self.bytes, at as usize, bytes);
    }

    /// Sets the span and the serial of its transfer; the bytes stay.
    pub fn stamp(&mut self, from: u64, to: u64, serial: u64)
        ensures { self.new ≡ record self.old { from = from; to = to; serial = serial } }
    {
        self.from = from;
        self.to = to;
        self.serial = serial;
    }

    /// Makes it what it was at first: empty, with no span and serial 0.
    pub(crate) fn renew(&mut self)
        ensures { self.new ≡ blank self.old.number self.old.capacity }
    {
        self.clear();
        self.stamp(0, 0, 0);
    }
}
