//! A list of requests of an end, and how the first of it comes home.

ghost use Rattle.std.specs.Prelude.{◌≡◌, ◌<◌, ◌^◌, ◌++◌, ◌∷◌, [], IfNone, IfOk, IfSome, length};
ghost use Rattle.un_endpoint.specs.Bus.{queued_count};
ghost use Rattle.un_endpoint.specs.Rows.{BringsHome, IsFirstOut, no_requests};

use crate::endpoint::spans_with;
use circular_buffer::HeapCircularBuffer;
use std::alloc::{AllocError, Global};
use std::marker::Model;
use un_req::{Pool, Request};

/// Requests of an end in their order: the first goes out first. Its room is reserved when it is made, and no later call takes memory.
#[derive(Drop)]
pub struct Requests {
    ring: HeapCircularBuffer<Request>,
}

impl Model for Requests {
    ghost use Rattle.std.specs.Prelude.{◌≤◌, ◌<◌, ◌^◌, length};
    ghost use Rattle.un_endpoint.specs.Rows.{Row};

    ghost Value = { Row };

    ghost view = { λ r. record { requests = r.ring.items; room = r.ring.capacity } };

    ghost invariant = { λ r. (r.ring.capacity < 2 ^ 32) × (length r.ring.items ≤ r.ring.capacity) };
}

impl Requests {
    /// An empty list with room for `room` requests. An error is want of memory.
    pub fn make(alloc: Global, room: u32) -> Result<Requests, AllocError>
        ensures { IfOk result (λ r. r ≡ no_requests room) }
    {
        let ring = HeapCircularBuffer::with_capacity(alloc, room as usize)?;
        Ok(Requests { ring })
    }

    /// Puts a request at the end, for which there is room.
    pub fn push(&mut self, request: Request)
        requires { length self.old.requests < self.old.room }
        ensures { self.new ≡ record self.old { requests = self.old.requests ++ request ∷ [] } }
    {
        match self.ring.try_push_back(request) {
            Ok(()) => {}
            Err(_) => unreachable!(),
        }
    }

    /// Takes the first; `None` exactly where there is none.
    pub fn pop(&mut self) -> Option<Request>
        ensures some { IfSome result (λ r. self.old ≡ record self.new { requests = r ∷ self.new.requests }) }
        ensures none { IfNone result ((self.old.requests ≡ []) × (self.new ≡ self.old)) }
    {
        self.ring.pop_front()
    }

    /// How many there are.
    pub fn len(&self) -> u32
        ensures { result ≡ length self.now.requests }
    {
        self.ring.len() as u32
    }

    /// How often a datagram's number stands in the spans of their transfers.
    pub fn census(&self, number: u64) -> u32
        ensures { result ≡ queued_count number self.now.requests }
    {
        let _room = self.ring.capacity();
        spans_with(&self.ring, number)
    }
}

/// Brings the first request of a list home to its pool, and tells the serial of its transfer; `None` exactly where there is none.
pub fn come_home(list: &mut Requests, pool: &mut Pool) -> Option<u64>
    requires { IsFirstOut pool.old list.old.requests }
    ensures some { IfSome result (BringsHome pool.old pool.new list.old list.new) }
    ensures none { IfNone result ((list.old.requests ≡ []) × (list.new ≡ list.old) × (pool.new ≡ pool.old)) }
{
    match list.pop() {
        Some(request) => {
            let serial = request.serial();
            pool.put(request);
            Some(serial)
        }
        None => None,
    }
}
