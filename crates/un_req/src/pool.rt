//! A pool of requests.

ghost use Rattle.std.specs.Prelude.{◌≡◌, ◌+◌, ◌<◌, ◌++◌, ◌∷◌, ◌≤◌, [], IfOk, IfNone, IfSome, length};
ghost use Rattle.un_req.specs.Request.{IsOut, blank, upto};

use crate::request::Request;
use std::alloc::{AllocError, Global};
use std::marker::Model;

/// A pool of requests of one capacity, which holds those that are home. A request can't be cloned: where each comes back to the
/// pool that it was taken from, each number below the count is home or in one value outside at most. No clause says so: `put` tells
/// requests by number and capacity alone. No call after `make` takes memory.
#[derive(Drop)]
pub struct Pool {
    home: Vec<Request>,
    count: u32,
    capacity: u32,
}

impl Model for Pool {
    ghost use Rattle.std.specs.Prelude.{◌≤◌, map, vec_capacity, vec_len};
    ghost use Rattle.un_req.specs.Request.{AreHome, Store, number_of};

    ghost Value = { Store };

    ghost view = { λ p. record { count = p.count; capacity = p.capacity; home = map number_of p.home.items } };

    ghost invariant = { λ p. (p.count ≤ vec_capacity p.home) × (vec_len p.home ≤ p.count) × AreHome p.count p.capacity p.home.items };
}

impl Pool {
    /// A pool of `count` requests (at least 1) of `capacity` bytes each, all home, with the numbers below `count`. An error is want of
    /// memory.
    pub fn make(alloc: Global, count: u32, capacity: u32) -> Result<Pool, AllocError>
        requires { 1 ≤ count }
        ensures { IfOk result (λ p. p ≡ record { count = count; capacity = capacity; home = upto count }) }
    {
        let mut home = Vec::with_capacity(alloc, count as usize)?;
        for number in 0..count {
            home.push_reserved(Request::make(alloc, number, capacity)?);
        }
        Ok(Pool {
            home,
            count,
            capacity,
        })
    }

    /// Takes a request that is home, empty; `None` exactly where none is. The one that came home last goes first.
    pub fn take(&mut self) -> Option<Request>
        ensures some { IfSome result (λ r. (r ≡ blank r.number self.old.capacity) × (r.number < self.old.count) × (self.old ≡ record self.new { home = self.new.home ++ r.number ∷ [] }) × IsOut self.new r) }
        ensures none { IfNone result ((self.old.home ≡ []) × (self.new ≡ self.old)) }
    {
        self.home.pop()
    }

    /// Takes back a request that is out of this pool, by its number and its capacity, and empties it.
    pub fn put(&mut self, request: Request)
        requires { IsOut self.old request }
        ensures { self.new ≡ record self.old { home = self.old.home ++ request.number ∷ [] } }
    {
        let mut request = request;
        request.renew();
        self.home.push_reserved(request);
    }

    /// How many are home.
    pub fn home(&self) -> u32
        ensures { result ≡ length self.now.home }
    {
        let _count = self.count;
        self.home.len() as u32
    }

    /// How many requests it has, home and out.
    pub fn count(&self) -> u32
        ensures { result ≡ self.now.count }
    {
        self.count
    }

    /// How many bytes each of its requests may hold.
    pub fn capacity(&self) -> u32
        ensures { result ≡ self.now.capacity }
    {
        self.capacity
    }
}
