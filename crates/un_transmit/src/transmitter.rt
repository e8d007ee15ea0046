//! The transmitting end.

ghost use Rattle.std.specs.Prelude.{◌≡◌, ◌≤◌, ℕ, IfOk};
ghost use Rattle.un_frame.specs.Lanes.{tx_size};
ghost use Rattle.un_frame.specs.Params.{Agree, AreInRange};
ghost use Rattle.un_endpoint.specs.Ends.{tx_copies};
ghost use Rattle.un_endpoint.specs.Sound.{fresh_tx};

use std::alloc::{AllocError, Global};
use std::marker::Model;
use un_agg::Builder;
use un_endpoint::{Built, Requests, Ticked, TxEnd, come_home};
use un_frame::{Lane, Params};
use un_req::{Pool, Request};
use un_wire::{Codec, Wire};

/// The transmitting end of the lane that `B` builds for: the builder, the pool of the lane's requests, and the lists of the deferred and the done ones. Each of its requests stands in one place at most.
#[derive(Drop)]
pub struct LaneTx<B: Builder + Drop> {
    builder: B,
    pool: Pool,
    deferred: Requests,
    done: Requests,
}

impl<B: Builder + Drop> Model for LaneTx<B> {
    ghost use Rattle.un_endpoint.specs.Ends.{Transmitter};

    ghost Value = { Transmitter };

    ghost use Rattle.un_transmit.specs.Tx.{IsLaneTx, transmitter_in};

    ghost view = { λ end. transmitter_in B.LANE (B.held end.builder) end.pool end.deferred end.done };

    ghost invariant = { λ end. IsLaneTx B.LANE (B.held end.builder) end.pool end.deferred end.done };
}

impl<B: Builder + Drop> LaneTx<B> {
    /// An end with as many requests as the parameters say for its lane, `tx_out` or `tx_in`, all home, that holds nothing. It takes the memory for all of them and for both lists; an error is want of memory.
    pub fn make(alloc: Global, params: &Params) -> Result<LaneTx<B>, AllocError>
        requires in_range { AreInRange params.now }
        requires agree { Agree params.now }
        ensures { IfOk result (λ end. end ≡ fresh_tx B.LANE params.now) }
    {
        let codec = Codec::make(alloc, params)?;
        let size = size_of(B::LANE, params);
        let pool = Pool::make(alloc, size, codec.capacity())?;
        let builder = B::make(alloc, codec, params.datagrams)?;
        let deferred = Requests::make(alloc, size)?;
        let done = Requests::make(alloc, size)?;
        Ok(LaneTx {
            builder,
            pool,
            deferred,
            done,
        })
    }

    /// Each number of its pool stands in one of its places at most, once, and no other number does: at home, claimed by the builder, among the deferred requests, or among the done ones.
    pub fn prove_each_once(&self)
        ensures once { (number : ℕ) → tx_copies self.now number ≤ 1 }
        ensures known { (number : ℕ) → self.now.size ≤ number → tx_copies self.now number ≡ 0 }
    {
        let _done = &self.done;
    }
}

impl<B: Builder + Drop> TxEnd for LaneTx<B> {
    ghost transmitter = { λ end. end };

    fn capacity(&self) -> u32 {
        self.pool.capacity()
    }

    fn deferred(&self) -> u32 {
        self.deferred.len()
    }

    fn done(&self) -> u32 {
        self.done.len()
    }

    fn home(&self) -> u32 {
        self.pool.home()
    }

    fn can_offer(&self, length: u32) -> bool {
        self.builder.can_offer(&self.pool, length)
    }

    fn can_tick(&self) -> bool {
        self.builder.can_tick(&self.pool)
    }

    fn tx_census(&self, number: u64) -> (u32, u32, u32) {
        let (built, remainder) = self.builder.census(number);
        (built, remainder, self.deferred.census(number))
    }

    fn offer(&mut self, frame: &[u8], number: u64, serial: u64) -> Built {
        self.builder.offer(&mut self.pool, frame, number, serial)
    }

    fn tick(&mut self, serial: u64) -> Ticked {
        self.builder.tick(&mut self.pool, serial)
    }

    fn drop_build(&mut self) -> Option<(u64, u64)> {
        self.builder.drop_build(&mut self.pool)
    }

    fn defer(&mut self, request: Request) {
        self.deferred.push(request);
    }

    fn next_deferred(&mut self) -> Option<Request> {
        self.deferred.pop()
    }

    fn finish(&mut self, request: Request) {
        self.done.push(request);
    }

    fn tx_done(&mut self) -> Option<u64> {
        come_home(&mut self.done, &mut self.pool)
    }
}

/// How many requests the transmitting end of a lane has.
fn size_of(lane: Lane, params: &Params) -> u32
    requires { AreInRange params.now }
    ensures size { result ≡ tx_size params.now lane }
    ensures some { 1 ≤ result }
{
    match lane {
        Lane::Outward => params.tx_out,
        Lane::Inward => params.tx_in,
    }
}
