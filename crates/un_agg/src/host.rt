//! The host's builder.

ghost use Rattle.std.specs.Prelude.{◌≡◌, ◌+◌, ◌<◌, ◌≤◌, ◌^◌, [], None, Some, IsTrue, is_some, length, true};
ghost use Rattle.un_frame.specs.Wire.{capacity_of, frame_fits};
ghost use Rattle.un_frame.specs.declared.params.Lane.TheVariants.{Outward};
ghost use Rattle.un_agg.specs.Held.{Claim, claim_of};

use crate::block::OpenBlock;
use crate::buffer::refill;
use crate::builder::Builder;
use std::alloc::{AllocError, Global};
use std::marker::Model;
use un_endpoint::{Built, Ticked};
use un_frame::{Lane, TIMER_TICKS};
use un_req::{Pool, Request};
use un_wire::{Codec, Wire};

/// Builds the host's transfers (after Linux's cdc_ncm): it holds an open block in a request that it claimed of the lane's pool, or the one frame that the last block had no room for,
/// or nothing. A pending count says how many ticks an open block still waits for; the code sets it to `TIMER_TICKS`, and lowers it. No call after `make` takes memory.
#[derive(Drop)]
pub struct HostAgg {
    block: OpenBlock,
    from: u64,
    pending: u32,
    remainder: Vec<u8>,
}

impl Model for HostAgg {
    ghost use Rattle.un_agg.specs.Held.{Held};

    ghost Value = { Held };

    ghost use Rattle.un_agg.specs.Host.{IsHost, held_in};

    ghost view = { held_in };

    ghost invariant = { IsHost };
}

impl Builder for HostAgg {
    ghost LANE = { Outward };

    ghost held = { λ agg. agg };

    const LANE: Lane = Lane::Outward;

    fn make(alloc: Global, codec: Codec, limit: u32) -> Result<HostAgg, AllocError> {
        let remainder = Vec::with_capacity(alloc, codec.capacity() as usize)?;
        Ok(HostAgg {
            block: OpenBlock::make(codec, limit),
            from: 0,
            pending: 0,
            remainder,
        })
    }

    fn can_offer(&self, pool: &Pool, length: u32) -> bool {
        self.block.is_open() || pool.home() > 0
    }

    fn can_tick(&self, pool: &Pool) -> bool {
        self.block.is_open() || (!self.remainder.is_empty() && pool.home() > 0)
    }

    fn census(&self, number: u64) -> (u32, u32) {
        let built = self.from <= number && number < self.from + self.built() as u64;
        if self.block.is_open() {
            (built as u32, 0)
        } else {
            (0, built as u32)
        }
    }

    /// `Busy` comes exactly where no block is open and none of the pool's requests is home.
    fn offer(&mut self, pool: &mut Pool, frame: &[u8], number: u64, serial: u64) -> Built {
        if self.block.is_open() {
            return self.add(frame, number, serial);
        }
        match pool.take() {
            Some(request) => self.add_in(request, frame, number, serial),
            None => Built::Busy,
        }
    }

    /// It closes the open block or the remainder. `NoRequest` comes exactly where a remainder needs a home request and none is home.
    fn tick(&mut self, pool: &mut Pool, serial: u64) -> Ticked {
        if self.block.is_open() {
            if self.pending > 0 {
                self.pending -= 1;
                return Ticked::Waited;
            }
            return Ticked::Made(self.close(serial));
        }
        if self.remainder.is_empty() {
            return Ticked::Nothing;
        }
        match pool.take() {
            Some(request) => Ticked::Made(self.close_remainder(request, serial)),
            None => Ticked::NoRequest,
        }
    }

    fn drop_build(&mut self, pool: &mut Pool) -> Option<(u64, u64)> {
        let count = self.built();
        if count == 0 {
            return None;
        }
        let span = (self.from, self.from + count as u64);
        if let Some(request) = self.block.give_up() {
            pool.put(request);
        }
        self.remainder.clear();
        self.pending = 0;
        self.from = 0;
        Some(span)
    }
}

impl HostAgg {
    ghost use Rattle.un_agg.specs.Building.{Adds, IsClosed, ClosesIfFull};

    /// Takes a frame where a request was taken for it.
    fn add_in(&mut self, request: Request, frame: &[u8], number: u64, serial: u64) -> Built
        requires none { self.old.claim ≡ None }
        requires empty { request.bytes ≡ [] }
        requires room { capacity_of self.old.params ≤ request.capacity }
        requires least { 14 ≤ length frame.now }
        requires fits { IsTrue (frame_fits self.old.params [] (length frame.now)) }
        requires below { number + 1 < 2 ^ 64 }
        requires next { 0 < length self.old.frames → number ≡ self.old.from + length self.old.frames }
        ensures { Adds self.old self.new (claim_of request) frame.now number serial result }
    {
        if !self.block.packs(Lane::Outward) {
            self.from = number + 1;
            return Built::Made(self.block.build_one(request, frame, number, serial));
        }
        if self.remainder.is_empty() {
            self.from = number;
            self.block.begin(request, frame);
            return self.close_if_full(serial);
        }
        self.block.begin(request, &self.remainder);
        self.remainder.clear();
        self.add(frame, number, serial)
    }

    /// Takes a frame where a block is open: a frame that doesn't fit closes it, and becomes the remainder.
    fn add(&mut self, frame: &[u8], number: u64, serial: u64) -> Built
        requires opened { is_some self.old.claim ≡ true }
        requires least { 14 ≤ length frame.now }
        requires fits { IsTrue (frame_fits self.old.params [] (length frame.now)) }
        requires below { number + 1 < 2 ^ 64 }
        requires next { 0 < length self.old.frames → number ≡ self.old.from + length self.old.frames }
        ensures { (claim : Claim) → self.old.claim ≡ Some claim → Adds self.old self.new claim frame.now number serial result }
    {
        if self.block.fits(frame.len() as u32) {
            self.block.append(frame);
            return self.close_if_full(serial);
        }
        let request = self.close(serial);
        refill(&mut self.remainder, frame);
        Built::Made(request)
    }

    /// Closes an open block that has reached its limit; else it stays, with its pending count.
    fn close_if_full(&mut self, serial: u64) -> Built
        requires opened { is_some self.old.claim ≡ true }
        ensures { ClosesIfFull self.old self.new serial result }
    {
        if self.block.is_full() {
            return Built::Made(self.close(serial));
        }
        if self.block.count() <= 2 {
            self.pending = TIMER_TICKS;
        }
        Built::Kept
    }

    /// Closes the open block.
    fn close(&mut self, serial: u64) -> Request
        requires { is_some self.old.claim ≡ true }
        ensures { IsClosed self.old self.new serial result }
    {
        let request = self.block.close(self.from, serial);
        self.from = request.to();
        self.pending = 0;
        request
    }

    /// Makes a transfer of the remainder alone.
    fn close_remainder(&mut self, request: Request, serial: u64) -> Request
        requires none { self.old.claim ≡ None }
        requires some { 0 < length self.old.frames }
        requires empty { request.bytes ≡ [] }
        requires room { capacity_of self.old.params ≤ request.capacity }
        ensures { IsClosed (record self.old { claim = Some (claim_of request) }) self.new serial result }
    {
        let made = self
            .block
            .build_one(request, &self.remainder, self.from, serial);
        self.remainder.clear();
        self.from = made.to();
        made
    }

    /// How many datagrams it holds.
    fn built(&self) -> u32
        ensures { result ≡ length self.now.frames }
    {
        if self.remainder.is_empty() {
            self.block.count()
        } else {
            1
        }
    }
}
