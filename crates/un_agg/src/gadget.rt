//! The gadget's builder.

ghost use Rattle.std.specs.Prelude.{◌≡◌, ◌+◌, ◌<◌, ◌≤◌, ◌^◌, ◌-◌, ◌++◌, ◌∷◌, [], None, IsTrue, length, true, false};
ghost use Rattle.un_frame.specs.Lanes.{packs};
ghost use Rattle.un_frame.specs.Wire.{capacity_of, frame_fits};
ghost use Rattle.un_frame.specs.declared.params.Lane.TheVariants.{Inward};
ghost use Rattle.un_endpoint.specs.EndOutcomes.{DropsBuild, Offers, Ticks};
ghost use Rattle.un_agg.specs.Held.{claim_of, end_of};

use crate::block::OpenBlock;
use crate::builder::Builder;
use std::alloc::{AllocError, Global};
use std::marker::Model;
use un_endpoint::{Built, Ticked};
use un_frame::Lane;
use un_req::{Pool, Request};
use un_wire::{Codec, Wire};

/// Builds the gadget's transfers (after Linux's f_ncm, in EEM too): it holds an open block in a request of its own, or nothing, and the code copies a closed block once, into a request of the lane's pool. No
/// call after `make` takes memory.
#[derive(Drop)]
pub struct GadWrap {
    block: OpenBlock,
    own: Pool,
    from: u64,
}

impl Model for GadWrap {
    ghost use Rattle.un_agg.specs.Held.{Held};

    ghost Value = { Held };

    ghost use Rattle.un_agg.specs.Gadget.{IsGadget, held_in};

    ghost view = { held_in };

    ghost invariant = { IsGadget };
}

impl Builder for GadWrap {
    ghost LANE = { Inward };

    ghost held = { λ wrap. wrap };

    const LANE: Lane = Lane::Inward;

    fn make(alloc: Global, codec: Codec, limit: u32) -> Result<GadWrap, AllocError> {
        let own = Pool::make(alloc, 1, codec.capacity())?;
        Ok(GadWrap {
            block: OpenBlock::make(codec, limit),
            own,
            from: 0,
        })
    }

    fn can_offer(&self, pool: &Pool, length: u32) -> bool {
        self.keeps(length) || pool.home() > 0
    }

    fn can_tick(&self, pool: &Pool) -> bool {
        self.block.is_open() && pool.home() > 0
    }

    fn census(&self, number: u64) -> (u32, u32) {
        let built = self.from <= number && number < self.from + self.block.count() as u64;
        (built as u32, 0)
    }

    /// `Busy` comes exactly where a transfer is to be made and none of the pool's requests is home. No request of the pool is claimed, so this and the next two calls ask for less than a builder's may, and say more.
    fn offer(&mut self, pool: &mut Pool, frame: &[u8], number: u64, serial: u64) -> Built
        requires capacity { capacity_of self.old.params ≤ pool.old.capacity }
        requires least { 14 ≤ length frame.now }
        requires fits { IsTrue (frame_fits self.old.params [] (length frame.now)) }
        requires below { number + 1 < 2 ^ 64 }
        requires next { 0 < length self.old.frames → number ≡ self.old.from + length self.old.frames }
        ensures built { Offers (end_of Inward self.old pool.old) (end_of Inward self.new pool.new) frame.now number serial result }
        ensures claim { self.new.claim ≡ None }
    {
        let _from = self.from;
        if self.keeps(frame.len() as u32) {
            self.keep(frame, number);
            return Built::Kept;
        }
        match pool.take() {
            Some(request) => Built::Made(self.make_room(request, frame, number, serial)),
            None => Built::Busy,
        }
    }

    /// It never waits. `NoRequest` comes exactly where a block is open and none of the pool's requests is home.
    fn tick(&mut self, pool: &mut Pool, serial: u64) -> Ticked
        requires capacity { capacity_of self.old.params ≤ pool.old.capacity }
        ensures ticked { Ticks (end_of Inward self.old pool.old) (end_of Inward self.new pool.new) serial result }
        ensures claim { self.new.claim ≡ None }
    {
        if !self.block.is_open() {
            return Ticked::Nothing;
        }
        match pool.take() {
            Some(request) => Ticked::Made(self.close(request, serial)),
            None => Ticked::NoRequest,
        }
    }

    /// The pool keeps its requests as they are.
    fn drop_build(&mut self, pool: &mut Pool) -> Option<(u64, u64)>
        ensures dropped { DropsBuild (end_of Inward self.old pool.old) (end_of Inward self.new pool.new) result }
        ensures claim { self.new.claim ≡ None }
    {
        let count = self.block.count();
        match self.block.give_up() {
            Some(own) => {
                let span = (self.from, self.from + count as u64);
                self.own.put(own);
                self.from = 0;
                Some(span)
            }
            None => None,
        }
    }
}

impl GadWrap {
    ghost use Rattle.un_agg.specs.Building.{AddsMade, IsCopied, keeps_frame};

    /// Whether a frame of this length stays in the open block, or begins one.
    fn keeps(&self, length: u32) -> bool
        ensures { result ≡ keeps_frame self.now length }
    {
        self.block.packs(Lane::Inward) && (!self.block.is_open() || self.block.fits(length))
    }

    /// Takes a frame that stays in the open block, or begins one.
    fn keep(&mut self, frame: &[u8], number: u64)
        requires keeps { keeps_frame self.old (length frame.now) ≡ true }
        requires least { 14 ≤ length frame.now }
        requires fits { IsTrue (frame_fits self.old.params [] (length frame.now)) }
        requires below { number + 1 < 2 ^ 64 }
        requires next { 0 < length self.old.frames → number ≡ self.old.from + length self.old.frames }
        ensures { self.new ≡ record self.old { from = number - length self.old.frames; frames = self.old.frames ++ frame.now ∷ [] } }
    {
        if self.block.is_open() {
            self.block.append(frame);
        } else {
            self.begin(frame, number);
        }
    }

    /// Opens a block in the private request.
    fn begin(&mut self, frame: &[u8], number: u64)
        requires none { self.old.frames ≡ [] }
        requires packs { packs self.old.params.class Inward ≡ true }
        requires least { 14 ≤ length frame.now }
        requires fits { IsTrue (frame_fits self.old.params [] (length frame.now)) }
        requires below { number + 1 < 2 ^ 64 }
        ensures { self.new ≡ record self.old { from = number; frames = frame.now ∷ [] } }
    {
        let Some(request) = self.own.take() else {
            unreachable!();
        };
        self.block.begin(request, frame);
        self.from = number;
    }

    /// Takes a frame that doesn't stay in the open block: what is open is closed in a home request, and a block begins with the frame. Where the lane packs one frame into a transfer, it is made in the home
    /// request itself.
    fn make_room(&mut self, request: Request, frame: &[u8], number: u64, serial: u64) -> Request
        requires closes { keeps_frame self.old (length frame.now) ≡ false }
        requires empty { request.bytes ≡ [] }
        requires room { capacity_of self.old.params ≤ request.capacity }
        requires least { 14 ≤ length frame.now }
        requires fits { IsTrue (frame_fits self.old.params [] (length frame.now)) }
        requires below { number + 1 < 2 ^ 64 }
        requires next { 0 < length self.old.frames → number ≡ self.old.from + length self.old.frames }
        ensures { AddsMade Inward self.old self.new (claim_of request) frame.now number serial result }
    {
        if !self.block.packs(Lane::Inward) {
            self.from = number + 1;
            return self.block.build_one(request, frame, number, serial);
        }
        let made = self.close(request, serial);
        self.begin(frame, number);
        made
    }

    /// Closes the open block, and copies it into an empty request.
    fn close(&mut self, request: Request, serial: u64) -> Request
        requires some { 0 < length self.old.frames }
        requires empty { request.bytes ≡ [] }
        requires room { capacity_of self.old.params ≤ request.capacity }
        ensures { IsCopied self.old self.new (claim_of request) serial result }
    {
        let own = self.block.close(self.from, serial);
        let mut request = request;
        request.push(own.bytes());
        request.stamp(own.from(), own.to(), serial);
        self.from = own.to();
        self.own.put(own);
        request
    }
}
