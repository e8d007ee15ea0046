//! An open transfer that a checker builds once more.

ghost use Rattle.std.specs.Prelude.{◌≡◌, ◌<◌, ◌≤◌, ◌++◌, ◌∷◌, ◌||◌, ◌↔◌, [], IfOk, IsTrue, length, map, true};
ghost use Rattle.un_facts.specs.Lists.{is_empty};
ghost use Rattle.un_frame.specs.Lanes.{packs};
ghost use Rattle.un_frame.specs.Params.{Agree, AreInRange};
ghost use Rattle.un_frame.specs.Wire.{form, frame_fits};

use std::alloc::{AllocError, Global};
use std::marker::Model;
use un_agg::OpenBlock;
use un_frame::{Lane, Params};
use un_req::Pool;
use un_wire::{Codec, Wire};

/// The frames of a transfer that isn't made yet, in a request of its own, of which no bytes leave: what is made of them is only
/// compared. No call after `make` takes memory.
#[derive(Drop)]
pub struct Draft {
    block: OpenBlock,
    own: Pool,
}

impl Model for Draft {
    ghost use Rattle.un_check.specs.Drafts.{Draft as Kept, IsDraft, draft_in};

    ghost Value = { Kept };

    ghost view = { draft_in };

    ghost invariant = { IsDraft };
}

impl Draft {
    /// No frames. An error is want of memory.
    pub fn make(alloc: Global, params: &Params) -> Result<Draft, AllocError>
        requires in_range { AreInRange params.now }
        requires agree { Agree params.now }
        ensures { IfOk result (λ draft. draft ≡ record { params = params.now; frames = [] }) }
    {
        let codec = Codec::make(alloc, params)?;
        let own = Pool::make(alloc, 1, codec.capacity())?;
        Ok(Draft {
            block: OpenBlock::make(codec, params.datagrams),
            own,
        })
    }

    /// Whether the transfers of a lane are blocks of several frames.
    pub fn packs(&self, lane: Lane) -> bool
        ensures { result ≡ packs self.now.params.class lane }
    {
        self.block.packs(lane)
    }

    /// Whether there are no frames.
    pub fn is_empty(&self) -> bool
        ensures { result ≡ is_empty self.now.frames }
    {
        !self.block.is_open()
    }

    /// How many frames there are.
    pub fn count(&self) -> u32
        ensures { result ≡ length self.now.frames }
    {
        self.block.count()
    }

    /// Whether a frame, which fits a transfer of its own, is the first or fits behind the others.
    pub fn takes(&self, frame: &[u8]) -> bool
        requires { IsTrue (frame_fits self.now.params [] (length frame.now)) }
        ensures { result ≡ (is_empty self.now.frames || frame_fits self.now.params (map length self.now.frames) (length frame.now)) }
    {
        !self.block.is_open() || self.block.fits(frame.len() as u32)
    }

    /// Adds a frame that it takes.
    pub fn add(&mut self, frame: &[u8])
        requires least { 14 ≤ length frame.now }
        requires fits { IsTrue (frame_fits self.old.params [] (length frame.now)) }
        requires takes { (is_empty self.old.frames || frame_fits self.old.params (map length self.old.frames) (length frame.now)) ≡ true }
        ensures { self.new ≡ record self.old { frames = self.old.frames ++ frame.now ∷ [] } }
    {
        if self.block.is_open() {
            self.block.append(frame);
            return;
        }
        let Some(request) = self.own.take() else {
            unreachable!();
        };
        self.block.begin(request, frame);
    }

    /// Makes the transfer of the frames, and answers whether these are its bytes. No frames are left.
    pub fn makes(&mut self, serial: u64, bytes: &[u8]) -> bool
        requires { 0 < length self.old.frames }
        ensures same { IsTrue result ↔ (bytes.now ≡ form self.old.params serial self.old.frames) }
        ensures rest { self.new ≡ record self.old { frames = [] } }
    {
        // the frames are so few that 32 bits count them
        let _count = self.block.count();
        let request = self.block.close(0, serial);
        let is_same = bytes == request.bytes();
        self.own.put(request);
        is_same
    }

    /// Gives up the frames.
    pub fn clear(&mut self)
        ensures { self.new ≡ record self.old { frames = [] } }
    {
        if let Some(request) = self.block.give_up() {
            self.own.put(request);
        }
    }
}
