//! What a checker keeps of what a lane builds.

ghost use Rattle.std.specs.Prelude.{◌≡◌, ◌+◌, ◌-◌, ◌<◌, ◌≤◌, ◌^◌, ◌↔◌, [], None, Some, IfOk, IsTrue, length, take, true};
ghost use Rattle.un_frame.specs.Cut.{ends_at_limit};
ghost use Rattle.un_frame.specs.Params.{Agree, AreInRange};
ghost use Rattle.un_frame.specs.Wire.{form, frame_fits};
ghost use Rattle.un_check.specs.Building.{claims, end, is_open, nothing_built};
ghost use Rattle.un_check.specs.BuildingLines.{closes, covered, made, offer_needs, pending_with, tick_needs, took, with_frame};

use crate::draft::Draft;
use std::alloc::{AllocError, Global};
use std::marker::Model;
use un_frame::{Lane, Params, TIMER_TICKS};

/// What a lane builds, as its lines leave it: the accepted frames that are in no transfer yet. So the bytes of the next transfer are
/// known before its line is read. `closes` says which transfer one more frame makes: `keep` accepts a frame that makes none,
/// `make_with` one that does, and `make_all`, `wait` and `drop_all` take the lines that accept no frame. Each frame has 14 bytes at
/// least, and fits a transfer of its own, as every frame that a lane accepts. The two calls that make a transfer take the time to
/// write its bytes, `keep` the time to copy its frame, and the others constant time. No call after `make` takes memory.
#[derive(Drop)]
pub struct Building {
    draft: Draft,
    limit: u32,
    lane: Lane,
    cover: u64,
    is_fresh: bool,
    pending: u32,
}

impl Model for Building {
    ghost use Rattle.un_check.specs.Building.{Building as Kept, IsBuilding, building_in};

    ghost Value = { Kept };

    ghost view = { building_in };

    ghost invariant = { IsBuilding };
}

impl Building {
    /// Nothing was accepted. An error is want of memory.
    pub fn make(alloc: Global, params: &Params, lane: Lane) -> Result<Building, AllocError>
        requires in_range { AreInRange params.now }
        requires agree { Agree params.now }
        ensures { IfOk result (λ building. building ≡ nothing_built params.now lane) }
    {
        Ok(Building {
            draft: Draft::make(alloc, params)?,
            limit: params.datagrams,
            lane,
            cover: 0,
            is_fresh: false,
            pending: 0,
        })
    }

    /// The first datagram, and one more than the last, of the transfer that one more frame makes; `None` exactly where it stays in an
    /// open block.
    pub fn closes(&self, frame: &[u8]) -> Option<(u64, u64)>
        requires fits { IsTrue (frame_fits self.now.params [] (length frame.now)) }
        requires below { end self.now + 1 < 2 ^ 64 }
        ensures { result ≡ closes frame.now self.now }
    {
        let end = self.end();
        if !self.draft.packs(self.lane) {
            return Some((end, end + 1));
        }
        if !self.draft.takes(frame) {
            return Some((self.cover, end));
        }
        if self.fills() {
            return Some((self.cover, end + 1));
        }
        None
    }

    /// Whether one more frame in the block closes it, by the limit.
    fn fills(&self) -> bool
        ensures { result ≡ ends_at_limit self.now.lane self.now.params (length self.now.frames + 1) }
    {
        match self.lane {
            Lane::Outward => self.limit != 0
                && u64::from(self.draft.count()) + 1 == u64::from(self.limit),
            Lane::Inward => false,
        }
    }

    /// A frame is accepted, and stays in the open block.
    pub fn keep(&mut self, frame: &[u8])
        requires least { 14 ≤ length frame.now }
        requires fits { IsTrue (frame_fits self.old.params [] (length frame.now)) }
        requires below { end self.old + 1 < 2 ^ 64 }
        requires stays { closes frame.now self.old ≡ None }
        ensures { self.new ≡ took frame.now self.old }
    {
        self.draft.add(frame);
        self.is_fresh = true;
        self.pending = self.waits();
    }

    /// How many ticks the block waits once its last frame was accepted.
    fn waits(&self) -> u32
        requires { self.now.is_fresh ≡ true }
        ensures { result ≡ pending_with self.now.lane self.now }
    {
        if !self.is_open() {
            return 0;
        }
        match self.lane {
            Lane::Outward if self.draft.count() <= 2 => TIMER_TICKS,
            Lane::Outward => self.pending,
            Lane::Inward => 0,
        }
    }

    /// A frame is accepted, and makes the transfer of this span and serial: whether these are the transfer's bytes. Either way it is
    /// made.
    pub fn make_with(&mut self, frame: &[u8], span: (u64, u64), serial: u64, bytes: &[u8]) -> bool
        requires least { 14 ≤ length frame.now }
        requires fits { IsTrue (frame_fits self.old.params [] (length frame.now)) }
        requires below { end self.old + 1 < 2 ^ 64 }
        requires closes { closes frame.now self.old ≡ Some span }
        ensures same { IsTrue result ↔ (bytes.now ≡ form self.old.params serial (take (span.1 - span.0) (with_frame frame.now self.old))) }
        ensures rest { self.new ≡ made span.1 (took frame.now self.old) }
    {
        let is_left = span.1 == self.end();
        self.cover = span.1;
        self.is_fresh = false;
        self.pending = 0;
        if is_left {
            let is_same = self.draft.makes(serial, bytes);
            self.draft.add(frame);
            return is_same;
        }
        self.draft.add(frame);
        self.draft.makes(serial, bytes)
    }

    /// A tick makes the transfer of all that is built: whether these are its bytes. Either way it is made.
    pub fn make_all(&mut self, serial: u64, bytes: &[u8]) -> bool
        requires { 0 < length self.old.frames }
        ensures same { IsTrue result ↔ (bytes.now ≡ form self.old.params serial self.old.frames) }
        ensures rest { self.new ≡ made (end self.old) self.old }
    {
        self.cover = self.end();
        self.is_fresh = false;
        self.pending = 0;
        self.draft.makes(serial, bytes)
    }

    /// A tick is waited.
    pub fn wait(&mut self)
        requires { 0 < self.old.pending }
        ensures { self.new ≡ record self.old { pending = self.old.pending - 1 } }
    {
        self.pending -= 1;
    }

    /// All that is built is dropped.
    pub fn drop_all(&mut self)
        ensures { self.new ≡ covered (end self.old) self.old }
    {
        self.cover = self.end();
        self.pending = 0;
        self.draft.clear();
    }

    /// The lane.
    pub fn lane(&self) -> Lane
        ensures { result ≡ self.now.lane }
    {
        self.lane
    }

    /// How many ticks an open outward block waits yet.
    pub fn pending(&self) -> u32
        ensures { result ≡ self.now.pending }
    {
        self.pending
    }

    /// How many datagrams are built.
    pub fn count(&self) -> u64
        ensures { result ≡ length self.now.frames }
    {
        u64::from(self.draft.count())
    }

    /// The end of the last transfer that was made, or of what was dropped: the number of the first datagram that is built.
    pub fn cover(&self) -> u64
        ensures { result ≡ self.now.cover }
    {
        self.cover
    }

    /// One more than the number of the last accepted datagram.
    pub fn end(&self) -> u64
        ensures { result ≡ end self.now }
    {
        self.cover + self.count()
    }

    /// Whether a block is open; outward a frame that the last block had no room for opens none.
    pub fn is_open(&self) -> bool
        ensures { result ≡ is_open self.now }
    {
        let packs = self.draft.packs(self.lane) && !self.draft.is_empty();
        match self.lane {
            Lane::Outward => packs && self.is_fresh,
            Lane::Inward => packs,
        }
    }

    /// Whether the open block holds a transmit request that was claimed when it was opened.
    pub fn claims(&self) -> bool
        ensures { result ≡ claims self.now }
    {
        match self.lane {
            Lane::Outward => self.is_open(),
            Lane::Inward => false,
        }
    }

    /// Whether an offer whose frame makes this transfer, or none, needs a transmit request that is at home.
    pub fn offer_needs(&self, closed: Option<(u64, u64)>) -> bool
        ensures { result ≡ offer_needs self.now.lane self.now closed }
    {
        match self.lane {
            Lane::Outward => !self.is_open(),
            Lane::Inward => closed.is_some(),
        }
    }

    /// Whether a tick that makes a transfer needs one.
    pub fn tick_needs(&self) -> bool
        ensures { result ≡ tick_needs self.now.lane self.now }
    {
        match self.lane {
            Lane::Outward => !self.is_open(),
            Lane::Inward => true,
        }
    }
}
