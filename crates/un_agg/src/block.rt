//! A transfer that is being built.

ghost use Rattle.std.specs.Prelude.{◌≡◌, ◌+◌, ◌<◌, ◌≤◌, ◌^◌, ◌++◌, ◌∷◌, [], None, Some, IfNone, IfSome, IsTrue, is_some, length, map, true};
ghost use Rattle.un_frame.specs.Cut.{ends_at_limit};
ghost use Rattle.un_frame.specs.Lanes.{packs};
ghost use Rattle.un_frame.specs.Params.{Agree, AreInRange};
ghost use Rattle.un_frame.specs.Wire.{capacity_of, frame_fits};
ghost use Rattle.un_frame.specs.declared.params.Lane.TheVariants.{Outward};
ghost use Rattle.un_agg.specs.Held.{claim_of};
ghost use Rattle.un_wire.specs.Codings.{coding_of};

use std::marker::Model;
use un_frame::Lane;
use un_req::Request;
use un_wire::{Codec, Wire};

/// A codec, and the request in which its open transfer is built. Both builders keep one.
#[derive(Drop)]
pub struct OpenBlock {
    codec: Codec,
    limit: u32,
    request: Option<Request>,
}

impl Model for OpenBlock {
    ghost use Rattle.un_agg.specs.Block.{Block, IsSoundBlock, block_in};

    ghost Value = { Block };

    ghost view = { block_in };

    ghost invariant = { IsSoundBlock };
}

impl OpenBlock {
    ghost use Rattle.un_agg.specs.Block.{IsTransfer, no_block};

    /// No open block. `limit` is the most datagrams of one, with 0 for no limit, as the codec's parameters have it.
    pub fn make(codec: Codec, limit: u32) -> OpenBlock
        requires in_range { AreInRange (coding_of codec).params }
        requires agree { Agree (coding_of codec).params }
        requires limit { limit ≡ (coding_of codec).params.datagrams }
        ensures { result ≡ no_block (coding_of codec).params }
    {
        OpenBlock {
            codec,
            limit,
            request: None,
        }
    }

    /// The most bytes of a transfer.
    pub fn capacity(&self) -> u32
        ensures { result ≡ capacity_of self.now.params }
    {
        self.codec.capacity()
    }

    /// Whether the transfers of a lane are blocks of several frames.
    pub fn packs(&self, lane: Lane) -> bool
        ensures { result ≡ packs self.now.params.class lane }
    {
        self.codec.packs(lane)
    }

    /// Whether a block is open.
    pub fn is_open(&self) -> bool
        ensures { result ≡ is_some self.now.claim }
    {
        self.request.is_some()
    }

    /// How many frames it has.
    pub fn count(&self) -> u32
        ensures { result ≡ length self.now.frames }
    {
        match self.request {
            Some(_) => self.codec.count(),
            None => 0,
        }
    }

    /// Whether a frame of this length in bytes fits the open block.
    pub fn fits(&self, size: u32) -> bool
        requires { is_some self.now.claim ≡ true }
        ensures { result ≡ frame_fits self.now.params (map length self.now.frames) size }
    {
        self.codec.fits(size)
    }

    /// Whether it has as many frames as the limit allows.
    pub fn is_full(&self) -> bool
        ensures { result ≡ ends_at_limit Outward self.now.params (length self.now.frames) }
    {
        self.limit != 0 && self.count() == self.limit
    }

    /// Opens a block in an empty request, with its first frame.
    pub fn begin(&mut self, request: Request, frame: &[u8])
        requires none { self.old.claim ≡ None }
        requires empty { request.bytes ≡ [] }
        requires room { capacity_of self.old.params ≤ request.capacity }
        requires least { 14 ≤ length frame.now }
        requires fits { IsTrue (frame_fits self.old.params [] (length frame.now)) }
        ensures { self.new ≡ record self.old { frames = frame.now ∷ []; claim = Some (claim_of request) } }
    {
        let mut request = request;
        self.codec.start(&mut request);
        self.codec.append(&mut request, frame);
        self.request = Some(request);
    }

    /// Appends a frame that fits the open block.
    pub fn append(&mut self, frame: &[u8])
        requires opened { is_some self.old.claim ≡ true }
        requires least { 14 ≤ length frame.now }
        requires fits { IsTrue (frame_fits self.old.params (map length self.old.frames) (length frame.now)) }
        ensures { self.new ≡ record self.old { frames = self.old.frames ++ frame.now ∷ [] } }
    {
        let Some(request) = self.request.take() else {
            unreachable!();
        };
        let mut request = request;
        self.codec.append(&mut request, frame);
        self.request = Some(request);
    }

    /// Closes the block: its request then has the transfer of its frames, which begin with the datagram `from`.
    pub fn close(&mut self, from: u64, serial: u64) -> Request
        requires opened { is_some self.old.claim ≡ true }
        requires below { from + length self.old.frames < 2 ^ 64 }
        ensures block { self.new ≡ record self.old { frames = []; claim = None } }
        ensures claimed { self.old.claim ≡ Some (claim_of result) }
        ensures made { IsTransfer self.old.params self.old.frames from serial result }
    {
        let Some(request) = self.request.take() else {
            unreachable!();
        };
        let mut request = request;
        let to = from + self.codec.count() as u64;
        self.codec.close(&mut request, serial);
        request.stamp(from, to, serial);
        request
    }

    /// The transfer of one frame, the datagram `from`, in an empty request.
    pub fn build_one(&mut self, request: Request, frame: &[u8], from: u64, serial: u64) -> Request
        requires none { self.old.claim ≡ None }
        requires no_frames { self.old.frames ≡ [] }
        requires empty { request.bytes ≡ [] }
        requires room { capacity_of self.old.params ≤ request.capacity }
        requires least { 14 ≤ length frame.now }
        requires fits { IsTrue (frame_fits self.old.params [] (length frame.now)) }
        requires below { from + 1 < 2 ^ 64 }
        ensures block { self.new ≡ self.old }
        ensures claimed { claim_of result ≡ claim_of request }
        ensures made { IsTransfer self.old.params (frame.now ∷ []) from serial result }
    {
        self.begin(request, frame);
        self.close(from, serial)
    }

    /// Gives up the open block, and gives its request back.
    pub fn give_up(&mut self) -> Option<Request>
        ensures block { self.new ≡ no_block self.old.params }
        ensures some { IfSome result (λ r. self.old.claim ≡ Some (claim_of r)) }
        ensures none { IfNone result (self.old.claim ≡ None) }
    {
        self.request.take()
    }
}
