//! What a builder of transfers does.

ghost use Rattle.std.specs.Prelude.{◌≡◌, ◌+◌, ◌<◌, ◌≤◌, ◌^◌, [], None, IfOk, IsTrue, length};
ghost use Rattle.un_frame.specs.Params.{Agree, AreInRange};
ghost use Rattle.un_frame.specs.Wire.{capacity_of, frame_fits};
ghost use Rattle.un_frame.specs.declared.params.Lane.{Lane};
ghost use Rattle.un_endpoint.specs.EndOutcomes.{CanOffer, DropsBuild, Offers, Ticks, can_tick};
ghost use Rattle.un_wire.specs.Codings.{coding_of};
ghost use Rattle.un_agg.specs.Held.{Held, IsClaimed, built_in, end_of, left_in, nothing_held};

use std::alloc::{AllocError, Global};
use un_endpoint::{Built, Ticked};
use un_frame::Lane;
use un_req::Pool;
use un_wire::Codec;

/// Builds the transfers of a lane of frames, in requests of the lane's pool. Contracts see it as a `Held`, and say what a call does of the transmitting end that it is with the pool (`end_of`).
/// A claimed request is out of the pool, and the pool's requests have room for the codec's transfers. No call after `make` takes memory.
pub trait Builder: Sized {
    /// The lane that it builds for.
    ghost LANE: { Lane };

    /// What it holds.
    ghost held: { Self → Held };

    /// The lane that it builds for.
    const LANE: Lane;

    /// A builder that holds nothing. `limit` is the most datagrams of a block, with 0 for no limit, as the codec's parameters have it. An error is want of memory.
    fn make(alloc: Global, codec: Codec, limit: u32) -> Result<Self, AllocError>
        requires in_range { AreInRange (coding_of codec).params }
        requires agree { Agree (coding_of codec).params }
        requires limit { limit ≡ (coding_of codec).params.datagrams }
        ensures { IfOk result (λ builder. held builder ≡ nothing_held (coding_of codec).params) };

    /// Whether an offer of a frame of `length` bytes, a segment at most, would not answer `Busy`.
    fn can_offer(&self, pool: &Pool, length: u32) -> bool
        ensures { CanOffer (end_of LANE (held self.now) pool.now) length result };

    /// Whether a tick would answer `Waited` or `Made`.
    fn can_tick(&self, pool: &Pool) -> bool
        ensures { result ≡ can_tick (end_of LANE (held self.now) pool.now) };

    /// How often a datagram's number stands in the open block, and in the remainder.
    fn census(&self, number: u64) -> (u32, u32)
        ensures builder { result.0 ≡ built_in LANE (held self.now) number }
        ensures remainder { result.1 ≡ left_in LANE (held self.now) number };

    /// Takes a frame of at least 14 bytes, which fits an empty transfer, as the datagram `number`, which goes on from what is built; a transfer that is made gets `serial`. `Busy`, and then nothing has
    /// changed, comes exactly where building needs a home request and none of the pool's is home.
    fn offer(&mut self, pool: &mut Pool, frame: &[u8], number: u64, serial: u64) -> Built
        requires capacity { capacity_of (held self.old).params ≤ pool.old.capacity }
        requires claimed { IsClaimed pool.old (held self.old).claim }
        requires least { 14 ≤ length frame.now }
        requires fits { IsTrue (frame_fits (held self.old).params [] (length frame.now)) }
        requires below { number + 1 < 2 ^ 64 }
        requires next { 0 < length (held self.old).frames → number ≡ (held self.old).from + length (held self.old).frames }
        ensures built { Offers (end_of LANE (held self.old) pool.old) (end_of LANE (held self.new) pool.new) frame.now number serial result }
        ensures claimed { IsClaimed pool.new (held self.new).claim };

    /// Lets an open block wait, or closes what is built as the transfer `serial`. `NoRequest`, and then nothing has changed, comes exactly where closing needs a home request and none of the pool's is home.
    fn tick(&mut self, pool: &mut Pool, serial: u64) -> Ticked
        requires capacity { capacity_of (held self.old).params ≤ pool.old.capacity }
        requires claimed { IsClaimed pool.old (held self.old).claim }
        ensures ticked { Ticks (end_of LANE (held self.old) pool.old) (end_of LANE (held self.new) pool.new) serial result }
        ensures claimed { IsClaimed pool.new (held self.new).claim };

    /// Drops what is built, and tells its span; a claimed request goes home. `None` comes exactly where nothing is built.
    fn drop_build(&mut self, pool: &mut Pool) -> Option<(u64, u64)>
        requires claimed { IsClaimed pool.old (held self.old).claim }
        ensures dropped { DropsBuild (end_of LANE (held self.old) pool.old) (end_of LANE (held self.new) pool.new) result }
        ensures claim { (held self.new).claim ≡ None };
}
