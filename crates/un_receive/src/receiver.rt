//! The receiving end.

ghost use Rattle.std.specs.Prelude.{◌≡◌, ◌≤◌, ℕ, IfOk};
ghost use Rattle.un_frame.specs.Lanes.{rx_size};
ghost use Rattle.un_frame.specs.Params.{Agree, AreInRange};
ghost use Rattle.un_endpoint.specs.Ends.{IsWhole, current_count, rx_copies};
ghost use Rattle.un_receive.specs.Reading.{IsReading, opened_of};
ghost use Rattle.un_wire.specs.Codings.{coding_of};
ghost use Rattle.un_wire.specs.Cursors.{IsAt, part_index};
ghost use Rattle.un_frame.specs.Parts.{ReadsAs};
ghost use Rattle.un_receive.specs.Rx.{fresh_rx};

use crate::lane::OnLane;
use std::alloc::{AllocError, Global};
use std::marker::{Model, PhantomData};
use un_endpoint::{Requests, RxEnd};
use un_frame::{Lane, Params};
use un_req::{Pool, Request};
use un_wire::{Codec, Cursor, Wire};

/// The request that is being read: its transfer, where the next part of it stands, and the number of that datagram.
#[derive(Drop)]
pub(crate) struct Current {
    request: Request,
    cursor: Cursor,
    next: u64,
}

/// The receiving end of the lane that `L` names: the pool of its requests, the list of the arrived ones, and the current one with a cursor over
/// its parts. Each of its requests stands in one place at most. By its fields it has no bytes but those of its requests: a datagram is lent from the request that it came in.
#[derive(Drop)]
pub struct LaneRx<L> {
    codec: Codec,
    pool: Pool,
    arrived: Requests,
    current: Option<Current>,
    lane: PhantomData<L>,
}

impl<L> Model for LaneRx<L> {
    ghost use Rattle.un_endpoint.specs.Ends.{Receiver};

    ghost Value = { Receiver };

    ghost use Rattle.un_receive.specs.Reading.{IsLaneRx, receiver_in};

    ghost view = { receiver_in };

    ghost invariant = { IsLaneRx };
}

impl<L: OnLane> LaneRx<L> {
    /// An end with as many requests as the parameters say for its lane, `rx_out` or `rx_in`, all home. It takes the memory for all of them and for the list; an error is want of memory.
    pub fn make(alloc: Global, params: &Params) -> Result<LaneRx<L>, AllocError>
        requires in_range { AreInRange params.now }
        requires agree { Agree params.now }
        ensures { IfOk result (λ end. end ≡ fresh_rx L.LANE params.now) }
    {
        let codec = Codec::make(alloc, params)?;
        let size = size_of(L::LANE, params);
        let pool = Pool::make(alloc, size, codec.capacity())?;
        let arrived = Requests::make(alloc, size)?;
        Ok(LaneRx {
            codec,
            pool,
            arrived,
            current: None,
            lane: PhantomData,
        })
    }

    /// Each number of its pool stands in one of its places at most, once, and no other number does: at home, among the arrived requests, or as the current one.
    pub fn prove_each_once(&self)
        ensures once { (number : ℕ) → rx_copies self.now number ≤ 1 }
        ensures known { (number : ℕ) → self.now.size ≤ number → rx_copies self.now number ≡ 0 }
    {
        let _pool = &self.pool;
    }
}

impl<L> RxEnd for LaneRx<L> {
    ghost receiver = { λ end. end };

    fn capacity(&self) -> u32 {
        self.pool.capacity()
    }

    fn arrived(&self) -> u32 {
        self.arrived.len()
    }

    fn current(&self) -> bool {
        self.current.is_some()
    }

    fn home(&self) -> u32 {
        self.pool.home()
    }

    fn rx_census(&self, number: u64) -> (u32, u32) {
        (
            self.arrived.census(number),
            left_with(&self.current, number),
        )
    }

    fn refill(&mut self) -> Option<Request> {
        self.pool.take()
    }

    fn give_back(&mut self, request: Request) {
        self.pool.put(request);
    }

    fn arrive(&mut self, request: Request) {
        self.arrived.push(request);
    }

    fn rx_done(&mut self) -> Option<u64> {
        if self.current.is_some() {
            return None;
        }
        let request = self.arrived.pop()?;
        let serial = request.serial();
        self.current = Some(open(&self.codec, request));
        Some(serial)
    }

    fn lend(&self) -> Option<(u64, &[u8])> {
        let current = self.current.as_ref()?;
        let part = self
            .codec
            .part_at(current.request.bytes(), &current.cursor)?;
        Some((current.next, part))
    }

    fn advance(&mut self) -> bool {
        let Some(current) = self.current.take() else {
            unreachable!();
        };
        let Current {
            request,
            cursor,
            next,
        } = current;
        let mut cursor = cursor;
        let was_last = self.codec.advance(request.bytes(), &mut cursor);
        if was_last {
            self.pool.put(request);
        } else {
            self.current = Some(Current {
                request,
                cursor,
                next: next + 1,
            });
        }
        was_last
    }
}

/// How many requests the receiving end of a lane has.
fn size_of(lane: Lane, params: &Params) -> u32
    requires { AreInRange params.now }
    ensures size { result ≡ rx_size params.now lane }
    ensures some { 1 ≤ result }
{
    match lane {
        Lane::Outward => params.rx_out,
        Lane::Inward => params.rx_in,
    }
}

/// The cursor at the first part of a transfer that the grammar reads.
fn first_part(codec: &Codec, bytes: &[u8]) -> Cursor
    requires { (count : ℕ) × ReadsAs (coding_of codec.now).params.class bytes.now count }
    ensures at { IsAt (coding_of codec.now).params.class bytes.now result }
    ensures first { part_index (coding_of codec.now).params.class bytes.now result ≡ 0 }
{
    match codec.cursor(bytes) {
        Ok(cursor) => cursor,
        Err(_) => unreachable!(),
    }
}

/// Opens a transfer at its first part. The grammar reads it as as many frames as its span has numbers, at least one.
fn open(codec: &Codec, request: Request) -> Current
    requires { IsWhole (coding_of codec.now).params request }
    ensures request { result.request ≡ request }
    ensures next { result.next ≡ request.from }
    ensures reading { IsReading (coding_of codec.now).params.class result }
{
    let cursor = first_part(codec, request.bytes());
    let next = request.from();
    Current {
        request,
        cursor,
        next,
    }
}

/// How often a datagram's number stands in what is left of the current request.
fn left_with(current: &Option<Current>, number: u64) -> u32
    ensures { result ≡ current_count (opened_of current.now) number }
{
    match current {
        Some(current) => (current.next <= number && number < current.request.to()) as u32,
        None => 0,
    }
}
