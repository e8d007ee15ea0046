//! An endpoint: the queue, the posted requests and the flight between the two ends of a lane.

ghost use Rattle.std.specs.Prelude.{◌≡◌, ◌^◌, ◌-◌, ◌<◌, ◌++◌, ◌∷◌, ◌≤◌, [], Some, IfOk, IfErr, IfSome, IfNone, false, length, min};
ghost use Rattle.un_facts.specs.Numbers.{within};
ghost use Rattle.un_endpoint.specs.Bus.{flight_count, flying_serial, is_head_marked, no_bus, queued_count, record_of, unmarked_count};
ghost use Rattle.un_endpoint.specs.Outcomes.{Lands, Marks, Takes};

use crate::flight::{Carried, Flight};
use crate::outcome::{Full, Landed, Taken};
use crate::record::FlightRecord;
use circular_buffer::HeapCircularBuffer;
use std::alloc::{AllocError, Global};
use std::marker::Model;
use un_facts::{count, spans};
use un_frame::{FaultKind, Planned};
use un_req::Request;

/// How often a transfer is tried again at most.
const MOST_ATTEMPTS: u32 = 3;

/// The bus of one lane: the queued transfers and the posted receive requests, each in a ring that is reserved when it is made, the marks of the first queued ones, and what is
/// remembered of the flight that is out. Transfers go in their order, so only the one that is out, or else the first queued one, can have failed attempts: one count keeps them. It has each request that it was given in exactly one place until it gives it out. No call after `make` takes memory.
#[derive(Drop)]
pub struct Endpoint {
    queue: HeapCircularBuffer<Request>,
    marks: HeapCircularBuffer<u32>,
    posted: HeapCircularBuffer<Request>,
    flight: Option<FlightRecord>,
    mark: Option<u32>,
    attempts: u32,
    halted: bool,
    largest: u32,
}

impl Model for Endpoint {
    ghost use Rattle.un_endpoint.specs.Bus.{Bus};

    ghost Value = { Bus };

    ghost use Rattle.un_endpoint.specs.Inside.{IsSoundBus, bus_in};

    ghost view = { bus_in };

    ghost invariant = { IsSoundBus };
}

impl Endpoint {
    /// An empty endpoint, for at most `tx` queued and `rx` posted requests and transfers of at most `largest` bytes. An error is want of memory.
    pub fn make(alloc: Global, tx: u32, rx: u32, largest: u32) -> Result<Endpoint, AllocError>
        ensures { IfOk result (λ e. e ≡ no_bus tx rx largest) }
    {
        let queue = HeapCircularBuffer::with_capacity(alloc, tx as usize)?;
        let marks = HeapCircularBuffer::with_capacity(alloc, tx as usize)?;
        let posted = HeapCircularBuffer::with_capacity(alloc, rx as usize)?;
        Ok(Endpoint {
            queue,
            marks,
            posted,
            flight: None,
            mark: None,
            attempts: 0,
            halted: false,
            largest,
        })
    }

    /// Puts a transfer of at most `largest` bytes at the end of the queue. `Full`, with the request, comes exactly where the queue has its capacity.
    pub fn queue(&mut self, request: Request) -> Result<(), Full>
        requires { length request.bytes ≤ self.old.largest }
        ensures ok { IfOk result (λ _. (length self.old.queue < self.old.tx_room) × (self.new ≡ record self.old { queue = self.old.queue ++ request ∷ [] })) }
        ensures full { IfErr result (λ f. (length self.old.queue ≡ self.old.tx_room) × (self.new ≡ self.old) × (f ≡ record { count = self.old.tx_room; request = request })) }
    {
        let count = self.queue.len();
        match self.queue.try_push_back(request) {
            Ok(()) => Ok(()),
            Err(request) => Err(Full {
                count: count as u32,
                request,
            }),
        }
    }

    /// Puts a receive request with room for `largest` bytes at the end of the posted ones. `Full`, with the request, comes exactly where they are at their capacity.
    pub fn post(&mut self, request: Request) -> Result<(), Full>
        requires { self.old.largest ≤ request.capacity }
        ensures ok { IfOk result (λ _. (length self.old.posted < self.old.rx_room) × (self.new ≡ record self.old { posted = self.old.posted ++ request ∷ [] })) }
        ensures full { IfErr result (λ f. (length self.old.posted ≡ self.old.rx_room) × (self.new ≡ self.old) × (f ≡ record { count = self.old.rx_room; request = request })) }
    {
        let count = self.posted.len();
        match self.posted.try_push_back(request) {
            Ok(()) => Ok(()),
            Err(request) => Err(Full {
                count: count as u32,
                request,
            }),
        }
    }

    /// Takes the first queued transfer and the first posted request as a flight; a marked transfer is given up instead. The first that applies is the answer: a flight is out (`Flying`); nothing is queued
    /// (`Empty`); the first is marked (`Reaped`); `asleep` (`None`); halted (`Halted`); nothing is posted (`NoBuffer`).
    pub fn take(&mut self, asleep: bool) -> Option<Taken>
        ensures { Takes asleep self.old self.new result }
    {
        if let Some(flight) = self.flight {
            return Some(Taken::Flying {
                serial: flight.serial,
            });
        }
        if self.queue.is_empty() {
            return Some(Taken::Empty);
        }
        if let Some(cause) = self.marks.pop_front() {
            self.attempts = 0;
            return match self.queue.pop_front() {
                Some(request) => Some(Taken::Reaped { request, cause }),
                None => unreachable!(),
            };
        }
        if asleep {
            return None;
        }
        if self.halted {
            return Some(Taken::Halted);
        }
        let rx = match self.posted.pop_front() {
            Some(rx) => rx,
            None => return Some(Taken::NoBuffer),
        };
        let tx = match self.queue.pop_front() {
            Some(tx) => tx,
            None => unreachable!(),
        };
        let flight = Flight::make(tx, rx);
        self.flight = Some(flight.record());
        self.mark = None;
        Some(Taken::Flight(flight))
    }

    /// Ends the flight that is out. Where it was marked it is cut. Else where `Proto` is planned and fewer of its attempts have failed, it is queued before all others to be tried again, or it has failed where
    /// three have. Else where `Halt` is planned it has failed, and the endpoint is halted. Else it has arrived. Both requests are given back, but for the transmit request that is queued again.
    pub fn land(&mut self, carried: Carried, planned: Planned) -> Landed
        requires out { self.old.flight ≡ Some (record_of carried) }
        requires room { length self.old.queue < self.old.tx_room }
        requires short { length carried.tx.bytes ≤ self.old.largest }
        ensures { Lands self.old self.new carried planned result }
    {
        let mark = self.mark;
        let attempts = self.attempts;
        self.flight = None;
        self.mark = None;
        self.attempts = 0;
        let (tx, rx) = carried.parts();
        if let Some(cause) = mark {
            return Landed::Cut { tx, rx, cause };
        }
        match planned {
            Planned::Proto { times } => {
                if attempts >= times {
                    return Landed::Arrived { tx, rx };
                }
                if attempts >= MOST_ATTEMPTS {
                    let kind = FaultKind::Proto;
                    return Landed::Failed { tx, rx, kind };
                }
                self.attempts = attempts + 1;
                match self.queue.try_push_front(tx) {
                    Ok(()) => Landed::Retried {
                        rx,
                        attempt: attempts + 1,
                    },
                    Err(_) => unreachable!(),
                }
            }
            Planned::Halt => {
                self.halted = true;
                let kind = FaultKind::Halt;
                Landed::Failed { tx, rx, kind }
            }
            Planned::Clean => Landed::Arrived { tx, rx },
        }
    }

    /// Marks the oldest transfer that isn't marked, the flight before the queue, with the index of the control that cuts it, and answers its serial. `None` comes exactly where every one is marked.
    pub fn mark_oldest(&mut self, cause: u32) -> Option<u64>
        ensures { Marks self.old self.new cause result }
    {
        if let (Some(flight), None) = (self.flight, self.mark) {
            self.mark = Some(cause);
            return Some(flight.serial);
        }
        match self.queue.get(self.marks.len()) {
            Some(request) => {
                let serial = request.serial();
                self.marks.push_back(cause);
                Some(serial)
            }
            None => None,
        }
    }

    /// Takes back the first posted request; `None` exactly where none is posted.
    pub fn recall(&mut self) -> Option<Request>
        ensures some { IfSome result (λ r. self.old ≡ record self.new { posted = r ∷ self.new.posted }) }
        ensures none { IfNone result ((self.old.posted ≡ []) × (self.new ≡ self.old)) }
    {
        self.posted.pop_front()
    }

    /// Clears the halt, and tells whether it was set.
    pub fn clear(&mut self) -> bool
        ensures was { result ≡ self.old.halted }
        ensures bus { self.new ≡ record self.old { halted = false } }
    {
        let was = self.halted;
        self.halted = false;
        was
    }

    /// How many transfers are queued.
    pub fn queued(&self) -> u32
        ensures { result ≡ length self.now.queue }
    {
        self.queue.len() as u32
    }

    /// How many requests are posted.
    pub fn posted(&self) -> u32
        ensures { result ≡ length self.now.posted }
    {
        self.posted.len() as u32
    }

    /// Whether it is halted.
    pub fn halted(&self) -> bool
        ensures { result ≡ self.now.halted }
    {
        self.halted
    }

    /// How many queued or flying transfers aren't marked; it stands still at the greatest u32.
    pub fn unmarked(&self) -> u32
        ensures { result ≡ min (unmarked_count self.now) (2 ^ 32 - 1) }
    {
        let _kept = self.largest;
        let waiting = (self.queue.len() - self.marks.len()) as u32;
        match (self.flight, self.mark) {
            (Some(_), None) => waiting.saturating_add(1),
            _ => waiting,
        }
    }

    /// The serial of the flight that is out.
    pub fn flying(&self) -> Option<u64>
        ensures { result ≡ flying_serial self.now.flight }
    {
        match self.flight {
            Some(flight) => Some(flight.serial),
            None => None,
        }
    }

    /// Whether something is queued and the first of it is marked.
    pub fn head_marked(&self) -> bool
        ensures { result ≡ is_head_marked self.now }
    {
        !self.queue.is_empty() && !self.marks.is_empty()
    }

    /// How often a datagram's number stands in the spans of the queued transfers, and in that of the flight.
    pub fn census(&self, number: u64) -> (u32, u32)
        ensures queued { result.0 ≡ queued_count number self.now.queue }
        ensures flying { result.1 ≡ flight_count number self.now.flight }
    {
        let _kept = self.largest;
        (
            spans_with(&self.queue, number),
            self.flight
                .map_or(0, |flight| count(spans(flight.from, flight.to, number))),
        )
    }
}

/// Whether a transfer has a number in its span.
fn has(request: &Request, number: u64) -> bool
    ensures { result ≡ within request.now.from request.now.to number }
{
    spans(request.from(), request.to(), number)
}

/// How many of these transfers, fewer than 2^32, have a datagram's number in their span.
#[tactic(auto, unfolding(crate::specs::Bus::queued_count), using(crate::proofs::Counts::counted_more, crate::proofs::Counts::counted_less))]
pub(crate) fn spans_with(queue: &HeapCircularBuffer<Request>, number: u64) -> u32
    requires { length queue.now.items < 2 ^ 32 }
    ensures { result ≡ queued_count number queue.now.items }
{
    let mut count = 0;
    for index in 0..queue.len() {
        let Some(request) = queue.get(index) else {
            unreachable!();
        };
        if has(request, number) {
            count += 1;
        }
    }
    count
}
