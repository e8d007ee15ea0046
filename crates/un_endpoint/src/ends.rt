//! What the two ends of a lane do.

ghost use Rattle.std.specs.Prelude.{◌≡◌, ◌+◌, ◌-◌, ◌<◌, ◌^◌, ◌++◌, ◌∷◌, ◌≤◌, ◌↔◌, ◌⊎◌, ◌==◌, [], Some, None, IfSome, IfNone, IsTrue, length, is_some, not, true, false, List, ℕ};
ghost use Rattle.un_frame.specs.declared.params.Lane.TheVariants.{Outward};
ghost use Rattle.un_endpoint.specs.Ends.{IsAwayRx, IsAwayTx, IsWhole, Receiver, Transmitter, arrived_count, built_count, current_count, deferred_count, remainder_count};
ghost use Rattle.un_endpoint.specs.EndOutcomes.{CanOffer, ComesHome, DropsBuild, IsLent, IsNextDeferred, LeavesHome, Offers, Opens, OpensNothing, Steps, Ticks, can_tick};

use crate::outcome::{Built, Ticked};
use un_req::Request;

/// The transmitting end of a lane: it builds transfers of frames, and keeps its requests that aren't on the bus. Contracts see it as a `Transmitter`: its parameters, what is built, and the lists of its requests.
/// No call takes memory.
pub trait TxEnd {
    /// What it holds.
    ghost transmitter: { Self → Transmitter };

    /// The capacity of its requests, which no transfer exceeds.
    fn capacity(&self) -> u32
        ensures { result ≡ (transmitter self.now).capacity };

    /// How many transfers are deferred.
    fn deferred(&self) -> u32
        ensures { result ≡ length (transmitter self.now).deferred };

    /// How many are done.
    fn done(&self) -> u32
        ensures { result ≡ length (transmitter self.now).done };

    /// How many requests are home.
    fn home(&self) -> u32
        ensures { result ≡ length (transmitter self.now).home };

    /// Whether an offer of a frame of `length` bytes, a segment at most, would not answer `Busy`.
    fn can_offer(&self, length: u32) -> bool
        ensures { CanOffer (transmitter self.now) length result };

    /// Whether a tick would answer `Waited` or `Made`.
    fn can_tick(&self) -> bool
        ensures { result ≡ can_tick (transmitter self.now) };

    /// How often a datagram's number stands in the open block, in the remainder, and in the spans of the deferred transfers.
    fn tx_census(&self, number: u64) -> (u32, u32, u32)
        ensures builder { result.0 ≡ built_count (transmitter self.now) number }
        ensures remainder { result.1 ≡ remainder_count (transmitter self.now) number }
        ensures deferred { result.2 ≡ deferred_count (transmitter self.now) number };

    /// Takes a frame of 14 to `segment` bytes as the datagram `number`, which goes on from what is built; a transfer that is made gets `serial`. `Busy`, and then nothing has changed, comes exactly where
    /// building needs a home request and none is home.
    fn offer(&mut self, frame: &[u8], number: u64, serial: u64) -> Built
        requires least { 14 ≤ length frame.now }
        requires most { length frame.now ≤ (transmitter self.old).params.segment }
        requires below { number + 1 < 2 ^ 64 }
        requires next { 0 < length (transmitter self.old).builder.frames → number ≡ (transmitter self.old).builder.from + length (transmitter self.old).builder.frames }
        ensures { Offers (transmitter self.old) (transmitter self.new) frame.now number serial result };

    /// Lets the builder wait, or closes what it has as the transfer `serial`. `NoRequest`, and then nothing has changed, comes exactly where closing needs a home request and none is home.
    fn tick(&mut self, serial: u64) -> Ticked
        ensures { Ticks (transmitter self.old) (transmitter self.new) serial result };

    /// Drops what is built, and tells its span; a claimed request goes home. `None` comes exactly where nothing is built.
    fn drop_build(&mut self) -> Option<(u64, u64)>
        ensures { DropsBuild (transmitter self.old) (transmitter self.new) result };

    /// Puts a transfer at the end of the deferred list, which an outward end alone keeps. The request is one of this end's that is in none of its places.
    fn defer(&mut self, request: Request)
        requires lane { (transmitter self.old).lane ≡ Outward }
        requires away { IsAwayTx (transmitter self.old) request }
        ensures { transmitter self.new ≡ record (transmitter self.old) { deferred = (transmitter self.old).deferred ++ request ∷ [] } };

    /// Takes the first deferred transfer; `None` exactly where none is deferred.
    fn next_deferred(&mut self) -> Option<Request>
        ensures some { IfSome result (IsNextDeferred (transmitter self.old) (transmitter self.new)) }
        ensures none { IfNone result (((transmitter self.old).deferred ≡ []) × (transmitter self.new ≡ transmitter self.old)) };

    /// Puts a request, one of this end's that is in none of its places, at the end of the done list.
    fn finish(&mut self, request: Request)
        requires { IsAwayTx (transmitter self.old) request }
        ensures { transmitter self.new ≡ record (transmitter self.old) { done = (transmitter self.old).done ++ request ∷ [] } };

    /// Brings the first done request home, and tells the serial of its transfer; `None` exactly where none is done.
    fn tx_done(&mut self) -> Option<u64>
        ensures some { IfSome result (ComesHome (transmitter self.old) (transmitter self.new)) }
        ensures none { IfNone result (((transmitter self.old).done ≡ []) × (transmitter self.new ≡ transmitter self.old)) };
}

/// The receiving end of a lane: it reads transfers part by part, and keeps its requests that aren't on the bus. Contracts see it as a `Receiver`. No call takes memory.
pub trait RxEnd {
    /// What it holds.
    ghost receiver: { Self → Receiver };

    /// The capacity of its requests.
    fn capacity(&self) -> u32
        ensures { result ≡ (receiver self.now).capacity };

    /// How many requests have arrived.
    fn arrived(&self) -> u32
        ensures { result ≡ length (receiver self.now).arrived };

    /// Whether a request is current.
    fn current(&self) -> bool
        ensures { result ≡ is_some (receiver self.now).current };

    /// How many requests are home.
    fn home(&self) -> u32
        ensures { result ≡ length (receiver self.now).home };

    /// How often a datagram's number stands in the spans of the arrived transfers, and in what is left of the current one.
    fn rx_census(&self, number: u64) -> (u32, u32)
        ensures arrived { result.0 ≡ arrived_count (receiver self.now) number }
        ensures current { result.1 ≡ current_count (receiver self.now).current number };

    /// Takes a home request, empty, to be posted; `None` exactly where none is home.
    fn refill(&mut self) -> Option<Request>
        ensures some { IfSome result (LeavesHome (receiver self.old) (receiver self.new)) }
        ensures none { IfNone result (((receiver self.old).home ≡ []) × (receiver self.new ≡ receiver self.old)) };

    /// Brings a request home, one of this end's that is in none of its places.
    fn give_back(&mut self, request: Request)
        requires { IsAwayRx (receiver self.old) request }
        ensures { receiver self.new ≡ record (receiver self.old) { home = (receiver self.old).home ++ request.number ∷ [] } };

    /// Puts a transfer at the end of the arrived ones. The class's grammar reads its bytes as as many frames as its span has numbers, at least one.
    fn arrive(&mut self, request: Request)
        requires away { IsAwayRx (receiver self.old) request }
        requires whole { IsWhole (receiver self.old).params request }
        ensures { receiver self.new ≡ record (receiver self.old) { arrived = (receiver self.old).arrived ++ request ∷ [] } };

    /// Makes the first arrived request the current one, and tells its serial; `None` exactly where one is current or none has arrived.
    fn rx_done(&mut self) -> Option<u64>
        ensures some { IfSome result (Opens (receiver self.old) (receiver self.new)) }
        ensures none { IfNone result (OpensNothing (receiver self.old) (receiver self.new)) };

    /// Lends the next datagram of the current request, with its number; `None` exactly where none is current. Nothing is copied.
    fn lend(&self) -> Option<(u64, &[u8])>
        ensures some { IfSome result (λ lent. IsLent (receiver self.now) lent.0 lent.1.now) }
        ensures none { IfNone result ((receiver self.now).current ≡ None) };

    /// Goes on past the datagram that `lend` gives, of the current request, and answers true where it was the last one; the request is
    /// then home.
    fn advance(&mut self) -> bool
        requires { is_some (receiver self.old).current ≡ true }
        ensures { Steps (receiver self.old) (receiver self.new) result };
}
