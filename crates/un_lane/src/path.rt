//! One lane between two ends.

ghost use Rattle.std.specs.Prelude.{◌≡◌, [], IfOk};
ghost use Rattle.un_lane.specs.Fresh.{AreFresh};
ghost use Rattle.un_lane.specs.Stands.{Stands};

mod building;
mod control;
mod moving;
mod readings;

use std::alloc::{AllocError, Global};
use std::marker::Model;
use un_endpoint::{Endpoint, RxEnd, TxEnd};
use un_frame::Lane;

/// One lane of a link: a transmitting end, an endpoint and a receiving end, the number of datagrams that were accepted and that of transfers that were made. Contracts see it as a `Way`
/// and say that it stands for the lane's lines in a journal. No call after `make` takes memory, and none reads the journal.
/// A call that writes needs room in the journal for the lines of its step and their bytes.
#[derive(Drop)]
pub struct Path<T: TxEnd + Drop, R: RxEnd + Drop> {
    lane: Lane,
    accepted: u64,
    made: u64,
    tx: T,
    rx: R,
    bus: Endpoint,
}

impl<T: TxEnd + Drop, R: RxEnd + Drop> Model for Path<T, R> {
    ghost use Rattle.un_lane.specs.Way.{Way};

    ghost Value = { Way };

    ghost view = { λ p. record { lane = p.lane; accepted = p.accepted; made = p.made; tx = T.transmitter p.tx; rx = R.receiver p.rx; bus = p.bus } };
}

impl<T: TxEnd + Drop, R: RxEnd + Drop> Path<T, R> {
    /// A path between two fresh ends, with all of their `tx_count` and `rx_count` requests home: it stands for no line. Both have the same parameters; the transmitting end keeps a deferred list exactly where
    /// the path is outward; the receiving end's capacity is at least the transmitting end's. An error is want of memory.
    pub fn make(
        alloc: Global,
        lane: Lane,
        tx: T,
        rx: R,
        tx_count: u32,
        rx_count: u32,
    ) -> Result<Path<T, R>, AllocError>
        requires { AreFresh lane (T.transmitter tx) (R.receiver rx) tx_count rx_count }
        ensures { IfOk result (λ p. Stands p [] × (p.lane ≡ lane) × (p.tx ≡ T.transmitter tx) × (p.rx ≡ R.receiver rx)) }
    {
        let largest = tx.capacity();
        let bus = Endpoint::make(alloc, tx_count, rx_count, largest)?;
        Ok(Path {
            lane,
            accepted: 0,
            made: 0,
            tx,
            rx,
            bus,
        })
    }
}
