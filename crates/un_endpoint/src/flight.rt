//! Flights, before and after the copy.

ghost use Rattle.std.specs.Prelude.{◌≡◌, ◌≤◌, length};
ghost use Rattle.un_endpoint.specs.Bus.{received, record_of};

use crate::record::FlightRecord;
use std::marker::Model;
use un_packet::carry;
use un_req::Request;

/// A transmit and a receive request that were taken from an endpoint together; the second has room for the bytes of the first. It is a moved value that can't be dropped: it is carried exactly once.
pub struct Flight {
    tx: Request,
    rx: Request,
}

impl Model for Flight {
    ghost use Rattle.std.specs.Prelude.{◌≤◌, length};
    ghost use Rattle.un_endpoint.specs.Bus.{Trip};

    ghost Value = { Trip };

    ghost view = { λ f. record { tx = f.tx; rx = f.rx.number; rx_capacity = f.rx.capacity } };

    ghost invariant = { λ f. length f.tx.bytes ≤ f.rx.capacity };
}

/// A flight whose receive request holds the transmit request's bytes, span and serial. It is a moved value that can't be dropped: it is landed exactly once.
pub struct Carried {
    tx: Request,
    rx: Request,
}

impl Model for Carried {
    ghost use Rattle.std.specs.Prelude.{◌≡◌, ◌≤◌};
    ghost use Rattle.un_endpoint.specs.Bus.{Trip};

    ghost Value = { Trip };

    ghost view = { λ f. record { tx = f.tx; rx = f.rx.number; rx_capacity = f.rx.capacity } };

    ghost invariant = { λ f. f.rx ≡ record f.tx { number = f.rx.number; capacity = f.rx.capacity } };
}

impl Flight {
    /// Two requests, of which the second has room for the first.
    pub(crate) fn make(tx: Request, rx: Request) -> Flight
        requires { length tx.bytes ≤ rx.capacity }
        ensures { result ≡ record { tx = tx; rx = rx.number; rx_capacity = rx.capacity } }
    {
        Flight { tx, rx }
    }

    /// The serial of its transfer.
    pub fn serial(&self) -> u64
        ensures { result ≡ self.now.tx.serial }
    {
        self.tx.serial()
    }

    /// What the endpoint remembers of it.
    pub fn record(&self) -> FlightRecord
        ensures { result ≡ record_of self.now }
    {
        FlightRecord {
            serial: self.tx.serial(),
            from: self.tx.from(),
            to: self.tx.to(),
            tx: self.tx.number(),
            tx_capacity: self.tx.capacity(),
            rx: self.rx.number(),
            rx_capacity: self.rx.capacity(),
        }
    }

    /// Copies the bytes packet by packet (`packet` is 8 bytes or more), and the span and the serial. This takes no turn, no endpoint and no memory.
    pub fn carry(self, packet: u32) -> Carried
        requires { 8 ≤ packet }
        ensures { result ≡ self }
    {
        let Flight { tx, rx } = self;
        let mut rx = rx;
        carry(&tx, &mut rx, packet);
        Carried { tx, rx }
    }
}

impl Carried {
    /// The serial of its transfer.
    pub fn serial(&self) -> u64
        ensures { result ≡ self.now.tx.serial }
    {
        self.tx.serial()
    }

    /// What each transfer is: no longer than its request's capacity.
    pub fn prove_fits(&self)
        ensures { length self.now.tx.bytes ≤ self.now.tx.capacity }
    {
        let _bytes = self.tx.bytes();
    }

    /// Its two requests.
    pub(crate) fn parts(self) -> (Request, Request)
        ensures tx { result.0 ≡ self.tx }
        ensures rx { result.1 ≡ received self }
    {
        let Carried { tx, rx } = self;
        (tx, rx)
    }
}
