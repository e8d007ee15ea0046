//! Flights that were taken out of a link, and the half that they come from.

ghost use Rattle.std.specs.Prelude.{◌≡◌, ◌≤◌, ◌∷◌, []};
ghost use Rattle.un_journal.specs.Step.{Land, Take};
ghost use Rattle.un_link.specs.Flights.{BringsBack, TakesOut, flight_of, path_flights};
ghost use Rattle.un_link.specs.Halves.{Ready};

use crate::half::Half;
use crate::shared::Shared;
use std::marker::Model;
use un_endpoint::{Carried, Flight, RxEnd, TxEnd};
use un_frame::Lane;
use un_journal::Got;
use un_script::sleeps;

/// A flight with its lane, and the packet size (in bytes, at least 8) in which it is copied. It is a moved value that can't be dropped: it is carried exactly once.
pub struct LinkFlight {
    pub(crate) lane: Lane,
    pub(crate) packet: u32,
    pub(crate) flight: Flight,
}

impl Model for LinkFlight {
    ghost use Rattle.std.specs.Prelude.{◌≤◌};
    ghost use Rattle.un_link.specs.Flights.{LaneTrip};

    ghost Value = { LaneTrip };

    ghost view = { λ f. record { lane = f.lane; trip = f.flight } };

    ghost invariant = { λ f. 8 ≤ f.packet };
}

/// A flight whose bytes were copied, with its lane. It is a moved value that can't be dropped: it is landed exactly once.
pub struct LinkCarried {
    pub(crate) lane: Lane,
    pub(crate) carried: Carried,
}

impl Model for LinkCarried {
    ghost use Rattle.un_link.specs.Flights.{LaneTrip};

    ghost Value = { LaneTrip };

    ghost view = { λ f. record { lane = f.lane; trip = f.carried } };
}

impl LinkFlight {
    /// Copies the bytes, the span and the serial: the carried flight is this one. That the bytes go over packet by packet is how it is
    /// built. This takes no turn, no link and no memory.
    pub fn carry(self) -> LinkCarried
        ensures { result ≡ self }
    {
        let LinkFlight {
            lane,
            packet,
            flight,
        } = self;
        LinkCarried {
            lane,
            carried: flight.carry(packet),
        }
    }
}

impl<T: TxEnd + Drop, R: RxEnd + Drop> Half<T, R> {
    /// Takes a flight of this lane.
    pub(crate) fn take(&mut self, shared: &mut Shared, lane: Lane) -> Got<LinkFlight>
        requires lane { self.old.path.lane ≡ lane }
        requires ready { Ready (Take self.old.path.lane) shared.old self.old }
        ensures { TakesOut shared.old shared.new self.old self.new result }
    {
        let packet = shared.script.params().packet;
        match self.path.take(&mut shared.journal, sleeps(shared.phase)) {
            Got::Part(flight) => Got::Part(LinkFlight {
                lane,
                packet,
                flight,
            }),
            Got::Cut => Got::Cut,
            Got::Not(answer) => Got::Not(answer),
        }
    }

    /// Lands this lane's flight, as the fault plan says.
    pub(crate) fn land(&mut self, shared: &mut Shared, flight: LinkCarried)
        requires lane { self.old.path.lane ≡ flight.lane }
        requires ready { Ready (Land self.old.path.lane) shared.old self.old }
        requires out { path_flights self.old.path shared.old.journal ≡ flight_of flight ∷ [] }
        ensures { BringsBack shared.old shared.new self.old self.new }
    {
        let LinkCarried { lane, carried } = flight;
        let planned = shared.script.fault(lane, carried.serial());
        self.path.land(&mut shared.journal, carried, planned);
    }
}
