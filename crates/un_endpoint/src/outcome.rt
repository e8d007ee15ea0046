//! What the calls of an endpoint and of the ends answer.

use crate::flight::Flight;
use un_frame::FaultKind;
use un_req::Request;

/// A list of the endpoint was full: it has its capacity of `count` requests, and the request is given back.
#[derive(Drop)]
pub struct Full {
    /// The list's capacity, in requests.
    pub count: u32,
    /// The request that found no room.
    pub request: Request,
}

/// What `take` gave: a flight; a marked transfer that was given up for control `cause`; or why nothing was taken. It never answers `Flight` while one is out.
pub enum Taken {
    /// The first queued transfer and the first posted request.
    Flight(Flight),
    /// The first queued transfer, which was marked, and the index of the control that marked it.
    Reaped { request: Request, cause: u32 },
    /// Nothing is queued.
    Empty,
    /// A flight is out, with this serial.
    Flying { serial: u64 },
    /// The endpoint is halted.
    Halted,
    /// No receive request is posted.
    NoBuffer,
}

/// How a flight ended, with its two requests, of which the transmit request of `Retried` is queued again. Only of `Arrived` the receive request's bytes matter.
#[derive(Drop)]
pub enum Landed {
    /// The transfer arrived.
    Arrived {
        tx: Request,
        rx: Request,
    },
    /// Its attempt `attempt`, from 1, failed on the bus, as a script plans; its transfer is queued before all others.
    Retried {
        rx: Request,
        attempt: u32,
    },
    /// It failed on the bus, as a script plans, and isn't tried again.
    Failed {
        tx: Request,
        rx: Request,
        kind: FaultKind,
    },
    /// It had been marked; `cause` is the index of the control that cut it.
    Cut {
        tx: Request,
        rx: Request,
        cause: u32,
    },
}

/// What became of an offered frame: it stays in the builder; a transfer was made, perhaps of earlier frames alone; or it was not taken, since building needs a home request and none is home.
#[derive(Drop)]
pub enum Built {
    /// It stays in the builder.
    Kept,
    /// This transfer was made; the frame is in it, or stays in the builder.
    Made(Request),
    /// It was not taken.
    Busy,
}

/// What a tick did: nothing was built; the pending count was lowered; a home request is needed and none is home; or what was built became a transfer.
#[derive(Drop)]
pub enum Ticked {
    /// Nothing was built.
    Nothing,
    /// The pending count was lowered by one.
    Waited,
    /// A home request is needed, and none is home.
    NoRequest,
    /// What was built became this transfer.
    Made(Request),
}
