//! The lines of a history.

ghost use Rattle.std.specs.Prelude.{◌≡◌, []};
ghost use Rattle.un_journal.specs.History;

use crate::rows::concerns;
use un_frame::{FaultKind, Lane, Verdict};

/// One line of a history: a step of the link that changed it, or a part of one. `Made` and `Gave` carry at least one byte, the
/// other 17 kinds none.
#[derive(Clone, Copy, Debug, PartialEq, Eq)]
pub enum Line {
    /// The head of the sender's feed was accepted, as the lane's next datagram.
    Took {
        lane: Lane,
        sender: u32,
    },
    /// The head of the sender's feed was refused; `why` isn't `Take`.
    Refused {
        lane: Lane,
        sender: u32,
        why: Verdict,
    },
    /// Transfer `serial` was made of the datagrams `from` (inclusive) to `to` (exclusive); it carries the transfer's bytes.
    Made {
        lane: Lane,
        serial: u64,
        from: u64,
        to: u64,
    },
    /// The pending count of the host's builder was lowered by one.
    Waited {
        lane: Lane,
    },
    /// A receive request was posted at the endpoint.
    Posted {
        lane: Lane,
    },
    /// Transfer `serial` and a receive request were taken from the endpoint together.
    Flying {
        lane: Lane,
        serial: u64,
    },
    /// The flight of transfer `serial` landed.
    Landed {
        lane: Lane,
        serial: u64,
    },
    /// The flight of transfer `serial` failed by the fault plan.
    Failed {
        lane: Lane,
        serial: u64,
        kind: FaultKind,
    },
    /// Attempt `attempt` (1 to 3) of transfer `serial` failed by the fault plan, and the transfer is queued again, before all
    /// others. Its receive request is home.
    Retried {
        lane: Lane,
        serial: u64,
        attempt: u32,
    },
    /// Control `cause` marked transfer `serial`, which will be cut.
    Marked {
        lane: Lane,
        serial: u64,
        cause: u32,
    },
    /// Transfer `serial` was given up for control `cause`.
    Cut {
        lane: Lane,
        serial: u64,
        cause: u32,
    },
    /// The builder's datagrams `from` (inclusive) to `to` (exclusive) were dropped for control `cause`.
    Dropped {
        lane: Lane,
        from: u64,
        to: u64,
        cause: u32,
    },
    /// The transmit request of transfer `serial` came home.
    TxHome {
        lane: Lane,
        serial: u64,
    },
    /// The receive request of transfer `serial` became current.
    Opened {
        lane: Lane,
        serial: u64,
    },
    /// Datagram `number` was delivered; it carries the bytes received.
    Gave {
        lane: Lane,
        number: u64,
    },
    /// A posted receive request came home.
    Recalled {
        lane: Lane,
    },
    /// The halt of the lane's endpoint was cleared.
    Cleared {
        lane: Lane,
    },
    /// Control `index` was done; `forced` where it wasn't due.
    Control {
        index: u32,
        forced: bool,
    },
    /// A stop was settled, with every request at home; the four numbers of requests at home.
    Settled {
        tx_out: u32,
        rx_out: u32,
        tx_in: u32,
        rx_in: u32,
    },
}

impl Line {
    /// Whether it speaks of the lane; a settled line speaks of both.
    pub fn concerns(self, lane: Lane) -> bool
        ensures { result ≡ History.concerns lane (self, []) }
    {
        concerns(self, lane)
    }
}
