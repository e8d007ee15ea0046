//! What can be done to a link, and what it answers.

use un_frame::{Lane, Phase};

/// One action on a link.
#[derive(Clone, Copy, Debug, PartialEq, Eq)]
pub enum Action {
    /// Offers the first frame of a sender's feed to the lane. The senders are 0 to 3; any other number has an empty feed.
    Offer { lane: Lane, sender: u32 },
    /// Lets an open block wait, or makes a transfer of what is built.
    Tick { lane: Lane },
    /// Takes the first queued transfer as a flight, copies its bytes and lands it, in one step.
    Move { lane: Lane },
    /// Brings the first done transmit request home.
    TxDone { lane: Lane },
    /// Makes the first arrived receive request the current one.
    RxDone { lane: Lane },
    /// Gives the next datagram of the current receive request.
    Deliver { lane: Lane },
    /// Posts a receive request.
    Refill { lane: Lane },
    /// Goes on with a stop: marks a transfer, or brings a posted request home.
    Unlink { lane: Lane },
    /// Clears the halt of the lane's endpoint.
    ClearHalt { lane: Lane },
    /// Does the script's next control where it is due; with `force` also where it isn't, if the link is quiet.
    Control { force: bool },
    /// Settles a stop or an unplugging once every request is home.
    Settle,
}

/// What an action answers. Each answer but `Did` leaves link and history as they were, and says why.
#[derive(Clone, Copy, Debug, PartialEq, Eq)]
pub enum Answer {
    /// The action wrote its lines.
    Did,
    /// The sender's feed is empty.
    Spent,
    /// The link's phase allows no such action.
    Down { phase: Phase },
    /// Building needs a home request and none is home.
    Busy,
    /// There is nothing to do.
    Nothing,
    /// The tick needs a home request and none is home.
    NoRequest,
    /// Transfer `serial` of the lane flies.
    Flying { serial: u64 },
    /// The endpoint is halted.
    Halted,
    /// No receive request is posted.
    NoBuffer,
    /// The link is suspended.
    Asleep,
    /// No control of the script is left.
    NoControl,
    /// The next control isn't due: `have` datagrams were accepted where `want` are waited for.
    NotDue { have: u64, want: u64 },
    /// `count` transfers are queued outward or fly, so the link can't be suspended.
    InFlight { count: u64 },
    /// `count` requests aren't home, so the stop can't be settled.
    Away { count: u64 },
}
