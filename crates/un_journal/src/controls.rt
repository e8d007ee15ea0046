//! The controls and the planned faults of a script.

use un_frame::{Lane, Planned};

/// A control of a script.
#[derive(Clone, Copy, Debug, PartialEq, Eq)]
pub enum Control {
    /// Lets the link sleep.
    Suspend,
    /// Wakes it.
    Resume,
    /// Stops the link, which is down once that is settled.
    Down,
    /// Brings a link that is down up again.
    Up,
    /// Marks each transfer that is queued at the lane's endpoint or flies, to be cut.
    Unlink { lane: Lane },
    /// Stops the link, which is away for good once that is settled.
    Unplug,
}

/// A control with its guard: it is due where `want` datagrams (0 to 65,536) were accepted in `lane`, or all feeds of that
/// lane are empty.
#[derive(Clone, Copy, Debug, PartialEq, Eq)]
pub struct Due {
    pub lane: Lane,
    pub want: u64,
    pub control: Control,
}

/// What is planned for the transfer `serial` (0 to 65,535) of a lane.
#[derive(Clone, Copy, Debug, PartialEq, Eq)]
pub struct PlannedFault {
    pub lane: Lane,
    pub serial: u64,
    pub planned: Planned,
}
