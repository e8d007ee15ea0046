//! The transfer that a receiving end reads.

/// A transfer that is read: its serial, the number of its next datagram, and one more than that of its last.
#[derive(Clone, Copy, Debug, PartialEq, Eq)]
pub struct Reading {
    pub serial: u64,
    pub next: u64,
    pub to: u64,
}
