//! What an endpoint keeps of a flight.

/// What an endpoint remembers of the flight that is out: the serial and the span (`from` inclusive, `to` exclusive) of its transfer, and the numbers and capacities of its two requests.
#[derive(Clone, Copy, Debug, PartialEq, Eq)]
pub struct FlightRecord {
    pub serial: u64,
    pub from: u64,
    pub to: u64,
    pub tx: u32,
    pub tx_capacity: u32,
    pub rx: u32,
    pub rx_capacity: u32,
}
