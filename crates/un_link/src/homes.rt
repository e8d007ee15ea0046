//! How many requests are home.

/// How many transmit and receive requests of each lane are home.
#[derive(Clone, Copy, Debug, PartialEq, Eq)]
pub struct Homes {
    pub tx_out: u32,
    pub rx_out: u32,
    pub tx_in: u32,
    pub rx_in: u32,
}
