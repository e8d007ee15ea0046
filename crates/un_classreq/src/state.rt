//! The state of a device.

/// What requests change in a device. Numbers that a set-up packet's value field sets are as wide as that field.
#[derive(Clone, Copy, Debug, PartialEq, Eq)]
pub struct State {
    /// The configuration, 0 for none, else 1 (USB 2.0, 9.4.7).
    pub configuration: u16,
    /// The alternate setting of the data interface, 0 or 1 (USB 2.0, 9.4.10).
    pub setting: u16,
    /// The packet filter, 0x00 to 0x1f (ECM 1.2, 6.2.4).
    pub filter: u16,
    /// The format of blocks, 0 for NTB16, 1 for NTB32 (NCM 1.0, 6.2.4).
    pub format: u16,
    /// The largest block to the host, in bytes (NCM 1.0, 6.2.6).
    pub input_size: u32,
    /// The largest datagram, in bytes (NCM 1.0, 6.2.8).
    pub datagram_size: u16,
}
