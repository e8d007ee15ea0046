//! Where an accepted datagram stands in the script.

/// A frame of the script, in a lane.
#[derive(Clone, Copy, Debug)]
pub struct Source {
    /// The sender whose feed it stands in, 0 to 3.
    pub sender: u32,
    /// Its place in that feed, from 0.
    pub index: u64,
}
