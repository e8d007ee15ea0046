//! How often a datagram stands in each place.

/// How often the number of a datagram stands in each place of its lane. For an accepted datagram the
/// fields add up to 1, and the one that is 1 names its place; for any other number each is 0.
#[derive(Clone, Copy, Debug, PartialEq, Eq)]
pub struct Census {
    /// The open block of the transmitting end.
    pub builder: u32,
    /// The frame that the host's builder keeps for its next block.
    pub remainder: u32,
    /// The spans of the transfers that are deferred while the link sleeps.
    pub deferred: u32,
    /// The spans of the transfers that are queued at the endpoint.
    pub queued: u32,
    /// The span of the transfer that flies.
    pub flying: u32,
    /// The spans of the transfers that landed and aren't opened.
    pub arrived: u32,
    /// What isn't given yet of the transfer that is being delivered.
    pub current: u32,
    /// The numbers of the datagrams that were given.
    pub given: u32,
    /// The numbers of the datagrams that were lost: failed, cut or dropped.
    pub lost: u32,
}
