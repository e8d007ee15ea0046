//! Items on their way.

ghost use Rattle.std.specs.Prelude.{◌≡◌};

/// An item that was taken out of a queue. It is a moved value that can't be dropped: it is carried exactly once.
pub struct QueuePart {
    pub(crate) serial: u64,
}

/// An item that was carried. It is a moved value that can't be dropped: it is landed exactly once.
pub struct QueueDone {
    pub(crate) serial: u64,
}

impl QueuePart {
    /// The item, carried.
    pub fn carry(self) -> QueueDone
        ensures { result.serial ≡ self.serial }
    {
        let QueuePart { serial } = self;
        QueueDone { serial }
    }
}
