//! What comes of an attempt to take a flight.

use crate::actions::Answer;

/// What came of an attempt to take a part of a machine's work out of it: the part, or a queued transfer
/// that was marked and is now cut, or neither, with the answer that says why.
#[derive(Debug, Drop)]
pub enum Got<P> {
    Part(P),
    Cut,
    Not(Answer),
}
