//! What is agreed, or why nothing is.

use crate::exchange::{Exchanges, Notes};
use thiserror::Error;
use un_desc::Function;
use un_frame::Params;

/// What the two ends of a link agreed on, and how, as `agree` answers it.
#[derive(Drop)]
pub struct Agreed {
    /// The parameters, which agree.
    pub params: Params,
    /// The function that the host read from the configuration; in RNDIS the one that the parameters say.
    pub function: Function,
    /// What crossed the control endpoint; in RNDIS, whose control messages stay out of this project, nothing.
    pub exchanges: Exchanges,
    /// The notifications that the device sent after it.
    pub notes: Notes,
}

/// Why there is no agreement. The first three are of NCM alone, and the first of them that applies comes (the fields are those of
/// NCM 1.0, table 6-3); want of memory is of every class.
#[derive(Clone, Copy, Debug, PartialEq, Eq, Error)]
pub enum SetupFault {
    /// The divisor isn't a power of two from 1 to 64, or the remainder isn't below it.
    #[error("divisor {divisor} with remainder {remainder}")]
    BadDivisor { divisor: u32, remainder: u32 },
    /// The alignment isn't a power of two from 4 to 64.
    #[error("alignment {alignment}")]
    BadAlignment { alignment: u32 },
    /// A block with one frame of `segment` bytes is larger than `block`.
    #[error("a frame of {segment} bytes doesn't fit a block of {block}")]
    NoFit { segment: u32, block: u32 },
    /// Memory ran out.
    #[error("out of memory")]
    NoMemory,
}
