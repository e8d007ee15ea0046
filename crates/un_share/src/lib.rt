//! The eleven workers of a link, which share one turn over any machine that has a link's actions.
//!
//! ```text
//! let (turn, seat) = Turn::make(alloc, machine, 11)?;     // a share of the turn for each worker
//! let seat = run_workers(rt, &turn, seat, &OpenGate);     // until it is finished, or each has given up
//! let machine = turn.close(seat);                         // nothing is out: each flight was landed
//! ```
//!
//! A [`Gate`] is asked before each hold and while a flight is out, so that a test can stop one worker there.
#![tactic(auto)]

mod eleven;
mod gate;
mod holds;
mod roles;
mod roster;
mod rota;
mod shift;
#[cfg(test)]
mod tests;
mod workers;

pub use eleven::run_workers;
pub use gate::{Gate, OpenGate};
