//! The report of a run: what the two ends agreed on, the bytes that crossed meanwhile, and for each lane its counts and the frames
//! that were delivered.
//!
//! ```text
//! let survey = go_over(&script, &journal, params.packet); // both lanes' counts, in one pass over the history
//! write(&mut sink, &script, &agreed, &journal)?;          // the whole text
//! ```
#![tactic(auto)]

mod frames;
mod lane_count;
mod lines;
mod setup;
mod survey;
mod tally;
mod writer;

pub use survey::{Survey, go_over};
pub use tally::{Consumed, Tally};
pub use writer::write;
