//! The history of a link: its lines, the actions that write them, what they mean, and the laws over every history.
//!
//! ```text
//! let mut journal = Journal::make(alloc, lines, bytes)?;      // room for so many lines, and bytes of lines
//! journal.push(Line::Took { lane, sender }, &[]);             // most kinds carry no bytes
//! journal.push(Line::Gave { lane, number }, datagram);        // a delivery carries what was delivered
//! let (line, bytes) = journal.entry(0);                       // an index is below journal.len()
//! write_trace(&mut sink, &journal)?;                          // the history as a text
//! let again = read_trace(alloc, text)?;                       // and a text as the one history that has it
//! ```
//!
//! By subject: a `Journal` keeps a history, and [`Line`] is what it keeps; `Action` and `Answer` are what can be done
//! to a link and what it answers; `Control` and `Due` are the controls of a script; `Census` tells how often a datagram
//! stands in each place; a [`Machine`] is what a turn knows of a link, with `Got` for a flight that was asked for, and
//! `Transfer` and `FlightKey` for contracts to name one. `write_trace` and `read_trace` are its text. Each other call
//! does nothing: its contract is a law of every history or of their texts, which a crate above takes from here.
#![tactic(auto)]

mod actions;
mod boxed;
mod census;
mod controls;
mod fields;
mod got;
mod journal;
mod laws;
mod lines;
mod machine;
mod rows;
mod texts;
mod trace_reader;
mod writer;

pub use actions::{Action, Answer};
pub use census::Census;
pub use controls::{Control, Due, PlannedFault};
pub use got::Got;
pub use journal::Journal;
pub use laws::{
    bytes_are_bounded, census_names_the_place, cut_is_settled, done_is_finished, drain_is_done,
    finished_is_final, given_is_accepted, line_fixes_step, lines_are_bounded, lines_are_spelled,
    losses_are_licensed, nothing_is_lost, one_place, one_step, plain_scripts_lose_nothing,
    pools_add_up, refusals_write_nothing, settled_is_home, steps_stay_legal, table_is_computed,
};
pub use lines::Line;
pub use machine::{FlightKey, Machine, Transfer};
pub use texts::{entries_are_read, histories_are_read, traces_are_read};
pub use trace_reader::{TraceError, read_trace};
pub use writer::write_trace;
