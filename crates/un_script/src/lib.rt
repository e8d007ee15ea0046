//! Scripts: what a run of a link is given, and their text.
//!
//! ```text
//! let script = read(alloc, b"class ecm\nout 0 0aff\nat out 1 suspend\n")?;      // or the first bad line, and why
//! let params = script.params();                       // those of the class, where no line says others
//! let frame = script.frame(Lane::Outward, 0, 0);      // the first one of sender 0: Some, of the bytes 0a and ff
//! let due = script.control(0);                        // Some: suspend, with what makes it due
//! let load = generate(alloc, 1000)?;                  // a load of 1,000 frames, which needs no text
//! ```
//!
//! A `Script` is read from its text by `read`, made by `generate`, or begun by `Script::make` and filled by its calls.
//! `number` reads a number as scripts have it. `phase_after` and `phase_settled` tell which phase of a link a control
//! and a settled stop leave; `sleeps`, `takes_frames` and `stops` tell what a link does in a phase. `Cursors` keep how far
//! the feeds of a lane are read. Whichever way a script was made, it has what `Script::prove_ready` says;
//! `read_scripts_are_ready` does nothing, and its contract says the same of each text that is read.
#![tactic(auto)]

mod cursors;
mod law;
mod lines;
mod load;
mod numbers;
mod plan;
mod reader;
mod script;
mod state;
mod table;
mod why;

pub use cursors::Cursors;
pub use law::read_scripts_are_ready;
pub use load::generate;
pub use numbers::number;
pub use reader::read;
pub use script::Script;
pub use state::{phase_after, phase_settled, sleeps, stops, takes_frames};
pub use why::{ScriptError, Why};
