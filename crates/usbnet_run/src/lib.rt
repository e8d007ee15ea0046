//! The commands: what the words after the program's name do, over a source, a sink and a gate.
//!
//! ```text
//! let status = usbnet_main(&rt, alloc, &words, &mut input, &mut out, &OpenGate);  // every command, with its workers
//! let status = plain_command(alloc, &words, &mut input, &mut out);                // those that need no threads
//! ```
//!
//! A command reads its input to the end, does its work, and writes its whole output; its status says which of these it did, and
//! a refusal has a line of its own. Both calls return whatever the source and the sink do; only the workers of `run` and `load` may
//! wait.
#![tactic(auto)]

mod command;
mod decode;
mod load;
mod prepare;
mod reading;
mod refusal;
mod run;
mod serial;
mod sinks;
mod top;
mod words;
mod work;

pub use command::{command_is_complete, plain_command, refusals_are_exact};
pub use refusal::{NO_WORDS, Refusal};
pub use sinks::sink_at_each_status;
pub use top::{main_refusals_are_exact, run_is_complete, the_history_is_one, usbnet_main};
