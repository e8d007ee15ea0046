//! What both lanes of a link share.

ghost use Rattle.std.specs.Prelude.{◌≡◌, [], IfOk};
ghost use Rattle.un_frame.specs.declared.kinds.Phase.TheVariants.{Up};
ghost use Rattle.un_journal.specs.Bytes.{byte_bound};
ghost use Rattle.un_journal.specs.Drain.{line_bound};

use crate::room::{bytes_of, lines_of};
use std::alloc::{AllocError, Global};
use un_frame::Phase;
use un_journal::Journal;
use un_script::Script;

/// The script, the one history of both lanes, the phase, and the index of the first control that isn't done.
#[derive(Drop)]
pub struct Shared {
    pub(crate) script: Script,
    pub(crate) journal: Journal,
    pub(crate) phase: Phase,
    pub(crate) next_control: u32,
}

impl Shared {
    /// An empty history with room for all that the script can make it, in phase `Up`. The error is want of memory.
    pub(crate) fn make(alloc: Global, script: Script) -> Result<Shared, AllocError>
        ensures { IfOk result (λ s. s ≡ record { script = script; journal = record { history = []; spare_lines = line_bound script; spare_bytes = byte_bound script }; phase = Up; next_control = 0 }) }
    {
        script.prove_ready();
        let lines = lines_of(&script);
        let Some(bytes) = bytes_of(&script) else {
            return Err(AllocError);
        };
        let journal = Journal::make(alloc, lines, bytes)?;
        Ok(Shared {
            script,
            journal,
            phase: Phase::Up,
            next_control: 0,
        })
    }
}
