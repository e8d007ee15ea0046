//! What the texts of histories tell.

ghost use Rattle.un_journal.specs.TextLaw.{EntriesAreRead, HistoriesAreRead, TracesAreRead};

/// No entry's text is a front of another entry's text.
pub fn entries_are_read()
    ensures { EntriesAreRead }
{}

/// No history's text is a front of another's: a text that goes on behind a trace, as a run's output with its report, begins with
/// the trace of one history alone.
pub fn traces_are_read()
    ensures { TracesAreRead }
{}

/// No two histories have one text.
pub fn histories_are_read()
    ensures { HistoriesAreRead }
{}
