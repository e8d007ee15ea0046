//! Why a line is refused.

ghost use Rattle.std.specs.Prelude.{◌≡◌, ◌≤◌, length};
ghost use Rattle.un_script.specs.Reasons;

use std::fmt::{self, Display, Formatter, Write};
use thiserror::Error;

/// The first reason that applies to a line that is refused.
#[derive(Clone, Copy, Debug, PartialEq, Eq)]
pub enum Why {
    /// A byte is outside printable ASCII, a word is empty, or the first word, the number of words or a fixed word (class, lane, control, kind) is none of the table; or each line is skipped, and the class line lacks.
    Word,
    /// The class line isn't first, or a parameter's line repeats or stands after a later one's or a line of the body.
    Order,
    /// A number isn't one to ten digits, or has a zero before another digit.
    Number,
    /// A number or a filter is outside its range.
    Range,
    /// A frame isn't hexadecimal digits in pairs, or a filter isn't two of them.
    Hex,
    /// It is frame 65,537, control 257 or planned fault 1,025.
    Count,
    /// The control can't follow the earlier ones.
    Control,
    /// An earlier line plans a fault for the same transfer.
    Fault,
}

impl Why {
    /// Its word: at most 7 bytes.
    pub fn word(self) -> &'static str
        ensures word { result.now ≡ Reasons.why_word self }
        ensures short { length result.now ≤ 7 }
    {
        match self {
            Why::Word => "word",
            Why::Order => "order",
            Why::Number => "number",
            Why::Range => "range",
            Why::Hex => "hex",
            Why::Count => "count",
            Why::Control => "control",
            Why::Fault => "fault",
        }
    }
}

impl Display for Why {
    fn fmt<W: Write>(&self, f: &mut Formatter<W>) -> fmt::Result {
        f.write_str(self.word())
    }
}

/// Why a line wasn't read.
#[derive(Clone, Copy, Debug, PartialEq, Eq)]
pub enum Refused {
    /// For this reason.
    Because(Why),
    /// There was no memory for what it says.
    NoMemory,
}

/// Why a text wasn't read as a script.
#[derive(Clone, Copy, Debug, PartialEq, Eq, Error)]
pub enum ScriptError {
    /// The first line that is refused, counted from 1, and why. Where each line is skipped, it is the one after the last, for `Word`.
    #[error("bad script {line} {why}")]
    BadLine { line: u64, why: Why },
    /// There was no memory for the script.
    #[error("no memory")]
    NoMemory,
}
