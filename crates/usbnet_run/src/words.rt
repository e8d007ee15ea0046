//! The words after the program's name.

ghost use Rattle.std.specs.Prelude.{◌≡◌, map};
ghost use Rattle.std.specs.String.{string_bytes};
ghost use Rattle.usbnet_run.specs.Words;

use un_frame::Class;
use un_script::number;
use un_text::class_named;

/// What the program is asked to do.
#[derive(Clone, Copy, Debug, PartialEq, Eq)]
pub enum Command {
    /// Run a script without threads.
    Serial,
    /// Decode one transfer of a class.
    Decode(Class),
}

/// What the whole program is asked to do.
#[derive(Clone, Copy, Debug, PartialEq, Eq)]
pub enum Job {
    /// Run a script with all workers.
    Run,
    /// Run so many generated frames with all workers.
    Load(u32),
    /// What is done without threads, or nothing that is known.
    Plain,
}

/// What the words ask for: `serial` alone, or `decode` and the word of a class; nothing by any others.
pub fn command_of(words: &[String]) -> Option<Command>
    ensures { result ≡ Words.command_of (map string_bytes words.now) }
{
    match words {
        [word] if word.as_bytes() == b"serial".as_slice() => Some(Command::Serial),
        [word, class] if word.as_bytes() == b"decode".as_slice() => {
            Some(Command::Decode(class_named(class.as_bytes())?))
        }
        _ => None,
    }
}

/// The number of frames that a word is: a decimal number from 1 to 65,536 without leading zeros.
fn count_of(word: &String) -> Option<u32>
    ensures { result ≡ Words.count_of (string_bytes word.now) }
{
    match number(word.as_bytes()) {
        Some(count) if 1 <= count && count <= 65536 => Some(count as u32),
        _ => None,
    }
}

/// What the words ask the program for: `run` alone, or `load` and a number of frames; what can be done without threads by any others.
pub fn job_of(words: &[String]) -> Job
    ensures { result ≡ Words.job_of (map string_bytes words.now) }
{
    match words {
        [word] if word.as_bytes() == b"run".as_slice() => Job::Run,
        [word, count] if word.as_bytes() == b"load".as_slice() => match count_of(count) {
            Some(count) => Job::Load(count),
            None => Job::Plain,
        },
        _ => Job::Plain,
    }
}
