//! The command over a source and a sink.

ghost use Rattle.std.specs.Prelude.{◌≡◌, ℕ, List, IsErrOf, map};
ghost use Rattle.std.specs.String.{string_bytes};
ghost use Rattle.std.specs.Io.KnownBytes.{Consumes};
ghost use Rattle.un_io.specs.Io.{Rose};
ghost use Rattle.usbnet_run.specs.Command.{Answers, DecodeIsComplete, Ends, IsComplete, RefusalsAreExact};
ghost use Rattle.usbnet_run.specs.Refusals.{Does};

use crate::decode::decode;
use crate::reading::read_input;
use crate::refusal::{Ending, Refusal, finish};
use crate::serial::serial;
use crate::words::{Command, command_of};
use std::alloc::Global;
use un_io::{Sink, Source};

/// Does what `plain_command` does, but for a refusal's line: a refusal leaves the sink as it is.
pub(crate) fn do_command<I: Source, O: Sink>(
    alloc: Global,
    words: &[String],
    input: &mut I,
    out: &mut O,
) -> Ending
    ensures does { (given : List ℕ) × Consumes (I.left input.old) (I.left input.new) given
        × Does (Answers (map string_bytes words.now) given (I.left input.new)) (O.held out.old) (O.held out.new) (O.faults out.old) (O.faults out.new) result }
    ensures read_fault { IsErrOf result Refusal.ReadFault → Rose (I.faults input.old) (I.faults input.new) }
{
    let Some(command) = command_of(words) else {
        return Err(Refusal::BadWords);
    };
    let text = read_input(alloc, input)?;
    match command {
        Command::Serial => serial(alloc, out, text),
        Command::Decode(class) => decode(out, class, &text),
    }
}

/// Does the command `serial`: reads a script from the source, runs its link by the serial drain, and adds the trace text of its history
/// and the report to the sink. Does the
/// command `decode` with the word of a class: reads one transfer's bytes, and adds the text of its frames. Other words are bad words.
/// It always returns. No call after the first byte of output has an answer for want of memory.
///
/// The status is 0 where all output was written; 1 for want of memory; 2 where a read failed; 3 where a write failed, and then the
/// sink has grown by a front of the output and not all; 4 where the words are no command, and then no byte was read; 5 where the
/// bytes are no script; 6 where its parameters don't agree; 7 where there were more than 16,777,216 of them; 8 where the class's grammar has no reading of them. All but
/// 0 and 3 write one line, or a front of it where that write fails.
pub fn plain_command<I: Source, O: Sink>(
    alloc: Global,
    words: &[String],
    input: &mut I,
    out: &mut O,
) -> u8
    // What the status says.
    ensures ends { (given : List ℕ) × Consumes (I.left input.old) (I.left input.new) given
        × Ends (map string_bytes words.now) given (I.left input.new) (O.held out.old) (O.held out.new) (O.faults out.old) (O.faults out.new) result }

    // A fault is the source's or the sink's own.
    ensures read_fault { result ≡ 2 → Rose (I.faults input.old) (I.faults input.new) }
    ensures write_fault { result ≡ 3 → Rose (O.faults out.old) (O.faults out.new) }
{
    finish(do_command(alloc, words, input, out), out)
}

/// Where the words are a command, its grammar reads the input, which has at most 16,777,216 bytes, the parameters of a script agree, no
/// read and no write fails, and memory suffices, the status is 0: the input was read to its end and the whole output written.
pub fn command_is_complete()
    ensures serial { IsComplete }
    ensures decode { DecodeIsComplete }
{}

/// Each refusal comes exactly where it is due, but for want of memory and a read fault.
pub fn refusals_are_exact()
    ensures { RefusalsAreExact }
{}
