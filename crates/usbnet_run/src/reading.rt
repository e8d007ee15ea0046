//! The whole of a command's input.

ghost use Rattle.std.specs.Prelude.{◌≡◌, ℕ, List, IsErrOf, MatchResult};
ghost use Rattle.std.specs.Io.KnownBytes.{Consumes};
ghost use Rattle.un_io.specs.Io.{Rose};
ghost use Rattle.usbnet_run.specs.Reading.{IsReadToEnd, StopsReading};

use crate::refusal::Refusal;
use std::alloc::Global;
use un_io::{ReadError, Source, read_whole};

/// The most bytes of input.
const MOST_INPUT: u64 = 16_777_216;

/// Reads a source to its end. The refusal is `NoMemory` for want of memory, `ReadFault` where a read failed, and `TooLarge` where
/// there were more than 16,777,216 bytes.
pub(crate) fn read_input<I: Source>(alloc: Global, input: &mut I) -> Result<Vec<u8>, Refusal>
    ensures given { (given : List ℕ) × Consumes (I.left input.old) (I.left input.new) given
        × MatchResult result (λ text. (text.items ≡ given) × IsReadToEnd given (I.left input.new)) (StopsReading given) }
    ensures cause { IsErrOf result Refusal.ReadFault → Rose (I.faults input.old) (I.faults input.new) }
{
    match read_whole(alloc, input, MOST_INPUT) {
        Ok(text) => Ok(text),
        Err(ReadError::ReadFault) => Err(Refusal::ReadFault),
        Err(ReadError::TooLarge) => Err(Refusal::TooLarge),
        Err(ReadError::NoMemory) => Err(Refusal::NoMemory),
    }
}
