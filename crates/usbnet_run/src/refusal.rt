//! Why a command is refused, and how it ends: the statuses, and the lines of the refusals.

ghost use Rattle.std.specs.Prelude.{◌≡◌, ◌+◌, ◌≤◌, [], ◌++◌, length};
ghost use Rattle.usbnet_run.specs.Refusals;
ghost use Rattle.usbnet_run.specs.Refusals.{
  Finishes,
  Tells,
  ending_status,
  refusal_status,
  refusal_words,
  setup_words,
};
ghost use Rattle.usbnet_run.specs.declared.refusal.Refusal.TheVariants.{NoMemory, Setup};

use std::alloc::AllocError;
use un_frame::{Fault, Kind};
use un_io::{Sink, WriteFault, write_whole};
use un_script::Why;
use un_setup::SetupFault;
use un_text::{Buffer, number, word};

/// The status where all output was written.
const DONE: u8 = 0;

/// The status where a write of the output failed.
const NOT_WRITTEN: u8 = 3;

/// The status where the words couldn't be had from the system. No line tells it.
pub const NO_WORDS: u8 = 10;

/// Why a command gives no output.
#[derive(Clone, Copy, Debug, PartialEq, Eq)]
pub enum Refusal {
    /// Memory ran out.
    NoMemory,
    /// A read of the input failed.
    ReadFault,
    /// The words after the program's name are no command.
    BadWords,
    /// The text is no script: the first line that is refused, counted from 1, and why.
    BadScript { line: u64, why: Why },
    /// The two ends don't agree; or memory ran out in the set-up, which is told as `NoMemory` is.
    Setup(SetupFault),
    /// There were more than 16,777,216 bytes of input.
    TooLarge,
    /// The class's grammar has no reading of the transfer: its first fault.
    BadTransfer(Fault),
}

/// How a command ends: whether all of its output was written, or why there is none.
pub type Ending = Result<Result<(), WriteFault>, Refusal>;

impl From<AllocError> for Refusal {
    ghost from_gives = { λ _ refusal. refusal ≡ NoMemory };

    fn from(_error: AllocError) -> Refusal {
        Refusal::NoMemory
    }
}

impl From<SetupFault> for Refusal {
    ghost from_gives = { λ fault refusal. refusal ≡ Setup fault };

    fn from(fault: SetupFault) -> Refusal {
        Refusal::Setup(fault)
    }
}

/// The word of a fault's kind: at most 18 bytes.
fn kind_word(kind: Kind) -> &'static [u8]
    ensures word { result.now ≡ Refusals.kind_word kind }
    ensures short { length result.now ≤ 18 }
{
    match kind {
        Kind::Truncated => b"truncated",
        Kind::BadSentinel => b"bad-sentinel",
        Kind::CrcPacket => b"crc-packet",
        Kind::ShortFrame => b"short-frame",
        Kind::BadSignature => b"bad-signature",
        Kind::BadHeaderLength => b"bad-header-length",
        Kind::BadBlockLength => b"bad-block-length",
        Kind::BadNdpIndex => b"bad-ndp-index",
        Kind::BadNdpLength => b"bad-ndp-length",
        Kind::CrcTable => b"crc-table",
        Kind::NdpLoop => b"ndp-loop",
        Kind::BadEntry => b"bad-entry",
        Kind::BadMessageType => b"bad-message-type",
        Kind::BadMessageLength => b"bad-message-length",
    }
}

/// The words of a fault of the set-up, in an empty buffer.
fn push_setup(line: &mut Buffer, fault: SetupFault)
    requires { line.old ≡ [] }
    ensures words { line.new ≡ setup_words fault }
    ensures short { length line.new ≤ 64 }
{
    match fault {
        SetupFault::BadDivisor { divisor, remainder } => {
            line.push(b"setup refused divisor");
            number(line, u64::from(divisor));
            number(line, u64::from(remainder));
        }
        SetupFault::BadAlignment { alignment } => {
            line.push(b"setup refused alignment");
            number(line, u64::from(alignment));
        }
        SetupFault::NoFit { segment, block } => {
            line.push(b"setup refused no-fit");
            number(line, u64::from(segment));
            number(line, u64::from(block));
        }
        SetupFault::NoMemory => line.push(b"no memory"),
    }
}

impl Refusal {
    /// The status that the program answers.
    pub fn status(self) -> u8
        ensures { result ≡ refusal_status self }
    {
        match self {
            Refusal::NoMemory | Refusal::Setup(SetupFault::NoMemory) => 1,
            Refusal::ReadFault => 2,
            Refusal::BadWords => 4,
            Refusal::BadScript { .. } => 5,
            Refusal::Setup(_) => 6,
            Refusal::TooLarge => 7,
            Refusal::BadTransfer(_) => 8,
        }
    }

    /// Its line but for the feed, in an empty buffer: no refusal wants memory.
    fn push_words(self, line: &mut Buffer)
        requires { line.old ≡ [] }
        ensures words { line.new ≡ refusal_words self }
        ensures short { length line.new ≤ 64 }
    {
        match self {
            Refusal::NoMemory => line.push(b"no memory"),
            Refusal::ReadFault => line.push(b"read fault"),
            Refusal::BadWords => line.push(b"bad words"),
            Refusal::BadScript { line: place, why } => {
                line.push(b"bad script");
                number(line, place);
                word(line, why.word().as_bytes());
            }
            Refusal::Setup(fault) => push_setup(line, fault),
            Refusal::TooLarge => line.push(b"too large"),
            Refusal::BadTransfer(fault) => {
                line.push(b"bad transfer");
                word(line, kind_word(fault.kind));
                number(line, fault.at);
            }
        }
    }

    /// Writes its line, or a front of it: the status stays the refusal's own where the write fails.
    fn tell<O: Sink>(self, out: &mut O)
        ensures told { Tells (O.held out.old) (O.held out.new) (O.faults out.old) (O.faults out.new) self }
        ensures never_falls { O.faults out.old ≤ O.faults out.new }
    {
        let mut line = Buffer::make();
        self.push_words(&mut line);
        line.push(b"\n");
        let _ = write_whole(out, line.as_slice());
    }
}

/// Tells a refusal, and answers the status.
pub fn finish<O: Sink>(ending: Ending, out: &mut O) -> u8
    ensures status { result ≡ ending_status ending }
    ensures told { Finishes (O.held out.old) (O.held out.new) (O.faults out.old) (O.faults out.new) ending }
    ensures never_falls { O.faults out.old ≤ O.faults out.new }
{
    match ending {
        Ok(Ok(())) => DONE,
        Ok(Err(_)) => NOT_WRITTEN,
        Err(refusal) => {
            refusal.tell(out);
            refusal.status()
        }
    }
}
