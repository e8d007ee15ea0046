//! A transfer, read for a caller in C.

ghost use Rattle.std.specs.Prelude.{◌≡◌};
ghost use Rattle.un_c.specs.Numbers;
ghost use Rattle.un_c.specs.Readings.{IsAnswered, IsRead};
ghost use Rattle.un_frame.specs.Wire.{fault_of};

use crate::numbers::{class_numbered, kind_number};
use un_frame::{Class, Span};
use un_wire::read_spans;

/// The status of a class that has no number.
const NO_CLASS: u32 = 100;

/// What a reading tells beside its status.
#[repr(C)]
#[derive(Clone, Copy, Debug)]
pub struct Answer {
    /// How many frames the transfer has, also where the array has room for fewer; 0 where it has a fault.
    pub frames: usize,
    /// How many commands it has, which EEM alone knows; 0 where it has a fault.
    pub commands: u64,
    /// The place of its first fault, in bytes from its beginning; 0 where it has none.
    pub at: u64,
}

/// Reads a transfer of the class with this number: 0 ECM, 1 EEM, 2 NCM with fields of 16 bits, 3 with fields of 32, 4 RNDIS.
///
/// The status is 0 exactly where the grammar of the class reads the bytes: from the array's first element on stands then where
/// its frames are, as many as there is room for, and the elements behind the last stay. It is 1 to 14, the first fault's number,
/// where they have a fault, and 100 where no class has the number; then the array stays. The answer stays where no class has the
/// number, and is written else.
#[unsafe(no_mangle)]
pub extern "C" fn usbnet_codec_read(
    class: u32,
    bytes: &[u8],
    spans: &mut [Span],
    answer: &mut Answer,
) -> u32
    ensures { IsAnswered (Numbers.class_numbered class) bytes.now spans.old answer.old spans.new answer.new result }
{
    match class_numbered(class) {
        Some(class) => read_as(class, bytes, spans, answer),
        None => NO_CLASS,
    }
}

/// Reads a transfer of a class.
fn read_as(class: Class, bytes: &[u8], spans: &mut [Span], answer: &mut Answer) -> u32
    ensures { IsRead class bytes.now (fault_of class bytes.now) spans.old spans.new answer.new result }
{
    match read_spans(class, bytes, spans) {
        Ok(held) => {
            *answer = Answer {
                frames: held.frames,
                commands: held.commands,
                at: 0,
            };
            0
        }
        Err(fault) => {
            *answer = Answer {
                frames: 0,
                commands: 0,
                at: fault.at,
            };
            kind_number(fault.kind)
        }
    }
}
