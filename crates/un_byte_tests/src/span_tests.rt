//! Where the frames of a transfer stand, told into arrays.

use std::test::Fail;
use un_frame::{Class, Fault, Kind, Span};
use un_wire::read_spans;

/// Two packets of EEM, each with the same frame of 14 bytes, and an echo of three bytes between them.
const PACKETS: [u8; 45] = *b"\x12\0\x02\0\0\0\0\x02\x02\0\0\0\0\x01\x08\0\xde\xad\xbe\xef\
\x03\x80\x01\x02\x03\
\x12\0\x02\0\0\0\0\x02\x02\0\0\0\0\x01\x08\0\xde\xad\xbe\xef";

/// What stands in an array where nothing is told.
const UNTOLD: Span = Span { at: 7, size: 7 };

/// How many frames and commands a transfer of EEM has.
fn held(bytes: &[u8], spans: &mut [Span]) -> Result<(usize, u64), Fault> {
    let held = read_spans(Class::Eem, bytes, spans)?;
    Ok((held.frames, held.commands))
}

/// Each frame is told where the array has room, and counted where it hasn't.
#[test]
fn frames_are_told(rt: HostRuntime) -> Result<(), Fail> {
    let mut room = [UNTOLD; 3];
    assert_eq!(rt; held(&PACKETS, &mut room), Ok((2, 1)));
    assert_eq!(rt; (room[0].at, room[0].size), (2, 14));
    assert_eq!(rt; (room[1].at, room[1].size), (27, 14));
    assert_eq!(rt; (room[2].at, room[2].size), (7, 7));
    let mut one = [UNTOLD; 1];
    assert_eq!(rt; held(&PACKETS, &mut one), Ok((2, 1)));
    assert_eq!(rt; (one[0].at, one[0].size), (2, 14));
    assert_eq!(rt; held(&PACKETS, &mut []), Ok((2, 1)));
    Ok(())
}

/// A fault is told, and the array stays.
#[test]
fn a_fault_tells_no_frame(rt: HostRuntime) -> Result<(), Fail> {
    let mut one = [UNTOLD; 1];
    let fault = Fault {
        kind: Kind::Truncated,
        at: 25,
    };
    assert_eq!(rt; held(&PACKETS[..44], &mut one), Err(fault));
    assert_eq!(rt; (one[0].at, one[0].size), (7, 7));
    Ok(())
}
