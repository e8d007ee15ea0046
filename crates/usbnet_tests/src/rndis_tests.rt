//! Links and transfers of RNDIS: data messages by `serial`, `run` and `decode`.

use crate::decode_tests::{gives, refuses};
use crate::link_tests::cuts_at_every_moment;
use crate::main_tests::{answer, has_line, three};
use crate::serial_tests::{carries, filled, sets_up};
use std::alloc::{AllocError, Global};
use std::test::Fail;
use un_share::OpenGate;

/// The message of one frame of 60 bytes, to 02:00:00:00:00:02 from 02:00:00:00:00:01.
const MESSAGE: &[u8] = b"\x01\0\0\0\x68\0\0\0\x24\0\0\0\x3c\0\0\0\
\0\0\0\0\0\0\0\0\0\0\0\0\0\0\
\0\0\0\0\0\0\0\0\0\0\0\0\0\0\
\x02\0\0\0\0\x02\x02\0\0\0\0\x01\x08\0\
\0\0\0\0\0\0\0\0\0\0\0\0\0\0\0\0\0\0\0\0\0\0\0\
\0\0\0\0\0\0\0\0\0\0\0\0\0\0\0\0\0\0\0\0\0\0\0";

#[test]
fn a_frame_is_one_message(rt: HostRuntime) -> Result<(), Fail> {
    let header = b"01000000680000002400000\
03c00000000000000000000000000000000000000000000000000000000000000";
    assert!(rt; carries(rt.alloc(), b"class rndis", 60, b"", (header, b""), b"1")?);
    Ok(())
}

#[test]
fn a_link_of_messages_is_set_up_without_exchanges(rt: HostRuntime) -> Result<(), Fail> {
    let lines = b"report\nclass rndis\nsizes 1514 512 0\n";
    assert!(rt; sets_up(rt.alloc(), b"class rndis", lines)?);
    Ok(())
}

/// The message, with so many zero bytes behind it.
fn followed(alloc: Global, further: usize) -> Result<Vec<u8>, AllocError> {
    let mut bytes = Vec::from_slice(alloc, MESSAGE)?;
    for _ in 0..further {
        bytes.push(0)?;
    }
    Ok(bytes)
}

#[test]
fn messages_are_decoded(rt: HostRuntime) -> Result<(), Fail> {
    let alloc = rt.alloc();
    let head = b"class rndis\nframes 1\nframe 0 60 ";
    let text = filled(alloc, &[(head, 60), (b"\ncommands 0\n", 0)])?;
    assert!(rt; gives(alloc, "rndis", followed(alloc, 0)?, 0, &text)?);
    assert!(rt; gives(alloc, "rndis", followed(alloc, 1)?, 0, &text)?);
    let none = b"class rndis\nframes 0\ncommands 0\n";
    assert!(rt; gives(alloc, "rndis", Vec::new(alloc), 0, none)?);
    Ok(())
}

#[test]
fn faulty_messages_are_refused(rt: HostRuntime) -> Result<(), Fail> {
    let alloc = rt.alloc();
    for (front, at, others, line) in [
        (
            104,
            0,
            b"\x02".as_slice(),
            b"bad transfer bad-message-type 0\n".as_slice(),
        ),
        (103, 0, b"", b"bad transfer bad-message-length 4\n"),
        (104, 4, b"\x2b", b"bad transfer bad-message-length 4\n"),
        (104, 8, b"\x23", b"bad transfer bad-entry 8\n"),
        (104, 12, b"\x3d", b"bad transfer bad-entry 8\n"),
        (104, 12, b"\x0d", b"bad transfer short-frame 12\n"),
        (43, 0, b"", b"bad transfer truncated 0\n"),
        (1, 0, b"", b"bad transfer truncated 0\n"),
    ] {
        assert!(rt; refuses(alloc, "rndis", &MESSAGE[..front], at, others, line)?);
    }
    let two = followed(alloc, 2)?;
    assert!(rt; gives(alloc, "rndis", two, 8, b"bad transfer truncated 104\n")?);
    Ok(())
}

#[test]
fn workers_run_a_link_of_messages(rt: HostRuntime) -> Result<(), Fail> {
    let input = three(rt.alloc(), b"class rndis\nout 0 ")?;
    let (status, sink) = answer(&rt, rt.alloc(), &["run"], input, &[], &OpenGate)?;
    assert_eq!(rt; status, 0);
    assert!(rt;
        has_line(
            sink.held(),
            b"lane out taken 3 short 0 long 0 filtered 0 given 3 failed 0 cut 0 dropped 0 left 0 feed 0 transfers 3 packets 3"
        )
    );
    Ok(())
}

#[test]
fn a_cut_among_messages_loses_no_count(rt: HostRuntime) -> Result<(), Fail> {
    assert!(rt; cuts_at_every_moment(rt.alloc(), b"class rndis", b"")?);
    Ok(())
}
