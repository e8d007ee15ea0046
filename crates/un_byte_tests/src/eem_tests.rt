//! Worked transfers: written byte for byte, read, and refused.

ghost use Rattle.std.specs.Prelude.{◌≡◌, ◌≤◌, length, IfOk};

use std::alloc::{AllocError, Global};
use std::test::Fail;
use un_eem::{Item, append, finish, read};
use un_frame::{Fault, Kind};
use un_req::{Pool, Request};

/// A frame of this size from 02:00:00:00:00:01 to 02:00:00:00:00:02, with zeros behind its type.
fn frame(alloc: Global, size: usize) -> Result<Vec<u8>, AllocError>
    requires { 14 ≤ size }
    ensures { IfOk result (λ frame. length frame.items ≡ size) }
{
    let mut frame = vec![in alloc; 0; size]?;
    frame[..13].copy_from_slice(b"\x02\0\0\0\0\x02\x02\0\0\0\0\x01\x08");
    Ok(frame)
}

/// The transfer of one frame, for packets of 512 bytes.
fn written(alloc: Global, frame: &[u8]) -> Result<Request, Fail>
    requires least { 14 ≤ length frame.now }
    requires most { length frame.now ≤ 506 }
{
    let mut pool = Pool::make(alloc, 1, 514)?;
    let mut request = pool.take().ok_or("none is home")?;
    append(&mut request, frame);
    finish(&mut request, 512);
    Ok(request)
}

#[test]
fn writes_one_frame(rt: HostRuntime) -> Result<(), Fail> {
    let rows: [(usize, &[u8], &[u8]); 2] = [
        (60, b"\x40\0", b"\xde\xad\xbe\xef"),
        (506, b"\xfe\x01", b"\xde\xad\xbe\xef\0\0"),
    ];
    for (size, head, tail) in rows {
        assert!(rt; 14 <= size && size <= 506);
        let frame = frame(rt.alloc(), size)?;
        let request = written(rt.alloc(), &frame)?;
        let bytes = request.bytes();
        let found = bytes
            .strip_prefix(head)
            .and_then(|rest| rest.strip_suffix(tail));
        assert!(rt; found == Some(frame.as_slice()));
        let mut items = read(bytes).ok().ok_or("a fault")?;
        assert!(rt; matches!(items.next(), Some(Item::Frame(read)) if read == frame.as_slice()));
    }
    Ok(())
}

/// The transfer of two frames, for packets of 512 bytes.
fn both_written(alloc: Global, first: &[u8], second: &[u8]) -> Result<Request, Fail>
    requires first_least { 14 ≤ length first.now }
    requires first_most { length first.now ≤ 250 }
    requires least { 14 ≤ length second.now }
    requires most { length second.now ≤ 250 }
{
    let mut pool = Pool::make(alloc, 1, 514)?;
    let mut request = pool.take().ok_or("none is home")?;
    append(&mut request, first);
    append(&mut request, second);
    finish(&mut request, 512);
    Ok(request)
}

/// Two frames are two packets, and the empty packet stands after the last where both fill a packet of the bus.
#[test]
fn writes_two_frames(rt: HostRuntime) -> Result<(), Fail> {
    for (size, whole) in [(60, 132), (250, 514)] {
        assert!(rt; 14 <= size && size <= 250);
        let frame = frame(rt.alloc(), size)?;
        let request = both_written(rt.alloc(), &frame, &frame)?;
        assert_eq!(rt; request.bytes().len(), whole);
        let mut items = read(request.bytes()).ok().ok_or("a fault")?;
        for _ in 0..2 {
            assert!(rt;
                matches!(items.next(), Some(Item::Frame(read)) if read == frame.as_slice())
            );
        }
        assert!(rt; matches!(items.next(), Some(Item::Empty)) == (whole == 514));
    }
    Ok(())
}

/// The fault of a transfer, if it has one.
fn fault_of(bytes: &[u8]) -> Option<Fault> {
    read(bytes).err()
}

#[test]
fn refuses_with_the_first_fault(rt: HostRuntime) {
    let rows: [(&[u8], Kind, u64); 6] = [
        (b"\x40\x40", Kind::CrcPacket, 0),
        (b"\x03\0\xde\xad\xbe", Kind::ShortFrame, 0),
        (b"\x12", Kind::Truncated, 0),
        (b"\x05\x80", Kind::Truncated, 0),
        (b"\0\0\x11\0", Kind::ShortFrame, 2),
        (
            b"\x12\0\x02\0\0\0\0\x02\x02\0\0\0\0\x01\x08\0\xde\xad\xbe\xee",
            Kind::BadSentinel,
            0,
        ),
    ];
    for (bytes, kind, at) in rows {
        assert_eq!(rt; fault_of(bytes), Some(Fault { kind, at }));
    }
}

#[test]
fn lends_commands(rt: HostRuntime) -> Result<(), Fail> {
    let mut items = read(b"\x03\x80\x01\x02\x03\0\0").ok().ok_or("a fault")?;
    let Some(
        Item::Command {
            code,
            parameter,
            echo,
        },
    ) = items.next()
    else {
        return Err("no command".into());
    };
    assert_eq!(rt; (code, parameter), (0, 3));
    assert!(rt; echo == b"\x01\x02\x03".as_slice());
    assert!(rt; matches!(items.next(), Some(Item::Empty)));
    assert!(rt; items.next().is_none());
    assert!(rt; fault_of(b"").is_none());
    Ok(())
}
