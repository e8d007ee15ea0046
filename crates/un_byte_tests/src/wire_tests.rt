//! Codecs of each class: frames there and back, and a cursor's walk.

ghost use Rattle.std.specs.Prelude.{◌≡◌, ◌≤◌, [], IsTrue, length};
ghost use Rattle.un_frame.specs.Params.{Agree, AreInRange};
ghost use Rattle.un_frame.specs.Wire.{capacity_of, frame_fits};
ghost use Rattle.un_wire.specs.Codings.{coding_of};

use std::test::Fail;
use un_frame::{Class, Fault, Kind, Params};
use un_req::{Pool, Request};
use un_wire::{Codec, Wire};

/// The block of one frame of 60 bytes, to 02:00:00:00:00:02 from 02:00:00:00:00:01.
const BLOCK: [u8; 92] = *b"NCMH\x0c\0\0\0\x5c\0\x4c\0\
\0\0\x02\0\0\0\0\x02\x02\0\0\0\0\x01\x08\0\
\0\0\0\0\0\0\0\0\0\0\0\0\0\0\0\0\0\0\0\0\0\0\0\
\0\0\0\0\0\0\0\0\0\0\0\0\0\0\0\0\0\0\0\0\0\0\0\
\0\0NCM0\x10\0\0\0\x0e\0\x3c\0\0\0\0\0";

/// The data message of RNDIS with the same frame, and one byte more, which may follow a message.
const MESSAGE: [u8; 105] = *b"\x01\0\0\0\x68\0\0\0\x24\0\0\0\x3c\0\0\0\
\0\0\0\0\0\0\0\0\0\0\0\0\0\0\0\0\0\0\0\0\0\0\0\0\0\0\0\0\
\x02\0\0\0\0\x02\x02\0\0\0\0\x01\x08\0\
\0\0\0\0\0\0\0\0\0\0\0\0\0\0\0\0\0\0\0\0\0\0\0\
\0\0\0\0\0\0\0\0\0\0\0\0\0\0\0\0\0\0\0\0\0\0\0\0";

/// Writes a transfer of one frame.
fn write_one(codec: &mut Codec, request: &mut Request, frame: &[u8])
    requires empty { request.old.bytes ≡ [] }
    requires capacity { capacity_of (coding_of codec.old).params ≤ request.old.capacity }
    requires least { 14 ≤ length frame.now }
    requires fits { IsTrue (frame_fits (coding_of codec.old).params [] (length frame.now)) }
{
    codec.start(request);
    codec.append(request, frame);
    codec.close(request, 0);
}

/// Writes a transfer of a frame, and of the same frame once more where that fits; answers whether it did.
fn write_both(codec: &mut Codec, request: &mut Request, frame: &[u8]) -> bool
    requires empty { request.old.bytes ≡ [] }
    requires capacity { capacity_of (coding_of codec.old).params ≤ request.old.capacity }
    requires least { 14 ≤ length frame.now }
    requires fits { IsTrue (frame_fits (coding_of codec.old).params [] (length frame.now)) }
    requires small { length frame.now ≤ 8192 }
{
    codec.start(request);
    codec.append(request, frame);
    if !codec.fits(frame.len() as u32) {
        codec.close(request, 0);
        return false;
    }
    codec.append(request, frame);
    codec.close(request, 0);
    true
}

/// The parameters of a link of EEM whose transfers have at most 2,048 bytes, and so many frames.
fn eem_params(datagrams: u32) -> Params
    requires { datagrams ≤ 1024 }
    ensures in_range { AreInRange result }
    ensures agree { Agree result }
{
    Params {
        block: 2048,
        datagrams,
        ..Params::of_class(Class::Eem)
    }
}

/// Packets stand one after the other while they fit; a frame past the block, or past the limit, is one for the next transfer.
#[test]
fn packets_of_two_frames(rt: HostRuntime) -> Result<(), Fail> {
    let rows = [
        (60, 0, true, 132),
        (60, 2, true, 132),
        (60, 1, false, 66),
        (1017, 0, true, 2046),
        (1018, 0, false, 1026),
        (1500, 32, false, 1506),
    ];
    for (size, datagrams, both, whole) in rows {
        assert!(rt; 14 <= size && size <= 1500 && datagrams <= 1024);
        let frame = &[0; 1500][..size];
        let mut codec = Codec::make(rt.alloc(), &eem_params(datagrams))?;
        let mut pool = Pool::make(rt.alloc(), 1, codec.capacity())?;
        let mut request = pool.take().ok_or("none is home")?;
        assert!(rt; codec.fits(size as u32));
        assert_eq!(rt; write_both(&mut codec, &mut request, frame), both);
        assert_eq!(rt; request.bytes().len(), whole);
        let mut parts = codec.read(request.bytes()).ok().ok_or("a fault")?;
        assert_eq!(rt; parts.count(), 1 + both as u64);
        assert!(rt; parts.next() == Some(frame));
    }
    Ok(())
}

#[test]
fn a_frame_there_and_back(rt: HostRuntime) -> Result<(), Fail> {
    let frame = &BLOCK[14..74];
    for (class, length) in [
        (Class::Ecm, 60),
        (Class::Eem, 66),
        (Class::Ncm16, 92),
        (Class::Ncm32, 112),
        (Class::Rndis, 104),
    ] {
        let mut codec = Codec::make(rt.alloc(), &Params::of_class(class))?;
        let mut pool = Pool::make(rt.alloc(), 1, codec.capacity())?;
        let mut request = pool.take().ok_or("none is home")?;
        assert_eq!(rt; codec.count(), 0);
        assert!(rt; codec.fits(60));
        write_one(&mut codec, &mut request, frame);
        assert_eq!(rt; request.bytes().len(), length);
        let mut parts = codec.read(request.bytes()).ok().ok_or("a fault")?;
        assert_eq!(rt; (parts.count(), parts.commands()), (1, 0));
        assert!(rt; parts.next() == Some(frame));
        assert!(rt; parts.next().is_none());
    }
    Ok(())
}

#[test]
fn a_cursor_walks_a_block(rt: HostRuntime) -> Result<(), Fail> {
    let codec = Codec::make(rt.alloc(), &Params::of_class(Class::Ncm16))?;
    let mut cursor = codec.cursor(&BLOCK).ok().ok_or("a fault")?;
    assert!(rt; codec.part_at(&BLOCK, &cursor) == Some(&BLOCK[14..74]));
    assert!(rt; codec.advance(&BLOCK, &mut cursor));
    assert!(rt; codec.part_at(&BLOCK, &cursor).is_none());
    Ok(())
}

/// A message is written byte for byte, and holds one frame of at most a segment.
#[test]
fn a_message_is_written(rt: HostRuntime) -> Result<(), Fail> {
    let mut codec = Codec::make(rt.alloc(), &Params::of_class(Class::Rndis))?;
    let mut pool = Pool::make(rt.alloc(), 1, codec.capacity())?;
    let mut request = pool.take().ok_or("none is home")?;
    assert_eq!(rt; codec.capacity(), 1558);
    assert!(rt; codec.fits(1514) && !codec.fits(1515));
    assert!(rt; codec.fits(60));
    assert!(rt; !write_both(&mut codec, &mut request, &BLOCK[14..74]));
    assert!(rt; request.bytes() == &MESSAGE[..104]);
    Ok(())
}

/// The frames that the codec reads in a transfer, or the first fault.
fn frames_in(codec: &Codec, bytes: &[u8]) -> Result<u64, Fault> {
    Ok(codec.read(bytes)?.count())
}

/// One byte may follow a message. Less than a message is a fault, and so is one byte alone.
#[test]
fn messages_are_read(rt: HostRuntime) -> Result<(), Fail> {
    let codec = Codec::make(rt.alloc(), &Params::of_class(Class::Rndis))?;
    for (size, count) in [(0, 0), (104, 1), (105, 1)] {
        assert!(rt; size <= 105);
        assert_eq!(rt; frames_in(&codec, &MESSAGE[..size]), Ok(count));
    }
    for (size, kind, at) in [
        (1, Kind::Truncated, 0),
        (43, Kind::Truncated, 0),
        (103, Kind::BadMessageLength, 4),
    ] {
        assert!(rt; size <= 105);
        assert_eq!(rt;
            frames_in(&codec, &MESSAGE[..size]),
            Err(Fault { kind, at })
        );
    }
    Ok(())
}

#[test]
fn a_cursor_walks_a_message(rt: HostRuntime) -> Result<(), Fail> {
    let codec = Codec::make(rt.alloc(), &Params::of_class(Class::Rndis))?;
    let mut cursor = codec.cursor(&MESSAGE).ok().ok_or("a fault")?;
    assert!(rt; codec.part_at(&MESSAGE, &cursor) == Some(&MESSAGE[44..104]));
    assert!(rt; codec.advance(&MESSAGE, &mut cursor));
    assert!(rt; codec.part_at(&MESSAGE, &cursor).is_none());
    Ok(())
}
