//! The command where a source or a sink gives up: every read call in turn, and every place of the output.

ghost use Rattle.std.specs.Prelude.{◌≤◌};

use crate::serial_tests::{filled, small};
use std::alloc::{AllocError, Global};
use std::test::Fail;
use un_io::{MemSink, MemSource};
use usbnet_run::plain_command;

/// More than any piece of input or output of these tests.
const PLENTY: usize = 1 << 20;

/// The bytes of the output of the run with one frame.
const WHOLE: usize = 1107;

/// The trace and the report of the run with one frame.
fn whole(alloc: Global) -> Result<Vec<u8>, AllocError> {
    filled(
        alloc,
        &[
            (
                b"trace\nposted out\nposted in\ntook out 0\nmade out 0 0 1 ",
                60,
            ),
            (
                b"\nflying out 0\nlanded out 0\ntxhome out 0\nopened out 0\ngave out 0 ",
                60,
            ),
            (
                b"\nposted out\nend\nreport\nclass ecm\nsizes 1514 512 0\n\
control 800600020000ff00 090250000201008032090400000102060000052400100105240600010d240f0100000000ea05000000\
0705820310000909040100000a00000009040101020a0000000705810200020007050102000200\n\
control 0009010000000000 -\n\
control 21430e0000000000 -\n\
control 010b010001000000 -\n\
notify a12a00000000080000389c1c00389c1c\n\
notify a100010000000000\n\
lane out taken 1 short 0 long 0 filtered 0 given 1 failed 0 cut 0 dropped 0 left 0 feed 0 transfers 1 packets 1\n\
frame out 0 ",
                60,
            ),
            (
                b"\nlane in taken 0 short 0 long 0 filtered 0 given 0 failed 0 cut 0 dropped 0 left 0 feed 0 transfers 0 packets 0\n\
phase up\nend\n",
                0,
            ),
        ],
    )
}

/// A source of this input that gives so many bytes a call, and whose calls of these numbers fail.
fn source_of(
    alloc: Global,
    input: Vec<u8>,
    piece: usize,
    failing: &[u64],
) -> Result<MemSource, AllocError>
    requires { 1 ≤ piece }
{
    Ok(MemSource::make(input, piece, Vec::from_slice(alloc, failing)?))
}

/// A sink of so much room that takes so many bytes a call, and whose calls of these numbers fail.
fn sink_of(alloc: Global, room: usize, piece: usize, failing: &[u64]) -> Result<MemSink, AllocError>
    requires { 1 ≤ piece }
{
    MemSink::make(alloc, room, piece, Vec::from_slice(alloc, failing)?)
}

/// Whether `serial` over this source and this sink ends with this status, and leaves this text.
fn ends(
    alloc: Global,
    source: MemSource,
    sink: MemSink,
    status: u8,
    text: &[u8],
) -> Result<bool, AllocError> {
    let mut words = Vec::new(alloc);
    words.push(String::from_str(alloc, "serial")?)?;
    let mut source = source;
    let mut sink = sink;
    let ended = plain_command(alloc, &words, &mut source, &mut sink);
    Ok(ended == status && sink.held() == text)
}

/// Whether the run with one frame ends so where the source gives so many bytes a call and fails at these.
fn reads(
    alloc: Global,
    piece: usize,
    failing: &[u64],
    status: u8,
    text: &[u8],
) -> Result<bool, AllocError>
    requires { 1 ≤ piece }
{
    let source = source_of(alloc, small(alloc)?, piece, failing)?;
    ends(
        alloc,
        source,
        sink_of(alloc, PLENTY, PLENTY, &[])?,
        status,
        text,
    )
}

/// Whether a script ends so where the sink has so much room, takes so many bytes a call and fails at these.
fn writes(
    alloc: Global,
    script: Vec<u8>,
    sink: MemSink,
    status: u8,
    text: &[u8],
) -> Result<bool, AllocError> {
    ends(
        alloc,
        source_of(alloc, script, PLENTY, &[])?,
        sink,
        status,
        text,
    )
}

/// Whether single bytes make no difference, neither of the source nor of the sink.
fn goes_by_single_bytes(alloc: Global) -> Result<bool, AllocError> {
    let text = whole(alloc)?;
    let written = writes(
        alloc,
        small(alloc)?,
        sink_of(alloc, PLENTY, 1, &[])?,
        0,
        &text,
    )?;
    Ok(written && text.len() == WHOLE && reads(alloc, 1, &[], 0, &text)?)
}

#[test]
fn single_bytes_make_no_difference(rt: HostRuntime) -> Result<(), Fail> {
    assert!(rt; goes_by_single_bytes(rt.alloc())?);
    Ok(())
}

/// Whether each failing call of a source that gives eight bytes a call is told. Twenty calls give the 153 bytes, and one more gives none.
fn tells_each_read(alloc: Global) -> Result<bool, AllocError> {
    for call in 0..21 {
        if !reads(alloc, 8, &[call], 2, b"read fault\n")? {
            return Ok(false);
        }
    }
    reads(alloc, 8, &[21], 0, &whole(alloc)?)
}

#[test]
fn each_failed_read_is_told(rt: HostRuntime) -> Result<(), Fail> {
    assert!(rt; tells_each_read(rt.alloc())?);
    Ok(())
}

/// Whether a sink of so much room ends with the status and is full of the output's front.
fn fills(alloc: Global, room: usize, status: u8, text: &[u8]) -> Result<bool, AllocError> {
    let front = &text[..room.min(text.len())];
    writes(
        alloc,
        small(alloc)?,
        sink_of(alloc, room, PLENTY, &[])?,
        status,
        front,
    )
}

/// Whether a sink that is full before the end of the output holds the front that it has room for.
fn keeps_each_front(alloc: Global) -> Result<bool, AllocError> {
    let text = whole(alloc)?;
    for room in 0..WHOLE {
        if !fills(alloc, room, 3, &text)? {
            return Ok(false);
        }
    }
    fills(alloc, WHOLE, 0, &text)
}

#[test]
fn a_full_sink_holds_a_front(rt: HostRuntime) -> Result<(), Fail> {
    assert!(rt; keeps_each_front(rt.alloc())?);
    Ok(())
}

/// Whether a refusal keeps its status where its line can't be written whole: in this room, where these calls fail.
fn refuses_class(
    alloc: Global,
    room: usize,
    failing: &[u64],
    text: &[u8],
) -> Result<bool, AllocError> {
    let script = Vec::from_slice(alloc, b"class wifi")?;
    writes(
        alloc,
        script,
        sink_of(alloc, room, PLENTY, failing)?,
        5,
        text,
    )
}

#[test]
fn a_refusal_keeps_its_status(rt: HostRuntime) -> Result<(), Fail> {
    let alloc = rt.alloc();
    assert!(rt; refuses_class(alloc, 4, &[], b"bad ")?);
    assert!(rt; refuses_class(alloc, PLENTY, &[0], b"")?);
    Ok(())
}
