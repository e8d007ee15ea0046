//! The whole program over sources and sinks in memory, with its workers.

use crate::gates::{Counts, FliesMeanwhile, LandsFirst, Reached};
use crate::serial_tests::filled;
use std::alloc::{AllocError, Global};
use std::sync::Wait;
use std::test::Fail;
use std::thread::Threads;
use un_io::{MemSink, MemSource};
use un_share::{Gate, OpenGate};
use usbnet_run::usbnet_main;

/// The status of the program for these words and this input, and the sink, where these writes fail.
pub(crate) fn answer<R: Threads + Wait + Sync, G: Gate + Sync>(
    rt: &R,
    alloc: Global,
    words: &[&str],
    input: Vec<u8>,
    writes: &[u64],
    gate: &G,
) -> Result<(u8, MemSink), AllocError> {
    let mut owned = Vec::new(alloc);
    for word in words {
        owned.push(String::from_str(alloc, word)?)?;
    }
    let mut source = MemSource::make(input, 1 << 20, Vec::new(alloc));
    let mut sink = MemSink::make(alloc, 1 << 20, 1 << 20, Vec::from_slice(alloc, writes)?)?;
    let status = usbnet_main(rt, alloc, &owned, &mut source, &mut sink, gate);
    Ok((status, sink))
}

/// Three frames of 60 bytes behind these lines.
pub(crate) fn three(alloc: Global, head: &[u8]) -> Result<Vec<u8>, AllocError> {
    filled(alloc, &[(head, 60), (b"\nout 0 ", 60), (b"\nout 0 ", 60)])
}

/// Whether a line is of the outward lane and no posting.
fn is_told(line: &[u8]) -> bool {
    let mut words = line.split(|&byte| byte == b' ');
    let kind = words.next();
    words.next() == Some(b"out".as_slice()) && kind != Some(b"posted".as_slice())
}

/// The beginnings, of 14 bytes at most, of a trace's outward lines from the first on that begins with these bytes to the one that begins with those, each with a line feed; without the lines that post requests.
fn outward(alloc: Global, text: &[u8], from: &[u8], to: &[u8]) -> Result<Vec<u8>, AllocError> {
    let mut lines = Vec::new(alloc);
    let mut is_on = false;
    for line in text.split(|&byte| byte == b'\n') {
        if line.starts_with(to) {
            return Ok(lines);
        }
        if is_on && is_told(line) {
            lines.extend_from_slice(&line[..line.len().min(14)])?;
            lines.push(b'\n')?;
        }
        if line.starts_with(from) {
            is_on = true;
        }
    }
    Ok(lines)
}

/// Whether a text has this line.
pub(crate) fn has_line(text: &[u8], wanted: &[u8]) -> bool {
    text.split(|&byte| byte == b'\n').any(|line| line == wanted)
}

#[test]
fn others_act_while_a_flight_is_out(rt: HostRuntime) -> Result<(), Fail> {
    let input = three(rt.alloc(), b"class ncm16\ndatagrams 2\nout 0 ")?;
    let gate = FliesMeanwhile(Reached::none());
    let (status, sink) = answer(&rt, rt.alloc(), &["run"], input, &[], &gate)?;
    assert_eq!(rt; status, 0);
    let told = outward(rt.alloc(), sink.held(), b"flying out 0", b"landed out 0")?;
    assert_eq!(rt;
        told.as_slice(),
        b"took out 0\nwaited out\nwaited out\nwaited out\nmade out 1 2 3\n".as_slice()
    );
    assert!(rt;
        has_line(
            sink.held(),
            b"lane out taken 3 short 0 long 0 filtered 0 given 3 failed 0 cut 0 dropped 0 left 0 feed 0 transfers 2 packets 2"
        )
    );
    Ok(())
}

#[test]
fn a_worker_lands_between_offers(rt: HostRuntime) -> Result<(), Fail> {
    let input = three(rt.alloc(), b"class ecm\nout 0 ")?;
    let gate = LandsFirst::none();
    let (status, sink) = answer(&rt, rt.alloc(), &["run"], input, &[], &gate)?;
    assert_eq!(rt; status, 0);
    let before = outward(rt.alloc(), sink.held(), b"trace", b"landed out 0")?;
    assert_eq!(rt;
        before.as_slice(),
        b"took out 0\nmade out 0 0 1\ntook out 0\nmade out 1 1 2\nflying out 0\n".as_slice()
    );
    assert!(rt;
        has_line(
            sink.held(),
            b"lane out taken 3 short 0 long 0 filtered 0 given 3 failed 0 cut 0 dropped 0 left 0 feed 0 transfers 3 packets 3"
        )
    );
    assert_eq!(rt; gate.held_before(), (1, 1));
    Ok(())
}

#[test]
fn all_workers_take_turns_in_a_load(rt: HostRuntime) -> Result<(), Fail> {
    let gate = Counts::none();
    let (status, sink) = answer(
        &rt,
        rt.alloc(),
        &["load", "1000"],
        Vec::new(rt.alloc()),
        &[],
        &gate,
    )?;
    assert_eq!(rt;
        (status, sink.held()),
        (0, b"taken 1000 given 1000 lost 0\n".as_slice())
    );
    assert!(rt; gate.has_all());
    Ok(())
}

/// Whether the program ends with this status and text without a gate.
fn tells<R: Threads + Wait + Sync>(
    rt: &R,
    alloc: Global,
    words: &[&str],
    writes: &[u64],
    ends: u8,
    text: &[u8],
) -> Result<bool, AllocError> {
    let input = three(alloc, b"class ecm\nout 0 ")?;
    let (status, sink) = answer(rt, alloc, words, input, writes, &OpenGate)?;
    Ok(status == ends && sink.held() == text)
}

#[test]
fn numbers_of_a_load_are_plain(rt: HostRuntime) -> Result<(), Fail> {
    let alloc = rt.alloc();
    for count in ["0", "01", "65537", "+1", ""] {
        assert!(rt; tells(&rt, alloc, &["load", count], &[], 4, b"bad words\n")?);
    }
    assert!(rt; tells(&rt, alloc, &["load"], &[], 4, b"bad words\n")?);
    assert!(rt;
        tells(
            &rt,
            alloc,
            &["load", "1"],
            &[],
            0,
            b"taken 1 given 1 lost 0\n"
        )?
    );
    Ok(())
}

#[test]
fn a_failed_write_is_told(rt: HostRuntime) -> Result<(), Fail> {
    let alloc = rt.alloc();
    assert!(rt; tells(&rt, alloc, &["run"], &[0], 3, b"")?);
    assert!(rt; tells(&rt, alloc, &["load", "1"], &[0], 3, b"")?);
    Ok(())
}
