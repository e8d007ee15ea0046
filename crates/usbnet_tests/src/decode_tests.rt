//! The command decode over sources and sinks in memory.

ghost use Rattle.std.specs.Prelude.{◌≤◌};

use crate::serial_tests::filled;
use std::alloc::{AllocError, Global};
use std::test::Fail;
use un_io::{MemSink, MemSource};
use usbnet_run::plain_command;

/// The block with fields of 16 bits of one frame of 60 bytes, to 02:00:00:00:00:02 from 02:00:00:00:00:01.
const BLOCK_16: &[u8] = b"NCMH\x0c\0\0\0\x5c\0\x4c\0\
\0\0\x02\0\0\0\0\x02\x02\0\0\0\0\x01\x08\0\
\0\0\0\0\0\0\0\0\0\0\0\0\0\0\0\0\0\0\0\0\0\0\0\
\0\0\0\0\0\0\0\0\0\0\0\0\0\0\0\0\0\0\0\0\0\0\0\
\0\0NCM0\x10\0\0\0\x0e\0\x3c\0\0\0\0\0";

/// The block with fields of 32 bits of the same frame.
const BLOCK_32: &[u8] = b"ncmh\x10\0\0\0\x70\0\0\0\x50\0\0\0\
\0\0\x02\0\0\0\0\x02\x02\0\0\0\0\x01\x08\0\
\0\0\0\0\0\0\0\0\0\0\0\0\0\0\0\0\0\0\0\0\0\0\0\
\0\0\0\0\0\0\0\0\0\0\0\0\0\0\0\0\0\0\0\0\0\0\0\
\0\0ncm0\x20\0\0\0\0\0\0\0\0\0\0\0\x12\0\0\0\x3c\0\0\0\0\0\0\0\0\0\0\0";

/// The status of the command for these words and bytes, and the sink, which takes so many bytes a call and fails at these.
fn answer(
    alloc: Global,
    words: &[&str],
    bytes: Vec<u8>,
    piece: usize,
    writes: &[u64],
) -> Result<(u8, MemSink), AllocError>
    requires { 1 ≤ piece }
{
    let mut owned = Vec::new(alloc);
    for word in words {
        owned.push(String::from_str(alloc, word)?)?;
    }
    let mut source = MemSource::make(bytes, 1 << 20, Vec::new(alloc));
    let mut sink = MemSink::make(alloc, 1 << 20, piece, Vec::from_slice(alloc, writes)?)?;
    let status = plain_command(alloc, &owned, &mut source, &mut sink);
    Ok((status, sink))
}

/// Whether a decode of these bytes ends with this status and this text.
pub(crate) fn gives(
    alloc: Global,
    class: &str,
    bytes: Vec<u8>,
    ends: u8,
    text: &[u8],
) -> Result<bool, AllocError> {
    let (status, sink) = answer(alloc, &["decode", class], bytes, 1 << 20, &[])?;
    Ok(status == ends && sink.held() == text)
}

/// Whether a decode of these bytes, with others from a place on, is refused by this line.
pub(crate) fn refuses(
    alloc: Global,
    class: &str,
    block: &[u8],
    at: usize,
    others: &[u8],
    line: &[u8],
) -> Result<bool, AllocError> {
    let mut bytes = Vec::from_slice(alloc, block)?;
    for (byte, other) in bytes.iter_mut().skip(at).zip(others) {
        *byte = *other;
    }
    gives(alloc, class, bytes, 8, line)
}

/// A chain of tables without a datagram, each of which names the next.
fn chain(alloc: Global, tables: u16) -> Result<Vec<u8>, AllocError> {
    let mut bytes = Vec::from_slice(alloc, b"NCMH\x0c\0\0\0\0\0\x0c\0")?;
    for left in (0..tables.min(64)).rev() {
        let next = if left == 0 {
            0
        } else {
            12 + 16 * (tables.min(64) - left)
        };
        bytes.extend_from_slice(b"NCM0\x10\0")?;
        bytes.extend_from_slice(&next.to_le_bytes())?;
        bytes.extend_from_slice(&[0; 8])?;
    }
    Ok(bytes)
}

#[test]
fn packets_are_decoded(rt: HostRuntime) -> Result<(), Fail> {
    let alloc = rt.alloc();
    let one = b"class eem\nframes 0\ncommands 1\n";
    let none = b"class eem\nframes 0\ncommands 0\n";
    let mixed = b"class eem\nframes 1\nframe 0 14 0200000000020200000000010800\ncommands 1\n";
    let echo = Vec::from_slice(alloc, b"\x03\x80\x01\x02\x03\0\0")?;
    let both = Vec::from_slice(
        alloc,
        b"\x12\0\x02\0\0\0\0\x02\x02\0\0\0\0\x01\x08\0\xde\xad\xbe\xef\0\0\x03\x80\x01\x02\x03",
    )?;
    assert!(rt; gives(alloc, "eem", both, 0, mixed)?);
    assert!(rt; gives(alloc, "eem", echo, 0, one)?);
    assert!(rt; gives(alloc, "eem", Vec::new(alloc), 0, none)?);
    Ok(())
}

#[test]
fn faulty_packets_are_refused(rt: HostRuntime) -> Result<(), Fail> {
    let sentinel = b"\x12\0\x02\0\0\0\0\x02\x02\0\0\0\0\x01\x08\0\xde\xad\xbe\xee";
    for (bytes, line) in [
        (
            b"\x40\x40".as_slice(),
            b"bad transfer crc-packet 0\n".as_slice(),
        ),
        (b"\x03\0\xde\xad\xbe", b"bad transfer short-frame 0\n"),
        (b"\x12", b"bad transfer truncated 0\n"),
        (b"\x05\x80", b"bad transfer truncated 0\n"),
        (b"\0\0\x11\0", b"bad transfer short-frame 2\n"),
        (sentinel, b"bad transfer bad-sentinel 0\n"),
    ] {
        assert!(rt; refuses(rt.alloc(), "eem", bytes, 0, &[], line)?);
    }
    Ok(())
}

#[test]
fn a_frame_is_decoded(rt: HostRuntime) -> Result<(), Fail> {
    let alloc = rt.alloc();
    let head = b"class ecm\nframes 1\nframe 0 60 ";
    let text = filled(alloc, &[(head, 60), (b"\ncommands 0\n", 0)])?;
    let frame = Vec::from_slice(alloc, &BLOCK_16[14..74])?;
    assert!(rt; gives(alloc, "ecm", frame, 0, &text)?);
    Ok(())
}

#[test]
fn blocks_are_decoded(rt: HostRuntime) -> Result<(), Fail> {
    let alloc = rt.alloc();
    for (class, block, head) in [
        (
            "ncm16",
            BLOCK_16,
            b"class ncm16\nframes 1\nframe 0 60 ".as_slice(),
        ),
        ("ncm32", BLOCK_32, b"class ncm32\nframes 1\nframe 0 60 "),
    ] {
        let text = filled(alloc, &[(head, 60), (b"\ncommands 0\n", 0)])?;
        assert!(rt; gives(alloc, class, Vec::from_slice(alloc, block)?, 0, &text)?);
        let mut unsized_block = Vec::from_slice(alloc, block)?;
        unsized_block[8] = 0;
        assert!(rt; gives(alloc, class, unsized_block, 0, &text)?);
    }
    Ok(())
}

#[test]
fn faulty_blocks_of_16_bits_are_refused(rt: HostRuntime) -> Result<(), Fail> {
    for (at, others, line) in [
        (
            82,
            b"\x4c\0".as_slice(),
            b"bad transfer ndp-loop 82\n".as_slice(),
        ),
        (86, b"\x4f\0", b"bad transfer bad-entry 84\n"),
        (79, b"\x31", b"bad transfer crc-table 76\n"),
        (0, b"\x4f", b"bad transfer bad-signature 0\n"),
        (4, b"\x0d", b"bad transfer bad-header-length 4\n"),
        (10, b"\0\0", b"bad transfer bad-ndp-index 10\n"),
        (10, b"\x4d\0", b"bad transfer bad-ndp-index 10\n"),
        (79, b"\x32", b"bad transfer bad-signature 76\n"),
        (80, b"\x12\0", b"bad transfer bad-ndp-length 80\n"),
        (80, b"\x14\0", b"bad transfer bad-ndp-length 80\n"),
        (84, b"\x0b\0", b"bad transfer bad-entry 84\n"),
        (86, b"\x0d\0", b"bad transfer bad-entry 84\n"),
    ] {
        assert!(rt; refuses(rt.alloc(), "ncm16", BLOCK_16, at, others, line)?);
    }
    Ok(())
}

#[test]
fn faulty_blocks_of_32_bits_are_refused(rt: HostRuntime) -> Result<(), Fail> {
    for (at, others, line) in [
        (
            88,
            b"\x50\0\0\0".as_slice(),
            b"bad transfer ndp-loop 88\n".as_slice(),
        ),
        (100, b"\x5f\0\0\0", b"bad transfer bad-entry 96\n"),
    ] {
        assert!(rt; refuses(rt.alloc(), "ncm32", BLOCK_32, at, others, line)?);
    }
    Ok(())
}

#[test]
fn cut_blocks_are_refused(rt: HostRuntime) -> Result<(), Fail> {
    for (class, front, line) in [
        (
            "ncm16",
            &BLOCK_16[..91],
            b"bad transfer bad-block-length 8\n".as_slice(),
        ),
        ("ncm16", &BLOCK_16[..11], b"bad transfer truncated 0\n"),
        (
            "ncm32",
            &BLOCK_32[..111],
            b"bad transfer bad-block-length 8\n",
        ),
        ("ecm", &BLOCK_16[..13], b"bad transfer short-frame 0\n"),
    ] {
        assert!(rt; refuses(rt.alloc(), class, front, 0, &[], line)?);
    }
    Ok(())
}

#[test]
fn a_block_has_32_tables_at_most(rt: HostRuntime) -> Result<(), Fail> {
    let alloc = rt.alloc();
    let text = b"class ncm16\nframes 0\ncommands 0\n";
    assert!(rt; gives(alloc, "ncm16", chain(alloc, 32)?, 0, text)?);
    assert!(rt;
        gives(
            alloc,
            "ncm16",
            chain(alloc, 33)?,
            8,
            b"bad transfer ndp-loop 514\n"
        )?
    );
    Ok(())
}

#[test]
fn a_failed_write_leaves_a_front(rt: HostRuntime) -> Result<(), Fail> {
    let bytes = Vec::from_slice(rt.alloc(), BLOCK_16)?;
    let (status, sink) = answer(rt.alloc(), &["decode", "ncm16"], bytes, 14, &[1])?;
    assert_eq!(rt; (status, sink.held()), (3, b"class ncm16\nfr".as_slice()));
    Ok(())
}

#[test]
fn other_words_are_bad(rt: HostRuntime) -> Result<(), Fail> {
    for words in [
        ["decode"].as_slice(),
        &["decode", "wifi"],
        &["decode", "ecm", "ecm"],
        &["serial", "ecm"],
    ] {
        let (status, sink) = answer(rt.alloc(), words, Vec::new(rt.alloc()), 1 << 20, &[])?;
        assert_eq!(rt; (status, sink.held()), (4, b"bad words\n".as_slice()));
    }
    Ok(())
}
