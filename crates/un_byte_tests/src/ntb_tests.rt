//! Worked blocks of both formats, and transfers that are refused.

ghost use Rattle.std.specs.Prelude.{◌≡◌, ◌<◌, ◌≤◌, [], length};

use std::process::Abort;
use std::test::Fail;
use un_frame::Kind;
use un_ntb::{Writer, read};
use un_req::{Pool, Request};

/// A block of NTB16 with one frame of 60 bytes, to 02:00:00:00:00:02 from 02:00:00:00:00:01.
const BLOCK_16: [u8; 92] = *b"NCMH\x0c\0\0\0\x5c\0\x4c\0\
\0\0\x02\0\0\0\0\x02\x02\0\0\0\0\x01\x08\0\
\0\0\0\0\0\0\0\0\0\0\0\0\0\0\0\0\0\0\0\0\0\0\0\
\0\0\0\0\0\0\0\0\0\0\0\0\0\0\0\0\0\0\0\0\0\0\0\
\0\0NCM0\x10\0\0\0\x0e\0\x3c\0\0\0\0\0";

/// The same of NTB32.
const BLOCK_32: [u8; 112] = *b"ncmh\x10\0\0\0\x70\0\0\0\x50\0\0\0\
\0\0\x02\0\0\0\0\x02\x02\0\0\0\0\x01\x08\0\
\0\0\0\0\0\0\0\0\0\0\0\0\0\0\0\0\0\0\0\0\0\0\0\
\0\0\0\0\0\0\0\0\0\0\0\0\0\0\0\0\0\0\0\0\0\0\0\
\0\0ncm0\x20\0\0\0\0\0\0\0\0\0\0\0\x12\0\0\0\x3c\0\0\0\0\0\0\0\0\0\0\0";

/// The largest block that these tests build, in bytes.
const BLOCK: u32 = 262_144;

/// Builds a block of so many frames, alike, each of which must fit, and tells whether one more would.
fn build<const WIDTH: usize>(
    rt: &impl Abort,
    writer: &mut Writer<WIDTH>,
    request: &mut Request,
    frame: &[u8],
    count: u32,
    serial: u64,
) -> bool
    requires room { writer.old.block ≤ request.old.capacity }
    requires least { 14 ≤ length frame.now }
    requires most { length frame.now < 65536 }
    ensures room { writer.new.block ≤ request.new.capacity }
{
    request.clear();
    writer.start(request);
    for _ in 0..count {
        assert!(rt; writer.fits(frame.len() as u32));
        writer.append(request, frame);
    }
    let fits = writer.fits(frame.len() as u32);
    assert!(rt; writer.count() > 0);
    writer.close(request, serial);
    fits
}

/// Whether a transfer is refused so.
fn is_refused<const WIDTH: usize>(bytes: &[u8], kind: Kind, at: u64) -> bool {
    match read::<WIDTH>(bytes) {
        Ok(_) => false,
        Err(fault) => fault.kind == kind && fault.at == at,
    }
}

/// How many datagrams are read, up to 10,000, if each is this frame and the transfer isn't refused.
fn frames_read<const WIDTH: usize>(bytes: &[u8], frame: &[u8]) -> Option<u32> {
    let mut parts = read::<WIDTH>(bytes).ok()?;
    for count in 0..10_000 {
        match parts.next() {
            None => return Some(count),
            Some(part) if part != frame => return None,
            Some(_) => {}
        }
    }
    None
}

/// How long the first datagram of the block in a request is, which is then emptied: a part is lent until its bytes are given
/// up, and no longer (must-fail/part_outlives_its_bytes.md keeps one past that, and the compiler refuses it).
fn look_and_clear(request: &mut Request) -> usize {
    let part = match read::<2>(request.bytes()) {
        Ok(mut parts) => parts.next(),
        Err(_) => None,
    };
    let length = part.map_or(0, |bytes| bytes.len());
    request.clear();
    length
}

/// The frame of the block above with zeros after it, to 1,514 bytes.
fn long_frame() -> [u8; 1514] {
    let mut frame = [0u8; 1514];
    frame[..60].copy_from_slice(&BLOCK_16[14..74]);
    frame
}

#[test]
fn builds_blocks_of_16_bits(rt: HostRuntime) -> Result<(), Fail> {
    let frame = &BLOCK_16[14..74];
    let long = long_frame();
    let mut pool = Pool::make(rt.alloc(), 1, BLOCK)?;
    let mut request = pool.take().ok_or("none is home")?;
    assert!(rt; request.capacity() == BLOCK);
    let mut writer: Writer<2> = Writer::make(rt.alloc(), 32, 2048, 4, 0, 4)?;

    build(&rt, &mut writer, &mut request, frame, 1, 65_536);
    assert!(rt; request.bytes() == BLOCK_16.as_slice());
    assert_eq!(rt; frames_read::<2>(request.bytes(), frame), Some(1));

    build(&rt, &mut writer, &mut request, frame, 5, 0);
    assert!(rt; request.bytes().len() == 348);
    assert!(rt;
        request.bytes()[316..].starts_with(
            b"NCM0\x20\0\0\0\x0e\0\x3c\0\x4a\0\x3c\0\x86\0\x3c\0\xc2\0\x3c\0\xfe\0\x3c\0"
        )
    );
    assert_eq!(rt; frames_read::<2>(request.bytes(), frame), Some(5));

    let another = build(&rt, &mut writer, &mut request, &long, 1, 1);
    assert!(rt; !another, "two frames of 1,514 bytes in a block of 2,048");
    assert!(rt; request.bytes().len() == 1544);
    assert!(rt; request.bytes()[6..].starts_with(&[1, 0]));
    assert_eq!(rt; look_and_clear(&mut request), 1514);
    Ok(())
}

#[test]
fn builds_blocks_of_32_bits(rt: HostRuntime) -> Result<(), Fail> {
    let frame = &BLOCK_32[18..78];
    let header = &BLOCK_32[18..32];
    let mut pool = Pool::make(rt.alloc(), 1, BLOCK)?;
    let mut request = pool.take().ok_or("none is home")?;
    assert!(rt; request.capacity() == BLOCK);
    let mut writer: Writer<4> = Writer::make(rt.alloc(), 0, BLOCK, 4, 0, 4)?;

    build(&rt, &mut writer, &mut request, frame, 1, 0);
    assert!(rt; request.bytes() == BLOCK_32.as_slice());
    assert_eq!(rt; frames_read::<4>(request.bytes(), frame), Some(1));

    let another = build(&rt, &mut writer, &mut request, header, 8188, 0);
    assert!(rt; !another, "the table's length has 16 bits");
    assert!(rt; request.bytes().len() == 196_552);
    assert!(rt; request.bytes()[131_024..].starts_with(b"ncm0\xf8\xff"));
    assert_eq!(rt; frames_read::<4>(request.bytes(), header), Some(8188));
    Ok(())
}

#[test]
fn refuses_changed_blocks(rt: HostRuntime) {
    let frame = &BLOCK_16[14..74];
    let cases = [
        (0, 0x4f, Kind::BadSignature, 0),
        (4, 0x0d, Kind::BadHeaderLength, 4),
        (10, 0x00, Kind::BadNdpIndex, 10),
        (10, 0x4d, Kind::BadNdpIndex, 10),
        (79, 0x31, Kind::CrcTable, 76),
        (79, 0x32, Kind::BadSignature, 76),
        (80, 0x12, Kind::BadNdpLength, 80),
        (80, 0x14, Kind::BadNdpLength, 80),
        (82, 0x4c, Kind::NdpLoop, 82),
        (84, 0x0b, Kind::BadEntry, 84),
        (86, 0x0d, Kind::BadEntry, 84),
        (86, 0x4f, Kind::BadEntry, 84),
    ];
    for (at, byte, kind, fault_at) in cases {
        let mut bytes = BLOCK_16;
        if let Some(place) = bytes.get_mut(at) {
            *place = byte;
        }
        assert!(rt; is_refused::<2>(&bytes, kind, fault_at), "byte {at}");
    }
    let mut whole = BLOCK_16;
    whole[8] = 0;
    assert_eq!(rt; frames_read::<2>(&whole, frame), Some(1));
    assert!(rt; is_refused::<2>(&BLOCK_16[..91], Kind::BadBlockLength, 8));
    assert!(rt; is_refused::<2>(&BLOCK_16[..11], Kind::Truncated, 0));
    assert!(rt; is_refused::<4>(&BLOCK_32[..111], Kind::BadBlockLength, 8));
    for (at, byte, kind, fault_at) in [
        (83, 0x31, Kind::CrcTable, 80),
        (88, 0x50, Kind::NdpLoop, 88),
        (100, 0x5f, Kind::BadEntry, 96),
    ] {
        let mut bytes = BLOCK_32;
        if let Some(place) = bytes.get_mut(at) {
            *place = byte;
        }
        assert!(rt; is_refused::<4>(&bytes, kind, fault_at), "byte {at}");
    }
}

/// A block's header that names index 12, and 33 tables of 16 bytes from there on, each with null pairs alone. Each of the first
/// `tables` names the next but the last, which names none.
fn chain(tables: u16) -> [u8; 540] {
    let mut bytes = [0u8; 540];
    bytes[..12].copy_from_slice(b"NCMH\x0c\0\0\0\0\0\x0c\0");
    for table in 0..33 {
        let at = 12 + 16 * table as usize;
        bytes[at..at + 6].copy_from_slice(b"NCM0\x10\0");
        if table + 1 < tables {
            let next: u16 = 12 + 16 * (table + 1);
            bytes[at + 6..at + 8].copy_from_slice(&next.to_le_bytes());
        }
    }
    bytes
}

#[test]
fn reads_chains_of_tables(rt: HostRuntime) -> Result<(), Fail> {
    let longest = chain(32);
    let bytes = longest.get(..524).ok_or("too short")?;
    assert_eq!(rt; frames_read::<2>(bytes, &[]), Some(0));
    assert!(rt; is_refused::<2>(&chain(33), Kind::NdpLoop, 514));
    Ok(())
}
