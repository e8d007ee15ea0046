//! The worked block there and back, by the names of this crate.

use std::test::Fail;
use un_frame::Kind;
use un_ntb16::{Writer, read};
use un_req::Pool;

/// The block of one frame of 60 bytes, to 02:00:00:00:00:02 from 02:00:00:00:00:01.
const BLOCK: [u8; 92] = *b"NCMH\x0c\0\0\0\x5c\0\x4c\0\
\0\0\x02\0\0\0\0\x02\x02\0\0\0\0\x01\x08\0\
\0\0\0\0\0\0\0\0\0\0\0\0\0\0\0\0\0\0\0\0\0\0\0\
\0\0\0\0\0\0\0\0\0\0\0\0\0\0\0\0\0\0\0\0\0\0\0\
\0\0NCM0\x10\0\0\0\x0e\0\x3c\0\0\0\0\0";

#[test]
fn a_frame_there_and_back(rt: HostRuntime) -> Result<(), Fail> {
    let frame = &BLOCK[14..74];
    let mut pool = Pool::make(rt.alloc(), 1, 2048)?;
    let mut request = pool.take().ok_or("none is home")?;
    let mut writer = Writer::make(rt.alloc(), 32, 2048, 4, 0, 4)?;
    writer.start(&mut request);
    assert!(rt; writer.fits(60));
    writer.append(&mut request, frame);
    assert_eq!(rt; writer.count(), 1);
    writer.close(&mut request, 65536);
    assert_eq!(rt; request.bytes(), BLOCK.as_slice());
    let mut parts = read(request.bytes()).ok().ok_or("a fault")?;
    assert!(rt; parts.next() == Some(frame));
    assert!(rt; parts.next().is_none());
    let fault = read(&BLOCK[..91]).err().ok_or("no fault")?;
    assert_eq!(rt; (fault.kind, fault.at), (Kind::BadBlockLength, 8));
    Ok(())
}
