//! Each public call once.

use std::test::Fail;
use un_frame::Kind;
use un_packet::{carry, ecm_append, ecm_read, packet_at, packets};
use un_req::Pool;

#[test]
fn carries_a_transfer_of_full_packets(rt: HostRuntime) -> Result<(), Fail> {
    let mut pool = Pool::make(rt.alloc(), 2, 32)?;
    let mut from = pool.take().ok_or("none is home")?;
    let mut into = pool.take().ok_or("none is home")?;
    from.push(&[1, 2, 3, 4, 5, 6, 7, 8, 9, 10, 11, 12, 13, 14, 15, 16]);
    from.stamp(2, 3, 1);
    assert_eq!(rt; (packets(16, 8), packets(15, 8), packets(0, 8)), (3, 2, 1));
    assert_eq!(rt;
        packet_at(from.bytes(), 8, 1),
        [9, 10, 11, 12, 13, 14, 15, 16].as_slice()
    );
    carry(&from, &mut into, 8);
    assert_eq!(rt; into.bytes(), from.bytes());
    assert_eq!(rt; (into.from(), into.to(), into.serial()), (2, 3, 1));
    assert_ne!(rt; into.number(), from.number());
    Ok(())
}

#[test]
fn reads_a_frame(rt: HostRuntime) -> Result<(), Fail> {
    let mut pool = Pool::make(rt.alloc(), 1, 32)?;
    let mut request = pool.take().ok_or("none is home")?;
    ecm_append(&mut request, &[2, 0, 0, 0, 0, 2, 2, 0, 0, 0, 0, 1, 8, 0]);
    let frame = ecm_read(request.bytes()).ok().ok_or("a frame was refused")?;
    assert_eq!(rt; frame.len(), 14);
    let fault = ecm_read(&[2, 0, 0]).err().ok_or("three bytes were read")?;
    assert_eq!(rt; (fault.kind, fault.at), (Kind::ShortFrame, 0));
    Ok(())
}
