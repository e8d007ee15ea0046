//! The verdict on a frame.

use un_frame::{Address, Class, Lane, Params, Verdict, address, verdict};

/// The first 14 bytes of a frame to this first byte of a destination.
fn header(first: u8) -> [u8; 14] {
    [first, 0, 0, 0, 0, 2, 2, 0, 0, 0, 0, 1, 8, 0]
}

#[test]
fn judges_frames(rt: HostRuntime) {
    let params = Params {
        class: Class::Ecm,
        segment: 60,
        packet: 512,
        filter: 0,
        block: 2048,
        datagrams: 0,
        divisor: 4,
        remainder: 0,
        alignment: 4,
        tx_out: 1,
        rx_out: 1,
        tx_in: 1,
        rx_in: 1,
    };
    assert_eq!(rt; address(&header(2)), Address::Directed);
    assert_eq!(rt; address(&header(3)), Address::Multicast);
    assert_eq!(rt; address(&[0xff; 14]), Address::Broadcast);
    assert_eq!(rt; verdict(&params, Lane::Inward, &header(2)), Verdict::Take);
    assert_eq!(rt;
        verdict(&params, Lane::Inward, &header(3)),
        Verdict::Filtered
    );
    assert_eq!(rt; verdict(&params, Lane::Outward, &header(3)), Verdict::Take);
    assert_eq!(rt;
        verdict(&params, Lane::Inward, &[0xff; 14]),
        Verdict::Filtered
    );
    assert_eq!(rt;
        verdict(&params, Lane::Outward, &[0xff; 13]),
        Verdict::Short
    );
    assert_eq!(rt; verdict(&params, Lane::Outward, &[0; 61]), Verdict::Long);
}
