//! Requests in and out of place, and each public call once.

use std::test::Fail;
use un_classreq::{Device, Reply, Setup, Why};
use un_frame::{Class, Params};

/// SET_NTB_FORMAT with 0.
const SET_FORMAT: [u8; 8] = [0x21, 0x84, 0, 0, 0, 0, 0, 0];

/// SET_INTERFACE with 1.
const SET_INTERFACE: [u8; 8] = [0x01, 0x0b, 1, 0, 1, 0, 0, 0];

/// The reason of a stall.
fn stalled(reply: Reply) -> Option<Why> {
    match reply {
        Reply::Stall(why) => Some(why),
        _ => None,
    }
}

#[test]
fn stalls(rt: HostRuntime) -> Result<(), Fail> {
    let mut ncm = Device::make(rt.alloc(), &Params::of_class(Class::Ncm16))?;
    let interface = ncm.control(rt.alloc(), &Setup::from_bytes(&SET_INTERFACE), &[]);
    assert_eq!(rt; stalled(interface), None);
    let format = Setup::from_bytes(&SET_FORMAT);
    assert_eq!(rt; format.to_bytes(), SET_FORMAT);
    assert_eq!(rt;
        stalled(ncm.control(rt.alloc(), &format, &[])),
        Some(Why::State)
    );
    let mut ecm = Device::make(rt.alloc(), &Params::of_class(Class::Ecm))?;
    assert_eq!(rt;
        stalled(ecm.control(rt.alloc(), &format, &[])),
        Some(Why::Unknown)
    );
    Ok(())
}

#[test]
fn sends_what_is_asked_for(rt: HostRuntime) -> Result<(), Fail> {
    let mut device = Device::make(rt.alloc(), &Params::of_class(Class::Ncm16))?;
    let asked = Setup::from_bytes(&[0xa1, 0x80, 0, 0, 0, 0, 6, 0]);
    match device.control(rt.alloc(), &asked, &[]) {
        Reply::Sent(bytes) => {
            assert_eq!(rt; bytes.as_slice(), [0x1c, 0, 1, 0, 0, 0x40].as_slice())
        }
        _ => assert!(rt; false, "the parameters are refused"),
    }
    Ok(())
}
