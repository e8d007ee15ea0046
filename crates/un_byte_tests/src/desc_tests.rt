//! Worked bytes, and each public call once.

use std::test::Fail;
use un_desc::{DescFault, FunctionKind, Part, build, read};
use un_frame::{Class, Params};

/// ECM with a segment of 1,514 bytes and packets of 512.
const ECM: [u8; 80] = [
    0x09, 0x02, 0x50, 0x00, 0x02, 0x01, 0x00, 0x80, 0x32, 0x09, 0x04, 0x00, 0x00, 0x01, 0x02, 0x06,
    0x00, 0x00, 0x05, 0x24, 0x00, 0x10, 0x01, 0x05, 0x24, 0x06, 0x00, 0x01, 0x0d, 0x24, 0x0f, 0x01,
    0x00, 0x00, 0x00, 0x00, 0xea, 0x05, 0x00, 0x00, 0x00, 0x07, 0x05, 0x82, 0x03, 0x10, 0x00, 0x09,
    0x09, 0x04, 0x01, 0x00, 0x00, 0x0a, 0x00, 0x00, 0x00, 0x09, 0x04, 0x01, 0x01, 0x02, 0x0a, 0x00,
    0x00, 0x00, 0x07, 0x05, 0x81, 0x02, 0x00, 0x02, 0x00, 0x07, 0x05, 0x01, 0x02, 0x00, 0x02, 0x00,
];

#[test]
fn builds_the_bytes(rt: HostRuntime) -> Result<(), Fail> {
    let ecm = build(rt.alloc(), &Params::of_class(Class::Ecm))?;
    assert_eq!(rt; ecm.as_slice(), ECM.as_slice());
    let eem = build(rt.alloc(), &Params::of_class(Class::Eem))?;
    assert_eq!(rt; eem.as_slice().len(), 32);
    let ncm = build(rt.alloc(), &Params::of_class(Class::Ncm32))?;
    assert_eq!(rt; ncm.as_slice().len(), 86);
    Ok(())
}

#[test]
fn reads_the_function(rt: HostRuntime) -> Result<(), Fail> {
    let function = read(&ECM).ok().ok_or("the bytes are refused")?;
    assert_eq!(rt;
        (function.kind, function.segment, function.packet),
        (FunctionKind::Ecm, 1514, 512)
    );
    assert_eq!(rt;
        (
            function.control,
            function.interface,
            function.setting,
            function.bulk_in,
            function.bulk_out
        ),
        (0, 1, 1, 0x81, 0x01)
    );
    assert_eq!(rt;
        read(&ECM[..73]),
        Err(DescFault::Missing {
            part: Part::Endpoints
        })
    );
    assert_eq!(rt; read(&ECM[..79]), Err(DescFault::Truncated { at: 73 }));
    let mut other = ECM;
    other[15] = 0x03;
    assert_eq!(rt; read(&other), Err(DescFault::Unknown { class: 3 }));
    Ok(())
}
