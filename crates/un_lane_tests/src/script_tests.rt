//! What no clause says: whole texts with the values that the table gives, and that each call can succeed.

use std::alloc::Global;
use std::test::Fail;
use un_frame::{Bytes, Class, Lane, Params, Planned};
use un_journal::{Control, Due};
use un_script::{Script, ScriptError, Why, generate, read};

/// Where a text is refused, and why.
fn refusal(alloc: Global, text: &[u8]) -> Option<(u64, Why)> {
    match read(alloc, text) {
        Err(ScriptError::BadLine { line, why }) => Some((line, why)),
        _ => None,
    }
}

#[test]
fn reads_parameters(rt: HostRuntime) -> Result<(), Fail> {
    let text =
        b"# a comment\n\nclass ncm16\nsegment 8192\npacket 64\nfilter 1F\nblock 65535\ndatagrams 0\ndivisor 8\nremainder 7\nalignment 16\nrequests 1 2 3 64";
    let script = read(rt.alloc(), text)?;
    let params = script.params();
    assert_eq!(rt;
        (params.segment, params.packet, params.filter, params.block),
        (8192, 64, 31, 65535)
    );
    assert_eq!(rt;
        (
            params.datagrams,
            params.divisor,
            params.remainder,
            params.alignment
        ),
        (0, 8, 7, 16)
    );
    assert_eq!(rt;
        (params.tx_out, params.rx_out, params.tx_in, params.rx_in),
        (1, 2, 3, 64)
    );
    Ok(())
}

#[test]
fn reads_the_body(rt: HostRuntime) -> Result<(), Fail> {
    let text =
        b"class ecm\nin 3 0aFF\nat in 7 unlink out\nfault out 3 halt\nfault in 0 proto\nfault in 1 proto 4\nat out 0 unplug\n";
    let script = read(rt.alloc(), text)?;
    assert!(rt; script.frame(Lane::Inward, 3, 0) == Some([0x0a, 0xff].as_slice()));
    assert!(rt; script.frame(Lane::Inward, 3, 1).is_none());
    assert!(rt; script.frame(Lane::Outward, 0, 0).is_none());
    assert!(rt;
        script.control(0)
            == Some(Due {
                lane: Lane::Inward,
                want: 7,
                control: Control::Unlink {
                    lane: Lane::Outward
                }
            })
    );
    assert!(rt;
        script.control(1)
            == Some(Due {
                lane: Lane::Outward,
                want: 0,
                control: Control::Unplug
            })
    );
    assert!(rt; script.fault(Lane::Outward, 3) == Planned::Halt);
    assert!(rt; script.fault(Lane::Inward, 0) == Planned::Proto { times: 1 });
    assert!(rt; script.fault(Lane::Inward, 1) == Planned::Proto { times: 4 });
    assert!(rt; script.fault(Lane::Inward, 3) == Planned::Clean);
    Ok(())
}

#[test]
fn refuses_words_and_order(rt: HostRuntime) {
    let rows: [(&[u8], u64, Why); 15] = [
        (b"class ecm\nfault out 0 halt 2", 2, Why::Word),
        (b"class ecm\nfault out 0 bus", 2, Why::Word),
        (b"", 1, Why::Word),
        (b"#\n\n", 3, Why::Word),
        (b"class wifi", 1, Why::Word),
        (b"class ecm\r\n", 1, Why::Word),
        (b"class ecm\nout  0 00", 2, Why::Word),
        (b"class ecm\nout 0 00 ", 2, Why::Word),
        (b"class ecm\n \n", 2, Why::Word),
        (b"class ecm\nat out 0 unlink", 2, Why::Word),
        (b"packet 8", 1, Why::Order),
        (b"class ecm\nclass ecm", 2, Why::Order),
        (b"class ecm\npacket 8\nsegment 60", 3, Why::Order),
        (b"class ecm\nout 0 00\nrequests 8 8 8 8", 3, Why::Order),
        (
            b"class ecm\nrequests 8 8 8 8\nrequests 8 8 8 8",
            3,
            Why::Order,
        ),
    ];
    for (text, line, why) in rows {
        assert!(rt; refusal(rt.alloc(), text) == Some((line, why)));
    }
}

#[test]
fn refuses_values(rt: HostRuntime) {
    let rows: [(&[u8], u64, Why); 16] = [
        (b"class ecm\nfault out 0 proto 0", 2, Why::Range),
        (b"class ecm\nfault out 0 proto 5", 2, Why::Range),
        (b"class ecm\nfault out 0 proto 01", 2, Why::Number),
        (b"class ecm\nrequests 65 8 08 8", 2, Why::Number),
        (b"class ecm\nsegment 00060", 2, Why::Number),
        (b"class ecm\nout 4x 0", 2, Why::Number),
        (b"class ecm\nfault out 12345678901 halt", 2, Why::Number),
        (b"class ecm\nout 4 0200000", 2, Why::Hex),
        (b"class ecm\nout 0 0200000", 2, Why::Hex),
        (b"class ecm\nfilter 1", 2, Why::Hex),
        (b"class ecm\nfilter 20", 2, Why::Range),
        (b"class ecm\npacket 100", 2, Why::Range),
        (b"class ncm16\nblock 65536", 2, Why::Range),
        (b"class ecm\nout 4 02", 2, Why::Range),
        (b"class ecm\nat out 0 resume\n", 2, Why::Control),
        (
            b"class ecm\nfault in 0 halt\nfault out 0 halt\nfault in 0 proto",
            4,
            Why::Fault,
        ),
    ];
    for (text, line, why) in rows {
        assert!(rt; refusal(rt.alloc(), text) == Some((line, why)));
    }
}

#[test]
#[tactic(auto, unfolding(un_script::specs::Parts::state_from))]
fn adds_each_part(rt: HostRuntime) -> Result<(), Fail> {
    let alloc = rt.alloc();
    let mut script = Script::make(alloc, Params::of_class(Class::Ecm));
    script.add_frame(Lane::Inward, 3, Bytes::make(vec![in alloc; 7; 2]?))?;
    script.add_fault(Lane::Inward, 5, Planned::Halt)?;
    let suspend = Due {
        lane: Lane::Outward,
        want: 1,
        control: Control::Suspend,
    };
    script.add_control(suspend)?;
    assert!(rt; script.frame(Lane::Inward, 3, 0) == Some([7, 7].as_slice()));
    assert!(rt; script.fault(Lane::Inward, 5) == Planned::Halt);
    assert!(rt; script.control(0) == Some(suspend));
    assert!(rt; script.control(1).is_none());
    assert_eq!(rt;
        (
            script.frame_count(),
            script.control_count(),
            script.fault_count()
        ),
        (1, 1, 1)
    );
    Ok(())
}

#[test]
fn generates_a_load(rt: HostRuntime) -> Result<(), Fail> {
    let script = generate(rt.alloc(), 1)?;
    let frame = script.frame(Lane::Outward, 0, 0).unwrap_or(&[]);
    let wanted = [
        2, 0, 0, 0, 0, 1, 2, 0, 0, 0, 0, 2, 8, 0, 0, 0, 0, 0, 0x12, 0x13, 0x14, 0x15, 0x16, 0x17,
        0x18, 0x19, 0x1a, 0x1b, 0x1c, 0x1d, 0x1e, 0x1f, 0x20, 0x21, 0x22, 0x23, 0x24, 0x25, 0x26,
        0x27, 0x28, 0x29, 0x2a, 0x2b, 0x2c, 0x2d, 0x2e, 0x2f, 0x30, 0x31, 0x32, 0x33, 0x34, 0x35,
        0x36, 0x37, 0x38, 0x39, 0x3a, 0x3b,
    ];
    assert_eq!(rt; frame, wanted.as_slice());
    assert_eq!(rt; script.frame_count(), 1);
    Ok(())
}
