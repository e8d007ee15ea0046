//! The report of a link that was given nothing.

ghost use Rattle.std.specs.Prelude.{IsOk};
ghost use Rattle.un_frame.specs.Params.{AreInRange};

use std::alloc::Global;
use std::test::Fail;
use un_frame::{Class, Params};
use un_io::MemSink;
use un_journal::Journal;
use un_report::*;
use un_script::Script;
use un_setup::agree;

const IDLE: &[u8] = b"report
class ecm
sizes 1514 512 0
control 800600020000ff00 090250000201008032090400000102060000052400100105240600010d240f0100000000ea050000000705820310000909040100000a00000009040101020a0000000705810200020007050102000200
control 0009010000000000 -
control 21430e0000000000 -
control 010b010001000000 -
notify a12a00000000080000389c1c00389c1c
notify a100010000000000
lane out taken 0 short 0 long 0 filtered 0 given 0 failed 0 cut 0 dropped 0 left 0 feed 0 transfers 0 packets 0
lane in taken 0 short 0 long 0 filtered 0 given 0 failed 0 cut 0 dropped 0 left 0 feed 0 transfers 0 packets 0
phase up
end
";

/// The report of a link to which nothing happened yet.
fn report_of(alloc: Global, params: Params) -> Option<MemSink>
    requires { AreInRange params }
{
    let Ok(agreed) = agree(alloc, &params) else {
        return None;
    };
    let script = Script::make(alloc, params);
    let Ok(journal) = Journal::make(alloc, 0, 0) else {
        return None;
    };
    let Ok(mut sink) = MemSink::make(alloc, 2000, 999, Vec::new(alloc)) else {
        return None;
    };
    match write(&mut sink, &script, &agreed, &journal) {
        Ok(()) => Some(sink),
        Err(_) => None,
    }
}

#[test]
fn a_link_without_work_is_reported(rt: HostRuntime) -> Result<(), Fail> {
    let params = Params {
        class: Class::Ecm,
        segment: 1514,
        packet: 512,
        filter: 0x0e,
        block: 16384,
        datagrams: 32,
        divisor: 4,
        remainder: 0,
        alignment: 4,
        tx_out: 8,
        rx_out: 8,
        tx_in: 8,
        rx_in: 8,
    };
    match report_of(rt.alloc(), params) {
        Some(sink) => assert_eq!(rt; sink.held(), IDLE),
        None => assert!(rt; false),
    }
    Ok(())
}
