//! The set-up of ECM, NCM and EEM byte for byte, that of RNDIS, and the worked refusals.

use std::test::Fail;
use un_desc::FunctionKind;
use un_frame::{Class, Params};
use un_setup::{Agreed, SetupFault, agree};

/// The set-up packets of NCM, in NTB16.
const NCM: [[u8; 8]; 8] = [
    [0x80, 0x06, 0x00, 0x02, 0x00, 0x00, 0xff, 0x00],
    [0x00, 0x09, 0x01, 0x00, 0x00, 0x00, 0x00, 0x00],
    [0xa1, 0x80, 0x00, 0x00, 0x00, 0x00, 0x1c, 0x00],
    [0x21, 0x84, 0x00, 0x00, 0x00, 0x00, 0x00, 0x00],
    [0x21, 0x86, 0x00, 0x00, 0x00, 0x00, 0x04, 0x00],
    [0x21, 0x88, 0x00, 0x00, 0x00, 0x00, 0x02, 0x00],
    [0x21, 0x43, 0x0e, 0x00, 0x00, 0x00, 0x00, 0x00],
    [0x01, 0x0b, 0x01, 0x00, 0x01, 0x00, 0x00, 0x00],
];

/// The NTB parameters of these.
const PARAMETERS: [u8; 28] = [
    0x1c, 0x00, 0x01, 0x00, 0x00, 0x40, 0x00, 0x00, 0x04, 0x00, 0x00, 0x00, 0x04, 0x00, 0x00, 0x00,
    0x00, 0x40, 0x00, 0x00, 0x04, 0x00, 0x00, 0x00, 0x04, 0x00, 0x20, 0x00,
];

/// The configuration of ECM.
const ECM: [u8; 80] = [
    0x09, 0x02, 0x50, 0x00, 0x02, 0x01, 0x00, 0x80, 0x32, 0x09, 0x04, 0x00, 0x00, 0x01, 0x02, 0x06,
    0x00, 0x00, 0x05, 0x24, 0x00, 0x10, 0x01, 0x05, 0x24, 0x06, 0x00, 0x01, 0x0d, 0x24, 0x0f, 0x01,
    0x00, 0x00, 0x00, 0x00, 0xea, 0x05, 0x00, 0x00, 0x00, 0x07, 0x05, 0x82, 0x03, 0x10, 0x00, 0x09,
    0x09, 0x04, 0x01, 0x00, 0x00, 0x0a, 0x00, 0x00, 0x00, 0x09, 0x04, 0x01, 0x01, 0x02, 0x0a, 0x00,
    0x00, 0x00, 0x07, 0x05, 0x81, 0x02, 0x00, 0x02, 0x00, 0x07, 0x05, 0x01, 0x02, 0x00, 0x02, 0x00,
];

const SPEED: [u8; 16] = [
    0xa1, 0x2a, 0x00, 0x00, 0x00, 0x00, 0x08, 0x00, 0x00, 0x38, 0x9c, 0x1c, 0x00, 0x38, 0x9c, 0x1c,
];

const CONNECTED: [u8; 8] = [0xa1, 0x00, 0x01, 0x00, 0x00, 0x00, 0x00, 0x00];

#[test]
fn sets_ncm_up(rt: HostRuntime) -> Result<(), Fail> {
    let agreed = agree(rt.alloc(), &Params::of_class(Class::Ncm16))
        .ok()
        .ok_or("refused")?;
    let exchanges = agreed.exchanges.as_slice();
    assert_eq!(rt; exchanges.len(), 8);
    for (exchange, wanted) in exchanges.iter().zip(NCM.iter()) {
        assert_eq!(rt; exchange.setup.to_bytes(), *wanted);
    }
    assert_eq!(rt; exchanges[0].payload.as_slice().len(), 86);
    assert_eq!(rt; exchanges[2].payload.as_slice(), PARAMETERS.as_slice());
    assert_eq!(rt; exchanges[4].payload.as_slice(), [0, 0x40, 0, 0].as_slice());
    assert_eq!(rt; exchanges[5].payload.as_slice(), [0xea, 0x05].as_slice());
    let notes = agreed.notes.as_slice();
    assert_eq!(rt; notes.len(), 2);
    assert_eq!(rt; notes[0].as_slice(), SPEED.as_slice());
    assert_eq!(rt; notes[1].as_slice(), CONNECTED.as_slice());
    Ok(())
}

#[test]
fn sets_ecm_up(rt: HostRuntime) -> Result<(), Fail> {
    let ecm = Params::of_class(Class::Ecm);
    let agreed = agree(rt.alloc(), &ecm).ok().ok_or("refused")?;
    let exchanges = agreed.exchanges.as_slice();
    assert_eq!(rt; exchanges.len(), 4);
    let steps = [NCM[0], NCM[1], NCM[6], NCM[7]];
    for (exchange, wanted) in exchanges.iter().zip(steps.iter()) {
        assert_eq!(rt; exchange.setup.to_bytes(), *wanted);
    }
    assert_eq!(rt; exchanges[0].payload.as_slice(), ECM.as_slice());
    for exchange in exchanges.iter().skip(1) {
        assert_eq!(rt; exchange.payload.as_slice().len(), 0);
    }
    let notes = agreed.notes.as_slice();
    assert_eq!(rt; notes.len(), 2);
    assert_eq!(rt; notes[0].as_slice(), SPEED.as_slice());
    assert_eq!(rt; notes[1].as_slice(), CONNECTED.as_slice());
    Ok(())
}

#[test]
fn sets_eem_up(rt: HostRuntime) -> Result<(), Fail> {
    let eem = Params::of_class(Class::Eem);
    let agreed = agree(rt.alloc(), &eem).ok().ok_or("refused")?;
    assert_eq!(rt;
        (
            agreed.exchanges.as_slice().len(),
            agreed.notes.as_slice().len()
        ),
        (2, 0)
    );
    Ok(())
}

#[test]
fn agrees_on_rndis_at_once(rt: HostRuntime) -> Result<(), Fail> {
    let rndis = Params::of_class(Class::Rndis);
    let agreed = agree(rt.alloc(), &rndis).ok().ok_or("refused")?;
    assert_eq!(rt;
        (
            agreed.exchanges.as_slice().len(),
            agreed.notes.as_slice().len()
        ),
        (0, 0)
    );
    let function = agreed.function;
    assert_eq!(rt;
        (function.kind, function.segment, function.packet),
        (FunctionKind::Rndis, 1514, 512)
    );
    assert_eq!(rt;
        (
            function.control,
            function.interface,
            function.setting,
            function.bulk_in,
            function.bulk_out
        ),
        (0, 0, 0, 0, 0)
    );
    Ok(())
}

/// Why there is no agreement.
fn fault(agreed: Result<Agreed, SetupFault>) -> Option<SetupFault> {
    agreed.err()
}

#[test]
fn refuses_what_does_not_agree(rt: HostRuntime) {
    let large = Params {
        segment: 8192,
        block: 2048,
        ..Params::of_class(Class::Ncm16)
    };
    assert_eq!(rt;
        fault(agree(rt.alloc(), &large)),
        Some(SetupFault::NoFit {
            segment: 8192,
            block: 2048
        })
    );
    let three = Params {
        divisor: 3,
        ..Params::of_class(Class::Ncm16)
    };
    assert_eq!(rt;
        fault(agree(rt.alloc(), &three)),
        Some(SetupFault::BadDivisor {
            divisor: 3,
            remainder: 0
        })
    );
    let six = Params {
        alignment: 6,
        ..Params::of_class(Class::Ncm16)
    };
    assert_eq!(rt;
        fault(agree(rt.alloc(), &six)),
        Some(SetupFault::BadAlignment { alignment: 6 })
    );
}
