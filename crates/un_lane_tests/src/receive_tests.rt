//! A transfer of two frames from its arrival until its request is home again.

ghost use Rattle.std.specs.Prelude.{◌≡◌};
ghost use Rattle.un_frame.specs.Params.{Agree, AreInRange};
ghost use Rattle.un_frame.specs.declared.params.Class.TheVariants.{Ncm16};

use std::test::Fail;
use un_endpoint::RxEnd;
use un_frame::{Class, Params};
use un_receive::{Inward, LaneRx, OnLane, Outward};

/// A block of NTB16 with two frames of 14 bytes.
const BLOCK: [u8; 64] = *b"NCMH\x0c\0\0\0\x40\0\x2c\0\
\x07\x07\x07\x07\x07\x07\x07\x07\x07\x07\x07\x07\x07\x07\0\0\
\x08\x08\x08\x08\x08\x08\x08\x08\x08\x08\x08\x08\x08\x08\0\0\
NCM0\x14\0\0\0\x0c\0\x0e\0\x1c\0\x0e\0\0\0\0\0";

/// Two packets of EEM, each with a frame of 14 bytes and the sentinel in place of a checksum.
const PACKETS: [u8; 40] =
    *b"\x12\0\x07\x07\x07\x07\x07\x07\x07\x07\x07\x07\x07\x07\x07\x07\xde\xad\xbe\xef\
\x12\0\x08\x08\x08\x08\x08\x08\x08\x08\x08\x08\x08\x08\x08\x08\xde\xad\xbe\xef";

/// The parameters of a link of EEM with three receive requests outward and two inward.
const PARAMS: Params = Params {
    class: Class::Eem,
    segment: 1514,
    packet: 512,
    filter: 0x0e,
    block: 16384,
    datagrams: 32,
    divisor: 4,
    remainder: 0,
    alignment: 4,
    tx_out: 1,
    rx_out: 3,
    tx_in: 1,
    rx_in: 2,
};

/// The same of a link of NCM16.
fn blocks() -> Params
    ensures in_range { AreInRange result }
    ensures agree { Agree result }
    ensures class { result.class ≡ Ncm16 }
{
    Params {
        class: Class::Ncm16,
        ..PARAMS
    }
}

/// Takes a home request, and gives it back; false where none is home.
fn post_and_recall<L: OnLane>(end: &mut LaneRx<L>) -> bool
    ensures params { end.new.params ≡ end.old.params }
{
    end.prove_each_once();
    let Some(request) = end.refill() else {
        return false;
    };
    end.give_back(request);
    true
}

/// Lets a transfer of two frames arrive in a home request, as the datagrams 4 and 5; false where none is home, where there is no room for it, or where its class reads it otherwise.
fn receive<L: OnLane>(end: &mut LaneRx<L>, class: Class, bytes: &[u8]) -> bool
    requires { end.old.params.class ≡ class }
{
    let Ok(parts) = un_wire::read(class, bytes) else {
        return false;
    };
    if parts.count() != 2 || bytes.len() > end.capacity() as usize {
        return false;
    }
    end.prove_each_once();
    let Some(mut request) = end.refill() else {
        return false;
    };
    request.push(bytes);
    request.stamp(4, 6, 9);
    end.arrive(request);
    true
}

/// The next datagram's number, its length and its first byte; and whether it was the last one, after a step past it.
fn step<L>(end: &mut LaneRx<L>) -> Option<(u64, usize, u8, bool)> {
    let (number, bytes) = end.lend()?;
    let length = bytes.len();
    let first = *bytes.first()?;
    Some((number, length, first, end.advance()))
}

#[test]
fn a_block_is_lent_part_by_part(rt: HostRuntime) -> Result<(), Fail> {
    let mut end = LaneRx::<Inward>::make(rt.alloc(), &blocks())?;
    assert!(rt; post_and_recall(&mut end));
    assert!(rt; receive(&mut end, Class::Ncm16, &BLOCK));
    assert_eq!(rt;
        (end.arrived(), end.rx_census(5), end.home()),
        (1, (1, 0), 1)
    );
    assert_eq!(rt; end.rx_done(), Some(9));
    assert_eq!(rt; step(&mut end), Some((4, 14, 7, false)));
    assert_eq!(rt; (end.current(), end.rx_census(5)), (true, (0, 1)));
    assert_eq!(rt; step(&mut end), Some((5, 14, 8, true)));
    assert_eq!(rt;
        (end.capacity(), end.current(), end.home()),
        (16384, false, 2)
    );
    Ok(())
}

#[test]
fn two_packets_are_lent_one_by_one(rt: HostRuntime) -> Result<(), Fail> {
    let mut end = LaneRx::<Outward>::make(rt.alloc(), &PARAMS)?;
    assert!(rt; receive(&mut end, Class::Eem, &PACKETS));
    assert_eq!(rt; end.rx_done(), Some(9));
    assert_eq!(rt; step(&mut end), Some((4, 14, 7, false)));
    assert_eq!(rt; step(&mut end), Some((5, 14, 8, true)));
    assert_eq!(rt;
        (end.current(), end.home(), end.rx_done()),
        (false, 3, None)
    );
    Ok(())
}
