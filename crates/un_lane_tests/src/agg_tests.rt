//! A remainder that waits for a home request, each call of the gadget's builder once, and packets of EEM.

ghost use Rattle.std.specs.Prelude.{◌≡◌};
ghost use Rattle.un_frame.specs.Params.{Agree, AreInRange};

use std::test::Fail;
use un_agg::{Builder, GadWrap, HostAgg};
use un_endpoint::{Built, Ticked};
use un_frame::{Class, Params};
use un_req::Pool;
use un_wire::{Codec, Wire, segments_fit};

/// The parameters of a link whose blocks have at most 2,048 bytes.
fn params() -> Params
    ensures in_range { AreInRange result }
    ensures agree { Agree result }
    ensures segment { result.segment ≡ 1514 }
{
    Params {
        block: 2048,
        tx_out: 1,
        rx_out: 1,
        tx_in: 1,
        rx_in: 1,
        ..Params::of_class(Class::Ncm16)
    }
}

/// Two frames of which a block holds one: the first is made, and the second waits until the request is home again.
#[test]
fn a_remainder_waits(rt: HostRuntime) -> Result<(), Fail> {
    segments_fit();
    let params = params();
    let codec = Codec::make(rt.alloc(), &params)?;
    let mut pool = Pool::make(rt.alloc(), 1, codec.capacity())?;
    let mut agg = HostAgg::make(rt.alloc(), codec, params.datagrams)?;
    let frame = [0; 1514];
    assert!(rt; agg.can_offer(&pool, 1514));
    let Built::Kept = agg.offer(&mut pool, &frame, 0, 0) else {
        panic!(rt; "the first frame did not stay");
    };
    assert_eq!(rt; (agg.census(0), agg.can_tick(&pool)), ((1, 0), true));
    let Built::Made(first) = agg.offer(&mut pool, &frame, 1, 0) else {
        panic!(rt; "the second frame closed nothing");
    };
    assert_eq!(rt;
        (first.from(), first.to(), first.bytes().len()),
        (0, 1, 1544)
    );
    assert_eq!(rt; (agg.census(1), agg.can_tick(&pool)), ((0, 1), false));
    let Ticked::NoRequest = agg.tick(&mut pool, 1) else {
        panic!(rt; "no request was home");
    };
    pool.put(first);
    let Ticked::Made(second) = agg.tick(&mut pool, 1) else {
        panic!(rt; "the remainder was not made");
    };
    assert_eq!(rt; (second.from(), second.to(), second.serial()), (1, 2, 1));
    assert_eq!(rt; agg.drop_build(&mut pool), None);
    Ok(())
}

/// The gadget's builder keeps a frame in its own request, and copies the block when it is closed.
#[test]
fn a_block_is_copied(rt: HostRuntime) -> Result<(), Fail> {
    segments_fit();
    let params = params();
    let codec = Codec::make(rt.alloc(), &params)?;
    let mut pool = Pool::make(rt.alloc(), 1, codec.capacity())?;
    let mut wrap = GadWrap::make(rt.alloc(), codec, params.datagrams)?;
    assert!(rt; wrap.can_offer(&pool, 60));
    let Built::Kept = wrap.offer(&mut pool, &[0; 60], 0, 0) else {
        panic!(rt; "the frame did not stay");
    };
    assert_eq!(rt;
        (wrap.census(0), wrap.can_tick(&pool), pool.home()),
        ((1, 0), true, 1)
    );
    let Ticked::Made(made) = wrap.tick(&mut pool, 0) else {
        panic!(rt; "the block was not made");
    };
    assert_eq!(rt; (made.from(), made.to(), made.bytes().len()), (0, 1, 92));
    assert_eq!(rt; wrap.drop_build(&mut pool), None);
    Ok(())
}

/// In EEM the gadget's builder keeps packets for one transfer.
#[test]
fn packets_are_one_transfer(rt: HostRuntime) -> Result<(), Fail> {
    segments_fit();
    let params = Params::of_class(Class::Eem);
    let codec = Codec::make(rt.alloc(), &params)?;
    let mut pool = Pool::make(rt.alloc(), 1, codec.capacity())?;
    let mut wrap = GadWrap::make(rt.alloc(), codec, params.datagrams)?;
    let Built::Kept = wrap.offer(&mut pool, &[0; 60], 0, 0) else {
        panic!(rt; "the first frame did not stay");
    };
    let Built::Kept = wrap.offer(&mut pool, &[0; 60], 1, 0) else {
        panic!(rt; "the second frame did not stay");
    };
    let Ticked::Made(made) = wrap.tick(&mut pool, 0) else {
        panic!(rt; "the packets were not made");
    };
    assert_eq!(rt; (made.from(), made.to(), made.bytes().len()), (0, 2, 132));
    assert_eq!(rt; wrap.drop_build(&mut pool), None);
    Ok(())
}

/// The host's makes each a transfer of its own.
#[test]
fn a_packet_is_a_transfer(rt: HostRuntime) -> Result<(), Fail> {
    segments_fit();
    let params = Params::of_class(Class::Eem);
    let codec = Codec::make(rt.alloc(), &params)?;
    let mut pool = Pool::make(rt.alloc(), 1, codec.capacity())?;
    let mut agg = HostAgg::make(rt.alloc(), codec, params.datagrams)?;
    let Built::Made(made) = agg.offer(&mut pool, &[0; 60], 0, 0) else {
        panic!(rt; "the frame did not fly alone");
    };
    assert_eq!(rt; (made.from(), made.to(), made.bytes().len()), (0, 1, 66));
    Ok(())
}
