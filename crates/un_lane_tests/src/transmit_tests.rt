//! A frame from its offer until its request is home again, in either lane, and one that is deferred.

ghost use Rattle.std.specs.Prelude.{◌≡◌, ◌≤◌, []};
ghost use Rattle.un_frame.specs.Params.{Agree, AreInRange};

use std::test::Fail;
use un_agg::{Builder, GadWrap, HostAgg};
use un_endpoint::{Built, Ticked, TxEnd};
use un_frame::{Class, Params};
use un_transmit::LaneTx;

/// The parameters of a link of ECM with one transmit request outward and two inward.
fn params() -> Params
    ensures in_range { AreInRange result }
    ensures agree { Agree result }
    ensures segment { result.segment ≡ 1514 }
{
    Params {
        tx_out: 1,
        rx_out: 1,
        tx_in: 2,
        rx_in: 1,
        ..Params::of_class(Class::Ecm)
    }
}

/// The bytes of a frame's transfer, how many requests are done and home until its own comes home, and the serial that it then tells; nothing where no transfer was made.
fn sent<B: Builder + Drop>(end: &mut LaneTx<B>) -> Option<(usize, (u32, u32), u64)>
    requires nothing { end.old.builder.frames ≡ [] }
    requires segment { 60 ≤ end.old.params.segment }
{
    end.prove_each_once();
    let Built::Made(made) = end.offer(&[7; 60], 4, 0) else {
        return None;
    };
    let size = made.bytes().len();
    end.finish(made);
    let away = (end.done(), end.home());
    Some((size, away, end.tx_done()?))
}

#[test]
fn requests_come_home(rt: HostRuntime) -> Result<(), Fail> {
    let mut out = LaneTx::<HostAgg>::make(rt.alloc(), &params())?;
    assert_eq!(rt;
        (out.capacity(), out.home(), out.can_offer(60)),
        (1514, 1, true)
    );
    assert_eq!(rt; sent(&mut out), Some((60, (1, 0), 0)));
    assert_eq!(rt; (out.done(), out.home(), out.can_tick()), (0, 1, false));
    Ok(())
}

#[test]
fn inward_requests_come_home(rt: HostRuntime) -> Result<(), Fail> {
    let mut inward = LaneTx::<GadWrap>::make(rt.alloc(), &params())?;
    assert_eq!(rt; sent(&mut inward), Some((60, (1, 1), 0)));
    assert_eq!(rt; (inward.done(), inward.home()), (0, 2));
    assert!(rt; matches!(&inward.tick(1), Ticked::Nothing));
    assert_eq!(rt; inward.drop_build(), None);
    Ok(())
}

#[test]
fn a_transfer_is_deferred(rt: HostRuntime) -> Result<(), Fail> {
    let mut end = LaneTx::<HostAgg>::make(rt.alloc(), &params())?;
    end.prove_each_once();
    let Built::Made(made) = end.offer(&[7; 60], 4, 0) else {
        panic!(rt; "nothing was made");
    };
    end.defer(made);
    assert_eq!(rt; (end.deferred(), end.tx_census(4)), (1, (0, 0, 1)));
    let next = end.next_deferred().ok_or("none is deferred")?;
    assert_eq!(rt; (next.serial(), end.deferred()), (0, 0));
    Ok(())
}
