//! What a checker keeps of a lane, line by line.

use std::test::Fail;
use un_check::{Building, Receiving, Transfers};
use un_frame::{Class, FaultKind, Lane, Params, Planned};
use un_journal::Line;
use un_wire::segments_fit;

/// A transfer of two datagrams lands, is opened and is given, and its request comes home with the last.
#[test]
fn a_receiving_end_is_kept(rt: HostRuntime) -> Result<(), Fail> {
    let lane = Lane::Outward;
    let mut end = Receiving::make(rt.alloc(), 1);
    assert!(rt; end.post_line(lane) == Some(Line::Posted { lane }));
    end.add(false, (0, 0), Line::Posted { lane })?;
    assert_eq!(rt; (end.posted(), end.home()), (1, 0));
    assert!(rt; end.post_line(lane).is_none());
    end.add(false, (0, 0), Line::Flying { lane, serial: 0 })?;
    assert!(rt; end.rx_done_line(lane).is_none());
    end.add(true, (0, 0), Line::Landed { lane, serial: 0 })?;
    let opened = Line::Opened { lane, serial: 0 };
    assert!(rt; end.rx_done_line(lane) == Some(opened));
    end.add(false, (4, 6), opened)?;
    assert_eq!(rt; end.deliver_number(), Some((0, 4)));
    end.add(false, (0, 0), Line::Gave { lane, number: 4 })?;
    assert_eq!(rt; (end.deliver_number(), end.home()), (Some((0, 5)), 0));
    end.add(false, (0, 0), Line::Gave { lane, number: 5 })?;
    assert_eq!(rt; (end.deliver_number(), end.home()), (None, 1));
    Ok(())
}

/// A transfer is made, flies, is tried again, flies and fails for a halt; a second one is marked and cut.
#[test]
fn transfers_are_kept(rt: HostRuntime) -> Result<(), Fail> {
    let lane = Lane::Outward;
    let mut transfers = Transfers::make(rt.alloc());
    transfers.add(Line::Made {
        lane,
        serial: 0,
        from: 0,
        to: 2,
    })?;
    transfers.add(Line::Made {
        lane,
        serial: 1,
        from: 2,
        to: 3,
    })?;
    assert_eq!(rt; (transfers.made(), transfers.span(1)), (2, Some((2, 3))));
    assert_eq!(rt;
        (transfers.next_waiting(), transfers.waiting_count()),
        (Some(0), 2)
    );
    let flying = Line::Flying { lane, serial: 0 };
    assert!(rt; transfers.take_line(false, false, lane, 1) == Some(flying));
    transfers.add(flying)?;
    let retried = Line::Retried {
        lane,
        serial: 0,
        attempt: 1,
    };
    assert!(rt; transfers.is_out());
    assert!(rt; transfers.land_line(lane, Planned::Proto { times: 1 }) == Some(retried));
    transfers.add(retried)?;
    transfers.add(flying)?;
    let failed = Line::Failed {
        lane,
        serial: 0,
        kind: FaultKind::Halt,
    };
    assert!(rt; transfers.land_line(lane, Planned::Halt) == Some(failed));
    transfers.add(failed)?;
    assert!(rt;
        transfers.is_halted() && transfers.clear_line(lane) == Some(Line::Cleared { lane })
    );
    let home = Line::TxHome { lane, serial: 0 };
    assert!(rt; transfers.tx_done_line(lane) == Some(home));
    transfers.add(home)?;
    let marked = Line::Marked {
        lane,
        serial: 1,
        cause: 4,
    };
    assert_eq!(rt; transfers.unmarked(false), Some(1));
    assert!(rt; transfers.unlink_line(false, lane, 4, 1) == Some(marked));
    transfers.add(marked)?;
    let cut = Line::Cut {
        lane,
        serial: 1,
        cause: 4,
    };
    assert!(rt; transfers.take_line(false, false, lane, 1) == Some(cut));
    transfers.add(cut)?;
    assert_eq!(rt; (transfers.over(), transfers.home()), (2, 1));
    Ok(())
}

/// In ECM a frame is a transfer at once, with its own bytes.
#[test]
fn a_frame_alone_is_built(rt: HostRuntime) -> Result<(), Fail> {
    segments_fit();
    let params = Params::of_class(Class::Ecm);
    let frame = [7; 60];
    let mut building = Building::make(rt.alloc(), &params, Lane::Outward)?;
    let Some(span) = building.closes(&frame) else {
        panic!(rt; "the frame closed nothing");
    };
    assert_eq!(rt; span, (0, 1));
    assert!(rt; building.offer_needs(Some(span)));
    assert!(rt; building.make_with(&frame, span, 0, &frame));
    assert_eq!(rt; (building.cover(), building.end()), (1, 1));
    Ok(())
}

/// In NCM a frame waits in an open block, which is then a transfer of other bytes than the frame's; and what is built is dropped.
#[test]
fn an_open_block_is_kept(rt: HostRuntime) -> Result<(), Fail> {
    segments_fit();
    let params = Params::of_class(Class::Ncm16);
    let frame = [7; 60];
    let mut building = Building::make(rt.alloc(), &params, Lane::Outward)?;
    let None = building.closes(&frame) else {
        panic!(rt; "the frame closed a span");
    };
    building.keep(&frame);
    assert_eq!(rt; building.count(), 1);
    assert!(rt; building.is_open() && building.claims() && !building.tick_needs());
    if building.pending() == 0 {
        panic!(rt; "the block doesn't wait");
    }
    building.wait();
    assert_eq!(rt; building.pending(), 2);
    assert!(rt; !building.make_all(0, &frame));
    assert_eq!(rt; (building.cover(), building.count()), (1, 0));
    building.drop_all();
    assert_eq!(rt; (building.cover(), building.count()), (1, 0));
    Ok(())
}
