//! A block builder with one request: where a frame stands that finds none.

use crate::link_tests::{answers, linked, traces};
use crate::serial_tests::filled;
use std::alloc::{AllocError, Global};
use std::test::Fail;
use un_frame::Lane;
use un_journal::{Action, Answer};
use un_link::Link;

/// Whether the first frame's block is queued and the second frame kept for the next block.
fn keeps_the_second(link: &Link) -> bool {
    link.census(Lane::Outward, 0).queued == 1 && link.census(Lane::Outward, 1).remainder == 1
}

/// The calls around a tick that finds no request at home, and a tick that finds it there.
fn around_two_ticks(link: &mut Link) -> bool {
    let lane = Lane::Outward;
    let offer = (Action::Offer { lane, sender: 0 }, Answer::Did);
    let begins = answers(link, &[offer, offer]);
    let keeps = keeps_the_second(link);
    let goes_on = answers(
        link,
        &[
            (Action::Tick { lane }, Answer::NoRequest),
            (Action::Refill { lane }, Answer::Did),
            (Action::Move { lane }, Answer::Did),
            (Action::TxDone { lane }, Answer::Did),
            (Action::Tick { lane }, Answer::Did),
        ],
    );
    begins && keeps && goes_on
}

/// Whether a frame that doesn't fit its block waits as the remainder until the one request is at home, and makes a block there.
fn a_remainder_waits(alloc: Global) -> Result<bool, AllocError> {
    let text = filled(
        alloc,
        &[
            (b"class ncm16\nblock 2048\nrequests 1 1 1 1\nout 0 ", 1514),
            (b"\nout 0 ", 1514),
        ],
    )?;
    let mut link = linked(alloc, &text)?;
    let ran = around_two_ticks(&mut link);
    traces(
        alloc,
        &link,
        ran,
        &[
            (
                b"trace\ntook out 0\ntook out 0\nmade out 0 0 1 4e434d480c0000000806f8050000",
                1514,
            ),
            (
                b"4e434d30100000000e00ea0500000000\nposted out\nflying out 0\nlanded out 0\ntxhome out 0\nmade out 1 1 2 4e434d480c0001000806f8050000",
                1514,
            ),
            (b"4e434d30100000000e00ea0500000000\nend\n", 0),
        ],
    )
}

#[test]
fn a_remainder_waits_for_a_request(rt: HostRuntime) -> Result<(), Fail> {
    assert!(rt; a_remainder_waits(rt.alloc())?);
    Ok(())
}
