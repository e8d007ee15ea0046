//! Transfers that are tried again: by `serial`, by calls, and with a control at every moment between their attempts.

use crate::link_tests::{BLOCKS, answers, cuts_at_every_moment, linked, traces};
use crate::serial_tests::{Piece, filled, runs};
use std::alloc::{AllocError, Global};
use std::test::Fail;
use un_frame::Lane;
use un_journal::{Action, Answer};
use un_link::{Homes, Link};

/// A script of one outward frame of 60 bytes, with these lines behind it.
fn one_frame(alloc: Global, lines: &[u8]) -> Result<Vec<u8>, AllocError> {
    filled(
        alloc,
        &[
            (b"class ecm\nrequests 1 1 1 1\nout 0 ", 60),
            (b"\n", 0),
            (lines, 0),
        ],
    )
}

#[test]
fn two_attempts_fail_and_the_third_arrives(rt: HostRuntime) -> Result<(), Fail> {
    let alloc = rt.alloc();
    let script = one_frame(alloc, b"fault out 0 proto 2")?;
    let trace: &[Piece] = &[
        (
            b"trace\nposted out\nposted in\ntook out 0\nmade out 0 0 1 ",
            60,
        ),
        (
            b"\nflying out 0\nretried out 0 1\nposted out\nflying out 0\nretried out 0 2\nposted out\nflying out 0\nlanded out 0\ntxhome out 0\nopened out 0\ngave out 0 ",
            60,
        ),
        (b"\nposted out\nend\nreport\n", 0),
    ];
    let report: &[Piece] = &[(
        b"\nlane out taken 1 short 0 long 0 filtered 0 given 1 failed 0 cut 0 dropped 0 left 0 feed 0 transfers 1 packets 1\n",
        0,
    )];
    assert!(rt; runs(alloc, script, &[trace, report])?);
    Ok(())
}

#[test]
fn the_fourth_attempt_fails_for_good(rt: HostRuntime) -> Result<(), Fail> {
    let alloc = rt.alloc();
    let script = one_frame(alloc, b"fault out 0 proto 4")?;
    let trace: &[Piece] = &[
        (
            b"trace\nposted out\nposted in\ntook out 0\nmade out 0 0 1 ",
            60,
        ),
        (
            b"\nflying out 0\nretried out 0 1\nposted out\nflying out 0\nretried out 0 2\nposted out\nflying out 0\nretried out 0 3\nposted out\nflying out 0\nfailed out 0 proto\ntxhome out 0\nposted out\nend\nreport\n",
            0,
        ),
    ];
    let report: &[Piece] = &[(
        b"\nlane out taken 1 short 0 long 0 filtered 0 given 0 failed 1 cut 0 dropped 0 left 0 feed 0 transfers 1 packets 0\n",
        0,
    )];
    assert!(rt; runs(alloc, script, &[trace, report])?);
    Ok(())
}

/// The calls around a transfer that is marked while it waits to be tried again.
fn around_a_mark(link: &mut Link) -> bool {
    let lane = Lane::Outward;
    answers(
        link,
        &[
            (Action::Refill { lane }, Answer::Did),
            (Action::Offer { lane, sender: 0 }, Answer::Did),
            (Action::Move { lane }, Answer::Did),
            (Action::Control { force: false }, Answer::Did),
            (Action::Move { lane }, Answer::Did),
            (Action::TxDone { lane }, Answer::Did),
        ],
    )
}

/// Whether a transfer that is marked while it waits to be tried again is cut in place of its next flight, and its requests are home.
fn a_mark_between(alloc: Global) -> Result<bool, AllocError> {
    let script = one_frame(alloc, b"fault out 0 proto 2\nat out 1 unlink out")?;
    let mut link = linked(alloc, &script)?;
    let ran = around_a_mark(&mut link);
    let homes = Homes {
        tx_out: 1,
        rx_out: 1,
        tx_in: 1,
        rx_in: 1,
    };
    traces(
        alloc,
        &link,
        ran && link.homes() == homes,
        &[
            (b"trace\nposted out\ntook out 0\nmade out 0 0 1 ", 60),
            (
                b"\nflying out 0\nretried out 0 1\ndid 0 0\nmarked out 0 0\ncut out 0 0\ntxhome out 0\nend\n",
                0,
            ),
        ],
    )
}

#[test]
fn a_mark_between_attempts_cuts(rt: HostRuntime) -> Result<(), Fail> {
    assert!(rt; a_mark_between(rt.alloc())?);
    Ok(())
}

#[test]
fn a_cut_between_attempts_loses_no_count(rt: HostRuntime) -> Result<(), Fail> {
    assert!(rt; cuts_at_every_moment(rt.alloc(), BLOCKS, b"\nfault out 0 proto 2")?);
    Ok(())
}
