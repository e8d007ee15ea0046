//! Transfers of EEM with several packets, from a script to the report.

use crate::serial_tests::{Piece, filled, runs};
use std::alloc::{AllocError, Global};
use std::test::Fail;

/// The digits before a frame of 60 bytes in its packet, before one of 1,500 bytes, and behind either.
const SHORT: &[u8] = b"4000";

const LONG: &[u8] = b"e005";

const SENTINEL: &[u8] = b"deadbeef";

/// Whether two inward frames of 60 bytes are one transfer of 132 bytes.
fn packs_two(alloc: Global) -> Result<bool, AllocError> {
    let script = filled(
        alloc,
        &[
            (b"class eem\nrequests 1 1 1 1\nin 0 ", 60),
            (b"\nin 1 ", 60),
        ],
    )?;
    let trace: &[Piece] = &[
        (
            b"trace\nposted out\nposted in\ntook in 0\ntook in 1\nmade in 0 0 2 ",
            0,
        ),
        (SHORT, 60),
        (SENTINEL, 0),
        (SHORT, 60),
        (SENTINEL, 0),
        (
            b"\nflying in 0\nlanded in 0\ntxhome in 0\nopened in 0\ngave in 0 ",
            60,
        ),
        (b"\ngave in 1 ", 60),
        (b"\nposted in\nend\nreport\n", 0),
    ];
    let report: &[Piece] = &[(
        b"\nlane in taken 2 short 0 long 0 filtered 0 given 2 failed 0 cut 0 dropped 0 left 0 feed 0 transfers 1 packets 1\n",
        0,
    )];
    runs(alloc, script, &[trace, report])
}

#[test]
fn packets_share_a_transfer(rt: HostRuntime) -> Result<(), Fail> {
    assert!(rt; packs_two(rt.alloc())?);
    Ok(())
}

/// Whether two inward frames of 1,500 bytes, which don't fit 2,048 bytes together, are two transfers.
fn parts_two(alloc: Global) -> Result<bool, AllocError> {
    let script = filled(
        alloc,
        &[
            (b"class eem\nblock 2048\nrequests 1 1 1 1\nin 0 ", 1500),
            (b"\nin 1 ", 1500),
        ],
    )?;
    let trace: &[Piece] = &[
        (
            b"trace\nposted out\nposted in\ntook in 0\ntook in 1\nmade in 0 0 1 ",
            0,
        ),
        (LONG, 1500),
        (SENTINEL, 0),
        (
            b"\nflying in 0\nlanded in 0\ntxhome in 0\nopened in 0\ngave in 0 ",
            1500,
        ),
        (b"\nposted in\nmade in 1 1 2 ", 0),
        (LONG, 1500),
        (SENTINEL, 0),
        (
            b"\nflying in 1\nlanded in 1\ntxhome in 1\nopened in 1\ngave in 1 ",
            1500,
        ),
        (b"\nposted in\nend\nreport\n", 0),
    ];
    let report: &[Piece] = &[(
        b"\nlane in taken 2 short 0 long 0 filtered 0 given 2 failed 0 cut 0 dropped 0 left 0 feed 0 transfers 2 packets 6\n",
        0,
    )];
    runs(alloc, script, &[trace, report])
}

#[test]
fn packets_past_the_block_are_parted(rt: HostRuntime) -> Result<(), Fail> {
    assert!(rt; parts_two(rt.alloc())?);
    Ok(())
}
