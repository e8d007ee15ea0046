//! A small history and its text, and a write that fails in mid-stream.

use std::alloc::{AllocError, Global};
use std::test::Fail;
use un_frame::Lane;
use un_io::{MemSink, WriteFault};
use un_journal::*;

#[test]
fn a_history_is_kept_and_written(rt: HostRuntime) -> Result<(), Fail> {
    let lane = Lane::Inward;
    let mut journal = Journal::make(rt.alloc(), 3, 4)?;
    journal.push(Line::Posted { lane }, &[]);
    let made = Line::Made {
        lane,
        serial: 7,
        from: 8,
        to: 9,
    };
    journal.push(made, &[0x0a, 0xff]);
    assert_eq!(rt;
        (journal.len(), journal.spare_lines(), journal.spare_bytes()),
        (2, 1, 2)
    );
    assert_eq!(rt; journal.line(1), made);
    assert_eq!(rt; journal.bytes(1), [0x0a, 0xff].as_slice());
    let mut sink = MemSink::make(rt.alloc(), 99, 99, Vec::new(rt.alloc()))?;
    assert_eq!(rt; write_trace(&mut sink, &journal), Ok(()));
    assert_eq!(rt;
        sink.held(),
        b"trace\nposted in\nmade in 7 8 9 0aff\nend\n".as_slice()
    );
    let mut stopping = MemSink::make(rt.alloc(), 99, 8, Vec::from_slice(rt.alloc(), &[1])?)?;
    assert_eq!(rt; write_trace(&mut stopping, &journal), Err(WriteFault));
    assert_eq!(rt; stopping.held(), b"trace\npo".as_slice());
    Ok(())
}

/// Each kind of line once.
const EACH_KIND: &[u8] =
    b"trace\ntook out 3\nrefused in 0 filtered\nmade out 0 0 1 0aff\nwaited out\nposted in\nflying out 0\nlanded out 0\nfailed in 18446744073709551615 halt\nretried in 3 2\nmarked in 1 4294967295\ncut out 7 2\ndropped in 10 20 0\ntxhome out 0\nopened out 0\ngave out 0 00\nrecalled in\ncleared out\ndid 12 1\nsettled 1 2 3 64\nend\n";

#[test]
fn each_kind_of_line_is_read_back(rt: HostRuntime) -> Result<(), Fail> {
    let journal = read_trace(rt.alloc(), EACH_KIND)?;
    assert_eq!(rt; journal.len(), 19);
    assert_eq!(rt; journal.bytes(2), [0x0a, 0xff].as_slice());
    let mut sink = MemSink::make(rt.alloc(), 999, 999, Vec::new(rt.alloc()))?;
    assert_eq!(rt; write_trace(&mut sink, &journal), Ok(()));
    assert_eq!(rt; sink.held(), EACH_KIND);
    Ok(())
}

/// The trace of one frame on its way outward.
const ONE_FRAME: &[u8] = b"trace\nposted out\nposted in\ntook out 0\nmade out 0 0 1 \
020000000002020000000001080000000000000000000000000000000000000000000000000000000000000000000000000000000000000000000000\n\
flying out 0\nlanded out 0\ntxhome out 0\nopened out 0\ngave out 0 \
020000000002020000000001080000000000000000000000000000000000000000000000000000000000000000000000000000000000000000000000\n\
posted out\nend\n";

/// The bytes of that frame.
fn sent(alloc: Global) -> Result<Vec<u8>, AllocError> {
    let mut frame = vec![in alloc; 0u8; 60]?;
    frame[..14].copy_from_slice(&[2, 0, 0, 0, 0, 2, 2, 0, 0, 0, 0, 1, 8, 0]);
    Ok(frame)
}

/// The lines of its trace.
const SENT: [Line; 10] = [
    Line::Posted {
        lane: Lane::Outward,
    },
    Line::Posted { lane: Lane::Inward },
    Line::Took {
        lane: Lane::Outward,
        sender: 0,
    },
    Line::Made {
        lane: Lane::Outward,
        serial: 0,
        from: 0,
        to: 1,
    },
    Line::Flying {
        lane: Lane::Outward,
        serial: 0,
    },
    Line::Landed {
        lane: Lane::Outward,
        serial: 0,
    },
    Line::TxHome {
        lane: Lane::Outward,
        serial: 0,
    },
    Line::Opened {
        lane: Lane::Outward,
        serial: 0,
    },
    Line::Gave {
        lane: Lane::Outward,
        number: 0,
    },
    Line::Posted {
        lane: Lane::Outward,
    },
];

/// Whether a journal has these lines, with the frame's bytes where a transfer is made and where a frame is given.
fn has_sent(journal: &Journal, frame: &[u8]) -> bool {
    let mut same = true;
    for index in 0..journal.len().min(10) {
        let bytes = match index {
            3 | 8 => frame,
            _ => &[],
        };
        same = same && journal.line(index) == SENT[index as usize] && journal.bytes(index) == bytes;
    }
    same && journal.len() == 10
}

#[test]
fn the_lines_of_a_run_are_read_back(rt: HostRuntime) -> Result<(), Fail> {
    let journal = read_trace(rt.alloc(), ONE_FRAME)?;
    let frame = sent(rt.alloc())?;
    assert!(rt; has_sent(&journal, &frame));
    Ok(())
}

/// The line at which a text is refused, or 0.
fn refused_at(alloc: Global, text: &[u8]) -> u64 {
    match read_trace(alloc, text) {
        Err(TraceError::BadTrace { line }) => line,
        _ => 0,
    }
}

#[test]
fn other_texts_are_refused(rt: HostRuntime) -> Result<(), Fail> {
    assert_eq!(rt; refused_at(rt.alloc(), b"trace\ngave out 0\nend\n"), 2);
    assert_eq!(rt;
        refused_at(rt.alloc(), b"trace\nposted out\ntook out 00\nend\n"),
        3
    );
    assert_eq!(rt; refused_at(rt.alloc(), b"trace\nend\n\n"), 3);
    Ok(())
}
