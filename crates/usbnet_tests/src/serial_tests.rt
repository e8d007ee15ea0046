//! The command over sources and sinks in memory.

use std::alloc::{AllocError, Global};
use std::test::Fail;
use un_io::{MemSink, MemSource, read_whole};
use usbnet_run::plain_command;

/// The digits of a frame's first 14 bytes: a destination, a source and the type of IPv4. The frame goes on with zero bytes.
const HEADER: &[u8] = b"0200000000020200000000010800";

/// The most bytes that a sink of these tests holds.
const ROOM: usize = 1 << 20;

/// A piece of text, and the length in bytes of the frame whose digits stand behind it.
pub(crate) type Piece<'a> = (&'a [u8], usize);

/// Pieces of text, each with the digits of a frame of so many bytes behind it.
pub(crate) fn filled(alloc: Global, pieces: &[Piece]) -> Result<Vec<u8>, AllocError> {
    let mut text = Vec::new(alloc);
    for (piece, length) in pieces {
        text.extend_from_slice(piece)?;
        for at in 0..2 * (*length).min(8192) {
            text.push(HEADER.get(at).copied().unwrap_or(b'0'))?;
        }
    }
    Ok(text)
}

/// A script of one frame of 60 bytes.
pub(crate) fn small(alloc: Global) -> Result<Vec<u8>, AllocError> {
    filled(alloc, &[(b"class ecm\nrequests 1 1 1 1\nout 0 ", 60)])
}

/// So many zero bytes.
fn zeros(alloc: Global, size: usize) -> Result<Vec<u8>, AllocError> {
    vec![in alloc; 0u8; size]
}

/// The status of the command for this word or none and this input, and the sink, where these calls fail.
fn answer(
    alloc: Global,
    word: Option<&str>,
    input: Vec<u8>,
    reads: &[u64],
    writes: &[u64],
) -> Result<(u8, MemSink), AllocError> {
    let mut owned = Vec::new(alloc);
    if let Some(word) = word {
        owned.push(String::from_str(alloc, word)?)?;
    }
    let mut source = MemSource::make(input, ROOM, Vec::from_slice(alloc, reads)?);
    let mut sink = MemSink::make(alloc, ROOM, ROOM, Vec::from_slice(alloc, writes)?)?;
    let status = plain_command(alloc, &owned, &mut source, &mut sink);
    Ok((status, sink))
}

/// Whether the command, asked in this way, ends with this status and this line alone.
fn tells(
    alloc: Global,
    word: Option<&str>,
    input: Vec<u8>,
    reads: &[u64],
    writes: &[u64],
    ends: u8,
    line: &[u8],
) -> Result<bool, AllocError> {
    let (status, sink) = answer(alloc, word, input, reads, writes)?;
    Ok(status == ends && sink.held() == line)
}

/// What is left of a text from the last byte of a part's first place on; nothing where it has no such part.
fn behind<'a>(text: &'a [u8], part: &[u8]) -> Option<&'a [u8]> {
    for at in 0..text.len() {
        let rest = &text[at..];
        if rest.starts_with(part) {
            return rest.get(part.len().saturating_sub(1)..);
        }
    }
    None
}

/// Whether the parts stand in the text in this order. Two parts may share the line feed between them.
fn has_in_order(alloc: Global, text: &[u8], parts: &[&[Piece]]) -> Result<bool, AllocError> {
    let mut rest = text;
    for pieces in parts {
        let part = filled(alloc, pieces)?;
        match behind(rest, &part) {
            Some(left) => rest = left,
            None => return Ok(false),
        }
    }
    Ok(true)
}

/// Whether `serial` ends this script with status 0 and an output that has these parts in their order.
pub(crate) fn runs(alloc: Global, script: Vec<u8>, parts: &[&[Piece]]) -> Result<bool, AllocError> {
    let (status, sink) = answer(alloc, Some("serial"), script, &[], &[])?;
    Ok(status == 0 && has_in_order(alloc, sink.held(), parts)?)
}

/// Whether `serial` refuses this script with this status and line.
fn refuses(alloc: Global, script: &[u8], ends: u8, line: &[u8]) -> Result<bool, AllocError> {
    let text = Vec::from_slice(alloc, script)?;
    tells(alloc, Some("serial"), text, &[], &[], ends, line)
}

/// The trace of a link without frames.
const POSTED: &[u8] =
    b"trace\nposted out\nposted in\nposted out\nposted in\nposted out\nposted in\nposted out\nposted in\n\
posted out\nposted in\nposted out\nposted in\nposted out\nposted in\nposted out\nposted in\nend\n";

/// The lines of a report that tell of the lanes and the phase of a link without frames.
const NOTHING: &[u8] =
    b"lane out taken 0 short 0 long 0 filtered 0 given 0 failed 0 cut 0 dropped 0 left 0 feed 0 transfers 0 packets 0\n\
lane in taken 0 short 0 long 0 filtered 0 given 0 failed 0 cut 0 dropped 0 left 0 feed 0 transfers 0 packets 0\n\
phase up\n\
end\n";

/// Whether the link of a script without frames is set up as these lines of its report tell.
pub(crate) fn sets_up(alloc: Global, script: &[u8], lines: &[u8]) -> Result<bool, AllocError> {
    let text = filled(alloc, &[(POSTED, 0), (lines, 0), (NOTHING, 0)])?;
    let script = Vec::from_slice(alloc, script)?;
    tells(alloc, Some("serial"), script, &[], &[], 0, &text)
}

#[test]
fn a_link_without_frames_is_set_up(rt: HostRuntime) -> Result<(), Fail> {
    let lines = b"report\nclass ecm\nsizes 1514 512 0\n\
control 800600020000ff00 090250000201008032090400000102060000052400100105240600010d240f0100000000ea05000000\
0705820310000909040100000a00000009040101020a0000000705810200020007050102000200\n\
control 0009010000000000 -\n\
control 21430e0000000000 -\n\
control 010b010001000000 -\n\
notify a12a00000000080000389c1c00389c1c\n\
notify a100010000000000\n";
    assert!(rt; sets_up(rt.alloc(), b"class ecm", lines)?);
    Ok(())
}

#[test]
fn a_link_of_blocks_agrees_on_them(rt: HostRuntime) -> Result<(), Fail> {
    let lines = b"report\nclass ncm16\nsizes 1514 512 16384\n\
control 800600020000ff00 0902560002010080320904000001020d0000052400100105240600010d240f0100000000ea05000000\
06241a0001090705820310000909040100000a00010009040101020a0001000705810200020007050102000200\n\
control 0009010000000000 -\n\
control a180000000001c00 1c000100004000000400000004000000004000000400000004002000\n\
control 2184000000000000 -\n\
control 2186000000000400 00400000\n\
control 2188000000000200 ea05\n\
control 21430e0000000000 -\n\
control 010b010001000000 -\n\
notify a12a00000000080000389c1c00389c1c\n\
notify a100010000000000\n";
    assert!(rt; sets_up(rt.alloc(), b"class ncm16", lines)?);
    Ok(())
}

#[test]
fn a_link_of_packets_needs_no_notice(rt: HostRuntime) -> Result<(), Fail> {
    let lines = b"report\nclass eem\nsizes 1514 512 0\n\
control 800600020000ff00 0902200001010080320904000002020c07000705810200020007050102000200\n\
control 0009010000000000 -\n";
    assert!(rt; sets_up(rt.alloc(), b"class eem", lines)?);
    Ok(())
}

/// Whether one outward frame of so many bytes is given, where the link of a class waits as these lines say, makes its transfer of the frame between these digits, and sends so many packets.
pub(crate) fn carries<'x>(
    alloc: Global,
    class: &'x [u8],
    length: usize,
    waits: &'x [u8],
    around: (&'x [u8], &'x [u8]),
    packets: &'x [u8],
) -> Result<bool, AllocError> {
    let script = filled(
        alloc,
        &[(class, 0), (b"\nrequests 1 1 1 1\nout 0 ", length)],
    )?;
    let trace: &[Piece] = &[
        (b"trace\nposted out\nposted in\ntook out 0\n", 0),
        (waits, 0),
        (b"made out 0 0 1 ", 0),
        (around.0, length),
        (around.1, 0),
        (
            b"\nflying out 0\nlanded out 0\ntxhome out 0\nopened out 0\ngave out 0 ",
            length,
        ),
        (b"\nposted out\nend\nreport\n", 0),
    ];
    let report: &[Piece] = &[
        (
            b"\nlane out taken 1 short 0 long 0 filtered 0 given 1 failed 0 cut 0 dropped 0 left 0 feed 0 transfers 1 packets ",
            0,
        ),
        (packets, 0),
        (b"\nframe out 0 ", length),
        (
            b"\nlane in taken 0 short 0 long 0 filtered 0 given 0 failed 0 cut 0 dropped 0 left 0 feed 0 transfers 0 packets 0\nphase up\nend\n",
            0,
        ),
    ];
    runs(alloc, script, &[trace, report])
}

#[test]
fn a_frame_goes_through_unchanged(rt: HostRuntime) -> Result<(), Fail> {
    let alloc = rt.alloc();
    assert!(rt; carries(alloc, b"class ecm", 60, b"", (b"", b""), b"1")?);
    assert!(rt; carries(alloc, b"class ecm", 512, b"", (b"", b""), b"2")?);
    assert!(rt; carries(alloc, b"class eem", 60, b"", (b"4000", b"deadbeef"), b"1")?);
    assert!(rt;
        carries(
            alloc,
            b"class eem",
            506,
            b"",
            (b"fe01", b"deadbeef0000"),
            b"2"
        )?
    );
    Ok(())
}

#[test]
fn a_block_waits_for_three_ticks(rt: HostRuntime) -> Result<(), Fail> {
    let alloc = rt.alloc();
    let waits = b"waited out\nwaited out\nwaited out\n";
    let narrow: (&[u8], &[u8]) = (
        b"4e434d480c0000005c004c000000",
        b"00004e434d30100000000e003c0000000000",
    );
    let wide: (&[u8], &[u8]) = (
        b"6e636d681000000070000000500000000000",
        b"00006e636d30200000000000000000000000120000003c0000000000000000000000",
    );
    assert!(rt; carries(alloc, b"class ncm16", 60, waits, narrow, b"1")?);
    assert!(rt; carries(alloc, b"class ncm32", 60, waits, wide, b"1")?);
    Ok(())
}

#[test]
fn a_block_holds_what_fits(rt: HostRuntime) -> Result<(), Fail> {
    let alloc = rt.alloc();
    let script = filled(
        alloc,
        &[
            (b"class ncm16\nblock 2048\nrequests 2 1 1 1\nout 0 ", 1514),
            (b"\nout 0 ", 1514),
        ],
    )?;
    let trace: &[Piece] = &[
        (
            b"trace\nposted out\nposted in\ntook out 0\nwaited out\ntook out 0\nmade out 0 0 1 4e434d480c0000000806f8050000",
            1514,
        ),
        (
            b"4e434d30100000000e00ea0500000000\nmade out 1 1 2 4e434d480c0001000806f8050000",
            1514,
        ),
        (
            b"4e434d30100000000e00ea0500000000\nflying out 0\nlanded out 0\ntxhome out 0\nopened out 0\ngave out 0 ",
            1514,
        ),
        (
            b"\nposted out\nflying out 1\nlanded out 1\ntxhome out 1\nopened out 1\ngave out 1 ",
            1514,
        ),
        (b"\nposted out\nend\n", 0),
    ];
    assert!(rt; runs(alloc, script, &[trace])?);
    Ok(())
}

/// A head of a script with so many frames of 60 bytes behind it.
fn repeated(alloc: Global, head: &[u8], count: usize) -> Result<Vec<u8>, AllocError> {
    let mut text = Vec::from_slice(alloc, head)?;
    for _ in 0..count {
        let line = filled(alloc, &[(b"\nout 0 ", 60)])?;
        text.extend_from_slice(&line)?;
    }
    Ok(text)
}

#[test]
fn the_fifth_frame_is_in_one_block(rt: HostRuntime) -> Result<(), Fail> {
    let alloc = rt.alloc();
    let script = repeated(alloc, b"class ncm16\nrequests 1 1 1 1", 5)?;
    let trace: &[Piece] = &[
        (
            b"trace\nposted out\nposted in\ntook out 0\nwaited out\ntook out 0\nwaited out\ntook out 0\nwaited out\ntook out 0\nwaited out\ntook out 0\n",
            0,
        ),
        (b"made out 0 0 5 4e434d480c0000005c013c010000", 60),
        (b"", 60),
        (b"", 60),
        (b"", 60),
        (b"", 60),
        (
            b"00004e434d30200000000e003c004a003c0086003c00c2003c00fe003c0000000000\nflying out 0\nlanded out 0\ntxhome out 0\nopened out 0\ngave out 0 ",
            60,
        ),
        (b"\ngave out 1 ", 60),
        (b"\ngave out 2 ", 60),
        (b"\ngave out 3 ", 60),
        (b"\ngave out 4 ", 60),
        (b"\nposted out\nend\n", 0),
    ];
    assert!(rt; runs(alloc, script, &[trace])?);
    Ok(())
}

#[test]
fn a_suspend_defers_what_is_sent(rt: HostRuntime) -> Result<(), Fail> {
    let alloc = rt.alloc();
    let mut script = repeated(alloc, b"class ecm\nrequests 2 2 2 2", 6)?;
    script.extend_from_slice(b"\nat out 2 suspend\nat out 6 resume")?;
    let first: &[Piece] = &[(b"\ngave out 0 ", 60), (b"\n", 0)];
    let second: &[Piece] = &[(b"\ngave out 1 ", 60), (b"\n", 0)];
    let asleep: &[Piece] = &[
        (
            b"\ndid 0 0\nrecalled in\nrecalled in\ntook out 0\nmade out 2 2 3 ",
            60,
        ),
        (b"\ntook out 0\nmade out 3 3 4 ", 60),
        (b"\ndid 1 1\nposted out\nposted in\nflying out 2\n", 0),
    ];
    let made: &[Piece] = &[(b"\nmade out 4 4 5 ", 60), (b"\n", 0)];
    let order: &[Piece] = &[(b"\nflying out 3\n", 0)];
    let last: &[Piece] = &[(b"\nflying out 4\n", 0)];
    let report: &[Piece] = &[(
        b"\nlane out taken 6 short 0 long 0 filtered 0 given 6 failed 0 cut 0 dropped 0 left 0 feed 0 transfers 6 packets 6\n",
        0,
    )];
    assert!(rt;
        runs(
            alloc,
            script,
            &[first, second, asleep, made, order, last, report]
        )?
    );
    Ok(())
}

#[test]
fn a_halt_loses_one_frame(rt: HostRuntime) -> Result<(), Fail> {
    let alloc = rt.alloc();
    let mut script = repeated(alloc, b"class ecm\nrequests 1 1 1 1", 2)?;
    script.extend_from_slice(b"\nfault out 0 halt")?;
    let trace: &[Piece] = &[
        (
            b"trace\nposted out\nposted in\ntook out 0\nmade out 0 0 1 ",
            60,
        ),
        (
            b"\nflying out 0\nfailed out 0 halt\ntxhome out 0\ncleared out\nposted out\ntook out 0\nmade out 1 1 2 ",
            60,
        ),
        (
            b"\nflying out 1\nlanded out 1\ntxhome out 1\nopened out 1\ngave out 1 ",
            60,
        ),
        (b"\nposted out\nend\n", 0),
    ];
    let report: &[Piece] = &[(
        b"\nlane out taken 2 short 0 long 0 filtered 0 given 1 failed 1 cut 0 dropped 0 left 0 feed 0 transfers 2 packets 1\n",
        0,
    )];
    assert!(rt; runs(alloc, script, &[trace, report])?);
    Ok(())
}

#[test]
fn frames_are_refused_and_counted(rt: HostRuntime) -> Result<(), Fail> {
    let alloc = rt.alloc();
    let script = filled(
        alloc,
        &[
            (b"class ecm\nout 0 ", 13),
            (b"\nout 0 ", 1514),
            (b"\nout 0 ", 1515),
        ],
    )?;
    let report: &[Piece] = &[(
        b"\nlane out taken 1 short 1 long 1 filtered 0 given 1 failed 0 cut 0 dropped 0 left 0 feed 0 transfers 1 packets 3\n",
        0,
    )];
    assert!(rt; runs(alloc, script, &[report])?);
    let broadcast = filled(
        alloc,
        &[(
            b"class ecm\nfilter 00\nin 0 ffffffffffff0200000000010800\nin 0 ",
            60,
        )],
    )?;
    let refused: &[Piece] = &[(b"\nrefused in 0 filtered\n", 0)];
    let given: &[Piece] = &[(b"\ngave in 0 ", 60), (b"\n", 0)];
    let counts: &[Piece] = &[(
        b"\nlane in taken 1 short 0 long 0 filtered 1 given 1 failed 0 cut 0 dropped 0 left 0 feed 0 transfers 1 packets 1\n",
        0,
    )];
    assert!(rt; runs(alloc, broadcast, &[refused, given, counts])?);
    Ok(())
}

#[test]
fn senders_take_turns(rt: HostRuntime) -> Result<(), Fail> {
    let alloc = rt.alloc();
    let script = filled(alloc, &[(b"class ecm\nout 0 ", 60), (b"\nout 1 ", 60)])?;
    let first: &[Piece] = &[(b"\ngave out 0 ", 60), (b"\n", 0)];
    let second: &[Piece] = &[(b"\ngave out 1 ", 60), (b"\n", 0)];
    let report: &[Piece] = &[(
        b"\nlane out taken 2 short 0 long 0 filtered 0 given 2 failed 0 cut 0 dropped 0 left 0 feed 0 transfers 2 packets 2\n",
        0,
    )];
    assert!(rt; runs(alloc, script, &[first, second, report])?);
    Ok(())
}

/// The script of forty full frames in each lane, with a sleep after the twentieth outward.
fn session(alloc: Global) -> Result<Vec<u8>, AllocError> {
    let mut text = Vec::from_slice(alloc, b"class ncm16\nfilter 0e\nblock 16384\ndatagrams 32")?;
    for _ in 0..40 {
        let lines = filled(alloc, &[(b"\nout 0 ", 1514), (b"\nin 0 ", 1514)])?;
        text.extend_from_slice(&lines)?;
    }
    text.extend_from_slice(b"\nat out 20 suspend\nat out 20 resume\n")?;
    Ok(text)
}

#[test]
fn a_session_is_counted(rt: HostRuntime) -> Result<(), Fail> {
    let out: &[Piece] = &[(
        b"\nlane out taken 40 short 0 long 0 filtered 0 given 40 failed 0 cut 0 dropped 0 left 0 feed 0 transfers 8 packets 120\n",
        0,
    )];
    let inward: &[Piece] = &[(
        b"\nlane in taken 40 short 0 long 0 filtered 0 given 40 failed 0 cut 0 dropped 0 left 0 feed 0 transfers 40 packets 160\n",
        0,
    )];
    let phase: &[Piece] = &[(b"\nphase up\nend\n", 0)];
    let script = session(rt.alloc())?;
    assert!(rt; runs(rt.alloc(), script, &[out, inward, phase])?);
    Ok(())
}

#[test]
fn parameters_that_do_not_agree_are_refused(rt: HostRuntime) -> Result<(), Fail> {
    let rows: [(&[u8], &[u8]); 3] = [
        (
            b"class ncm16\nsegment 8192\nblock 2048",
            b"setup refused no-fit 8192 2048\n",
        ),
        (b"class ncm16\ndivisor 3", b"setup refused divisor 3 0\n"),
        (b"class ncm16\nalignment 6", b"setup refused alignment 6\n"),
    ];
    for (script, line) in rows {
        assert!(rt; refuses(rt.alloc(), script, 6, line)?);
    }
    Ok(())
}

#[test]
fn what_is_no_script_is_refused(rt: HostRuntime) -> Result<(), Fail> {
    let rows: [(&[u8], &[u8]); 8] = [
        (b"", b"bad script 1 word\n"),
        (b"class wifi", b"bad script 1 word\n"),
        (b"class ecm\npacket 8\nsegment 60", b"bad script 3 order\n"),
        (b"class ecm\nsegment 060", b"bad script 2 number\n"),
        (b"class ecm\nout 0 0200000", b"bad script 2 hex\n"),
        (b"class ecm\npacket 100", b"bad script 2 range\n"),
        (b"class ecm\nat out 0 resume", b"bad script 2 control\n"),
        (
            b"class ecm\nfault out 0 halt\nfault out 0 proto",
            b"bad script 3 fault\n",
        ),
    ];
    for (script, line) in rows {
        assert!(rt; refuses(rt.alloc(), script, 5, line)?);
    }
    Ok(())
}

/// Whether a script is refused at its 257th control.
fn refuses_a_control_more(alloc: Global) -> Result<bool, AllocError> {
    let mut script = Vec::from_slice(alloc, b"class ecm")?;
    for _ in 0..257 {
        script.extend_from_slice(b"\nat out 0 unlink in")?;
    }
    refuses(alloc, &script, 5, b"bad script 258 count\n")
}

#[test]
fn a_script_has_256_controls_at_most(rt: HostRuntime) -> Result<(), Fail> {
    assert!(rt; refuses_a_control_more(rt.alloc())?);
    Ok(())
}

#[test]
fn too_much_input_is_told(rt: HostRuntime) -> Result<(), Fail> {
    let long = zeros(rt.alloc(), 16_777_217)?;
    assert!(rt;
        tells(
            rt.alloc(),
            Some("serial"),
            long,
            &[],
            &[],
            7,
            b"too large\n"
        )?
    );
    Ok(())
}

#[test]
fn faults_and_bad_words_are_told(rt: HostRuntime) -> Result<(), Fail> {
    let alloc = rt.alloc();
    assert!(rt; tells(alloc, None, small(alloc)?, &[], &[], 4, b"bad words\n")?);
    assert!(rt;
        tells(
            alloc,
            Some("serial"),
            small(alloc)?,
            &[0],
            &[],
            2,
            b"read fault\n"
        )?
    );
    assert!(rt; tells(alloc, Some("serial"), small(alloc)?, &[], &[0], 3, b"")?);
    Ok(())
}

/// Whether the source has all of its input left, after no words at all were asked for.
fn leaves_all(alloc: Global) -> Result<bool, AllocError> {
    let mut source = MemSource::make(small(alloc)?, ROOM, Vec::new(alloc));
    let mut sink = MemSink::make(alloc, ROOM, ROOM, Vec::new(alloc))?;
    let status = plain_command(alloc, &[], &mut source, &mut sink);
    let Ok(left) = read_whole(alloc, &mut source, ROOM as u64) else {
        return Ok(false);
    };
    Ok(status == 4 && sink.held() == b"bad words\n".as_slice() && left == small(alloc)?)
}

#[test]
fn bad_words_leave_the_input_unread(rt: HostRuntime) -> Result<(), Fail> {
    assert!(rt; leaves_all(rt.alloc())?);
    Ok(())
}
