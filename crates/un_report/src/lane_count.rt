//! A lane's part of a history, line after line.

ghost use Rattle.std.specs.Prelude.{◌≡◌, ◌+◌, ◌<◌, ◌≤◌, ◌∷◌, [], length, take, slice_get};
ghost use Rattle.un_journal.specs.History.{past, made, span, made_bytes};
ghost use Rattle.un_journal.specs.Sound.{IsSound};
ghost use Rattle.un_report.specs.Counts.{span_size};
ghost use Rattle.un_report.specs.Steps.{made_span, IsLaneCount};

use crate::tally::{Tally, count_end, count_line, is_end, nothing};
use un_frame::Lane;
use un_journal::{Journal, Line};

/// What is known of a lane after some lines: its counts, and the place in the history from which to look for the line that makes
/// the next transfer to end.
#[derive(Clone, Copy, Debug)]
pub struct LaneCount {
    pub next: u64,
    pub tally: Tally,
}

/// A transfer that was found: the place after the line that makes it, and how many datagrams and bytes it has.
#[derive(Clone, Copy, Debug)]
pub struct FoundTransfer {
    pub next: u64,
    pub datagrams: u64,
    pub bytes: u64,
}

/// The span of a line that makes a transfer of the lane.
fn made_span(lane: Lane, line: Line) -> Option<(u64, u64)>
    ensures { result ≡ Rattle.un_report.specs.Steps.made_span lane line }
{
    match line {
        Line::Made {
            lane: l,
            from,
            to,
            ..
        } => if lane == l { Some((from, to)) } else { None },
        _ => None,
    }
}

/// The next transfer that the lane makes from a place on, which is before this index.
fn find(journal: &Journal, lane: Lane, from: u64, index: u64) -> FoundTransfer
    requires sound { IsSound (past lane journal.now.history) }
    requires order { from ≤ index }
    requires within { index ≤ length journal.now.history }
    requires some { made (past lane (take from journal.now.history)) < made (past lane (take index journal.now.history)) }
    ensures datagrams { result.datagrams ≡ span_size (span (past lane (take index journal.now.history)) (made (past lane (take from journal.now.history)))) }
    ensures bytes { result.bytes ≡ length (made_bytes (past lane (take index journal.now.history)) (made (past lane (take from journal.now.history)))) }
    ensures ended { made (past lane (take result.next journal.now.history)) ≡ made (past lane (take from journal.now.history)) + 1 }
    ensures order { result.next ≤ index }
{
    for at in from..index {
        let (line, bytes) = journal.entry(at);
        if let Some((begin, end)) = made_span(lane, line) {
            return FoundTransfer {
                next: at + 1,
                datagrams: end.saturating_sub(begin),
                bytes: bytes.len() as u64,
            };
        }
    }
    unreachable!()
}

/// Nothing is known before the first line.
pub fn first() -> LaneCount
    ensures { (result.next ≡ 0) × (result.tally ≡ Rattle.un_report.specs.Counts.counts 512 []) }
{
    LaneCount {
        next: 0,
        tally: nothing(),
    }
}

/// Adds the line of this index to what is known, for packets of so many bytes.
pub fn count(journal: &Journal, lane: Lane, known: &mut LaneCount, packet: u32, index: u64)
    requires sound { IsSound (past lane journal.now.history) }
    requires packet { 8 ≤ packet }
    requires within { index < length journal.now.history }
    requires few { index < 18446744073709551615 }
    requires before { IsLaneCount packet lane journal.now.history index known.old }
    ensures { IsLaneCount packet lane journal.now.history (index + 1) known.new }
{
    journal.prove_entries();
    let line = journal.line(index);
    if !line.concerns(lane) {
        return;
    }
    if !is_end(line) {
        known.tally = count_line(known.tally, line, index);
        return;
    }
    let found = find(journal, lane, known.next, index);
    known.next = found.next;
    known.tally = count_end(
        known.tally,
        line,
        found.datagrams,
        found.bytes,
        packet,
        index,
    );
}
