//! One pass over a history.

ghost use Rattle.std.specs.Prelude.{◌≡◌, ◌+◌, ◌-◌, ◌<◌, ◌≤◌, length, slice_get};
ghost use Rattle.un_frame.specs.declared.params.Lane.TheVariants.{Outward, Inward};
ghost use Rattle.un_journal.specs.History.{past};
ghost use Rattle.un_journal.specs.Lookup.{phase_of, after_control};
ghost use Rattle.un_journal.specs.Fits.{Legal};
ghost use Rattle.un_journal.specs.Script.{frames_of};
ghost use Rattle.un_report.specs.Counts.{counts, unread, fed};
ghost use Rattle.un_report.specs.Steps.{phase_after_line};

use crate::lane_count::{count, first};
use crate::tally::{Consumed, Tally};
use un_frame::{Lane, Phase};
use un_journal::{Due, Journal, Line};
use un_script::{Script, phase_after, phase_settled};

/// The counts of both lanes, and the phase at the end.
#[derive(Clone, Copy, Debug)]
pub struct Survey {
    pub outward: Tally,
    pub inward: Tally,
    pub phase: Phase,
}

/// The phase after a control of the script, where it has one.
fn after_control(due: Option<Due>, phase: Phase) -> Phase
    ensures { result ≡ Rattle.un_journal.specs.Lookup.after_control due phase }
{
    match due {
        Some(due) => phase_after(due.control, phase),
        None => phase,
    }
}

/// The phase after one line more.
fn after_line(script: &Script, phase: Phase, line: Line) -> Phase
    ensures { result ≡ phase_after_line script.now.controls line phase }
{
    match line {
        Line::Control { index, .. } => after_control(script.control(index), phase),
        Line::Settled { .. } => phase_settled(phase),
        _ => phase,
    }
}

/// Counts the lines of both lanes, for packets of so many bytes, at least 8, and follows the phase. The history is a legal one of the
/// script.
pub fn go_over(script: &Script, journal: &Journal, packet: u32) -> Survey
    requires legal { Legal script.now journal.now.history }
    requires packet { 8 ≤ packet }
    ensures outward { result.outward ≡ counts packet (past Outward journal.now.history) }
    ensures inward { result.inward ≡ counts packet (past Inward journal.now.history) }
    ensures phase { result.phase ≡ phase_of script.now journal.now.history }
{
    let mut outward = first();
    let mut inward = first();
    let mut phase = Phase::Up;
    for index in 0..journal.len() {
        count(journal, Lane::Outward, &mut outward, packet, index);
        count(journal, Lane::Inward, &mut inward, packet, index);
        phase = after_line(script, phase, journal.line(index));
    }
    Survey {
        outward: outward.tally,
        inward: inward.tally,
        phase,
    }
}

/// How many frames of a sender come after so many.
fn unread(script: &Script, lane: Lane, sender: u32, done: u64) -> u64
    ensures { result ≡ Rattle.un_report.specs.Counts.unread script.now lane sender done }
{
    let end = u64::from(script.frame_count());
    let mut index = done;
    while index < end {
        match script.frame(lane, sender, index) {
            Some(_) => index += 1,
            None => return index - done,
        }
    }
    index - done
}

/// How many frames of a lane's senders weren't consumed.
pub fn fed(script: &Script, lane: Lane, done: Consumed) -> u128
    ensures { result ≡ Rattle.un_report.specs.Counts.fed script.now lane done }
{
    unread(script, lane, 0, done.first) as u128
        + unread(script, lane, 1, done.second) as u128
        + unread(script, lane, 2, done.third) as u128
        + unread(script, lane, 3, done.fourth) as u128
}
