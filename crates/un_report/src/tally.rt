//! What is counted in a lane.

ghost use Rattle.std.specs.Prelude.{◌≡◌, ◌+◌, ◌*◌, ◌<◌, ◌≤◌, ◌==◌, []};
ghost use Rattle.un_journal.specs.History.{more_if};
ghost use Rattle.un_report.specs.Counts.{is_short, is_long, is_filtered};
ghost use Rattle.un_report.specs.Steps.{is_end, line_counted, end_counted, IsWithin};

use un_frame::Verdict;
use un_journal::Line;
use un_packet::packets;

/// The frames of each of a lane's four senders that were accepted or refused.
#[derive(Clone, Copy, Debug)]
pub struct Consumed {
    pub first: u64,
    pub second: u64,
    pub third: u64,
    pub fourth: u64,
}

/// The counts of a lane's lines. Those that add up numbers of other lines have 128 bits, which no history fills.
#[derive(Clone, Copy, Debug)]
pub struct Tally {
    /// Datagrams accepted.
    pub taken: u64,
    /// Frames refused, for each reason.
    pub short: u64,
    pub long: u64,
    pub filtered: u64,
    /// Datagrams delivered.
    pub given: u64,
    /// Transfers made.
    pub transfers: u64,
    /// Datagrams of failed and of cut transfers, and those dropped from a builder.
    pub failed: u128,
    pub cut: u128,
    pub dropped: u128,
    /// Packets of the transfers that landed.
    pub packets: u128,
    /// Frames accepted or refused, by sender.
    pub consumed: Consumed,
}

/// No line's counts.
pub fn nothing() -> Tally
    ensures { result ≡ Rattle.un_report.specs.Counts.counts 512 [] }
{
    Tally {
        taken: 0,
        short: 0,
        long: 0,
        filtered: 0,
        given: 0,
        transfers: 0,
        failed: 0,
        cut: 0,
        dropped: 0,
        packets: 0,
        consumed: Consumed {
            first: 0,
            second: 0,
            third: 0,
            fourth: 0,
        },
    }
}

/// One more where it is so.
fn more_if(holds: bool, n: u64) -> u64
    requires { n < 18446744073709551615 }
    ensures { result ≡ Rattle.un_journal.specs.History.more_if holds n }
{
    if holds { n + 1 } else { n }
}

/// One frame more of a sender.
fn consume(sender: u32, consumed: Consumed) -> Consumed
    requires first { consumed.first < 18446744073709551615 }
    requires second { consumed.second < 18446744073709551615 }
    requires third { consumed.third < 18446744073709551615 }
    requires fourth { consumed.fourth < 18446744073709551615 }
    ensures { result ≡ Rattle.un_report.specs.Steps.consume sender consumed }
{
    Consumed {
        first: more_if(sender == 0, consumed.first),
        second: more_if(sender == 1, consumed.second),
        third: more_if(sender == 2, consumed.third),
        fourth: more_if(sender == 3, consumed.fourth),
    }
}

fn is_short(why: Verdict) -> bool
    ensures { result ≡ Rattle.un_report.specs.Counts.is_short why }
{
    match why {
        Verdict::Short => true,
        _ => false,
    }
}

fn is_long(why: Verdict) -> bool
    ensures { result ≡ Rattle.un_report.specs.Counts.is_long why }
{
    match why {
        Verdict::Long => true,
        _ => false,
    }
}

fn is_filtered(why: Verdict) -> bool
    ensures { result ≡ Rattle.un_report.specs.Counts.is_filtered why }
{
    match why {
        Verdict::Filtered => true,
        _ => false,
    }
}

/// Whether a line ends a transfer. One that is tried again hasn't ended.
pub fn is_end(line: Line) -> bool
    ensures { result ≡ Rattle.un_report.specs.Steps.is_end line }
{
    match line {
        Line::Landed { .. } | Line::Failed { .. } | Line::Cut { .. } => true,
        _ => false,
    }
}

/// The counts with one line more, after so many.
pub fn count_line(tally: Tally, line: Line, lines: u64) -> Tally
    requires few { lines < 18446744073709551615 }
    requires within { IsWithin lines tally }
    ensures { result ≡ line_counted line tally }
{
    let mut tally = tally;
    match line {
        Line::Took { sender, .. } => {
            tally.taken += 1;
            tally.consumed = consume(sender, tally.consumed);
        }
        Line::Refused { sender, why, .. } => {
            tally.short = more_if(is_short(why), tally.short);
            tally.long = more_if(is_long(why), tally.long);
            tally.filtered = more_if(is_filtered(why), tally.filtered);
            tally.consumed = consume(sender, tally.consumed);
        }
        Line::Made { .. } => tally.transfers += 1,
        Line::Dropped { from, to, .. } => tally.dropped += to.saturating_sub(from) as u128,
        Line::Gave { .. } => tally.given += 1,
        _ => {}
    }
    tally
}

/// The counts with one line more that ends a transfer of so many datagrams and bytes.
pub fn count_end(
    tally: Tally,
    line: Line,
    datagrams: u64,
    bytes: u64,
    packet: u32,
    lines: u64,
) -> Tally
    requires few { lines < 18446744073709551615 }
    requires within { IsWithin lines tally }
    requires packet { 8 ≤ packet }
    ensures { result ≡ end_counted line datagrams bytes packet tally }
{
    let mut tally = tally;
    match line {
        Line::Landed { .. } => tally.packets += packets(bytes, packet) as u128,
        Line::Failed { .. } => tally.failed += datagrams as u128,
        Line::Cut { .. } => tally.cut += datagrams as u128,
        _ => {}
    }
    tally
}
