//! The lines of a report that have a bound on their length.

ghost use Rattle.std.specs.Prelude.{◌≡◌, ◌+◌, ◌≤◌, ◌∷◌, ◌++◌, [], length, decimal, codes};
ghost use Rattle.un_report.specs.Counts.{left_over};
ghost use Rattle.un_report.specs.Report.{phase_word, block_of, class_line, sizes_line, opening, item, offered, fates, rest, lane_line, frame_head, last_lines};

use crate::tally::Tally;
use un_frame::{Class, Lane, Params, Phase};
use un_text::{Buffer, class_word, lane_word, number, word};

fn phase_word(phase: Phase) -> &'static [u8]
    ensures word { result.now ≡ Rattle.un_report.specs.Report.phase_word phase }
    ensures short { length result.now ≤ 8 }
{
    match phase {
        Phase::Up => b"up",
        Phase::Asleep => b"asleep",
        Phase::Stopping => b"stopping",
        Phase::Leaving => b"leaving",
        Phase::Down => b"down",
        Phase::Away => b"away",
    }
}

/// The largest block, 0 for a class without blocks.
fn block_of(params: &Params) -> u32
    ensures { result ≡ Rattle.un_report.specs.Report.block_of params.now }
{
    match params.class {
        Class::Ecm | Class::Eem | Class::Rndis => 0,
        Class::Ncm16 | Class::Ncm32 => params.block,
    }
}

#[tactic(auto, unfolding(crate::specs::Report::class_line))]
fn push_class(buffer: &mut Buffer, class: Class, params: &Params)
    requires room { length buffer.old ≤ 8100 }
    requires class { params.now.class ≡ class }
    ensures text { buffer.new ≡ buffer.old ++ class_line params.now }
    ensures longer { length buffer.new ≤ length buffer.old + 12 }
{
    buffer.push(b"class ");
    buffer.push(class_word(class));
    buffer.push(b"\n");
}

#[tactic(auto, unfolding(crate::specs::Report::sizes_line))]
fn push_sizes(buffer: &mut Buffer, params: &Params)
    requires { length buffer.old ≤ 8000 }
    ensures { buffer.new ≡ buffer.old ++ sizes_line params.now }
{
    buffer.push(b"sizes");
    number(buffer, params.segment as u64);
    number(buffer, params.packet as u64);
    number(buffer, block_of(params) as u64);
    buffer.push(b"\n");
}

/// The lines before the set-up: at most 128 bytes.
#[tactic(auto, unfolding(crate::specs::Report::opening))]
pub fn push_opening(buffer: &mut Buffer, params: &Params)
    requires { length buffer.old ≤ 7000 }
    ensures { buffer.new ≡ buffer.old ++ opening params.now }
{
    buffer.push(b"report\n");
    push_class(buffer, params.class, params);
    push_sizes(buffer, params);
}

/// A name of at most 9 bytes and a number of 128 bits: at most 51 bytes.
#[tactic(auto, unfolding(crate::specs::Report::item))]
fn counted(buffer: &mut Buffer, name: &[u8], n: u128)
    requires { (length buffer.old + 51 ≤ 8192) × (length name.now ≤ 9) }
    ensures text { buffer.new ≡ buffer.old ++ item name.now n }
    ensures longer { length buffer.new ≤ length buffer.old + 51 }
{
    let mut digits = itoa::Buffer::new();
    word(buffer, name);
    word(buffer, digits.format(n).as_bytes());
}

/// The frames of a lane that were accepted and refused.
#[tactic(auto, unfolding(crate::specs::Report::offered))]
fn push_offered(buffer: &mut Buffer, t: &Tally)
    requires { length buffer.old ≤ 7900 }
    ensures text { buffer.new ≡ buffer.old ++ offered t.now }
    ensures longer { length buffer.new ≤ length buffer.old + 204 }
{
    counted(buffer, b"taken", t.taken as u128);
    counted(buffer, b"short", t.short as u128);
    counted(buffer, b"long", t.long as u128);
    counted(buffer, b"filtered", t.filtered as u128);
}

/// What became of the accepted ones.
#[tactic(auto, unfolding(crate::specs::Report::fates))]
fn push_fates(buffer: &mut Buffer, t: &Tally)
    requires { length buffer.old ≤ 7900 }
    ensures text { buffer.new ≡ buffer.old ++ fates t.now }
    ensures longer { length buffer.new ≤ length buffer.old + 204 }
{
    counted(buffer, b"given", t.given as u128);
    counted(buffer, b"failed", t.failed);
    counted(buffer, b"cut", t.cut);
    counted(buffer, b"dropped", t.dropped);
}

/// The datagrams that are neither delivered nor lost.
fn left_over(t: &Tally) -> u128
    ensures { result ≡ Rattle.un_report.specs.Counts.left_over t.now }
{
    (t.taken as u128)
        .saturating_sub(t.given as u128)
        .saturating_sub(t.failed)
        .saturating_sub(t.cut)
        .saturating_sub(t.dropped)
}

/// What is left, and what was made.
#[tactic(auto, unfolding(crate::specs::Report::rest))]
fn push_rest(buffer: &mut Buffer, t: &Tally, feed: u128)
    requires { length buffer.old ≤ 7900 }
    ensures text { buffer.new ≡ buffer.old ++ rest t.now feed }
    ensures longer { length buffer.new ≤ length buffer.old + 204 }
{
    counted(buffer, b"left", left_over(t));
    counted(buffer, b"feed", feed);
    counted(buffer, b"transfers", t.transfers as u128);
    counted(buffer, b"packets", t.packets);
}

/// The line of a lane's counts: at most 640 bytes.
#[tactic(auto, unfolding(crate::specs::Report::lane_line))]
pub fn push_lane(buffer: &mut Buffer, lane: Lane, t: &Tally, feed: u128)
    requires { length buffer.old ≤ 7400 }
    ensures { buffer.new ≡ buffer.old ++ lane_line lane t.now feed }
{
    buffer.push(b"lane ");
    buffer.push(lane_word(lane));
    push_offered(buffer, t);
    push_fates(buffer, t);
    push_rest(buffer, t, feed);
    buffer.push(b"\n");
}

/// The first words of a delivered datagram's line: at most 31 bytes.
#[tactic(auto, unfolding(crate::specs::Report::frame_head))]
pub fn push_frame(buffer: &mut Buffer, lane: Lane, n: u64)
    requires { length buffer.old ≤ 8128 }
    ensures { buffer.new ≡ buffer.old ++ frame_head lane n }
{
    buffer.push(b"frame ");
    buffer.push(lane_word(lane));
    number(buffer, n);
    buffer.push(b" ");
}

/// The last two lines: at most 64 bytes.
#[tactic(auto, unfolding(crate::specs::Report::last_lines))]
pub fn push_last(buffer: &mut Buffer, phase: Phase)
    requires { length buffer.old ≤ 8064 }
    ensures { buffer.new ≡ buffer.old ++ last_lines phase }
{
    buffer.push(b"phase ");
    buffer.push(phase_word(phase));
    buffer.push(b"\nend\n");
}
