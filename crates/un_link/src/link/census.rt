//! Where a datagram stands.

ghost use Rattle.std.specs.Prelude.{◌≡◌, ◌<◌, ◌≤◌, ◌+◌, ◌-◌};
ghost use Rattle.un_journal.specs.Census.{NamesPlace, census, nowhere, total};
ghost use Rattle.un_journal.specs.History.{gave, past, taken};
ghost use Rattle.un_link.specs.Counts.{gives, in_path};

use crate::link::LinkOver;
use un_endpoint::{RxEnd, TxEnd};
use un_facts::count;
use un_frame::Lane;
use un_journal::{Census, Journal, Line};

impl<A: TxEnd + Drop, B: RxEnd + Drop, C: TxEnd + Drop, D: RxEnd + Drop> LinkOver<A, B, C, D> {
    /// How often the number of a datagram stands in each place of its lane. For an accepted datagram the counts add up to 1 and name its place; for any other number each is 0. Whether it was given is looked up in
    /// the history's lines, so this takes time for each of them; it is no step of a link.
    pub fn census(&self, lane: Lane, number: u64) -> Census
        ensures counts { result ≡ census self.now.script self.now.log.history lane number }
        ensures adds_up { number < taken (past lane self.now.log.history) → total result ≡ 1 }
        ensures names { number < taken (past lane self.now.log.history) → NamesPlace result (past lane self.now.log.history) number }
        ensures nowhere { taken (past lane self.now.log.history) ≤ number → result ≡ nowhere }
    {
        let journal = &self.shared.journal;
        let census = self.path_census(lane, number);
        if number >= self.accepted(lane) {
            return census;
        }
        let given = count(was_given(journal, lane, number));
        filled(census, given)
    }

    /// The census of the path alone: nothing is given or lost.
    fn path_census(&self, lane: Lane, number: u64) -> Census
        ensures { result ≡ record (census self.now.script self.now.log.history lane number) { given = 0; lost = 0 } }
    {
        match lane {
            Lane::Outward => self.out.path.census(number),
            Lane::Inward => self.inward.path.census(number),
        }
    }
}

/// The census of an accepted datagram: where it neither stands in the path nor was given, it was lost.
fn filled(census: Census, given: u32) -> Census
    requires { in_path census + given ≤ 1 }
    ensures { result ≡ record census { given = given; lost = 1 - (in_path census + given) } }
{
    let held = census.builder
        + census.remainder
        + census.deferred
        + census.queued
        + census.flying
        + census.arrived
        + census.current;
    Census {
        given,
        lost: 1 - (held + given),
        ..census
    }
}

/// Whether a line of the history gave the datagram.
fn was_given(journal: &Journal, lane: Lane, number: u64) -> bool
    ensures { result ≡ gave (past lane journal.now.history) number }
{
    for index in 0..journal.len() {
        if gives(journal.line(index), lane, number) {
            return true;
        }
    }
    false
}

/// Whether the line gives the datagram.
fn gives(line: Line, lane: Lane, number: u64) -> bool
    ensures { result ≡ gives lane number line }
{
    match line {
        Line::Gave {
            lane: given,
            number: next,
        } => given == lane && next == number,
        _ => false,
    }
}
