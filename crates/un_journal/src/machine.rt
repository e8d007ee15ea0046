//! A machine that can be worked on by turns, as contracts see it: a script that stays, a history that grows, and the flights
//! that are out of it.

ghost use Rattle.std.specs.Prelude.{◌≡◌, ◌<◌, ◌++◌, ℕ, true, List, Bool, []};
ghost use Rattle.un_frame.specs.declared.params.Lane.{Lane};
ghost use Rattle.un_journal.specs.declared.got.Got.{Got};
ghost use Rattle.un_journal.specs.declared.machine.FlightKey.{FlightKey};
ghost use Rattle.un_journal.specs.declared.machine.Transfer.{Transfer};
ghost use Rattle.un_journal.specs.Flights.{times, Takes, Loses};
ghost use Rattle.un_journal.specs.History.{History};

use crate::got::Got;
use std::collections::LinkedList;
use un_frame::Lane;

/// A transfer as plain data: its lane, its serial, its span (`from` inclusive, `to` exclusive, in datagrams) and its bytes. No
/// value of it is made: contracts alone speak of it.
pub struct Transfer {
    pub lane: Lane,
    pub serial: u64,
    pub from: u64,
    pub to: u64,
    pub bytes: LinkedList<u8>,
}

/// A flight that is out of a machine, as plain data: its transfer, and the numbers and capacities (in bytes) of its transmit and
/// its receive request. No value of it is made: contracts alone speak of it.
pub struct FlightKey {
    pub transfer: Transfer,
    pub tx: u32,
    pub tx_capacity: u32,
    pub rx: u32,
    pub rx_capacity: u32,
}

/// A machine whose every call answers and writes what its script, its history and the call say, and nothing else. The numbers and capacities of a flight's requests alone are the machine's choice.
pub trait Machine: Drop {
    /// What can be done to it.
    type Act;

    /// What it answers.
    type Ans;

    /// A flight that was taken out of it. It is a moved value that needs no `Drop`: who knows it by this trait alone can't lose it.
    type Part;

    /// A flight whose bytes were copied. It is a moved value that needs no `Drop` either.
    type Done;

    /// The type of its script, which contracts see as plain data.
    type Script;

    // No call changes it.
    ghost script: { Self → Self.Script };

    // Each call extends it, perhaps by nothing.
    ghost history: { Self → History };

    // The flights that are out.
    ghost flights: { Self → List FlightKey };

    // The flight that a part is, and that a carried part is.
    ghost flight_of: { Self.Part → FlightKey };

    ghost carried_flight_of: { Self.Done → FlightKey };

    // What each call answers and which lines it adds, after a history.
    ghost answer: { Self.Script → History → Self.Act → Self.Ans };

    ghost lines: { Self.Script → History → Self.Act → History };

    ghost taken: { Self.Script → History → Lane → Got Transfer };

    ghost taken_lines: { Self.Script → History → Lane → History };

    ghost landed: { Self.Script → History → Transfer → Self.Ans };

    ghost landed_lines: { Self.Script → History → Transfer → History };

    ghost is_finished: { Self.Script → History → Bool };

    /// Performs an action. No flight comes or goes by it.
    fn step(&mut self, action: Self::Act) -> Self::Ans
        ensures answer { result ≡ answer (script self.old) (history self.old) action }
        ensures script { script self.new ≡ script self.old }
        ensures history { history self.new ≡ history self.old ++ lines (script self.old) (history self.old) action }
        ensures flights { flights self.new ≡ flights self.old };

    /// Tries to take a flight of a lane out of the machine. It is then one of the flights that are out, and no equal one was.
    fn take_part(&mut self, lane: Lane) -> Got<Self::Part>
        ensures taken { Takes flight_of result (taken (script self.old) (history self.old) lane) (flights self.old) (flights self.new) }
        ensures script { script self.new ≡ script self.old }
        ensures history { history self.new ≡ history self.old ++ taken_lines (script self.old) (history self.old) lane };

    /// Copies a flight's bytes. This takes no machine.
    fn carry(part: Self::Part) -> Self::Done
        ensures flight { carried_flight_of result ≡ flight_of part };

    /// Brings a flight back that is out of this machine. It is then out no more.
    fn land_part(&mut self, done: Self::Done) -> Self::Ans
        requires { 0 < times (carried_flight_of done) (flights self.old) }
        ensures answer { result ≡ landed (script self.old) (history self.old) (carried_flight_of done).transfer }
        ensures script { script self.new ≡ script self.old }
        ensures history { history self.new ≡ history self.old ++ landed_lines (script self.old) (history self.old) (carried_flight_of done).transfer }
        ensures flights { Loses (carried_flight_of done) (flights self.old) (flights self.new) };

    /// Whether no work is left. No flight is out then.
    fn finished(&self) -> bool
        ensures answer { result ≡ is_finished (script self.now) (history self.now) }
        ensures none_out { result ≡ true → flights self.now ≡ [] };
}
