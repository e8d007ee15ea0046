//! Taking a flight, landing it, and what follows.

ghost use Rattle.std.specs.Prelude.{◌≡◌, map, None, Some};
ghost use Rattle.un_endpoint.specs.Bus.{record_of};
ghost use Rattle.un_journal.specs.History.{made_bytes};
ghost use Rattle.un_journal.specs.LaneSteps.{answer_in, clear_set, deliver_next, land_fault, lines_in, post, rx_done, take_queued, tx_done};
ghost use Rattle.un_lane.specs.Answered.{Answered, IsUnchanged, KeepsFlight, UnlessTaken};
ghost use Rattle.un_lane.specs.Calls.{Does, Ready};
ghost use Rattle.un_lane.specs.Phases.{Leaves};
ghost use Rattle.un_lane.specs.Stands.{Stands, serial_of};
ghost use Rattle.un_lane.specs.Way.{Adds, lane_lines};

use crate::path::Path;
use crate::write::write;
use un_endpoint::{Carried, Flight, Landed, RxEnd, Taken, TxEnd};
use un_frame::Planned;
use un_journal::{Answer, Got, Journal, Line};

impl<T: TxEnd + Drop, R: RxEnd + Drop> Path<T, R> {
    /// Takes the first queued transfer and the first posted request as a flight, with the line `flying`; a marked transfer is given up instead, with the line `cut`. The first that applies is the answer: a
    /// flight is out (`Flying`); nothing is queued (`Nothing`); the first is marked (`Cut`); the link sleeps (`Asleep`); the endpoint is halted (`Halted`); nothing is posted (`NoBuffer`).
    pub fn take(&mut self, journal: &mut Journal, asleep: bool) -> Got<Flight>
        requires { Ready (lines_in (take_queued asleep self.old.lane (lane_lines self.old journal.old) (map serial_of self.old.bus.queue))) self.old journal.old }
        ensures lines { Adds journal.old journal.new (lines_in (take_queued asleep self.old.lane (lane_lines self.old journal.old) (map serial_of self.old.bus.queue))) }
        ensures answer { Answered self.new (lane_lines self.old journal.old) (take_queued asleep self.old.lane (lane_lines self.old journal.old) (map serial_of self.old.bus.queue)) result }
        ensures stands { Stands self.new (lane_lines self.new journal.new) }
        ensures leaves { Leaves self.old self.new }
        ensures flight { KeepsFlight result self.old self.new }
        ensures refused { UnlessTaken result (IsUnchanged self.old self.new journal.old journal.new) }
    {
        let lane = self.lane;
        match self.bus.take(asleep) {
            None => Got::Not(Answer::Asleep),
            Some(Taken::Flight(flight)) => {
                let serial = flight.serial();
                write(journal, Line::Flying { lane, serial }, &[]);
                Got::Part(flight)
            }
            Some(Taken::Reaped { request, cause }) => {
                let serial = request.serial();
                write(
                    journal,
                    Line::Cut {
                        lane,
                        serial,
                        cause,
                    },
                    &[],
                );
                self.tx.finish(request);
                Got::Cut
            }
            Some(Taken::Empty) => Got::Not(Answer::Nothing),
            Some(Taken::Flying { serial }) => Got::Not(Answer::Flying { serial }),
            Some(Taken::Halted) => Got::Not(Answer::Halted),
            Some(Taken::NoBuffer) => Got::Not(Answer::NoBuffer),
        }
    }

    /// Ends the flight that is out, carried: where it was marked it is `cut`; else where what is planned fails this attempt it is `retried`, queued before all others, or has `failed` for good; else it has `landed`
    /// and its receive request has arrived. The transmit request is done unless it is queued again, and the receive request of an attempt that is lost goes home. Its bytes are those of its `made` line.
    pub fn land(&mut self, journal: &mut Journal, carried: Carried, planned: Planned) -> Answer
        requires ready { Ready (lines_in (land_fault self.old.lane planned (lane_lines self.old journal.old))) self.old journal.old }
        requires out { self.old.bus.flight ≡ Some (record_of carried) }
        requires bytes { made_bytes (lane_lines self.old journal.old) carried.tx.serial ≡ carried.tx.bytes }
        ensures lines { Adds journal.old journal.new (lines_in (land_fault self.old.lane planned (lane_lines self.old journal.old))) }
        ensures answer { result ≡ answer_in (land_fault self.old.lane planned (lane_lines self.old journal.old)) }
        ensures stands { Stands self.new (lane_lines self.new journal.new) }
        ensures leaves { Leaves self.old self.new }
        ensures flight { self.new.bus.flight ≡ None }
    {
        let serial = carried.serial();
        let lane = self.lane;
        carried.prove_fits();
        match self.bus.land(carried, planned) {
            Landed::Arrived { tx, rx } => {
                write(journal, Line::Landed { lane, serial }, &[]);
                self.tx.finish(tx);
                self.rx.arrive(rx);
            }
            Landed::Retried { rx, attempt } => {
                write(
                    journal,
                    Line::Retried {
                        lane,
                        serial,
                        attempt,
                    },
                    &[],
                );
                self.rx.give_back(rx);
            }
            Landed::Failed { tx, rx, kind } => {
                write(journal, Line::Failed { lane, serial, kind }, &[]);
                self.tx.finish(tx);
                self.rx.give_back(rx);
            }
            Landed::Cut { tx, rx, cause } => {
                write(
                    journal,
                    Line::Cut {
                        lane,
                        serial,
                        cause,
                    },
                    &[],
                );
                self.tx.finish(tx);
                self.rx.give_back(rx);
            }
        }
        Answer::Did
    }

    /// Brings the first done request home, with the line `txhome`. `Nothing` comes exactly where none is done.
    pub fn tx_done(&mut self, journal: &mut Journal) -> Answer
        requires { Ready (lines_in (tx_done self.old.lane (lane_lines self.old journal.old))) self.old journal.old }
        ensures { Does Leaves (tx_done self.old.lane (lane_lines self.old journal.old)) self.old self.new journal.old journal.new result }
    {
        let lane = self.lane;
        let serial = match self.tx.tx_done() {
            Some(serial) => serial,
            None => return Answer::Nothing,
        };
        write(journal, Line::TxHome { lane, serial }, &[]);
        Answer::Did
    }

    /// Makes the first arrived request the current one, with the line `opened`. `Nothing` comes exactly where one is current or none has arrived.
    pub fn rx_done(&mut self, journal: &mut Journal) -> Answer
        requires { Ready (lines_in (rx_done self.old.lane (lane_lines self.old journal.old))) self.old journal.old }
        ensures { Does Leaves (rx_done self.old.lane (lane_lines self.old journal.old)) self.old self.new journal.old journal.new result }
    {
        let lane = self.lane;
        let serial = match self.rx.rx_done() {
            Some(serial) => serial,
            None => return Answer::Nothing,
        };
        write(journal, Line::Opened { lane, serial }, &[]);
        Answer::Did
    }

    /// Gives the next datagram of the current request, with the line `gave`, which copies the part that the receiving end lends. After the last one the request is home. `Nothing` comes exactly where no request
    /// is current.
    pub fn deliver(&mut self, journal: &mut Journal) -> Answer
        requires { Ready (lines_in (deliver_next self.old.tx.params self.old.lane (lane_lines self.old journal.old))) self.old journal.old }
        ensures { Does Leaves (deliver_next self.old.tx.params self.old.lane (lane_lines self.old journal.old)) self.old self.new journal.old journal.new result }
    {
        let lane = self.lane;
        match self.rx.lend() {
            Some((number, bytes)) => {
                write(journal, Line::Gave { lane, number }, bytes);
                self.rx.advance();
                Answer::Did
            }
            None => Answer::Nothing,
        }
    }

    /// Posts a receive request, with the line `posted`, in a phase in which requests are posted. `Nothing` comes exactly where none is home.
    pub fn refill(&mut self, journal: &mut Journal) -> Answer
        requires { Ready (lines_in (post self.old.tx.params self.old.lane (lane_lines self.old journal.old))) self.old journal.old }
        ensures { Does Leaves (post self.old.tx.params self.old.lane (lane_lines self.old journal.old)) self.old self.new journal.old journal.new result }
    {
        let lane = self.lane;
        match self.rx.refill() {
            Some(request) => {
                write(journal, Line::Posted { lane }, &[]);
                match self.bus.post(request) {
                    Ok(()) => Answer::Did,
                    Err(_) => unreachable!(),
                }
            }
            None => Answer::Nothing,
        }
    }

    /// Clears the halt, with the line `cleared`, in a phase in which it may be cleared. `Nothing` comes exactly where the endpoint isn't halted.
    pub fn clear_halt(&mut self, journal: &mut Journal) -> Answer
        requires { Ready (lines_in (clear_set self.old.lane (lane_lines self.old journal.old))) self.old journal.old }
        ensures { Does Leaves (clear_set self.old.lane (lane_lines self.old journal.old)) self.old self.new journal.old journal.new result }
    {
        let lane = self.lane;
        if !self.bus.clear() {
            return Answer::Nothing;
        }
        write(journal, Line::Cleared { lane }, &[]);
        Answer::Did
    }
}
