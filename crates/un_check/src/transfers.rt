//! What a checker keeps of a lane's transfers.

ghost use Rattle.std.specs.Prelude.{◌≡◌, ◌+◌, ◌-◌, ◌<◌, length, Some, IfErr, IfOk, slice_get};
ghost use Rattle.un_check.specs.TransferLines.{
  GoesOn,
  after,
  clear_line,
  ends_next,
  first_waiting,
  halts,
  land_line,
  marked_at,
  next_mark,
  planned_line,
  take_line,
  tx_done_line,
  unlink_line,
  unmarked_serial,
  waiting_serial,
};
ghost use Rattle.un_check.specs.Transfers.{AreCounts, no_transfers, span_in};

use std::alloc::{AllocError, Global};
use std::marker::Model;
use un_frame::{FaultKind, Lane, Planned};
use un_journal::Line;

/// A transfer of a lane, as a checker keeps it.
#[derive(Clone, Copy, Debug)]
pub struct Transfer {
    /// The number of its first datagram.
    pub from: u64,
    /// One more than the number of its last datagram.
    pub to: u64,
    /// The index of the control that marked it, in the script, from 0; none where none did.
    pub mark: Option<u32>,
}

/// A lane's transfers as its lines leave them: each by its serial, how many are over, whether the next one flies and how many of its
/// attempts failed, how many transmit requests came home, which transfers are marked, and whether the endpoint is halted. `add` takes
/// the next line; the other calls read. Each takes constant time.
#[derive(Drop)]
pub struct Transfers {
    all: Vec<Transfer>,
    over: u64,
    is_out: bool,
    tries: u32,
    home: u64,
    marked: u64,
    is_halted: bool,
}

impl Model for Transfers {
    ghost use Rattle.un_check.specs.Transfers.{AreCounts, Transfers as Kept};

    ghost Value = { Kept };

    ghost use Rattle.un_check.specs.TransfersInside.{transfers_in};

    ghost view = { transfers_in };

    ghost invariant = { λ t. AreCounts (transfers_in t) };
}

impl Transfers {
    /// The transfers before the lane's first line: none.
    pub fn make(alloc: Global) -> Transfers
        ensures { result ≡ no_transfers }
    {
        Transfers {
            all: Vec::new(alloc),
            over: 0,
            is_out: false,
            tries: 0,
            home: 0,
            marked: 0,
            is_halted: false,
        }
    }

    /// Adds a line of the lane, which has to go on from these transfers. An error is want of memory, which a `Made` line alone takes;
    /// nothing is changed then.
    pub fn add(&mut self, line: Line) -> Result<(), AllocError>
        requires { GoesOn line self.old }
        ensures ok { IfOk result (λ _. self.new ≡ after line self.old) }
        ensures err { IfErr result (λ _. self.new ≡ self.old) }
    {
        // What the counts always are is known from here on: one that flies was made.
        let _ = &self.is_out;
        match line {
            Line::Made { from, to, .. } => self.all.push(Transfer {
                from,
                to,
                mark: None,
            })?,
            Line::Flying { .. } => self.is_out = true,
            Line::Landed { .. } => self.end_next(),
            Line::Failed { kind, .. } => self.fail_next(kind),
            Line::Retried { .. } => {
                self.is_out = false;
                self.tries += 1;
            }
            Line::Marked { serial, cause, .. } => self.mark(serial, cause),
            Line::Cut { .. } => self.end_next(),
            Line::TxHome { .. } => self.home += 1,
            Line::Cleared { .. } => self.is_halted = false,
            Line::Settled { .. } => self.is_halted = false,
            _ => {}
        }
        Ok(())
    }

    // The transfer that is next is over.
    fn end_next(&mut self)
        requires { self.old.over < length self.old.all }
        ensures { self.new ≡ ends_next self.old }
    {
        self.over += 1;
        self.is_out = false;
        self.tries = 0;
    }

    // It is over by a planned fault, which may halt the endpoint.
    fn fail_next(&mut self, kind: FaultKind)
        requires { self.old.over < length self.old.all }
        ensures { self.new ≡ record (ends_next self.old) { is_halted = halts kind self.old.is_halted } }
    {
        self.end_next();
        match kind {
            FaultKind::Halt => self.is_halted = true,
            FaultKind::Proto => {}
        }
    }

    // A control marks a transfer.
    fn mark(&mut self, serial: u64, cause: u32)
        requires { serial < length self.old.all }
        ensures { self.new ≡ record self.old { all = marked_at serial cause self.old.all; marked = serial + 1 } }
    {
        let transfer = &mut self.all[serial as usize];
        transfer.mark = Some(cause);
        self.marked = serial + 1;
    }

    /// The line that a take from the endpoint would write: the first queued transfer flies, or is cut where it is marked. `asleep`
    /// says whether the link sleeps, `is_deferring` whether the lane defers its transfers, and `posted` how many receive requests are
    /// posted.
    pub fn take_line(
        &self,
        asleep: bool,
        is_deferring: bool,
        lane: Lane,
        posted: u64,
    ) -> Option<Line>
        ensures { result ≡ take_line asleep is_deferring lane posted self.now }
    {
        let serial = self.over;
        if self.is_out || is_deferring || serial >= self.made() {
            return None;
        }
        if let Some(cause) = self.next_mark() {
            return Some(Line::Cut {
                lane,
                serial,
                cause,
            });
        }
        if asleep || self.is_halted || posted == 0 {
            return None;
        }
        Some(Line::Flying { lane, serial })
    }

    /// The line that the landing of the flight would write, by what the script plans for its transfer: it lands, fails or is tried
    /// again, or is cut where it is marked. There is none where nothing flies.
    pub fn land_line(&self, lane: Lane, planned: Planned) -> Option<Line>
        ensures line { result ≡ land_line lane planned self.now }
        ensures counts { AreCounts self.now }
    {
        if !self.is_out {
            return None;
        }
        let serial = self.over;
        match self.next_mark() {
            Some(cause) => Some(Line::Cut {
                lane,
                serial,
                cause,
            }),
            None => self.planned_line(lane, planned),
        }
    }

    // The line of a landing by what is planned, where no control marked the transfer.
    fn planned_line(&self, lane: Lane, planned: Planned) -> Option<Line>
        ensures { result ≡ planned_line lane planned self.now }
    {
        let serial = self.over;
        match planned {
            Planned::Clean => Some(Line::Landed { lane, serial }),
            Planned::Proto { times } if times <= self.tries => Some(Line::Landed { lane, serial }),
            Planned::Proto { .. } if self.tries < 3 => Some(Line::Retried {
                lane,
                serial,
                attempt: self.tries + 1,
            }),
            Planned::Proto { .. } => Some(Line::Failed {
                lane,
                serial,
                kind: FaultKind::Proto,
            }),
            Planned::Halt => Some(Line::Failed {
                lane,
                serial,
                kind: FaultKind::Halt,
            }),
        }
    }

    /// The line that the transmitting end's done list would write: the next transmit request comes home, once its transfer is over.
    pub fn tx_done_line(&self, lane: Lane) -> Option<Line>
        ensures { result ≡ tx_done_line lane self.now }
    {
        if self.home >= self.over {
            return None;
        }
        Some(Line::TxHome {
            lane,
            serial: self.home,
        })
    }

    /// The line that a step of a stop would write: the next transfer that it marks (`unmarked`) is marked by control `cause`, and
    /// where none is left a posted receive request comes home. `posted` is how many receive requests are posted.
    pub fn unlink_line(
        &self,
        is_deferring: bool,
        lane: Lane,
        cause: u32,
        posted: u64,
    ) -> Option<Line>
        ensures line { result ≡ unlink_line is_deferring lane cause posted self.now }
        ensures counts { AreCounts self.now }
    {
        if let Some(serial) = self.unmarked(is_deferring) {
            return Some(Line::Marked {
                lane,
                serial,
                cause,
            });
        }
        if posted == 0 {
            return None;
        }
        Some(Line::Recalled { lane })
    }

    /// The line that the clearing of a halt would write, where the endpoint is halted.
    pub fn clear_line(&self, lane: Lane) -> Option<Line>
        ensures { result ≡ clear_line lane self.now }
    {
        if !self.is_halted {
            return None;
        }
        Some(Line::Cleared { lane })
    }

    /// How many transfers were made: their serials are below it.
    pub fn made(&self) -> u64
        ensures { result ≡ length self.now.all }
    {
        self.all.len() as u64
    }

    /// How many transfers are over: those whose serials are below it.
    pub fn over(&self) -> u64
        ensures { result ≡ self.now.over }
    {
        self.over
    }

    /// How many transmit requests came home.
    pub fn home(&self) -> u64
        ensures { result ≡ self.now.home }
    {
        self.home
    }

    /// Whether the transfer that is next flies.
    pub fn is_out(&self) -> bool
        ensures { result ≡ self.now.is_out }
    {
        self.is_out
    }

    /// Whether the lane's endpoint is halted.
    pub fn is_halted(&self) -> bool
        ensures { result ≡ self.now.is_halted }
    {
        self.is_halted
    }

    /// The serial of the first transfer that waits: it neither flies nor is over.
    pub fn next_waiting(&self) -> Option<u64>
        ensures { result ≡ waiting_serial self.now }
    {
        let first = self.over + u64::from(self.is_out);
        (first < self.made()).then_some(first)
    }

    /// How many transfers wait.
    pub fn waiting_count(&self) -> u64
        ensures { result ≡ length self.now.all - first_waiting self.now }
    {
        self.made() - self.over - u64::from(self.is_out)
    }

    /// The serial of the transfer that a stop would mark next, by whether the lane defers its transfers: then it is the one that
    /// flies alone.
    pub fn unmarked(&self, is_deferring: bool) -> Option<u64>
        ensures serial { result ≡ unmarked_serial is_deferring self.now }
        ensures counts { AreCounts self.now }
    {
        if is_deferring {
            return (self.is_out && self.marked <= self.over).then_some(self.over);
        }
        let first = self.over.max(self.marked);
        (first < self.made()).then_some(first)
    }

    /// The first datagram of a transfer, and one more than its last; none where no such transfer was made.
    pub fn span(&self, serial: u64) -> Option<(u64, u64)>
        ensures { result ≡ span_in (slice_get self.now.all serial) }
    {
        let transfer = self.all.get(serial as usize)?;
        Some((transfer.from, transfer.to))
    }

    // The control that marked the first transfer that isn't over.
    fn next_mark(&self) -> Option<u32>
        ensures { result ≡ next_mark self.now }
    {
        self.all.get(self.over as usize)?.mark
    }
}
