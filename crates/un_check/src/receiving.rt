//! What a checker keeps of a lane's receiving end.

ghost use Rattle.std.specs.Prelude.{◌≡◌, ◌+◌, ◌<◌, [], None, IfErr, IfOk};
ghost use Rattle.un_check.specs.ReceivingLines.{GoesOn, after, deliver_number, gives, next_of, post_line, rx_done_line};

use crate::reading::Reading;
use std::alloc::{AllocError, Global};
use std::collections::VecDeque;
use std::marker::Model;
use un_frame::Lane;
use un_journal::Line;

/// After one more datagram: the reading that is left, if any.
fn step(reading: Reading) -> Option<Reading>
    ensures { result ≡ next_of reading }
{
    if reading.to.saturating_sub(reading.next) <= 1 {
        return None;
    }
    Some(Reading {
        serial: reading.serial,
        next: reading.next + 1,
        to: reading.to,
    })
}

/// A lane's receiving end as its lines leave it: how many requests are posted and how many are at home, the serials of the transfers
/// that landed and wait to be opened, and the transfer that is read. `add` takes the next line; the other calls read. Each takes
/// constant time.
#[derive(Drop)]
pub struct Receiving {
    posted: u64,
    home: u64,
    landed: VecDeque<u64>,
    reading: Option<Reading>,
}

impl Model for Receiving {
    ghost use Rattle.un_check.specs.Receiving.{Receiving as Kept};

    ghost Value = { Kept };

    ghost view = { λ r. record { posted = r.posted; home = r.home; landed = r.landed.items; reading = r.reading } };
}

impl Receiving {
    /// The receiving end before the first line: all of so many requests are at home.
    pub fn make(alloc: Global, size: u32) -> Receiving
        ensures { result ≡ record { posted = 0; home = size; landed = []; reading = None } }
    {
        Receiving {
            posted: 0,
            home: u64::from(size),
            landed: VecDeque::new(alloc),
            reading: None,
        }
    }

    /// Adds a line of the lane, which has to be this end's next. `is_out` says whether a transfer flew before it, and `span` is the
    /// first datagram and one more than the last of the transfer that an `Opened` line names; other lines don't read it. An error
    /// is want of memory, which a `Landed` line alone takes; nothing is changed then.
    pub fn add(&mut self, is_out: bool, span: (u64, u64), line: Line) -> Result<(), AllocError>
        requires next { GoesOn line self.old }
        requires room { self.old.posted + self.old.home < 18446744073709551615 }
        ensures ok { IfOk result (λ _. self.new ≡ after is_out span line self.old) }
        ensures err { IfErr result (λ _. self.new ≡ self.old) }
    {
        match line {
            Line::Posted { .. } => {
                self.home -= 1;
                self.posted += 1;
            }
            Line::Recalled { .. } => {
                self.posted -= 1;
                self.home += 1;
            }
            Line::Flying { .. } => self.posted -= 1,
            Line::Landed { serial, .. } => self.landed.push_back(serial)?,
            Line::Failed { .. } => self.home += 1,
            Line::Retried { .. } => self.home += 1,
            Line::Cut { .. } => self.home += u64::from(is_out),
            Line::Opened { serial, .. } => {
                self.landed.pop_front();
                self.reading = Some(Reading {
                    serial,
                    next: span.0,
                    to: span.1,
                });
            }
            Line::Gave { .. } => self.give(),
            _ => {}
        }
        Ok(())
    }

    // A datagram of the transfer that is read is given, and its request comes home with the last.
    fn give(&mut self)
        requires { self.old.posted + self.old.home < 18446744073709551615 }
        ensures { self.new ≡ gives self.old self.old.reading }
    {
        let Some(reading) = self.reading else {
            return;
        };
        self.reading = step(reading);
        if self.reading.is_none() {
            self.home += 1;
        }
    }

    /// The line that the step of the receiving end's done list would write: the first transfer that landed is opened, once none is
    /// read.
    pub fn rx_done_line(&self, lane: Lane) -> Option<Line>
        ensures { result ≡ rx_done_line lane self.now self.now.reading }
    {
        if self.reading.is_some() {
            return None;
        }
        let serial = *self.landed.front()?;
        Some(Line::Opened { lane, serial })
    }

    /// The serial of the transfer that is read and the number of its next datagram, which a delivery would give.
    pub fn deliver_number(&self) -> Option<(u64, u64)>
        ensures { result ≡ deliver_number self.now.reading }
    {
        let reading = self.reading?;
        Some((reading.serial, reading.next))
    }

    /// The line that a refill would write, in a phase in which requests are posted.
    pub fn post_line(&self, lane: Lane) -> Option<Line>
        ensures { result ≡ post_line lane self.now }
    {
        if self.home == 0 {
            return None;
        }
        Some(Line::Posted { lane })
    }

    /// How many receive requests are posted.
    pub fn posted(&self) -> u64
        ensures { result ≡ self.now.posted }
    {
        self.posted
    }

    /// How many receive requests are at home.
    pub fn home(&self) -> u64
        ensures { result ≡ self.now.home }
    {
        self.home
    }
}
