//! What one worker notes between its holds, and when it waits.

use crate::roles::{round_of, stirs};
use crate::roster::{Change, only};
use crate::rota::Rota;
use std::sync::Wait;
use un_journal::{Action, Answer};

/// The looks at the bell before a sleep: at first, at least and at most. A look took some 50 ns where
/// this was tried out.
const FIRST_LOOKS: u32 = 4000;

const LEAST_LOOKS: u32 = 16;

const MOST_LOOKS: u32 = 4000;

/// Each wait of this number looks as long as any: where all workers sleep early each ring comes late, and none would find out that it
/// needn't.
const PROBE: u32 = 16;

/// The milliseconds of a sleep, at least and at most.
const LEAST_NAP: u64 = 1;

const MOST_NAP: u64 = 16;

/// A worker's own part of the rota.
#[derive(Drop)]
pub(crate) struct Shift<'a> {
    rota: &'a Rota,
    actor: u32,
    /// The holds in a row that found nothing to do, and how many of them were of an empty feed.
    idle: u64,
    spent: u64,
    /// Who may have got work by this worker since it last told so.
    stirred: u64,
    /// The waits so far.
    waits: u32,
    looks: u32,
    nap: u64,
}

impl<'a> Shift<'a> {
    /// The worker begins.
    pub(crate) fn begin<R: Wait>(rt: &R, rota: &'a Rota, actor: u32) -> Shift<'a> {
        rota.change(rt, actor, Change::Come);
        Shift {
            rota,
            actor,
            idle: 0,
            spent: 0,
            stirred: 0,
            waits: 0,
            looks: FIRST_LOOKS,
            nap: LEAST_NAP,
        }
    }

    /// A hold did something by this action.
    pub(crate) fn did(&mut self, action: Action) {
        self.idle = 0;
        self.spent = 0;
        self.stirred |= stirs(action);
    }

    /// A hold did nothing, for this reason. After a whole round of them the worker waits.
    pub(crate) fn found<R: Wait>(&mut self, rt: &R, answer: Answer) {
        if answer == Answer::Spent {
            self.spent = self.spent.wrapping_add(1);
        }
        self.idle = self.idle.wrapping_add(1);
        if self.idle >= round_of(self.actor) {
            self.rest(rt);
            self.idle = 0;
            self.spent = 0;
        }
    }

    // Tells what it did, and waits unless there is work or nobody else is to be waited for.
    fn rest<R: Wait>(&mut self, rt: &R) {
        let me = only(self.actor);
        let spent = if self.spent >= 2 { me } else { 0 };
        self.rota.hush(self.actor);
        let (_, after) = self.rota.change(
            rt,
            self.actor,
            Change::Rest {
                stirred: self.stirred & (me ^ u64::MAX),
                spent,
                late: self.rota.is_late(),
            },
        );
        self.stirred = 0;
        if after.awake & me != 0 {
            return;
        }
        if after.awake == 0 {
            self.rota.note_late();
        }
        self.wait(rt, after.awake == 0);
    }

    fn wait<R: Wait>(&mut self, rt: &R, is_late: bool) {
        let nap = if is_late { LEAST_NAP } else { self.nap };
        let looks = self.next_looks();
        let is_rung = self.rota.wait(rt, self.actor, looks, nap);
        let (before, _) = self.rota.change(rt, self.actor, Change::Wake);
        self.looks = if is_rung {
            looks.saturating_mul(2).min(MOST_LOOKS)
        } else {
            (self.looks / 2).max(LEAST_LOOKS)
        };
        self.nap = if before.awake & only(self.actor) != 0 {
            LEAST_NAP
        } else {
            self.nap.saturating_mul(2).min(MOST_NAP)
        };
    }

    // How often the next wait looks.
    fn next_looks(&mut self) -> u32 {
        self.waits = self.waits.wrapping_add(1);
        if self.waits % PROBE == 0 {
            MOST_LOOKS
        } else {
            self.looks
        }
    }

    /// The worker ends.
    pub(crate) fn end<R: Wait>(self, rt: &R) {
        self.rota.change(rt, self.actor, Change::Leave);
    }
}
