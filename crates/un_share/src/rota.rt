//! How the workers take turns at being awake: who has nothing to do waits, and who has something to do for another rings it.

use crate::roster::{Change, Roster, only};
use std::hint::spin_loop;
use std::sync::Wait;
use std::sync::atomic::{AtomicU64, Ordering};
use std::time::Duration;

/// What a bell's word says: nobody has rung, nobody has rung and its worker sleeps, it was rung.
const STILL: u64 = 0;

const ASLEEP: u64 = 1;

const RUNG: u64 = 2;

/// How often all workers together wait a millisecond for those who haven't begun.
const MOST_LATE: u64 = 256;

/// What wakes one worker. It fills two cache lines, so that a worker that looks at its own bell disturbs nobody.
#[derive(Drop)]
struct Bell {
    word: AtomicU64,
    _room: [u64; 15],
}

impl Bell {
    fn still() -> Bell {
        Bell {
            word: AtomicU64::new(STILL),
            _room: [0; 15],
        }
    }

    fn ring(&self) {
        if self.word.swap(RUNG, Ordering::SeqCst) == ASLEEP {
            self.word.wake_one();
        }
    }

    // Whether it was rung within so many looks.
    fn rings(&self, looks: u32) -> bool {
        for _ in 0..looks {
            if self.word.load(Ordering::SeqCst) == RUNG {
                return true;
            }
            spin_loop();
        }
        false
    }

    // Sleeps until it is rung, or for so many milliseconds.
    fn sleep<R: Wait>(&self, rt: &R, millis: u64) {
        let before = self
            .word
            .compare_exchange(STILL, ASLEEP, Ordering::SeqCst, Ordering::SeqCst);
        if before.is_ok() {
            self.word
                .park_timeout(rt, ASLEEP as u32, Duration::from_millis(millis));
        }
    }
}

/// What the workers share beside the turn: who waits, who may have got work, and a bell for each.
#[derive(Drop)]
pub(crate) struct Rota {
    roster: Bell,
    late: AtomicU64,
    bells: [Bell; 11],
}

impl Rota {
    /// Nobody has begun.
    pub(crate) fn new() -> Rota {
        Rota {
            roster: Bell::still(),
            late: AtomicU64::new(0),
            bells: [
                Bell::still(),
                Bell::still(),
                Bell::still(),
                Bell::still(),
                Bell::still(),
                Bell::still(),
                Bell::still(),
                Bell::still(),
                Bell::still(),
                Bell::still(),
                Bell::still(),
            ],
        }
    }

    /// Makes a change of the sets, and rings whom it wakes. The sets before and after it.
    pub(crate) fn change<R: Wait>(&self, rt: &R, actor: u32, change: Change) -> (Roster, Roster) {
        for _ in rt.forever() {
            let seen = self.roster.word.load(Ordering::SeqCst);
            let before = Roster::of_word(seen);
            let after = before.after(actor, change);
            let done = self
                .roster
                .word
                .compare_exchange(seen, after.word(), Ordering::SeqCst, Ordering::SeqCst);
            if done.is_ok() {
                self.ring(after.awake & (before.awake ^ u64::MAX), actor);
                return (before, after);
            }
        }
        unreachable!()
    }

    // Rings each of a set but this actor.
    fn ring(&self, set: u64, actor: u32) {
        for other in 0..11 {
            if other != actor && set & only(other) != 0 {
                self.ring_one(other);
            }
        }
    }

    fn ring_one(&self, actor: u32) {
        if let Some(bell) = self.bells.get(actor as usize) {
            bell.ring();
        }
    }

    /// The bell is still from now on.
    pub(crate) fn hush(&self, actor: u32) {
        if let Some(bell) = self.bells.get(actor as usize) {
            bell.word.store(STILL, Ordering::SeqCst);
        }
    }

    /// Waits for the bell: looks so often, and then sleeps for so many milliseconds at most. Whether looking was enough.
    pub(crate) fn wait<R: Wait>(&self, rt: &R, actor: u32, looks: u32, millis: u64) -> bool {
        match self.bells.get(actor as usize) {
            None => false,
            Some(bell) => {
                let is_rung = bell.rings(looks);
                if !is_rung {
                    bell.sleep(rt, millis);
                }
                is_rung
            }
        }
    }

    /// Whether one more wait for those who haven't begun is in order.
    pub(crate) fn is_late(&self) -> bool {
        self.late.load(Ordering::SeqCst) < MOST_LATE
    }

    /// Notes such a wait.
    pub(crate) fn note_late(&self) {
        self.late.fetch_add(1, Ordering::SeqCst);
    }
}
