//! Gates that put the workers' holds in an order, for tests. Every wait ends after so many looks, so a test always ends.

use std::sync::Wait;
use std::sync::atomic::{AtomicU64, Ordering};
use std::thread;
use un_share::Gate;

/// The most looks of a wait. A look is one load of a number that the gate's calls raise.
const MOST_LOOKS: u64 = 100_000_000;

/// Waits until the number is at least this.
fn wait_for(number: &AtomicU64, least: u64) {
    for _ in 0..MOST_LOOKS {
        if number.load(Ordering::SeqCst) >= least {
            return;
        }
        thread::yield_now();
    }
}

/// How many turns the workers of one lane have reached, and how often a flight of it was in hand.
#[derive(Drop)]
pub(crate) struct Reached {
    sender: AtomicU64,
    timer: AtomicU64,
    completion: AtomicU64,
    bottom_half: AtomicU64,
    holding: AtomicU64,
}

impl Reached {
    /// Nothing was reached.
    pub(crate) fn none() -> Reached {
        Reached {
            sender: AtomicU64::new(0),
            timer: AtomicU64::new(0),
            completion: AtomicU64::new(0),
            bottom_half: AtomicU64::new(0),
            holding: AtomicU64::new(0),
        }
    }

    /// Notes that a worker has reached a turn.
    fn note(&self, actor: u32, turn: u64) {
        let reached = turn.wrapping_add(1);
        match actor {
            0 => self.sender.store(reached, Ordering::SeqCst),
            4 => self.timer.store(reached, Ordering::SeqCst),
            6 => self.completion.store(reached, Ordering::SeqCst),
            9 => self.bottom_half.store(reached, Ordering::SeqCst),
            _ => {}
        }
    }

    /// Notes that a completion has a flight in hand.
    fn note_holding(&self, actor: u32) {
        if actor == 6 {
            self.holding.fetch_add(1, Ordering::SeqCst);
        }
    }

    /// Waits until two frames were offered outward, and the gadget has posted a request.
    fn wait_for_two(&self) {
        wait_for(&self.sender, 4);
        wait_for(&self.bottom_half, 5);
    }
}

/// What stands for a number of calls before it is noted.
const NOT_NOTED: u64 = u64::MAX;

/// The first flight takes off after two offers, and the third comes after its landing. Notes how often the outward completion had a flight in hand before each of the two turns after its first.
#[derive(Drop)]
pub(crate) struct LandsFirst {
    reached: Reached,
    before_second: AtomicU64,
    before_third: AtomicU64,
}

impl LandsFirst {
    /// Nothing was reached.
    pub(crate) fn none() -> LandsFirst {
        LandsFirst {
            reached: Reached::none(),
            before_second: AtomicU64::new(NOT_NOTED),
            before_third: AtomicU64::new(NOT_NOTED),
        }
    }

    /// How often the outward completion had a flight in hand when its second turn first came, and when its third did. A flight that lands in a turn of its own and is copied before it makes both 1.
    pub(crate) fn held_before(&self) -> (u64, u64) {
        (
            self.before_second.load(Ordering::SeqCst),
            self.before_third.load(Ordering::SeqCst),
        )
    }

    /// Notes the number of flights so far, where none was noted. One worker alone calls this.
    fn note_held(&self, held: &AtomicU64) {
        if held.load(Ordering::SeqCst) == NOT_NOTED {
            held.store(
                self.reached.holding.load(Ordering::SeqCst),
                Ordering::SeqCst,
            );
        }
    }
}

impl Gate for LandsFirst {
    fn before<R: Wait>(&self, _rt: &R, actor: u32, turn: u64) {
        match (actor, turn) {
            (6, 1) => self.note_held(&self.before_second),
            (6, 2) => self.note_held(&self.before_third),
            _ => {}
        }
        self.reached.note(actor, turn);
        match (actor, turn) {
            (6, 0) => self.reached.wait_for_two(),
            (0, 4) => wait_for(&self.reached.completion, 3),
            _ => {}
        }
    }

    fn holding<R: Wait>(&self, _rt: &R, actor: u32) {
        self.reached.note_holding(actor);
    }
}

/// While the first flight is in the completion's hands, the third frame is offered, and the timer closes its block.
#[derive(Drop)]
pub(crate) struct FliesMeanwhile(pub(crate) Reached);

impl Gate for FliesMeanwhile {
    fn before<R: Wait>(&self, _rt: &R, actor: u32, turn: u64) {
        self.0.note(actor, turn);
        match (actor, turn) {
            (6, 0) => self.0.wait_for_two(),
            (0, 4) => wait_for(&self.0.holding, 1),
            (4, 0) => {
                wait_for(&self.0.holding, 1);
                wait_for(&self.0.sender, 6);
            }
            _ => {}
        }
    }

    fn holding<R: Wait>(&self, _rt: &R, actor: u32) {
        self.0.note_holding(actor);
        if actor == 6 {
            wait_for(&self.0.timer, 5);
        }
    }
}

/// Counts the calls of each worker.
#[derive(Drop)]
pub(crate) struct Counts {
    workers: [AtomicU64; 11],
}

impl Counts {
    /// No call.
    pub(crate) fn none() -> Counts {
        Counts {
            workers: [
                AtomicU64::new(0),
                AtomicU64::new(0),
                AtomicU64::new(0),
                AtomicU64::new(0),
                AtomicU64::new(0),
                AtomicU64::new(0),
                AtomicU64::new(0),
                AtomicU64::new(0),
                AtomicU64::new(0),
                AtomicU64::new(0),
                AtomicU64::new(0),
            ],
        }
    }

    /// Whether each worker has called.
    pub(crate) fn has_all(&self) -> bool {
        self.workers
            .iter()
            .all(|calls| calls.load(Ordering::SeqCst) > 0)
    }
}

impl Gate for Counts {
    fn before<R: Wait>(&self, _rt: &R, actor: u32, _turn: u64) {
        if let Some(calls) = self.workers.get(actor as usize) {
            calls.fetch_add(1, Ordering::SeqCst);
        }
    }

    fn holding<R: Wait>(&self, _rt: &R, _actor: u32) {}
}
