//! Who of the workers has come, is awake, and may have got work: sets of actors, packed into one word, so that each change of them
//! is one step.

/// The bits of one set.
const SET: u64 = 0x7ff;

/// The set of all eleven actors.
pub(crate) const EVERYBODY: u64 = SET;

// The actors that are rung before the timers, and the timers, which are rung before the control: while a link flows nobody waits
// for a timer or a control, and each ring is paid for.
const FIRST: u64 = 0b011_1100_1111;

const SECOND: u64 = 0b000_0011_0000;

/// The set of this actor alone.
pub(crate) fn only(actor: u32) -> u64 {
    1 << (actor % 11)
}

/// The sets that the workers share.
#[derive(Clone, Copy)]
pub(crate) struct Roster {
    /// Those who have begun.
    pub(crate) come: u64,
    /// Those who have begun and not ended.
    pub(crate) here: u64,
    /// Those here who don't wait, or were rung and will soon not wait.
    pub(crate) awake: u64,
    /// Those who may have got work since they last looked for some.
    pub(crate) work: u64,
    /// Those who can get no work any more, and wait for the end alone.
    pub(crate) spent: u64,
    /// Everybody where each was asked for work since anybody did something; else nobody.
    pub(crate) asked: u64,
}

/// A change of the sets by one actor.
#[derive(Clone, Copy)]
pub(crate) enum Change {
    /// It begins.
    Come,
    /// It found nothing to do in a whole round, and has given perhaps these work before. `spent` is itself where it can get no work any more; `late` says
    /// whether it would wait for those who haven't come.
    Rest {
        stirred: u64,
        spent: u64,
        late: bool,
    },
    /// It doesn't wait any more.
    Wake,
    /// It ends, since the machine is finished or it gives up. All others are to look for themselves.
    Leave,
}

impl Roster {
    /// The sets of a word.
    pub(crate) fn of_word(word: u64) -> Roster {
        Roster {
            come: word & SET,
            here: (word >> 11) & SET,
            awake: (word >> 22) & SET,
            work: (word >> 33) & SET,
            spent: (word >> 44) & SET,
            asked: ((word >> 55) & 1) * SET,
        }
    }

    /// The word of the sets.
    pub(crate) fn word(self) -> u64 {
        self.come
            | self.here << 11
            | self.awake << 22
            | self.work << 33
            | self.spent << 44
            | (self.asked & 1) << 55
    }

    /// The sets after a change by this actor. Who is awake afterwards and wasn't before is to be rung.
    pub(crate) fn after(self, actor: u32, change: Change) -> Roster {
        let me = only(actor);
        match change {
            Change::Come => Roster {
                come: self.come | me,
                here: self.here | me,
                ..self.woken(me)
            },
            Change::Wake => self.woken(me),
            Change::Rest {
                stirred,
                spent,
                late,
            } => self.told(stirred, spent).rested(actor, late),
            Change::Leave => self.left(me),
        }
    }

    // One who looks for work: what it may have got before it finds now.
    fn woken(self, me: u64) -> Roster {
        Roster {
            awake: self.awake | me,
            work: without(self.work, me),
            ..self
        }
    }

    // It has told what it did.
    fn told(self, stirred: u64, spent: u64) -> Roster {
        let asked = match stirred {
            0 => self.asked,
            _ => 0,
        };
        Roster {
            work: self.work | stirred,
            spent: self.spent | spent,
            asked,
            ..self
        }
    }

    // An actor would wait. It stays awake where somebody gave it work meanwhile, or where it is the last one awake and nobody else has
    // work; if so, all others are asked first.
    fn rested(self, actor: u32, late: bool) -> Roster {
        let me = only(actor);
        if self.work & me != 0 {
            return self.woken(me);
        }
        let quiet = Roster {
            awake: without(self.awake, me),
            ..self
        };
        if quiet.awake != 0 {
            return quiet;
        }
        let rung = quiet.handed_on(actor);
        if rung.awake != 0 || (late && self.come != SET) {
            return rung;
        }
        if self.asked != 0 {
            return self;
        }
        Roster {
            work: without(self.here, me),
            asked: SET,
            ..quiet
        }
        .handed_on(actor)
        .or_awake(me)
    }

    // An actor ends, and all others are awake.
    fn left(self, me: u64) -> Roster {
        let here = without(self.here, me);
        Roster {
            here,
            awake: here,
            ..self
        }
    }

    // One that has work is awake, if there is one.
    fn handed_on(self, actor: u32) -> Roster {
        let candidates = without(self.work & self.here, self.spent);
        let next = match (candidates & FIRST, candidates & SECOND) {
            (0, 0) => candidates,
            (0, timers) => next_of(timers, actor),
            (first, _) => next_of(first, actor),
        };
        Roster {
            awake: self.awake | next,
            work: without(self.work, next),
            ..self
        }
    }

    // It is awake where nobody else is.
    fn or_awake(self, me: u64) -> Roster {
        match self.awake {
            0 => Roster { awake: me, ..self },
            _ => self,
        }
    }
}

// A set without the members of another.
fn without(set: u64, others: u64) -> u64 {
    set & (others ^ u64::MAX)
}

// The first of a set behind an actor, in the ring of all; nobody where the set is empty.
fn next_of(set: u64, actor: u32) -> u64 {
    for step in 1..12 {
        let next = only(actor % 11 + step);
        if set & next != 0 {
            return next;
        }
    }
    0
}
