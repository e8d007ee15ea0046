//! A lane's part of a stop and of the controls.

ghost use Rattle.std.specs.Prelude.{◌≡◌, take};
ghost use Rattle.un_journal.specs.LaneSteps.{lines_in, unlink_first};
ghost use Rattle.un_journal.specs.History.{History};
ghost use Rattle.un_journal.specs.Step.{dropped_built};
ghost use Rattle.un_lane.specs.Calls.{Does, Ready};
ghost use Rattle.un_lane.specs.Controls.{LeavesBus, LosesBuild, Queues, Stays, Writes, deferred_lines, dropped_lines, posted_lines, resumed, settled, unmarked_in, unmarked_lines};
ghost use Rattle.un_lane.specs.Phases.{IsDropped, Leaves};
ghost use Rattle.un_lane.specs.Stands.{ArePlaced, Stands};
ghost use Rattle.un_lane.specs.Way.{Adds, HasRoom, lane_lines};

use crate::path::Path;
use crate::write::write;
use un_endpoint::{RxEnd, TxEnd};
use un_journal::{Answer, Journal, Line};

impl<T: TxEnd + Drop, R: RxEnd + Drop> Path<T, R> {
    /// One step of a stop: marks the oldest transfer that isn't marked, the flight before the queue, with the control that cuts it, and the line `marked`; where there is none, brings one posted request home, with
    /// the line `recalled`. `Nothing` comes exactly where there is none of these either.
    pub fn unlink(&mut self, journal: &mut Journal, cause: u32) -> Answer
        requires { Ready (lines_in (unlink_first self.old.lane cause (lane_lines self.old journal.old) (unmarked_in self.old.bus))) self.old journal.old }
        ensures { Does Leaves (unlink_first self.old.lane cause (lane_lines self.old journal.old) (unmarked_in self.old.bus)) self.old self.new journal.old journal.new result }
    {
        if self.mark(journal, cause) {
            return Answer::Did;
        }
        if self.recall(journal) {
            return Answer::Did;
        }
        Answer::Nothing
    }

    /// Marks each transfer that isn't marked, the flight before the queue, with the control that cuts it, and a line `marked` for each.
    pub fn mark_all(&mut self, journal: &mut Journal, cause: u32)
        requires stands { Stands self.old (lane_lines self.old journal.old) }
        requires room { HasRoom journal.old (unmarked_lines cause self.old) }
        ensures lines { Adds journal.old journal.new (unmarked_lines cause self.old) }
        ensures stands { Stands self.new (lane_lines self.new journal.new) }
        ensures leaves { Leaves self.old self.new }
        ensures flight { self.new.bus.flight ≡ self.old.bus.flight }
    {
        while self.mark(journal, cause) {}
    }

    /// Gives up each deferred transfer, which is then done, with a line `cut` for each, and then drops what is built, with the line `dropped` where something is built. A claimed request goes home.
    pub fn drop_all(&mut self, journal: &mut Journal, cause: u32)
        requires stands { Stands self.old (lane_lines self.old journal.old) }
        requires room { HasRoom journal.old (dropped_lines cause self.old (lane_lines self.old journal.old)) }
        ensures lines { Adds journal.old journal.new (dropped_lines cause self.old (lane_lines self.old journal.old)) }
        ensures stands { Stands self.new (lane_lines self.new journal.new) }
        ensures leaves { IsDropped self.old self.new }
    {
        while self.cut(journal, cause) {}
        self.drop_built(journal, cause);
    }

    /// Brings each posted request home, with a line `recalled` for each.
    pub fn recall_all(&mut self, journal: &mut Journal)
        requires stands { Stands self.old (lane_lines self.old journal.old) }
        requires room { HasRoom journal.old (posted_lines self.old) }
        ensures lines { Adds journal.old journal.new (posted_lines self.old) }
        ensures stands { Stands self.new (lane_lines self.new journal.new) }
        ensures leaves { Leaves self.old self.new }
        ensures flight { self.new.bus.flight ≡ self.old.bus.flight }
    {
        while self.recall(journal) {}
    }

    /// Queues the deferred transfers in their order; no line is written. It stands for the lines that it stood for.
    pub fn resume(&mut self)
        requires { ArePlaced self.old.lane self.old.tx self.old.rx self.old.bus }
        ensures now { self.new ≡ resumed self.old }
        ensures stands { (g : History) → Stands self.old g → Stands self.new g }
    {
        while self.queue_deferred() {}
    }

    /// Clears the halt after the line `settled`; no line is written. It then stands for the lines that it stood for but for the halt.
    pub fn settle(&mut self)
        ensures now { self.new ≡ settled self.old }
        ensures stands { (g : History) → Stands (settled self.old) g → Stands self.new g }
    {
        self.bus.clear();
    }

    /// Queues the first deferred transfer; false exactly where none is deferred.
    fn queue_deferred(&mut self) -> bool
        requires { ArePlaced self.old.lane self.old.tx self.old.rx self.old.bus }
        ensures { Queues self.old self.new result }
    {
        let Some(request) = self.tx.next_deferred() else {
            return false;
        };
        match self.bus.queue(request) {
            Ok(()) => true,
            Err(_) => unreachable!(),
        }
    }

    /// Marks the oldest transfer that isn't marked, the flight before the queue; false exactly where each is.
    fn mark(&mut self, journal: &mut Journal, cause: u32) -> bool
        requires { Ready (take 1 (unmarked_lines cause self.old)) self.old journal.old }
        ensures { Writes (unmarked_lines cause) Stays self.old self.new journal.old journal.new result }
    {
        let lane = self.lane;
        let Some(serial) = self.bus.mark_oldest(cause) else {
            return false;
        };
        write(
            journal,
            Line::Marked {
                lane,
                serial,
                cause,
            },
            &[],
        );
        true
    }

    /// Gives up the first deferred transfer, which is then done; false exactly where none is deferred.
    fn cut(&mut self, journal: &mut Journal, cause: u32) -> bool
        requires { Ready (take 1 (deferred_lines cause self.old)) self.old journal.old }
        ensures { Writes (deferred_lines cause) LeavesBus self.old self.new journal.old journal.new result }
    {
        let lane = self.lane;
        match self.tx.next_deferred() {
            Some(request) => {
                let serial = request.serial();
                write(
                    journal,
                    Line::Cut {
                        lane,
                        serial,
                        cause,
                    },
                    &[],
                );
                self.tx.finish(request);
                true
            }
            None => false,
        }
    }

    /// Brings the first posted request home; false exactly where none is posted.
    fn recall(&mut self, journal: &mut Journal) -> bool
        requires { Ready (take 1 (posted_lines self.old)) self.old journal.old }
        ensures { Writes posted_lines Stays self.old self.new journal.old journal.new result }
    {
        let lane = self.lane;
        match self.bus.recall() {
            Some(request) => {
                write(journal, Line::Recalled { lane }, &[]);
                self.rx.give_back(request);
                true
            }
            None => false,
        }
    }

    /// Drops what is built; a claimed request goes home.
    fn drop_built(&mut self, journal: &mut Journal, cause: u32)
        requires { Ready (dropped_built self.old.lane cause (lane_lines self.old journal.old)) self.old journal.old }
        ensures lines { Adds journal.old journal.new (dropped_built self.old.lane cause (lane_lines self.old journal.old)) }
        ensures stands { Stands self.new (lane_lines self.new journal.new) }
        ensures leaves { LosesBuild self.old self.new }
    {
        let lane = self.lane;
        let Some((from, to)) = self.tx.drop_build() else {
            return;
        };
        write(
            journal,
            Line::Dropped {
                lane,
                from,
                to,
                cause,
            },
            &[],
        );
    }
}
