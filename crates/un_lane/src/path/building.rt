//! Frames that become transfers.

ghost use Rattle.std.specs.Prelude.{◌≡◌, ◌<◌, ◌≤◌, ◌+◌, ◌^◌, ◌∷◌, [], length};
ghost use Rattle.un_endpoint.specs.Ends.{IsAwayTx};
ghost use Rattle.un_endpoint.specs.EndOutcomes.{with_frame};
ghost use Rattle.un_journal.specs.LaneSteps.{accept, lines_in, tick_built};
ghost use Rattle.un_lane.specs.Calls.{Does, Ready};
ghost use Rattle.un_lane.specs.Phases.{Agrees, BuildsIn, IsSent, defers, made_of, offered};
ghost use Rattle.un_lane.specs.Way.{Adds, HasRoom, lane_lines};

use crate::path::Path;
use crate::write::write;
use un_endpoint::{Built, RxEnd, Ticked, TxEnd};
use un_frame::Lane;
use un_journal::{Answer, Journal, Line};
use un_req::Request;

impl<T: TxEnd + Drop, R: RxEnd + Drop> Path<T, R> {
    /// Accepts a frame of a sender, one of 14 to `segment` bytes, as the lane's next datagram, with the line `took`, and then `made` where a transfer was made: it is queued, or, of a sleeping link's outward
    /// lane, deferred. `Busy`, and then nothing has changed, comes exactly where building needs a home request and none is home.
    pub fn offer(
        &mut self,
        journal: &mut Journal,
        sender: u32,
        frame: &[u8],
        asleep: bool,
    ) -> Answer
        requires ready { Ready (lines_in (accept self.old.tx.params self.old.lane sender (with_frame self.old.tx frame.now) (lane_lines self.old journal.old))) self.old journal.old }
        requires agrees { Agrees asleep self.old }
        requires least { 14 ≤ length frame.now }
        requires most { length frame.now ≤ self.old.tx.params.segment }
        ensures { Does (BuildsIn asleep (offered self.old.tx frame.now result) journal.old journal.new) (accept self.old.tx.params self.old.lane sender (with_frame self.old.tx frame.now) (lane_lines self.old journal.old)) self.old self.new journal.old journal.new result }
    {
        let lane = self.lane;
        match self.tx.offer(frame, self.accepted, self.made) {
            Built::Busy => Answer::Busy,
            Built::Kept => {
                self.accepted += 1;
                write(journal, Line::Took { lane, sender }, &[]);
                Answer::Did
            }
            Built::Made(request) => {
                self.accepted += 1;
                write(journal, Line::Took { lane, sender }, &[]);
                self.send(journal, asleep, request);
                Answer::Did
            }
        }
    }

    /// Lets the open block wait, with the line `waited`, or makes a transfer of what is built, with the line `made`: it is queued or deferred as that of an offer. `Nothing` comes exactly where nothing is built,
    /// and `NoRequest` exactly where closing needs a home request and none is home.
    pub fn tick(&mut self, journal: &mut Journal, asleep: bool) -> Answer
        requires ready { Ready (lines_in (tick_built self.old.tx.params self.old.lane self.old.tx.builder.frames (lane_lines self.old journal.old))) self.old journal.old }
        requires agrees { Agrees asleep self.old }
        ensures { Does (BuildsIn asleep self.old.tx.builder.frames journal.old journal.new) (tick_built self.old.tx.params self.old.lane self.old.tx.builder.frames (lane_lines self.old journal.old)) self.old self.new journal.old journal.new result }
    {
        let lane = self.lane;
        match self.tx.tick(self.made) {
            Ticked::Nothing => Answer::Nothing,
            Ticked::NoRequest => Answer::NoRequest,
            Ticked::Waited => {
                write(journal, Line::Waited { lane }, &[]);
                Answer::Did
            }
            Ticked::Made(request) => {
                self.send(journal, asleep, request);
                Answer::Did
            }
        }
    }

    /// Makes a transfer of a request, with the line `made`: it is counted, and put into the queue or, of a sleeping link's outward lane, into the deferred list.
    fn send(&mut self, journal: &mut Journal, asleep: bool, request: Request)
        requires side { self.old.tx.lane ≡ self.old.lane }
        requires away { IsAwayTx self.old.tx request }
        requires short { length request.bytes ≤ self.old.bus.largest }
        requires queue { length self.old.bus.queue < self.old.bus.tx_room }
        requires some { 0 < length request.bytes }
        requires count { self.old.made + 1 < 2 ^ 64 }
        requires room { HasRoom journal.old (made_of self.old request ∷ []) }
        ensures line { Adds journal.old journal.new (made_of self.old request ∷ []) }
        ensures sent { IsSent (defers self.old.lane asleep) self.old.tx self.new.tx self.old.bus self.new.bus request }
        ensures rest { self.new ≡ record self.old { made = self.old.made + 1; tx = self.new.tx; bus = self.new.bus } }
    {
        let lane = self.lane;
        let made = Line::Made {
            lane,
            serial: self.made,
            from: request.from(),
            to: request.to(),
        };
        write(journal, made, request.bytes());
        self.made += 1;
        if asleep && lane == Lane::Outward {
            self.tx.defer(request);
            return;
        }
        match self.bus.queue(request) {
            Ok(()) => {}
            Err(_) => unreachable!(),
        }
    }
}
