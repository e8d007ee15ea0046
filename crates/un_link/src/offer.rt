//! Frames that are offered to a lane.

ghost use Rattle.std.specs.Prelude.{◌≡◌, not, is_some, slice_get};
ghost use Rattle.un_journal.specs.Script.{frames_of};
ghost use Rattle.un_journal.specs.Step.{Offer, is_still, offers_still, work};
ghost use Rattle.un_link.specs.Halves.{Does, HalfKeeps, Ready};
ghost use Rattle.un_script.specs.Cursors.{cursor_at};

use crate::half::Half;
use crate::shared::Shared;
use un_endpoint::{RxEnd, TxEnd};
use un_frame::{Lane, Verdict, verdict};
use un_journal::{Answer, Line};
use un_script::{Script, sleeps, takes_frames};

impl<T: TxEnd + Drop, R: RxEnd + Drop> Half<T, R> {
    /// Offers the first frame of a sender's feed.
    pub(crate) fn offer(&mut self, shared: &mut Shared, lane: Lane, sender: u32) -> Answer
        requires lane { self.old.path.lane ≡ lane }
        requires ready { Ready (Offer self.old.path.lane sender) shared.old self.old }
        ensures { Does (Offer self.old.path.lane sender) shared.old shared.new self.old self.new result }
    {
        let phase = shared.phase;
        let Some(frame) = shared.script.frame(lane, sender, self.read.at(sender)) else {
            return Answer::Spent;
        };
        if !takes_frames(phase) {
            return Answer::Down { phase };
        }
        let asleep = sleeps(phase);
        match verdict(shared.script.params(), lane, frame) {
            Verdict::Take => match self.path.offer(&mut shared.journal, sender, frame, asleep) {
                Answer::Did => {
                    self.read.advance(sender);
                    Answer::Did
                }
                other => other,
            },
            why => {
                shared
                    .journal
                    .push(Line::Refused { lane, sender, why }, &[]);
                self.read.advance(sender);
                Answer::Did
            }
        }
    }

    /// Whether a sender's feed is empty.
    pub(crate) fn is_spent(&self, script: &Script, lane: Lane, sender: u32) -> bool
        ensures { result ≡ not (is_some (slice_get (frames_of script.now lane sender) (cursor_at self.now.read sender))) }
    {
        match script.frame(lane, sender, self.read.at(sender)) {
            Some(_) => false,
            None => true,
        }
    }

    /// Whether no offer of the lane's four senders would take or refuse a frame.
    pub(crate) fn offers_nothing(&self, shared: &Shared, lane: Lane) -> bool
        requires lane { self.now.path.lane ≡ lane }
        requires kept { HalfKeeps shared.now self.now }
        ensures { result ≡ offers_still shared.now.script shared.now.journal.history lane }
    {
        self.stays(shared, lane, 0)
            && self.stays(shared, lane, 1)
            && self.stays(shared, lane, 2)
            && self.stays(shared, lane, 3)
    }

    /// Whether an offer of the sender would neither take nor refuse a frame. Where the builder has room for a frame, an offer does either, so the frame isn't judged here.
    fn stays(&self, shared: &Shared, lane: Lane, sender: u32) -> bool
        requires lane { self.now.path.lane ≡ lane }
        requires kept { HalfKeeps shared.now self.now }
        ensures { result ≡ is_still (work shared.now.script shared.now.journal.history (Offer lane sender)) }
    {
        let script = &shared.script;
        script.prove_ready();
        let Some(frame) = script.frame(lane, sender, self.read.at(sender)) else {
            return true;
        };
        if !takes_frames(shared.phase) {
            return true;
        }
        let Ok(length) = u32::try_from(frame.len()) else {
            return false;
        };
        if self.path.can_offer(length) {
            return false;
        }
        matches!(verdict(script.params(), lane, frame), Verdict::Take)
    }
}
