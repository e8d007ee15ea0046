//! What a script says.

ghost use Rattle.std.specs.Prelude.{◌≡◌, ◌<◌, ◌≤◌, ◌∷◌, ◌++◌, [], None, Some, length, OnOk, OnErr, IsTrue, MatchOption, slice_get, unwrap_or};
ghost use Rattle.un_frame.specs.Params.{AreInRange};
ghost use Rattle.un_frame.specs.declared.kinds.Planned.TheVariants.{Clean};
ghost use Rattle.un_journal.specs.Script.{planned, frames_of, feed_list, frame_count};
ghost use Rattle.un_script.specs.Parts.{empty_script, no_frames, frame_added, with_frame, state_of, may_come};
ghost use Rattle.un_script.specs.Ready.{IsReady};
ghost use Rattle.un_script.specs.Table.{is_sender, is_want, is_planned_serial, is_fault, MOST_FRAMES, MOST_CONTROLS, MOST_FAULTS};

use crate::plan::Plan;
use crate::state::{LinkState, state_after};
use std::alloc::{AllocError, Global};
use std::marker::Model;
use un_frame::{Bytes, Lane, Params, Planned};
use un_journal::{Due, PlannedFault};

/// The frames of the four senders of a lane.
#[derive(Drop)]
struct Senders {
    first: Vec<Bytes>,
    second: Vec<Bytes>,
    third: Vec<Bytes>,
    fourth: Vec<Bytes>,
}

impl Model for Senders {
    ghost use Rattle.un_journal.specs.Script.{Feeds};

    ghost Value = { Feeds };

    ghost view = { λ s. record { first = s.first.items; second = s.second.items; third = s.third.items; fourth = s.fourth.items } };
}

impl Senders {
    fn make(alloc: Global) -> Senders
        ensures { result ≡ no_frames }
    {
        Senders {
            first: Vec::new(alloc),
            second: Vec::new(alloc),
            third: Vec::new(alloc),
            fourth: Vec::new(alloc),
        }
    }

    fn add(&mut self, sender: u32, frame: Bytes) -> Result<(), AllocError>
        requires { IsTrue (is_sender sender) }
        ensures ok { OnOk result (self.new ≡ frame_added sender frame self.old) }
        ensures err { OnErr result (self.new ≡ self.old) }
    {
        match sender {
            0 => self.first.push(frame)?,
            1 => self.second.push(frame)?,
            2 => self.third.push(frame)?,
            _ => self.fourth.push(frame)?,
        }
        Ok(())
    }

    fn frame(&self, sender: u32, index: u64) -> Option<&[u8]>
        ensures { MatchOption result (slice_get (unwrap_or (slice_get (feed_list self.now) sender) []) index ≡ None) (λ f. slice_get (unwrap_or (slice_get (feed_list self.now) sender) []) index ≡ Some f.now) }
    {
        match sender {
            0 => nth(&self.first, index),
            1 => nth(&self.second, index),
            2 => nth(&self.third, index),
            3 => nth(&self.fourth, index),
            _ => None,
        }
    }
}

/// Lends the frame with this index.
fn nth(frames: &[Bytes], index: u64) -> Option<&[u8]>
    ensures { MatchOption result (slice_get frames.now index ≡ None) (λ f. slice_get frames.now index ≡ Some f.now) }
{
    match frames.get(index as usize) {
        Some(frame) => Some(frame.as_slice()),
        None => None,
    }
}

/// A script: the parameters of a link, the frames that each sender of a lane has (its feed), the controls and the planned
/// faults. A lane has four senders, 0 to 3. There are at most 65,536 frames in both lanes together, 256
/// controls and 1,024 faults.
///
/// `add_frame`, `add_control` and `add_fault` fill it, each by one. `params`, `frame`, `control` and `fault` tell what
/// it says, `frame_count`, `control_count` and `fault_count` how much; `prove_ready` does nothing but state what each
/// script has.
#[derive(Drop)]
pub struct Script {
    params: Params,
    outward: Senders,
    inward: Senders,
    controls: Vec<Due>,
    faults: Plan,
    frames: u32,
    state: LinkState,
}

impl Model for Script {
    ghost use Rattle.std.specs.Prelude.{◌≡◌, ◌+◌, Some};
    ghost use Rattle.un_journal.specs.Script.{Script as ScriptData};

    ghost Value = { ScriptData };

    ghost use Rattle.un_journal.specs.Script.{frames_in_all};
    ghost use Rattle.un_script.specs.Parts.{state_of};
    ghost use Rattle.un_script.specs.Ready.{IsReady};

    ghost view = { λ s. record { params = s.params; outward = s.outward; inward = s.inward; controls = s.controls.items; faults = s.faults } };

    ghost invariant = { λ s. (s.frames ≡ frames_in_all s.outward + frames_in_all s.inward) × (state_of s.controls.items ≡ Some s.state)
        × IsReady (record { params = s.params; outward = s.outward; inward = s.inward; controls = s.controls.items; faults = s.faults }) };
}

impl Script {
    /// A script with no frames, controls and faults, for parameters in their ranges. It keeps the allocator for those that are added.
    #[tactic(auto, using(crate::proofs::Readiness::empty_ready), unfolding(crate::specs::Parts::state_from))]
    pub fn make(alloc: Global, params: Params) -> Script
        requires { AreInRange params }
        ensures { result ≡ empty_script params }
    {
        Script {
            params,
            outward: Senders::make(alloc),
            inward: Senders::make(alloc),
            controls: Vec::new(alloc),
            faults: Plan::make(alloc),
            frames: 0,
            state: LinkState::Awake,
        }
    }

    /// What each script has: its parameters are in their ranges, each frame has bytes, each control can follow the earlier ones and waits for 0 to 65,536 datagrams, each planned fault has a serial of 0 to 65,535 and isn't `Clean`, no lane and serial has two faults, and there are no more of each than it may have.
    pub fn prove_ready(&self)
        ensures { IsReady self.now }
    {
        let _frames = self.frames;
    }

    /// Lends the parameters.
    pub fn params(&self) -> &Params
        ensures { result.now ≡ self.now.params }
    {
        &self.params
    }

    /// Puts other parameters in place of these.
    #[tactic(auto, using(crate::proofs::Readiness::params_ready))]
    pub(crate) fn set_params(&mut self, params: Params)
        requires { AreInRange params }
        ensures { self.new ≡ record self.old { params = params } }
    {
        self.params = params;
    }

    /// How many frames there are, in both lanes together.
    pub fn frame_count(&self) -> u32
        ensures { result ≡ Rattle.un_journal.specs.Script.frame_count self.now }
    {
        self.frames
    }

    /// How many controls there are.
    pub fn control_count(&self) -> u32
        ensures { result ≡ length self.now.controls }
    {
        self.controls.len() as u32
    }

    /// How many faults are planned.
    pub fn fault_count(&self) -> u32
        ensures { result ≡ length self.now.faults }
    {
        self.faults.len() as u32
    }

    /// How a link stands after the controls.
    pub(crate) fn state(&self) -> LinkState
        ensures { state_of self.now.controls ≡ Some result }
    {
        self.state
    }

    /// Adds a frame of at least one byte at the end of the feed of a sender (0 to 3), where there are fewer than 65,536 frames. After
    /// the error, which is want of memory, the script is unchanged and the frame is given up.
    #[tactic(auto, using(crate::proofs::Readiness::frame_ready, crate::proofs::Readiness::one_more))]
    pub fn add_frame(&mut self, lane: Lane, sender: u32, frame: Bytes) -> Result<(), AllocError>
        requires sender { IsTrue (is_sender sender) }
        requires bytes { 0 < length frame }
        requires room { frame_count self.old < MOST_FRAMES }
        ensures ok { OnOk result (self.new ≡ with_frame lane sender frame self.old) }
        ensures err { OnErr result (self.new ≡ self.old) }
    {
        if let Lane::Outward = lane {
            self.outward.add(sender, frame)?;
            self.frames += 1;
            return Ok(());
        }
        self.inward.add(sender, frame)?;
        self.frames += 1;
        Ok(())
    }

    /// Adds a control behind the others, of which there are fewer than 256 and which it has to be able to follow; it waits for 0 to
    /// 65,536 datagrams. After the error, which is want of memory, the script is unchanged.
    #[tactic(auto, using(crate::proofs::States::state_more, crate::proofs::Readiness::control_ready))]
    pub fn add_control(&mut self, due: Due) -> Result<(), AllocError>
        requires want { IsTrue (is_want due.want) }
        requires room { length self.old.controls < MOST_CONTROLS }
        requires order { IsTrue (may_come self.old.controls due) }
        ensures ok { OnOk result (self.new ≡ record self.old { controls = self.old.controls ++ due ∷ [] }) }
        ensures err { OnErr result (self.new ≡ self.old) }
    {
        let next = state_after(due.control, self.state);
        self.controls.push(due)?;
        if let Some(state) = next {
            self.state = state;
        }
        Ok(())
    }

    /// Plans a fault, which isn't `Clean`, for a transfer (of the serials 0 to 65,535) that has none planned, where there are fewer than 1,024 faults. After
    /// the error, which is want of memory, the script is unchanged.
    pub fn add_fault(&mut self, lane: Lane, serial: u64, planned: Planned) -> Result<(), AllocError>
        requires serial { IsTrue (is_planned_serial serial) }
        requires room { length self.old.faults < MOST_FAULTS }
        requires fault { IsTrue (is_fault planned) }
        requires first { Rattle.un_journal.specs.Script.planned self.old lane serial ≡ Clean }
        ensures ok { OnOk result (self.new ≡ record self.old { faults = self.old.faults ++ record { lane = lane; serial = serial; planned = planned } ∷ [] }) }
        ensures err { OnErr result (self.new ≡ self.old) }
    {
        self.faults.add(PlannedFault {
            lane,
            serial,
            planned,
        })?;
        Ok(())
    }

    /// Lends the frame with this index in a sender's feed, where there is one.
    pub fn frame(&self, lane: Lane, sender: u32, index: u64) -> Option<&[u8]>
        ensures { MatchOption result (slice_get (frames_of self.now lane sender) index ≡ None) (λ f. slice_get (frames_of self.now lane sender) index ≡ Some f.now) }
    {
        match lane {
            Lane::Outward => self.outward.frame(sender, index),
            Lane::Inward => self.inward.frame(sender, index),
        }
    }

    /// The control with this index, where there is one.
    pub fn control(&self, index: u32) -> Option<Due>
        ensures { result ≡ slice_get self.now.controls index }
    {
        self.controls.get(index as usize).copied()
    }

    /// What the plan has for a transfer: `Clean` exactly where it has no fault for it.
    pub fn fault(&self, lane: Lane, serial: u64) -> Planned
        ensures { result ≡ planned self.now lane serial }
    {
        self.faults.find(lane, serial)
    }
}
