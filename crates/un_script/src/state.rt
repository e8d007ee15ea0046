//! Which controls may follow which, which phases they leave, and what a link does in a phase.

ghost use Rattle.std.specs.Prelude.{◌≡◌, ◌||◌};
ghost use Rattle.un_journal.specs.Lookup.{after_order, after_settled, is_asleep, is_leaving, is_stopping, works};
ghost use Rattle.un_script.specs.Parts.{state_after};

use un_frame::Phase;
use un_journal::Control;

/// How a link stands after the controls so far, as far as they say which may follow.
#[derive(Clone, Copy, Debug, PartialEq, Eq)]
pub enum LinkState {
    /// It is up.
    Awake,
    /// It is suspended.
    Suspended,
    /// It is down.
    Stopped,
    /// It is unplugged, and no control may follow.
    Unplugged,
}

/// How a link stands after a control, where it may come: a suspended link may be resumed, one that is up may be suspended,
/// either of them put down or a lane of it unlinked, one that is down put up, and each but an unplugged one unplugged.
pub fn state_after(control: Control, state: LinkState) -> Option<LinkState>
    ensures { result ≡ Rattle.un_script.specs.Parts.state_after control state }
{
    match (control, state) {
        (Control::Suspend, LinkState::Awake) => Some(LinkState::Suspended),
        (Control::Resume, LinkState::Suspended) => Some(LinkState::Awake),
        (Control::Down, LinkState::Awake | LinkState::Suspended) => Some(LinkState::Stopped),
        (Control::Up, LinkState::Stopped) => Some(LinkState::Awake),
        (Control::Unlink { .. }, LinkState::Awake | LinkState::Suspended) => Some(state),
        (Control::Unplug, LinkState::Awake | LinkState::Suspended | LinkState::Stopped) => {
            Some(LinkState::Unplugged)
        }
        _ => None,
    }
}

/// The phase of a link after a control: a stop or an unplugging isn't settled yet.
pub fn phase_after(control: Control, phase: Phase) -> Phase
    ensures { result ≡ after_order control phase }
{
    match control {
        Control::Suspend => Phase::Asleep,
        Control::Resume | Control::Up => Phase::Up,
        Control::Down => Phase::Stopping,
        Control::Unplug => Phase::Leaving,
        Control::Unlink { .. } => phase,
    }
}

/// The phase of a link after a stop or an unplugging is settled.
pub fn phase_settled(phase: Phase) -> Phase
    ensures { result ≡ after_settled phase }
{
    match phase {
        Phase::Stopping => Phase::Down,
        Phase::Leaving => Phase::Away,
        other => other,
    }
}

/// Whether a link sleeps in this phase.
pub fn sleeps(phase: Phase) -> bool
    ensures { result ≡ is_asleep phase }
{
    matches!(phase, Phase::Asleep)
}

/// Whether frames are offered in this phase: up, or asleep.
pub fn takes_frames(phase: Phase) -> bool
    ensures { result ≡ works phase }
{
    matches!(phase, Phase::Up | Phase::Asleep)
}

/// Whether in this phase a stop or an unplugging isn't settled yet.
pub fn stops(phase: Phase) -> bool
    ensures { result ≡ (is_stopping phase || is_leaving phase) }
{
    matches!(phase, Phase::Stopping | Phase::Leaving)
}
