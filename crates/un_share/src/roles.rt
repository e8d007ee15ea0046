//! The eleven actors, and what each does at its turns.

use crate::roster::EVERYBODY;
use un_frame::Lane;
use un_journal::Action;

/// The number of the last actor; they count from 0.
pub(crate) const LAST_ACTOR: u32 = 10;

/// What an actor is.
#[derive(Clone, Copy)]
pub(crate) enum Role {
    /// Actors 0 to 3: a sender, whose frames it offers outward on even turns and inward on odd ones.
    Sender { sender: u32 },
    /// Actors 4, of the host, and 5, of the gadget: the timer of a lane's builder.
    Timer { lane: Lane },
    /// Actors 6, outward, and 7, inward: takes flights, copies them outside the turn and lands them.
    Completion { lane: Lane },
    /// Actors 8, of the host, and 9, of the gadget: finishes the transfers of the lane `sends`, and receives on the lane `receives`.
    BottomHalf { sends: Lane, receives: Lane },
    /// Actor 10: the script's controls, and what they leave to be done.
    Control,
}

/// The role of an actor.
pub(crate) fn role_of(actor: u32) -> Role {
    match actor {
        0..=3 => Role::Sender { sender: actor },
        4 => Role::Timer {
            lane: Lane::Outward,
        },
        5 => Role::Timer { lane: Lane::Inward },
        6 => Role::Completion {
            lane: Lane::Outward,
        },
        7 => Role::Completion { lane: Lane::Inward },
        8 => Role::BottomHalf {
            sends: Lane::Outward,
            receives: Lane::Inward,
        },
        9 => Role::BottomHalf {
            sends: Lane::Inward,
            receives: Lane::Outward,
        },
        _ => Role::Control,
    }
}

/// What an actor does at its turn number `turn`; a completion moves a whole flight where it is asked for one action.
pub(crate) fn action_of(role: Role, turn: u64) -> Action {
    match role {
        Role::Sender { sender } => Action::Offer {
            lane: offer_lane(turn),
            sender,
        },
        Role::Timer { lane } => Action::Tick { lane },
        Role::Completion { lane } => Action::Move { lane },
        Role::BottomHalf { sends, receives } => bottom_half(sends, receives, turn),
        Role::Control => control(turn),
    }
}

fn offer_lane(turn: u64) -> Lane {
    match turn % 2 {
        0 => Lane::Outward,
        _ => Lane::Inward,
    }
}

fn bottom_half(sends: Lane, receives: Lane, turn: u64) -> Action {
    match turn % 4 {
        0 => Action::TxDone { lane: sends },
        1 => Action::RxDone { lane: receives },
        2 => Action::Deliver { lane: receives },
        _ => Action::Refill { lane: receives },
    }
}

fn control(turn: u64) -> Action {
    match turn % 6 {
        0 => Action::Control { force: true },
        1 => Action::Unlink {
            lane: Lane::Outward,
        },
        2 => Action::Unlink { lane: Lane::Inward },
        3 => Action::ClearHalt {
            lane: Lane::Outward,
        },
        4 => Action::ClearHalt { lane: Lane::Inward },
        _ => Action::Settle,
    }
}

/// How many of an actor's turns make a round, in which it tries all that it does.
pub(crate) fn round_of(actor: u32) -> u64 {
    match role_of(actor) {
        Role::Sender { sender: _ } => 2,
        Role::Timer { lane: _ } | Role::Completion { lane: _ } => 1,
        Role::BottomHalf {
            sends: _,
            receives: _,
        } => 4,
        Role::Control => 6,
    }
}

// Sets of actors: the senders, and of a lane its timer, its completion, and the bottom halves of its two ends.
const SENDERS: u64 = 0b1111;

const CONTROL: u64 = 1 << 10;

fn timer(lane: Lane) -> u64 {
    match lane {
        Lane::Outward => 1 << 4,
        Lane::Inward => 1 << 5,
    }
}

fn completion(lane: Lane) -> u64 {
    match lane {
        Lane::Outward => 1 << 6,
        Lane::Inward => 1 << 7,
    }
}

const BOTTOM_HALVES: u64 = 0b11 << 8;

/// Which actors may have got work by an action that did something; rather too many than too few.
pub(crate) fn stirs(action: Action) -> u64 {
    match action {
        Action::Offer { lane, sender: _ } => timer(lane) | completion(lane),
        Action::Tick { lane } => SENDERS | completion(lane),
        Action::Move { lane: _ } => BOTTOM_HALVES | CONTROL,
        Action::TxDone { lane } => SENDERS | timer(lane) | CONTROL,
        Action::RxDone { lane: _ } => 0,
        Action::Deliver { lane: _ } => CONTROL,
        Action::Refill { lane } => completion(lane),
        Action::Unlink { lane: _ }
        | Action::ClearHalt { lane: _ }
        | Action::Control { force: _ }
        | Action::Settle => EVERYBODY,
    }
}
