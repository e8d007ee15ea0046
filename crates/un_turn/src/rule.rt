//! The rule of the turn as a rule of its table, and the names of the steps that keep it.

ghost use Rattle.std.specs.Prelude.{ℕ};
ghost use Rattle.un_turn.specs.Rule.{Turned, RuleInWords};
ghost use Rattle.un_turn.specs.Steps.{opening_view, won_or_lost, freed, split_left, split_right, told, met, spent};

use crate::view::View;
use atomic_table::{Join, Play, Split, TableRule};
use std::marker::{Brand, PhantomData};
use std::snapshot::Snapshot;
use un_journal::Machine;

/// What a turn begins with: the machine as it was, and the number of shares.
#[derive(Drop)]
pub struct Opening<M> {
    pub machine: Snapshot<M>,
    pub shares: u64,
}

/// The rule of the turn, over one word, one slot for the machine and the views of the seats.
pub struct TurnRule<M> {
    machine: PhantomData<M>,
}

impl<M: Machine> TableRule<Option<M>, View<M::Script>, Opening<M>> for TurnRule<M> {
    ghost holds = { λ _. Turned M.script M.history M.flights };

    ghost first = { λ key. opening_view (M.script key.machine.value) (M.history key.machine.value) key.shares };
}

/// The exchange of the word, which wins the turn or loses.
pub struct Enters<M> {
    machine: PhantomData<M>,
}

impl<M: Machine> Play<Option<M>, View<M::Script>> for Enters<M> {
    ghost then = { won_or_lost M.script M.history M.flights };
}

/// A number that a call hands to a step of its own.
pub trait Amount {
    ghost amount: { ℕ };
}

impl Amount for Brand {
    ghost amount = { 0 };
}

/// The store that frees the word, after so many calls.
pub struct Leaves<M, N> {
    machine: PhantomData<(M, N)>,
}

impl<M: Machine, N: Amount> Play<Option<M>, View<M::Script>> for Leaves<M, N> {
    ghost then = { freed M.history M.flights N.amount };
}

/// The split that gives so many shares away.
pub struct Cuts<N> {
    shares: PhantomData<N>,
}

impl<S, N: Amount> Split<View<S>> for Cuts<N> {
    ghost left = { split_left N.amount };

    ghost right = { split_right N.amount };
}

/// The join of two seats, and the load after it that compares what the two had seen.
pub struct Meets;

impl<S> Join<View<S>> for Meets {
    ghost both = { told };

    ghost spent = { spent };
}

impl<M, S> Play<Option<M>, View<S>> for Meets {
    ghost then = { met };
}

/// A law on the rule of the turn: what it says of who holds the turn and of who knows which flight, in words. The word is 0 or 1;
/// where it is 1 exactly one view holds the turn, and where it is 0 none does. Each flight that is out is known to exactly one
/// view, and no view knows another.
pub fn rule_in_words<M: Machine>()
    ensures { RuleInWords M.script M.history M.flights }
{}
