//! Seats: who may ask for the turn.

use crate::view::View;
use std::marker::Model;
use un_journal::Machine;

/// The seat as the turn's table knows it.
pub(crate) type Token<M> = atomic_table::Seat<Option<M>, View<<M as Machine>::Script>>;

/// A seat of a turn that doesn't hold it. Contracts see of which turn it is and what it knows (`View`). It is a moved value and
/// takes no memory. A seat that is dropped keeps its shares for good, and its turn can't be closed.
#[derive(Drop)]
pub struct Seat<M: Machine> {
    pub(crate) token: Token<M>,
}

impl<M: Machine> Model for Seat<M> {
    ghost use Rattle.std.specs.Prelude.{◌≡◌, ◌<◌, ℕ, false, []};
    ghost use Rattle.atomic_table.specs.Seated.{TableId};
    ghost use Rattle.un_turn.specs.Views.{Place};

    ghost Value = { Place M.Script };

    ghost view = { λ s. record { turn = s.token.table_id; id = s.token.id; view = s.token.me.0 } };

    ghost invariant = { λ s. (s.token.me.1 ≡ []) × (s.token.me.0.holds ≡ false) × (0 < s.token.me.0.shares) × (s.token.me.0.heard ≡ []) };
}
