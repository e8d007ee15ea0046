//! The turn: a lock over one machine, whose holder works on the machine alone, and whose seats know what they have seen of its
//! one history.
//!
//! ```text
//! let (turn, seat) = Turn::make(alloc, machine, 2)?;      // one seat for each who takes part
//! let (mine, theirs) = turn.split(seat, 1);
//! let mut guard = turn.enter(rt, mine);                   // waits; try_enter doesn't
//! guard.perform(action);
//! let mine = guard.leave();
//! let machine = turn.close(turn.join(mine, theirs));      // all seats are back
//! ```
//!
//! A [`Seat`] may enter, a [`Guard`] works: one action, or a part of the machine taken out (`take_part`) or put back
//! (`land_part`), which others may follow while it is out.
#![tactic(auto)]

mod guard;
mod rule;
mod seat;
mod turn;
mod view;

pub use guard::{Guard, Held};
pub use rule::rule_in_words;
pub use seat::Seat;
pub use turn::Turn;
pub use view::View;
