//! The small words and facts that every crate of this repository may cite, and that std doesn't have: a test as a
//! number, spans and ranges of numbers, empty lists, how often a number stands in a list, tests in order over `Result`
//! (specs/); the calls `spans`, `between` and `count`, which make these tests and the number of a test; and on these,
//! on tests and on lists the lemmas that more than one crate needs (proofs/, by subject). All are over plain variables
//! and know nothing of a link.
//!
//! ```text
//! between(2048, 65535, size)              // both ends are in a range
//! spans(from, to, number)                 // `from` is in a span, and `to` isn't
//! count(spans(from, to, number))          // 1 where it holds and else 0, for sums
//! copies_add_up();                        // does nothing: its contract is the law that such counts add up
//! ```
#![tactic(auto)]

ghost use Rattle.un_facts.specs.Laws.{CopiesAddUp};

mod ranges;

pub use ranges::{between, count, spans};

/// How often a number stands in two lists one after the other is the sum of how often it stands in each: what counts where each
/// request is rests on this.
pub fn copies_add_up()
    ensures { CopiesAddUp }
{}
