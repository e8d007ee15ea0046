//! Texts: the words of this project's texts and what each says, numbers and bytes as digits, and pages, on which a text
//! goes to a sink.
//!
//! Lines end with a line feed and their words stand between single spaces. Every text is read only as it is written.
//!
//! ```text
//! let mut page = Page::blank();                           // no memory but 8,192 bytes on the stack
//! page.put(&mut sink, b"frame");
//! page.reserve(&mut sink, 64);                            // room for the next two, which don't see the sink
//! word(&mut page.pending, lane_word(Lane::Inward));       // " in"
//! number(&mut page.pending, 7);                           // " 7"
//! page.finish(&mut sink)?;                                // the sink has "frame in 7", or a write of it has failed
//! let (first, rest) = cut_word(b"in 7");                  // "in" and Some("7"): lane_named, and long or short
//! ```
//!
//! Writing: a [`Page`] is put on a sink, over a [`Buffer`], to which `word` and `number` add behind a space; a word is
//! spelled by `lane_word` and its like. Reading: `cut_line` and `cut_word` cut, `is` compares, `lane_named` and its
//! like tell what a word says, `numeral`, `short` and `long` read numbers, and `decode` reads bytes from digits.
#![tactic(auto)]

mod buffer;
mod digits;
mod numbers;
mod page;
mod words;

pub use buffer::{Buffer, number, word};
pub use digits::decode;
pub use numbers::{long, numeral, short};
pub use page::Page;
pub use words::{
    class_named, class_word, cut_line, cut_word, fault_kind_named, fault_kind_word, flag_named,
    flag_word, is, lane_named, lane_word, reason_named, verdict_word,
};
