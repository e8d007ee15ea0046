//! The fields of a line, each written and read by its type.

ghost use Rattle.std.specs.Prelude.{◌≡◌, ◌+◌, ◌≤◌, ◌∷◌, ◌++◌, [], ℕ, List, Option, MatchOption, Some, None, length};
ghost use Rattle.un_journal.specs.Lines;
ghost use Rattle.un_journal.specs.Lines.{begin_with, spelled};
ghost use Rattle.un_journal.specs.TraceLines.{first_read, left};

use un_frame::{FaultKind, Lane, Verdict};
use un_text::{
    Buffer, cut_word, fault_kind_named, fault_kind_word, flag_named, flag_word, lane_named,
    lane_word, long, number, reason_named, short, verdict_word, word,
};

/// A field of a line, by its type.
pub trait Field: Copy {
    /// It with its type.
    ghost as_field: { Self → Lines.Field };

    /// What a word says.
    ghost named: { List ℕ → Option Self };

    /// Adds its word behind a space: at most 21 bytes.
    fn put(self, buffer: &mut Buffer)
        requires { length buffer.old + 21 ≤ 8192 }
        ensures text { buffer.new ≡ buffer.old ++ 32 ∷ spelled (as_field self) }
        ensures longer { length buffer.new ≤ length buffer.old + 21 };

    /// The field that a word says.
    fn named(word: &[u8]) -> Option<Self>
        ensures { result ≡ named word.now };

    /// Whether it is this lane.
    fn is_lane(self, lane: Lane) -> bool
        ensures { result ≡ begin_with lane (as_field self ∷ []) };
}

impl Field for Lane {
    ghost use Rattle.un_journal.specs.Lines.{lane};
    ghost use Rattle.un_frame.specs.Spelling.{lane_named};

    ghost as_field = { lane };

    ghost named = { lane_named };

    fn put(self, buffer: &mut Buffer) {
        word(buffer, lane_word(self));
    }

    fn named(word: &[u8]) -> Option<Lane> {
        lane_named(word)
    }

    fn is_lane(self, lane: Lane) -> bool {
        lane == self
    }
}

impl Field for u32 {
    ghost use Rattle.un_journal.specs.Lines.{short};
    ghost use Rattle.un_text.specs.Words.{short_in};

    ghost as_field = { short };

    ghost named = { short_in };

    fn put(self, buffer: &mut Buffer) {
        number(buffer, u64::from(self));
    }

    fn named(word: &[u8]) -> Option<u32> {
        short(word)
    }

    fn is_lane(self, _: Lane) -> bool {
        false
    }
}

impl Field for u64 {
    ghost use Rattle.un_journal.specs.Lines.{long};
    ghost use Rattle.un_text.specs.Words.{long_in};

    ghost as_field = { long };

    ghost named = { long_in };

    fn put(self, buffer: &mut Buffer) {
        number(buffer, self);
    }

    fn named(word: &[u8]) -> Option<u64> {
        long(word)
    }

    fn is_lane(self, _: Lane) -> bool {
        false
    }
}

impl Field for Verdict {
    ghost use Rattle.un_journal.specs.Lines.{reason};
    ghost use Rattle.un_text.specs.Words.{why_in};

    ghost as_field = { reason };

    ghost named = { why_in };

    fn put(self, buffer: &mut Buffer) {
        word(buffer, verdict_word(self));
    }

    fn named(word: &[u8]) -> Option<Verdict> {
        reason_named(word)
    }

    fn is_lane(self, _: Lane) -> bool {
        false
    }
}

impl Field for FaultKind {
    ghost use Rattle.un_journal.specs.Lines.{fault};
    ghost use Rattle.un_text.specs.Words.{kind_named};

    ghost as_field = { fault };

    ghost named = { kind_named };

    fn put(self, buffer: &mut Buffer) {
        word(buffer, fault_kind_word(self));
    }

    fn named(word: &[u8]) -> Option<FaultKind> {
        fault_kind_named(word)
    }

    fn is_lane(self, _: Lane) -> bool {
        false
    }
}

impl Field for bool {
    ghost use Rattle.un_journal.specs.Lines.{flag};
    ghost use Rattle.un_text.specs.Words.{flag_in};

    ghost as_field = { flag };

    ghost named = { flag_in };

    fn put(self, buffer: &mut Buffer) {
        word(buffer, flag_word(self));
    }

    fn named(word: &[u8]) -> Option<bool> {
        flag_named(word)
    }

    fn is_lane(self, _: Lane) -> bool {
        false
    }
}

/// The first of the words that are left of a line, as a field, and the words behind it.
pub fn first_field<F: Field>(rest: Option<&[u8]>) -> Option<(F, Option<&[u8]>)>
    ensures { MatchOption result (first_read F.named (left (λ t. t.now) rest.entry) ≡ None) (λ p. first_read F.named (left (λ t. t.now) rest.entry) ≡ Some (p.0, left (λ t. t.now) p.1)) }
{
    let (word, rest) = cut_word(rest?);
    Some((F::named(word)?, rest))
}
