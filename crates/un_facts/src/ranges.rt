//! Ranges and spans of numbers, and a test as a number.

ghost use Rattle.std.specs.Prelude.{◌≡◌};
ghost use Rattle.un_facts.specs.Numbers.{is_between, one_if, within};

/// Whether a number is in a range, both ends included.
pub fn between(low: u32, high: u32, number: u32) -> bool
    ensures { result ≡ is_between low high number }
{
    low <= number && number <= high
}

/// Whether a number stands in the span from `from` (inclusive) to `to` (exclusive).
pub fn spans(from: u64, to: u64, number: u64) -> bool
    ensures { result ≡ within from to number }
{
    from <= number && number < to
}

/// 1 where it holds, and else 0, for sums.
pub fn count(holds: bool) -> u32
    ensures { result ≡ one_if holds }
{
    if holds { 1 } else { 0 }
}
