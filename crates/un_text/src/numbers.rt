//! Numbers as digits, read only as they are written: without leading zeros.

ghost use Rattle.std.specs.Prelude.{◌≡◌};
ghost use Rattle.std.specs.List.{list_all};
ghost use Rattle.un_text.specs.Words.{is_digit, number_in, short_in, long_in};

/// Whether a zero stands before another digit.
#[tactic(auto, using(crate::proofs::ReadNumbers::short_leading, crate::proofs::ReadNumbers::long_leading))]
fn has_leading_zero(word: &[u8]) -> bool
    ensures { result ≡ Rattle.un_text.specs.Words.has_leading_zero word.now }
{
    if word.len() < 2 {
        return false;
    }
    word[0] == b'0'
}

/// Whether each byte is a digit.
fn is_digits(word: &[u8]) -> bool
    ensures { result ≡ list_all is_digit word.now }
{
    word.iter().all(|&c| (b'0'..=b'9').contains(&c))
}

/// Whether a word is digits, without leading zeros.
fn is_numeral(word: &[u8]) -> bool
    ensures { result ≡ Rattle.un_text.specs.Words.is_numeral word.now }
{
    is_digits(word) && !word.is_empty() && !has_leading_zero(word)
}

/// The number that a word is, where it is at most so much: digits without leading zeros.
pub fn numeral(word: &[u8], most: u64) -> Option<u64>
    ensures { result ≡ number_in most word.now }
{
    if !is_numeral(word) {
        return None;
    }
    let mut value = 0;
    for &digit in word {
        let digit = u64::from(digit - b'0');
        if value > most / 10 {
            return None;
        }
        let tens = value * 10;
        if digit > most - tens {
            return None;
        }
        value = tens + digit;
    }
    Some(value)
}

/// A number of 32 bits, as digits without leading zeros.
pub fn short(word: &[u8]) -> Option<u32>
    ensures { result ≡ short_in word.now }
{
    match numeral(word, 4_294_967_295) {
        Some(n) => Some(n as u32),
        None => None,
    }
}

/// A number of 64 bits, as digits without leading zeros.
pub fn long(word: &[u8]) -> Option<u64>
    ensures { result ≡ long_in word.now }
{
    numeral(word, 18_446_744_073_709_551_615)
}
