//! Numbers and bytes as texts.

ghost use Rattle.std.specs.Prelude.{◌≡◌};
ghost use Rattle.un_script.specs.Numbers.{byte_of, number_of};

use hex::FromHex;
use un_text::numeral;

/// The greatest number of ten digits.
const MOST: u64 = 9_999_999_999;

/// The number that a word is: one to ten digits without leading zeros. Nothing of any other word.
pub fn number(word: &[u8]) -> Option<u64>
    ensures { result ≡ number_of word.now }
{
    numeral(word, MOST)
}

/// The byte that two hexadecimal digits of either case are. Nothing of any other word.
pub fn byte(word: &[u8]) -> Option<u8>
    ensures { result ≡ byte_of word.now }
{
    match <[u8; 1] as FromHex>::from_hex(word) {
        Ok(bytes) => Some(bytes[0]),
        Err(_) => None,
    }
}
