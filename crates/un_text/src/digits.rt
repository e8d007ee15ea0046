//! Hexadecimal digits, two for each byte. All texts of this project write bytes so, in lower case.

ghost use Rattle.std.specs.Prelude.{◌≡◌, ◌*◌, ◌<◌, ◌&&◌, nat_lt, length, slice_index, unwrap_or, MatchResult, true, false};
ghost use Rattle.hex.specs.Hex.{encode_lower, lower_digits, hex_digit_value, decode_of};

/// For each byte the value of the digit that it is, of either case, and 255 where it is none.
#[rattlefmt::skip]
static VALUES: [u8; 256] = [
    255, 255, 255, 255, 255, 255, 255, 255, 255, 255, 255, 255, 255, 255, 255, 255,
    255, 255, 255, 255, 255, 255, 255, 255, 255, 255, 255, 255, 255, 255, 255, 255,
    255, 255, 255, 255, 255, 255, 255, 255, 255, 255, 255, 255, 255, 255, 255, 255,
    0, 1, 2, 3, 4, 5, 6, 7, 8, 9, 255, 255, 255, 255, 255, 255,
    255, 10, 11, 12, 13, 14, 15, 255, 255, 255, 255, 255, 255, 255, 255, 255,
    255, 255, 255, 255, 255, 255, 255, 255, 255, 255, 255, 255, 255, 255, 255, 255,
    255, 10, 11, 12, 13, 14, 15, 255, 255, 255, 255, 255, 255, 255, 255, 255,
    255, 255, 255, 255, 255, 255, 255, 255, 255, 255, 255, 255, 255, 255, 255, 255,
    255, 255, 255, 255, 255, 255, 255, 255, 255, 255, 255, 255, 255, 255, 255, 255,
    255, 255, 255, 255, 255, 255, 255, 255, 255, 255, 255, 255, 255, 255, 255, 255,
    255, 255, 255, 255, 255, 255, 255, 255, 255, 255, 255, 255, 255, 255, 255, 255,
    255, 255, 255, 255, 255, 255, 255, 255, 255, 255, 255, 255, 255, 255, 255, 255,
    255, 255, 255, 255, 255, 255, 255, 255, 255, 255, 255, 255, 255, 255, 255, 255,
    255, 255, 255, 255, 255, 255, 255, 255, 255, 255, 255, 255, 255, 255, 255, 255,
    255, 255, 255, 255, 255, 255, 255, 255, 255, 255, 255, 255, 255, 255, 255, 255,
    255, 255, 255, 255, 255, 255, 255, 255, 255, 255, 255, 255, 255, 255, 255, 255,
];

/// The lower-case digit of a number below 16.
fn digit(n: u8) -> u8
    requires { n < 16 }
    ensures { result ≡ slice_index lower_digits n }
{
    if n < 10 { n + 48 } else { n + 87 }
}

/// Writes bytes as lower-case digits, two for each, which are just what there is room for. Its loop has no way out, so
/// that the compiler can do several bytes at once.
pub(crate) fn encode(from: &[u8], to: &mut [u8])
    requires { length to.old ≡ 2 * length from.now }
    ensures { to.new ≡ encode_lower from.now }
{
    for index in 0..from.len() {
        let byte = from[index];
        to[2 * index] = digit(byte / 16);
        to[2 * index + 1] = digit(byte % 16);
    }
}

/// The value of a digit, and 255 of any other byte.
fn value(c: u8) -> u8
    ensures { result ≡ unwrap_or (hex_digit_value c) 255 }
{
    VALUES[usize::from(c)]
}

/// Whether all before were digits, and these two values are of digits.
fn are_digits(good: bool, high: u8, low: u8) -> bool
    ensures { result ≡ (good && (nat_lt high 16 && nat_lt low 16)) }
{
    good & (high < 16) & (low < 16)
}

/// Writes the bytes that pairs of digits of either case are, for just as many as there is room for; false where some byte
/// is no digit, and then what is written isn't told.
pub fn decode(digits: &[u8], to: &mut [u8]) -> bool
    requires { length digits.now ≡ 2 * length to.old }
    ensures decoded { MatchResult (decode_of digits.now) (λ bytes. (result ≡ true) × (to.new ≡ bytes)) (λ _. result ≡ false) }
    ensures size { length to.new ≡ length to.old }
{
    let mut good = true;
    for index in 0..to.len() {
        let high = value(digits[2 * index]);
        let low = value(digits[2 * index + 1]);
        good = are_digits(good, high, low);
        to[index] = high % 16 * 16 + low % 16;
    }
    good
}
