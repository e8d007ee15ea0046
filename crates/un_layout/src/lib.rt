//! Places and sizes in an NCM block (NCM 1.0, 3.2 and 3.3).
//!
//! ```text
//! let at = place(12, 4, 0);                           // 14: behind a header of 12 bytes, as (14 + 14) % 4 == 0
//! let end = at + 60;                                  // where a frame of 60 bytes ends
//! let table = align(end, 4);                          // 76: where the block's table begins
//! let size = closed_size(end, 1, 8, 4, 4);            // 92: its head of 8 bytes and two pairs of 4, one of them null
//! ```
//!
//! The calls know numbers alone: indices are bytes from the block's beginning. What `place` and `align` answer is the
//! least index that will do, less than a divisor or an alignment away. Each answer has to be below 2^32.
#![tactic(auto)]

ghost use Rattle.std.specs.Prelude.{◌≡◌, ◌+◌, ◌*◌, ◌<◌, ◌≤◌, ◌^◌};
ghost use Rattle.un_frame.specs.Ntb.{Format};
ghost use Rattle.un_frame.specs.NtbForm.{IsLeastMultiple, IsLeastPlace, closed_size, least_multiple, least_place};

/// The least index from the byte `at` on at which a datagram may stand: that with `(index + 14) % divisor == remainder`, so that what
/// follows the Ethernet header is aligned (NCM 1.0, 3.3.4: wNdpInDivisor and wNdpInPayloadRemainder). There is one where the
/// remainder is below the divisor, and it must be below 2^32.
#[tactic(auto, unfolding(un_frame::specs::NtbForm::least_place))]
pub fn place(at: u32, divisor: u32, remainder: u32) -> u32
    requires some { 1 ≤ divisor }
    requires below { remainder < divisor }
    requires fits { least_place at divisor remainder < 2 ^ 32 }
    ensures place { result ≡ least_place at divisor remainder }
    ensures least { IsLeastPlace at divisor remainder result }
    ensures from { at ≤ result }
    ensures near { result < at + divisor }
{
    let wide = divisor as u64;
    let ahead = (remainder as u64 + wide - (at as u64 + 14) % wide) % wide;
    at + ahead as u32
}

/// The least multiple of `alignment` from the byte `at` on (NCM 1.0, 3.3.4: wNdpInAlignment), which must be below 2^32.
#[tactic(auto, unfolding(un_frame::specs::NtbForm::least_multiple))]
pub fn align(at: u32, alignment: u32) -> u32
    requires some { 1 ≤ alignment }
    requires fits { least_multiple at alignment < 2 ^ 32 }
    ensures place { result ≡ least_multiple at alignment }
    ensures least { IsLeastMultiple at alignment result }
    ensures from { at ≤ result }
    ensures near { result < at + alignment }
{
    at + (alignment - at % alignment) % alignment
}

/// The size in bytes of a closed block whose `count` datagrams end at `end`: its one table stands at the next aligned byte and has a head of
/// `head` bytes and, for each datagram and for the null pair that ends it, a pair of `pair` bytes. The size must be below 2^32.
pub fn closed_size(end: u32, count: u32, head: u32, pair: u32, alignment: u32) -> u32
    requires some { 1 ≤ alignment }
    requires fits { least_multiple end alignment + (head + pair * (count + 1)) < 2 ^ 32 }
    ensures size { result ≡ least_multiple end alignment + (head + pair * (count + 1)) }
    ensures block { (f : Format) → f.head ≡ head → f.pair ≡ pair → result ≡ Rattle.un_frame.specs.NtbForm.closed_size f alignment end count }
{
    let pairs = pair as u64 * (count as u64 + 1);
    align(end, alignment) + head + pairs as u32
}
