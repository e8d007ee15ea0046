//! A buffer before a sink, and the words of a text.

ghost use Rattle.std.specs.Prelude.{◌≡◌, ◌+◌, ◌*◌, ◌≤◌, ◌∷◌, ◌++◌, [], length, decimal, take};
ghost use Rattle.hex.specs.Hex.{encode_lower};

use crate::digits::encode;
use std::marker::Model;

/// Text that isn't in the sink yet, at most 8,192 bytes, on the stack. Contracts see it as its bytes.
#[derive(Drop)]
pub struct Buffer {
    bytes: [u8; 8192],
    used: usize,
}

impl Model for Buffer {
    ghost use Rattle.std.specs.Prelude.{◌≤◌, ℕ, List, take};

    ghost Value = { List ℕ };

    ghost view = { λ b. take b.used b.bytes };

    ghost invariant = { λ b. b.used ≤ 8192 };
}

/// In a function of its own, so that no proof above computes the array.
fn blank() -> [u8; 8192] {
    [0; 8192]
}

impl Buffer {
    /// An empty buffer.
    pub fn make() -> Buffer
        ensures { result ≡ [] }
    {
        Buffer {
            bytes: blank(),
            used: 0,
        }
    }

    /// Its bytes, of which there are at most 8,192.
    pub fn as_slice(&self) -> &[u8]
        ensures text { result.now ≡ self.now }
        ensures size { length self.now ≤ 8192 }
    {
        &self.bytes[..self.used]
    }

    /// Takes all bytes out.
    pub(crate) fn clear(&mut self)
        ensures { self.new ≡ [] }
    {
        self.used = 0;
    }

    /// How many bytes more it can take.
    pub(crate) fn room(&self) -> usize
        ensures { result + length self.now ≡ 8192 }
    {
        8192 - self.used
    }

    /// Adds a text that has room.
    pub fn push(&mut self, text: &[u8])
        requires { length self.old + length text.now ≤ 8192 }
        ensures { self.new ≡ self.old ++ text.now }
    {
        put(&mut self.bytes, self.used, text);
        self.used += text.len();
    }

    /// Adds bytes as lower-case hexadecimal digits, two for each, that have room.
    pub fn push_hex(&mut self, bytes: &[u8])
        requires { length self.old + 2 * length bytes.now ≤ 8192 }
        ensures { self.new ≡ self.old ++ encode_lower bytes.now }
    {
        put_hex(&mut self.bytes, self.used, bytes);
        self.used += 2 * bytes.len();
    }
}

/// Writes a text at a place.
fn put(bytes: &mut [u8], at: usize, text: &[u8])
    requires { at + length text.now ≤ length bytes.old }
    ensures { take (at + length text.now) bytes.new ≡ take at bytes.old ++ text.now }
{
    bytes[at..at + text.len()].copy_from_slice(text);
}

/// Writes bytes at a place, in hexadecimal digits.
fn put_hex(bytes: &mut [u8], at: usize, from: &[u8])
    requires { at + 2 * length from.now ≤ length bytes.old }
    ensures { take (at + 2 * length from.now) bytes.new ≡ take at bytes.old ++ encode_lower from.now }
{
    encode(from, &mut bytes[at..at + 2 * from.len()]);
}

/// Adds a word behind a space, both of which have room.
pub fn word(buffer: &mut Buffer, text: &[u8])
    requires { length buffer.old + length text.now + 1 ≤ 8192 }
    ensures { buffer.new ≡ buffer.old ++ 32 ∷ text.now }
{
    buffer.push(b" ");
    buffer.push(text);
}

/// Adds a decimal number behind a space: at most 21 bytes, which have room.
pub fn number(buffer: &mut Buffer, n: u64)
    requires { length buffer.old + 21 ≤ 8192 }
    ensures text { buffer.new ≡ buffer.old ++ 32 ∷ decimal n }
    ensures longer { length buffer.new ≤ length buffer.old + 21 }
{
    let mut digits = itoa::Buffer::new();
    word(buffer, digits.format(n).as_bytes());
}
