//! The bytes of one call of a source in memory.

ghost use Rattle.std.specs.Prelude.{◌≡◌, min, length, take};

/// Puts the first of the bytes into the front of the buffer, at most so many, and answers how many.
pub fn give(bytes: &[u8], most: usize, buf: &mut [u8]) -> usize
    ensures count { result ≡ min (min most (length buf.new)) (length bytes.now) }
    ensures given { take result buf.new ≡ take result bytes.now }
{
    let count = most.min(buf.len()).min(bytes.len());
    buf[..count].copy_from_slice(&bytes[..count]);
    count
}
