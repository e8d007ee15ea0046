//! Where a frame stands in a transfer.

ghost use Rattle.std.specs.Prelude.{◌≡◌, ◌+◌, ◌≤◌, length};
ghost use Rattle.un_frame.specs.Bytes.{slice_at};
ghost use Rattle.un_frame.specs.Spans.{place_of};

/// Where a frame stands in a transfer's bytes. A caller in C has the same two numbers in this order.
#[repr(C)]
#[derive(Clone, Copy, Debug)]
pub struct Span {
    /// Its first byte: bytes from the transfer's beginning.
    pub at: usize,
    /// How many bytes it has.
    pub size: usize,
}

impl Span {
    /// Lends the bytes that stand there.
    pub fn of(self, bytes: &[u8]) -> &[u8]
        requires { self.at + self.size ≤ length bytes.now }
        ensures { result.now ≡ slice_at bytes.now (place_of self) }
    {
        &bytes[self.at..self.at + self.size]
    }
}
