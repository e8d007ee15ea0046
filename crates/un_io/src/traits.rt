//! What bytes come from and go to.

ghost use Rattle.std.specs.Prelude.{◌<◌, ◌≤◌, length, IfOk, OnErr, Option, List, ℕ};
ghost use Rattle.std.specs.Io.KnownBytes.{ReadConsumes, WriteAppends};
ghost use Rattle.un_io.specs.Io.{Rose};

/// A read or a write failed; the count of faults of the source or the sink says so too.
#[derive(Clone, Copy, Debug, PartialEq, Eq)]
pub struct Failed;

/// What bytes come from: a file, standard input, memory.
pub trait Source {
    /// How often it has failed. The count never falls; one that stands at the greatest u64 counts as risen.
    ghost faults: { Self → ℕ };

    /// The bytes that it has still to give, where it tells them.
    ghost left: { Self → Option (List ℕ) };

    /// Puts the next bytes into the front of the buffer, which isn't empty, and answers how many. `Ok(0)` is the end of the
    /// bytes, and comes only where none are left. `Failed` comes only where the count rose, and then no byte was taken.
    fn read(&mut self, buf: &mut [u8]) -> Result<usize, Failed>
        requires { 0 < length buf.old }
        ensures bound { IfOk result (λ n. n ≤ length buf.new) }
        ensures bytes { ReadConsumes (left self.old) (left self.new) result buf.new }
        ensures never_falls { faults self.old ≤ faults self.new }
        ensures cause { OnErr result (Rose (faults self.old) (faults self.new)) };
}

/// What bytes go to: a file, standard output, memory.
pub trait Sink {
    /// How often it has failed. The count never falls; one that stands at the greatest u64 counts as risen.
    ghost faults: { Self → ℕ };

    /// The bytes that it holds, where it tells them.
    ghost held: { Self → Option (List ℕ) };

    /// Adds the first of the bytes, which aren't none, and answers how many, at least one. `Failed` comes only where the count
    /// rose, and then nothing was added.
    fn write(&mut self, bytes: &[u8]) -> Result<usize, Failed>
        requires { 0 < length bytes.now }
        ensures bound { IfOk result (λ n. (1 ≤ n) × (n ≤ length bytes.now)) }
        ensures bytes { WriteAppends (held self.old) (held self.new) result bytes.now }
        ensures never_falls { faults self.old ≤ faults self.new }
        ensures cause { OnErr result (Rose (faults self.old) (faults self.new)) };
}
