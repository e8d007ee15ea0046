//! A text on its way to a sink.

ghost use Rattle.std.specs.Prelude.{◌≡◌, ◌+◌, ◌≤◌, [], length, is_err};
ghost use Rattle.hex.specs.Hex.{encode_lower};
ghost use Rattle.un_text.specs.Puts.{Puts, blank};

use crate::buffer::Buffer;
use un_io::{Sink, WriteFault, write_whole};

/// The bytes that are put as digits at once.
const PIECE: usize = 2048;

/// A text on its way to a sink, which is put on it piece after piece: what isn't in the sink yet, and whether a write of it has failed.
/// No piece has an answer; `finish` answers for all of them. After a write that failed nothing more is written, and what is put is
/// dropped. It takes no memory but its 8,192 bytes on the stack.
#[derive(Drop)]
pub struct Page {
    /// What isn't in the sink yet: at most 8,192 bytes.
    pub pending: Buffer,
    /// Whether a write has failed.
    pub failed: bool,
}

impl Page {
    /// A page on which nothing was put.
    pub fn blank() -> Page
        ensures { result ≡ blank }
    {
        Page {
            pending: Buffer::make(),
            failed: false,
        }
    }

    /// Writes what is pending to the sink.
    fn flush<O: Sink>(&mut self, out: &mut O)
        ensures put { Puts (O.held out.old) (O.faults out.old) self.old (O.held out.new) (O.faults out.new) self.new [] }
        ensures empty { self.new.pending ≡ [] }
    {
        if !self.failed {
            self.failed = write_whole(out, self.pending.as_slice()).is_err();
        }
        self.pending.clear();
    }

    /// Sees that so many bytes, at most 8,192, have room behind what is pending.
    pub fn reserve<O: Sink>(&mut self, out: &mut O, size: usize)
        requires { size ≤ 8192 }
        ensures put { Puts (O.held out.old) (O.faults out.old) self.old (O.held out.new) (O.faults out.new) self.new [] }
        ensures room { length self.new.pending + size ≤ 8192 }
    {
        if self.pending.room() < size {
            self.flush(out);
        }
    }

    /// Puts a text of at most 8,192 bytes.
    pub fn put<O: Sink>(&mut self, out: &mut O, text: &[u8])
        requires { length text.now ≤ 8192 }
        ensures { Puts (O.held out.old) (O.faults out.old) self.old (O.held out.new) (O.faults out.new) self.new text.now }
    {
        self.reserve(out, text.len());
        self.pending.push(text);
    }

    /// Puts bytes as lower-case hexadecimal digits, two for each.
    pub fn put_hex<O: Sink>(&mut self, out: &mut O, bytes: &[u8])
        ensures { Puts (O.held out.old) (O.faults out.old) self.old (O.held out.new) (O.faults out.new) self.new (encode_lower bytes.now) }
    {
        let mut at = 0;
        while at < bytes.len() {
            let count = (bytes.len() - at).min(PIECE);
            self.reserve(out, 2 * count);
            self.pending.push_hex(&bytes[at..at + count]);
            at += count;
        }
    }

    /// Writes what is pending, and answers for all that was put: the error where a write has failed.
    pub fn finish<O: Sink>(&mut self, out: &mut O) -> Result<(), WriteFault>
        ensures put { Puts (O.held out.old) (O.faults out.old) self.old (O.held out.new) (O.faults out.new) self.new [] }
        ensures empty { self.new.pending ≡ [] }
        ensures answer { is_err result ≡ self.new.failed }
    {
        self.flush(out);
        if self.failed { Err(WriteFault) } else { Ok(()) }
    }
}
