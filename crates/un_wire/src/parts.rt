//! The frames of a transfer, lent one after the other.

ghost use Rattle.std.specs.Prelude.{◌≡◌, ◌∷◌, [], IfNone, IfOk, IfSome, length};
ghost use Rattle.un_frame.specs.Fault.{fault_in};
ghost use Rattle.un_frame.specs.Wire.{Reads, fault_of};

use crate::cursor::{Cursor, begin, commands, count_from};
use std::marker::Model;
use un_frame::{Class, Fault};

/// The frames of a transfer that are left, as parts of its bytes, and how many commands the transfer has. A contract sees the list
/// of frames and the number.
#[derive(Drop)]
pub struct Parts<'a> {
    pub(crate) bytes: &'a [u8],
    pub(crate) cursor: Cursor,
    pub(crate) commands: u64,
}

impl<'a> Model for Parts<'a> {
    ghost use Rattle.un_frame.specs.Wire.{Read};
    ghost use Rattle.un_wire.specs.Left.{IsReading, read_in};

    ghost Value = { Read };

    ghost view = { read_in };

    ghost invariant = { IsReading };
}

impl<'a> Parts<'a> {
    /// Lends the next frame, for as long as the bytes stand that were read; `None` exactly where none is left. By its type what is
    /// lent is a slice of these bytes, and no copy.
    pub fn next(&mut self) -> Option<&'a [u8]>
        ensures part { IfSome result (λ frame. self.old.frames ≡ frame.now ∷ self.new.frames) }
        ensures end { IfNone result ((self.old.frames ≡ []) × (self.new.frames ≡ [])) }
        ensures commands { self.new.commands ≡ self.old.commands }
    {
        let part = self.cursor.part(self.bytes);
        self.cursor = self.cursor.next(self.bytes);
        part
    }

    /// How many frames are left. The code walks over them each time, and copies none.
    pub fn count(&self) -> u64
        ensures { result ≡ length self.now.frames }
    {
        count_from(self.bytes, self.cursor)
    }

    /// How many commands the whole transfer has, which EEM alone knows.
    pub fn commands(&self) -> u64
        ensures { result ≡ self.now.commands }
    {
        self.commands
    }
}

/// Reads a transfer of this class, whatever else a link's parameters are: its frames, lent from its bytes, exactly where the grammar
/// of the class reads it; else the first fault with its place. The whole transfer is checked before a frame is lent.
pub fn read(class: Class, bytes: &[u8]) -> Result<Parts<'_>, Fault>
    ensures found { IfOk result (λ parts. Reads class bytes.now parts.frames parts.commands) }
    ensures fault { fault_in result ≡ fault_of class bytes.now }
{
    let cursor = begin(class, bytes)?;
    Ok(Parts {
        bytes,
        cursor,
        commands: commands(class, bytes),
    })
}
