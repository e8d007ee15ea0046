//! The frames of a transfer, lent one after the other.

ghost use Rattle.std.specs.Prelude.{◌≡◌, ◌∷◌, [], IfNone, IfOk, IfSome};
ghost use Rattle.un_frame.specs.Fault.{fault_in};
ghost use Rattle.un_frame.specs.Rndis.{rndis_fault};
ghost use Rattle.un_rndis.specs.Transfer.{IsTransfer};

use crate::walk::{begin, next, part_at};
use std::marker::Model;
use un_frame::Fault;

/// The messages of a transfer that are left, which a contract sees as the list of their frames' bytes. The frames are
/// slices of the bytes that were read, and none is copied.
#[derive(Drop)]
pub struct Messages<'a> {
    bytes: &'a [u8],
    at: usize,
}

impl<'a> Model for Messages<'a> {
    ghost use Rattle.std.specs.Prelude.{ℕ, List};
    ghost use Rattle.un_rndis.specs.Frames.{IsOn, frames_from};

    ghost Value = { List (List ℕ) };

    ghost view = { λ m. frames_from m.bytes.now m.at };

    ghost invariant = { λ m. IsOn m.bytes.now m.at };
}

/// Reads a transfer as messages with their frames, or answers the first fault with its place. The whole transfer is checked
/// before a frame is lent.
pub fn read(bytes: &[u8]) -> Result<Messages<'_>, Fault>
    ensures found { IfOk result (λ messages. IsTransfer bytes.now messages) }
    ensures fault { fault_in result ≡ rndis_fault bytes.now }
{
    let at = begin(bytes)?;
    Ok(Messages { bytes, at })
}

impl<'a> Messages<'a> {
    /// Lends the next frame, for as long as the bytes stand that were read; `None` exactly where none is left.
    pub fn next(&mut self) -> Option<&'a [u8]>
        ensures frame { IfSome result (λ frame. self.old ≡ frame.now ∷ self.new) }
        ensures end { IfNone result ((self.old ≡ []) × (self.new ≡ [])) }
    {
        let frame = part_at(self.bytes, self.at);
        self.at = next(self.bytes, self.at);
        frame
    }
}
