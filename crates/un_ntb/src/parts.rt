//! The datagrams of a block, lent one after the other.

ghost use Rattle.std.specs.Prelude.{◌≡◌, ◌∷◌, [], IfNone, IfOk, IfSome};
ghost use Rattle.un_frame.specs.Fault.{fault_in};
ghost use Rattle.un_frame.specs.Wire.{Reads, fault_of};
ghost use Rattle.un_ntb.specs.Formats.{class_of};

use crate::checks::{block, check, datagram};
use crate::cursor::{Cursor, skip_ended};
use crate::fields::{MOST_TABLES, ndp_index, number, pair};
use std::marker::Model;
use un_frame::Fault;

/// The datagrams of a block that are left, which a contract sees as the list of their bytes. They are slices of the
/// bytes that were read, and none is copied.
#[derive(Drop)]
pub struct Parts<'a, const WIDTH: usize> {
    block: &'a [u8],
    cursor: Cursor,
}

impl<'a, const WIDTH: usize> Model for Parts<'a, WIDTH> {
    ghost use Rattle.std.specs.Prelude.{ℕ, List, map};
    ghost use Rattle.un_frame.specs.Bytes.{slice_at};
    ghost use Rattle.un_ntb.specs.Cursor.{IsIn, left};
    ghost use Rattle.un_ntb.specs.Formats.{format_of};

    ghost Value = { List (List ℕ) };

    ghost view = { λ p. map (slice_at p.block.now) (left (format_of WIDTH) p.block.now p.cursor) };

    ghost invariant = { λ p. IsIn (format_of WIDTH) p.block.now p.cursor };
}

/// Reads a transfer as a block: its datagrams, or the first fault with its place. The whole transfer is checked before
/// a datagram is lent.
pub fn read<const WIDTH: usize>(bytes: &[u8]) -> Result<Parts<'_, WIDTH>, Fault>
    ensures found { IfOk result (λ parts. Reads (class_of WIDTH) bytes.now parts 0) }
    ensures fault { fault_in result ≡ fault_of (class_of WIDTH) bytes.now }
{
    check::<WIDTH>(bytes)?;
    let block = block::<WIDTH>(bytes);
    Ok(Parts {
        block,
        cursor: Cursor {
            pair: 0,
            pairs: 0,
            table: number::<WIDTH>(block, ndp_index::<WIDTH>()),
            tables: MOST_TABLES,
        },
    })
}

impl<'a, const WIDTH: usize> Parts<'a, WIDTH> {
    /// Lends the next datagram, for as long as the bytes stand that were read; `None` exactly where none is left.
    pub fn next(&mut self) -> Option<&'a [u8]>
        ensures part { IfSome result (λ frame. self.old ≡ frame.now ∷ self.new) }
        ensures end { IfNone result ((self.old ≡ []) × (self.new ≡ [])) }
    {
        let cursor = skip_ended::<WIDTH>(self.block, self.cursor);
        if cursor.pairs == 0 {
            return None;
        }
        let frame = datagram::<WIDTH>(self.block, cursor.pair);
        self.cursor = Cursor {
            pair: cursor.pair + pair::<WIDTH>(),
            pairs: cursor.pairs - 1,
            ..cursor
        };
        Some(frame)
    }
}
