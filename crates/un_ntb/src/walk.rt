//! A walk over the datagrams of a transfer that keeps no borrow of its bytes: whoever owns the bytes keeps a cursor beside
//! them, and hands both to each call.

ghost use Rattle.std.specs.Prelude.{◌≡◌, ◌∷◌, ◌+◌, ◌≤◌, [], List, ℕ, IfNone, IfOk, IfSome, drop, length};
ghost use Rattle.un_frame.specs.Bytes.{Place};
ghost use Rattle.un_frame.specs.Fault.{fault_in};
ghost use Rattle.un_frame.specs.Parts.{places_as};
ghost use Rattle.un_frame.specs.Spans.{place_of};
ghost use Rattle.un_frame.specs.Wire.{Reads, fault_of};
ghost use Rattle.un_ntb.specs.Formats.{class_of, format_of};
ghost use Rattle.un_ntb.specs.Walk.{IsOn, parts_left, places_left};

use crate::checks::{block, check, datagram, span_of};
use crate::cursor::{Cursor, skip_ended};
use crate::fields::{MOST_TABLES, ndp_index, number, pair};
use un_frame::{Fault, Span};

/// The cursor at the first datagram of a transfer, or the first fault with its place. The whole transfer is checked first.
pub fn begin<const WIDTH: usize>(bytes: &[u8]) -> Result<Cursor, Fault>
    ensures found { IfOk result (λ cursor. Reads (class_of WIDTH) bytes.now (parts_left (format_of WIDTH) bytes.now cursor) 0) }
    ensures on { IfOk result (λ cursor. IsOn (format_of WIDTH) bytes.now cursor) }
    ensures places { IfOk result (λ cursor. places_left (format_of WIDTH) bytes.now cursor ≡ places_as (class_of WIDTH) bytes.now) }
    ensures fault { fault_in result ≡ fault_of (class_of WIDTH) bytes.now }
{
    check::<WIDTH>(bytes)?;
    let block = block::<WIDTH>(bytes);
    let cursor = Cursor {
        pair: 0,
        pairs: 0,
        table: number::<WIDTH>(block, ndp_index::<WIDTH>()),
        tables: MOST_TABLES,
    };
    Ok(skip_ended::<WIDTH>(block, cursor))
}

/// Lends the datagram at the cursor; `None` exactly where none is left.
pub fn part_at<const WIDTH: usize>(bytes: &[u8], cursor: Cursor) -> Option<&[u8]>
    requires { IsOn (format_of WIDTH) bytes.now cursor }
    ensures part { IfSome result (λ part. (rest : List (List ℕ)) × (parts_left (format_of WIDTH) bytes.now cursor ≡ part.now ∷ rest)) }
    ensures end { IfNone result (parts_left (format_of WIDTH) bytes.now cursor ≡ []) }
{
    if cursor.pairs == 0 {
        return None;
    }
    Some(datagram::<WIDTH>(block::<WIDTH>(bytes), cursor.pair))
}

/// Tells where the datagram at the cursor stands; `None` exactly where none is left.
pub fn span_at<const WIDTH: usize>(bytes: &[u8], cursor: Cursor) -> Option<Span>
    requires { IsOn (format_of WIDTH) bytes.now cursor }
    ensures span { IfSome result (λ span. (rest : List Place) × (places_left (format_of WIDTH) bytes.now cursor ≡ place_of span ∷ rest)) }
    ensures inside { IfSome result (λ span. span.at + span.size ≤ length bytes.now) }
    ensures end { IfNone result (places_left (format_of WIDTH) bytes.now cursor ≡ []) }
{
    if cursor.pairs == 0 {
        return None;
    }
    Some(span_of::<WIDTH>(block::<WIDTH>(bytes), cursor.pair))
}

/// The cursor at the next datagram; one at the end stays.
pub fn next<const WIDTH: usize>(bytes: &[u8], cursor: Cursor) -> Cursor
    requires { IsOn (format_of WIDTH) bytes.now cursor }
    ensures on { IsOn (format_of WIDTH) bytes.now result }
    ensures one { parts_left (format_of WIDTH) bytes.now result ≡ drop 1 (parts_left (format_of WIDTH) bytes.now cursor) }
    ensures places { places_left (format_of WIDTH) bytes.now result ≡ drop 1 (places_left (format_of WIDTH) bytes.now cursor) }
{
    if cursor.pairs == 0 {
        return cursor;
    }
    let after = Cursor {
        pair: cursor.pair + pair::<WIDTH>(),
        pairs: cursor.pairs - 1,
        ..cursor
    };
    skip_ended::<WIDTH>(block::<WIDTH>(bytes), after)
}
