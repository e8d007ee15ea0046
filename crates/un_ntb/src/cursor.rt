//! A walk over the datagrams of a block that has no fault.

ghost use Rattle.std.specs.Prelude.{◌≡◌, ◌≢◌, ◌+◌, ◌<◌, false, []};
ghost use Rattle.un_frame.specs.Ntb.{IsTable, pair_at};
ghost use Rattle.un_ntb.specs.Cursor.{IsIn, left};
ghost use Rattle.un_ntb.specs.Formats.{format_of};

use crate::checks::{is_null, pair_count};
use crate::fields::{head, next_ndp_index, number, short};

/// A place in the datagrams of a block: so many pairs of a table are left from the one at `pair`, and
/// at most so many tables after it from the one at `table`, where 0 is none.
#[derive(Clone, Copy, Debug)]
pub struct Cursor {
    pub pair: usize,
    pub pairs: usize,
    pub table: usize,
    pub tables: usize,
}

/// The cursor at the first pair of the next table.
fn open<const WIDTH: usize>(block: &[u8], cursor: Cursor) -> Cursor
    requires sound { IsIn (format_of WIDTH) block.now cursor }
    requires none { cursor.pairs ≡ 0 }
    requires some { cursor.table ≢ 0 }
    requires table { IsTable (format_of WIDTH) block.now cursor.table }
    requires more { 0 < cursor.tables }
    ensures sound { IsIn (format_of WIDTH) block.now result }
    ensures same { left (format_of WIDTH) block.now result ≡ left (format_of WIDTH) block.now cursor }
    ensures fewer { result.tables + 1 ≡ cursor.tables }
{
    Cursor {
        pair: cursor.table + head::<WIDTH>(),
        pairs: pair_count::<WIDTH>(short(block, cursor.table + 4)),
        table: number::<WIDTH>(block, cursor.table + next_ndp_index::<WIDTH>()),
        tables: cursor.tables - 1,
    }
}

/// The cursor at the next datagram, or with no pair left where there is none.
pub fn skip_ended<const WIDTH: usize>(block: &[u8], cursor: Cursor) -> Cursor
    requires { IsIn (format_of WIDTH) block.now cursor }
    ensures sound { IsIn (format_of WIDTH) block.now result }
    ensures same { left (format_of WIDTH) block.now result ≡ left (format_of WIDTH) block.now cursor }
    ensures end { result.pairs ≡ 0 → left (format_of WIDTH) block.now result ≡ [] }
    ensures datagram { 0 < result.pairs → Rattle.un_frame.specs.Ntb.is_null (pair_at (format_of WIDTH) block.now result.pair) ≡ false }
{
    let mut cursor = cursor;
    loop {
        if cursor.pairs == 0 {
            if cursor.table == 0 || cursor.tables == 0 {
                return cursor;
            }
            cursor = open::<WIDTH>(block, cursor);
        } else if is_null::<WIDTH>(block, cursor.pair) {
            cursor.pairs = 0;
        } else {
            return cursor;
        }
    }
}
