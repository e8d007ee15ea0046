//! One line more in a journal.

ghost use Rattle.std.specs.Prelude.{◌∷◌, []};
ghost use Rattle.un_journal.specs.Log.{CarriesItsBytes, HasReason};
ghost use Rattle.un_lane.specs.Way.{Adds, HasRoom};

use un_journal::{Journal, Line};

/// Writes a line with its bytes.
pub(crate) fn write(journal: &mut Journal, line: Line, bytes: &[u8])
    requires room { HasRoom journal.old ((line, bytes.now) ∷ []) }
    requires carried { CarriesItsBytes line bytes.now }
    requires reason { HasReason line }
    ensures { Adds journal.old journal.new ((line, bytes.now) ∷ []) }
{
    journal.push(line, bytes);
}
