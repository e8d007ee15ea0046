//! The table of lines, as it is written and read: each kind's word, and its fields in their order.

ghost use Rattle.std.specs.Prelude.{◌≡◌, ◌≤◌, ◌++◌, [], MatchOption, Some, None, length};
ghost use Rattle.un_journal.specs.History;
ghost use Rattle.un_journal.specs.Text.{name_of, words_of};
ghost use Rattle.un_journal.specs.TraceLines;
ghost use Rattle.un_journal.specs.TraceLines.{left, line_in, line_named, digits_left};
ghost use Rattle.un_text.specs.Words.{spaced};

use crate::fields::{Field, first_field};
use crate::lines::Line;
use un_frame::Lane;
use un_text::{Buffer, cut_word, is};

/// Hands the table to a macro, behind what that is given. A row is the first word of a kind's text, and its fields in the order of
/// their words, each spelled by its type.
macro_rules! rows {
    ($with:ident $given:tt) => {
        $with! {
            $given
            b"took" => Took { lane, sender },
            b"refused" => Refused { lane, sender, why },
            b"made" => Made { lane, serial, from, to },
            b"waited" => Waited { lane },
            b"posted" => Posted { lane },
            b"flying" => Flying { lane, serial },
            b"landed" => Landed { lane, serial },
            b"failed" => Failed { lane, serial, kind },
            b"retried" => Retried { lane, serial, attempt },
            b"marked" => Marked { lane, serial, cause },
            b"cut" => Cut { lane, serial, cause },
            b"dropped" => Dropped { lane, from, to, cause },
            b"txhome" => TxHome { lane, serial },
            b"opened" => Opened { lane, serial },
            b"gave" => Gave { lane, number },
            b"recalled" => Recalled { lane },
            b"cleared" => Cleared { lane },
            b"did" => Control { index, forced },
            b"settled" => Settled { tx_out, rx_out, tx_in, rx_in },
        }
    };
}

/// Writes a line by its row.
macro_rules! write_row {
    (($buffer:ident, $line:ident) $($name:literal => $kind:ident { $($field:ident),* },)*) => {
        match $line {
            $(Line::$kind { $($field),* } => {
                $buffer.push($name);
                $($field.put($buffer);)*
            })*
        }
    };
}

/// Reads the line whose row has this word and so many fields, and what is left of the words.
macro_rules! read_rows {
    (($count:tt, $word:ident, $rest:ident) $($name:literal => $kind:ident { $($field:ident),* },)*) => {{
        $(read_row!($count, $word, $rest, $name, $kind, $($field),*);)*
        None
    }};
}

/// Reads a line by its row, where that has so many fields.
macro_rules! read_row {
    (1, $word:ident, $rest:ident, $name:literal, $kind:ident, $a:ident) => {
        read_row!(row, $word, $rest, $name, $kind, $a)
    };
    (2, $word:ident, $rest:ident, $name:literal, $kind:ident, $a:ident, $b:ident) => {
        read_row!(row, $word, $rest, $name, $kind, $a, $b)
    };
    (3, $word:ident, $rest:ident, $name:literal, $kind:ident, $a:ident, $b:ident, $c:ident) => {
        read_row!(row, $word, $rest, $name, $kind, $a, $b, $c)
    };
    (4, $word:ident, $rest:ident, $name:literal, $kind:ident, $a:ident, $b:ident, $c:ident, $d:ident) => {
        read_row!(row, $word, $rest, $name, $kind, $a, $b, $c, $d)
    };
    (row, $word:ident, $rest:ident, $name:literal, $kind:ident, $($field:ident),*) => {
        if is($word, $name) {
            $(let ($field, $rest) = first_field($rest)?;)*
            return Some((Line::$kind { $($field),* }, $rest));
        }
    };
    ($($other:tt)*) => {};
}

/// Asks a line's first field whether it is this lane.
macro_rules! begin_row {
    (($line:ident, $lane:ident) $($name:literal => $kind:ident { $first:ident $(, $more:ident)* },)*) => {
        match $line {
            $(Line::$kind { $first, .. } => $first.is_lane($lane),)*
        }
    };
}

/// Adds a line's name and its words, but for the word of its bytes: at most 91 bytes.
pub fn head(buffer: &mut Buffer, line: Line)
    requires { length buffer.old ≤ 8064 }
    ensures { buffer.new ≡ buffer.old ++ (name_of line ++ spaced (words_of line)) }
{
    rows!(write_row(buffer, line))
}

/// The line of this name with one field, which stand first in the words that are left, and the words behind them.
fn one_named<'a>(name: &[u8], rest: Option<&'a [u8]>) -> Option<(Line, Option<&'a [u8]>)>
    ensures { MatchOption result (TraceLines.one_named name.now (left (λ t. t.now) rest.entry) ≡ None) (λ p. TraceLines.one_named name.now (left (λ t. t.now) rest.entry) ≡ Some (p.0, left (λ t. t.now) p.1)) }
{
    rows!(read_rows(1, name, rest))
}

/// The line of this name with two fields, which stand first in the words that are left, and the words behind them.
fn two_named<'a>(name: &[u8], rest: Option<&'a [u8]>) -> Option<(Line, Option<&'a [u8]>)>
    ensures { MatchOption result (TraceLines.two_named name.now (left (λ t. t.now) rest.entry) ≡ None) (λ p. TraceLines.two_named name.now (left (λ t. t.now) rest.entry) ≡ Some (p.0, left (λ t. t.now) p.1)) }
{
    rows!(read_rows(2, name, rest))
}

/// The line of this name with three fields, which stand first in the words that are left, and the words behind them.
fn three_named<'a>(name: &[u8], rest: Option<&'a [u8]>) -> Option<(Line, Option<&'a [u8]>)>
    ensures { MatchOption result (TraceLines.three_named name.now (left (λ t. t.now) rest.entry) ≡ None) (λ p. TraceLines.three_named name.now (left (λ t. t.now) rest.entry) ≡ Some (p.0, left (λ t. t.now) p.1)) }
{
    rows!(read_rows(3, name, rest))
}

/// The line of this name with four fields, which stand first in the words that are left, and the words behind them.
fn four_named<'a>(name: &[u8], rest: Option<&'a [u8]>) -> Option<(Line, Option<&'a [u8]>)>
    ensures { MatchOption result (TraceLines.four_named name.now (left (λ t. t.now) rest.entry) ≡ None) (λ p. TraceLines.four_named name.now (left (λ t. t.now) rest.entry) ≡ Some (p.0, left (λ t. t.now) p.1)) }
{
    rows!(read_rows(4, name, rest))
}

/// The line of this name, and the words behind its fields.
fn named<'a>(name: &[u8], rest: Option<&'a [u8]>) -> Option<(Line, Option<&'a [u8]>)>
    ensures { MatchOption result (line_named name.now (left (λ t. t.now) rest.entry) ≡ None) (λ p. line_named name.now (left (λ t. t.now) rest.entry) ≡ Some (p.0, left (λ t. t.now) p.1)) }
{
    if let Some(found) = one_named(name, rest) {
        return Some(found);
    }
    if let Some(found) = two_named(name, rest) {
        return Some(found);
    }
    if let Some(found) = three_named(name, rest) {
        return Some(found);
    }
    four_named(name, rest)
}

/// The word of a line's bytes, which is the only one left where the line carries some; empty where it carries none, and none is left.
#[tactic(auto, using(crate::proofs::Text::LinesRead::some_left, crate::proofs::Text::LinesRead::more_left))]
fn digits(line: Line, rest: Option<&[u8]>) -> Option<&[u8]>
    ensures { MatchOption result (digits_left line (left (λ t. t.now) rest.entry) ≡ None) (λ d. digits_left line (left (λ t. t.now) rest.entry) ≡ Some d.now) }
{
    let carries = matches!(line, Line::Made { .. } | Line::Gave { .. });
    let Some(rest) = rest else {
        return if carries { None } else { Some(b"") };
    };
    if !carries {
        return None;
    }
    let (digits, rest) = cut_word(rest);
    if rest.is_some() || digits.is_empty() {
        return None;
    }
    Some(digits)
}

/// A line of a trace without its line feed, and the word of its bytes, empty where it carries none. The word isn't read yet.
#[tactic(auto, using(crate::proofs::Text::LinesRead::heard))]
pub fn line(text: &[u8]) -> Option<(Line, &[u8])>
    ensures { MatchOption result (line_in text.now ≡ None) (λ p. line_in text.now ≡ Some (p.0, p.1.now)) }
{
    let (name, rest) = cut_word(text);
    let (line, rest) = named(name, rest)?;
    Some((line, digits(line, rest)?))
}

/// Whether a line speaks of the lane, which is then its first field; a settled line speaks of both.
pub fn concerns(line: Line, lane: Lane) -> bool
    ensures { result ≡ History.concerns lane (line, []) }
{
    match line {
        Line::Settled { .. } => true,
        _ => rows!(begin_row(line, lane)),
    }
}
