//! A history that is kept.

ghost use Rattle.std.specs.Prelude.{◌≡◌, ◌+◌, ◌<◌, ◌≤◌, ◌∷◌, ◌++◌, [], length, IfOk, Some, slice_get, vec_len, vec_capacity};
ghost use Rattle.std.specs.List.{All};
ghost use Rattle.std.specs.Option.{option_map};
ghost use Rattle.un_frame.specs.Bytes.{AreBytes};
ghost use Rattle.un_journal.specs.Log.{Log, AreEntries, CarriesItsBytes, FitsTypes, HasReason, IsStored, entries_of};

use crate::lines::Line;
use std::alloc::{AllocError, Global};
use std::marker::Model;

/// A line, and where its bytes begin and end among all bytes.
#[derive(Clone, Copy, Debug)]
pub struct Stored {
    pub line: Line,
    pub from: usize,
    pub to: usize,
}

/// The lines of a history with their bytes, and room for more of both. Contracts see it as the history, the number of lines that
/// have room yet, and the number of bytes that have. Every line carries bytes as its kind says: `Made` and `Gave` at least one,
/// the others none.
///
/// It grows by `push` alone, at its end. `len`, `line`, `bytes` and `entry` read it, `spare_lines` and `spare_bytes`
/// tell the room that is left, and `prove_entries` does nothing but state what each entry is.
#[derive(Drop)]
pub struct Journal {
    lines: Vec<Stored>,
    bytes: Vec<u8>,
    spare_lines: u64,
    spare_bytes: u64,
}

impl Model for Journal {
    ghost use Rattle.std.specs.Prelude.{◌+◌, ◌≤◌, vec_len, vec_capacity};
    ghost use Rattle.std.specs.List.{All};
    ghost use Rattle.un_journal.specs.Log.{Log, AreEntries, IsStored, entries_of};

    ghost Value = { Log };

    ghost view = { λ j. record { history = entries_of j.bytes.items j.lines.items; spare_lines = j.spare_lines; spare_bytes = j.spare_bytes } };

    ghost invariant = { λ j. All (IsStored (vec_len j.bytes)) j.lines.items × (vec_len j.lines + j.spare_lines ≤ vec_capacity j.lines)
        × (vec_len j.bytes + j.spare_bytes ≤ vec_capacity j.bytes) × AreEntries (entries_of j.bytes.items j.lines.items) };
}

impl Journal {
    /// An empty history with room for so many lines, and so many bytes of lines. The error is want of memory; no later call takes
    /// any.
    #[tactic(auto, unfolding(crate::specs::Log::entries_of))]
    pub fn make(alloc: Global, lines: u64, bytes: u64) -> Result<Journal, AllocError>
        ensures { IfOk result (λ j. j ≡ record { history = []; spare_lines = lines; spare_bytes = bytes }) }
    {
        Ok(Journal {
            lines: Vec::with_capacity(alloc, lines as usize)?,
            bytes: Vec::with_capacity(alloc, bytes as usize)?,
            spare_lines: lines,
            spare_bytes: bytes,
        })
    }

    /// Adds a line with its bytes, of which `Made` and `Gave` carry at least one and the others none. There has to be room for
    /// both, and a `Refused` line's verdict isn't `Take`.
    pub fn push(&mut self, line: Line, bytes: &[u8])
        requires lines { 0 < self.old.spare_lines }
        requires bytes { length bytes.now ≤ self.old.spare_bytes }
        requires carried { CarriesItsBytes line bytes.now }
        requires reason { HasReason line }
        ensures history { self.new.history ≡ self.old.history ++ (line, bytes.now) ∷ [] }
        ensures lines { self.new.spare_lines + 1 ≡ self.old.spare_lines }
        ensures bytes { self.new.spare_bytes + length bytes.now ≡ self.old.spare_bytes }
    {
        store(&mut self.lines, &mut self.bytes, line, bytes);
        self.spare_lines -= 1;
        self.spare_bytes -= bytes.len() as u64;
    }

    /// How many lines there are.
    #[tactic(auto, using(crate::proofs::StoredEntries::entries_length))]
    pub fn len(&self) -> u64
        ensures { result ≡ length self.now.history }
    {
        let lines = &self.lines;
        lines.len() as u64
    }

    /// For how many more lines there is room.
    pub fn spare_lines(&self) -> u64
        ensures { result ≡ self.now.spare_lines }
    {
        self.spare_lines
    }

    /// For how many more bytes of lines there is room.
    pub fn spare_bytes(&self) -> u64
        ensures { result ≡ self.now.spare_bytes }
    {
        self.spare_bytes
    }

    /// The line with this index, from 0, which is below `len`.
    pub fn line(&self, index: u64) -> Line
        requires { index < length self.now.history }
        ensures { option_map (λ e. e.0) (slice_get self.now.history index) ≡ Some result }
    {
        let (line, _) = self.entry(index);
        line
    }

    /// The bytes of the line with this index, from 0, which is below `len`.
    pub fn bytes(&self, index: u64) -> &[u8]
        requires { index < length self.now.history }
        ensures { option_map (λ e. e.1) (slice_get self.now.history index) ≡ Some result.now }
    {
        let (_, bytes) = self.entry(index);
        bytes
    }

    /// The line with this index, from 0, which is below `len`, and its bytes.
    pub fn entry(&self, index: u64) -> (Line, &[u8])
        requires { index < length self.now.history }
        ensures { slice_get self.now.history index ≡ Some (result.0, result.1.now) }
    {
        entry(&self.lines, &self.bytes, index as usize)
    }

    /// Each entry has numbers of its fields' types, bytes as its kind says, and, where it is a refusal, a verdict that refuses.
    pub fn prove_entries(&self)
        ensures { AreEntries self.now.history }
    {
        let _ = &self.lines;
    }
}

/// A history of lines and bytes that were kept, without room for more.
pub fn journal_of(lines: Vec<Stored>, bytes: Vec<u8>) -> Journal
    requires stored { All (IsStored (vec_len bytes)) lines.items }
    requires entries { AreEntries (entries_of bytes.items lines.items) }
    ensures { result.history ≡ entries_of bytes.items lines.items }
{
    Journal {
        lines,
        bytes,
        spare_lines: 0,
        spare_bytes: 0,
    }
}

/// A line and the bytes that it stands beside.
fn entry<'a>(lines: &[Stored], bytes: &'a [u8], index: usize) -> (Line, &'a [u8])
    requires within { index < length lines.now }
    requires stored { All (IsStored (length bytes.now)) lines.now }
    ensures { slice_get (entries_of bytes.now lines.now) index ≡ Some (result.0, result.1.now) }
{
    let stored = lines[index];
    (stored.line, &bytes[stored.from..stored.to])
}

/// Adds a line with its bytes to those that are kept, within their capacities.
fn store(lines: &mut Vec<Stored>, kept: &mut Vec<u8>, line: Line, bytes: &[u8])
    requires lines { vec_len lines.old < vec_capacity lines.old }
    requires bytes { vec_len kept.old + length bytes.now ≤ vec_capacity kept.old }
    requires stored { All (IsStored (vec_len kept.old)) lines.old.items }
    requires carried { CarriesItsBytes line bytes.now }
    requires reason { HasReason line }
    requires entries { AreEntries (entries_of kept.old.items lines.old.items) }
    ensures history { entries_of kept.new.items lines.new.items ≡ entries_of kept.old.items lines.old.items ++ (line, bytes.now) ∷ [] }
    ensures stored { All (IsStored (vec_len kept.new)) lines.new.items }
    ensures lines { (vec_len lines.new ≡ vec_len lines.old + 1) × (vec_capacity lines.old ≤ vec_capacity lines.new) }
    ensures bytes { (vec_len kept.new ≡ vec_len kept.old + length bytes.now) × (vec_capacity kept.old ≤ vec_capacity kept.new) }
    ensures entries { AreEntries (entries_of kept.new.items lines.new.items) }
{
    numbers_fit(line);
    let from = kept.len();
    let Ok(()) = kept.extend_from_slice(bytes) else {
        unreachable!();
    };
    let to = kept.len();
    lines.push_reserved(Stored { line, from, to });
}

/// Each number of a line has its field's type.
fn numbers_fit(line: Line)
    ensures { FitsTypes line }
{
    match line {
        Line::Took { sender: _a, .. } | Line::Refused { sender: _a, .. } => {}
        Line::Made {
            serial: _a,
            from: _b,
            to: _c,
            ..
        } => {}
        Line::Flying { serial: _a, .. }
        | Line::Landed { serial: _a, .. }
        | Line::Failed { serial: _a, .. }
        | Line::TxHome { serial: _a, .. }
        | Line::Opened { serial: _a, .. } => {}
        Line::Gave { number: _a, .. } => {}
        Line::Retried {
            serial: _a,
            attempt: _b,
            ..
        } => {}
        Line::Marked {
            serial: _a,
            cause: _b,
            ..
        }
        | Line::Cut {
            serial: _a,
            cause: _b,
            ..
        } => {}
        Line::Dropped {
            from: _a,
            to: _b,
            cause: _c,
            ..
        } => {}
        Line::Control { index: _a, .. } => {}
        Line::Settled {
            tx_out: _a,
            rx_out: _b,
            tx_in: _c,
            rx_in: _d,
        } => {}
        Line::Waited { .. } | Line::Posted { .. } | Line::Recalled { .. } | Line::Cleared { .. } =>
            {}
    }
}
