//! A history from its text.

ghost use Rattle.std.specs.Prelude.{◌≡◌, ◌*◌, ◌≤◌, ◌++◌, length, take, IfOk, OnOk, MatchOption, MatchResult, vec_len, true, false, Err, ◌-◌};
ghost use Rattle.std.specs.List.{All, list_any};
ghost use Rattle.hex.specs.Hex.{decode_of};
ghost use Rattle.un_journal.specs.Log.{IsStored, entries_of};
ghost use Rattle.un_journal.specs.Text.{trace};
ghost use Rattle.un_text.specs.Words.{is_upper, bytes_in};
ghost use Rattle.un_journal.specs.TraceLines.{entry_in, BytesRead, EntryRead};
ghost use Rattle.un_journal.specs.TraceRead.{TraceReads};
ghost use Rattle.un_journal.specs.declared.trace_reader.TraceError.TheVariants.{BadTrace};

use crate::journal::{Journal, Stored, journal_of};
use crate::rows::line;
use std::alloc::Global;
use thiserror::Error;
use un_text::{cut_line, is};

/// Why a text wasn't read as a history.
#[derive(Clone, Copy, Debug, PartialEq, Eq, Error)]
pub enum TraceError {
    /// The first line outside the form of a trace, counted from 1. Where the text ends before the line `end`, it is the line after
    /// its last; where something follows that line, it is the first line that follows.
    #[error("bad trace {line}")]
    BadTrace { line: u64 },
    /// There was no memory for the history.
    #[error("no memory")]
    NoMemory,
}

/// Why a line wasn't read.
#[derive(Clone, Copy, Debug, PartialEq, Eq)]
pub enum Unread {
    /// It is no entry's text.
    Outside,
    NoMemory,
}

/// Whether a word has an upper-case hexadecimal digit.
fn has_upper(word: &[u8]) -> bool
    ensures { result ≡ list_any is_upper word.now }
{
    word.iter().any(|&c| (b'A'..=b'F').contains(&c))
}

/// Writes at a place the bytes that digits spell, as many as there is room for; whether they spell some.
fn decode(bytes: &mut [u8], from: usize, digits: &[u8]) -> bool
    requires within { from ≤ length bytes.old }
    requires room { length digits.now ≡ 2 * (length bytes.old - from) }
    ensures { MatchResult (decode_of digits.now) (λ more. (result ≡ true) × (bytes.new ≡ take from bytes.old ++ more)) (λ _. result ≡ false) }
{
    un_text::decode(digits, &mut bytes[from..])
}

/// Adds the bytes that lower-case digits spell in pairs.
fn add_bytes(kept: &mut Vec<u8>, digits: &[u8]) -> Result<(), Unread>
    ensures { BytesRead result (bytes_in digits.now) kept.old.items kept.new.items }
{
    if has_upper(digits) || digits.len() % 2 != 0 {
        return Err(Unread::Outside);
    }
    let from = kept.len();
    if kept.resize(from + digits.len() / 2, 0).is_err() {
        return Err(Unread::NoMemory);
    }
    if decode(kept.as_mut_slice(), from, digits) {
        Ok(())
    } else {
        Err(Unread::Outside)
    }
}

/// Adds the entry whose text, without its line feed, this is.
fn read_entry(lines: &mut Vec<Stored>, kept: &mut Vec<u8>, text: &[u8]) -> Result<(), Unread>
    requires { All (IsStored (vec_len kept.old)) lines.old.items }
    ensures read { EntryRead result (entry_in text.now) (entries_of kept.old.items lines.old.items) (entries_of kept.new.items lines.new.items) }
    ensures stored { OnOk result (All (IsStored (vec_len kept.new)) lines.new.items) }
{
    let Some((line, digits)) = line(text) else {
        return Err(Unread::Outside);
    };
    let from = kept.len();
    add_bytes(kept, digits)?;
    let to = kept.len();
    match lines.push(Stored { line, from, to }) {
        Ok(()) => Ok(()),
        Err(_) => Err(Unread::NoMemory),
    }
}

/// A refusal of a line.
fn bad(line: u64) -> Result<Journal, TraceError>
    ensures { result ≡ Err (BadTrace line) }
{
    Err(TraceError::BadTrace { line })
}

/// Reads the text of a history, as `write_trace` writes it: the line `trace`, a line for each entry, and the line `end`, each
/// with its line feed, in this very spelling (numbers without leading zeros and within their fields' types, bytes in lower case,
/// single spaces). The history that is answered is the one that has this text. It takes one line after the other; the only
/// memory is that of the history.
///
/// # Errors
///
/// `BadTrace` only where the bytes aren't the text of a history, with the first line that is outside; `NoMemory` where there is no
/// memory for the lines so far. Bytes that aren't the text of a history have one of the two.
pub fn read_trace(alloc: Global, bytes: &[u8]) -> Result<Journal, TraceError>
    ensures { TraceReads (λ j. j.history) result bytes.now }
{
    let Some((first, more)) = cut_line(bytes) else {
        return bad(1);
    };
    if !is(first, b"trace") {
        return bad(1);
    }
    let mut lines = Vec::new(alloc);
    let mut kept = Vec::new(alloc);
    let mut number = 2;
    let mut rest = more;
    loop {
        let Some((line, more)) = cut_line(rest) else {
            return bad(number);
        };
        if is(line, b"end") {
            return if more.is_empty() {
                Ok(journal_of(lines, kept))
            } else {
                bad(number + 1)
            };
        }
        match read_entry(&mut lines, &mut kept, line) {
            Ok(()) => {}
            Err(Unread::Outside) => return bad(number),
            Err(Unread::NoMemory) => return Err(TraceError::NoMemory),
        }
        rest = more;
        number += 1;
    }
}
