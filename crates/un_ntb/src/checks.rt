//! The checks of a block, in their order.

ghost use Rattle.std.specs.Prelude.{◌≡◌, ◌+◌, ◌*◌, ◌<◌, ◌≤◌, ◌==◌, ◌^◌, length, [], OnOk};
ghost use Rattle.std.specs.List.{list_any};
ghost use Rattle.un_frame.specs.Bytes.{slice_at};
ghost use Rattle.un_frame.specs.Fault.{fault_in};
ghost use Rattle.un_frame.specs.Ntb.{
  IsDatagram,
  IsHeader,
  block_of,
  header_fault,
  ntb_fault,
  pair_at,
  pairs_fault,
  table_fault,
  tables_fault,
};
ghost use Rattle.un_frame.specs.Spans.{place_of};
ghost use Rattle.un_ntb.specs.Formats.{format_of};

use crate::fields::{
    MOST_TABLES, block_signature, head, header, is_checked, ndp_index, next_ndp_index, number,
    pair, short, signature, table_signature, width,
};
use un_frame::{Fault, Kind, Span};

/// A fault of this kind at this place.
fn fault(kind: Kind, at: usize) -> Fault
    ensures { result ≡ record { kind = kind; at = at } }
{
    Fault {
        kind,
        at: at as u64,
    }
}

/// Checks the header.
#[tactic(auto, unfolding(un_frame::specs::Ntb::header_fault))]
fn check_header<const WIDTH: usize>(bytes: &[u8]) -> Result<(), Fault>
    ensures fault { fault_in result ≡ header_fault (format_of WIDTH) bytes.now }
    ensures header { OnOk result (IsHeader (format_of WIDTH) bytes.now) }
{
    if bytes.len() < header::<WIDTH>() {
        return Err(fault(Kind::Truncated, 0));
    }
    if signature(bytes, 0) != u32::from_le_bytes(block_signature::<WIDTH>()) {
        return Err(fault(Kind::BadSignature, 0));
    }
    if short(bytes, 4) != header::<WIDTH>() {
        return Err(fault(Kind::BadHeaderLength, 4));
    }
    let length = number::<WIDTH>(bytes, 8);
    if length != 0 && (bytes.len() < length || length < header::<WIDTH>()) {
        return Err(fault(Kind::BadBlockLength, 8));
    }
    Ok(())
}

/// The block of a transfer.
pub fn block<const WIDTH: usize>(bytes: &[u8]) -> &[u8]
    requires { IsHeader (format_of WIDTH) bytes.now }
    ensures block { result.now ≡ block_of (format_of WIDTH) bytes.now }
    ensures within { length result.now ≤ length bytes.now }
    ensures room { (format_of WIDTH).header ≤ length result.now }
{
    let length = number::<WIDTH>(bytes, 8);
    if length == 0 { bytes } else { &bytes[..length] }
}

/// Whether the pair at a place is null.
pub fn is_null<const WIDTH: usize>(block: &[u8], at: usize) -> bool
    requires { at + (format_of WIDTH).pair ≤ length block.now }
    ensures { result ≡ Rattle.un_frame.specs.Ntb.is_null (pair_at (format_of WIDTH) block.now at) }
{
    number::<WIDTH>(block, at) == 0 || number::<WIDTH>(block, at + width::<WIDTH>()) == 0
}

/// Whether the pair at a place names a datagram of the block.
fn is_datagram<const WIDTH: usize>(block: &[u8], at: usize) -> bool
    requires { at + (format_of WIDTH).pair ≤ length block.now }
    ensures { result ≡ Rattle.un_frame.specs.Ntb.is_datagram (format_of WIDTH) block.now (pair_at (format_of WIDTH) block.now at) }
{
    let start = number::<WIDTH>(block, at);
    let size = number::<WIDTH>(block, at + width::<WIDTH>());
    !(start < header::<WIDTH>() || size < 14 || start + size > block.len())
}

/// Checks so many pairs from a place on, up to the first null pair.
#[tactic(auto, using(un_frame::proofs::NtbSteps::pairs_none, un_frame::proofs::NtbSteps::pairs_null, un_frame::proofs::NtbSteps::pairs_bad, un_frame::proofs::NtbSteps::pairs_good))]
fn check_pairs<const WIDTH: usize>(block: &[u8], at: usize, pairs: usize) -> Result<(), Fault>
    requires { at + (format_of WIDTH).pair * pairs ≤ length block.now }
    ensures { fault_in result ≡ pairs_fault (format_of WIDTH) block.now pairs at }
{
    let mut place = at;
    for _ in 0..pairs {
        if is_null::<WIDTH>(block, place) {
            return Ok(());
        }
        if !is_datagram::<WIDTH>(block, place) {
            return Err(fault(Kind::BadEntry, place));
        }
        place += pair::<WIDTH>();
    }
    Ok(())
}

/// The pairs of a table of this length, but its last.
pub fn pair_count<const WIDTH: usize>(length: usize) -> usize
    requires { (format_of WIDTH).head + 2 * (format_of WIDTH).pair ≤ length }
    ensures { result ≡ Rattle.un_ntb.specs.Formats.pairs_in (format_of WIDTH) length }
{
    (length - head::<WIDTH>()) / pair::<WIDTH>() - 1
}

/// Checks the table at an index that a field names.
#[tactic(auto, unfolding(un_frame::specs::Ntb::table_fault))]
fn check_table<const WIDTH: usize>(block: &[u8], field: usize, at: usize) -> Result<(), Fault>
    requires { at < 2 ^ 32 }
    ensures fault { fault_in result ≡ table_fault (format_of WIDTH) block.now field at }
    ensures room { OnOk result (at + (format_of WIDTH).head ≤ length block.now) }
{
    let least = head::<WIDTH>() + 2 * pair::<WIDTH>();
    if at < header::<WIDTH>() || at + least > block.len() {
        return Err(fault(Kind::BadNdpIndex, field));
    }
    let found = signature(block, at);
    if is_checked(found) {
        return Err(fault(Kind::CrcTable, at));
    }
    if found != u32::from_le_bytes(table_signature::<WIDTH>()) {
        return Err(fault(Kind::BadSignature, at));
    }
    let length = short(block, at + 4);
    if length < least || length % pair::<WIDTH>() != 0 || at + length > block.len() {
        return Err(fault(Kind::BadNdpLength, at + 4));
    }
    check_pairs::<WIDTH>(block, at + head::<WIDTH>(), pair_count::<WIDTH>(length))
}

/// Whether an index is among those seen.
fn is_seen(seen: &[usize], at: usize) -> bool
    ensures { result ≡ list_any (λ earlier. earlier == at) seen.now }
{
    seen.iter().any(|earlier| *earlier == at)
}

/// Checks the tables of a block.
#[tactic(auto, using(un_frame::proofs::NtbSteps::tables_none, un_frame::proofs::NtbSteps::tables_seen, un_frame::proofs::NtbSteps::tables_bad, un_frame::proofs::NtbSteps::tables_end, un_frame::proofs::NtbSteps::tables_go))]
fn check_tables<const WIDTH: usize>(block: &[u8]) -> Result<(), Fault>
    requires { (format_of WIDTH).header ≤ length block.now }
    ensures { fault_in result ≡ tables_fault (format_of WIDTH) block.now 32 [] (format_of WIDTH).ndp_index }
{
    let mut seen = [0usize; MOST_TABLES];
    let mut field = ndp_index::<WIDTH>();
    for count in 0..MOST_TABLES {
        let at = number::<WIDTH>(block, field);
        if is_seen(&seen[..count], at) {
            return Err(fault(Kind::NdpLoop, field));
        }
        check_table::<WIDTH>(block, field, at)?;
        field = at + next_ndp_index::<WIDTH>();
        if number::<WIDTH>(block, field) == 0 {
            return Ok(());
        }
        seen[count] = at;
    }
    Err(fault(Kind::NdpLoop, field))
}

/// Checks a whole transfer.
#[tactic(auto, using(un_frame::proofs::NtbSteps::fault_header, un_frame::proofs::NtbSteps::fault_tables))]
pub fn check<const WIDTH: usize>(bytes: &[u8]) -> Result<(), Fault>
    ensures fault { fault_in result ≡ ntb_fault (format_of WIDTH) bytes.now }
    ensures header { OnOk result (IsHeader (format_of WIDTH) bytes.now) }
{
    check_header::<WIDTH>(bytes)?;
    check_tables::<WIDTH>(block::<WIDTH>(bytes))
}

/// Where the datagram stands that the pair at a place names: at the same place in the block and in the transfer.
pub fn span_of<const WIDTH: usize>(block: &[u8], at: usize) -> Span
    requires room { at + (format_of WIDTH).pair ≤ length block.now }
    requires inside { IsDatagram (format_of WIDTH) block.now (pair_at (format_of WIDTH) block.now at) }
    ensures place { place_of result ≡ pair_at (format_of WIDTH) block.now at }
    ensures inside { result.at + result.size ≤ length block.now }
{
    Span {
        at: number::<WIDTH>(block, at),
        size: number::<WIDTH>(block, at + width::<WIDTH>()),
    }
}

/// The datagram that the pair at a place names.
pub fn datagram<const WIDTH: usize>(block: &[u8], at: usize) -> &[u8]
    requires room { at + (format_of WIDTH).pair ≤ length block.now }
    requires inside { IsDatagram (format_of WIDTH) block.now (pair_at (format_of WIDTH) block.now at) }
    ensures { result.now ≡ slice_at block.now (pair_at (format_of WIDTH) block.now at) }
{
    span_of::<WIDTH>(block, at).of(block)
}
