//! The table and the header's last fields of a block.

ghost use Rattle.std.specs.Prelude.{◌≡◌, ◌+◌, ◌-◌, ◌*◌, ◌%◌, ◌++◌, ◌<◌, ◌≤◌, flat_map, length, take};
ghost use Rattle.un_frame.specs.Bytes.{number_bytes, zeros};
ghost use Rattle.un_frame.specs.NtbForm.{closed_table, closing_fields, pair_bytes, table_bytes};
ghost use Rattle.un_ntb.specs.Datagrams.{places_of};
ghost use Rattle.un_ntb.specs.Formats.{format_of};
ghost use Rattle.un_req.specs.Request.{patched};

use crate::fields::{head, pair, table_signature, width};
use byteorder::{ByteOrder, LittleEndian};
use un_layout::align;
use un_req::Request;

/// Where a datagram stands in a block: its index and its length, in bytes.
#[derive(Clone, Copy, Debug)]
pub struct Datagram {
    pub at: u32,
    pub size: u32,
}

/// The bytes of a number, the lowest first; an index or a length has as many of them as `WIDTH`.
#[tactic(auto, unfolding(un_frame::specs::Bytes::number_bytes))]
fn low_bytes<const WIDTH: usize>(number: u32) -> [u8; 4]
    ensures { take (format_of WIDTH).width result ≡ number_bytes (format_of WIDTH).width number }
{
    let mut bytes = [0u8; 4];
    LittleEndian::write_u32(&mut bytes, number);
    bytes
}

/// Appends an index or a length.
fn push_number<const WIDTH: usize>(request: &mut Request, number: u32)
    requires { length request.old.bytes + (format_of WIDTH).width ≤ request.old.capacity }
    ensures bytes { request.new ≡ record request.old { bytes = request.old.bytes ++ number_bytes (format_of WIDTH).width number } }
    ensures len { length request.new.bytes ≡ length request.old.bytes + (format_of WIDTH).width }
    ensures capacity { request.new.capacity ≡ request.old.capacity }
{
    let bytes = low_bytes::<WIDTH>(number);
    request.push(&bytes[..width::<WIDTH>()]);
}

/// Appends a field of 16 bits, which the length of a header or a table is in either format.
#[tactic(auto, unfolding(un_frame::specs::Bytes::number_bytes))]
pub fn push_short(request: &mut Request, number: u16)
    requires { length request.old.bytes + 2 ≤ request.old.capacity }
    ensures bytes { request.new ≡ record request.old { bytes = request.old.bytes ++ number_bytes 2 number } }
    ensures len { length request.new.bytes ≡ length request.old.bytes + 2 }
    ensures capacity { request.new.capacity ≡ request.old.capacity }
{
    let mut bytes = [0u8; 2];
    LittleEndian::write_u16(&mut bytes, number);
    request.push(&bytes);
}

/// Appends the pairs of datagrams.
fn push_pairs<const WIDTH: usize>(request: &mut Request, datagrams: &[Datagram])
    requires { length request.old.bytes + (format_of WIDTH).pair * length datagrams.now ≤ request.old.capacity }
    ensures bytes { request.new ≡ record request.old { bytes = request.old.bytes ++ flat_map (pair_bytes (format_of WIDTH)) (places_of datagrams.now) } }
    ensures len { length request.new.bytes ≡ length request.old.bytes + (format_of WIDTH).pair * length datagrams.now }
    ensures capacity { request.new.capacity ≡ request.old.capacity }
{
    for datagram in datagrams {
        push_number::<WIDTH>(request, datagram.at);
        push_number::<WIDTH>(request, datagram.size);
    }
}

/// The bytes of a table of so many datagrams.
pub fn table_size<const WIDTH: usize>(count: u32) -> u32
    requires { count < 1000000 }
    ensures size { result ≡ closed_table (format_of WIDTH) count }
    ensures bound { result ≤ 24 + 8 * count }
{
    head::<WIDTH>() as u32 + pair::<WIDTH>() as u32 * (count + 1)
}

/// Appends the table of datagrams.
fn push_table<const WIDTH: usize>(request: &mut Request, datagrams: &[Datagram])
    requires count { length datagrams.now < 1000000 }
    requires room { length request.old.bytes + closed_table (format_of WIDTH) (length datagrams.now) ≤ request.old.capacity }
    requires fits { closed_table (format_of WIDTH) (length datagrams.now) ≤ 65535 }
    ensures bytes { request.new ≡ record request.old { bytes = request.old.bytes ++ table_bytes (format_of WIDTH) (places_of datagrams.now) } }
    ensures len { length request.new.bytes ≡ length request.old.bytes + closed_table (format_of WIDTH) (length datagrams.now) }
    ensures capacity { request.new.capacity ≡ request.old.capacity }
{
    request.push(&table_signature::<WIDTH>());
    push_short(request, table_size::<WIDTH>(datagrams.len() as u32) as u16);
    request.push_zeros(head::<WIDTH>() as u32 - 6);
    push_pairs::<WIDTH>(request, datagrams);
    request.push_zeros(pair::<WIDTH>() as u32);
}

/// The fields of a header that are known when the block is closed: a number of 16 bits, and two of `WIDTH` bytes.
#[tactic(auto, unfolding(un_frame::specs::Bytes::number_bytes))]
fn closing<const WIDTH: usize>(sequence: u16, size: u32, table: u32) -> [u8; 10]
    ensures { take (2 + 2 * (format_of WIDTH).width) result ≡ closing_fields (format_of WIDTH) sequence size table }
{
    let mut bytes = [0u8; 10];
    LittleEndian::write_u16(&mut bytes, sequence);
    LittleEndian::write_u32(&mut bytes[2..], size);
    if WIDTH == 2 {
        LittleEndian::write_u32(&mut bytes[4..], table);
    } else {
        LittleEndian::write_u32(&mut bytes[6..], table);
    }
    bytes
}

/// Whether a block of so many datagrams that end at `end` fits.
#[tactic(auto, using(un_frame::proofs::NtbFormLemmas::least_multiple_near))]
pub fn closed_fits<const WIDTH: usize>(
    end: u32,
    count: u32,
    alignment: u32,
    block: u32,
    limit: u32,
) -> bool
    requires alignment { (1 ≤ alignment) × (alignment ≤ 64) }
    requires end { end < 1000000 }
    requires count { count < 1000000 }
    ensures { result ≡ Rattle.un_frame.specs.NtbForm.closed_fits (format_of WIDTH) alignment block limit end count }
{
    let table = table_size::<WIDTH>(count);
    align(end, alignment) + table <= block && (table <= 65535 && (limit == 0 || count <= limit))
}

/// Appends a datagram after so many zeros.
pub fn push_datagram(request: &mut Request, padding: u32, frame: &[u8])
    requires { length request.old.bytes + padding + length frame.now ≤ request.old.capacity }
    ensures { request.new ≡ record request.old { bytes = request.old.bytes ++ (zeros padding ++ frame.now) } }
{
    request.push_zeros(padding);
    request.push(frame);
}

/// Ends the open block of datagrams that end at `end`, with its table at `table`.
pub fn close_block<const WIDTH: usize>(
    request: &mut Request,
    datagrams: &[Datagram],
    end: u32,
    table: u32,
    serial: u64,
)
    requires count { length datagrams.now < 1000000 }
    requires end { length request.old.bytes ≡ end }
    requires header { (format_of WIDTH).header ≤ end }
    requires table { (end ≤ table) × (table < 1000000) }
    requires room { table + closed_table (format_of WIDTH) (length datagrams.now) ≤ request.old.capacity }
    requires fits { closed_table (format_of WIDTH) (length datagrams.now) ≤ 65535 }
    ensures { request.new ≡ record request.old {
      bytes = patched ((request.old.bytes ++ zeros (table - end)) ++ table_bytes (format_of WIDTH) (places_of datagrams.now)) 6
          (closing_fields (format_of WIDTH) (serial % 65536) (table + closed_table (format_of WIDTH) (length datagrams.now)) table);
    } }
{
    request.push_zeros(table - end);
    push_table::<WIDTH>(request, datagrams);
    let size = table + table_size::<WIDTH>(datagrams.len() as u32);
    let fields = closing::<WIDTH>((serial % 65536) as u16, size, table);
    request.patch(6, &fields[..2 + 2 * width::<WIDTH>()]);
}
