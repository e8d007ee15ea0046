//! The packets of a transfer, lent one after the other.

ghost use Rattle.std.specs.Prelude.{◌≡◌, ◌+◌, ◌<◌, ◌≤◌, [], length, IfNone, IfOk, IfSome};
ghost use Rattle.un_frame.specs.Bytes.{number_at};
ghost use Rattle.un_frame.specs.Eem.{command_count, packet_size};
ghost use Rattle.un_frame.specs.Fault.{fault_in};
ghost use Rattle.un_frame.specs.Wire.{Reads, fault_of};
ghost use Rattle.un_frame.specs.declared.params.Class.TheVariants.{Eem};
ghost use Rattle.un_eem.specs.Items.{Shows, ShowsFirst};
ghost use Rattle.un_eem.specs.Transfer.{IsTransfer, frames_in};
ghost use Rattle.un_eem.specs.Walk.{IsSound, packet_at};

use crate::checks::check;
use crate::header::{
    HEADER, command_code, command_parameter, echo_length, header_at, is_data, packet_size,
};
use std::marker::Model;
use un_frame::Fault;

/// A packet of a transfer, as slices of the transfer's bytes (EEM 1.0, 5.1).
#[derive(Clone, Copy, Debug)]
pub enum Item<'a> {
    /// A data packet's frame, of 14 to 16,379 bytes.
    Frame(&'a [u8]),
    /// A command: its code from 0 to 7, its parameter from 0 to 2,047, and the bytes that follow it, which only an echo and its
    /// response (codes 0 and 1) have.
    Command {
        code: u8,
        parameter: u16,
        echo: &'a [u8],
    },
    /// A zero-length packet.
    Empty,
}

/// The packets of a transfer that are left. Contracts see them as a list.
#[derive(Drop)]
pub struct Items<'a> {
    bytes: &'a [u8],
    at: usize,
}

impl<'a> Model for Items<'a> {
    ghost use Rattle.std.specs.Prelude.{List};
    ghost use Rattle.un_frame.specs.Eem.{Packet};
    ghost use Rattle.un_eem.specs.Walk.{packets_from, IsSound};

    ghost Value = { List Packet };

    ghost view = { λ i. packets_from i.bytes.now i.at };

    ghost invariant = { λ i. IsSound i.bytes.now i.at };
}

/// Reads a transfer as packets, or answers the first fault with its place. The whole transfer is checked before a packet is lent.
pub fn read(bytes: &[u8]) -> Result<Items<'_>, Fault>
    ensures found { IfOk result (λ items. Reads Eem bytes.now (frames_in items) (command_count items)) }
    ensures packets { IfOk result (λ items. IsTransfer bytes.now items) }
    ensures fault { fault_in result ≡ fault_of Eem bytes.now }
{
    check(bytes)?;
    Ok(Items { bytes, at: 0 })
}

impl<'a> Items<'a> {
    /// Lends the next packet, for as long as the bytes stand that were read; `None` exactly where none is left.
    pub fn next(&mut self) -> Option<Item<'a>>
        ensures item { IfSome result (λ item. ShowsFirst item self.old self.new) }
        ensures end { IfNone result ((self.old ≡ []) × (self.new ≡ [])) }
    {
        if self.bytes.len() <= self.at {
            return None;
        }
        let (item, next) = item_at(self.bytes, self.at);
        self.at = next;
        Some(item)
    }
}

/// The packet at a place, and the place after it.
fn item_at(bytes: &[u8], at: usize) -> (Item<'_>, usize)
    requires within { at < length bytes.now }
    requires sound { IsSound bytes.now at }
    ensures item { Shows result.0 (packet_at bytes.now at) }
    ensures next { result.1 ≡ at + Rattle.un_frame.specs.Eem.packet_size (number_at 2 bytes.now at) }
    ensures sound { IsSound bytes.now result.1 }
{
    let header = header_at(bytes, at);
    let next = at + packet_size(header);
    let rest = &bytes[at + HEADER..];
    if header == 0 {
        return (Item::Empty, next);
    }
    if is_data(header) {
        return (Item::Frame(&rest[..header as usize - 4]), next);
    }
    let echo = &rest[..echo_length(header)];
    let command = Item::Command {
        code: command_code(header),
        parameter: command_parameter(header),
        echo,
    };
    (command, next)
}
