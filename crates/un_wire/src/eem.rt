//! Transfers of EEM.

ghost use Rattle.std.specs.Prelude.{◌≡◌, ◌≤◌, IfOk};
ghost use Rattle.un_frame.specs.Classes.{eem_capacity};
ghost use Rattle.un_frame.specs.Eem.{packets_stand};
ghost use Rattle.un_frame.specs.Lanes.{packs};
ghost use Rattle.un_frame.specs.Params.{AreInRange};
ghost use Rattle.un_frame.specs.declared.params.Class.TheVariants.{Eem};
ghost use Rattle.un_wire.specs.Codings.{fresh};
ghost use Rattle.un_wire.specs.Held as Held;

use crate::parts::{Parts, read};
use crate::wire::Wire;
use std::alloc::{AllocError, Global};
use std::marker::Model;
use un_frame::{Class, Fault, Lane, Params};
use un_req::Request;

/// What a packet has beside its frame, in bytes: a header of 2 and a sentinel of 4 (EEM 1.0, 5.1.2).
const PACKET: u32 = 6;

/// The bytes of the empty packet.
const EMPTY: u32 = 2;

/// The least frame, in bytes.
const LEAST: u32 = 14;

/// A codec of EEM: each frame is a data packet, and any packets are read (EEM 1.0, 5.1). It keeps the sizes of the open transfer's
/// frames, and how many bytes their packets have.
#[derive(Drop)]
pub struct EemWire {
    params: Params,
    sizes: Vec<u32>,
    size: u32,
    is_open: bool,
}

impl Model for EemWire {
    ghost use Rattle.un_frame.specs.Wire.{Coding};
    ghost use Rattle.un_wire.specs.Held.{IsEem, eem_coding};

    ghost Value = { Coding };

    ghost view = { eem_coding };

    ghost invariant = { IsEem };
}

/// The most bytes of a transfer.
fn most_bytes(params: &Params) -> u32
    requires { params.now.segment ≤ 8192 }
    ensures { result ≡ eem_capacity params.now }
{
    params.block.max(params.segment + PACKET + EMPTY)
}

/// The most frames of a transfer: each has 14 bytes at least, and there are no more of them than the limit.
fn most_frames(params: &Params) -> usize
    requires { params.now.segment ≤ 8192 }
    ensures { result ≡ Held.most_packets params.now }
{
    let most = (most_bytes(params) - EMPTY) / (LEAST + PACKET);
    if params.datagrams == 0 {
        most as usize
    } else {
        most.min(params.datagrams) as usize
    }
}

/// Whether so many packets with so many bytes together may stand in one transfer.
fn stand(params: &Params, size: u32, count: u32) -> bool
    requires segment { params.now.segment ≤ 8192 }
    requires small { size ≤ 1048576 }
    ensures { result ≡ packets_stand (eem_capacity params.now) params.now.datagrams size count }
{
    size + EMPTY <= most_bytes(params) && (params.datagrams == 0 || count <= params.datagrams)
}

impl EemWire {
    /// A codec with no open transfer. It takes the memory for the sizes of as many frames as a transfer of these parameters can
    /// hold; an error is want of memory.
    pub(crate) fn make(alloc: Global, params: &Params) -> Result<EemWire, AllocError>
        requires in_range { AreInRange params.now }
        requires class { params.now.class ≡ Eem }
        ensures { IfOk result (λ codec. codec ≡ fresh params.now) }
    {
        let sizes = Vec::with_capacity(alloc, most_frames(params))?;
        Ok(EemWire {
            params: *params,
            sizes,
            size: 0,
            is_open: false,
        })
    }

    /// Its class.
    pub(crate) fn class(&self) -> Class
        ensures { result ≡ self.now.params.class }
    {
        self.params.class
    }

    /// Whether the transmitting end of a lane packs several frames into one of its transfers: the gadget's does.
    pub(crate) fn packs(&self, lane: Lane) -> bool
        ensures { result ≡ packs self.now.params.class lane }
    {
        let _params = self.params;
        match lane {
            Lane::Outward => false,
            Lane::Inward => true,
        }
    }
}

impl Wire for EemWire {
    ghost coding = { λ w. w };

    fn capacity(&self) -> u32 {
        most_bytes(&self.params)
    }

    fn count(&self) -> u32 {
        self.sizes.len() as u32
    }

    fn fits(&self, length: u32) -> bool {
        length <= self.params.segment
            && stand(
                &self.params,
                self.size + length + PACKET,
                self.sizes.len() as u32 + 1,
            )
    }

    fn start(&mut self, request: &mut Request) {
        self.sizes.clear();
        self.size = 0;
        self.is_open = true;
    }

    fn append(&mut self, request: &mut Request, frame: &[u8]) {
        let size = self.size + frame.len() as u32 + PACKET;
        self.sizes.push_reserved(frame.len() as u32);
        self.size = size;
        un_eem::append(request, frame);
    }

    fn close(&mut self, request: &mut Request, serial: u64) {
        un_eem::finish(request, self.params.packet);
        self.sizes.clear();
        self.size = 0;
        self.is_open = false;
    }

    fn read<'a>(&self, bytes: &'a [u8]) -> Result<Parts<'a>, Fault> {
        read(self.params.class, bytes)
    }
}
