//! A codec of any class.

ghost use Rattle.std.specs.Prelude.{◌≡◌, ◌+◌, ◌<◌, ◌↔◌, IfNone, IfOk, IfSome, IsTrue};
ghost use Rattle.un_frame.specs.Fault.{fault_in};
ghost use Rattle.un_frame.specs.Lanes.{packs};
ghost use Rattle.un_frame.specs.Params.{Agree, AreInRange};
ghost use Rattle.un_frame.specs.Parts.{datagram_of};
ghost use Rattle.un_frame.specs.Wire.{fault_of};

use crate::cursor::{Cursor, begin};
use crate::ecm::EcmWire;
use crate::eem::EemWire;
use crate::ntb::{Ntb16Wire, Ntb32Wire};
use crate::parts::{Parts, read};
use crate::rndis::RndisWire;
use crate::wire::Wire;
use std::alloc::{AllocError, Global};
use un_frame::{Class, Fault, Lane, Params};
use un_req::Request;

/// What the codec answers, of whichever class it is.
macro_rules! each {
    ($of:expr, $codec:ident => $answer:expr) => {
        match $of {
            Codec::Ecm($codec) => $answer,
            Codec::Eem($codec) => $answer,
            Codec::Ncm16($codec) => $answer,
            Codec::Ncm32($codec) => $answer,
            Codec::Rndis($codec) => $answer,
        }
    };
}

/// A codec of any class: what writes and reads the transfers of a link, made of its parameters.
///
/// As a [`Wire`] it writes a transfer in a request by `start`, `append` and `close`, and lends the frames of one by
/// `read`. For the owner of a transfer's bytes `cursor`, `part_at` and `advance` lend its parts one by one. `packs`
/// says of a lane whether several frames are packed into one of its transfers.
#[derive(Drop)]
pub enum Codec {
    /// ECM: a frame in each transfer.
    Ecm(EcmWire),
    /// EEM: packets.
    Eem(EemWire),
    /// NCM: blocks with fields of 16 bits.
    Ncm16(Ntb16Wire),
    /// NCM: blocks with fields of 32 bits.
    Ncm32(Ntb32Wire),
    /// RNDIS: a data message in each transfer.
    Rndis(RndisWire),
}

impl Codec {
    ghost use Rattle.un_wire.specs.Codings.{coding_of, fresh};
    ghost use Rattle.un_wire.specs.Cursors.{IsAt, part_count, part_index};

    /// A codec of the parameters' class, with no open transfer. It takes the memory for where the frames of a block stand, or
    /// the packets of EEM, of as many as a transfer of these parameters can hold (`Writer::most` of un_ntb), and no later call takes
    /// any; an error is want of memory.
    pub fn make(alloc: Global, params: &Params) -> Result<Codec, AllocError>
        requires in_range { AreInRange params.now }
        requires agree { Agree params.now }
        ensures { IfOk result (λ codec. coding_of codec ≡ fresh params.now) }
    {
        match params.class {
            Class::Ecm => Ok(Codec::Ecm(EcmWire::make(params))),
            Class::Eem => Ok(Codec::Eem(EemWire::make(alloc, params)?)),
            Class::Ncm16 => Ok(Codec::Ncm16(Ntb16Wire::make(alloc, params)?)),
            Class::Ncm32 => Ok(Codec::Ncm32(Ntb32Wire::make(alloc, params)?)),
            Class::Rndis => Ok(Codec::Rndis(RndisWire::make(params))),
        }
    }

    /// The class of its transfers.
    fn class(&self) -> Class
        ensures { result ≡ (coding_of self.now).params.class }
    {
        each!(self, codec => codec.class())
    }

    /// Whether the transmitting end of a lane packs several frames into one of its transfers, as the codec of its class says.
    pub fn packs(&self, lane: Lane) -> bool
        ensures { result ≡ packs (coding_of self.now).params.class lane }
    {
        each!(self, codec => codec.packs(lane))
    }

    /// The cursor at the first part of a transfer, exactly where the grammar of the class reads it; else the fault that `read`
    /// answers. The whole transfer is checked. The cursor is at the end at once where the transfer has no part.
    pub fn cursor(&self, bytes: &[u8]) -> Result<Cursor, Fault>
        ensures at { IfOk result (λ cursor. IsAt (coding_of self.now).params.class bytes.now cursor) }
        ensures first { IfOk result (λ cursor. part_index (coding_of self.now).params.class bytes.now cursor ≡ 0) }
        ensures fault { fault_in result ≡ fault_of (coding_of self.now).params.class bytes.now }
    {
        begin(self.class(), bytes)
    }

    /// Lends the part at a cursor, which came from these bytes and this codec; `None` exactly where no part is left.
    pub fn part_at<'a>(&self, bytes: &'a [u8], cursor: &Cursor) -> Option<&'a [u8]>
        requires { IsAt (coding_of self.now).params.class bytes.now cursor.now }
        ensures part { IfSome result (λ part. part.now ≡ datagram_of (coding_of self.now).params.class bytes.now (part_index (coding_of self.now).params.class bytes.now cursor.now)) }
        ensures some { IfSome result (λ part. part_index (coding_of self.now).params.class bytes.now cursor.now < part_count (coding_of self.now).params.class bytes.now) }
        ensures none { IfNone result (part_index (coding_of self.now).params.class bytes.now cursor.now ≡ part_count (coding_of self.now).params.class bytes.now) }
    {
        cursor.part(bytes)
    }

    /// Moves a cursor, which came from these bytes and this codec, on from the part at it, and answers true exactly where none is
    /// left then.
    pub fn advance(&self, bytes: &[u8], cursor: &mut Cursor) -> bool
        requires at { IsAt (coding_of self.now).params.class bytes.now cursor.old }
        requires some { part_index (coding_of self.now).params.class bytes.now cursor.old < part_count (coding_of self.now).params.class bytes.now }
        ensures at { IsAt (coding_of self.now).params.class bytes.now cursor.new }
        ensures one { part_index (coding_of self.now).params.class bytes.now cursor.new ≡ part_index (coding_of self.now).params.class bytes.now cursor.old + 1 }
        ensures last { IsTrue result ↔ (part_index (coding_of self.now).params.class bytes.now cursor.new ≡ part_count (coding_of self.now).params.class bytes.now) }
    {
        *cursor = cursor.next(bytes);
        match cursor.part(bytes) {
            Some(_) => false,
            None => true,
        }
    }
}

impl Wire for Codec {
    ghost use Rattle.un_wire.specs.Codings.{coding_of};

    ghost coding = { coding_of };

    fn capacity(&self) -> u32 {
        each!(self, codec => codec.capacity())
    }

    fn count(&self) -> u32 {
        each!(self, codec => codec.count())
    }

    fn fits(&self, length: u32) -> bool {
        each!(self, codec => codec.fits(length))
    }

    fn start(&mut self, request: &mut Request) {
        each!(self, codec => codec.start(request))
    }

    fn append(&mut self, request: &mut Request, frame: &[u8]) {
        each!(self, codec => codec.append(request, frame))
    }

    fn close(&mut self, request: &mut Request, serial: u64) {
        each!(self, codec => codec.close(request, serial))
    }

    fn read<'a>(&self, bytes: &'a [u8]) -> Result<Parts<'a>, Fault> {
        read(self.class(), bytes)
    }
}
