//! Transfers of NCM, in either width of a block's fields.

ghost use Rattle.std.specs.Prelude.{◌≡◌, IfOk};
ghost use Rattle.un_frame.specs.Lanes.{packs};
ghost use Rattle.un_frame.specs.Params.{Agree, AreInRange};
ghost use Rattle.un_ntb.specs.Formats.{class_of};
ghost use Rattle.un_wire.specs.Codings.{fresh};

use crate::parts::{Parts, read};
use crate::wire::Wire;
use std::alloc::{AllocError, Global};
use std::marker::Model;
use un_frame::{Class, Fault, Lane, Params};
use un_ntb::Writer;
use un_req::Request;

/// A codec of NCM: a transfer is a block of frames. `WIDTH` is the bytes of an index or a length in the block: 2 for NTB16 and 4
/// for NTB32 (NCM 1.0, 3.2.1 and 3.2.2).
#[derive(Drop)]
pub struct NtbWire<const WIDTH: usize> {
    params: Params,
    writer: Writer<WIDTH>,
}

/// A codec of NCM with fields of 16 bits (NCM 1.0, NTB16).
pub type Ntb16Wire = NtbWire<2>;

/// A codec of NCM with fields of 32 bits (NCM 1.0, NTB32).
pub type Ntb32Wire = NtbWire<4>;

impl<const WIDTH: usize> Model for NtbWire<WIDTH> {
    ghost use Rattle.un_frame.specs.Wire.{Coding};
    ghost use Rattle.un_wire.specs.Held.{IsNtb, ntb_coding};

    ghost Value = { Coding };

    ghost view = { λ w. ntb_coding w };

    ghost invariant = { λ w. IsNtb WIDTH w };
}

impl<const WIDTH: usize> NtbWire<WIDTH> {
    /// A codec with no open transfer. It takes the memory for where the frames of a block stand, of as many as a block can hold
    /// (`Writer::most`); an error is want of memory.
    pub(crate) fn make(alloc: Global, params: &Params) -> Result<NtbWire<WIDTH>, AllocError>
        requires in_range { AreInRange params.now }
        requires agree { Agree params.now }
        requires class { params.now.class ≡ class_of WIDTH }
        ensures { IfOk result (λ codec. codec ≡ fresh params.now) }
    {
        let writer = Writer::make(
            alloc,
            params.datagrams,
            params.block,
            params.divisor,
            params.remainder,
            params.alignment,
        )?;
        Ok(NtbWire {
            params: *params,
            writer,
        })
    }

    /// Its class.
    pub(crate) fn class(&self) -> Class
        ensures { result ≡ self.now.params.class }
    {
        self.params.class
    }

    /// Whether the transmitting end of a lane packs several frames into one of its transfers: in either lane it does.
    pub(crate) fn packs(&self, lane: Lane) -> bool
        ensures { result ≡ packs self.now.params.class lane }
    {
        let _params = self.params;
        true
    }
}

impl<const WIDTH: usize> Wire for NtbWire<WIDTH> {
    ghost coding = { λ w. w };

    fn capacity(&self) -> u32 {
        self.params.block
    }

    fn count(&self) -> u32 {
        self.writer.count()
    }

    fn fits(&self, length: u32) -> bool {
        self.writer.fits(length)
    }

    fn start(&mut self, request: &mut Request) {
        self.writer.start(request);
    }

    fn append(&mut self, request: &mut Request, frame: &[u8]) {
        self.writer.append(request, frame);
    }

    fn close(&mut self, request: &mut Request, serial: u64) {
        self.writer.close(request, serial);
    }

    fn read<'a>(&self, bytes: &'a [u8]) -> Result<Parts<'a>, Fault> {
        read(self.params.class, bytes)
    }
}
