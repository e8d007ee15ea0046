//! Transfers of ECM.

ghost use Rattle.std.specs.Prelude.{◌≡◌};
ghost use Rattle.un_frame.specs.Lanes.{packs};
ghost use Rattle.un_frame.specs.Params.{AreInRange};
ghost use Rattle.un_frame.specs.declared.params.Class.TheVariants.{Ecm};
ghost use Rattle.un_wire.specs.Codings.{fresh};

use crate::parts::{Parts, read};
use crate::single::Single;
use crate::wire::Wire;
use std::marker::Model;
use un_frame::{Class, Fault, Lane, Params};
use un_packet::ecm_append;
use un_req::Request;

/// A codec of ECM: a transfer is one frame (ECM 1.2, 3.3).
#[derive(Drop)]
pub struct EcmWire {
    params: Params,
    single: Single,
}

impl Model for EcmWire {
    ghost use Rattle.un_frame.specs.Wire.{Coding};
    ghost use Rattle.un_frame.specs.declared.params.Class.TheVariants.{Ecm};
    ghost use Rattle.un_wire.specs.Held.{IsSingle, single_coding};

    ghost Value = { Coding };

    ghost view = { λ w. single_coding w.params w.single };

    ghost invariant = { λ w. IsSingle Ecm w.params w.single };
}

impl EcmWire {
    /// A codec with no open transfer.
    pub(crate) fn make(params: &Params) -> EcmWire
        requires in_range { AreInRange params.now }
        requires class { params.now.class ≡ Ecm }
        ensures { result ≡ fresh params.now }
    {
        EcmWire {
            params: *params,
            single: Single::closed(),
        }
    }

    /// Its class.
    pub(crate) fn class(&self) -> Class
        ensures { result ≡ self.now.params.class }
    {
        self.params.class
    }

    /// Whether the transmitting end of a lane packs several frames into one of its transfers: it doesn't.
    pub(crate) fn packs(&self, lane: Lane) -> bool
        ensures { result ≡ packs self.now.params.class lane }
    {
        let _params = self.params;
        false
    }
}

impl Wire for EcmWire {
    ghost coding = { λ w. w };

    fn capacity(&self) -> u32 {
        self.params.segment
    }

    fn count(&self) -> u32 {
        self.single.count()
    }

    fn fits(&self, length: u32) -> bool {
        self.single.fits(&self.params, length)
    }

    fn start(&mut self, request: &mut Request) {
        self.single.start();
    }

    fn append(&mut self, request: &mut Request, frame: &[u8]) {
        self.single.hold(frame.len() as u32);
        ecm_append(request, frame);
    }

    fn close(&mut self, request: &mut Request, serial: u64) {
        self.single.close();
    }

    fn read<'a>(&self, bytes: &'a [u8]) -> Result<Parts<'a>, Fault> {
        read(self.params.class, bytes)
    }
}
