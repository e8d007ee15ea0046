//! The open transfer of a class that puts one frame into each, as ECM and RNDIS do.

ghost use Rattle.std.specs.Prelude.{◌≡◌, None, Some, false, length, option_to_list, true};
ghost use Rattle.un_frame.specs.Classes.{fits_alone};

use un_frame::Params;

/// The open transfer of a codec that puts one frame into each: the length of the frame that is in it, in bytes, and whether one is
/// open.
#[derive(Clone, Copy, Debug)]
pub(crate) struct Single {
    pub(crate) held: Option<u32>,
    pub(crate) is_open: bool,
}

impl Single {
    /// No transfer is open.
    pub(crate) fn closed() -> Single
        ensures { result ≡ record { held = None; is_open = false } }
    {
        Single {
            held: None,
            is_open: false,
        }
    }

    /// How many frames the open transfer has.
    pub(crate) fn count(&self) -> u32
        ensures { result ≡ length (option_to_list self.now.held) }
    {
        match self.held {
            Some(_) => 1,
            None => 0,
        }
    }

    /// Whether a frame of this length in bytes fits the open transfer: it is the first, and has at most a segment.
    pub(crate) fn fits(&self, params: &Params, length: u32) -> bool
        ensures { result ≡ fits_alone params.now (option_to_list self.now.held) length }
    {
        self.held.is_none() && length <= params.segment
    }

    /// Begins a transfer.
    pub(crate) fn start(&mut self)
        ensures { self.new ≡ record { held = None; is_open = true } }
    {
        self.held = None;
        self.is_open = true;
    }

    /// Notes the frame that was put into it.
    pub(crate) fn hold(&mut self, length: u32)
        ensures { self.new ≡ record self.old { held = Some length } }
    {
        self.held = Some(length);
    }

    /// Ends the transfer.
    pub(crate) fn close(&mut self)
        ensures { self.new ≡ record { held = None; is_open = false } }
    {
        self.held = None;
        self.is_open = false;
    }
}
