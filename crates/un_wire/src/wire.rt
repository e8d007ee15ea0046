//! What a codec does, in whichever class.

ghost use Rattle.std.specs.Prelude.{◌≡◌, ◌≤◌, ◌<◌, ◌++◌, ◌∷◌, [], List, ℕ, IfOk, IsTrue, length, true, false};
ghost use Rattle.un_frame.specs.Fault.{fault_in};
ghost use Rattle.un_frame.specs.Wire.{Coding, IsOpen, Reads, capacity_of, fault_of, form, frame_fits, open_form};

use crate::parts::Parts;
use un_frame::Fault;
use un_req::Request;

/// Writes frames to transfers, and reads the frames of transfers. A frame has 14 bytes at least.
///
/// A transfer is built in a request, in place: `start`, then `append` for each frame that fits, then `close`. Between these calls
/// the request's bytes are those that the last of them left. No call takes memory.
pub trait Wire {
    /// Its parameters, which no call changes, the sizes of the open transfer's frames, and whether a transfer is open.
    ghost coding: { Self → Coding };

    /// The most bytes of a transfer that it closes: a segment's for ECM, 44 more than a segment's for RNDIS, a block's for NCM, and for
    /// EEM a block's too, or 8 more than a segment's where that is more, in both lanes.
    fn capacity(&self) -> u32
        ensures { result ≡ capacity_of (coding self.now).params };

    /// How many frames the open transfer has, and 0 where none is open.
    fn count(&self) -> u32
        ensures count { result ≡ length (coding self.now).sizes }
        ensures nothing_open { (coding self.now).is_open ≡ false → result ≡ 0 };

    /// Whether a frame of this length in bytes fits the open transfer, or a new one where none is open. ECM and RNDIS take one frame of
    /// at most a segment. EEM takes frames of at most a segment while their packets, and 2 bytes more, have at most `capacity`, and the
    /// frames are within their limit. NCM takes frames while the closed block has at most the block's bytes, its table at most
    /// 65,535, and the frames are within their limit.
    fn fits(&self, length: u32) -> bool
        ensures fits { result ≡ frame_fits (coding self.now).params (coding self.now).sizes length }
        ensures nothing_open { (coding self.now).is_open ≡ false → result ≡ frame_fits (coding self.now).params [] length };

    /// Begins a transfer in an empty request that has room for `capacity` bytes.
    fn start(&mut self, request: &mut Request)
        requires empty { request.old.bytes ≡ [] }
        requires capacity { capacity_of (coding self.old).params ≤ request.old.capacity }
        ensures coding { coding self.new ≡ record (coding self.old) { sizes = []; is_open = true } }
        ensures request { request.new ≡ record request.old { bytes = open_form (coding self.old).params [] } };

    /// Appends a frame that fits.
    fn append(&mut self, request: &mut Request, frame: &[u8])
        requires opened { (coding self.old).is_open ≡ true }
        requires least { 14 ≤ length frame.now }
        requires fits { IsTrue (frame_fits (coding self.old).params (coding self.old).sizes (length frame.now)) }
        requires capacity { capacity_of (coding self.old).params ≤ request.old.capacity }
        requires left { (frames : List (List ℕ)) × IsOpen (coding self.old).params (coding self.old).sizes request.old.bytes frames }
        ensures coding { coding self.new ≡ record (coding self.old) { sizes = (coding self.old).sizes ++ length frame.now ∷ [] } }
        ensures request { (frames : List (List ℕ)) → IsOpen (coding self.old).params (coding self.old).sizes request.old.bytes frames
            → request.new ≡ record request.old { bytes = open_form (coding self.old).params (frames ++ frame.now ∷ []) } };

    /// Ends a transfer with a frame at least: its bytes are then the written form of its frames, and at most `capacity`. `serial`
    /// is the transfer's, which a block has a place for.
    fn close(&mut self, request: &mut Request, serial: u64)
        requires opened { (coding self.old).is_open ≡ true }
        requires some { 0 < length (coding self.old).sizes }
        requires capacity { capacity_of (coding self.old).params ≤ request.old.capacity }
        requires left { (frames : List (List ℕ)) × IsOpen (coding self.old).params (coding self.old).sizes request.old.bytes frames }
        ensures coding { coding self.new ≡ record (coding self.old) { sizes = []; is_open = false } }
        ensures request { (frames : List (List ℕ)) → IsOpen (coding self.old).params (coding self.old).sizes request.old.bytes frames
            → request.new ≡ record request.old { bytes = form (coding self.old).params serial frames } }
        ensures within { length request.new.bytes ≤ capacity_of (coding self.old).params };

    /// The frames of a transfer exactly where the grammar of the class reads it, lent from its bytes; else the first fault with its
    /// place. The whole transfer is checked before a frame is lent.
    fn read<'a>(&self, bytes: &'a [u8]) -> Result<Parts<'a>, Fault>
        ensures found { IfOk result (λ parts. Reads (coding self.now).params.class bytes.now parts.frames parts.commands) }
        ensures fault { fault_in result ≡ fault_of (coding self.now).params.class bytes.now };
}
