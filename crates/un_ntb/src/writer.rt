//! A block that is built in a request.

ghost use Rattle.std.specs.Prelude.{◌≡◌, ◌+◌, ◌<◌, ◌≤◌, ◌++◌, ◌∷◌, [], IfOk, IsTrue, List, ℕ, false, length, true};
ghost use Rattle.un_frame.specs.NtbForm.{IsOpenBlock, block_fits, ntb_form, open_block};
ghost use Rattle.un_frame.specs.Params.{most_block};
ghost use Rattle.un_ntb.specs.Formats.{class_of, format_of};
ghost use Rattle.un_ntb.specs.Writer as Room;

use crate::fields::{block_signature, head, header, pair};
use crate::table::{Datagram, close_block, closed_fits, push_datagram, push_short};
use std::alloc::{AllocError, Global};
use std::marker::Model;
use un_layout::{align, place};
use un_req::Request;

/// Builds blocks in requests, in place: it keeps where the datagrams of the open block stand, and none of their bytes.
///
/// A contract sees its layout, the largest block, the most datagrams (0 for no limit), the sizes of the datagrams since
/// `start`, and whether a block is open. With no open block there are no sizes.
#[derive(Drop)]
pub struct Writer<const WIDTH: usize> {
    limit: u32,
    block: u32,
    divisor: u32,
    remainder: u32,
    alignment: u32,
    datagrams: Vec<Datagram>,
    end: u32,
    is_open: bool,
}

impl<const WIDTH: usize> Model for Writer<WIDTH> {
    ghost use Rattle.un_frame.specs.NtbForm.{Writing};
    ghost use Rattle.un_ntb.specs.Formats.{format_of};
    ghost use Rattle.un_ntb.specs.Writer.{IsWriter, writing};

    ghost Value = { Writing };

    ghost view = { λ w. writing w };

    ghost invariant = { λ w. IsWriter (format_of WIDTH) w };
}

/// How many datagrams a block can hold at most, whatever they are: each has 14 bytes at least and a pair of the table, and the
/// table has at most 65,535 bytes.
fn most_held<const WIDTH: usize>(block: u32) -> usize
    requires { 2048 ≤ block }
    ensures { result ≡ Room.most_held (format_of WIDTH) block }
{
    let ends = head::<WIDTH>() + pair::<WIDTH>();
    let by_size = (block as usize - header::<WIDTH>() - ends) / (14 + pair::<WIDTH>());
    by_size.min((65535 - ends) / pair::<WIDTH>())
}

/// How many datagrams a writer makes room for: as many as a block can hold, and no more than the limit.
fn most_datagrams<const WIDTH: usize>(block: u32, limit: u32) -> usize
    requires { 2048 ≤ block }
    ensures { result ≡ Room.most_datagrams (format_of WIDTH) block limit }
{
    let most = most_held::<WIDTH>(block);
    if limit == 0 {
        most
    } else {
        most.min(limit as usize)
    }
}

impl<const WIDTH: usize> Writer<WIDTH> {
    ghost use Rattle.un_ntb.specs.Writer.{most_datagrams};

    /// A writer with no open block. `limit` is the most datagrams of a block, with 0 for no limit, and `block` the most
    /// bytes: 2,048 to 65,535 in NTB16, and to 262,144 in NTB32. Of the layout (NCM 1.0, table 6-3) `divisor` is 1 to 64,
    /// `remainder` is below it, and `alignment` is 1 to 64. It takes the memory for where the datagrams stand, of as many as
    /// a block of these sizes can hold and the limit allows (`most`), and no later call takes any; an error is want of memory.
    pub fn make(
        alloc: Global,
        limit: u32,
        block: u32,
        divisor: u32,
        remainder: u32,
        alignment: u32,
    ) -> Result<Writer<WIDTH>, AllocError>
        requires divisor { (1 ≤ divisor) × (divisor ≤ 64) }
        requires remainder { remainder < divisor }
        requires alignment { (1 ≤ alignment) × (alignment ≤ 64) }
        requires block { (2048 ≤ block) × (block ≤ most_block (class_of WIDTH)) }
        ensures { IfOk result (λ w. w ≡ record {
          layout = record { divisor = divisor; remainder = remainder; alignment = alignment };
          block = block;
          limit = limit;
          sizes = [];
          is_open = false;
        }) }
    {
        let datagrams = Vec::with_capacity(alloc, most_datagrams::<WIDTH>(block, limit))?;
        Ok(Writer {
            limit,
            block,
            divisor,
            remainder,
            alignment,
            datagrams,
            end: header::<WIDTH>() as u32,
            is_open: false,
        })
    }

    /// For how many datagrams it has the memory: as many as a block can hold, with 14 bytes at least and a pair of the table
    /// each, and no more than the limit. No call changes it.
    pub fn most(&self) -> usize
        ensures { result ≡ most_datagrams (format_of WIDTH) self.now.block self.now.limit }
    {
        self.datagrams.capacity()
    }

    /// How many datagrams the open block has, and 0 with no open block.
    pub fn count(&self) -> u32
        ensures count { result ≡ length self.now.sizes }
        ensures nothing_open { self.now.is_open ≡ false → result ≡ 0 }
    {
        self.datagrams.len() as u32
    }

    /// Begins a block in an empty request: its header, with zeros for the fields that `close` writes.
    #[tactic(auto, unfolding(un_frame::specs::NtbForm::datagram_bytes))]
    pub fn start(&mut self, request: &mut Request)
        requires empty { request.old.bytes ≡ [] }
        requires capacity { self.old.block ≤ request.old.capacity }
        ensures writer { self.new ≡ record self.old { sizes = []; is_open = true } }
        ensures request { request.new ≡ record request.old { bytes = open_block (format_of WIDTH) self.old.layout [] } }
        ensures left { IsOpenBlock (format_of WIDTH) self.new.layout self.new.sizes request.new.bytes [] }
    {
        self.datagrams.clear();
        self.end = header::<WIDTH>() as u32;
        self.is_open = true;
        request.push(&block_signature::<WIDTH>());
        push_short(request, header::<WIDTH>() as u16);
        request.push_zeros(header::<WIDTH>() as u32 - 6);
    }

    /// Whether a frame of this length fits the open block: with it the closed block is at most `block` bytes, its table at
    /// most 65,535, and the datagrams are within the limit. With no open block, whether it fits a new one.
    #[tactic(auto, using(un_frame::proofs::NtbFormLemmas::least_place_near))]
    pub fn fits(&self, length: u32) -> bool
        ensures fits { result ≡ block_fits (format_of WIDTH) self.now.layout self.now.block self.now.limit (self.now.sizes ++ length ∷ []) }
        ensures nothing_open { self.now.is_open ≡ false → result ≡ block_fits (format_of WIDTH) self.now.layout self.now.block self.now.limit (length ∷ []) }
    {
        let count = self.datagrams.len() as u32 + 1;
        length <= self.block
            && closed_fits::<WIDTH>(
                place(self.end, self.divisor, self.remainder) + length,
                count,
                self.alignment,
                self.block,
                self.limit,
            )
    }

    /// Appends a frame of 14 bytes at least that fits the open block, with zeros before it up to its place. The request's
    /// bytes are those that the last call left: the header and the datagrams so far.
    #[tactic(auto, using(un_frame::proofs::NtbFormLemmas::least_place_near))]
    pub fn append(&mut self, request: &mut Request, frame: &[u8])
        requires opened { self.old.is_open ≡ true }
        requires least { 14 ≤ length frame.now }
        requires fits { IsTrue (block_fits (format_of WIDTH) self.old.layout self.old.block self.old.limit (self.old.sizes ++ length frame.now ∷ [])) }
        requires capacity { self.old.block ≤ request.old.capacity }
        requires left { (frames : List (List ℕ)) × IsOpenBlock (format_of WIDTH) self.old.layout self.old.sizes request.old.bytes frames }
        ensures writer { self.new ≡ record self.old { sizes = self.old.sizes ++ length frame.now ∷ [] } }
        ensures request { (frames : List (List ℕ)) → IsOpenBlock (format_of WIDTH) self.old.layout self.old.sizes request.old.bytes frames
            → request.new ≡ record request.old { bytes = open_block (format_of WIDTH) self.old.layout (frames ++ frame.now ∷ []) } }
        ensures left { (frames : List (List ℕ)) → IsOpenBlock (format_of WIDTH) self.old.layout self.old.sizes request.old.bytes frames
            → IsOpenBlock (format_of WIDTH) self.new.layout self.new.sizes request.new.bytes (frames ++ frame.now ∷ []) }
    {
        let at = place(self.end, self.divisor, self.remainder);
        push_datagram(request, at - self.end, frame);
        self.datagrams.push_reserved(Datagram {
            at,
            size: frame.len() as u32,
        });
        self.end = at + frame.len() as u32;
    }

    /// Ends the open block, which has a datagram at least: appends its table at its place and writes the fields of the
    /// header that were left at 0, the sequence number among them, which is the serial modulo 65,536.
    #[tactic(auto, using(un_frame::proofs::NtbFormLemmas::least_multiple_near))]
    pub fn close(&mut self, request: &mut Request, serial: u64)
        requires opened { self.old.is_open ≡ true }
        requires some { 0 < length self.old.sizes }
        requires capacity { self.old.block ≤ request.old.capacity }
        requires left { (frames : List (List ℕ)) × IsOpenBlock (format_of WIDTH) self.old.layout self.old.sizes request.old.bytes frames }
        ensures writer { self.new ≡ record self.old { sizes = []; is_open = false } }
        ensures request { (frames : List (List ℕ)) → IsOpenBlock (format_of WIDTH) self.old.layout self.old.sizes request.old.bytes frames
            → request.new ≡ record request.old { bytes = ntb_form (format_of WIDTH) self.old.layout serial frames } }
    {
        let table = align(self.end, self.alignment);
        close_block::<WIDTH>(request, &self.datagrams, self.end, table, serial);
        self.datagrams.clear();
        self.end = header::<WIDTH>() as u32;
        self.is_open = false;
    }
}
