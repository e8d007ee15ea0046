//! The script of a load.

ghost use Rattle.std.specs.Prelude.{◌≡◌, ◌≤◌, IfOk};
ghost use Rattle.un_script.specs.Load.{load_frame, load_lane, load_script};

use crate::script::Script;
use std::alloc::{AllocError, Global};
use un_frame::{Bytes, Class, Lane, Params};

/// The destination, the source and the type of each frame.
const ADDRESSES: [u8; 14] = [2, 0, 0, 0, 0, 1, 2, 0, 0, 0, 0, 2, 8, 0];

/// Where a frame's bytes begin to tell its number and their own places.
const BODY: u32 = 18;

/// The lane of a frame.
fn lane_of(number: u32) -> Lane
    ensures { result ≡ load_lane number }
{
    if number % 2 == 0 {
        Lane::Outward
    } else {
        Lane::Inward
    }
}

/// The bytes of a frame.
#[tactic(auto, using(crate::proofs::Loads::body_more, crate::proofs::Loads::body_none))]
fn frame_of(alloc: Global, number: u32) -> Result<Vec<u8>, AllocError>
    ensures { IfOk result (λ frame. frame.items ≡ load_frame number) }
{
    let length = 60 + number % 1400;
    let mut frame = Vec::with_capacity(alloc, length as usize)?;
    frame.extend_from_slice(&ADDRESSES)?;
    frame.extend_from_slice(&number.to_be_bytes())?;
    for place in BODY..length {
        frame.push(((u64::from(number) + u64::from(place)) % 256) as u8)?;
    }
    Ok(frame)
}

/// Makes the script of a load of 1 to 65,536 frames: class ncm16 with all defaults, no controls and no faults. Frame `i` is outward where `i` is even and inward where it is odd; its sender
/// is `i / 2 % 4`; it has `60 + i % 1400` bytes: the destination 020000000001, the source 020000000002, the type 0800, `i` as four bytes with the highest first, and then at each
/// place `j` the byte `(i + j) % 256`. The one error is want of memory.
#[tactic(auto, using(crate::proofs::Loads::load_none, crate::proofs::Loads::load_more, crate::proofs::Loads::count_more))]
pub fn generate(alloc: Global, count: u32) -> Result<Script, AllocError>
    requires least { 1 ≤ count }
    requires most { count ≤ 65536 }
    ensures { IfOk result (λ script. script ≡ load_script count) }
{
    let mut script = Script::make(alloc, Params::of_class(Class::Ncm16));
    for number in 0..count {
        let frame = frame_of(alloc, number)?;
        script.add_frame(lane_of(number), number / 2 % 4, Bytes::make(frame))?;
    }
    Ok(script)
}
