//! All that a source gives, and all of a text.

ghost use Rattle.std.specs.Prelude.{◌≡◌, ◌≤◌, ℕ, List, IfOk, OnOk, OnErr, IsErrOf, vec_len, length, ◌<◌, ◌+◌, min};
ghost use Rattle.std.specs.Io.KnownBytes.{Appends, Consumes};
ghost use Rattle.un_io.specs.Io.{Rose, ReadsMore, ReadsWhole, Stopped};

use crate::traits::{Sink, Source};
use std::alloc::{AllocError, Global};
use thiserror::Error;

/// Why a source wasn't read to its end. The texts are for people alone.
#[derive(Clone, Copy, Debug, PartialEq, Eq, Error)]
pub enum ReadError {
    /// A read failed; the source's count rose in this call.
    #[error("a read failed")]
    ReadFault,
    /// The source gave more bytes than the limit.
    #[error("the input is too large")]
    TooLarge,
    /// There was no memory for the bytes.
    #[error("no memory")]
    NoMemory,
}

/// A write failed, and the sink's count rose: it holds a front of the text, and not all of it.
#[derive(Clone, Copy, Debug, PartialEq, Eq)]
pub struct WriteFault;

/// How many bytes are asked for at most in one read.
const PIECE: usize = 65536;

/// A buffer of this many bytes. The size is a parameter, so that no proof computes a list so long.
fn buffer(alloc: Global, size: usize) -> Result<Vec<u8>, AllocError>
    ensures { IfOk result (λ v. vec_len v ≡ size) }
{
    vec![in alloc; 0u8; size]
}

/// How many bytes to ask for: one more than there is room for, where a piece has so many.
fn wanted(room: u64) -> usize
    ensures { result ≡ min (room + 1) PIECE }
{
    if room < PIECE as u64 {
        room as usize + 1
    } else {
        PIECE
    }
}

/// Reads once, into the front of the buffer, and puts what came at the end of the bytes.
fn read_more<I: Source>(
    input: &mut I,
    piece: &mut [u8],
    bytes: &mut Vec<u8>,
) -> Result<usize, ReadError>
    requires { 0 < length piece.old }
    ensures given { (given : List ℕ) × Consumes (I.left input.old) (I.left input.new) given × (length given ≤ length piece.old)
        × ReadsMore given (I.left input.new) bytes.old.items bytes.new.items result }
    ensures never_falls { I.faults input.old ≤ I.faults input.new }
    ensures cause { IsErrOf result ReadError.ReadFault → Rose (I.faults input.old) (I.faults input.new) }
{
    let Ok(count) = input.read(piece) else {
        return Err(ReadError::ReadFault);
    };
    if bytes.extend_from_slice(&piece[..count]).is_err() {
        return Err(ReadError::NoMemory);
    }
    Ok(count)
}

/// Reads a source to its end and answers all bytes that it gave in this call, `limit` at most. An error is `TooLarge` where it gave
/// `limit + 1` bytes, and then it is read no further; `ReadFault` where a read failed, after `limit` bytes at most; `NoMemory` where
/// there was no memory for the bytes, after `limit + 1` of them at most.
pub fn read_whole<I: Source>(alloc: Global, input: &mut I, limit: u64) -> Result<Vec<u8>, ReadError>
    ensures given { (given : List ℕ) × Consumes (I.left input.old) (I.left input.new) given
        × ReadsWhole (λ v. v.items) limit given (I.left input.new) result }
    ensures never_falls { I.faults input.old ≤ I.faults input.new }
    ensures cause { IsErrOf result ReadError.ReadFault → Rose (I.faults input.old) (I.faults input.new) }
{
    let mut bytes = Vec::new(alloc);
    let Ok(mut buffer) = buffer(alloc, PIECE) else {
        return Err(ReadError::NoMemory);
    };
    let piece = buffer.as_mut_slice();
    loop {
        let want = wanted(limit - bytes.len() as u64);
        match read_more(input, &mut piece[..want], &mut bytes) {
            Ok(0) => return Ok(bytes),
            Ok(_) if bytes.len() as u64 > limit => return Err(ReadError::TooLarge),
            Ok(_) => {}
            Err(e) => return Err(e),
        }
    }
}

/// Adds all of the bytes to a sink. The error comes only where a write failed; then a front of them was added, and not all.
pub fn write_whole<O: Sink>(out: &mut O, bytes: &[u8]) -> Result<(), WriteFault>
    ensures written { OnOk result (Appends (O.held out.old) (O.held out.new) bytes.now) }
    ensures stopped { OnErr result (Stopped (O.held out.old) (O.held out.new) bytes.now) }
    ensures never_falls { O.faults out.old ≤ O.faults out.new }
    ensures cause { OnErr result (Rose (O.faults out.old) (O.faults out.new)) }
{
    let mut at = 0;
    while at < bytes.len() {
        let Ok(count) = out.write(&bytes[at..]) else {
            return Err(WriteFault);
        };
        at += count;
    }
    Ok(())
}
