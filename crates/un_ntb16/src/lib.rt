//! Blocks of NCM with fields of 16 bits (NTB16; NCM 1.0, 3.2.1 and 3.3.1). The logic is un_ntb's, at
//! indices of 2 bytes.
//!
//! ```text
//! let mut writer = Writer::make(alloc, 32, 2048, 4, 0, 4)?;   // 32 datagrams and 2,048 bytes at most
//! writer.start(&mut request);                                 // an empty request with room for 2,048 bytes
//! writer.append(&mut request, &frame);                        // of 60 bytes: writer.fits(60)
//! writer.close(&mut request, serial);                         // the block is whole
//! let mut parts = read(request.bytes())?;                     // or the first fault with its place
//! let first = parts.next();                                   // Some(frame), lent from the request's bytes
//! ```
//!
//! `Writer` and `Parts` are those of un_ntb with their width, and so are their calls; `read` reads a transfer as one of
//! the class `Ncm16`.
#![tactic(auto)]

ghost use Rattle.std.specs.Prelude.{◌≡◌, IfOk};
ghost use Rattle.un_frame.specs.Fault.{fault_in};
ghost use Rattle.un_frame.specs.Wire.{Reads, fault_of};
ghost use Rattle.un_frame.specs.declared.params.Class.TheVariants.{Ncm16};

use un_frame::Fault;

/// Builds blocks in requests, in place. The largest block has 2,048 to 65,535 bytes.
pub type Writer = un_ntb::Writer<2>;

/// The datagrams of a block that are left, lent from the bytes that were read.
pub type Parts<'a> = un_ntb::Parts<'a, 2>;

/// Reads a transfer as a block: its datagrams, exactly where the grammar reads it, or else the first fault with its
/// place.
pub fn read(bytes: &[u8]) -> Result<Parts<'_>, Fault>
    ensures found { IfOk result (λ parts. Reads Ncm16 bytes.now parts 0) }
    ensures fault { fault_in result ≡ fault_of Ncm16 bytes.now }
{
    un_ntb::read::<2>(bytes)
}
