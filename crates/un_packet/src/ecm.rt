//! ECM: a transfer is one frame (CDC ECM 1.2, 3.3.1).

ghost use Rattle.std.specs.Prelude.{◌≡◌, ◌≤◌, ◌∷◌, [], length, IfOk};
ghost use Rattle.un_frame.specs.declared.params.Class.TheVariants.{Ecm};
ghost use Rattle.un_frame.specs.Fault.{fault_in};
ghost use Rattle.un_frame.specs.Wire.{Reads, fault_of};

use un_frame::{Fault, Kind};
use un_req::Request;

/// Writes a frame as an ECM transfer into a request that is empty and has room for the frame's bytes.
pub fn ecm_append(request: &mut Request, frame: &[u8])
    requires empty { request.old.bytes ≡ [] }
    requires room { length frame.now ≤ request.old.capacity }
    ensures { request.new ≡ record request.old { bytes = frame.now } }
{
    request.push(frame);
}

/// Reads an ECM transfer as its one frame, which is lent. `ShortFrame` at 0 comes exactly where it has fewer than the 14 bytes of
/// an Ethernet header.
pub fn ecm_read(bytes: &[u8]) -> Result<&[u8], Fault>
    ensures whole { IfOk result (λ frame. frame.now ≡ bytes.now) }
    ensures found { IfOk result (λ frame. Reads Ecm bytes.now (frame.now ∷ []) 0) }
    ensures fault { fault_in result ≡ fault_of Ecm bytes.now }
{
    if bytes.len() < 14 {
        return Err(Fault {
            kind: Kind::ShortFrame,
            at: 0,
        });
    }
    Ok(bytes)
}
