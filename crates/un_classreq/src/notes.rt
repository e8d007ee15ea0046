//! The notifications of the device.

ghost use Rattle.std.specs.Prelude.{◌≡◌, ◌∷◌, [], IfOk};
ghost use Rattle.un_classreq.specs.Notes;

use crate::bytes::push_long;
use crate::setup::Setup;
use std::alloc::{AllocError, Global};
use un_frame::Bytes;

/// The bits each second in both directions that the device notifies of.
const BIT_RATE: u32 = 480_000_000;

/// CONNECTION_SPEED_CHANGE (ECM 1.2, 6.3.3).
fn speed_change(alloc: Global) -> Result<Bytes, AllocError>
    ensures { IfOk result (λ v. v ≡ Rattle.un_classreq.specs.Notes.speed_change) }
{
    let setup = Setup {
        request_type: 0xa1,
        request: 0x2a,
        value: 0,
        index: 0,
        length: 8,
    };
    let mut bytes = Vec::from_slice(alloc, &setup.to_bytes())?;
    push_long(&mut bytes, BIT_RATE)?;
    push_long(&mut bytes, BIT_RATE)?;
    Ok(Bytes::make(bytes))
}

/// NETWORK_CONNECTION: the network is there (ECM 1.2, 6.3.1).
fn connected(alloc: Global) -> Result<Bytes, AllocError>
    ensures { IfOk result (λ v. v ≡ Rattle.un_classreq.specs.Notes.connected) }
{
    let setup = Setup {
        request_type: 0xa1,
        request: 0x00,
        value: 1,
        index: 0,
        length: 0,
    };
    Ok(Bytes::make(Vec::from_slice(alloc, &setup.to_bytes())?))
}

/// The notifications of a connection: its speed, and that it is there.
pub fn connection(alloc: Global) -> Result<Vec<Bytes>, AllocError>
    ensures { IfOk result (λ v. v.items ≡ Rattle.un_classreq.specs.Notes.speed_change ∷ Rattle.un_classreq.specs.Notes.connected ∷ []) }
{
    let mut notes = Vec::with_capacity(alloc, 2)?;
    notes.push(speed_change(alloc)?)?;
    notes.push(connected(alloc)?)?;
    Ok(notes)
}
