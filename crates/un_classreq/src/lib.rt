//! The device's side of the control endpoint: set-up packets both ways, the requests of USB 2.0 chapter 9, ECM 1.2 and
//! NCM 1.0 that the device answers, and its notifications.
//!
//! ```text
//! let mut device = Device::make(alloc, &params)?;                     // in no configuration; not of RNDIS
//! let asked = Setup::from_bytes(&[0xa1, 0x80, 0, 0, 0, 0, 28, 0]);    // GET_NTB_PARAMETERS, 28 bytes at most
//! match device.control(alloc, &asked, &[]) {                          // no bytes follow to the device
//!     Reply::Sent(bytes) => ..            // it is done, and these go to the host
//!     Reply::Stall(why) => ..             // it is refused: of ECM and EEM as Why::Unknown
//!     Reply::NoMemory => ..               // none for the bytes
//! }
//! let notes = device.notes(alloc)?;       // what a device in this state notifies its host of
//! ```
//!
//! A `Device` has `make`, `control` and `notes`, of which `control` alone changes it, and only where it answers `Sent`.
//! A stall has the first reason that applies, in the order of `Why`. `Setup` has `to_bytes` and `from_bytes`: each
//! undoes the other.
#![tactic(auto)]

mod bytes;
mod device;
mod notes;
mod request;
mod setup;
mod state;

pub use device::{Device, Reply, Why};
pub use setup::Setup;
pub use state::State;
