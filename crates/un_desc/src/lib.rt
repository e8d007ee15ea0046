//! Descriptors both ways: the configuration that the gadget offers, and the function that a host reads from one
//! (USB 2.0 chapter 9, CDC 1.2, ECM 1.2, EEM 1.0, NCM 1.0). Those of RNDIS stay out of this project.
//!
//! ```text
//! let bytes = build(alloc, &params)?;                 // the configuration of the parameters' class, not RNDIS
//! match read(bytes.as_slice()) {
//!     Ok(function) => ..                              // its kind, interfaces, endpoints, segment and packet size
//!     Err(DescFault::Missing { part }) => ..          // no descriptor is this part
//!     Err(fault) => ..                                // Truncated or BadLength at a byte, or an Unknown subclass
//! }
//! ```
//!
//! `build` is the gadget's and `read` the host's. What `read` makes of bytes that `build` made is the function of their
//! parameters. `read` takes any bytes, and no memory; of several faults it answers the first, in the order that its
//! comment tells.
#![tactic(auto)]

mod descriptor;
mod function;
mod parts;
mod reader;
mod walk;
mod writer;

pub use function::{DescFault, Function, FunctionKind, Part};
pub use reader::read;
pub use writer::build;
