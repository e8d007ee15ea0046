//! The builders of transfers: what frames become a transfer, and when.
//!
//! Where the lane packs one frame into a transfer, it is made at once. Else the host's builder claims a request of the lane's pool and builds in it, and keeps a frame that didn't fit for the next block;
//! the gadget's builds in a request of its own, and its code copies the closed block once (no clause counts copies). Both follow the cut law (`closed_span` of un_frame), and write through `Wire` alone.
//!
//! ```text
//! let mut builder = HostAgg::make(alloc, Codec::make(alloc, &params)?, params.datagrams)?;
//! builder.offer(&mut pool, first, 0, 0);      // Kept: a block is open
//! builder.offer(&mut pool, second, 1, 0);     // Kept, or Made with the block that `second` didn't fit into
//! builder.tick(&mut pool, 0);                 // Waited three times, and then Made
//! ```
//!
//! A `Builder`'s calls, by what they are for: `offer` and `tick` make transfers; `drop_build` gives up what is built; `can_offer`, `can_tick` and `census` are for one who looks, and change nothing.
#![tactic(auto)]

mod block;
mod buffer;
mod builder;
mod gadget;
mod host;

pub use block::OpenBlock;
pub use builder::Builder;
pub use gadget::GadWrap;
pub use host::HostAgg;
