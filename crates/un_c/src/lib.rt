//! The codecs for callers in C: a static library, whose header is c/usbnet_codec.h.
//!
//! ```text
//! status = usbnet_codec_read(class, bytes, length, spans, room, &answer);
//! ```
//!
//! Each export calls one function of the layers below and states its clauses again. It takes no memory, keeps nothing
//! between calls, and reads and writes nothing but what its parameters lend. What a parameter's type says of a pointer the
//! caller in C has to see to: it isn't null, so much memory stands there, and nobody else writes it meanwhile. The header's
//! calls test for null before they come here.
#![tactic(auto)]

mod numbers;
mod reading;

pub use reading::{Answer, usbnet_codec_read};
