//! The link: two lanes, their feeds and controls, and the one history of both.
//!
//! A link is made of a script and what the two ends agreed on. It does nothing by itself: each action is a step, which writes its lines or answers why not.
//!
//! ```text
//! let mut link = Link::make(alloc, script, &agreed)?;     // all memory that it will ever need
//! link.step(Action::Offer { lane: Lane::Outward, sender: 0 });
//! link.step(Action::Move { lane: Lane::Outward });        // a transfer goes over, or Nothing, NoBuffer, ..
//! link.drain();                                           // the serial round, until nothing is left to do
//! let history = link.journal();
//! ```
//!
//! Its calls, by who makes them: `step` and `drain` for one who owns the link; `take_flight` and `land_flight`, with the copy between, for workers who share it (`impl Machine`, for a turn); `journal`, `script`, `phase`,
//! `homes`, `census`, `quiet` and `finished` for one who looks, which changes nothing.
#![tactic(auto)]

mod ends;
mod flight;
mod half;
mod homes;
mod link;
mod offer;
mod orders;
mod room;
mod shared;

pub use ends::Link;
pub use flight::{LinkCarried, LinkFlight};
pub use homes::Homes;
pub use link::ROUND;
