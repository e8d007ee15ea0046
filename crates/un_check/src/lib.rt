//! What a checker of a trace keeps of a lane, by the lane's lines alone.
//!
//! ```text
//! let mut end = Receiving::make(alloc, 8);
//! end.post_line(lane);                                // Some(Posted): a request is at home
//! end.add(false, (0, 0), line)?;                      // of each line of the lane, where it is one that may follow
//! end.rx_done_line(lane);                             // Some(Opened) of the first transfer that landed, once none is read
//! end.deliver_number();                               // the transfer that is read, and its next datagram
//!
//! let mut building = Building::make(alloc, &params, lane)?;
//! match building.closes(frame) {                      // of a frame that is accepted: the span of the transfer that it makes
//!     None => building.keep(frame),                   // it makes none, and stays in the open block
//!     Some(span) => same = building.make_with(frame, span, serial, bytes),    // whether the transfer has these bytes
//! }
//!
//! let mut transfers = Transfers::make(alloc);
//! transfers.add(line)?;                               // of each line of the lane, where it is one that may follow
//! transfers.take_line(false, false, lane, posted);    // Some(Flying) of the first that waits, or Some(Cut) where it is marked
//! transfers.land_line(lane, planned);                 // Some(Landed), Some(Retried), Some(Failed) or Some(Cut) of the one that flies
//! transfers.unlink_line(false, lane, cause, posted);  // Some(Marked), and once all are marked Some(Recalled)
//! ```
//!
//! `Receiving` is a lane's receiving end, `Building` what the lane builds, and `Transfers` its transfers. The other calls do nothing:
//! each is a law, that what is kept is what the lane's lines say, that a line which is said is the one that the step writes and may
//! follow, and where a reading of a whole history stops.
#![tactic(auto)]

mod building;
mod draft;
mod laws_building;
mod laws_half;
mod laws_moments;
mod laws_receiving;
mod laws_transfers;
mod reading;
mod receiving;
mod source;
mod transfers;

pub use building::Building;
pub use laws_building::{building_is_kept, offer_is_said, tick_is_said};
pub use laws_half::{half_is_kept, said_goes_on, work_is_said};
pub use laws_moments::{readings_stop, reads_are_joined, steps_leave_moments, stop_is_one};
pub use laws_receiving::{
    delivery_is_said, post_is_said, receive_counts_are_said, receive_pool_is_kept,
    receiving_follows, receiving_is_kept, rx_done_is_said,
};
pub use laws_transfers::{
    lines_keep_transfers, said_transfers_go_on, transfer_steps_are_said, transfers_are_looked_up,
};
pub use reading::Reading;
pub use receiving::Receiving;
pub use source::Source;
pub use transfers::{Transfer, Transfers};
