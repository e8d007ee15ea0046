//! The lane of an end, as a type.

ghost use Rattle.std.specs.Prelude.{◌≡◌};
ghost use Rattle.un_frame.specs.declared.params.Lane.{Lane};
ghost use Rattle.un_frame.specs.declared.params.Lane.TheVariants as lane;

use un_frame::Lane;

/// A type that names a lane.
pub trait OnLane {
    ghost LANE: { Lane };

    /// The lane that it names.
    const LANE: Lane;
}

/// Names the lane from the host to the gadget.
pub struct Outward;

impl OnLane for Outward {
    ghost LANE = { lane.Outward };

    const LANE: Lane = Lane::Outward;
}

/// Names the lane from the gadget to the host.
pub struct Inward;

impl OnLane for Inward {
    ghost LANE = { lane.Inward };

    const LANE: Lane = Lane::Inward;
}
