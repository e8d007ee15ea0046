//! The laws of what a checker keeps of what a lane builds, each the contract of a call that does nothing.

ghost use Rattle.un_check.specs.BuildingLaws.{
  ClaimIsKept,
  LineIsBuilt,
  NothingIsBuilt,
  OfferGoesOn,
  OfferIsSaid,
  TickGoesOn,
  TickIsSaid,
};

/// What is kept is what the lane's lines say: before the first line, and with each line that may follow. It tells whether the open
/// block holds a transmit request.
pub fn building_is_kept()
    ensures nothing { NothingIsBuilt }
    ensures line { LineIsBuilt }
    ensures claim { ClaimIsKept }
{}

/// What is said of an offer of a good frame is what the step writes, and the transfer that the frame closes may follow.
pub fn offer_is_said()
    ensures said { OfferIsSaid }
    ensures goes_on { OfferGoesOn }
{}

/// What is said of a tick is what the step writes, and the transfer of all that is built may follow.
pub fn tick_is_said()
    ensures said { TickIsSaid }
    ensures goes_on { TickGoesOn }
{}
