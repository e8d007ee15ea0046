//! The laws of what is kept of a lane's receiving end, each the contract of a call that does nothing.

ghost use Rattle.un_check.specs.ReceivingLaws.{
  DeliveryGoesOn,
  DeliveryIsSaid,
  GaveFollows,
  HomeIsSaid,
  LineIsKept,
  NothingIsKept,
  OpenedFollows,
  PoolIsBound,
  PoolIsFull,
  PoolIsKept,
  PostGoesOn,
  PostIsSaid,
  PostedIsSaid,
  RxDoneGoesOn,
  RxDoneIsSaid,
};

/// What is kept is what the lane's lines say: before the first line, and with each line that may follow.
pub fn receiving_is_kept()
    ensures nothing { NothingIsKept }
    ensures line { LineIsKept }
{}

/// An `Opened` or a `Gave` line that is this end's next may follow the lane's lines.
pub fn receiving_follows()
    ensures opened { OpenedFollows }
    ensures gave { GaveFollows }
{}

/// Each receive request stays in one place: posted, at home, in flight, landed or read. So no more than all of them are posted or at
/// home.
pub fn receive_pool_is_kept()
    ensures full { PoolIsFull }
    ensures line { PoolIsKept }
    ensures bound { PoolIsBound }
{}

/// The requests that are said to be at home and posted are those that the lane's lines leave there.
pub fn receive_counts_are_said()
    ensures home { HomeIsSaid }
    ensures posted { PostedIsSaid }
{}

/// What is said of the next transfer that is opened is what this step writes, and such a line may follow.
pub fn rx_done_is_said()
    ensures said { RxDoneIsSaid }
    ensures goes_on { RxDoneGoesOn }
{}

/// What is said of the next datagram is what a delivery writes, and such a line may follow.
pub fn delivery_is_said()
    ensures said { DeliveryIsSaid }
    ensures goes_on { DeliveryGoesOn }
{}

/// What is said of a refill is what this step writes, in a phase in which requests are posted, and such a line may follow.
pub fn post_is_said()
    ensures said { PostIsSaid }
    ensures goes_on { PostGoesOn }
{}
