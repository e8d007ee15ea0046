//! The laws of what is kept of a lane as one, each the contract of a call that does nothing.

ghost use Rattle.un_check.specs.HalfLaws.{
  FeedsAreKept,
  FreshIsKept,
  HalfIsKept,
  HeadIsKept,
  HomeIsKept,
  OfferGoesOn,
  SaidGoesOn,
  SilenceIsStill,
  TakenIsKept,
  WorkIsSaid,
};

/// What is kept is what the lane's lines say: before the first line, and with each line that may follow. It tells the first frame of
/// each feed and whether the feeds are empty, how many requests are at home, and how many datagrams were accepted.
pub fn half_is_kept()
    ensures fresh { FreshIsKept }
    ensures line { HalfIsKept }
    ensures head { HeadIsKept }
    ensures feeds { FeedsAreKept }
    ensures home { HomeIsKept }
    ensures taken { TakenIsKept }
{}

/// What is said of each step of the lane is what the step writes, and nothing is said exactly where it writes nothing.
pub fn work_is_said()
    ensures work { WorkIsSaid }
    ensures silence { SilenceIsStill }
{}

/// The first line that is said of a step goes on from what is kept, and so does the second of an offer from the first.
pub fn said_goes_on()
    ensures first { SaidGoesOn }
    ensures second { OfferGoesOn }
{}
