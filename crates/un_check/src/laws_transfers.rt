//! The laws of what a checker keeps of a lane's transfers, each the contract of a call that does nothing.

ghost use Rattle.un_check.specs.TransferLaws.{
  ClearGoesOn,
  ClearIsSaid,
  CutGoesOn,
  DeferredIsKept,
  FlyingIsKept,
  LandGoesOn,
  LandIsSaid,
  LinesKeepTransfers,
  MarkGoesOn,
  NoLineMakesNone,
  QueuedIsKept,
  ReturnedIsKept,
  TakeGoesOn,
  TakeIsSaid,
  TxDoneGoesOn,
  TxDoneIsSaid,
  UnlinkGoesOn,
  UnlinkIsSaid,
  UnmarkedIsKept,
  WaitingIsKept,
};

/// What is kept of a lane's transfers is theirs: at first, and after each line that goes on from it.
pub fn lines_keep_transfers()
    ensures none { NoLineMakesNone }
    ensures kept { LinesKeepTransfers }
{}

/// It tells which transfers the lane's lines say to fly, to wait, to be queued or deferred and to be what a stop marks, and whether
/// the next transmit request may come home.
pub fn transfers_are_looked_up()
    ensures flying { FlyingIsKept }
    ensures waiting { WaitingIsKept }
    ensures queued { QueuedIsKept }
    ensures deferred { DeferredIsKept }
    ensures unmarked { UnmarkedIsKept }
    ensures returned { ReturnedIsKept }
{}

/// It tells what each step on the lane's transfers writes: that line alone, or nothing.
pub fn transfer_steps_are_said()
    ensures take { TakeIsSaid }
    ensures land { LandIsSaid }
    ensures tx_done { TxDoneIsSaid }
    ensures unlink { UnlinkIsSaid }
    ensures clear { ClearIsSaid }
{}

/// Each line that is said by what is kept goes on from it, and so does what a control writes of the transfers: that the first that
/// waits is cut, where none flies, and that the first that a stop marks is marked.
pub fn said_transfers_go_on()
    ensures take { TakeGoesOn }
    ensures land { LandGoesOn }
    ensures tx_done { TxDoneGoesOn }
    ensures unlink { UnlinkGoesOn }
    ensures clear { ClearGoesOn }
    ensures cut { CutGoesOn }
    ensures mark { MarkGoesOn }
{}
