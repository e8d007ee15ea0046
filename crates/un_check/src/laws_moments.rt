//! The laws of the moments of a legal history, each the contract of a call that does nothing.

ghost use Rattle.un_check.specs.MomentLaws.{
  DiffersAfter,
  DiffersBefore,
  DoneStopsNowhere,
  LineBeginsStep,
  LineReads,
  NoLineReads,
  NoneBegins,
  OrdersLeftStop,
  OtherDiffers,
  ReadStepIsLegal,
  ReadsJoin,
  RestlessStops,
  StepIsLegal,
  StepStops,
  StopIsOne,
};

/// A legal history goes on by the step of an act of its next line, and what an act writes leaves a legal history.
pub fn steps_leave_moments()
    ensures begins { LineBeginsStep }
    ensures legal { StepIsLegal }
    ensures read { ReadStepIsLegal }
{}

/// A reading stops where a step that began has another line, where no act of a line writes it, and at the end of a history that isn't
/// done.
pub fn readings_stop()
    ensures inside { StepStops }
    ensures before { NoneBegins }
    ensures restless { RestlessStops }
    ensures orders_left { OrdersLeftStop }
{}

/// A reading stops at one index, and that of a done history at none.
pub fn stop_is_one()
    ensures one { StopIsOne }
    ensures done { DoneStopsNowhere }
{}

/// Lines are read one by one and joined: no line, one line, and lines behind others; and where one of them differs, so do all.
pub fn reads_are_joined()
    ensures none { NoLineReads }
    ensures one { LineReads }
    ensures other { OtherDiffers }
    ensures joined { ReadsJoin }
    ensures after { DiffersAfter }
    ensures before { DiffersBefore }
{}
