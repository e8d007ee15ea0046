//! The laws over every history that a link can have, each the contract of a call that does nothing: a crate above takes a law from
//! here. A history is legal where steps left it, one after the other; a moment of it is legal itself, so each law holds at every
//! moment. The laws on unchanged, spelled and bounded bytes need parameters that are in their ranges and agree; those on what is done,
//! lost and cut need them in their ranges, as each script's are (`Script::prove_ready` of `un_script`).

ghost use Rattle.un_journal.specs.Laws.{
  ActsStayLegal,
  AllIsAccepted,
  AllIsGiven,
  BytesAreBounded,
  CensusAddsUp,
  CensusIsNowhere,
  CensusNamesPlace,
  CutIsSettled,
  DoneIsFinal,
  DoneIsFinished,
  DoneIsQuiet,
  DrainEnds,
  DrainIsDone,
  DrainIsLegal,
  FittingIsWritten,
  GivenIsAccepted,
  GivenIsKept,
  GivenIsUnchanged,
  GivenRises,
  HomeIsInPool,
  IsInOnePlace,
  LineFixesStep,
  LinesAreBounded,
  LinesAreSpelled,
  LossIsLicensed,
  NoneIsAway,
  PlainScriptsLoseNothing,
  PostedAddsUp,
  QuietIsDone,
  ReceiveAddsUp,
  ReceiveIsSomewhere,
  RefusalsWriteNothing,
  RunsStayLegal,
  SettledIsHome,
  SomeAreAway,
  StepIsOne,
  TransmitAddsUp,
  WrittenFits,
};

/// Each accepted datagram is in exactly one place: the builder, a list, a transfer in flight, the peer, or the losses.
pub fn one_place()
    ensures { IsInOnePlace }
{}

/// The census of an accepted datagram adds up to 1 and names its place; that of any other number is 0 in every field.
pub fn census_names_the_place()
    ensures adds_up { CensusAddsUp }
    ensures names { CensusNamesPlace }
    ensures nowhere { CensusIsNowhere }
{}

/// What is given are accepted datagrams, once each, unchanged and in the order in which they were accepted. The bytes are
/// unchanged where the parameters are in range and agree.
pub fn given_is_accepted()
    ensures rises { GivenRises }
    ensures accepted { GivenIsAccepted }
    ensures unchanged { GivenIsUnchanged }
{}

/// A transfer fails, or is tried again after a failed attempt, only where the plan has this fault for it and no control marked it: it
/// is tried again after at most three attempts. It is cut only by a `down`, an `unplug` or an
/// `unlink` of its lane, and what is built is dropped only by a `down` or an `unplug`; that control was done before.
pub fn losses_are_licensed()
    ensures { LossIsLicensed }
{}

/// A `settled` line finds every request of both lanes at home: so it is after the lines before it, and each of the line's four numbers
/// is its pool's size.
pub fn settled_is_home()
    ensures { SettledIsHome }
{}

/// Where no halt and no fourth fault of a transfer is planned, each control is a suspend or a resume and the last one isn't a
/// suspend, a link that is done gave everything that it accepted, and accepted every frame that is to be taken.
pub fn nothing_is_lost()
    ensures given { AllIsGiven }
    ensures accepted { AllIsAccepted }
{}

/// A link whose script has no fault and no control loses nothing: none of its lines is a failed, a cut or a dropped one.
pub fn plain_scripts_lose_nothing()
    ensures { PlainScriptsLoseNothing }
{}

/// Lines carry bytes as their kind says, and a refused line has a verdict that refuses.
pub fn lines_are_spelled()
    ensures { LinesAreSpelled }
{}

/// A history has at most `22 F + (2 C + 1) Q + 4 C` lines, with F frames, C controls and Q receive requests of both lanes.
pub fn lines_are_bounded()
    ensures { LinesAreBounded }
{}

/// Its lines carry at most, for each frame, twice its length and 192 bytes.
pub fn bytes_are_bounded()
    ensures { BytesAreBounded }
{}

/// The counts of each pool add up, and no pool has more at home than it has. Transmit requests are at home, claimed by an open block,
/// or with a made transfer that isn't home again. Receive requests are at home, posted, in a flight, or in a landed transfer of which
/// a datagram isn't given; one that was posted was recalled, left with a flight, or is posted. Requests are away exactly where not all
/// are at home.
pub fn pools_add_up()
    ensures transmit { TransmitAddsUp }
    ensures receive { ReceiveAddsUp }
    ensures posted { PostedAddsUp }
    ensures somewhere { ReceiveIsSomewhere }
    ensures in_pool { HomeIsInPool }
    ensures some_away { SomeAreAway }
    ensures none_away { NoneIsAway }
{}

/// After a history each action has at most one step.
pub fn one_step()
    ensures { StepIsOne }
{}

/// The first line of a step fixes the whole step: two steps that fit the same history and begin with the same line carry the same
/// bytes in that line, and the same lines follow it. So who reads a history step by step has at each line one way to go on.
pub fn line_fixes_step()
    ensures { LineFixesStep }
{}

/// The table of steps and the functions that compute lines and answers agree.
pub fn table_is_computed()
    ensures fits { WrittenFits }
    ensures written { FittingIsWritten }
{}

/// An action whose answer isn't `Did` adds no line to the history.
pub fn refusals_write_nothing()
    ensures { RefusalsWriteNothing }
{}

/// Whatever is done to a link, its history stays legal.
pub fn steps_stay_legal()
    ensures acts { ActsStayLegal }
    ensures runs { RunsStayLegal }
{}

/// After a history that no step continues all controls are done, nothing flies and every stop is settled. Up, each feed is
/// consumed and each datagram given or lost; so it is with the datagrams of a link that is down or away. Asleep, all that landed is
/// given, and a feed that isn't consumed stands at a frame that needs a request while none is at home.
pub fn done_is_finished()
    ensures { DoneIsFinished }
{}

/// A quiet link with no control left is done, and a done one is quiet with no control left; no history goes on after it.
pub fn finished_is_final()
    ensures done { QuietIsDone }
    ensures quiet { DoneIsQuiet }
    ensures last { DoneIsFinal }
{}

/// The serial drain leaves a legal history, with as many rounds as there is room for lines, and where nothing flew at its start no
/// step fits after it.
pub fn drain_is_done()
    ensures legal { DrainIsLegal }
    ensures ends { DrainEnds }
    ensures done { DrainIsDone }
{}

/// Where an unplug is the one control left and nothing flies, the drain settles: the `settled` line is the last of all, every
/// request is at home, every datagram is at the peer or lost, and what was given before begins what is given then.
pub fn cut_is_settled()
    ensures settled { CutIsSettled }
    ensures kept { GivenIsKept }
{}
