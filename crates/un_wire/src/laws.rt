//! What a builder or a receiver may rest on beside the clauses of the calls; each is the contract of a call that does nothing.

ghost use Rattle.un_frame.specs.Laws.{FormIsRead, OpenBegins, OpenFramesAreFound, OpenGrows, SegmentFits};
ghost use Rattle.un_wire.specs.Laws.{CountsAreParts, FramesAreFew, PartsAreFrames, ReadingsAreOne};

/// What a codec closes is read as the frames that it was made of, and has at most `capacity` bytes, where the parameters are in range
/// and agree.
pub fn forms_are_read()
    ensures { FormIsRead }
{}

/// An open transfer begins with no frames and grows by the frame that is appended; its frames are told by its bytes and their
/// sizes.
pub fn open_transfers()
    ensures begins { OpenBegins }
    ensures grows { OpenGrows }
    ensures found { OpenFramesAreFound }
{}

/// Every frame of at most a segment fits a transfer with no frames, where the parameters are in range and agree.
pub fn segments_fit()
    ensures { SegmentFits }
{}

/// A transfer is read as one list of frames with one number of commands, and its parts are these frames.
pub fn parts_are_one()
    ensures one { ReadingsAreOne }
    ensures frames { PartsAreFrames }
    ensures counts { CountsAreParts }
{}

/// A transfer that the grammar reads has at most one frame in ECM, no more frames than bytes in EEM and RNDIS, and at most 2,097,120 in NCM.
pub fn frames_are_few()
    ensures { FramesAreFew }
{}
