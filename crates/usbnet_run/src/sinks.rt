//! What the sink holds at each status, as a law of every way to end.

ghost use Rattle.usbnet_run.specs.Sinks.{MainSinkHolds, SinkHolds};

/// At status 0 the sink has grown by the command's output; at 3 by a front of the output, and not by all of it. At 1, 2 and 4 to 8 it has grown by the line of the refusal with that status, or, where a write of
/// that line failed, by a front of the line.
pub fn sink_at_each_status()
    ensures commands { SinkHolds }
    ensures program { MainSinkHolds }
{}
