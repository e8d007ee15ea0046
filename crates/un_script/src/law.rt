//! What holds of each script that was read.

ghost use Rattle.un_script.specs.Law.{ReadScriptsAreReady};

/// The parameters are in their ranges, each frame has at least one byte, each control can follow the earlier ones and waits for 0 to
/// 65,536 datagrams, each planned fault has a serial of 0 to 65,535, no lane and serial has two faults, and there are at most 65,536
/// frames, 256 controls and 1,024 faults.
pub fn read_scripts_are_ready()
    ensures { ReadScriptsAreReady }
{}
