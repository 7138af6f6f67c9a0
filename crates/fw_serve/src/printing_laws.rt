//! The parts of a schedule, served to its nodes by themselves.

ghost use Rattle.fw_serve.specs.Parts.{AgentPrintsItsPart, DevicePrintsItsPart, DevicePrintsNothingElse};

/// The agent and each device, by themselves, print for their parts of a run of a world what they
/// send in that run, line for line, and are at the end as in its last world. The agent counts each
/// tick of that run, and the device's bank fails where it fails in the run. Where it never fails,
/// a device prints nothing else.
pub fn parts_are_printed()
    ensures agent { AgentPrintsItsPart }
    ensures device { DevicePrintsItsPart }
    ensures no_other { DevicePrintsNothingElse }
{}
