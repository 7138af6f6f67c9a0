//! Definitions that are tested by hand.

ghost use Rattle.fw_steps.specs.CallCases.{CalledBanks, CallingPackets, UncallingPackets};
ghost use Rattle.fw_steps.specs.StepCases.{ConcernsAreJudged, MemoryIsJudged};
ghost use Rattle.fw_steps.specs.WorldCases.{WorldsAreJudged};

/// The steps of a schedule that concern a device and the steps that need memory, tested by hand: on
/// each kind of step, of the device, of another device and of the agent.
pub fn steps_are_judged()
    ensures concerns { ConcernsAreJudged }
    ensures memory { MemoryIsJudged }
{}

/// Two tied moments, the same world over whole messages, a bank that didn't fail and what is
/// promised of a run, tested by hand: these definitions refuse each variant that differs from the
/// worked update in one point, and the first three accept it.
pub fn worlds_are_judged()
    ensures { WorldsAreJudged }
{}

/// The packets and steps that have a device call its bank, tested by hand: the bytes of an image,
/// ActivateFirmware and ApplyOk if they do, and variants that differ in one point.
pub fn bank_calls_are_judged()
    ensures packets { CallingPackets }
    ensures others { UncallingPackets }
    ensures steps { CalledBanks }
{}
