//! The names of the reasons why a step isn't taken.

ghost use Rattle.std.specs.Prelude.{◌≡◌};
ghost use Rattle.fw_steps.specs.Faults.{fault_name};

use crate::step::{Refusal, StepFault};
use std::fmt;

impl StepFault {
    /// Returns the name of the fault. The name of a refusal ends with a colon and its reason.
    pub fn name(self) -> &'static str
        ensures { result.now ≡ fault_name self }
    {
        match self {
            StepFault::NoSuchPacket => "NoSuchPacket",
            StepFault::Dead => "Dead",
            StepFault::NoSuchNode => "NoSuchNode",
            StepFault::Refused(Refusal::Busy) => "Refused:Busy",
            StepFault::Refused(Refusal::NotReady) => "Refused:NotReady",
            StepFault::Refused(Refusal::NotNow) => "Refused:NotNow",
            StepFault::Refused(Refusal::NoSuchPackage) => "Refused:NoSuchPackage",
            StepFault::Refused(Refusal::ClockEnd) => "Refused:ClockEnd",
            StepFault::Refused(Refusal::ClockSlow) => "Refused:ClockSlow",
            StepFault::Memory => "Memory",
        }
    }
}

impl fmt::Display for StepFault {
    ghost use Rattle.std.specs.Prelude.{Some};
    ghost use Rattle.fw_steps.specs.Faults.{fault_name};

    ghost output = { λ fault. Some (fault_name fault) };

    fn fmt<W: fmt::Write>(&self, f: &mut fmt::Formatter<W>) -> fmt::Result {
        f.write_str(self.name())
    }
}

impl std::error::Error for StepFault {}
