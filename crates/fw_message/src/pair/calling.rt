//! The operator's calls, verdicts, time-outs and restarts.

ghost use Rattle.std.specs.Prelude.{◌≡◌, ◌⊎◌, IfErr, None, OnErr, OnOk, Some, false, if◌then◌else◌, is_some, true};
ghost use Rattle.fw_message.specs.Pairs.{StepOf, cell_after_close, step_without_entries, step_of};
ghost use Rattle.fw_message.specs.Replays.{counted_restarted};
ghost use Rattle.fw_message.specs.declared.side.Side.TheVariants as sides;

use crate::cell::CellContent;
use crate::pair::Pair;
use crate::step::MessageStepFault;
use fd_core::Bank;
use fw_package::Package;
use ua_core::StartFault;

impl<'a, B: Bank> Pair<'a, B> {
    /// The operator starts an update with the package of this number.
    ///
    /// # Errors
    /// `Refused` if an update is in progress or there is no such package; else `Memory` if memory
    /// for the records is refused.
    pub fn start(
        &mut self,
        packages: &'a [Package<'a>],
        number: usize,
    ) -> Result<(), MessageStepFault>
        ensures step { OnOk result (step_of packages.now self.old.node.pair (StepOf.Start number)
            ≡ Some (step_without_entries self.new.node.pair)) }
        ensures refused { IfErr result (λ e. ((e ≡ MessageStepFault.Memory)
            × (is_some (step_of packages.now self.old.node.pair (StepOf.Start number)) ≡ true))
            ⊎ ((e ≡ MessageStepFault.Refused)
            × (step_of packages.now self.old.node.pair (StepOf.Start number) ≡ None))) }
        ensures same { OnErr result (self.new ≡ self.old) }
        ensures eid { self.new.node.eid ≡ self.old.node.eid }
        ensures faults { self.new.faults ≡ self.old.faults }
    {
        if number == 0 || packages.len() < number {
            return Err(MessageStepFault::Refused);
        }
        match self.session.start(number) {
            Ok(()) => Ok(()),
            Err(StartFault::Busy) => Err(MessageStepFault::Refused),
            Err(StartFault::Memory) => Err(MessageStepFault::Memory),
        }
    }

    /// The operator cancels the update.
    pub fn cancel(&mut self, packages: &'a [Package<'a>])
        ensures step { step_of packages.now self.old.node.pair StepOf.Cancel ≡ Some (step_without_entries self.new.node.pair) }
        ensures eid { self.new.node.eid ≡ self.old.node.eid }
        ensures faults { self.new.faults ≡ self.old.faults }
    {
        self.session.cancel();
    }

    /// The operator activates the images. False if it isn't time for it.
    pub fn activate(&mut self, packages: &'a [Package<'a>]) -> bool
        ensures step { step_of packages.now self.old.node.pair StepOf.Activate
            ≡ (if result then Some (step_without_entries self.new.node.pair) else None) }
        ensures same { result ≡ false → self.new ≡ self.old }
        ensures eid { self.new.node.eid ≡ self.old.node.eid }
        ensures faults { self.new.faults ≡ self.old.faults }
    {
        self.session.activate().is_ok()
    }

    /// Restarts the session with the agent.
    pub fn restart_session(&mut self, packages: &'a [Package<'a>])
        ensures step { step_of packages.now self.old.node.pair (StepOf.Restart sides.Agent)
            ≡ Some (step_without_entries self.new.node.pair) }
        ensures eid { self.new.node.eid ≡ self.old.node.eid }
        ensures faults { self.new.faults ≡ self.old.faults }
    {
        self.session.restart();
        close(&mut self.down);
    }

    /// Restarts the agent, as a step of this pair.
    #[tactic(auto, unfolding(crate::specs::Pairs::pair_after))]
    pub fn restart(&mut self, packages: &'a [Package<'a>])
        ensures { self.new ≡ counted_restarted packages.now self.old }
    {
        self.restart_session(packages);
        self.close_unwished(packages);
    }

    /// Restarts the device.
    #[tactic(auto, using(fd_core::proofs::Components::restart_components))]
    pub fn restart_device(&mut self, packages: &'a [Package<'a>])
        ensures step { step_of packages.now self.old.node.pair (StepOf.Restart sides.Device)
            ≡ Some (step_without_entries self.new.node.pair) }
        ensures eid { self.new.node.eid ≡ self.old.node.eid }
        ensures faults { self.new.faults ≡ self.old.faults }
    {
        self.device.restart();
        close(&mut self.up);
    }
}

/// Ends waiting for the command in a cell.
fn close(cell: &mut Option<CellContent<'_>>)
    ensures { cell.new ≡ cell_after_close cell.old }
{
    if let Some(held) = cell {
        held.close();
    }
}
