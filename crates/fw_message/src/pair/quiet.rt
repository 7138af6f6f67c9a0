//! Takes and verdicts that add nothing to the history, and so need no memory.

ghost use Rattle.std.specs.Prelude.{◌≡◌, Bool, IfErr, IfOk, None, OnErr, OnOk, Ok, Some, false, true};
ghost use Rattle.fd_core.specs.Banks.{CountsFailure};
ghost use Rattle.fw_message.specs.BankCalls.{pair_step_calls_bank};
ghost use Rattle.fw_message.specs.Pairs.{StepOf, adds_entries, step_without_entries, step_of};

use crate::pair::Pair;
use crate::step::MessageStepFault;
use fd_core::{Bank, Verdict};
use fw_package::Package;

impl<'a, B: Bank> Pair<'a, B> {
    /// The device takes the agent's command, and activates nothing. Returns whether the bank
    /// worked.
    #[tactic(auto, using(crate::proofs::Growing::quiet_take))]
    pub fn take_quietly(
        &mut self,
        packages: &'a [Package<'a>],
        quiet: bool,
    ) -> Result<bool, MessageStepFault>
        requires { adds_entries (step_of packages.now self.old.node.pair (StepOf.TakeDown quiet true)) ≡ false }
        ensures step { IfOk result (λ works. step_of packages.now self.old.node.pair
            (StepOf.TakeDown quiet works) ≡ Some (step_without_entries self.new.node.pair)) }
        ensures refused { IfErr result (λ e. (e ≡ MessageStepFault.NotNow)
            × ((works : Bool)
            → step_of packages.now self.old.node.pair (StepOf.TakeDown quiet works) ≡ None)) }
        ensures same { OnErr result (self.new ≡ self.old) }
        ensures worked { result ≡ Ok true → self.new.faults ≡ self.old.faults }
        ensures failed { result ≡ Ok false → CountsFailure self.old.faults self.new.faults }
        ensures called { result ≡ Ok false → pair_step_calls_bank self.old.node.pair (StepOf.TakeDown quiet true) ≡ true }
        ensures eid { self.new.node.eid ≡ self.old.node.eid }
    {
        match self.take_down(packages, quiet) {
            Some(works) => Ok(works),
            None => Err(MessageStepFault::NotNow),
        }
    }

    /// The session takes the device's command, and makes no record of it.
    #[tactic(auto, using(crate::proofs::Growing::quiet_step))]
    pub fn serve_quietly(&mut self, packages: &'a [Package<'a>]) -> Result<(), MessageStepFault>
        requires { adds_entries (step_of packages.now self.old.node.pair StepOf.TakeUp) ≡ false }
        ensures step { OnOk result (step_of packages.now self.old.node.pair StepOf.TakeUp
            ≡ Some (step_without_entries self.new.node.pair)) }
        ensures refused { IfErr result (λ e. (e ≡ MessageStepFault.NotNow)
            × (step_of packages.now self.old.node.pair StepOf.TakeUp ≡ None)) }
        ensures same { OnErr result (self.new ≡ self.old) }
        ensures eid { self.new.node.eid ≡ self.old.node.eid }
        ensures faults { self.new.faults ≡ self.old.faults }
    {
        match self.take_up(packages) {
            Some(_) => Ok(()),
            None => Err(MessageStepFault::NotNow),
        }
    }

    /// A verdict on the image that the device has written, which applies nothing. Returns whether
    /// the bank worked.
    #[tactic(auto, using(crate::proofs::Growing::quiet_verdict))]
    pub fn judge_quietly(
        &mut self,
        packages: &'a [Package<'a>],
        verdict: Verdict,
    ) -> Result<bool, MessageStepFault>
        requires { adds_entries (step_of packages.now self.old.node.pair (StepOf.Judge verdict true)) ≡ false }
        ensures step { IfOk result (λ works. step_of packages.now self.old.node.pair
            (StepOf.Judge verdict works) ≡ Some (step_without_entries self.new.node.pair)) }
        ensures refused { IfErr result (λ e. (e ≡ MessageStepFault.Refused)
            × ((works : Bool)
            → step_of packages.now self.old.node.pair (StepOf.Judge verdict works) ≡ None)) }
        ensures same { OnErr result (self.new ≡ self.old) }
        ensures worked { result ≡ Ok true → self.new.faults ≡ self.old.faults }
        ensures failed { result ≡ Ok false → CountsFailure self.old.faults self.new.faults }
        ensures called { result ≡ Ok false → pair_step_calls_bank self.old.node.pair (StepOf.Judge verdict true) ≡ true }
        ensures eid { self.new.node.eid ≡ self.old.node.eid }
    {
        match self.judge(packages, verdict) {
            Some(works) => Ok(works),
            None => Err(MessageStepFault::Refused),
        }
    }
}
