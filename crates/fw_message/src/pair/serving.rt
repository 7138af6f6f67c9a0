//! Commands that are taken, answers that are learned, and verdicts.

ghost use Rattle.std.specs.Prelude.{[], ◌≡◌, ◌≤◌, ◌∷◌, Bool, length, vec_capacity, IfNone, IfOk, IfSome, None, Some, false, if◌then◌else◌, is_some, map, option_map, option_to_list, true};
ghost use Rattle.fd_core.specs.Images.{applied_of, row_of};
ghost use Rattle.fd_core.specs.States.{staged_of};
ghost use Rattle.fd_core.specs.Steps.{applied_by};
ghost use Rattle.fd_core.specs.Wishes.{has_failed};
ghost use Rattle.fw_message.specs.BankCalls.{pair_step_calls_bank};
ghost use Rattle.fw_message.specs.Entries.{keyed_image_of};
ghost use Rattle.fw_message.specs.Headline.{EntryOf};
ghost use Rattle.fw_message.specs.Nodes.{is_activation, room_of, to_activate};
ghost use Rattle.fd_core.specs.Banks.{CountsFailure};
ghost use Rattle.fw_message.specs.Pairs.{StepOf, activated_down, step_without_entries, step_of};

use crate::entry::Image;
use crate::images::applied_images;
use crate::pair::Pair;
use crate::verdicts::{copied, has_failed, room_for};
use fd_core::{Bank, Device, Verdict};
use fw_package::Package;
use fwup_wire::{Answer, Command};
use pldm_base::completion::ERROR;
use std::alloc::{AllocError, Global};
use ua_core::{Lent, Recorded};

impl<'a, B: Bank> Pair<'a, B> {
    /// The session takes the device's command, and answers it. Returns `None` if no command waits
    /// to be taken, else the session's record, if it made one.
    #[tactic(auto, unfolding(crate::specs::Pairs::up_taken), using(crate::proofs::Records::recorded_behind))]
    pub fn take_up(&mut self, packages: &'a [Package<'a>]) -> Option<Option<Recorded>>
        ensures step { step_of packages.now self.old.node.pair StepOf.TakeUp
            ≡ option_map (λ r. record {
              after = self.new.node.pair;
              noted = map EntryOf.Recording (option_to_list r);
            }) result }
        ensures same { result ≡ None → self.new ≡ self.old }
        ensures eid { self.new.node.eid ≡ self.old.node.eid }
        ensures faults { self.new.faults ≡ self.old.faults }
    {
        let Some(held) = &mut self.up else {
            return None;
        };
        if held.is_taken() {
            return None;
        }
        let made = self.session.records().len();
        let lent = Lent::of(packages, self.session.package());
        let reply = self.session.take(&held.command(), &lent);
        held.take(reply);
        Some(self.session.records().get(made).copied())
    }

    /// The device takes the agent's command, and answers it. Returns `None` if no command waits to
    /// be taken, or if `quiet` is true and the device's own cell isn't empty; else whether its bank
    /// worked.
    #[tactic(auto, unfolding(crate::specs::Pairs::down_taken), using(fd_core::proofs::Components::take_components, fd_core::proofs::BankCalls::bank_calls))]
    pub fn take_down(&mut self, packages: &'a [Package<'a>], quiet: bool) -> Option<bool>
        ensures step { IfSome result (λ works. step_of packages.now self.old.node.pair
            (StepOf.TakeDown quiet works)
            ≡ Some (record {
              after = self.new.node.pair;
              noted = map EntryOf.Activated (activated_down self.old.node.pair quiet works);
            })) }
        ensures none { IfNone result ((works : Bool)
            → step_of packages.now self.old.node.pair (StepOf.TakeDown quiet works) ≡ None) }
        ensures same { result ≡ None → self.new ≡ self.old }
        ensures worked { result ≡ Some true → self.new.faults ≡ self.old.faults }
        ensures failed { result ≡ Some false → CountsFailure self.old.faults self.new.faults }
        ensures called { result ≡ Some false → pair_step_calls_bank self.old.node.pair (StepOf.TakeDown quiet true) ≡ true }
        ensures eid { self.new.node.eid ≡ self.old.node.eid }
    {
        let Some(held) = &mut self.down else {
            return None;
        };
        if held.is_taken() || quiet && self.up.is_some() {
            return None;
        }
        let reply = self.device.take(&held.command(), quiet);
        let works = !matches!(reply.as_slice(), [ERROR, ..]);
        held.take(reply);
        Some(works)
    }

    /// Returns the images that the device activates if it takes the agent's command: none, unless
    /// that is ActivateFirmware.
    #[tactic(auto, using(crate::proofs::Applied::all_applied))]
    pub fn images_to_activate(
        &self,
        alloc: Global,
        packages: &'a [Package<'a>],
    ) -> Result<Vec<Image<'a>>, AllocError>
        ensures { IfOk result (λ images. map keyed_image_of images.items ≡ to_activate self.now.node.pair) }
    {
        match &self.down {
            Some(held) if matches!(held.command(), Command::ActivateFirmware { .. }) => {
                applied_images(alloc, packages, self.device.bank(), self.device.keys())
            }
            _ => Ok(Vec::new(alloc)),
        }
    }

    /// Whether the device answered that it activated.
    pub fn has_activated(&self) -> bool
        ensures { result ≡ is_activation self.now.node.pair.down }
    {
        match &self.down {
            Some(held) => matches!(held.answer(), Some(Answer::ActivateFirmware { .. })),
            None => false,
        }
    }

    /// Returns the bytes of the image that a verdict applies: those staged for ApplyOk, else 0.
    pub fn room_for(&self, verdict: Verdict) -> usize
        ensures exact { result ≡ room_of verdict (staged_of self.now.node.pair.device.phase) }
        ensures enough { verdict ≡ Verdict.ApplyOk → IfSome (staged_of self.now.node.pair.device.phase) (λ s. s.1 ≤ result) }
    {
        room_for(&self.device, verdict)
    }

    /// A verdict on the image that the device has written. Returns `None` if the device doesn't
    /// wait for it, else whether its bank worked.
    #[tactic(auto, using(fd_core::proofs::Components::judge_components, crate::proofs::Working::judges_alike, fd_core::proofs::BankCalls::bank_calls))]
    pub fn judge(&mut self, packages: &'a [Package<'a>], verdict: Verdict) -> Option<bool>
        ensures step { IfSome result (λ works. step_of packages.now self.old.node.pair (StepOf.Judge verdict works) ≡ Some (record {
          after = self.new.node.pair;
          noted = map EntryOf.Applied (applied_by self.old.node.pair.device verdict works);
        })) }
        ensures none { IfNone result ((works : Bool)
            → step_of packages.now self.old.node.pair (StepOf.Judge verdict works) ≡ None) }
        ensures same { result ≡ None → self.new ≡ self.old }
        ensures worked { result ≡ Some true → self.new.faults ≡ self.old.faults }
        ensures failed { result ≡ Some false → CountsFailure self.old.faults self.new.faults }
        ensures called { result ≡ Some false → pair_step_calls_bank self.old.node.pair (StepOf.Judge verdict true) ≡ true }
        ensures eid { self.new.node.eid ≡ self.old.node.eid }
    {
        let Ok(()) = self.device.verdict(verdict) else {
            return None;
        };
        Some(verdict != Verdict::ApplyOk || !has_failed(&self.device))
    }

    /// The same, with a copy of the image that it applies. `room` must be empty, with the capacity
    /// of that image.
    #[tactic(auto, using(crate::proofs::Sealing::applies, crate::proofs::Working::applies_nothing))]
    pub fn judge_noting(
        &mut self,
        packages: &'a [Package<'a>],
        verdict: Verdict,
        room: Vec<u8>,
    ) -> Option<(bool, Option<Image<'a>>)>
        requires empty { room.items ≡ [] }
        requires room { verdict ≡ Verdict.ApplyOk
            → IfSome (staged_of self.old.node.pair.device.phase) (λ s. s.1 ≤ vec_capacity room) }
        ensures step { IfSome result (λ r. step_of packages.now self.old.node.pair (StepOf.Judge verdict r.0) ≡ Some (record {
          after = self.new.node.pair;
          noted = map EntryOf.Applied (map keyed_image_of (option_to_list r.1));
        })) }
        ensures none { IfNone result ((works : Bool)
            → step_of packages.now self.old.node.pair (StepOf.Judge verdict works) ≡ None) }
        ensures same { result ≡ None → self.new ≡ self.old }
        ensures worked { IfSome result (λ r. r.0 ≡ true → self.new.faults ≡ self.old.faults) }
        ensures failed { IfSome result (λ r. r.0 ≡ false → CountsFailure self.old.faults self.new.faults) }
        ensures called { IfSome result (λ r. r.0 ≡ false
            → pair_step_calls_bank self.old.node.pair (StepOf.Judge verdict true) ≡ true) }
        ensures eid { self.new.node.eid ≡ self.old.node.eid }
    {
        let staged = self.device.staged();
        let works = self.judge(packages, verdict)?;
        if verdict != Verdict::ApplyOk || !works {
            return Some((works, None));
        }
        let Some((key, _)) = staged else {
            return Some((works, None));
        };
        Some((works, copied(packages, self.device.bank(), key, room)))
    }

    /// The session learns the answer that it waits for. False if there is none.
    pub fn learn_down(&mut self, packages: &'a [Package<'a>]) -> bool
        ensures step { step_of packages.now self.old.node.pair StepOf.LearnDown
            ≡ (if result then Some (step_without_entries self.new.node.pair) else None) }
        ensures same { result ≡ false → self.new ≡ self.old }
        ensures eid { self.new.node.eid ≡ self.old.node.eid }
        ensures faults { self.new.faults ≡ self.old.faults }
    {
        let Some(held) = &self.down else {
            return false;
        };
        if !held.is_live() {
            return false;
        }
        let Some(answer) = held.answer() else {
            return false;
        };
        let lent = Lent::of(packages, self.session.package());
        self.session.learn(Ok(&answer), &lent);
        self.down = None;
        true
    }

    /// The device learns the answer that it waits for. Returns `None` if there is none, else
    /// whether its bank worked.
    #[tactic(auto, using(fd_core::proofs::Components::learn_components, crate::proofs::Working::learns_failed, fd_core::proofs::BankCalls::bank_calls))]
    pub fn learn_up(&mut self, packages: &'a [Package<'a>]) -> Option<bool>
        ensures step { IfSome result (λ works. step_of packages.now self.old.node.pair
            (StepOf.LearnUp works) ≡ Some (step_without_entries self.new.node.pair)) }
        ensures none { IfNone result ((works : Bool) → step_of packages.now self.old.node.pair (StepOf.LearnUp works) ≡ None) }
        ensures same { result ≡ None → self.new ≡ self.old }
        ensures worked { result ≡ Some true → self.new.faults ≡ self.old.faults }
        ensures failed { result ≡ Some false → CountsFailure self.old.faults self.new.faults }
        ensures called { result ≡ Some false → pair_step_calls_bank self.old.node.pair (StepOf.LearnUp true) ≡ true }
        ensures eid { self.new.node.eid ≡ self.old.node.eid }
    {
        let Some(held) = &self.up else {
            return None;
        };
        if !held.is_live() {
            return None;
        }
        let answer = held.answer()?;
        let had_failed = has_failed(&self.device);
        self.device.learn(Ok(&answer));
        self.up = None;
        Some(had_failed || !has_failed(&self.device))
    }
}
