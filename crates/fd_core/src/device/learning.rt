//! The device's handling of the agent's answers.

ghost use Rattle.std.specs.Prelude.{◌≡◌, Some, false, not, option_map, true};
ghost use Rattle.fd_core.specs.States.{progress_of};
ghost use Rattle.fd_core.specs.declared.states.Progress.TheVariants.{InProgress, Succeeded};
ghost use Rattle.std.specs.Result.{result_ok};
ghost use Rattle.fd_core.specs.Banks.{CountsFailure};
ghost use Rattle.fd_core.specs.Wishes.{device_learn, has_failed, idle_learnt};
ghost use Rattle.fwup_wire.specs.Lent.{answer_of};

use crate::bank::Bank;
use crate::device::Device;
use crate::device::wishes::length_to_ask;
use crate::states::{Progress, State};
use fwup_wire::{Answer, Malformed};

impl<B: Bank> Device<B> {
    /// Takes the answer to the device's pending command. The bytes of an image are stored within
    /// its size, and the answer to a report moves the device to the next state. Any other answer
    /// leaves the pending command as it is, except that a failure counts as reported after any
    /// answer to its report.
    pub fn learn(&mut self, answer: Result<&Answer<'_>, Malformed>)
        ensures after { self.new.device
            ≡ device_learn self.old.device (option_map (λ a. answer_of a.now)
            (result_ok answer.entry)) (not (has_failed self.new.device.phase)) }
        ensures idle { self.new.idle
            ≡ idle_learnt self.old.idle self.old.device (option_map (λ a. answer_of a.now)
            (result_ok answer.entry)) (not (has_failed self.new.device.phase)) }
        ensures again { has_failed self.old.device.phase ≡ true → self.new.faults ≡ self.old.faults }
        ensures worked { has_failed self.new.device.phase ≡ false → self.new.faults ≡ self.old.faults }
        ensures failed { has_failed self.old.device.phase ≡ false
            → has_failed self.new.device.phase ≡ true
            → CountsFailure self.old.faults self.new.faults }
    {
        match self.course.state {
            State::Download | State::Verify | State::Apply => {}
            _ => return,
        }
        match self.course.progress {
            Progress::InProgress => self.learn_piece(answer),
            Progress::Succeeded => self.learn_report(answer),
            Progress::Failed { .. } => {
                self.course.progress = Progress::Failed { reported: true };
            }
        }
    }

    /// Takes an answer while the work is in progress: in DOWNLOAD, the requested bytes.
    fn learn_piece(&mut self, answer: Result<&Answer<'_>, Malformed>)
        requires { progress_of self.old.device.phase ≡ Some InProgress }
        ensures after { self.new.device
            ≡ device_learn self.old.device (option_map (λ a. answer_of a.now)
            (result_ok answer.entry)) (not (has_failed self.new.device.phase)) }
        ensures idle { self.new.idle
            ≡ idle_learnt self.old.idle self.old.device (option_map (λ a. answer_of a.now)
            (result_ok answer.entry)) (not (has_failed self.new.device.phase)) }
        ensures worked { has_failed self.new.device.phase ≡ false → self.new.faults ≡ self.old.faults }
        ensures failed { has_failed self.old.device.phase ≡ false
            → has_failed self.new.device.phase ≡ true
            → CountsFailure self.old.faults self.new.faults }
    {
        let (State::Download, Ok(Answer::RequestFirmwareData(bytes))) = (self.course.state, answer)
        else {
            return;
        };
        let missing = self.work.size - self.work.received;
        if bytes.len() != length_to_ask(self.unit, self.update.transfer_size, missing) as usize {
            return;
        }
        let piece = &bytes[..bytes.len().min(missing as usize)];
        if self.bank.put(piece).is_err() {
            self.course.progress = Progress::Failed { reported: false };
            return;
        }
        self.work.received += piece.len() as u32;
        self.course.idle = 0;
        if self.work.received == self.work.size {
            self.course.progress = Progress::Succeeded;
        }
    }

    /// Takes an answer to a report of success, which moves the device to the next state.
    fn learn_report(&mut self, answer: Result<&Answer<'_>, Malformed>)
        requires { progress_of self.old.device.phase ≡ Some Succeeded }
        ensures after { self.new.device
            ≡ device_learn self.old.device (option_map (λ a. answer_of a.now)
            (result_ok answer.entry)) (not (has_failed self.new.device.phase)) }
        ensures idle { self.new.idle
            ≡ idle_learnt self.old.idle self.old.device (option_map (λ a. answer_of a.now)
            (result_ok answer.entry)) (not (has_failed self.new.device.phase)) }
        ensures works { has_failed self.new.device.phase ≡ false }
        ensures faults { self.new.faults ≡ self.old.faults }
    {
        match (self.course.state, answer) {
            (State::Download, Ok(Answer::TransferComplete)) => self.course.go(State::Verify),
            (State::Verify, Ok(Answer::VerifyComplete)) => self.course.go(State::Apply),
            (State::Apply, Ok(Answer::ApplyComplete)) => self.course.go(State::Ready),
            _ => {}
        }
    }
}
