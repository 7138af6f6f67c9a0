//! A device over a bank.

ghost use Rattle.std.specs.Prelude.{◌≡◌, ◌≢◌, ◌<◌, ◌≤◌, OnErr, OnOk, Some, is_ok, is_some, map, not, length, true, false};
ghost use Rattle.fd_core.specs.Banks.{CountsFailure};
ghost use Rattle.fd_core.specs.Commands.{bytes_work, device_after, device_answer, idle_after};
ghost use Rattle.fd_core.specs.States.{DeviceOf, IsWhole, new_device, progress_of, device_after_reset, idle_count_if, staged_of, state_of};
ghost use Rattle.fd_core.specs.Steps.{device_restart, device_tick, device_verdict, verdict_after};
ghost use Rattle.fd_core.specs.Wishes.{has_failed};
ghost use Rattle.fd_core.specs.declared.states.Verdict.TheVariants.{ApplyOk};
ghost use Rattle.fwup_wire.specs.Answers.{answer_bytes, answer_in};
ghost use Rattle.fwup_wire.specs.Commands.{command_code};
ghost use Rattle.fwup_wire.specs.Lent.{command_of};
ghost use Rattle.mctp_wire.specs.declared.unit.Unit.TheVariants.{U64};
ghost use Rattle.pldm_base.specs.Limits.{reply_limit};
ghost use Rattle.fd_core.specs.Images.{key_of};

use crate::bank::Bank;
use crate::labels::Label;
use crate::parts::{BankComponent, Course, MAX_COMPONENTS, NO_KEY, Update, Work};
use crate::states::{NotNow, Progress, Reason, State, Verdict};
use arrayvec::ArrayVec;
use fwup_wire::{Answer, Command, DescriptorList, Key, write_answer};
use mctp_wire::Unit;
use pldm_base::Reply;
use pldm_base::completion::ERROR_UNSUPPORTED_PLDM_CMD;
use std::marker::Model;

mod commands;
mod learning;
mod reports;
mod restrictions;
mod wishes;

use commands::refused;
use reports::parameters;
pub use restrictions::stamp_restriction;

/// The ticks without a change after which an update ends.
const PATIENCE: u8 = 240;

/// A device under update over its bank.
#[derive(Drop)]
pub struct Device<B: Bank> {
    /// The transmission unit of its network; it never changes.
    unit: Unit,
    /// The device's descriptors; they never change.
    descriptors: DescriptorList,
    /// The device's components; they never change.
    components: ArrayVec<BankComponent, MAX_COMPONENTS>,
    /// The bank with the components' images. Its stage is used in DOWNLOAD, VERIFY and APPLY.
    bank: B,
    /// The state, the previous state, the reason for being idle, and the ticks without a change.
    course: Course,
    /// The data of RequestUpdate and PassComponentTable. They are used from LEARN COMPONENTS to
    /// APPLY.
    update: Update,
    /// The data of UpdateComponent. They are used in DOWNLOAD, VERIFY and APPLY.
    work: Work,
}

impl<B: Bank> Model for Device<B> {
    ghost use Rattle.std.specs.Prelude.{◌<◌};
    ghost use Rattle.fd_core.specs.States.{DeviceOf};
    ghost use Rattle.fd_core.specs.Views.{HasStage, HasTable, phase_of, stage_now};

    ghost Value = { DeviceOf };

    ghost view = { λ d. record {
      device = record {
        unit = d.unit;
        descriptors = d.descriptors;
        components = d.components.items;
        rows = B.rows d.bank;
        stage = stage_now d.course.state (B.stage d.bank);
        phase = phase_of d.course.state d.course.progress d.update d.work;
        previous = d.course.previous;
        reason = d.course.reason;
      };
      idle = d.course.idle;
      faults = B.faults d.bank;
    } };

    ghost invariant = { λ d. HasStage d.course.state d.course.progress d.work (B.stage d.bank) × HasTable d.course.state d.update
        × (d.course.idle < 240) };
}

impl<B: Bank> Device<B> {
    /// Returns an idle device on a network with this transmission unit. Its bank has its
    /// components, in the same order.
    pub fn new(
        unit: Unit,
        descriptors: DescriptorList,
        components: ArrayVec<BankComponent, MAX_COMPONENTS>,
        bank: B,
    ) -> Device<B>
        requires { map key_of (B.rows bank) ≡ map (λ c. c.key) components.items }
        ensures device { result.device ≡ new_device unit descriptors components.items (B.rows bank) }
        ensures idle { result.idle ≡ 0 }
        ensures faults { result.faults ≡ B.faults bank }
    {
        Device {
            unit,
            descriptors,
            components,
            bank,
            course: Course {
                state: State::Idle,
                progress: Progress::InProgress,
                previous: State::Idle,
                reason: Reason::Initialization,
                idle: 0,
            },
            update: Update {
                transfer_size: 0,
                components: 0,
                table: ArrayVec::new(),
            },
            work: no_work(),
        }
    }

    /// Returns the transmission unit of its network.
    pub fn unit(&self) -> Unit
        ensures { result ≡ self.now.device.unit }
    {
        self.unit
    }

    /// Returns the device's descriptors.
    pub fn descriptors(&self) -> &DescriptorList
        ensures { result.now ≡ self.now.device.descriptors }
    {
        &self.descriptors
    }

    /// Returns the state.
    pub fn state(&self) -> State
        ensures { result ≡ state_of self.now.device.phase }
    {
        self.course.state
    }

    /// Returns the progress of DOWNLOAD, VERIFY or APPLY.
    pub fn progress(&self) -> Option<Progress>
        ensures { result ≡ progress_of self.now.device.phase }
    {
        match self.course.state {
            State::Download | State::Verify | State::Apply => Some(self.course.progress),
            _ => None,
        }
    }

    /// Returns the component that is being updated and its image's size in bytes, from DOWNLOAD to
    /// APPLY.
    pub fn staged(&self) -> Option<(Key, u32)>
        ensures staged { result ≡ staged_of self.now.device.phase }
        ensures whole { IsWhole self.now.device.phase (length self.now.device.stage) }
    {
        match self.course.state {
            State::Download | State::Verify | State::Apply => Some((self.work.key, self.work.size)),
            _ => None,
        }
    }

    /// Returns the keys of the device's components, in configured order, each with its index.
    pub fn keys(&self) -> &[BankComponent]
        ensures keys { result.now ≡ self.now.device.components }
        ensures few { length result.now ≤ 3 }
    {
        self.components.as_slice()
    }

    /// Takes a command of the agent, and returns the reply: a completion code, and the fields after
    /// code 0. `quiet` is set if no request of the device is in progress. A refused command changes
    /// nothing. The reply fits a message of either transmission unit.
    ///
    /// Code 1 answers UpdateComponent and ActivateFirmware exactly if the bank failed.
    #[tactic(auto, using(crate::proofs::Answering::answers_its_command))]
    pub fn take(&mut self, command: &Command<'_>, quiet: bool) -> Reply
        ensures answer { result.items ≡ answer_bytes (device_answer self.old.device
            (command_of command.now) quiet (bytes_work result.items)) }
        ensures reads { answer_in (command_code (command_of command.now)) result.items
            ≡ Some (device_answer self.old.device (command_of command.now) quiet
            (bytes_work result.items)) }
        ensures fits { length result.items ≤ reply_limit U64 }
        ensures after { self.new.device ≡ device_after self.old.device (command_of command.now) quiet (bytes_work result.items) }
        ensures idle { self.new.idle
            ≡ idle_after self.old.idle self.old.device (command_of command.now) quiet
            (bytes_work result.items) }
        ensures worked { bytes_work result.items ≡ true → self.new.faults ≡ self.old.faults }
        ensures failed { bytes_work result.items ≡ false → CountsFailure self.old.faults self.new.faults }
    {
        match command {
            Command::QueryDeviceIdentifiers => {
                write_answer(&Answer::QueryDeviceIdentifiers(self.identifiers()))
            }
            Command::GetFirmwareParameters => {
                let list = parameters(&self.bank, &self.components);
                write_answer(&Answer::GetFirmwareParameters(list.lent()))
            }
            Command::GetStatus => write_answer(&Answer::GetStatus(self.status())),
            Command::RequestUpdate(request) => write_answer(&self.request_update(request, quiet)),
            Command::PassComponentTable(entry) => write_answer(&self.pass_component_table(entry)),
            Command::UpdateComponent(offer) => write_answer(&self.update_component(offer, quiet)),
            Command::CancelUpdateComponent => write_answer(&self.cancel_update_component()),
            Command::ActivateFirmware { .. } => write_answer(&self.activate_firmware()),
            Command::CancelUpdate => write_answer(&self.cancel_update()),
            Command::RequestFirmwareData { .. }
            | Command::TransferComplete { .. }
            | Command::VerifyComplete { .. }
            | Command::ApplyComplete { .. } => write_answer(&refused(ERROR_UNSUPPORTED_PLDM_CMD)),
        }
    }

    /// Takes a verdict on the image that was written: VERIFY and APPLY wait for one each while they
    /// are in progress. ApplyOk is the moment of application: the image is applied for its
    /// component, unless the bank fails.
    ///
    /// # Errors
    /// `NotNow` if the device doesn't wait for such a verdict. Then nothing changes.
    pub fn verdict(&mut self, verdict: Verdict) -> Result<(), NotNow>
        ensures counts { is_ok result ≡ is_some (device_verdict self.old.device verdict (not (has_failed self.new.device.phase))) }
        ensures after { self.new.device ≡ verdict_after self.old.device verdict (not (has_failed self.new.device.phase)) }
        ensures idle { self.new.idle ≡ idle_count_if self.old.idle (is_ok result) }
        ensures other { verdict ≢ ApplyOk → self.new.faults ≡ self.old.faults }
        ensures worked { has_failed self.new.device.phase ≡ false → self.new.faults ≡ self.old.faults }
        ensures failed { OnOk result (verdict ≡ ApplyOk
            → has_failed self.new.device.phase ≡ true
            → CountsFailure self.old.faults self.new.faults) }
        ensures kept { OnErr result (self.new ≡ self.old) }
    {
        match (self.course.state, self.course.progress, verdict) {
            (State::Verify, Progress::InProgress, Verdict::VerifyOk) => {
                self.course.progress = Progress::Succeeded;
            }
            (State::Verify, Progress::InProgress, Verdict::VerifyFail)
            | (State::Apply, Progress::InProgress, Verdict::ApplyFail) => {
                self.course.progress = Progress::Failed { reported: false };
            }
            (State::Apply, Progress::InProgress, Verdict::ApplyOk) => {
                self.course.progress = match self.bank.seal() {
                    Ok(()) => Progress::Succeeded,
                    Err(_) => Progress::Failed { reported: false },
                };
            }
            _ => return Err(NotNow),
        }
        self.course.idle = 0;
        Ok(())
    }

    /// Counts a tick. After an activation the device becomes idle; in other states an update ends
    /// in the 240th tick without a change.
    pub fn idle_tick(&mut self)
        ensures device { self.new.device ≡ (device_tick self.old.device self.old.idle).0 }
        ensures idle { self.new.idle ≡ (device_tick self.old.device self.old.idle).1 }
        ensures within { self.new.idle < 240 }
        ensures faults { self.new.faults ≡ self.old.faults }
    {
        let reason = match self.course.state {
            State::Idle => return,
            State::Activate => return self.end(Reason::Activation),
            State::Learn => Reason::TimeOutInLearn,
            State::Ready => Reason::TimeOutInReady,
            State::Download => Reason::TimeOutInDownload,
            State::Verify => Reason::TimeOutInVerify,
            State::Apply => Reason::TimeOutInApply,
        };
        if self.course.idle + 1 < PATIENCE {
            self.course.idle += 1;
        } else {
            self.end(reason);
        }
    }

    /// Restarts the device: applied images are dropped, and active images stay.
    pub fn restart(&mut self)
        ensures device { self.new.device ≡ device_restart self.old.device }
        ensures idle { self.new.idle ≡ 0 }
        ensures faults { self.new.faults ≡ self.old.faults }
    {
        self.end(Reason::Initialization);
        self.course.previous = State::Idle;
    }

    /// Ends the update: applied images are dropped, and the device becomes idle.
    fn end(&mut self, reason: Reason)
        ensures device { self.new.device ≡ device_after_reset self.old.device reason }
        ensures idle { self.new.idle ≡ 0 }
        ensures faults { self.new.faults ≡ self.old.faults }
    {
        self.bank.drop_pending();
        self.course.reason = reason;
        self.course.go(State::Idle);
    }

    /// Returns the bank.
    pub fn bank(&self) -> &B
        ensures rows { B.rows result.now ≡ self.now.device.rows }
        ensures faults { B.faults result.now ≡ self.now.faults }
    {
        &self.bank
    }
}

/// Returns the work of a device that updates no component.
fn no_work() -> Work {
    Work {
        key: NO_KEY,
        size: 0,
        label: Label::empty(),
        force: false,
        received: 0,
    }
}
