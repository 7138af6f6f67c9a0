//! The device's reports about itself.

ghost use Rattle.std.specs.Prelude.{◌≡◌, ◌≤◌, length, option_map};
ghost use Rattle.fd_core.specs.Commands.{all_parameters, failure_or_none, progress_number, status_of};
ghost use Rattle.fd_core.specs.Images.{version_at};
ghost use Rattle.fwup_wire.specs.Descriptors.{descriptors_bytes};
ghost use Rattle.fwup_wire.specs.Parameters.{all_parameters_bytes};
ghost use Rattle.fwup_wire.specs.Lent.{version_of};

use crate::bank::Bank;
use crate::device::Device;
use crate::labels::Label;
use crate::parts::BankComponent;
use crate::states::{Progress, State};
use fwup_wire::code::text_type;
use fwup_wire::{
    ComponentParameters, DeviceDescriptors, ParameterList, Status, TypedText, Version,
};

/// The aux state of a state that has no work to do.
const NO_WORK: u8 = 3;

/// The progress of a device that doesn't report it.
const PROGRESS_UNSUPPORTED: u8 = 0x65;

/// The result of a transfer that failed.
pub(super) const TRANSFER_FAILED: u8 = 0x70;

/// The result of a verification that failed.
pub(super) const VERIFICATION_FAILED: u8 = 0x90;

/// The result of an application that failed.
pub(super) const APPLICATION_FAILED: u8 = 0xB0;

impl<B: Bank> Device<B> {
    /// Returns the device's descriptors.
    pub(super) fn identifiers(&self) -> DeviceDescriptors<'_>
        ensures value { result ≡ self.now.device.descriptors }
        ensures fits { length (descriptors_bytes result) ≤ 246 }
    {
        // `room` brings the proof that the descriptors fit an answer.
        let _room = self.descriptors.room();
        self.descriptors.lent()
    }

    /// Returns the answer to GetStatus.
    pub(super) fn status(&self) -> Status
        ensures { result ≡ status_of self.now.device }
    {
        let progress = self.course.progress;
        let (aux, aux_status) = match self.course.state {
            State::Download => aux(progress, TRANSFER_FAILED),
            State::Verify => aux(progress, VERIFICATION_FAILED),
            State::Apply => aux(progress, APPLICATION_FAILED),
            _ => (NO_WORK, 0),
        };
        let force = match self.course.state {
            State::Download | State::Verify | State::Apply => self.work.force,
            _ => false,
        };
        Status {
            state: self.course.state as u8,
            previous: self.course.previous as u8,
            aux,
            aux_status,
            progress: PROGRESS_UNSUPPORTED,
            reason: self.course.reason as u8,
            force,
        }
    }
}

/// Returns the aux state of the work, and its result if it failed.
fn aux(progress: Progress, failure: u8) -> (u8, u8)
    ensures { (result.0 ≡ progress_number progress) × (result.1 ≡ failure_or_none progress failure) }
{
    match progress {
        Progress::InProgress => (0, 0),
        Progress::Succeeded => (1, 0),
        Progress::Failed { .. } => (2, failure),
    }
}

/// Returns the parameters of a bank's components, in this order.
#[tactic(auto, using(crate::proofs::Parameters::one_longer))]
pub(super) fn parameters<B: Bank>(bank: &B, components: &[BankComponent]) -> ParameterList
    requires { length components.now ≤ 3 }
    ensures value { result ≡ all_parameters (B.rows bank.now) components.now }
    ensures fits { length (all_parameters_bytes result) ≤ 241 }
{
    let mut list = ParameterList::new();
    for component in components {
        list.push(&ComponentParameters {
            key: component.key,
            index: component.index,
            active: version(bank.active(component.key)),
            pending: version(bank.applied(component.key)),
        });
    }
    list
}

/// Returns the version of an image, or of none.
fn version<'a>(image: Option<(&'a Label, &'a [u8])>) -> Version<'a>
    ensures version { version_of result ≡ version_at (option_map (λ r. record { label = r.0.now; bytes = r.1.now }) image.entry) }
    ensures short { length result.text.bytes.now ≤ 12 }
{
    match image {
        None => Version {
            stamp: 0,
            text: TypedText {
                text_type: text_type::UNKNOWN,
                bytes: &[],
            },
        },
        Some((label, _)) => label.version(),
    }
}
