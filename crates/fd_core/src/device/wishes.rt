//! The device's pending commands to the agent.

ghost use Rattle.std.specs.Prelude.{◌≡◌, ◌≤◌, IfSome, max, min, option_map};
ghost use Rattle.fwup_wire.specs.Commands.{CommandRoundTrips};
ghost use Rattle.fd_core.specs.Wishes.{device_wish, report_of};
ghost use Rattle.fwup_wire.specs.Lent.{command_of};
ghost use Rattle.fwup_wire.specs.Transfers.{transfer_size};

use crate::bank::Bank;
use crate::device::Device;
use crate::device::reports::{APPLICATION_FAILED, TRANSFER_FAILED, VERIFICATION_FAILED};
use crate::states::{Progress, State};
use fwup_wire::{Command, MAX_TRANSFER, MIN_TRANSFER, transfer_size};
use mctp_wire::Unit;

/// The result of work that succeeded.
const SUCCEEDED: u8 = 0;

/// The activation methods are those of the device's parameters.
const SAME_METHODS: u16 = 0;

impl<B: Bank> Device<B> {
    /// Returns the device's pending command to the agent, if it has one: a request for the next
    /// bytes of the image, or a report.
    pub fn wish(&self) -> Option<Command<'static>>
        ensures wish { option_map command_of result ≡ device_wish self.now.device }
        ensures spoken { IfSome (device_wish self.now.device) CommandRoundTrips }
    {
        let progress = self.course.progress;
        match self.course.state {
            State::Download => match progress {
                Progress::InProgress => Some(Command::RequestFirmwareData {
                    offset: self.work.received,
                    length: length_to_ask(
                        self.unit,
                        self.update.transfer_size,
                        self.work.size - self.work.received,
                    ),
                }),
                _ => {
                    let result = report(progress, TRANSFER_FAILED)?;
                    Some(Command::TransferComplete { result })
                }
            },
            State::Verify => {
                let result = report(progress, VERIFICATION_FAILED)?;
                Some(Command::VerifyComplete { result })
            }
            State::Apply => {
                let result = report(progress, APPLICATION_FAILED)?;
                Some(Command::ApplyComplete {
                    result,
                    methods: SAME_METHODS,
                })
            }
            _ => None,
        }
    }
}

/// Returns the result that the device has to report.
fn report(progress: Progress, failure: u8) -> Option<u8>
    ensures { result ≡ report_of progress failure }
{
    match progress {
        Progress::InProgress | Progress::Failed { reported: true } => None,
        Progress::Succeeded => Some(SUCCEEDED),
        Progress::Failed { reported: false } => Some(failure),
    }
}

/// Returns the number of bytes to request at once: the missing bytes, limited to the agent's
/// transfer size and to a message of this unit, and never fewer than the least length.
pub(super) fn length_to_ask(unit: Unit, given: u32, missing: u32) -> u32
    ensures length { result ≡ max MIN_TRANSFER (min (transfer_size unit) (min given missing)) }
    ensures most { result ≤ MAX_TRANSFER }
{
    let fitting = (transfer_size(unit) as u32).min(given.min(missing));
    fitting.max(MIN_TRANSFER as u32)
}
