//! A session's answers to the device's commands.

ghost use Rattle.std.specs.Prelude.{◌≡◌, ◌≤◌, ◌==◌, if◌then◌else◌, Some, length};
ghost use Rattle.fwup_wire.specs.Answers.{answer_bytes, answer_code, answer_in};
ghost use Rattle.fwup_wire.specs.Commands.{command_code};
ghost use Rattle.fwup_wire.specs.Lent.{command_of};
ghost use Rattle.fwup_wire.specs.Values.{CommandOf};
ghost use Rattle.pldm_base.specs.Limits.{reply_limit};
ghost use Rattle.ua_core.specs.Lent.{no_package};
ghost use Rattle.ua_core.specs.Session.{state_of};
ghost use Rattle.ua_core.specs.Serve.{agent_after, agent_answer, agent_idle};

use crate::lent::Lent;
use crate::piece::piece;
use crate::planned::{Recorded, take_first};
use crate::session::Session;
use crate::state::{Cause, SessionState};
use fwup_wire::code::completion::{
    COMMAND_NOT_EXPECTED, DATA_OUT_OF_RANGE, INVALID_TRANSFER_LENGTH, RETRY_REQUEST_FW_DATA,
};
use fwup_wire::{Answer, Command, MIN_TRANSFER, transfer_size, write_answer};
use pldm_base::completion::{ERROR_UNSUPPORTED_PLDM_CMD, SUCCESS};
use pldm_base::{Reply, code_alone};

/// The result of a successful transfer, verification or application.
const GOOD: u8 = 0;

/// The number of bytes that a piece may reach past the image's end: those of the smallest piece.
const PAST_END: usize = MIN_TRANSFER;

impl Session {
    /// Takes a command of the device and returns the answer: a code alone, except if data are
    /// served. The answer fits a message of the session's transmission unit. A command that isn't
    /// expected in the state leaves the session as it is.
    #[tactic(auto, using(crate::proofs::Answering::answers_read, crate::proofs::Fitting::answers_fit))]
    pub fn take(&mut self, command: &Command<'_>, lent: &Lent<'_>) -> Reply
        ensures answer { result.items ≡ answer_bytes (agent_answer lent.now self.old.session (command_of command.now)) }
        ensures reads { answer_in (command_code (command_of command.now)) result.items
            ≡ Some (agent_answer lent.now self.old.session (command_of command.now)) }
        ensures fits { length result.items ≤ reply_limit self.old.session.unit }
        ensures after { self.new.session ≡ agent_after lent.now self.old.session (command_of command.now) }
        ensures idle { self.new.idle ≡ agent_idle lent.now self.old.session self.old.idle (command_of command.now) }
    {
        match command {
            Command::RequestFirmwareData { offset, length } => { self.data(*offset, *length, lent) }
            Command::TransferComplete { result } => code_alone(self.transfer_complete(*result)),
            Command::VerifyComplete { result } => code_alone(self.verify_complete(*result)),
            Command::ApplyComplete { result, .. } => code_alone(self.apply_complete(*result)),
            _ => code_alone(ERROR_UNSUPPORTED_PLDM_CMD),
        }
    }

    /// Serves a piece of the image of the component being updated.
    fn data(&mut self, offset: u32, length: u32, lent: &Lent<'_>) -> Reply
        ensures answer { result.items ≡ answer_bytes (agent_answer lent.now self.old.session
            (CommandOf.RequestFirmwareData offset length)) }
        ensures after { self.new.session ≡ self.old.session }
        ensures idle { self.new.idle
            ≡ agent_idle lent.now self.old.session self.old.idle
            (CommandOf.RequestFirmwareData offset length) }
    {
        match self.position.state {
            SessionState::Download => {}
            SessionState::Update => return code_alone(RETRY_REQUEST_FW_DATA),
            _ => return code_alone(COMMAND_NOT_EXPECTED),
        }
        let (offset, length) = (offset as usize, length as usize);
        if length < MIN_TRANSFER || length > transfer_size(self.unit) {
            return code_alone(INVALID_TRANSFER_LENGTH);
        }
        let image = lent.image(self.at_hand.component);
        if offset + length > image.len() + PAST_END {
            return code_alone(DATA_OUT_OF_RANGE);
        }
        self.position.stir();
        write_answer(&Answer::RequestFirmwareData(&piece(image, offset, length)))
    }

    /// The transfer of the image ended.
    fn transfer_complete(&mut self, outcome: u8) -> u8
        ensures code { result ≡ answer_code (agent_answer no_package self.old.session (CommandOf.TransferComplete outcome)) }
        ensures after { self.new.session ≡ agent_after no_package self.old.session (CommandOf.TransferComplete outcome) }
        ensures idle { self.new.idle ≡ agent_idle no_package self.old.session self.old.idle (CommandOf.TransferComplete outcome) }
    {
        match self.position.state {
            SessionState::Download => {
                self.position
                    .go(next(outcome, SessionState::Verify, Cause::Transfer));
                SUCCESS
            }
            SessionState::Verify if outcome == GOOD => SUCCESS,
            _ => COMMAND_NOT_EXPECTED,
        }
    }

    /// The verification of the image ended.
    fn verify_complete(&mut self, outcome: u8) -> u8
        ensures code { result ≡ answer_code (agent_answer no_package self.old.session (CommandOf.VerifyComplete outcome)) }
        ensures after { self.new.session ≡ agent_after no_package self.old.session (CommandOf.VerifyComplete outcome) }
        ensures idle { self.new.idle ≡ agent_idle no_package self.old.session self.old.idle (CommandOf.VerifyComplete outcome) }
    {
        match self.position.state {
            SessionState::Verify => {
                self.position
                    .go(next(outcome, SessionState::Apply, Cause::Verify));
                SUCCESS
            }
            SessionState::Apply if outcome == GOOD => SUCCESS,
            _ => COMMAND_NOT_EXPECTED,
        }
    }

    /// The application of the image ended: if it succeeded, the component is recorded and the next
    /// one begins, or all are applied.
    fn apply_complete(&mut self, outcome: u8) -> u8
        ensures code { result ≡ answer_code (agent_answer no_package self.old.session (CommandOf.ApplyComplete outcome 0)) }
        ensures after { self.new.session ≡ agent_after no_package self.old.session (CommandOf.ApplyComplete outcome 0) }
        ensures idle { self.new.idle ≡ agent_idle no_package self.old.session self.old.idle (CommandOf.ApplyComplete outcome 0) }
    {
        match self.position.state {
            SessionState::Apply if outcome == GOOD => {
                self.record();
                SUCCESS
            }
            SessionState::Apply => {
                self.position.go(SessionState::Failed(Cause::Apply));
                SUCCESS
            }
            SessionState::Update if outcome == GOOD && self.made > 0 => SUCCESS,
            SessionState::AllApplied | SessionState::Activate if outcome == GOOD => SUCCESS,
            _ => COMMAND_NOT_EXPECTED,
        }
    }

    /// Records the component being updated in its package, and goes to the next component.
    fn record(&mut self)
        requires { state_of self.old.session.stage ≡ SessionState.Apply }
        ensures after { self.new.session ≡ agent_after no_package self.old.session (CommandOf.ApplyComplete 0 0) }
        ensures idle { self.new.idle ≡ 0 }
    {
        let _ = self.records.push(Recorded {
            package: self.package,
            component: self.at_hand.component,
        });
        match take_first(&mut self.todo) {
            Some(next) => {
                self.at_hand = next;
                self.made += 1;
                self.position.go(SessionState::Update);
            }
            None => self.position.go(SessionState::AllApplied),
        }
    }
}

/// Returns the state after a result: `onward` if it is good, otherwise a failure with this cause.
fn next(outcome: u8, onward: SessionState, cause: Cause) -> SessionState
    ensures { result ≡ (if outcome == 0 then onward else SessionState.Failed cause) }
{
    if outcome == GOOD {
        return onward;
    }
    SessionState::Failed(cause)
}
