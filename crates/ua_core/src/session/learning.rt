//! A session's handling of the answers to its pending commands.

ghost use Rattle.std.specs.Prelude.{◌≡◌, ◌&&◌, ◌||◌, ◌==◌, Ok};
ghost use Rattle.std.specs.Result.{result_map_both};
ghost use Rattle.fwup_wire.specs.Lent.{answer_of};
ghost use Rattle.fwup_wire.specs.Values.{AnswerOf};
ghost use Rattle.ua_core.specs.Learn.{agent_learn, learn_idle};
ghost use Rattle.ua_core.specs.Lent.{no_package};
ghost use Rattle.ua_core.specs.Session.{Stage, at_stage, state_of};

use crate::lent::Lent;
use crate::planned::take_first;
use crate::plans::indexed;
use crate::session::Session;
use crate::state::{Cause, SessionState};
use fwup_wire::code::completion::{INVALID_STATE_FOR_COMMAND, NOT_IN_UPDATE_MODE};
use fwup_wire::code::response::{
    CAN_BE_UPDATED, COMPARISON_STAMP_IDENTICAL, COMPARISON_STAMP_LOWER, NO_RESTRICTION,
};
use fwup_wire::{Answer, Malformed};
use pldm_base::completion::ERROR_NOT_READY;

impl Session {
    /// Takes the answer to the pending command. The same command stays pending in Request and
    /// Update if the device isn't ready, and in Update and Activate if the device is still ending
    /// the step before. In Cancelling any answer leads to Idle. Any other unexpected answer fails
    /// the update. A session without a pending command ignores the answer.
    pub fn learn(&mut self, answer: Result<&Answer<'_>, Malformed>, lent: &Lent<'_>)
        ensures session { self.new.session
            ≡ agent_learn lent.now self.old.session (result_map_both (λ a. answer_of a.now) (λ e. e)
            answer.entry) }
        ensures idle { self.new.idle
            ≡ learn_idle lent.now self.old.session self.old.idle
            (result_map_both (λ a. answer_of a.now) (λ e. e) answer.entry) }
    {
        match self.position.state {
            SessionState::Query => self.learn_query(answer, lent),
            SessionState::Params => self.learn_params(answer, lent),
            SessionState::ClearOld => self.learn_clear(answer),
            SessionState::Request => self.learn_request(answer),
            SessionState::Pass => self.learn_pass(answer, lent),
            SessionState::Update => self.learn_update(answer),
            SessionState::Activate => self.learn_activate(answer),
            SessionState::Cancelling => self.position.go(SessionState::Idle),
            _ => {}
        }
    }

    /// The device's descriptors: the record that they choose, and its components.
    fn learn_query(&mut self, answer: Result<&Answer<'_>, Malformed>, lent: &Lent<'_>)
        requires { state_of self.old.session.stage ≡ SessionState.Query }
        ensures session { self.new.session
            ≡ agent_learn lent.now self.old.session (result_map_both (λ a. answer_of a.now) (λ e. e)
            answer.entry) }
        ensures idle { self.new.idle ≡ 0 }
    {
        let Ok(Answer::QueryDeviceIdentifiers(descriptors)) = answer else {
            self.fail(Cause::Answer);
            return;
        };
        match lent.job_for(descriptors) {
            Ok(job) => {
                self.job = job;
                self.position.go(SessionState::Params);
            }
            Err(cause) => self.fail(cause),
        }
    }

    /// The device's components: takes their indexes.
    fn learn_params(&mut self, answer: Result<&Answer<'_>, Malformed>, lent: &Lent<'_>)
        requires { state_of self.old.session.stage ≡ SessionState.Params }
        ensures session { self.new.session
            ≡ agent_learn lent.now self.old.session (result_map_both (λ a. answer_of a.now) (λ e. e)
            answer.entry) }
        ensures idle { self.new.idle ≡ 0 }
    {
        let Ok(Answer::GetFirmwareParameters(devices)) = answer else {
            self.fail(Cause::Answer);
            return;
        };
        self.job.plan = indexed(self.job.plan.as_slice(), lent, devices);
        self.position.go(SessionState::ClearOld);
    }

    /// The device's answer about an earlier update: it ended one, or had none.
    fn learn_clear(&mut self, answer: Result<&Answer<'_>, Malformed>)
        requires { state_of self.old.session.stage ≡ SessionState.ClearOld }
        ensures session { self.new.session
            ≡ agent_learn no_package self.old.session (result_map_both (λ a. answer_of a.now)
            (λ e. e) answer.entry) }
        ensures idle { self.new.idle ≡ 0 }
    {
        match answer {
            Ok(Answer::CancelUpdate) => self.position.go(SessionState::Request),
            Ok(Answer::Refused { code }) if *code == NOT_IN_UPDATE_MODE => {
                self.position.go(SessionState::Request);
            }
            _ => self.fail(Cause::Answer),
        }
    }

    /// Whether the update began. If the device isn't ready, the command is sent again.
    fn learn_request(&mut self, answer: Result<&Answer<'_>, Malformed>)
        requires { state_of self.old.session.stage ≡ SessionState.Request }
        ensures session { self.new.session
            ≡ agent_learn no_package self.old.session (result_map_both (λ a. answer_of a.now)
            (λ e. e) answer.entry) }
        ensures idle { self.new.idle
            ≡ learn_idle no_package self.old.session self.old.idle
            (result_map_both (λ a. answer_of a.now) (λ e. e) answer.entry) }
    {
        match answer {
            Ok(Answer::RequestUpdate) => self.pass_first(),
            Ok(Answer::Refused { code }) if *code == ERROR_NOT_READY => {}
            _ => self.fail(Cause::Answer),
        }
    }

    /// The device's response about the component that was passed.
    fn learn_pass(&mut self, answer: Result<&Answer<'_>, Malformed>, lent: &Lent<'_>)
        requires { state_of self.old.session.stage ≡ SessionState.Pass }
        ensures session { self.new.session
            ≡ agent_learn lent.now self.old.session (result_map_both (λ a. answer_of a.now) (λ e. e)
            answer.entry) }
        ensures idle { self.new.idle ≡ 0 }
    {
        let Ok(Answer::PassComponentTable(response)) = answer else {
            self.fail(Cause::Answer);
            return;
        };
        if is_to_do(response.code, lent.is_forced(self.at_hand.component)) {
            self.todo.push(self.at_hand);
        }
        if let Some(next) = take_first(&mut self.left) {
            self.at_hand = next;
            self.position.go(SessionState::Pass);
            return;
        }
        match take_first(&mut self.todo) {
            Some(first) => {
                self.at_hand = first;
                self.made = 0;
                self.position.go(SessionState::Update);
            }
            None => self.fail(Cause::NothingToUpdate),
        }
    }

    /// Whether the device accepts the component. If it isn't ready, or is still ending the previous
    /// step, the command is sent again.
    fn learn_update(&mut self, answer: Result<&Answer<'_>, Malformed>)
        requires { state_of self.old.session.stage ≡ SessionState.Update }
        ensures session { self.new.session
            ≡ agent_learn no_package self.old.session (result_map_both (λ a. answer_of a.now)
            (λ e. e) answer.entry) }
        ensures idle { self.new.idle
            ≡ learn_idle no_package self.old.session self.old.idle
            (result_map_both (λ a. answer_of a.now) (λ e. e) answer.entry) }
    {
        match answer {
            Ok(Answer::UpdateComponent(response)) if response.compatibility == CAN_BE_UPDATED => {
                self.position.go(SessionState::Download);
            }
            Ok(Answer::UpdateComponent(_)) => self.fail(Cause::Refused),
            Ok(Answer::Refused { code })
                if *code == ERROR_NOT_READY || *code == INVALID_STATE_FOR_COMMAND => {}
            _ => self.fail(Cause::Answer),
        }
    }

    /// Whether the device activated. If it is still ending the previous step, the command is sent
    /// again.
    fn learn_activate(&mut self, answer: Result<&Answer<'_>, Malformed>)
        requires { state_of self.old.session.stage ≡ SessionState.Activate }
        ensures session { self.new.session
            ≡ agent_learn no_package self.old.session (result_map_both (λ a. answer_of a.now)
            (λ e. e) answer.entry) }
        ensures idle { self.new.idle
            ≡ learn_idle no_package self.old.session self.old.idle
            (result_map_both (λ a. answer_of a.now) (λ e. e) answer.entry) }
    {
        match answer {
            Ok(Answer::ActivateFirmware { .. }) => self.position.go(SessionState::Done),
            Ok(Answer::Refused { code }) if *code == INVALID_STATE_FOR_COMMAND => {}
            _ => self.fail(Cause::Answer),
        }
    }

    /// Goes to the first component of the plan.
    fn pass_first(&mut self)
        requires { state_of self.old.session.stage ≡ SessionState.Request }
        ensures session { self.new.session ≡ agent_learn no_package self.old.session (Ok AnswerOf.RequestUpdate) }
        ensures idle { self.new.idle ≡ 0 }
    {
        match self.job.plan.as_slice() {
            [] => self.fail(Cause::NothingToUpdate),
            [first, rest @ ..] => {
                self.at_hand = *first;
                self.left.clear();
                let _ = self.left.try_extend_from_slice(rest);
                self.todo.clear();
                self.position.go(SessionState::Pass);
            }
        }
    }

    /// Fails the update with this cause.
    fn fail(&mut self, cause: Cause)
        ensures session { self.new.session ≡ at_stage self.old.session (Stage.Failed cause) }
        ensures idle { self.new.idle ≡ 0 }
    {
        self.position.go(SessionState::Failed(cause));
    }
}

/// Returns whether a component is to be updated, from the device's response code and from whether
/// its update is forced.
fn is_to_do(code: u8, forced: bool) -> bool
    ensures { result ≡ ((code == 0) || (((code == 1) || (code == 2)) && forced)) }
{
    match code {
        NO_RESTRICTION => true,
        COMPARISON_STAMP_IDENTICAL | COMPARISON_STAMP_LOWER => forced,
        _ => false,
    }
}
