//! The device's handling of commands, one function for each command.

ghost use Rattle.std.specs.Prelude.{◌≡◌, ◌≤◌, true, false};
ghost use Rattle.fd_core.specs.Banks.{CountsFailure};
ghost use Rattle.fd_core.specs.Commands.{IsShort, IsTaken, answer_works, cancel_take, declined as offer_declined, may_activate, offer_take, request_take, return_take, switch_take, table_take, taken_up as offer_taken_up};
ghost use Rattle.fwup_wire.specs.Answers.{IsAnswerWritable};
ghost use Rattle.fwup_wire.specs.Values.{AnswerOf};
ghost use Rattle.fwup_wire.specs.Lent.{answer_of, table_entry_of, offer_of, update_request_of};

use crate::bank::Bank;
use crate::device::Device;
use crate::device::restrictions::{
    entry_restriction, flag_for, has_any, is_listed, misses_one, offer_code,
};
use crate::labels::Label;
use crate::parts::{Listed, MAX_IMAGE, MAX_TABLE, Update, Work};
use crate::states::{Progress, Reason, State};
use arrayvec::ArrayVec;
use fwup_wire::code::completion;
use fwup_wire::code::response::{CAN_BE_UPDATED, CANNOT_BE_UPDATED, NO_RESTRICTION};
use fwup_wire::{
    Answer, ComponentOffer, MIN_TRANSFER, OfferResponse, TableEntry, TableResponse, UpdateRequest,
};
use pldm_base::completion::{ERROR, ERROR_INVALID_DATA, ERROR_NOT_READY};

/// The seconds until the device requests data, and the seconds that an activation takes.
const NO_TIME: u16 = 0;

impl<B: Bank> Device<B> {
    /// RequestUpdate.
    pub(super) fn request_update(
        &mut self,
        request: &UpdateRequest<'_>,
        quiet: bool,
    ) -> Answer<'static>
        ensures taken { IsTaken self.old self.new (answer_of result)
            (request_take self.old.device (update_request_of request.now) quiet) }
        ensures faults { self.new.faults ≡ self.old.faults }
        ensures writable { IsAnswerWritable (answer_of result) }
        ensures short { IsShort (answer_of result) }
    {
        let State::Idle = self.course.state else {
            return refused(completion::ALREADY_IN_UPDATE_MODE);
        };
        if !quiet {
            return refused(ERROR_NOT_READY);
        }
        if request.transfer_size < MIN_TRANSFER as u32
            || request.components == 0
            || request.components > MAX_TABLE as u16
        {
            return refused(ERROR_INVALID_DATA);
        }
        self.bank.drop_pending();
        self.update = Update {
            transfer_size: request.transfer_size,
            components: request.components,
            table: ArrayVec::new(),
        };
        self.course.go(State::Learn);
        Answer::RequestUpdate
    }

    /// PassComponentTable.
    pub(super) fn pass_component_table(&mut self, entry: &TableEntry<'_>) -> Answer<'static>
        ensures taken { IsTaken self.old self.new (answer_of result) (table_take self.old.device (table_entry_of entry.now)) }
        ensures faults { self.new.faults ≡ self.old.faults }
        ensures writable { IsAnswerWritable (answer_of result) }
        ensures short { IsShort (answer_of result) }
    {
        match self.course.state {
            State::Idle => return refused(completion::NOT_IN_UPDATE_MODE),
            State::Learn => {}
            _ => return refused(completion::INVALID_STATE_FOR_COMMAND),
        }
        let flag = flag_for(self.update.table.len(), self.update.components);
        if entry.flag.byte() != flag.byte() || is_listed(&self.update.table, entry.key) {
            return refused(ERROR_INVALID_DATA);
        }
        let code = entry_restriction(&self.bank, entry.key, entry.version.stamp);
        self.update.table.push(Listed {
            key: entry.key,
            code,
        });
        self.course.idle = 0;
        if self.update.table.len() == self.update.components as usize {
            self.course.go(State::Ready);
        }
        Answer::PassComponentTable(TableResponse {
            response: if code == NO_RESTRICTION {
                CAN_BE_UPDATED
            } else {
                CANNOT_BE_UPDATED
            },
            code,
        })
    }

    /// UpdateComponent.
    pub(super) fn update_component(
        &mut self,
        offer: &ComponentOffer<'_>,
        quiet: bool,
    ) -> Answer<'static>
        ensures taken { IsTaken self.old self.new (answer_of result)
            (offer_take self.old.device (offer_of offer.now) quiet
            (answer_works (answer_of result))) }
        ensures worked { answer_works (answer_of result) ≡ true → self.new.faults ≡ self.old.faults }
        ensures failed { answer_works (answer_of result) ≡ false → CountsFailure self.old.faults self.new.faults }
        ensures writable { IsAnswerWritable (answer_of result) }
        ensures short { IsShort (answer_of result) }
    {
        match self.course.state {
            State::Idle => return refused(completion::NOT_IN_UPDATE_MODE),
            State::Ready => {}
            _ => return refused(completion::INVALID_STATE_FOR_COMMAND),
        }
        if !quiet {
            return refused(ERROR_NOT_READY);
        }
        if offer.size > MAX_IMAGE {
            return refused(ERROR_INVALID_DATA);
        }
        let code = offer_code(&self.bank, &self.update.table, offer);
        if code != NO_RESTRICTION {
            return declined(code);
        }
        let label = Label::new(&offer.version);
        if self.bank.begin(offer.key, offer.size, &label).is_err() {
            return refused(ERROR);
        }
        self.work = Work::new(offer, label);
        self.course.go(State::Download);
        if offer.size == 0 {
            self.course.progress = Progress::Succeeded;
        }
        taken_up(offer.force)
    }

    /// CancelUpdateComponent.
    pub(super) fn cancel_update_component(&mut self) -> Answer<'static>
        ensures taken { IsTaken self.old self.new (answer_of result) (return_take self.old.device) }
        ensures faults { self.new.faults ≡ self.old.faults }
        ensures writable { IsAnswerWritable (answer_of result) }
        ensures short { IsShort (answer_of result) }
    {
        match self.course.state {
            State::Idle => return refused(completion::NOT_IN_UPDATE_MODE),
            State::Download | State::Verify | State::Apply => {}
            _ => return refused(completion::INVALID_STATE_FOR_COMMAND),
        }
        self.course.go(State::Ready);
        Answer::CancelUpdateComponent
    }

    /// ActivateFirmware.
    pub(super) fn activate_firmware(&mut self) -> Answer<'static>
        ensures taken { IsTaken self.old self.new (answer_of result)
            (switch_take self.old.device (answer_works (answer_of result))) }
        ensures worked { answer_works (answer_of result) ≡ true → self.new.faults ≡ self.old.faults }
        ensures failed { answer_works (answer_of result) ≡ false → CountsFailure self.old.faults self.new.faults }
        ensures writable { IsAnswerWritable (answer_of result) }
        ensures short { IsShort (answer_of result) }
    {
        match self.course.state {
            State::Idle => return refused(completion::NOT_IN_UPDATE_MODE),
            State::Ready => {}
            _ => return refused(completion::INVALID_STATE_FOR_COMMAND),
        }
        if misses_one(&self.bank, &self.update.table) {
            return refused(completion::INCOMPLETE_UPDATE);
        }
        if !has_any(&self.bank, &self.components) {
            return refused(completion::ACTIVATION_NOT_REQUIRED);
        }
        if self.bank.switch().is_err() {
            return refused(ERROR);
        }
        self.course.go(State::Activate);
        Answer::ActivateFirmware { time: NO_TIME }
    }

    /// Returns whether ActivateFirmware activates now, if the bank works: the device is in READY
    /// XFER, every component of its table without a restriction is applied, and at least one
    /// component is applied.
    pub fn may_activate(&self) -> bool
        ensures { result ≡ may_activate self.now.device }
    {
        self.course.state == State::Ready
            && !misses_one(&self.bank, &self.update.table)
            && has_any(&self.bank, &self.components)
    }

    /// CancelUpdate.
    pub(super) fn cancel_update(&mut self) -> Answer<'static>
        ensures taken { IsTaken self.old self.new (answer_of result) (cancel_take self.old.device) }
        ensures faults { self.new.faults ≡ self.old.faults }
        ensures writable { IsAnswerWritable (answer_of result) }
        ensures short { IsShort (answer_of result) }
    {
        match self.course.state {
            State::Idle => return refused(completion::NOT_IN_UPDATE_MODE),
            State::Activate => return refused(completion::INVALID_STATE_FOR_COMMAND),
            _ => {}
        }
        self.end(Reason::Cancelled);
        Answer::CancelUpdate
    }
}

/// Returns the answer that declines the component, with this code.
fn declined(code: u8) -> Answer<'static>
    ensures answer { answer_of result ≡ AnswerOf.UpdateComponent (offer_declined code) }
    ensures writable { IsAnswerWritable (answer_of result) }
    ensures short { IsShort (answer_of result) }
{
    Answer::UpdateComponent(OfferResponse {
        compatibility: CANNOT_BE_UPDATED,
        code,
        force: false,
        time: NO_TIME,
    })
}

/// Returns the answer that begins the update of the component.
fn taken_up(force: bool) -> Answer<'static>
    ensures answer { answer_of result ≡ AnswerOf.UpdateComponent (offer_taken_up force) }
    ensures writable { IsAnswerWritable (answer_of result) }
    ensures short { IsShort (answer_of result) }
{
    Answer::UpdateComponent(OfferResponse {
        compatibility: CAN_BE_UPDATED,
        code: NO_RESTRICTION,
        force,
        time: NO_TIME,
    })
}

/// Returns a refusal with this code.
pub(super) fn refused(code: u8) -> Answer<'static>
    requires { 1 ≤ code }
    ensures answer { answer_of result ≡ AnswerOf.Refused code }
    ensures writable { IsAnswerWritable (answer_of result) }
    ensures short { IsShort (answer_of result) }
{
    Answer::Refused { code }
}
