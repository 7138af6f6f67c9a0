//! Writes answers.

ghost use Rattle.std.specs.Prelude.{Some, length, true, ◌<◌, ◌≡◌, ℕ};
ghost use Rattle.fwup_wire.specs.Answers.{IsAnswer, IsAnswerWritable, answer_bytes, answer_in, answers_command};
ghost use Rattle.fwup_wire.specs.Lent.{answer_of};
ghost use Rattle.fwup_wire.specs.Parameters.{all_parameters_bytes, parameters_in};
ghost use Rattle.fwup_wire.specs.Values.{AnswerOf};

use crate::answer::Answer;
use crate::descriptors::DeviceDescriptors;
use crate::parameters::Parameters;
use crate::writer::{put_u16, put_u32};
use pldm_base::Reply;
use pldm_base::completion::SUCCESS;

/// The capabilities of a device during an update: none beyond this profile.
const NO_CAPABILITIES: [u8; 4] = [0; 4];

/// The heads of the texts of the active and the pending component image set, which have type 0 and
/// no bytes.
const NO_SET_TEXTS: [u8; 4] = [0; 4];

/// The bytes of RequestUpdate's answer after its code: no metadata, and no package data wanted.
const NO_METADATA: [u8; 3] = [0; 3];

/// The bytes of CancelUpdate's answer after its code: no component that doesn't work, and none of
/// their bits.
const ALL_COMPONENTS_WORK: [u8; 9] = [0; 9];

/// Writes an answer (DSP0267 1.0): the completion code and the fields after it, with reserved bits
/// 0.
#[tactic(auto, using(crate::proofs::Found::read_member))]
pub fn write_answer(answer: &Answer<'_>) -> Reply
    requires { IsAnswerWritable (answer_of answer.now) }
    ensures bytes { result.items ≡ answer_bytes (answer_of answer.now) }
    ensures member { (command : ℕ)
        → answers_command command (answer_of answer.now) ≡ true
        → IsAnswer command result.items (answer_of answer.now) }
    ensures reads_back { (command : ℕ)
        → answers_command command (answer_of answer.now) ≡ true
        → answer_in command result.items ≡ Some (answer_of answer.now) }
{
    written(answer)
}

/// Returns the encoded answer.
#[tactic(auto, using(crate::proofs::WrittenAnswers::parameters_known))]
fn written(answer: &Answer<'_>) -> Reply
    requires { IsAnswerWritable (answer_of answer.now) }
    ensures bytes { result.items ≡ answer_bytes (answer_of answer.now) }
    ensures reads_back { (command : ℕ)
        → answers_command command (answer_of answer.now) ≡ true
        → answer_in command result.items ≡ Some (answer_of answer.now) }
{
    let mut out = Reply::new();
    out.push(answer.code());
    match answer {
        Answer::QueryDeviceIdentifiers(descriptors) => return query_device_identifiers(descriptors),
        Answer::GetFirmwareParameters(components) => return get_firmware_parameters(components),
        Answer::RequestUpdate => {
            let _ = out.try_extend_from_slice(&NO_METADATA);
        }
        Answer::PassComponentTable(response) => {
            out.push(response.response);
            out.push(response.code);
        }
        Answer::UpdateComponent(response) => {
            out.push(response.compatibility);
            out.push(response.code);
            put_u32(&mut out, u32::from(response.force));
            put_u16(&mut out, response.time);
        }
        Answer::RequestFirmwareData(bytes) => {
            let _ = out.try_extend_from_slice(bytes);
        }
        Answer::ActivateFirmware { time } => put_u16(&mut out, *time),
        Answer::GetStatus(status) => {
            out.push(status.state);
            out.push(status.previous);
            out.push(status.aux);
            out.push(status.aux_status);
            out.push(status.progress);
            out.push(status.reason);
            put_u32(&mut out, u32::from(status.force));
        }
        Answer::CancelUpdate => {
            let _ = out.try_extend_from_slice(&ALL_COMPONENTS_WORK);
        }
        Answer::Refused { .. }
        | Answer::TransferComplete
        | Answer::VerifyComplete
        | Answer::ApplyComplete
        | Answer::CancelUpdateComponent => {}
    }
    out
}

fn query_device_identifiers(descriptors: &DeviceDescriptors<'_>) -> Reply
    requires { IsAnswerWritable (AnswerOf.QueryDeviceIdentifiers descriptors.now) }
    ensures bytes { result.items ≡ answer_bytes (AnswerOf.QueryDeviceIdentifiers descriptors.now) }
    ensures reads_back { answer_in 0x01 result.items ≡ Some (AnswerOf.QueryDeviceIdentifiers descriptors.now) }
{
    let mut out = Reply::new();
    out.push(SUCCESS);
    put_u32(&mut out, descriptors.as_bytes().len() as u32);
    out.push(descriptors.count());
    let _ = out.try_extend_from_slice(descriptors.as_bytes());
    out
}

fn get_firmware_parameters(components: &Parameters<'_>) -> Reply
    requires { IsAnswerWritable (AnswerOf.GetFirmwareParameters components.now) }
    ensures bytes { result.items ≡ answer_bytes (AnswerOf.GetFirmwareParameters components.now) }
    ensures few { length components.now < 65536 }
    ensures found { parameters_in (length components.now) (all_parameters_bytes components.now) ≡ Some components.now }
{
    let mut out = Reply::new();
    out.push(SUCCESS);
    let _ = out.try_extend_from_slice(&NO_CAPABILITIES);
    put_u16(&mut out, components.count());
    let _ = out.try_extend_from_slice(&NO_SET_TEXTS);
    let _ = out.try_extend_from_slice(components.as_bytes());
    out
}
