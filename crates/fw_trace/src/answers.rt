//! The answers of firmware update (DSP0267 1.0): the command, the completion code, and the fields
//! after it. Each function's only error is `AllocError`.

ghost use Rattle.std.specs.Prelude.{OnOk};
ghost use Rattle.fw_text.specs.Printing.{AppendsText};
ghost use Rattle.fwup_wire.specs.Lent.{answer_of, device_descriptor_of, parameters_of, version_of};
ghost use Rattle.fw_trace.specs.Answers.{answer_fields, code_and_fields, components_fields, descriptor_fields, descriptors_fields, offer_response_fields, parameters_fields, pending_fields, status_fields, table_fields, update_answer, version_fields};

use crate::commands::push_component;
use crate::names::{update_code, update_command};
use crate::pieces::{
    push_byte, push_digits, push_name, push_rest, push_short, push_text, push_two,
};
use fw_text::{push_eight, push_four, push_number, push_words};
use fwup_wire::{
    Answer, ComponentParameters, DeviceDescriptor, DeviceDescriptors, OfferResponse, Parameters,
    Status, TableResponse, Version,
};
use std::alloc::{AllocError, Global};

/// Appends a descriptor's type and data.
#[tactic(auto, unfolding(crate::specs::Answers::descriptor_fields))]
fn push_descriptor(
    alloc: Global,
    text: &mut Vec<u8>,
    descriptor: DeviceDescriptor<'_>,
) -> Result<(), AllocError>
    ensures { OnOk result (AppendsText text.old.items text.new.items (descriptor_fields (device_descriptor_of descriptor.entry))) }
{
    push_four(alloc, text, " ", descriptor.kind)?;
    push_digits(alloc, text, " ", descriptor.bytes)?;
    Ok(())
}

/// Appends the fields of QueryDeviceIdentifiers' answer.
#[tactic(auto, using(fw_text::proofs::Chains::telling), unfolding(crate::specs::Answers::descriptors_fields))]
fn push_descriptors(
    alloc: Global,
    text: &mut Vec<u8>,
    descriptors: &DeviceDescriptors<'_>,
) -> Result<(), AllocError>
    ensures { OnOk result (AppendsText text.old.items text.new.items (descriptors_fields descriptors.now)) }
{
    push_number(alloc, text, " descriptors ", descriptors.len())?;
    for descriptor in descriptors.iter() {
        push_descriptor(alloc, text, descriptor)?;
    }
    Ok(())
}

/// Appends a word and an image's version: its comparison stamp and its text.
#[tactic(auto, unfolding(crate::specs::Answers::version_fields))]
fn push_version(
    alloc: Global,
    text: &mut Vec<u8>,
    word: &str,
    version: &Version<'_>,
) -> Result<(), AllocError>
    ensures { OnOk result (AppendsText text.old.items text.new.items (version_fields word.now (version_of version.now))) }
{
    push_eight(alloc, text, word, version.stamp)?;
    push_text(alloc, text, " ", &version.text)?;
    Ok(())
}

/// Appends the version of the pending image, if there is one.
fn push_pending(alloc: Global, text: &mut Vec<u8>, version: &Version<'_>) -> Result<(), AllocError>
    ensures { OnOk result (AppendsText text.old.items text.new.items (pending_fields (version_of version.now))) }
{
    if version.stamp == 0 && version.text.text_type == 0 && version.text.bytes.is_empty() {
        return Ok(());
    }
    push_version(alloc, text, " pending ", version)
}

/// Appends the parameters that a device reports for a component.
#[tactic(auto, unfolding(crate::specs::Answers::parameters_fields))]
fn push_parameters(
    alloc: Global,
    text: &mut Vec<u8>,
    parameters: ComponentParameters<'_>,
) -> Result<(), AllocError>
    ensures { OnOk result (AppendsText text.old.items text.new.items (parameters_fields (parameters_of parameters.entry))) }
{
    push_component(alloc, text, parameters.key, parameters.index)?;
    push_version(alloc, text, " active ", &parameters.active)?;
    push_pending(alloc, text, &parameters.pending)?;
    Ok(())
}

/// Appends the fields of GetFirmwareParameters' answer.
#[tactic(auto, using(fw_text::proofs::Chains::telling), unfolding(crate::specs::Answers::components_fields))]
fn push_components(
    alloc: Global,
    text: &mut Vec<u8>,
    components: &Parameters<'_>,
) -> Result<(), AllocError>
    ensures { OnOk result (AppendsText text.old.items text.new.items (components_fields components.now)) }
{
    push_number(alloc, text, " components ", components.len())?;
    for parameters in components.iter() {
        push_parameters(alloc, text, parameters)?;
    }
    Ok(())
}

/// Appends the fields of PassComponentTable's answer.
#[tactic(auto, unfolding(crate::specs::Answers::table_fields))]
fn push_table(alloc: Global, text: &mut Vec<u8>, response: TableResponse) -> Result<(), AllocError>
    ensures { OnOk result (AppendsText text.old.items text.new.items (table_fields response)) }
{
    push_byte(alloc, text, " response ", response.response)?;
    push_byte(alloc, text, " code ", response.code)?;
    Ok(())
}

/// Appends the fields of UpdateComponent's answer.
fn push_offer_response(
    alloc: Global,
    text: &mut Vec<u8>,
    response: OfferResponse,
) -> Result<(), AllocError>
    ensures { OnOk result (AppendsText text.old.items text.new.items (offer_response_fields response)) }
{
    push_byte(alloc, text, " compatibility ", response.compatibility)?;
    push_byte(alloc, text, " code ", response.code)?;
    push_eight(alloc, text, " flags ", u32::from(response.force))?;
    push_short(alloc, text, " time ", response.time)?;
    Ok(())
}

/// Appends the fields of GetStatus's answer.
#[tactic(auto, unfolding(crate::specs::Answers::status_fields))]
fn push_status(alloc: Global, text: &mut Vec<u8>, status: Status) -> Result<(), AllocError>
    ensures { OnOk result (AppendsText text.old.items text.new.items (status_fields status)) }
{
    push_byte(alloc, text, " state ", status.state)?;
    push_byte(alloc, text, " previous ", status.previous)?;
    push_byte(alloc, text, " aux ", status.aux)?;
    push_two(alloc, text, " status ", status.aux_status)?;
    push_byte(alloc, text, " progress ", status.progress)?;
    push_byte(alloc, text, " reason ", status.reason)?;
    push_eight(alloc, text, " flags ", u32::from(status.force))?;
    Ok(())
}

/// Appends the fields of an answer after its code.
fn push_answer(alloc: Global, text: &mut Vec<u8>, answer: &Answer<'_>) -> Result<(), AllocError>
    ensures { OnOk result (AppendsText text.old.items text.new.items (answer_fields (answer_of answer.now))) }
{
    match answer {
        Answer::QueryDeviceIdentifiers(descriptors) => push_descriptors(alloc, text, descriptors),
        Answer::GetFirmwareParameters(components) => push_components(alloc, text, components),
        Answer::RequestUpdate => push_words(text, " metadata 0 send 0"),
        Answer::PassComponentTable(response) => push_table(alloc, text, *response),
        Answer::UpdateComponent(response) => push_offer_response(alloc, text, *response),
        Answer::RequestFirmwareData(bytes) => push_number(alloc, text, " bytes ", bytes.len()),
        Answer::ActivateFirmware { time } => push_short(alloc, text, " time ", *time),
        Answer::GetStatus(status) => push_status(alloc, text, *status),
        Answer::CancelUpdate => push_words(text, " broken 0 components 0000000000000000"),
        Answer::Refused { .. }
        | Answer::TransferComplete
        | Answer::VerifyComplete
        | Answer::ApplyComplete
        | Answer::CancelUpdateComponent => Ok(()),
    }
}

/// Appends an answer's code and fields, or the digits of fields that can't be decoded.
fn push_code_and_fields(
    alloc: Global,
    text: &mut Vec<u8>,
    command: u8,
    body: &[u8],
) -> Result<(), AllocError>
    ensures { OnOk result (AppendsText text.old.items text.new.items (code_and_fields command body.now)) }
{
    let [code, fields @ ..] = body else {
        return Ok(());
    };
    push_name(alloc, text, update_code(*code), *code)?;
    match fwup_wire::read_answer(command, body) {
        Ok(answer) => push_answer(alloc, text, &answer),
        Err(_) => push_rest(alloc, text, fields),
    }
}

/// Appends an answer of firmware update: the command, the completion code, and the command's
/// fields.
#[tactic(auto, unfolding(crate::specs::Answers::update_answer))]
pub fn push_update_answer(
    alloc: Global,
    text: &mut Vec<u8>,
    command: u8,
    body: &[u8],
) -> Result<(), AllocError>
    ensures { OnOk result (AppendsText text.old.items text.new.items (update_answer command body.now)) }
{
    push_name(alloc, text, update_command(command), command)?;
    push_code_and_fields(alloc, text, command, body)?;
    Ok(())
}
