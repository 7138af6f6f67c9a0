//! Answers, decoded and encoded: byte strings worked out by hand from DSP0267's tables.

use fwup_wire::code::{command, completion, response, text_type};
use fwup_wire::{
    Answer, ComponentParameters, DescriptorList, DeviceDescriptor, DeviceDescriptors, Key,
    MAX_TRANSFER, MIN_TRANSFER, OfferResponse, ParameterList, Parameters, TableResponse, TypedText,
    Version, read_answer, transfer_size, write_answer,
};
use mctp_wire::Unit;

/// One descriptor: type 0, data 34 12.
const ONE_DESCRIPTOR: [u8; 12] = [0, 6, 0, 0, 0, 1, 0, 0, 2, 0, 0x34, 0x12];

/// A second descriptor: type 0201, data 78 56 34 12.
const TWO_DESCRIPTORS: [u8; 20] = [
    0, 14, 0, 0, 0, 2, 0, 0, 2, 0, 0x34, 0x12, 0x01, 0x02, 4, 0, 0x78, 0x56, 0x34, 0x12,
];

/// The two descriptors, decoded, each with the bytes of the list that ends with it.
static DESCRIPTORS_READ: [(DeviceDescriptor<'static>, &[u8]); 2] = [
    (
        DeviceDescriptor {
            kind: 0,
            bytes: &[0x34, 0x12],
        },
        &ONE_DESCRIPTOR,
    ),
    (
        DeviceDescriptor {
            kind: 0x0201,
            bytes: &[0x78, 0x56, 0x34, 0x12],
        },
        &TWO_DESCRIPTORS,
    ),
];

/// Component (10, 1) with text `1.0` and no pending image.
const ONE_COMPONENT: [u8; 53] = [
    0, 0, 0, 0, 0, 1, 0, 0, 0, 0, 0, 0x0A, 0, 1, 0, 0, 1, 0, 0, 0, 1, 3, 0, 0, 0, 0, 0, 0, 0, 0, 0,
    0, 0, 0, 0, 0, 0, 0, 0, 0, 0, 0, 0, 0, 2, 0, 0, 0, 0, 0, 0x31, 0x2E, 0x30,
];

/// A second component: (10, 2), index 1, with text `1.0`, and `v2` of stamp 2 pending.
const TWO_COMPONENTS: [u8; 97] = [
    0, 0, 0, 0, 0, 2, 0, 0, 0, 0, 0, 0x0A, 0, 1, 0, 0, 1, 0, 0, 0, 1, 3, 0, 0, 0, 0, 0, 0, 0, 0, 0,
    0, 0, 0, 0, 0, 0, 0, 0, 0, 0, 0, 0, 0, 2, 0, 0, 0, 0, 0, 0x31, 0x2E, 0x30, 0x0A, 0, 2, 0, 1, 1,
    0, 0, 0, 1, 3, 0, 0, 0, 0, 0, 0, 0, 0, 2, 0, 0, 0, 1, 2, 0, 0, 0, 0, 0, 0, 0, 0, 2, 0, 0, 0, 0,
    0, 0x31, 0x2E, 0x30, 0x76, 0x32,
];

/// A third component: (65535, 258), index 255, with the greatest stamp and no texts.
const THREE_COMPONENTS: [u8; 136] = [
    0, 0, 0, 0, 0, 3, 0, 0, 0, 0, 0, 0x0A, 0, 1, 0, 0, 1, 0, 0, 0, 1, 3, 0, 0, 0, 0, 0, 0, 0, 0, 0,
    0, 0, 0, 0, 0, 0, 0, 0, 0, 0, 0, 0, 0, 2, 0, 0, 0, 0, 0, 0x31, 0x2E, 0x30, 0x0A, 0, 2, 0, 1, 1,
    0, 0, 0, 1, 3, 0, 0, 0, 0, 0, 0, 0, 0, 2, 0, 0, 0, 1, 2, 0, 0, 0, 0, 0, 0, 0, 0, 2, 0, 0, 0, 0,
    0, 0x31, 0x2E, 0x30, 0x76, 0x32, 0xFF, 0xFF, 2, 1, 0xFF, 0xFF, 0xFF, 0xFF, 0xFF, 0, 0, 0, 0, 0,
    0, 0, 0, 0, 0, 0, 0, 0, 0, 0, 0, 0, 0, 0, 0, 0, 0, 0, 0, 2, 0, 0, 0, 0, 0,
];

/// No text.
const NO_TEXT: TypedText<'static> = TypedText {
    text_type: text_type::UNKNOWN,
    bytes: &[],
};

/// The text `1.0` of stamp 1.
const ONE: Version<'static> = Version {
    stamp: 1,
    text: TypedText {
        text_type: text_type::ASCII,
        bytes: b"1.0",
    },
};

/// The components, decoded, each with the bytes of the list that ends with it.
static PARAMETERS_READ: [(ComponentParameters<'static>, &[u8]); 3] = [
    (
        ComponentParameters {
            key: Key {
                classification: 10,
                identifier: 1,
            },
            index: 0,
            active: ONE,
            pending: Version {
                stamp: 0,
                text: NO_TEXT,
            },
        },
        &ONE_COMPONENT,
    ),
    (
        ComponentParameters {
            key: Key {
                classification: 10,
                identifier: 2,
            },
            index: 1,
            active: ONE,
            pending: Version {
                stamp: 2,
                text: TypedText {
                    text_type: text_type::ASCII,
                    bytes: b"v2",
                },
            },
        },
        &TWO_COMPONENTS,
    ),
    (
        ComponentParameters {
            key: Key {
                classification: 0xFFFF,
                identifier: 258,
            },
            index: 255,
            active: Version {
                stamp: 0xFFFF_FFFF,
                text: NO_TEXT,
            },
            pending: Version {
                stamp: 0,
                text: NO_TEXT,
            },
        },
        &THREE_COMPONENTS,
    ),
];

/// Answers by their command: those without fields, or with constant fields; a table entry that
/// isn't supported; an offer declined since the stamp is the same, and 300 seconds; an activation
/// that takes 258 seconds; and lists of descriptors and of components.
static WHOLE: [(u8, &[u8]); 15] = [
    (command::REQUEST_UPDATE, &[0; 4]),
    (command::TRANSFER_COMPLETE, &[0]),
    (command::VERIFY_COMPLETE, &[0]),
    (command::APPLY_COMPLETE, &[0]),
    (command::CANCEL_UPDATE_COMPONENT, &[0]),
    (command::CANCEL_UPDATE, &[0; 10]),
    (command::PASS_COMPONENT_TABLE, &[0, 1, 6]),
    (
        command::UPDATE_COMPONENT,
        &[0, 1, 1, 0, 0, 0, 0, 0x2C, 0x01],
    ),
    (command::ACTIVATE_FIRMWARE, &[0, 0x02, 0x01]),
    (command::QUERY_DEVICE_IDENTIFIERS, &[0; 6]),
    (command::QUERY_DEVICE_IDENTIFIERS, &ONE_DESCRIPTOR),
    (command::QUERY_DEVICE_IDENTIFIERS, &TWO_DESCRIPTORS),
    (command::GET_FIRMWARE_PARAMETERS, &ONE_COMPONENT),
    (command::GET_FIRMWARE_PARAMETERS, &TWO_COMPONENTS),
    (command::GET_FIRMWARE_PARAMETERS, &THREE_COMPONENTS),
];

/// Whether a list has `count` entries, the first of those above.
fn are_descriptors(told: &DeviceDescriptors<'_>, count: usize) -> bool {
    for (one, (other, _)) in told.iter().zip(&DESCRIPTORS_READ) {
        if one != *other {
            return false;
        }
    }
    told.len() == count && told.is_empty() == (count == 0)
}

/// The same for components, of which there is at least one.
fn are_parameters(told: &Parameters<'_>, count: usize) -> bool {
    for (one, (other, _)) in told.iter().zip(&PARAMETERS_READ) {
        if one != *other {
            return false;
        }
    }
    told.len() == count && !told.is_empty()
}

/// Whether an answer has the expected fields; a list has `count` entries, the first of those above.
fn is_told(answer: &Answer<'_>, count: usize) -> bool {
    match answer {
        Answer::PassComponentTable(told) => {
            *told
                == TableResponse {
                    response: response::CANNOT_BE_UPDATED,
                    code: response::NOT_SUPPORTED,
                }
        }
        Answer::UpdateComponent(told) => {
            *told
                == OfferResponse {
                    compatibility: response::CANNOT_BE_UPDATED,
                    code: response::COMPARISON_STAMP_IDENTICAL,
                    force: false,
                    time: 300,
                }
        }
        Answer::ActivateFirmware { time } => *time == 258,
        Answer::QueryDeviceIdentifiers(told) => are_descriptors(told, count),
        Answer::GetFirmwareParameters(told) => are_parameters(told, count),
        _ => true,
    }
}

/// Whether the bytes decode as an answer with the expected fields, and encode back.
fn reads_and_writes(byte: u8, bytes: &[u8]) -> bool {
    match read_answer(byte, bytes) {
        Ok(answer) => {
            let count = bytes.get(5).copied().unwrap_or(0);
            is_told(&answer, usize::from(count))
                && bytes.first() == Some(&answer.code())
                && is_written(&answer, bytes)
        }
        Err(_) => false,
    }
}

#[test]
fn reads_answers_and_writes_them_back(rt: HostRuntime) {
    for (byte, bytes) in &WHOLE {
        assert!(rt; reads_and_writes(*byte, bytes), "{byte}");
    }
}

/// The one descriptor above with another last byte.
const OTHER_DESCRIPTOR: [u8; 12] = [0, 6, 0, 0, 0, 1, 0, 0, 2, 0, 0x34, 0x13];

/// The one component above, whose text is `1.1`.
const OTHER_COMPONENT: [u8; 53] = [
    0, 0, 0, 0, 0, 1, 0, 0, 0, 0, 0, 0x0A, 0, 1, 0, 0, 1, 0, 0, 0, 1, 3, 0, 0, 0, 0, 0, 0, 0, 0, 0,
    0, 0, 0, 0, 0, 0, 0, 0, 0, 0, 0, 0, 0, 2, 0, 0, 0, 0, 0, 0x31, 0x2E, 0x31,
];

/// Whether the bytes of both are answers to their commands, and equal.
fn are_equal(one: (u8, &[u8]), other: (u8, &[u8])) -> bool {
    match (read_answer(one.0, one.1), read_answer(other.0, other.1)) {
        (Ok(one), Ok(other)) => one == other,
        _ => false,
    }
}

#[test]
fn tells_answers_apart(rt: HostRuntime) {
    for (place, one) in WHOLE.iter().enumerate() {
        for (another, other) in WHOLE.iter().enumerate() {
            assert!(rt;
                are_equal(*one, *other) == (place == another),
                "{place} {another}"
            );
        }
    }
    let (descriptors, components) = (
        command::QUERY_DEVICE_IDENTIFIERS,
        command::GET_FIRMWARE_PARAMETERS,
    );
    assert!(rt;
        !are_equal(
            (descriptors, &ONE_DESCRIPTOR),
            (descriptors, &OTHER_DESCRIPTOR)
        )
    );
    assert!(rt;
        are_equal(
            (descriptors, &OTHER_DESCRIPTOR),
            (descriptors, &OTHER_DESCRIPTOR)
        )
    );
    assert!(rt; !are_equal((components, &ONE_COMPONENT), (components, &OTHER_COMPONENT)));
    assert!(rt;
        are_equal(
            (components, &OTHER_COMPONENT),
            (components, &OTHER_COMPONENT)
        )
    );
}

/// Whether an answer encodes to the bytes.
fn is_written(answer: &Answer<'_>, bytes: &[u8]) -> bool {
    answer.is_writable() && write_answer(answer).as_slice() == bytes
}

/// Whether the descriptors, added one by one, encode to the bytes above.
fn descriptors_are_put_together() -> bool {
    let mut list = DescriptorList::new();
    for (descriptor, bytes) in &DESCRIPTORS_READ {
        if descriptor.bytes.len() > 4 || list.room() < 8 {
            return false;
        }
        list.push(descriptor);
        if !is_written(&Answer::QueryDeviceIdentifiers(list.lent()), bytes) {
            return false;
        }
    }
    true
}

/// Whether the components, added one by one, encode to the bytes above.
fn components_are_put_together() -> bool {
    let mut list = ParameterList::new();
    for (component, bytes) in &PARAMETERS_READ {
        let (active, pending) = (component.active.text.bytes, component.pending.text.bytes);
        if active.len() > 3 || pending.len() > 2 || list.room() < 44 {
            return false;
        }
        list.push(component);
        if !is_written(&Answer::GetFirmwareParameters(list.lent()), bytes) {
            return false;
        }
    }
    true
}

#[test]
fn puts_lists_together(rt: HostRuntime) {
    assert!(rt; descriptors_are_put_together());
    assert!(rt; components_are_put_together());
}

/// The commands that have an answer.
static COMMANDS: [u8; 13] = [
    0x01, 0x02, 0x10, 0x13, 0x14, 0x15, 0x16, 0x17, 0x18, 0x1A, 0x1B, 0x1C, 0x1D,
];

/// Completion codes of refusals.
static CODES: [u8; 6] = [
    0x01,
    0x04,
    completion::NOT_IN_UPDATE_MODE,
    completion::ALREADY_IN_UPDATE_MODE,
    completion::INCOMPLETE_UPDATE,
    0xFF,
];

/// Whether only this code is the refusal of a command, without bytes after it.
fn ends_at(byte: u8, code: u8) -> bool {
    match read_answer(byte, &[code]) {
        Ok(Answer::Refused { code: told }) => {
            told == code && read_answer(byte, &[code, 0]).is_err()
        }
        _ => false,
    }
}

#[test]
fn ends_refusals_at_the_code(rt: HostRuntime) {
    for byte in &COMMANDS {
        for code in &CODES {
            assert!(rt; ends_at(*byte, *code) && reads_and_writes(*byte, &[*code]));
        }
        assert!(rt; read_answer(*byte, &[]).is_err());
    }
}

/// Bytes that aren't answers: a descriptor missing, one too many, a longer list, a longer
/// descriptor; metadata, package data requested; a byte missing, a byte too many, a code alone,
/// fields after a bare answer; a broken component, its bit; a status without flags; and answers to
/// unknown commands, also refusals.
static MALFORMED: [(u8, &[u8]); 23] = [
    (0x01, &[0, 6, 0, 0, 0, 2, 0, 0, 2, 0, 0x34, 0x12]),
    (0x01, &[0, 6, 0, 0, 0, 0, 0, 0, 2, 0, 0x34, 0x12]),
    (0x01, &[0, 7, 0, 0, 0, 1, 0, 0, 2, 0, 0x34, 0x12]),
    (0x01, &[0, 6, 0, 0, 0, 1, 0, 0, 3, 0, 0x34, 0x12]),
    (0x10, &[0, 1, 0, 0]),
    (0x10, &[0, 0, 0, 1]),
    (0x13, &[0, 0]),
    (0x14, &[0; 10]),
    (0x1A, &[0]),
    (0x16, &[0, 0]),
    (0x1D, &[0, 1, 0, 0, 0, 0, 0, 0, 0, 0]),
    (0x1D, &[0, 0, 0, 0, 0, 0, 0, 0, 0, 0x80]),
    (0x1B, &[0, 3, 2, 0, 0, 0x65, 0]),
    (0x00, &[0]),
    (0x00, &[5]),
    (0x03, &[0]),
    (0x03, &[5]),
    (0x19, &[0]),
    (0x19, &[5]),
    (0x1E, &[0]),
    (0x1E, &[5]),
    (0xFF, &[0]),
    (0xFF, &[5]),
];

#[test]
fn refuses_malformed_answers(rt: HostRuntime) {
    for (byte, bytes) in &MALFORMED {
        assert!(rt; read_answer(*byte, bytes).is_err(), "{byte}");
    }
}

/// The number of image bytes in an answer, and whether it can be encoded: a reply has at most 508
/// bytes with its code.
static CARRIED: [(usize, bool); 6] = [
    (0, true),
    (240, true),
    (251, true),
    (496, true),
    (507, true),
    (508, false),
];

/// Whether an answer with `size` image bytes can be encoded as expected, and decodes back.
fn carries(size: usize, writable: bool) -> bool {
    let image = [0xA5; 508];
    let answer = Answer::RequestFirmwareData(image.get(..size).unwrap_or(&[]));
    if !answer.is_writable() {
        return !writable;
    }
    let reply = write_answer(&answer);
    match read_answer(command::REQUEST_FIRMWARE_DATA, reply.as_slice()) {
        Ok(Answer::RequestFirmwareData(bytes)) => writable && bytes.len() == size,
        _ => false,
    }
}

#[test]
fn carries_pieces_of_each_unit(rt: HostRuntime) {
    for (size, writable) in &CARRIED {
        assert!(rt; carries(*size, *writable), "{size}");
    }
    assert!(rt; transfer_size(Unit::U64) == 240);
    assert!(rt; transfer_size(Unit::U128) == 496);
    assert!(rt; (MIN_TRANSFER, MAX_TRANSFER) == (32, 496));
}
