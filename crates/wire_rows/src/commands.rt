//! Commands, decoded and encoded: byte strings worked out by hand from DSP0267's tables.

use fwup_wire::code::text_type;
use fwup_wire::{
    Command, ComponentOffer, Key, TableEntry, TransferFlag, TypedText, UpdateRequest, Version,
    read, write,
};
use pldm_base::Reply;
use pldm_base::completion::ERROR_INVALID_LENGTH;

const KEY: Key = Key {
    classification: 10,
    identifier: 1,
};

const TEXT: TypedText<'static> = TypedText {
    text_type: text_type::ASCII,
    bytes: b"v2",
};

const REQUEST: [u8; 12] = [0xF0, 0, 0, 0, 1, 0, 1, 0, 0, 1, 1, 0x41];

const ENTRY: [u8; 14] = [0x05, 0x0A, 0, 1, 0, 0, 2, 0, 0, 0, 1, 2, 0x76, 0x32];

const OFFER: [u8; 21] = [
    0x0A, 0, 1, 0, 0, 1, 0, 0, 0, 0xF1, 0, 0, 0, 0, 0, 0, 0, 1, 2, 0x76, 0x32,
];

/// A command's code and data, and the command.
type Row<'a> = (u8, &'a [u8], Command<'a>);

static ROWS: [Row<'static>; 15] = [
    (0x01, &[], Command::QueryDeviceIdentifiers),
    (0x02, &[], Command::GetFirmwareParameters),
    (
        0x10,
        &REQUEST,
        Command::RequestUpdate(UpdateRequest {
            transfer_size: 240,
            components: 1,
            outstanding: 1,
            package_data_length: 0,
            image_set: TypedText {
                text_type: text_type::ASCII,
                bytes: b"A",
            },
        }),
    ),
    (
        0x13,
        &ENTRY,
        Command::PassComponentTable(TableEntry {
            flag: TransferFlag::StartAndEnd,
            key: KEY,
            index: 0,
            version: Version {
                stamp: 2,
                text: TEXT,
            },
        }),
    ),
    (
        0x14,
        &OFFER,
        Command::UpdateComponent(ComponentOffer {
            key: KEY,
            index: 0,
            version: Version {
                stamp: 1,
                text: TEXT,
            },
            size: 241,
            force: false,
        }),
    ),
    (
        0x15,
        &[0xF0, 0, 0, 0, 0x20, 0, 0, 0],
        Command::RequestFirmwareData {
            offset: 240,
            length: 32,
        },
    ),
    (0x16, &[0], Command::TransferComplete { result: 0 }),
    (0x16, &[0x70], Command::TransferComplete { result: 0x70 }),
    (0x17, &[0x90], Command::VerifyComplete { result: 0x90 }),
    (
        0x18,
        &[0xB0, 0x02, 0x01],
        Command::ApplyComplete {
            result: 0xB0,
            methods: 0x0102,
        },
    ),
    (
        0x1A,
        &[1],
        Command::ActivateFirmware {
            self_contained: true,
        },
    ),
    (
        0x1A,
        &[0],
        Command::ActivateFirmware {
            self_contained: false,
        },
    ),
    (0x1B, &[], Command::GetStatus),
    (0x1C, &[], Command::CancelUpdateComponent),
    (0x1D, &[], Command::CancelUpdate),
];

/// Whether the data decode as the command of this code, and the command encodes to the data.
fn reads_and_writes(byte: u8, fields: &[u8], command: &Command<'_>) -> bool {
    match read(byte, fields) {
        Ok(found) => {
            found == *command
                && found.code() == byte
                && found.is_writable()
                && write(&found).as_slice() == fields
        }
        Err(_) => false,
    }
}

#[test]
fn reads_fields_and_writes_them_back(rt: HostRuntime) {
    for (byte, fields, command) in &ROWS {
        assert!(rt; reads_and_writes(*byte, fields, command), "{byte}");
    }
}

/// The text of an update's request: it outlives the command decoded from the data.
fn text_alone(fields: &[u8]) -> &[u8] {
    match read(0x10, fields) {
        Ok(Command::RequestUpdate(request)) => request.image_set.bytes,
        _ => &[],
    }
}

/// Whether a command's data, with the byte at `place` replaced, are refused for their length.
fn is_refused(byte: u8, fields: &[u8], place: usize, other: u8) -> bool {
    let mut changed = Reply::new();
    let _ = changed.try_extend_from_slice(fields);
    if let Some(slot) = changed.as_mut_slice().get_mut(place) {
        *slot = other;
    }
    matches!(read(byte, &changed), Err(ERROR_INVALID_LENGTH))
}

/// Whether data are refused that are shorter, or one byte longer.
fn has_one_length(byte: u8, fields: &[u8]) -> bool {
    for size in 0..fields.len() {
        if !is_refused(byte, fields.get(..size).unwrap_or(&[]), size, 0) {
            return false;
        }
    }
    let mut longer = Reply::new();
    let _ = longer.try_extend_from_slice(fields);
    let _ = longer.try_push(0);
    is_refused(byte, &longer, fields.len(), 0)
}

/// Whether data are refused whose text has another length than `length`, which is at `place`.
fn fits_its_text(byte: u8, fields: &[u8], place: usize, length: u8) -> bool {
    for other in 0..=255 {
        if other != length && !is_refused(byte, fields, place, other) {
            return false;
        }
    }
    true
}

/// Commands with a text: the position of its length, and the length.
static TEXTED: [(u8, &[u8], usize, u8); 3] = [
    (0x10, &REQUEST, 10, 1),
    (0x13, &ENTRY, 11, 2),
    (0x14, &OFFER, 18, 2),
];

#[test]
fn refuses_every_length_but_its_own(rt: HostRuntime) {
    for (byte, fields, _) in &ROWS {
        assert!(rt; has_one_length(*byte, fields), "{byte}");
    }
    for (byte, fields, place, length) in &TEXTED {
        assert!(rt; fits_its_text(*byte, fields, *place, *length), "{byte}");
    }
}

#[test]
fn a_text_outlives_what_is_read(rt: HostRuntime) {
    assert!(rt; text_alone(&REQUEST) == b"A".as_slice());
}

/// The size of a set text, and whether RequestUpdate with it can be encoded: request data have at
/// most 252 bytes, so they can be sent at either transmission unit.
static TEXTS: [(usize, bool); 4] = [(0, true), (241, true), (242, false), (255, false)];

/// Whether RequestUpdate with a set text of `size` bytes can be encoded.
fn is_writable(size: usize) -> bool {
    let text = [0x41; 255];
    let command = Command::RequestUpdate(UpdateRequest {
        transfer_size: 496,
        components: 1,
        outstanding: 1,
        package_data_length: 0,
        image_set: TypedText {
            text_type: text_type::ASCII,
            bytes: text.get(..size).unwrap_or(&[]),
        },
    });
    command.is_writable()
}

#[test]
fn writes_request_data_that_fit_each_unit(rt: HostRuntime) {
    for (size, writable) in &TEXTS {
        assert!(rt; is_writable(*size) == *writable, "{size}");
    }
}
