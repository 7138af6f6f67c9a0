//! The record that applies to a device, and its plan.

use super::drafts::{Draft, File, file, worked};
use fw_package::{Descriptor, Package, PlanFault};

/// The descriptor of the first record of the worked package.
const FIRST: Descriptor<'static> = Descriptor {
    kind: 0,
    bytes: &[0x34, 0x12],
};

/// The descriptor of the second record.
const SECOND: Descriptor<'static> = Descriptor {
    kind: 1,
    bytes: &[0x78, 0x56, 0x34, 0x12],
};

/// Other data than the first descriptor's.
const OTHER_DATA: Descriptor<'static> = Descriptor {
    kind: 0,
    bytes: &[0x34, 0x13],
};

/// Another type.
const OTHER_TYPE: Descriptor<'static> = Descriptor {
    kind: 2,
    bytes: &[0x34, 0x12],
};

/// A device's descriptors, and the record that applies to it.
static CHOICES: [(&[Descriptor<'static>], Option<usize>); 6] = [
    (&[SECOND], Some(1)),
    (&[FIRST, SECOND], Some(0)),
    (&[SECOND, FIRST], Some(0)),
    (&[OTHER_DATA], None),
    (&[OTHER_TYPE], None),
    (&[], None),
];

/// Whether this record of a package applies to a device.
fn is_chosen(file: &[u8], descriptors: &[Descriptor<'_>], record: Option<usize>) -> bool {
    match Package::read(file) {
        Ok(package) => package.record_for(descriptors) == record,
        Err(_) => false,
    }
}

#[test]
fn chooses_the_first_record_that_matches(rt: HostRuntime) {
    let file = worked();
    for (descriptors, record) in &CHOICES {
        assert!(rt; is_chosen(file.as_slice(), descriptors, *record));
    }
}

/// Whether a record's plan has these components.
fn is_planned(file: &[u8], record: usize, components: &[usize]) -> bool {
    let Ok(package) = Package::read(file) else {
        return false;
    };
    if record >= package.record_count() {
        return false;
    }
    match package.plan(record) {
        Ok(plan) => plan.as_slice() == components
            && plan.len() == components.len()
            && !plan.is_empty(),
        Err(_) => false,
    }
}

/// The fault of the first record's plan, if any.
fn fault_of(file: &[u8]) -> Option<PlanFault> {
    let Ok(package) = Package::read(file) else {
        return None;
    };
    if package.record_count() == 0 {
        return None;
    }
    package.plan(0).err()
}

/// Nine components without images and texts.
pub static NINE: [&[u8]; 9] = [
    &[
        10, 0, 1, 0, 0, 0, 0, 0, 0, 0, 0, 0, 0, 0, 0, 0, 0, 0, 0, 0, 1, 0,
    ],
    &[
        10, 0, 2, 0, 0, 0, 0, 0, 0, 0, 0, 0, 0, 0, 0, 0, 0, 0, 0, 0, 1, 0,
    ],
    &[
        10, 0, 3, 0, 0, 0, 0, 0, 0, 0, 0, 0, 0, 0, 0, 0, 0, 0, 0, 0, 1, 0,
    ],
    &[
        10, 0, 4, 0, 0, 0, 0, 0, 0, 0, 0, 0, 0, 0, 0, 0, 0, 0, 0, 0, 1, 0,
    ],
    &[
        10, 0, 5, 0, 0, 0, 0, 0, 0, 0, 0, 0, 0, 0, 0, 0, 0, 0, 0, 0, 1, 0,
    ],
    &[
        10, 0, 6, 0, 0, 0, 0, 0, 0, 0, 0, 0, 0, 0, 0, 0, 0, 0, 0, 0, 1, 0,
    ],
    &[
        10, 0, 7, 0, 0, 0, 0, 0, 0, 0, 0, 0, 0, 0, 0, 0, 0, 0, 0, 0, 1, 0,
    ],
    &[
        10, 0, 8, 0, 0, 0, 0, 0, 0, 0, 0, 0, 0, 0, 0, 0, 0, 0, 0, 0, 1, 0,
    ],
    &[
        10, 0, 9, 0, 0, 0, 0, 0, 0, 0, 0, 0, 0, 0, 0, 0, 0, 0, 0, 0, 1, 0,
    ],
];

/// The package of the given components, with one record that uses the first eight, and component
/// 8 + i if bit i of `used` is set.
fn with_components(components: &[&[u8]], used: u8) -> File {
    file(Draft {
        bitmap_bits: 16,
        records: &[&[13, 0, 0, 0, 0, 0, 0, 0, 0, 0, 0, 0xFF, used]],
        components,
        rest: &[],
    })
}

#[test]
fn plans_eight_components_at_most(rt: HostRuntime) {
    let file = worked();
    assert!(rt; is_planned(file.as_slice(), 0, &[0, 1]) && is_planned(file.as_slice(), 1, &[1]));
    let eight = with_components(&NINE[..8], 0);
    assert!(rt; is_planned(eight.as_slice(), 0, &[0, 1, 2, 3, 4, 5, 6, 7]));
    let nine = with_components(&NINE, 1);
    assert!(rt; fault_of(nine.as_slice()) == Some(PlanFault::TooManyComponents));
}

/// The bytes, and then a text of `size` bytes.
fn with_text(bytes: &[u8], size: u8) -> File {
    let mut out = File::new();
    let _ = out.try_extend_from_slice(bytes);
    for _ in 0..size {
        let _ = out.try_push(b'x');
    }
    out
}

/// The package of component (10, 1) and another with this identifier and a text of this size, with
/// one record with a set text of this size.
fn twofold(identifier: u8, text: u8, set_text: u8) -> File {
    let size = set_text.wrapping_add(12);
    let record = with_text(&[size, 0, 0, 0, 0, 0, 0, 1, set_text, 0, 0, 3], set_text);
    let component = with_text(
        &[
            10, 0, identifier, 0, 0, 0, 0, 0, 0, 0, 0, 0, 0, 0, 0, 0, 0, 0, 0, 0, 1, text,
        ],
        text,
    );
    let first = with_text(NINE[0], 0);
    file(Draft {
        bitmap_bits: 8,
        records: &[record.as_slice()],
        components: &[first.as_slice(), component.as_slice()],
        rest: &[],
    })
}

/// A case: the second component's identifier and text size, the set text's size, and the fault.
type Row<'a> = (&'a str, u8, u8, u8, Option<PlanFault>);

static FAULTS: [Row<'static>; 6] = [
    ("two keys, the longest text", 2, 200, 2, None),
    (
        "one key twice",
        1,
        2,
        2,
        Some(PlanFault::DuplicateComponent),
    ),
    (
        "a text of 201 bytes",
        2,
        201,
        2,
        Some(PlanFault::TextTooLong),
    ),
    ("the longest set text", 2, 2, 200, None),
    (
        "a set text of 201 bytes",
        2,
        2,
        201,
        Some(PlanFault::TextTooLong),
    ),
    (
        "one key twice, a text of 201 bytes",
        1,
        201,
        201,
        Some(PlanFault::DuplicateComponent),
    ),
];

#[test]
fn names_the_first_fault_of_a_plan(rt: HostRuntime) {
    for (situation, identifier, text, set_text, fault) in &FAULTS {
        let file = twofold(*identifier, *text, *set_text);
        assert!(rt;
            is_planned(file.as_slice(), 0, &[0, 1]) == fault.is_none(),
            "{situation}"
        );
        assert!(rt; fault_of(file.as_slice()) == *fault, "{situation}");
    }
}
