//! Headers of packages to build.

use super::drafts::{worked, worked_rest};
use fw_package::{
    AskedComponent, AskedFault, AskedPackage, AskedRecord, Descriptor, Header, Package,
};

/// The header of a package with one component and an image of 241 bytes, of 327 bytes in all.
const ONE: [u8; 86] = [
    0xF0, 0x18, 0x87, 0x8C, 0xCB, 0x7D, 0x49, 0x43, 0x98, 0x00, 0xA0, 0x2F, 0x05, 0x9A, 0xCA, 0x02,
    0x01, 0x56, 0x00, 0, 0, 0, 0, 0, 0, 0, 0, 0, 0, 0, 0, 0, 0x08, 0x00, 0x01, 0x00, 0x01, 0x13,
    0x00, 0x01, 0x00, 0x00, 0x00, 0x00, 0x01, 0x01, 0x00, 0x00, 0x01, 0x41, 0x00, 0x00, 0x02, 0x00,
    0x34, 0x12, 0x01, 0x00, 0x0A, 0x00, 0x01, 0x00, 0x02, 0x00, 0x00, 0x00, 0x02, 0x00, 0x00, 0x00,
    0x56, 0x00, 0x00, 0x00, 0xF1, 0x00, 0x00, 0x00, 0x01, 0x02, 0x76, 0x32, 0xFE, 0x65, 0x62, 0x75,
];

/// The header of a package with two components and images of 32 and 500 bytes, of 642 bytes in all.
const TWO: [u8; 110] = [
    0xF0, 0x18, 0x87, 0x8C, 0xCB, 0x7D, 0x49, 0x43, 0x98, 0x00, 0xA0, 0x2F, 0x05, 0x9A, 0xCA, 0x02,
    0x01, 0x6E, 0x00, 0, 0, 0, 0, 0, 0, 0, 0, 0, 0, 0, 0, 0, 0x08, 0x00, 0x01, 0x00, 0x01, 0x13,
    0x00, 0x01, 0x00, 0x00, 0x00, 0x00, 0x01, 0x01, 0x00, 0x00, 0x03, 0x41, 0x00, 0x00, 0x02, 0x00,
    0x34, 0x12, 0x02, 0x00, 0x0A, 0x00, 0x01, 0x00, 0x02, 0x00, 0x00, 0x00, 0x02, 0x00, 0x00, 0x00,
    0x6E, 0x00, 0x00, 0x00, 0x20, 0x00, 0x00, 0x00, 0x01, 0x02, 0x76, 0x32, 0x0A, 0x00, 0x02, 0x00,
    0x02, 0x00, 0x00, 0x00, 0x02, 0x00, 0x00, 0x00, 0x8E, 0x00, 0x00, 0x00, 0xF4, 0x01, 0x00, 0x00,
    0x01, 0x02, 0x76, 0x32, 0x9E, 0xA1, 0x13, 0x22,
];

/// Descriptor 0000, data 34 12.
const FIRST: Descriptor<'static> = Descriptor {
    kind: 0,
    bytes: &[0x34, 0x12],
};

/// Descriptor 0001, data 78 56 34 12.
const SECOND: Descriptor<'static> = Descriptor {
    kind: 1,
    bytes: &[0x78, 0x56, 0x34, 0x12],
};

/// A record with one set text, descriptor and use.
const RECORD: AskedRecord<'static> = AskedRecord {
    flags: 0,
    set_text: b"A",
    descriptors: &[FIRST],
    uses: &[0],
};

/// Component (10, 1) with stamp 2, options 2, text `v2` and an image of 241 bytes.
const COMPONENT: AskedComponent<'static> = AskedComponent {
    classification: 10,
    identifier: 1,
    stamp: 2,
    options: 2,
    method: 0,
    text: b"v2",
    size: 241,
};

/// The package of that record and component, without a version text.
const PACKAGE: AskedPackage<'static> = AskedPackage {
    release: [0; 13],
    version: b"",
    records: &[RECORD],
    components: &[COMPONENT],
};

/// Packages, and their headers.
static WRITTEN: [(AskedPackage<'static>, &[u8]); 2] = [
    (PACKAGE, &ONE),
    (
        AskedPackage {
            records: &[AskedRecord {
                uses: &[0, 1],
                ..RECORD
            }],
            components: &[
                AskedComponent {
                    size: 32,
                    ..COMPONENT
                },
                AskedComponent {
                    identifier: 2,
                    size: 500,
                    ..COMPONENT
                },
            ],
            ..PACKAGE
        },
        &TWO,
    ),
];

/// Whether a package's header is encoded as these bytes.
fn is_written(package: &AskedPackage<'_>, bytes: &[u8]) -> bool {
    let mut header = Header::new();
    package.write_header(&mut header).is_ok() && header.as_slice() == bytes
}

#[test]
fn writes_a_header(rt: HostRuntime) {
    for (package, bytes) in &WRITTEN {
        assert!(rt; is_written(package, bytes));
    }
}

/// The package of two records that the other tests decode, up to the end of its last image.
static WORKED: AskedPackage<'static> = AskedPackage {
    release: [0x15; 13],
    version: b"pkg",
    records: &[
        AskedRecord {
            flags: 0,
            set_text: b"A",
            descriptors: &[FIRST],
            uses: &[0, 1],
        },
        AskedRecord {
            flags: 0,
            set_text: b"B",
            descriptors: &[SECOND],
            uses: &[1],
        },
    ],
    components: &[
        AskedComponent {
            classification: 10,
            identifier: 1,
            stamp: 0xFFFF_FFFF,
            options: 0,
            method: 0,
            text: b"v1",
            size: 0,
        },
        AskedComponent {
            classification: 10,
            identifier: 2,
            stamp: 7,
            options: 2,
            method: 0,
            text: b"v2",
            size: 300,
        },
    ],
};

/// Whether the file is its header, its last image and five more bytes, and decodes without those.
fn is_written_worked(file: &[u8]) -> bool {
    let (Some(header), Some(image), Some(package)) = (
        file.get(..134),
        file.get(134..434),
        file.get(..434),
    ) else {
        return false;
    };
    file.len() == 439
        && is_written(&WORKED, header)
        && worked_rest().get(..300) == Some(image)
        && Package::read(package).is_ok()
}

#[test]
fn writes_the_package_of_two_records(rt: HostRuntime) {
    assert!(rt; is_written_worked(worked().as_slice()));
}

/// The fault of a package that can't be encoded, if any. The buffer is unchanged then.
fn fault_of(package: &AskedPackage<'_>) -> Option<AskedFault> {
    let mut header = Header::new();
    header.push(7);
    let fault = package.write_header(&mut header).err();
    match fault {
        Some(_) if header.as_slice() != [7].as_slice() => None,
        _ => fault,
    }
}

/// A case: a package, and its fault, if any.
type Asking<'a> = (&'a str, AskedPackage<'a>, Option<AskedFault>);

/// The package whose second record has these uses.
macro_rules! using {
    ($uses:expr) => {
        AskedPackage {
            records: &[
                RECORD,
                AskedRecord {
                    uses: $uses,
                    ..RECORD
                },
            ],
            ..PACKAGE
        }
    };
}

static USES: [Asking<'static>; 7] = [
    ("not there", using!(&[1]), Some(AskedFault::Uses)),
    ("one twice", using!(&[0, 0]), Some(AskedFault::Uses)),
    ("falling", using!(&[1, 0]), Some(AskedFault::Uses)),
    ("rising, not there", using!(&[0, 1]), Some(AskedFault::Uses)),
    (
        "of no components",
        AskedPackage {
            components: &[],
            ..PACKAGE
        },
        Some(AskedFault::Uses),
    ),
    (
        "none of none",
        AskedPackage {
            records: &[AskedRecord {
                uses: &[],
                ..RECORD
            }],
            components: &[],
            ..PACKAGE
        },
        None,
    ),
    (
        "no records",
        AskedPackage {
            records: &[],
            components: &[],
            ..PACKAGE
        },
        None,
    ),
];

#[test]
fn refuses_components_that_do_not_rise_or_are_not_there(rt: HostRuntime) {
    for (situation, package, fault) in &USES {
        assert!(rt; fault_of(package) == *fault, "{situation}");
    }
}

/// Texts of the package, of its record and of its component.
macro_rules! texts {
    ($text:expr, $fault:expr) => {
        [
            (
                "a version",
                AskedPackage {
                    version: $text,
                    ..PACKAGE
                },
                $fault,
            ),
            (
                "a set text",
                AskedPackage {
                    records: &[AskedRecord {
                        set_text: $text,
                        ..RECORD
                    }],
                    ..PACKAGE
                },
                $fault,
            ),
            (
                "a component's text",
                AskedPackage {
                    components: &[AskedComponent {
                        text: $text,
                        ..COMPONENT
                    }],
                    ..PACKAGE
                },
                $fault,
            ),
        ]
    };
}

static TEXTS: [[Asking<'static>; 3]; 2] = [
    texts!(&[b'x'; 255], None),
    texts!(&[b'x'; 256], Some(AskedFault::Limit)),
];

#[test]
fn refuses_what_is_too_long(rt: HostRuntime) {
    for rows in &TEXTS {
        for (situation, package, fault) in rows {
            assert!(rt; fault_of(package) == *fault, "{situation}");
        }
    }
}

/// The package of these records and components, without a version text.
fn asked<'a>(
    records: &'a [AskedRecord<'a>],
    components: &'a [AskedComponent<'a>],
) -> AskedPackage<'a> {
    AskedPackage {
        release: [0; 13],
        version: b"",
        records,
        components,
    }
}

/// The fault of a package whose record has these descriptors.
fn fault_with(descriptors: &[Descriptor<'_>]) -> Option<AskedFault> {
    let record = AskedRecord {
        descriptors,
        ..RECORD
    };
    fault_of(&asked(&[record], &[COMPONENT]))
}

/// The fault of a package with these records.
fn fault_of_records(records: &[AskedRecord<'_>]) -> Option<AskedFault> {
    fault_of(&asked(records, &[COMPONENT]))
}

#[test]
fn refuses_what_is_too_many(rt: HostRuntime) {
    let descriptors = [FIRST; 256];
    assert!(rt; fault_with(&descriptors[..255]).is_none());
    assert!(rt; fault_with(&descriptors) == Some(AskedFault::Limit));
    let records = [RECORD; 256];
    assert!(rt; fault_of_records(&records[..255]).is_none());
    assert!(rt; fault_of_records(&records) == Some(AskedFault::Limit));
}

/// Bytes for values of the greatest length.
static LONG: [u8; 65_535] = [b'x'; 65_535];

#[test]
fn refuses_a_header_of_more_than_its_size_can_tell(rt: HostRuntime) {
    let longest = Descriptor {
        kind: 0,
        bytes: &LONG[..65_535 - 84],
    };
    let longer = Descriptor {
        kind: 0,
        bytes: &LONG[..65_535 - 83],
    };
    assert!(rt; fault_with(&[longest]).is_none());
    assert!(rt; fault_with(&[longer]) == Some(AskedFault::Limit));
}

/// The fault of a package whose second component has an image of this size.
fn fault_of_size(size: usize) -> Option<AskedFault> {
    let large = AskedComponent { size, ..COMPONENT };
    fault_of(&asked(&[RECORD], &[COMPONENT, large]))
}

/// The most bytes of a file with two components, without the second one's image.
const ROOM: usize = 4_294_967_295 - 110 - 241;

#[test]
fn refuses_a_file_of_more_than_an_offset_can_tell(rt: HostRuntime) {
    assert!(rt; fault_of_size(ROOM).is_none());
    assert!(rt; fault_of_size(ROOM + 1) == Some(AskedFault::Limit));
    assert!(rt; fault_of_size(usize::MAX) == Some(AskedFault::Limit));
}
