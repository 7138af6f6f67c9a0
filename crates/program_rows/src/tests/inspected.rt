//! The package of two records and two components, inspected as a whole, changed and cut off.

use fw_package::PackageFault;
use fwupd_base::{InspectFault, inspect};
use std::alloc::Global;

/// The package's header: bitmaps of 8 bits and the text `pkg`; records with the set texts `A` and
/// `B`; component (10, 1) without a stamp and an image, and component (10, 2) with stamp 7, options
/// 2 and an image of 300 bytes. Its checksum is computed by another program.
static HEADER: [u8; 134] = [
    0xF0, 0x18, 0x87, 0x8C, 0xCB, 0x7D, 0x49, 0x43, 0x98, 0x00, 0xA0, 0x2F, 0x05, 0x9A, 0xCA, 0x02,
    0x01, 0x86, 0x00, 0x00, 0x00, 0x00, 0x00, 0x00, 0x00, 0x00, 0x00, 0x00, 0x00, 0x00, 0x00, 0x00,
    0x08, 0x00, 0x01, 0x03, 0x70, 0x6B, 0x67, 0x02, 0x13, 0x00, 0x01, 0x00, 0x00, 0x00, 0x00, 0x01,
    0x01, 0x00, 0x00, 0x03, 0x41, 0x00, 0x00, 0x02, 0x00, 0x34, 0x12, 0x15, 0x00, 0x01, 0x00, 0x00,
    0x00, 0x00, 0x01, 0x01, 0x00, 0x00, 0x02, 0x42, 0x01, 0x00, 0x04, 0x00, 0x78, 0x56, 0x34, 0x12,
    0x02, 0x00, 0x0A, 0x00, 0x01, 0x00, 0xFF, 0xFF, 0xFF, 0xFF, 0x00, 0x00, 0x00, 0x00, 0x86, 0x00,
    0x00, 0x00, 0x00, 0x00, 0x00, 0x00, 0x01, 0x02, 0x76, 0x31, 0x0A, 0x00, 0x02, 0x00, 0x07, 0x00,
    0x00, 0x00, 0x02, 0x00, 0x00, 0x00, 0x86, 0x00, 0x00, 0x00, 0x2C, 0x01, 0x00, 0x00, 0x01, 0x02,
    0x76, 0x32, 0x3C, 0xC8, 0x3D, 0x23,
];

/// The output for the package.
static TEXT: &[u8] = b"package header 134 records 2 components 2\n\
    record 1 flags 00000000 set \"A\" uses 1 2\n\
    descriptor 0000 3412\n\
    record 2 flags 00000000 set \"B\" uses 2\n\
    descriptor 0001 78563412\n\
    component 1 class 10 ident 1 stamp FFFFFFFF options 0000 offset 134 size 0 version \"v1\"\n\
    component 2 class 10 ident 2 stamp 00000007 options 0002 offset 134 size 300 version \"v2\"\n";

/// The package with this first byte of the release time: its header, an image of 300 bytes, and 5
/// bytes more.
fn package(release: u8) -> [u8; 439] {
    let mut file = [0; 439];
    for (to, from) in file.iter_mut().zip(&HEADER) {
        *to = *from;
    }
    file[19] = release;
    file
}

/// A case: the first byte of the release time, the length to which the file is cut, and the fault,
/// if any.
type Inspection<'a> = (&'a str, u8, usize, Option<PackageFault>);

static INSPECTIONS: [Inspection<'static>; 5] = [
    ("the whole package", 0, 439, None),
    (
        "one bit of the release time turned",
        1,
        439,
        Some(PackageFault::Checksum),
    ),
    ("cut to 433 bytes", 0, 433, Some(PackageFault::ImageRange)),
    ("cut to 100 bytes", 0, 100, Some(PackageFault::HeaderSize)),
    ("the empty file", 0, 0, Some(PackageFault::Short)),
];

/// Whether the inspection of the bytes prints the package, or is refused with this fault, if one is
/// given.
fn is_inspected(alloc: Global, bytes: &[u8], fault: Option<PackageFault>) -> bool {
    match inspect(alloc, bytes) {
        Ok(text) => fault.is_none() && text.as_slice() == TEXT,
        Err(found) => fault.map(InspectFault::Package) == Some(found),
    }
}

#[test]
fn a_package_is_printed_or_refused_by_name(rt: HostRuntime) {
    for (situation, release, length, fault) in &INSPECTIONS {
        let file = package(*release);
        let bytes = &file[..(*length).min(file.len())];
        assert!(rt; is_inspected(rt.alloc(), bytes, *fault), "{situation}");
    }
}
