//! The worked package, and endpoints.

use fw_package::{Package, PackageFault};
use mctp_ctl::Endpoint;
use std::alloc::{AllocError, Global};
use uuid::Uuid;

/// The header of the worked package: one record of the descriptor 0000 with data 34 12, set text
/// `A`, and component (10, 1) with stamp 2, options 0002, text `v2` and 241 bytes.
const HEADER: &[u8] = &[
    0xF0, 0x18, 0x87, 0x8C, 0xCB, 0x7D, 0x49, 0x43, 0x98, 0, 0xA0, 0x2F, 0x05, 0x9A, 0xCA, 0x02,
    0x01, 0x56, 0, 0, 0, 0, 0, 0, 0, 0, 0, 0, 0, 0, 0, 0, 0x08, 0, 0x01, 0, 0x01, 0x13, 0, 0x01, 0,
    0, 0, 0, 0x01, 0x01, 0, 0, 0x01, 0x41, 0, 0, 0x02, 0, 0x34, 0x12, 0x01, 0, 0x0A, 0, 0x01, 0,
    0x02, 0, 0, 0, 0x02, 0, 0, 0, 0x56, 0, 0, 0, 0xF1, 0, 0, 0, 0x01, 0x02, 0x76, 0x32, 0xFE, 0x65,
    0x62, 0x75,
];

/// The file of the worked package: its header and its image, whose byte i is i.
pub fn file(alloc: Global) -> Result<Vec<u8>, AllocError> {
    let mut out = Vec::new(alloc);
    out.extend_from_slice(HEADER)?;
    for byte in 0..=240 {
        out.push(byte)?;
    }
    Ok(out)
}

/// `Package::read`; its contract isn't needed in the proofs of the tests.
pub fn package(bytes: &[u8]) -> Result<Package<'_>, PackageFault> {
    Package::read(bytes)
}

/// An endpoint without a UUID.
pub fn endpoint(eid: u8) -> Endpoint {
    Endpoint {
        eid,
        uuid: Uuid::nil(),
    }
}
