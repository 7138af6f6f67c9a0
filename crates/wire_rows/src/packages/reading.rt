//! The worked package, decoded.

use super::drafts::{sum_by_bits, worked, worked_rest};
use fw_package::{Component, Package, Record, crc32};

/// The fields of a component in the header, in order, with its image's length.
fn fields(component: &Component<'_>) -> [usize; 7] {
    [
        usize::from(component.classification),
        usize::from(component.identifier),
        component.stamp as usize,
        usize::from(component.options),
        component.offset,
        usize::from(component.text.kind),
        component.image.len(),
    ]
}

/// The numbers of the components that a record uses, one digit each, counted from 0.
pub fn uses(record: Record<'_>) -> usize {
    let mut digits: usize = 9;
    for component in record.uses {
        digits = digits % 1000 * 10 + usize::from(component);
    }
    digits
}

/// Whether these are the records and components of the worked package.
fn is_worked(file: &[u8]) -> bool {
    let Ok(package) = Package::read(file) else {
        return false;
    };
    if package.component_count() != 2 || package.record_count() != 2 {
        return false;
    }
    uses(package.record_at(0)) == 901
        && uses(package.record_at(1)) == 91
        && fields(&package.component_at(0)) == [10, 1, 0xFFFF_FFFF, 0, 134, 1, 0]
        && fields(&package.component_at(1)) == [10, 2, 7, 2, 134, 1, 300]
}

/// The image of the second component: it outlives the package decoded from the file.
fn image_alone(file: &[u8]) -> &[u8] {
    let Ok(package) = Package::read(file) else {
        return &[];
    };
    if package.component_count() < 2 {
        return &[];
    }
    let image = package.image(1);
    drop(package);
    image
}

/// Whether that file decodes, with the checksum that other software writes into its header.
fn is_read(file: &[u8]) -> bool {
    file.len() == 439
        && is_worked(file)
        && Some(image_alone(file)) == worked_rest().get(..300)
        && file.get(130..134) == Some([0xB4, 0xC2, 0xE1, 0x5F].as_slice())
}

#[test]
fn reads_the_worked_package(rt: HostRuntime) {
    assert!(rt; is_read(worked().as_slice()));
}

/// The check value of CRC-32.
const CHECK: u32 = 0xCBF4_3926;

#[test]
fn computes_the_check_value(rt: HostRuntime) {
    assert!(rt; crc32(b"123456789") == CHECK);
    // the tests' own checksum, with which they sign packages
    assert!(rt; sum_by_bits(b"123456789") == CHECK);
}
