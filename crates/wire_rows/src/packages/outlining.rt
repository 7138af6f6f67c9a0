//! The outline of the worked package, decoded from its header and its file's length.

use super::drafts::worked;
use super::reading::uses;
use fw_package::{Outline, PackageFault, Place};

/// The sizes of the worked package's header and of its whole file, in bytes.
const HEADER: usize = 134;

const WHOLE: usize = 439;

/// The fields of a component in the header, in order.
fn fields(place: &Place<'_>) -> [usize; 8] {
    [
        usize::from(place.classification),
        usize::from(place.identifier),
        place.stamp as usize,
        usize::from(place.options),
        usize::from(place.method),
        place.offset,
        usize::from(place.text.kind),
        place.size,
    ]
}

/// Whether these are the components of the worked package.
fn has_places(outline: &Outline<'_>) -> bool {
    let mut places = outline.places();
    let Some(first) = places.next() else {
        return false;
    };
    let Some(second) = places.next() else {
        return false;
    };
    places.next().is_none()
        && fields(&first) == [10, 1, 0xFFFF_FFFF, 0, 0, 134, 1, 0]
        && fields(&second) == [10, 2, 7, 2, 0, 134, 1, 300]
        && first.text.bytes == b"v1".as_slice()
        && second.text.bytes == b"v2".as_slice()
}

/// Whether these are the records of the worked package.
fn has_records(outline: &Outline<'_>) -> bool {
    let mut records = outline.records();
    let Some(first) = records.next() else {
        return false;
    };
    let Some(second) = records.next() else {
        return false;
    };
    records.next().is_none() && uses(first) == 901 && uses(second) == 91
}

/// The outline of the first `size` bytes of the worked package, in a file of `file_length` bytes.
fn outline_of(file: &[u8], size: usize, file_length: usize) -> Result<Outline<'_>, PackageFault> {
    Outline::read(&file[..size.min(file.len())], file_length)
}

/// Whether it is that of the worked package.
fn is_worked(file: &[u8], size: usize, file_length: usize) -> bool {
    let Ok(outline) = outline_of(file, size, file_length) else {
        return false;
    };
    outline.header_size() == HEADER
        && outline.release() == [0x15; 13].as_slice()
        && outline.version().kind == 1
        && outline.version().bytes == b"pkg".as_slice()
        && outline.record_count() == 2
        && outline.place_count() == 2
        && has_records(&outline)
        && has_places(&outline)
}

/// Its fault, if any.
fn fault_of(file: &[u8], size: usize, file_length: usize) -> Option<PackageFault> {
    outline_of(file, size, file_length).err()
}

#[test]
fn outlines_the_worked_package_by_its_header(rt: HostRuntime) {
    let file = worked();
    let file = file.as_slice();
    assert!(rt; file.len() == WHOLE && is_worked(file, WHOLE, WHOLE));
    assert!(rt; is_worked(file, HEADER, WHOLE));
    // its second image ends at byte 434, and the file may end there
    assert!(rt; is_worked(file, HEADER, 434));
}

#[test]
fn refuses_what_an_outline_lacks(rt: HostRuntime) {
    let file = worked();
    let file = file.as_slice();
    assert!(rt; fault_of(file, HEADER, 433) == Some(PackageFault::ImageRange));
    assert!(rt; fault_of(file, HEADER - 1, WHOLE) == Some(PackageFault::HeaderSize));
    assert!(rt; fault_of(file, 35, WHOLE) == Some(PackageFault::Short));
}
