//! An endpoint without a device on a serial line. The check sequences are those of a CRC-16/MCRF4XX
//! whose value of "123456789" is 6F91.

use crate::servers::setup::serves_all;
use crate::worked::endpoint;
use fwupd_base::SerialResponder;
use std::test::Fail;

/// The frame of a Get Endpoint ID request to endpoint 9, and that of its answer.
const ASK: &str = "7E0107010908C80080020EB27E";

const TOLD: &str = "7E010B010809C0000002000901008B697E\n";

#[test]
fn each_frame_that_ends_in_a_line_is_answered(rt: HostRuntime) -> Result<(), Fail> {
    let mut serial = SerialResponder::new(rt.alloc(), endpoint(9));
    let lines = [
        (ASK, TOLD),
        ("", ""),
        // noise, half a frame, a line that isn't digits, and the other half
        ("FF7D017E0107010908", ""),
        ("7", "drop Hex\n"),
        ("C80080020EB27E", TOLD),
        // a wrong check sequence
        ("7E0107010908C80080020EB37E", ""),
        // to endpoint 10, of header version 2
        ("7E0107010A08C800800202CF7E", "drop Destination\n"),
        ("7E0107020908C8008002A6DC7E", "drop Version\n"),
    ];
    assert!(rt; serves_all(rt.alloc(), &mut serial, &lines)?);
    Ok(())
}

#[test]
fn the_terminus_identifier_is_kept_and_frames_are_escaped(rt: HostRuntime) -> Result<(), Fail> {
    let mut serial = SerialResponder::new(rt.alloc(), endpoint(9));
    let lines = [
        // SetTID to 7E and GetTID, in one line
        (
            "7E0109010908C9018000017D5E58AD7E7E0108010908CA0181000240F27E",
            "7E0109010809C10100000100D0087E\n7E010A010809C201010002007D5EA49C7E\n",
        ),
    ];
    assert!(rt; serves_all(rt.alloc(), &mut serial, &lines)?);
    Ok(())
}
