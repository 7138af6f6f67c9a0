//! Lines of packets, and the lines of their answers.

use fwupd_base::answer_stream;
use std::alloc::Global;
use uuid::Uuid;

/// A stream of lines to the device 9: its name, its text, and the text of the answers.
type Exchange<'a> = (&'a str, &'a [u8], &'a [u8]);

static EXCHANGES: [Exchange<'static>; 13] = [
    (
        "Get Endpoint ID",
        b"010908C8008002\n",
        b"010809C000000200090100\n",
    ),
    (
        "a command that isn't known",
        b"010908C800800F\n",
        b"010809C000000F05\n",
    ),
    ("digits of odd number", b"01090\n", b"drop Hex\n"),
    ("header version 2", b"020908C8008002\n", b"drop Version\n"),
    ("an empty line", b"\n", b"drop Short\n"),
    (
        "another destination",
        b"010A08C8008002\n",
        b"drop Destination\n",
    ),
    (
        "a first packet alone",
        b"01090888008002\n",
        b"drop NotWhole\n",
    ),
    (
        "Set Endpoint ID to 10",
        b"010908C8008101000A\n",
        b"010809C000010100100900\n",
    ),
    (
        "Get MCTP Version Support",
        b"010908CA008204FF\n",
        b"010809C20002040001F1F3F100\n",
    ),
    (
        "GetPLDMTypes",
        b"010908C901810004\n",
        b"010809C101010004002100000000000000\n",
    ),
    (
        "GetPLDMCommands of type 0",
        b"010908CA018200050000000000\n",
        b"010809C20102000500360000000000000000000000000000000000000000000000\
        0000000000000000\n",
    ),
    (
        "a last line without a line feed",
        b"010908C8008002",
        b"010809C000000200090100\n",
    ),
    (
        "SetTID 5 and GetTID, types 5 and 3, a base command that isn't known, a datagram",
        b"010908C80180000105\n010908c901810002\n010908CA01820501\n010908CA01820301\n\
        010908CB01830009\n010908C801C00002\n",
        b"010809C00100000100\n010809C1010100020005\n010809C20102050104\n010809C20102030120\n\
        010809C30103000905\ndrop Message\n",
    ),
];

/// Whether the answers of the device 9 to this text are these.
fn is_answered(alloc: Global, text: &[u8], answers: &[u8]) -> bool {
    let mut reader = text;
    let mut written = Vec::new(alloc);
    answer_stream(alloc, &mut reader, &mut written, 9, Uuid::nil()).is_ok()
        && written.as_slice() == answers
}

#[test]
fn lines_are_answered_in_order(rt: HostRuntime) {
    for (situation, text, answers) in &EXCHANGES {
        assert!(rt; is_answered(rt.alloc(), text, answers), "{situation}");
    }
}
