//! Packets of any pairs, as lines and as captures, and their expected lines.

use super::rows::parts;
use super::update;
use fw_trace::{TraceLines, capture_header, decode_file_in, push_capture};
use mctp_wire::Unit;
use std::alloc::{AllocError, Global};

/// Lines that are packets of three pairs, and lines that are none.
const LINES: &str = "\
010908C801800501
010809c001000501000600000001000002003412

5 12 to-device 010C08C801800501
010908C90181050
010A08C97E
020908C801
7 12 to-agent 01080CC00100050180
12 to-device 010C08C801800501
7 12 to-node 010C08C801800501
4294967296 12 to-device 010C08C801800501
1 256 to-device 010C08C801800501
 12 to-device 010C08C801800501
7 12 to-device 010C08C8 0180
01090AC97E
8 9 to-device 010908CA7E
010908
0108090000";

/// Their expected lines.
const LINES_TEXT: &str = "\
- 9 1 8 > 9 tag 0 pldm rq 0 QueryDeviceIdentifiers
- 9 2 9 > 8 tag 0 pldm rs 0 QueryDeviceIdentifiers SUCCESS descriptors 1 0000 3412
drop Short
5 12 1 8 > 12 tag 0 pldm rq 0 QueryDeviceIdentifiers
drop Hex
- 10 1 8 > 10 tag 1 type 7E
- 9 3 bytes 020908C801
7 12 2 12 > 8 tag 0 pldm rs 0 QueryDeviceIdentifiers NOT_IN_UPDATE_MODE
drop Fields
drop Fields
drop Number
drop Number
drop Number
drop Hex
- 9 1 10 > 9 tag 1 type 7E
8 9 4 8 > 9 tag 2 type 7E
drop Short
- 9 5 9 > 8 tag 0 drop NoStart
";

/// The text of a file at a unit of 64 bytes, or nothing if memory is refused.
fn decoded(alloc: Global, bytes: &[u8]) -> Vec<u8> {
    match decode_file_in(alloc, Unit::U64, &TraceLines, bytes) {
        Ok(text) => text,
        Err(_) => Vec::new(alloc),
    }
}

/// Whether a file has this text.
fn is_decoded(alloc: Global, bytes: &[u8], text: &[u8]) -> bool {
    decoded(alloc, bytes).as_slice() == text
}

#[test]
fn decodes_lines_of_anybody(rt: HostRuntime) {
    assert!(rt; is_decoded(rt.alloc(), LINES.as_bytes(), LINES_TEXT.as_bytes()));
}

/// What follows a line in a text.
fn after<'a>(text: &'a [u8], line: &str) -> Option<&'a [u8]> {
    text.strip_prefix(line.as_bytes())?
        .strip_prefix(b"\n".as_slice())
}

/// The line of a row.
fn line_of(row: &str) -> &str {
    match parts(row) {
        Some((_, _, line)) => line,
        None => "",
    }
}

/// Whether a text is the lines of the first `count` packets of the update, and then `end`.
fn is_of_update(text: &[u8], count: usize, end: &[u8]) -> bool {
    let mut rest = text;
    for row in update::UPDATE.lines().take(count) {
        match after(rest, line_of(row)) {
            Some(behind) => rest = behind,
            None => return false,
        }
    }
    rest == end
}

/// Whether a packet goes to the agent 8 from the device 9.
fn is_to_agent(digits: &str) -> bool {
    digits.as_bytes().get(4..6) == Some(b"09".as_slice())
}

/// Appends the line of a trace of digits.
fn push_traced(alloc: Global, lines: &mut Vec<u8>, row: &str) -> Result<(), AllocError> {
    let Some((turn, digits, _)) = parts(row) else {
        return Err(AllocError);
    };
    let way = if is_to_agent(digits) {
        "to-agent"
    } else {
        "to-device"
    };
    let line = format!(in alloc; "{turn} 9 {way} {digits}\n")?;
    lines.extend_from_slice(line.as_bytes())
}

/// Appends the packet to a capture.
fn push_captured(alloc: Global, file: &mut Vec<u8>, row: &str) -> Result<(), AllocError> {
    let Some((turn, digits, _)) = parts(row) else {
        return Err(AllocError);
    };
    match hex::decode(alloc, digits) {
        Ok(bytes) => push_capture(file, turn, !is_to_agent(digits), &bytes),
        Err(_) => Err(AllocError),
    }
}

/// The update as a trace of digits.
fn traced(alloc: Global) -> Result<Vec<u8>, AllocError> {
    let mut lines = Vec::new(alloc);
    for row in update::UPDATE.lines() {
        push_traced(alloc, &mut lines, row)?;
    }
    Ok(lines)
}

/// The update as a capture.
fn captured(alloc: Global) -> Result<Vec<u8>, AllocError> {
    let mut file = Vec::new(alloc);
    file.extend_from_slice(capture_header())?;
    for row in update::UPDATE.lines() {
        push_captured(alloc, &mut file, row)?;
    }
    Ok(file)
}

#[test]
fn decodes_a_trace_of_digits(rt: HostRuntime) -> Result<(), AllocError> {
    let lines = traced(rt.alloc())?;
    assert!(rt; is_of_update(&decoded(rt.alloc(), &lines), 27, b""));
    Ok(())
}

/// The first bytes of a file, or all if it has fewer.
fn first(file: &[u8], count: usize) -> &[u8] {
    file.get(..count).unwrap_or(file)
}

/// Whether a capture has the lines of the update, and a part of it those of its whole packets.
fn is_captured(alloc: Global, file: &[u8]) -> bool {
    let cut = first(file, file.len().saturating_sub(1));
    is_of_update(&decoded(alloc, file), 27, b"")
        && is_of_update(&decoded(alloc, cut), 26, b"drop Cut\n")
        && is_decoded(alloc, first(file, 23), b"drop Cut\n")
        && is_decoded(alloc, first(file, 24), b"")
        && is_decoded(alloc, first(file, 25), b"drop Cut\n")
}

#[test]
fn decodes_a_capture_also_cut_off(rt: HostRuntime) -> Result<(), AllocError> {
    let file = captured(rt.alloc())?;
    assert!(rt; is_captured(rt.alloc(), &file));
    Ok(())
}

/// A capture with its highest bytes first, of one record at second 3: a captured size, an original
/// size, the packet type, the protocol, and the packet `010908C87E`.
static BIG: [u8; 61] = [
    0xA1, 0xB2, 0x3C, 0x4D, 0, 2, 0, 4, 0, 0, 0, 0, 0, 0, 0, 0, 0, 0, 0xFF, 0xFF, 0, 0, 0, 113, 0,
    0, 0, 3, 0, 0, 0, 9, 0, 0, 0, 21, 0, 0, 0, 21, 0, 4, 0x01, 0x22, 0, 1, 8, 0, 0, 0, 0, 0, 0, 0,
    0x00, 0xFA, 1, 9, 8, 0xC8, 0x7E,
];

/// Whether that capture has this text with another byte at a place.
fn is_changed(alloc: Global, place: usize, byte: u8, text: &[u8]) -> bool {
    let mut file = BIG;
    if let Some(old) = file.get_mut(place) {
        *old = byte;
    }
    is_decoded(alloc, &file, text)
}

/// A place, another byte there, and the text; the first place is past the end.
static CHANGES: [(usize, u8, &[u8]); 7] = [
    (61, 0, b"3 9 1 8 > 9 tag 0 type 7E\n"),
    (23, 1, b"drop LinkType\n"),
    (55, 0xDD, b"drop Protocol\n"),
    (39, 22, b"drop Cut\n"),
    (35, 22, b"drop Cut\n"),
    (35, 15, b"drop Cut\ndrop Cut\n"),
    (0, 0xA0, b"drop Hex\n"),
];

#[test]
fn decodes_either_order_of_bytes(rt: HostRuntime) {
    for (place, byte, text) in &CHANGES {
        assert!(rt; is_changed(rt.alloc(), *place, *byte, text), "{place}");
    }
}

/// Lines of 1025 pairs, and of the first again.
fn lines_of_pairs(alloc: Global) -> Result<String, AllocError> {
    let mut lines = String::new(alloc);
    for number in 0..1025u32 {
        let (high, low) = (number / 205, number % 205);
        lines.push_str(&format!(in alloc; "01{low:02X}F{high}C87E\n")?)?;
    }
    lines.push_str("0100F0C87E\n")?;
    Ok(lines)
}

/// Whether a text ends with the lines of the last pairs that are distinguished.
fn ends_at_pairs(text: &[u8]) -> bool {
    text.ends_with(b"- 203 1 244 > 203 tag 0 type 7E\ndrop Pairs\n- 0 2 240 > 0 tag 0 type 7E\n")
}

#[test]
fn a_further_pair_than_1024_is_told(rt: HostRuntime) -> Result<(), AllocError> {
    let lines = lines_of_pairs(rt.alloc())?;
    assert!(rt; ends_at_pairs(&decoded(rt.alloc(), lines.as_bytes())));
    Ok(())
}
