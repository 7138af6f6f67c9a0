//! Random bytes as packets.

use fw_trace::{PacketReader, TraceLines, decode_file_in};
use mctp_wire::{RawPacket, Unit};
use rand_core::utils::NextWord;
use rand_pcg::Pcg32;
use std::alloc::{AllocError, Global};

/// The number of packets.
const PACKETS: usize = 4_000;

/// A random number below `bound`.
fn below(random: &mut Pcg32, bound: u32) -> u8 {
    let word = random.next_word();
    (word.checked_rem(bound).unwrap_or(0) % 256) as u8
}

/// Random bytes. The first four are mostly those of a packet between the ends, and the next ones
/// those of a message's head.
fn random_packet(random: &mut Pcg32) -> RawPacket {
    let mut bytes = RawPacket::new();
    let size = below(random, 74);
    for place in 0..size {
        let byte = match (place, below(random, 8)) {
            (_, 0) => below(random, 256),
            (0, _) => 1,
            (1, _) => 9,
            (2, _) => 8,
            (3, _) => 0xC0 | below(random, 64),
            (4, _) => below(random, 3),
            (5, _) => below(random, 2) << 7,
            (6, _) => below(random, 2).wrapping_mul(5),
            (7, _) => below(random, 0x1F),
            _ => below(random, 3),
        };
        let _ = bytes.try_push(byte);
    }
    bytes
}

/// Whether a text begins with a number and the text between source and destination.
fn has_ends(line: &[u8]) -> bool {
    for (place, byte) in line.iter().enumerate() {
        if !byte.is_ascii_digit() {
            return place > 0 && line[place..].starts_with(b" > ");
        }
    }
    false
}

/// Whether a text is one line of plain characters that begins as the line of packet `number`.
fn is_line(alloc: Global, text: &[u8], number: usize) -> bool {
    let Ok(start) = format!(in alloc; "3 9 {number} ") else {
        return false;
    };
    let Some(rest) = text.strip_prefix(start.as_bytes()) else {
        return false;
    };
    let [line @ .., b'\n'] = rest else {
        return false;
    };
    for byte in line {
        if !(b' '..=b'~').contains(byte) {
            return false;
        }
    }
    line.starts_with(b"bytes ") || has_ends(line)
}

/// The number of random packets, one after the other, that get a line.
fn lines_of_randoms(alloc: Global, unit: Unit, seed: u64) -> usize {
    let mut random = Pcg32::new(seed, 54);
    let mut reader = PacketReader::new(unit, 8, 9);
    let mut text = Vec::new(alloc);
    for number in 1..=PACKETS {
        let bytes = random_packet(&mut random);
        text.clear();
        let told = reader.push_line(alloc, &mut text, 3, number, bytes.as_slice());
        if told.is_err() || !is_line(alloc, text.as_slice(), number) {
            return number;
        }
    }
    PACKETS
}

#[test]
fn random_bytes_get_lines(rt: HostRuntime) {
    assert!(rt; lines_of_randoms(rt.alloc(), Unit::U64, 42) == PACKETS);
    assert!(rt; lines_of_randoms(rt.alloc(), Unit::U128, 7) == PACKETS);
}

/// The number of random lines.
const LINES: usize = 100_000;

/// The bytes that random lines are mostly made of.
const PLAIN: &[u8] = b"0123456789ABCDEFabcdef 0123456789 to-device to-agent 0109080C";

/// Appends a random line: mostly digits, or words of a trace.
fn push_random_line(random: &mut Pcg32, text: &mut Vec<u8>) -> Result<(), AllocError> {
    let begins: &[u8] = match below(random, 4) {
        0 => b"010908C",
        1 => b"7 9 to-device 010908",
        2 => b"8 12 to-agent 01080C",
        _ => b"",
    };
    text.extend_from_slice(begins)?;
    for _ in 0..below(random, 40) {
        let place = usize::from(below(random, 60));
        let byte = match below(random, 50) {
            0 => below(random, 256),
            _ => PLAIN.get(place).copied().unwrap_or(b'0'),
        };
        if byte != b'\n' {
            text.push(byte)?;
        }
    }
    text.push(b'\n')?;
    Ok(())
}

/// Whether a line is that of an input.
fn is_input_line(line: &[u8]) -> bool {
    for byte in line {
        if !(b' '..=b'~').contains(byte) {
            return false;
        }
    }
    match line {
        [] => true,
        [first, ..] => {
            line.starts_with(b"drop ") || line.starts_with(b"- ") || first.is_ascii_digit()
        }
    }
}

/// The random lines.
fn random_lines(alloc: Global) -> Result<Vec<u8>, AllocError> {
    let mut random = Pcg32::new(7, 54);
    let mut lines = Vec::new(alloc);
    for _ in 0..LINES {
        push_random_line(&mut random, &mut lines)?;
    }
    Ok(lines)
}

/// Whether a text is a line for each random line.
fn are_input_lines(text: &[u8]) -> bool {
    let mut count = 0usize;
    for line in text.split(|byte| *byte == b'\n') {
        if !is_input_line(line) {
            return false;
        }
        count = count.saturating_add(1);
    }
    count == LINES + 1
}

#[test]
fn each_random_line_gets_a_line(rt: HostRuntime) -> Result<(), AllocError> {
    let lines = random_lines(rt.alloc())?;
    let text = decode_file_in(rt.alloc(), Unit::U64, &TraceLines, &lines)?;
    assert!(rt; are_input_lines(&text));
    Ok(())
}
