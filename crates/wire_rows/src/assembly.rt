//! Assemblies of packets.

use mctp_reasm::{Assembly, DropCause, Fed};
use mctp_wire::{RawPacket, Unit, decode};

/// The fourth byte of a packet from 8 to 9 under tag 3, and the size of its body in bytes at a unit
/// of 64; 63 and 64 are a byte less than the unit, and the unit. With no body, a number of ticks.
type Step = (u8, usize);

/// The size of a body at a unit.
fn at_unit(unit: Unit, size: usize) -> usize {
    match unit {
        Unit::U64 => size,
        Unit::U128 => {
            if size < 63 {
                size
            } else {
                size.saturating_add(64)
            }
        }
    }
}

/// Feeds a packet with a body of `size` equal bytes.
fn fed(unit: Unit, assembly: &mut Assembly, flags: u8, size: usize, byte: u8) -> Option<Fed> {
    let mut bytes = RawPacket::new();
    let _ = bytes.try_extend_from_slice(&[0x01, 9, 8, flags]);
    for _ in 0..at_unit(unit, size) {
        let _ = bytes.try_push(byte);
    }
    let Ok(packet) = decode(unit, bytes.as_slice()) else {
        return None;
    };
    let is_packet = packet.head.tag <= 7
        && !packet.body.is_empty()
        && packet.body.len() <= assembly.unit().bytes();
    if is_packet && assembly.is_for(&packet) {
        Some(assembly.feed(&packet))
    } else {
        None
    }
}

/// The result of a step, as a letter: O open, W whole, or that of the drop's cause; a point for
/// ticks.
fn letter(unit: Unit, assembly: &mut Assembly, step: Step) -> u8 {
    let (flags, size) = step;
    if size == 0 {
        for _ in 0..flags {
            assembly.tick();
        }
        return b'.';
    }
    match fed(unit, assembly, flags, size, 0x5A) {
        None => b'?',
        Some(Fed::Open) => b'O',
        Some(Fed::Whole(_)) => b'W',
        Some(Fed::Dropped(DropCause::NoStart)) => b'N',
        Some(Fed::Dropped(DropCause::Sequence)) => b'Q',
        Some(Fed::Dropped(DropCause::Unit)) => b'U',
        Some(Fed::Dropped(DropCause::StartNumber)) => b'S',
        Some(Fed::Dropped(DropCause::FifthPacket)) => b'F',
    }
}

/// The step that two bytes encode.
fn step_of(bytes: &[u8]) -> Step {
    match bytes {
        [flags, size] => (*flags, *size as usize),
        _ => (0, 0),
    }
}

/// Whether the steps, one after the other, have these results.
fn come(unit: Unit, steps: &[u8], letters: &[u8]) -> bool {
    let mut assembly = Assembly::new(unit);
    for (step, wanted) in steps.chunks_exact(2).zip(letters) {
        if letter(unit, &mut assembly, step_of(step)) != *wanted {
            return false;
        }
    }
    steps.len() % 2 == 0 && steps.len() / 2 == letters.len()
}

/// A case: its steps, two bytes each, and the letters of their results. The packets of a message of
/// 256 bytes are 8B, 1B, 2B and 7B, each with a body of 0x40 bytes, which is 64.
type Row<'a> = (&'a str, &'a [u8], &'a [u8]);

static ROWS: [Row<'static>; 16] = [
    ("in order", b"\x8B\x40\x1B\x40\x2B\x40\x7B\x40", b"OOOW"),
    ("one twice", b"\x8B\x40\x1B\x40\x1B\x40\x2B\x40", b"OOQN"),
    ("one left out", b"\x8B\x40\x2B\x40", b"OQ"),
    ("no first", b"\x1B\x40", b"N"),
    (
        "begun anew",
        b"\x8B\x40\x1B\x40\x8B\x40\x1B\x40\x2B\x40\x7B\x40",
        b"OOOOOW",
    ),
    ("no time", b"\x8B\x40\x00\x00\x1B\x40", b"O.O"),
    ("eight ticks", b"\x8B\x40\x08\x00\x1B\x40", b"O.O"),
    ("nine ticks", b"\x8B\x40\x09\x00\x1B\x40", b"O.N"),
    ("twenty ticks", b"\x8B\x40\x14\x00\x1B\x40", b"O.N"),
    ("a first packet numbered 1", b"\x9B\x40", b"S"),
    ("the same, with EOM, of one byte", b"\xDB\x01", b"S"),
    ("63 bytes without EOM", b"\x8B\x3F", b"U"),
    ("63 bytes with EOM", b"\xCB\x3F", b"W"),
    ("no start, and not a whole unit", b"\x1B\x3F", b"N"),
    ("a last packet without a start", b"\x5B\x01", b"N"),
    (
        "a fifth packet",
        b"\x8B\x40\x1B\x40\x2B\x40\x3B\x40\x0B\x3F\x1B\x40",
        b"OOOOFN",
    ),
];

#[test]
fn pieces_come_in_their_order_or_not(rt: HostRuntime) {
    for (situation, steps, letters) in &ROWS {
        for unit in [Unit::U64, Unit::U128] {
            assert!(rt; come(unit, steps, letters), "{situation}");
        }
    }
}

/// Whether a message of one byte more than the unit is assembled if it begins within another, and
/// nothing is left after that is dropped.
fn takes_its_place(unit: Unit) -> bool {
    let mut assembly = Assembly::new(unit);
    let _ = fed(unit, &mut assembly, 0x8B, 64, 7);
    let _ = fed(unit, &mut assembly, 0x8B, 64, 1);
    let Some(Fed::Whole(message)) = fed(unit, &mut assembly, 0x5B, 1, 1) else {
        return false;
    };
    let _ = fed(unit, &mut assembly, 0x8B, 64, 7);
    assembly.clear();
    Some(message.bytes()) == [1; 129].get(..unit.bytes() + 1)
        && letter(unit, &mut assembly, (0x1B, 64)) == b'N'
}

#[test]
fn a_message_begun_inside_another_takes_its_place(rt: HostRuntime) {
    assert!(rt; takes_its_place(Unit::U64) && takes_its_place(Unit::U128));
}
