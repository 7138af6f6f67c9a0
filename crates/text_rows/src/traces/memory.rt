//! Refused memory.

use super::rows::{BOTH_LINES, BOTH_WAYS};
use fw_trace::{PacketReader, Sent, push_lines};
use mctp_wire::{MAX_PACKET, Unit};

/// A message in two packets of 64 bytes and one: `type 5A`, and its digits.
static TWO_PARTS: [(u8, usize); 2] = [(0x88, 64), (0x58, 1)];

/// A line for which memory is refused is lost, and the reader has read its packet. Whichever single
/// allocation is refused, the test holds.
#[test]
fn refused_memory_leaves_the_reader_going_on(rt: HostRuntime) {
    let mut reader = PacketReader::new(Unit::U64, 8, 9);
    let mut told = 0usize;
    for &(flags, size) in &TWO_PARTS {
        let mut bytes = [0x5Au8; MAX_PACKET];
        bytes[..4].copy_from_slice(&[1, 9, 8, flags]);
        let mut text = Vec::new(rt.alloc());
        let packet = bytes.get(..size.saturating_add(4)).unwrap_or(&[]);
        if reader
            .push_line(rt.alloc(), &mut text, 1, 1, packet)
            .is_err()
        {
            continue;
        }
        told = told.saturating_add(1);
        let wanted: &[u8] = if size == 64 {
            b"1 9 1 8 > 9 tag 0 part 0 of 64 bytes\n"
        } else {
            b"1 9 1 8 > 9 tag 0 type 5A 5A"
        };
        assert!(rt; text.as_slice().starts_with(wanted));
    }
    assert!(rt; told >= 1);
}

/// Whichever single allocation is refused, the test holds.
#[test]
fn refused_memory_tells_no_list(rt: HostRuntime) {
    let mut text = Vec::new(rt.alloc());
    let mut reader = PacketReader::new(Unit::U64, 8, 9);
    let packets: &[Sent<'_>] = &BOTH_WAYS;
    if push_lines(rt.alloc(), &mut text, &mut reader, packets).is_ok() {
        assert!(rt; text.as_slice() == BOTH_LINES);
    }
}
