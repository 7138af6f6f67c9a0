//! Messages as they are created.

use mctp_reasm::{Message, MessageFault};
use mctp_wire::Unit;

/// Whether a message of `size` bytes is created with its contents, or the fault.
fn is_made(unit: Unit, size: usize) -> Result<bool, MessageFault> {
    let bytes = [0x5A; 513];
    let bytes = bytes.get(..size).unwrap_or(&[]);
    let message = match Message::new(unit, 9, 8, true, 3, bytes) {
        Ok(message) => message.again(),
        Err(fault) => return Err(fault),
    };
    let route = [message.dest(), message.source(), message.tag()];
    Ok(route == [9, 8, 3] && message.to() && message.bytes() == bytes)
}

static ROWS: [(Unit, usize, Result<bool, MessageFault>); 8] = [
    (Unit::U64, 0, Err(MessageFault::Empty)),
    (Unit::U64, 1, Ok(true)),
    (Unit::U64, 256, Ok(true)),
    (Unit::U64, 257, Err(MessageFault::TooLong)),
    (Unit::U128, 0, Err(MessageFault::Empty)),
    (Unit::U128, 1, Ok(true)),
    (Unit::U128, 512, Ok(true)),
    (Unit::U128, 513, Err(MessageFault::TooLong)),
];

#[test]
fn a_message_has_1_byte_to_four_packets(rt: HostRuntime) {
    for (unit, size, made) in &ROWS {
        assert!(rt; is_made(*unit, *size) == *made, "{size}");
    }
}
