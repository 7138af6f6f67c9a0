//! Packets that are found while they are alive.

use crate::tests::setup::{DEVICE, Small, start, step};
use fw_edge::heard;
use fw_world::{Missed, Step};
use mctp_wire::RawPacket;

/// QueryDeviceIdentifiers from 8 to 9: the first packet of an update, sent at tick 1, and, without
/// an answer, again at 7 and 13.
static QUERY: [u8; 8] = [0x01, 0x09, 0x08, 0xC8, 0x01, 0x80, 0x05, 0x01];

/// Passes `ticks` ticks.
fn wait(world: &mut Small<'_>, ticks: u32) {
    for _ in 0..ticks {
        let _ = step(world, &Step::Tick(Missed::new()));
    }
}

/// A case: the number of ticks that pass, the number of the packet that is then found, and the
/// number of dead packets.
static AGES: [(&str, u32, Option<usize>, usize); 7] = [
    ("sent", 1, Some(1), 0),
    ("5 ticks old", 5, Some(1), 0),
    ("sent again", 1, Some(2), 0),
    ("the first is 9 ticks old", 3, Some(2), 1),
    ("sent a third time", 3, Some(3), 1),
    ("the third is 8 ticks old", 8, Some(3), 2),
    ("the third is 9 ticks old", 1, None, 3),
];

/// Returns whether each packet of the worked update is found at each age, and only between its
/// ends.
pub fn is_heard(world: &mut Small<'_>) -> bool {
    let mut query = RawPacket::new();
    let _ = query.try_extend_from_slice(&QUERY);
    if !start(world, DEVICE) {
        return false;
    }
    for (_, ticks, number, dead) in &AGES {
        wait(world, *ticks);
        if heard(world, DEVICE, &query) != *number
            || heard(world, 10, &query).is_some()
            || world.dead_packets(DEVICE) != *dead
        {
            return false;
        }
    }
    true
}
