//! Finds the sent packet that a received frame carries.

ghost use Rattle.std.specs.Prelude.{◌≡◌, IsSomeAnd, false, slice_get, true};
ghost use Rattle.fw_steps.specs.Dead.{AreDead};
ghost use Rattle.fw_edge.specs.Hearing.{IsHeard, IsLastLiving, LivesWith};

use fd_core::Bank;
use fw_world::{SentPackets, World};
use mctp_wire::RawPacket;

/// Returns the number of the pair's last living packet with these bytes, or none if there is no
/// such packet. `pair` is the device's endpoint identifier; the result is the number that a Deliver
/// step takes. Packets that the world knows to be dead are skipped.
pub fn heard<B: Bank + Drop>(world: &World<'_, B>, pair: u8, packet: &RawPacket) -> Option<usize>
    ensures { IsHeard world.now pair packet.now.items result }
{
    let Some(packets) = world.packets(pair) else {
        return None;
    };
    last_living(&packets, world.dead_packets(pair), world.now(), packet)
}

/// Whether the packet at `place`, counted from 0, is alive at tick `now` and has the bytes of
/// `packet`.
fn is_living(packets: &SentPackets<'_>, place: usize, now: u32, packet: &RawPacket) -> bool
    ensures yes { result ≡ true → IsSomeAnd (slice_get packets.now place) (LivesWith now packet.now.items) }
    ensures no { result ≡ false → IsSomeAnd (slice_get packets.now place) (LivesWith now packet.now.items) → ⊥ }
{
    match packets.get(place) {
        Some(sent) => sent.lives(now) && sent.bytes == packet.as_slice(),
        None => false,
    }
}

/// The number of the last living packet with the bytes of `packet`. The first `dead` packets are
/// dead.
fn last_living(
    packets: &SentPackets<'_>,
    dead: usize,
    now: u32,
    packet: &RawPacket,
) -> Option<usize>
    requires { AreDead now dead packets.now }
    ensures { IsLastLiving now packets.now packet.now.items result }
{
    let mut number = packets.len();
    while number > dead {
        if is_living(packets, number - 1, now, packet) {
            return Some(number);
        }
        number -= 1;
    }
    None
}
