//! What joins a process to its peers, and the clock of a machine.

ghost use Rattle.std.specs.Prelude.{[], ◌≡◌, ◌<◌, ◌-◌, ◌^◌, ◌∷◌, List, None, Option, map, ℕ};
ghost use Rattle.exch_lane.specs.Lanes.{Sent};
ghost use Rattle.exch_lane.specs.Steps.{sent_at};
ghost use Rattle.fw_process.specs.Processes.{LineCall, LineOf, line_with, none_known, receive_call, shows};

use fw_node::Outbox;
use mctp_wire::RawPacket;

/// What joins a process to its peers: packets come over it, each with its stamp, the unit in which
/// it was sent, and packets are sent. What is sent may be lost. In contracts, `known l` is what a
/// process did with a line `l`, if the line knows it.
pub trait Line {
    ghost known: { Self → LineOf } = { λ _. none_known };

    /// Puts the next packet that came into `packet`, and returns its stamp. `None` if nothing is
    /// there now; it doesn't wait.
    fn receive(&mut self, packet: &mut RawPacket) -> Option<u32>
        ensures { known self.new ≡ line_with (known self.old) (receive_call result packet.new.items ∷ []) [] };

    /// Sends a packet in a unit.
    fn send(&mut self, unit: u32, packet: &RawPacket)
        ensures { known self.new ≡ line_with (known self.old) [] (sent_at unit packet.now.items ∷ []) };

    /// Begins a round in a unit: what comes next is asked for in this unit.
    fn begin_round(&mut self, unit: u32)
        ensures { known self.new ≡ line_with (known self.old) (LineCall.Begins unit ∷ []) [] };
}

/// The clock of a machine, which all its processes share. It counts units from 0 to 2^32 - 1. In
/// contracts, `shown c` is the list of the units that a clock `c` showed, if it knows it.
pub trait Clock {
    ghost shown: { Self → Option (List ℕ) } = { λ _. None };

    /// Waits until the clock shows a unit past this one, and returns the unit that it shows.
    fn wait_past(&mut self, unit: u32) -> u32
        requires { unit < 2 ^ 32 - 1 }
        ensures past { unit < result }
        ensures shown { shown self.new ≡ shows (shown self.old) (result ∷ []) };
}

/// Sends all packets of a call, in the unit of the call. None are left.
#[tactic(auto, using(crate::proofs::Rounds::sends_next, crate::proofs::Rounds::line_none))]
pub fn send_all<L: Line>(line: &mut L, unit: u32, outbox: &mut Outbox)
    ensures line { L.known line.new ≡ line_with (L.known line.old) [] (map (sent_at unit) outbox.old) }
    ensures outbox { outbox.new ≡ [] }
{
    while let Some(packet) = outbox.pop() {
        line.send(unit, &packet);
    }
}
