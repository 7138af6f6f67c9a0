//! A line behind the front of a node.

ghost use Rattle.std.specs.Prelude.{[], ◌≡◌, ◌∷◌, IfSome, None, is_some, max, not, option_map};
ghost use Rattle.exch_lane.specs.Steps.{sent_at};
ghost use Rattle.fw_process.specs.Processes.{LineCall, line_with};
ghost use Rattle.fwupd_wires.specs.Fronts.{answer_at, answer_sent};

use fw_process::Line;
use mctp_ctl::Endpoint;
use mctp_wire::{RawPacket, Unit};

/// The number of packets that the front answers for one that is asked for, at most.
const MOST_ANSWERED: u32 = 1024;

/// The front of a node: the transmission unit of its network, and its endpoint.
#[derive(Clone, Copy)]
pub struct Front {
    /// The transmission unit.
    pub network: Unit,
    /// The node's endpoint.
    pub endpoint: Endpoint,
}

/// A line behind the front of a node, if there is one. The front answers the packets that it knows,
/// and the node doesn't see them.
#[derive(Drop)]
pub struct FrontedLine<L: Line + Drop> {
    line: L,
    front: Option<Front>,
    /// The unit of the round.
    round: u32,
}

/// Returns the answer of the front to a packet.
fn answer_of(front: Option<Front>, packet: &RawPacket) -> Option<RawPacket>
    ensures { option_map (λ v. v.items) result ≡ answer_at front packet.now.items }
{
    let Some(front) = front else {
        return None;
    };
    mctp_front::front(front.network, &front.endpoint, packet.as_slice())
}

impl<L: Line + Drop> FrontedLine<L> {
    /// Creates the line of a node with this front.
    pub fn new(line: L, front: Option<Front>) -> FrontedLine<L> {
        FrontedLine {
            line,
            front,
            round: 0,
        }
    }

    /// Whether a packet with this stamp passes to the node. If the front has an answer, it is sent
    /// at once, in the unit of the round or of the stamp, whichever is later.
    fn passes(&mut self, stamp: u32, packet: &RawPacket) -> bool
        ensures passed { result ≡ not (is_some (answer_at self.old.front packet.now.items)) }
        ensures line { L.known self.new.line ≡ line_with (L.known self.old.line) []
            (answer_sent self.old.front (max stamp self.old.round) packet.now.items) }
        ensures round { self.new.round ≡ self.old.round }
        ensures front { self.new.front ≡ self.old.front }
    {
        let Some(answer) = answer_of(self.front, packet) else {
            return true;
        };
        self.line.send(stamp.max(self.round), &answer);
        false
    }
}

impl<L: Line + Drop> Line for FrontedLine<L> {
    fn begin_round(&mut self, unit: u32)
        ensures line { L.known self.new.line ≡ line_with (L.known self.old.line) (LineCall.Begins unit ∷ []) [] }
        ensures round { self.new.round ≡ unit }
        ensures front { self.new.front ≡ self.old.front }
    {
        self.round = unit;
        self.line.begin_round(unit);
    }

    fn receive(&mut self, packet: &mut RawPacket) -> Option<u32>
        ensures passed { IfSome result (λ stamp. answer_at self.old.front packet.new.items ≡ None) }
        ensures round { self.new.round ≡ self.old.round }
        ensures front { self.new.front ≡ self.old.front }
    {
        for _ in 0..MOST_ANSWERED {
            let stamp = self.line.receive(packet)?;
            if self.passes(stamp, packet) {
                return Some(stamp);
            }
        }
        None
    }

    fn send(&mut self, unit: u32, packet: &RawPacket)
        ensures line { L.known self.new.line ≡ line_with (L.known self.old.line) [] (sent_at unit packet.now.items ∷ []) }
        ensures round { self.new.round ≡ self.old.round }
        ensures front { self.new.front ≡ self.old.front }
    {
        self.line.send(unit, packet);
    }
}
