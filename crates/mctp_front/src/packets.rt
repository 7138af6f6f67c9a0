//! A front: packets in, answers out.

ghost use Rattle.std.specs.Prelude.{◌≡◌, ◌<◌, ◌≤◌, IfSome, length};
ghost use Rattle.std.specs.Option.{option_map};
ghost use Rattle.mctp_front.specs.ControlRows.{physical_answer};
ghost use Rattle.mctp_front.specs.Front.{FitsBaseline, answer_packet, front_of, message_answer, own_answer};

use crate::{control, pldm};
use mctp_ctl::{CONTROL, Endpoint};
use mctp_wire::{Head, RawPacket, Unit};
use pldm_base::MESSAGE_TYPE;

/// The null endpoint identifier, to which physical addressing sends.
const NULL_EID: u8 = 0x00;

/// Returns the answer to the bytes of a packet, in front of the node with this endpoint and this
/// transmission unit. Such a packet doesn't reach the node. `None` means that the front has no
/// answer: the bytes pass to the node unchanged.
pub fn front(unit: Unit, endpoint: &Endpoint, packet: &[u8]) -> Option<RawPacket>
    ensures answer { option_map (λ v. v.items) result ≡ front_of unit endpoint.now packet.now }
    ensures size { IfSome result (λ v. FitsBaseline v.items) }
{
    let Ok(received) = mctp_wire::decode(unit, packet) else {
        return None;
    };
    let head = received.head;
    if head.som && head.eom && head.to {
        answer_message(endpoint, &head, received.body)
    } else {
        None
    }
}

/// Answers a message that is whole in the packet with this head, by the packet's destination.
fn answer_message(endpoint: &Endpoint, head: &Head, message: &[u8]) -> Option<RawPacket>
    requires { head.now.tag < 8 }
    ensures answer { option_map (λ v. v.items) result
        ≡ option_map (answer_packet endpoint.now.eid head.now) (message_answer endpoint.now head.now.dest message.now) }
    ensures size { IfSome result (λ v. FitsBaseline v.items) }
{
    if head.dest == endpoint.eid {
        return answer_own(endpoint.eid, head, message);
    }
    if head.dest == NULL_EID {
        return answer_null(endpoint, head, message);
    }
    None
}

/// Answers a message that was sent to the own identifier.
fn answer_own(own: u8, head: &Head, message: &[u8]) -> Option<RawPacket>
    requires { head.now.tag < 8 }
    ensures answer { option_map (λ v. v.items) result ≡ option_map (answer_packet own head.now) (own_answer message.now) }
    ensures size { IfSome result (λ v. FitsBaseline v.items) }
{
    match message {
        [CONTROL, ..] => {
            let answer = control::version_support_answer(message)?;
            Some(carry(own, head, answer.as_slice()))
        }
        [MESSAGE_TYPE, ..] => {
            let answer = pldm::pldm_answer(message)?;
            Some(carry(own, head, answer.as_slice()))
        }
        _ => None,
    }
}

/// Answers a message that was sent to the null identifier.
fn answer_null(endpoint: &Endpoint, head: &Head, message: &[u8]) -> Option<RawPacket>
    requires { head.now.tag < 8 }
    ensures answer { option_map (λ v. v.items) result
        ≡ option_map (answer_packet endpoint.now.eid head.now) (physical_answer endpoint.now message.now) }
    ensures size { IfSome result (λ v. FitsBaseline v.items) }
{
    let answer = control::physical_answer(endpoint, message)?;
    Some(carry(endpoint.eid, head, answer.as_slice()))
}

/// Returns the packet that carries an answer to a packet with this head.
fn carry(own: u8, head: &Head, answer: &[u8]) -> RawPacket
    requires tag { head.now.tag < 8 }
    requires size { (1 ≤ length answer.now) × (length answer.now ≤ 64) }
    ensures { result.items ≡ answer_packet own head.now answer.now }
{
    let head = Head {
        dest: head.source,
        source: own,
        som: true,
        eom: true,
        seq: 0,
        to: false,
        tag: head.tag,
    };
    let mut packet = RawPacket::new();
    mctp_wire::encode(&head, answer, &mut packet);
    packet
}
