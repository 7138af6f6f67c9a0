//! The messages that both kinds of node send without a call of their core.

ghost use Rattle.std.specs.Prelude.{◌≡◌, ◌≤◌, ◌+◌, ◌*◌, ◌++◌, [], length};
ghost use Rattle.mctp_ctl.specs.Control.{answer_of};
ghost use Rattle.pldm_exch.specs.Caller.{tick_of};
ghost use Rattle.fw_node.specs.Nodes.{control_sent, other_reply, other_tid};
ghost use Rattle.fw_node.specs.Packets.{all_packets, sent_by};

use crate::ends::Ends;
use crate::outbox::Outbox;
use mctp_ctl::Endpoint;
use mctp_reasm::Message;
use mctp_wire::Unit;
use pldm_base::completion::ERROR_INVALID_PLDM_TYPE;
use pldm_base::{Reply, Role, TYPE_BASE, Tid, code_alone};
use pldm_exch::{CallTick, Request};

/// The reply to a PLDM request of another type than firmware update.
pub(crate) fn reply_to_other(tid: &mut Tid, role: Role, request: &Request<'_>) -> Reply
    ensures reply { result.items ≡ other_reply role tid.old request.now.head request.now.body }
    ensures tid { tid.new ≡ other_tid tid.old request.now.head request.now.body }
{
    let head = request.head();
    if head.pldm_type == TYPE_BASE {
        return pldm_base::answer_base(tid, role, head.command, request.body());
    }
    code_alone(ERROR_INVALID_PLDM_TYPE)
}

/// Sends the message of the open request again, if the tick asks for it.
#[tactic(auto, using(crate::proofs::Again::again))]
pub(crate) fn send_again(ends: &Ends, outbox: &mut Outbox, call: CallTick)
    requires { length outbox.old ≤ 60 }
    ensures sent { outbox.new ≡ outbox.old
        ++ all_packets ends.now.asking.unit (sent_by (tick_of call ends.now.asking.caller.asked)) }
    ensures few { length outbox.new ≤ length outbox.old + 4 * length (sent_by (tick_of call ends.now.asking.caller.asked)) }
{
    let CallTick::Send = call else {
        return;
    };
    let Some(message) = ends.open_message() else {
        return;
    };
    outbox.send(ends.unit(), message);
}

/// Sends the answer to a control message, if one is due.
#[tactic(auto, using(crate::proofs::Controls::controls))]
pub(crate) fn send_control(unit: Unit, endpoint: &Endpoint, message: &Message, outbox: &mut Outbox)
    requires { outbox.old ≡ [] }
    ensures { outbox.new ≡ all_packets unit (control_sent message.now (answer_of endpoint.now message.now.bytes)) }
{
    let Some(bytes) = mctp_ctl::answer(endpoint, message.bytes()) else {
        return;
    };
    let Ok(answer) = Message::new(
        unit,
        message.source(),
        message.dest(),
        false,
        message.tag(),
        bytes.as_slice(),
    ) else {
        return;
    };
    outbox.send(unit, &answer);
}
