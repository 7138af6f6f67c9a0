//! Callers and answerers, call by call.

mod answerer;
mod caller;

use mctp_reasm::Message;
use mctp_wire::Unit;

/// The answer of code 0 to a request, with a field that identifies it.
fn answer_to(request: &Message, field: u8) -> Option<Message> {
    let [kind, flags, pldm_type, command, ..] = request.bytes() else {
        return None;
    };
    let bytes = [*kind, *flags & 0x1F, *pldm_type, *command, 0, field];
    let (dest, source, tag) = (request.source(), request.dest(), request.tag());
    Message::new(Unit::U64, dest, source, false, tag, &bytes).ok()
}
