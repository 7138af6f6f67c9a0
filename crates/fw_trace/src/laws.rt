//! Lines show what was encoded.

ghost use Rattle.fw_trace.specs.Laws.{ShowsAnswers, ShowsCommands, ShowsParts, ShowsWhole};

/// The line of an encoded command shows that command with its fields. The line of an encoded answer
/// shows that answer's code and fields.
pub fn shows_what_was_written()
    ensures commands { ShowsCommands }
    ensures answers { ShowsAnswers }
{
    pldm_base::reads_back();
    fwup_wire::commands_read_back();
    fwup_wire::answers_read_back();
}

/// If the earlier packets of a message are held, the next one is shown as a part, and the last one
/// as the message. A message of one packet is shown whole, whatever was sent before.
pub fn shows_messages()
    ensures parts { ShowsParts }
    ensures whole { ShowsWhole }
{
    mctp_reasm::feeds_next();
    mctp_wire::reads_back();
}
