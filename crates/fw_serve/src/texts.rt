//! What the lines of a node by itself print.

ghost use Rattle.std.specs.Prelude.{◌≡◌, ◌++◌, ◌∷◌, [], List, OnOk, ℕ};
ghost use Rattle.hex.specs.Hex.{encode_upper};
ghost use Rattle.fw_text.specs.Printing.{AppendsText};
ghost use Rattle.fw_serve.specs.Texts.{answer_line, fault_line, packets_line, packets_spaced, refusal_name, refused_line};

use fw_node::Outbox;
use fw_script::ScriptCause;
use fw_text::push_words;
use std::alloc::{AllocError, Global};

/// Why a call isn't taken. The node is unchanged then.
#[derive(Clone, Copy, Debug, PartialEq, Eq)]
pub enum LineRefusal {
    /// The agent has no such device.
    NoSuchNode,
    /// There is no package of this number.
    NoSuchPackage,
    /// An update of the device is in progress.
    Busy,
    /// Not every component of the update is applied.
    NotReady,
    /// The device doesn't wait for this verdict.
    NotNow,
    /// The agent's clock would pass its last unit.
    ClockEnd,
}

impl LineRefusal {
    /// Returns the name of the refusal.
    pub fn name(self) -> &'static str
        ensures { result.now ≡ refusal_name self }
    {
        match self {
            LineRefusal::NoSuchNode => "NoSuchNode",
            LineRefusal::NoSuchPackage => "NoSuchPackage",
            LineRefusal::Busy => "Busy",
            LineRefusal::NotReady => "NotReady",
            LineRefusal::NotNow => "NotNow",
            LineRefusal::ClockEnd => "ClockEnd",
        }
    }
}

/// Appends a packet in upper-case digits, and a space.
pub(crate) fn push_packet(
    alloc: Global,
    text: &mut Vec<u8>,
    packet: &[u8],
) -> Result<(), AllocError>
    ensures { OnOk result (text.new.items ≡ text.old.items ++ encode_upper packet.now ++ 32 ∷ []) }
{
    let digits = hex::encode_upper(alloc, packet)?;
    push_words(text, &digits)?;
    push_words(text, " ")?;
    Ok(())
}

/// Appends the packets of the outbox in upper-case digits, a space after each, and empties it.
pub(crate) fn push_sent(
    alloc: Global,
    text: &mut Vec<u8>,
    outbox: &mut Outbox,
) -> Result<(), AllocError>
    ensures sent { OnOk result (text.new.items ≡ text.old.items ++ packets_spaced outbox.old) }
    ensures empty { OnOk result (outbox.new ≡ []) }
{
    while let Some(packet) = outbox.pop() {
        push_packet(alloc, text, packet.as_slice())?;
    }
    Ok(())
}

/// Empties an outbox.
pub(crate) fn clear(outbox: &mut Outbox)
    ensures { outbox.new ≡ [] }
{
    while let Some(_) = outbox.pop() {}
}

/// Ends the line of packets that have a space after each.
pub(crate) fn end_packets(text: &mut Vec<u8>) -> Result<(), AllocError>
    ensures { OnOk result ((sent : List (List ℕ)) → text.old.items ≡ packets_spaced sent → text.new.items ≡ packets_line sent) }
{
    let Some(_) = text.pop() else {
        push_words(text, "-\n")?;
        return Ok(());
    };
    push_words(text, "\n")?;
    Ok(())
}

/// Appends the line of a call that sends nothing.
pub(crate) fn push_nothing(text: &mut Vec<u8>) -> Result<(), AllocError>
    requires { text.old.items ≡ [] }
    ensures { OnOk result (text.new.items ≡ packets_line []) }
{
    push_words(text, "-\n")?;
    Ok(())
}

/// Appends the line of a call that isn't taken.
pub(crate) fn push_refused(text: &mut Vec<u8>, refusal: LineRefusal) -> Result<(), AllocError>
    ensures { OnOk result (AppendsText text.old.items text.new.items (refused_line refusal)) }
{
    push_words(text, "refused ")?;
    push_words(text, refusal.name())?;
    push_words(text, "\n")?;
    Ok(())
}

/// Appends the line for a line that can't be read.
pub(crate) fn push_fault(text: &mut Vec<u8>, cause: ScriptCause) -> Result<(), AllocError>
    ensures { OnOk result (AppendsText text.old.items text.new.items (fault_line cause)) }
{
    push_words(text, "fault ")?;
    push_words(text, cause.name())?;
    push_words(text, "\n")?;
    Ok(())
}

/// Appends the line of an answer of the event log.
pub(crate) fn push_answer(
    alloc: Global,
    text: &mut Vec<u8>,
    answer: &[u8],
) -> Result<(), AllocError>
    ensures { OnOk result (AppendsText text.old.items text.new.items (answer_line answer.now)) }
{
    let digits = hex::encode_upper(alloc, answer)?;
    push_words(text, &digits)?;
    push_words(text, "\n")?;
    Ok(())
}
