//! Why a line gets no answer.

ghost use Rattle.std.specs.Prelude.{◌≡◌, ◌≤◌, length};
ghost use Rattle.fwupd_base.specs.Answers.{name_of};

use mctp_wire::WireFault;

/// Why a line gets no answer. If several causes hold, it is the first in this order.
#[derive(Clone, Copy, PartialEq, Eq)]
pub enum LineDropCause {
    /// The line isn't an even number of hexadecimal digits.
    Hex,
    /// The bytes aren't a packet.
    Wire(WireFault),
    /// The packet's destination is another endpoint.
    Destination,
    /// The packet isn't a whole message: SOM or EOM is clear (DSP0236, section 8.1).
    NotWhole,
    /// The packet's sequence number isn't 0.
    StartNumber,
    /// The packet isn't a request: TO is clear.
    NotRequest,
    /// The message is neither MCTP control nor PLDM.
    Kind,
    /// The message isn't a request that gets an answer.
    Message,
}

impl LineDropCause {
    /// Returns the name of the cause, as printed in the output.
    pub fn name(self) -> &'static str
        ensures name { result.now ≡ name_of self }
        ensures short { length result.now ≤ 11 }
    {
        match self {
            LineDropCause::Hex => "Hex",
            LineDropCause::Wire(WireFault::Short) => "Short",
            LineDropCause::Wire(WireFault::Version) => "Version",
            LineDropCause::Wire(WireFault::Empty) => "Empty",
            LineDropCause::Wire(WireFault::TooLong) => "TooLong",
            LineDropCause::Destination => "Destination",
            LineDropCause::NotWhole => "NotWhole",
            LineDropCause::StartNumber => "StartNumber",
            LineDropCause::NotRequest => "NotRequest",
            LineDropCause::Kind => "Type",
            LineDropCause::Message => "Message",
        }
    }
}
