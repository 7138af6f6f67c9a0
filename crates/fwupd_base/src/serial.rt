//! An endpoint without a device on a serial line (DSP0253), over lines of hexadecimal digits.

ghost use Rattle.std.specs.Prelude.{[], ◌≡◌, ◌++◌, ◌∷◌, OnOk};
ghost use Rattle.hex.specs.Hex.{encode_upper};
ghost use Rattle.mctp_serial.specs.Reader.{new_reader};
ghost use Rattle.fwupd_base.specs.Answers.{line_text_of};
ghost use Rattle.fwupd_base.specs.Serial.{ReadsSerial, packet_outcome, packet_text};

use crate::drops::LineDropCause;
use crate::responder::Responder;
use crate::serving::LineServer;
use crate::text::decode_digits;
use fw_text::push_words;
use mctp_ctl::Endpoint;
use mctp_serial::{Reader, SerialFrame, write};
use mctp_wire::{RawPacket, Unit};
use pldm_base::Tid;
use std::alloc::{AllocError, Global};
use std::marker::Model;

/// An endpoint without a device on a serial line, as a server of lines. Each line holds, in
/// hexadecimal digits, any number of bytes of a stream of frames. Each packet whose frame ends in
/// the line prints one line: the frame of the answer, or why there is no answer.
#[derive(Drop)]
pub struct SerialResponder {
    /// The allocator of its texts.
    alloc: Global,
    /// The endpoint.
    responder: Responder,
    /// The reader of frames.
    reader: Reader,
}

impl Model for SerialResponder {
    ghost use Rattle.fwupd_base.specs.Serial.{SerialResponderOf};

    ghost Value = { SerialResponderOf };

    ghost view = { λ s. record { endpoint = s.responder.endpoint; tid = s.responder.tid; reader = s.reader } };
}

/// Appends bytes in upper-case digits, and a line feed.
fn push_frame(alloc: Global, text: &mut Vec<u8>, frame: &[u8]) -> Result<(), AllocError>
    ensures { OnOk result (text.new.items ≡ text.old.items ++ line_text_of (Ok frame.now)) }
{
    let digits = hex::encode_upper(alloc, frame)?;
    push_words(text, &digits)?;
    push_words(text, "\n")?;
    Ok(())
}

/// Appends the line of a packet or line without an answer.
fn push_drop(text: &mut Vec<u8>, cause: LineDropCause) -> Result<(), AllocError>
    ensures { OnOk result (text.new.items ≡ text.old.items ++ line_text_of (Err cause)) }
{
    push_words(text, "drop ")?;
    push_words(text, cause.name())?;
    push_words(text, "\n")?;
    Ok(())
}

impl SerialResponder {
    /// Creates an endpoint whose terminus identifier isn't set, between frames.
    pub fn new(alloc: Global, endpoint: Endpoint) -> SerialResponder
        ensures { result ≡ record { endpoint = endpoint; tid = 0; reader = new_reader Unit.U64 } }
    {
        SerialResponder {
            alloc,
            responder: Responder {
                endpoint,
                tid: Tid::unassigned(),
            },
            reader: Reader::new(Unit::U64),
        }
    }

    /// Answers the packet that the reader returned last.
    #[tactic(auto, unfolding(crate::specs::Serial::packet_outcome), using(crate::proofs::SerialLines::wire_some))]
    fn answer_packet(&mut self, text: &mut Vec<u8>) -> Result<(), AllocError>
        ensures text { OnOk result (text.new.items ≡ text.old.items
            ++ packet_text self.old.endpoint self.old.tid self.old.reader.packet) }
        ensures after { OnOk result (self.new ≡ record self.old {
          tid = (packet_outcome self.old.endpoint self.old.tid self.old.reader.packet).tid;
        }) }
    {
        let mut packet = RawPacket::new();
        match self.responder.answer(self.reader.packet(), &mut packet) {
            Ok(()) => {}
            Err(cause) => return push_drop(text, cause),
        }
        let mut frame = SerialFrame::new();
        write(packet.as_slice(), &mut frame);
        push_frame(self.alloc, text, frame.as_slice())
    }

    /// Reads one byte of the stream.
    fn read_byte(&mut self, byte: u8, text: &mut Vec<u8>) -> Result<(), AllocError>
        ensures { OnOk result (ReadsSerial self.old (byte ∷ []) self.new text.old.items text.new.items) }
    {
        if !self.reader.feed(byte) {
            return Ok(());
        }
        match self.answer_packet(text) {
            Ok(()) => Ok(()),
            Err(error) => Err(error),
        }
    }

    /// Reads bytes of the stream.
    #[tactic(auto, using(crate::proofs::SerialLines::reads_all))]
    fn read_bytes(&mut self, bytes: &[u8], text: &mut Vec<u8>) -> Result<(), AllocError>
        ensures { OnOk result (ReadsSerial self.old bytes.now self.new text.old.items text.new.items) }
    {
        for byte in bytes {
            match self.read_byte(*byte, text) {
                Ok(()) => {}
                Err(error) => return Err(error),
            }
        }
        Ok(())
    }
}

impl LineServer for SerialResponder {
    ghost use Rattle.std.specs.Prelude.{true};
    ghost use Rattle.fwupd_base.specs.Serial.{AnswersSerialLine};

    ghost serves = { λ s line t text. AnswersSerialLine s line t text };

    ghost may_lack = { true };

    fn serve(
        &mut self,
        line: &[u8],
        bytes: &mut Vec<u8>,
        text: &mut Vec<u8>,
    ) -> Result<(), AllocError> {
        bytes.clear();
        let Ok(()) = bytes.reserve(line.len() / 2 + 1) else {
            return Err(AllocError);
        };
        match decode_digits(line, bytes) {
            Ok(()) => self.read_bytes(bytes.as_slice(), text),
            Err(_) => push_drop(text, LineDropCause::Hex),
        }
    }
}
