//! An endpoint without a device: the answers to packets.

ghost use Rattle.std.specs.Prelude.{◌≡◌, ◌+◌, ◌<◌, ◌≤◌, [], ◌∷◌, length};
ghost use Rattle.std.specs.Result.{result_map_both};
ghost use Rattle.mctp_wire.specs.Packet.{packet_of};
ghost use Rattle.mctp_wire.specs.Units.{bytes_of};
ghost use Rattle.pldm_base.specs.declared.header.PldmHead.{PldmHead};
ghost use Rattle.pldm_base.specs.Header.{pldm_of};
ghost use Rattle.fwupd_base.specs.Answers.{answered_line, body_reply, completion_of, packet_reply, pldm_reply, tid_after_pldm, wire_reply};

use crate::drops::LineDropCause;
use mctp_ctl::{CONTROL, Endpoint};
use mctp_wire::{Head, RawPacket, Unit};
use pldm_base::{
    HEADER_SIZE, MESSAGE_TYPE, PldmHead, Reply, Role, TYPE_BASE, TYPE_FIRMWARE_UPDATE, Tid,
    answer_base, code_alone, completion,
};

/// The transmission unit of the packets: the baseline (DSP0236, section 8.3).
const UNIT: Unit = Unit::U64;

/// An MCTP endpoint and PLDM terminus without a firmware device.
#[derive(Clone, Copy)]
pub struct Responder {
    /// The endpoint's identifier and UUID.
    pub endpoint: Endpoint,
    /// The terminus identifier, which SetTID sets (DSP0240).
    pub tid: Tid,
}

impl Responder {
    /// Answers a packet that holds a whole request. The answer replaces the content of `packet`.
    ///
    /// # Errors
    /// The first cause why the packet gets no answer; the terminus identifier is then unchanged.
    pub fn answer(&mut self, bytes: &[u8], packet: &mut RawPacket) -> Result<(), LineDropCause>
        ensures reply { result_map_both (λ _. packet.new.items) (λ e. e) result
            ≡ (wire_reply self.old.endpoint self.old.tid (packet_of UNIT bytes.now)).reply }
        ensures after { self.new ≡ record self.old {
          tid = (wire_reply self.old.endpoint self.old.tid (packet_of UNIT bytes.now)).tid;
        } }
    {
        let heard = mctp_wire::decode(UNIT, bytes).map_err(LineDropCause::Wire)?;
        self.answer_packet(&heard.head, heard.body, packet)
    }

    /// Answers a packet with this head and body, if it is a whole request to this endpoint.
    fn answer_packet(
        &mut self,
        head: &Head,
        body: &[u8],
        packet: &mut RawPacket,
    ) -> Result<(), LineDropCause>
        requires { head.now.tag < 8 }
        ensures reply { result_map_both (λ _. packet.new.items) (λ e. e) result
            ≡ (packet_reply self.old.endpoint self.old.tid head.now body.now).reply }
        ensures after { self.new ≡ record self.old { tid = (packet_reply self.old.endpoint self.old.tid head.now body.now).tid } }
    {
        if head.dest != self.endpoint.eid {
            return Err(LineDropCause::Destination);
        }
        if !(head.som && head.eom) {
            return Err(LineDropCause::NotWhole);
        }
        if head.seq != 0 {
            return Err(LineDropCause::StartNumber);
        }
        if !head.to {
            return Err(LineDropCause::NotRequest);
        }
        self.answer_message(head, body, packet)
    }

    /// Answers a message that was received under this head, by its type.
    fn answer_message(
        &mut self,
        head: &Head,
        message: &[u8],
        packet: &mut RawPacket,
    ) -> Result<(), LineDropCause>
        requires { head.now.tag < 8 }
        ensures reply { result_map_both (λ _. packet.new.items) (λ e. e) result
            ≡ (body_reply self.old.endpoint head.now self.old.tid message.now).reply }
        ensures after { self.new ≡ record self.old { tid = (body_reply self.old.endpoint head.now self.old.tid message.now).tid } }
    {
        match message {
            [CONTROL, ..] => match mctp_ctl::answer(&self.endpoint, message) {
                Some(answer) => {
                    self.carry(head, answer.as_slice(), packet);
                    Ok(())
                }
                None => Err(LineDropCause::Message),
            },
            [MESSAGE_TYPE, ..] => self.answer_pldm(head, message, packet),
            _ => Err(LineDropCause::Kind),
        }
    }

    /// Answers a PLDM message.
    fn answer_pldm(
        &mut self,
        head: &Head,
        message: &[u8],
        packet: &mut RawPacket,
    ) -> Result<(), LineDropCause>
        requires { head.now.tag < 8 }
        ensures reply { result_map_both (λ _. packet.new.items) (λ e. e) result
            ≡ (pldm_reply self.old.endpoint head.now self.old.tid (pldm_of message.now)).reply }
        ensures after { self.new ≡ record self.old {
          tid = (pldm_reply self.old.endpoint head.now self.old.tid (pldm_of message.now)).tid;
        } }
    {
        let Ok((request, fields)) = pldm_base::decode(message) else {
            return Err(LineDropCause::Message);
        };
        if !request.rq {
            return Err(LineDropCause::Message);
        }
        let completion = self.complete(&request, fields);
        let answering = PldmHead {
            rq: false,
            ..request
        };
        let answer = pldm_base::encode(&answering, completion.as_slice());
        self.carry(head, answer.as_slice(), packet);
        Ok(())
    }

    /// The completion code and fields that answer a PLDM request.
    fn complete(&mut self, request: &PldmHead, fields: &[u8]) -> Reply
        ensures reply { result.items ≡ completion_of self.old.tid request.now fields.now }
        ensures one_packet { length result.items + HEADER_SIZE ≤ bytes_of UNIT }
        ensures after { self.new ≡ record self.old { tid = tid_after_pldm self.old.tid request.now fields.now } }
    {
        match request.pldm_type {
            TYPE_BASE => answer_base(&mut self.tid, Role::Device, request.command, fields),
            TYPE_FIRMWARE_UPDATE => code_alone(completion::ERROR_NOT_READY),
            _ => code_alone(completion::ERROR_INVALID_PLDM_TYPE),
        }
    }

    /// Encodes the packet that carries an answer to a packet with this head.
    fn carry(&self, head: &Head, answer: &[u8], packet: &mut RawPacket)
        requires head { head.now.tag < 8 }
        requires answer { (1 ≤ length answer.now) × (length answer.now ≤ bytes_of UNIT) }
        ensures { Ok packet.new.items ≡ (answered_line self.now.endpoint head.now self.now.tid answer.now).reply }
    {
        let head = Head {
            dest: head.source,
            source: self.endpoint.eid,
            som: true,
            eom: true,
            seq: 0,
            to: false,
            tag: head.tag,
        };
        mctp_wire::encode(&head, answer, packet);
    }
}
