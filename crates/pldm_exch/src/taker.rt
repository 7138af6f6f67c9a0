//! The end of a node that answers a peer.

ghost use Rattle.std.specs.Prelude.{◌≡◌, ◌≤◌, length, true};
ghost use Rattle.mctp_wire.specs.Packet.{IsRead, spelling};
ghost use Rattle.mctp_reasm.specs.Pieces.{MessageOf};
ghost use Rattle.pldm_base.specs.Header.{IsPldmHead, pldm_of};
ghost use Rattle.pldm_exch.specs.Ends.{answering_new, answering_older};
ghost use Rattle.pldm_exch.specs.Sides.{IsReceived, answered_with, answering_row, received_in, received_of, requests_in, taker_read};
ghost use Rattle.pldm_exch.specs.Requests.{reply_message};

use crate::answerer::{Answerer, Asked};
use crate::request::{Received, Request};
use mctp_reasm::{Inbox, Message, Taken};
use mctp_wire::{Packet, Unit};
use pldm_base::{MAX_REPLY, PldmHead};
use std::marker::Model;

/// The state of a node that answers one peer: the answers that it keeps, and the assemblies of that
/// peer's requests. A node that is deaf passes it neither packets nor ticks.
#[derive(Drop)]
pub struct Taker {
    answerer: Answerer,
    inbox: Inbox,
}

impl Model for Taker {
    ghost use Rattle.std.specs.Prelude.{◌≡◌, true};
    ghost use Rattle.pldm_exch.specs.Ends.{AnsweringOf};

    ghost Value = { AnsweringOf };

    ghost view = { λ t. record {
      unit = t.inbox.unit;
      own = t.inbox.own;
      peer = t.inbox.peer;
      kept = t.answerer;
      requests = t.inbox.held;
    } };

    ghost invariant = { λ t. t.inbox.to ≡ true };
}

impl Taker {
    /// Returns the taker of the node `own` for the peer `peer` in a network with this transmission
    /// unit, before its first answer.
    pub fn new(unit: Unit, own: u8, peer: u8) -> Taker
        ensures { result ≡ answering_new unit own peer }
    {
        Taker {
            answerer: Answerer::new(),
            inbox: Inbox::new(unit, own, peer, true),
        }
    }

    /// Returns the network's transmission unit.
    pub fn unit(&self) -> Unit
        ensures { result ≡ self.now.unit }
    {
        self.inbox.unit()
    }

    /// Returns the node's own endpoint identifier.
    pub fn own(&self) -> u8
        ensures { result ≡ self.now.own }
    {
        self.inbox.own()
    }

    /// Returns the endpoint identifier of the peer.
    pub fn peer(&self) -> u8
        ensures { result ≡ self.now.peer }
    {
        self.inbox.peer()
    }

    /// Takes a packet, and returns the outcome. Writes the message that the outcome names into
    /// `message`, which is left as it is if there is nothing to do. A packet that isn't of the
    /// peer's requests changes nothing.
    #[tactic(auto, using(crate::proofs::SideRows::rows))]
    pub fn on_request(&mut self, packet: &Packet<'_>, message: &mut Message) -> Received
        requires read { IsRead packet.now }
        ensures brought { received_of result message.new ≡ received_in (answering_row self.old (spelling packet.now)) }
        ensures message { IsReceived result message.old message.new }
        ensures after { self.new ≡ record self.old { requests = requests_in (answering_row self.old (spelling packet.now)) } }
    {
        if !self.inbox.accepts(packet) {
            return Received::Nothing;
        }
        let Taken::Whole = self.inbox.feed(packet, message) else {
            return Received::Nothing;
        };
        self.read(message)
    }

    /// Returns the outcome of a complete message. If the request was repeated, its kept answer
    /// replaces the message.
    #[tactic(auto, using(crate::proofs::SideRows::rows))]
    fn read(&self, message: &mut Message) -> Received
        ensures brought { received_of result message.new
            ≡ received_in (taker_read self.now.requests self.now.kept message.old
            (pldm_of message.old.bytes)) }
        ensures message { (before : MessageOf) → IsReceived result before message.new }
    {
        let Ok((head, _)) = pldm_base::decode(message.bytes()) else {
            return Received::Strays;
        };
        if !head.rq {
            return Received::Strays;
        }
        if let Asked::Again(answer) = self.answerer.on_request(message) {
            message.copy_from(answer);
            return Received::Again;
        }
        Received::New(head)
    }

    /// Answers a new request with a completion code and fields of at most `MAX_REPLY` bytes. Keeps
    /// the answer and returns it for sending. The node ensures that the message fits the
    /// transmission unit.
    pub fn answer(&mut self, request: &Request<'_>, reply: &[u8]) -> Message
        requires { length reply.now ≤ MAX_REPLY }
        ensures answer { result ≡ reply_message request.now.message request.now.head reply.now }
        ensures after { self.new ≡ answered_with self.old request.now reply.now }
    {
        let answer = reply_to(request.message, &request.head, reply);
        self.answerer.keep(&answer);
        answer
    }

    /// Counts a tick: held packets and kept answers grow older.
    pub fn tick(&mut self)
        ensures { self.new ≡ answering_older self.old }
    {
        self.inbox.tick();
        self.answerer.tick();
    }
}

/// Returns the reply to a request, as a message.
fn reply_to(request: &Message, head: &PldmHead, reply: &[u8]) -> Message
    requires reply { length reply.now ≤ MAX_REPLY }
    requires head { IsPldmHead head.now }
    ensures { result ≡ reply_message request.now head.now reply.now }
{
    let reply_head = PldmHead { rq: false, ..*head };
    let bytes = pldm_base::encode(&reply_head, reply);
    let Ok(message) = Message::new(
        Unit::U128,
        request.source(),
        request.dest(),
        false,
        request.tag(),
        bytes.as_slice(),
    ) else {
        unreachable!()
    };
    message
}
