//! The state of a node for one peer.

ghost use Rattle.std.specs.Prelude.{◌≡◌, ◌≤◌, ◌++◌, ◌+◌, ◌*◌, [], ◌∷◌, Bool, false, length, true};
ghost use Rattle.mctp_wire.specs.Packet.{IsRead, spelling};
ghost use Rattle.pldm_base.specs.declared.terminus.Role.{Role};
ghost use Rattle.fd_core.specs.Banks.{CountsFailure};
ghost use Rattle.fwup_wire.specs.Answers.{answer_read};
ghost use Rattle.pldm_exch.specs.Caller.{caller_tick, is_quiet};
ghost use Rattle.pldm_exch.specs.Requests.{reply_message};
ghost use Rattle.pldm_exch.specs.Sides.{answered_with};
ghost use Rattle.fw_node.specs.BankCalls.{incoming_calls_bank, packet_calls_bank, read_calls_bank};
ghost use Rattle.fw_node.specs.BothEnds.{IsAsking, ends_new};
ghost use Rattle.fw_node.specs.Brings.{HasHead, incoming_of};
ghost use Rattle.fw_node.specs.Halves.{IncomingOf, half_on_incoming, half_grows, half_on_packet, half_waits, last_part, read_by, half_with_core, reply_read, half_after_settle, unwished_abandoned};
ghost use Rattle.fw_node.specs.Nodes.{node_outcome_of, half_of, half_after_reply};
ghost use Rattle.fw_node.specs.Packets.{all_packets, sent_by};

use crate::cores::Core;
use crate::ends::Ends;
use crate::identity::Identity;
use crate::incoming::Incoming;
use crate::outbox::Outbox;
use crate::sending::{reply_to_other, send_again, send_control};
use mctp_reasm::Message;
use mctp_wire::{Packet, Unit};
use pldm_base::completion::ERROR_UNSUPPORTED_PLDM_CMD;
use pldm_base::{MAX_REPLY, Reply, Role, TYPE_FIRMWARE_UPDATE, code_alone};
use pldm_exch::{CallTick, Received, Request, body_of};

/// One half of a pair: both ends for a peer, and the core.
#[derive(Drop)]
pub(crate) struct Half<C> {
    ends: Ends,
    pub(crate) core: C,
}

impl<'p, C: Core<'p>> Half<C> {
    /// Creates the half of the node `own` for the node `peer` in a network with this transmission
    /// unit.
    pub(crate) fn new(unit: Unit, own: u8, peer: u8, core: C) -> Half<C>
        ensures ends { result.ends ≡ ends_new unit own peer }
        ensures core { result.core ≡ core }
    {
        Half {
            ends: Ends::new(unit, own, peer),
            core,
        }
    }

    /// The network's transmission unit.
    pub(crate) fn unit(&self) -> Unit
        ensures { result ≡ self.now.ends.asking.unit }
    {
        self.ends.unit()
    }

    /// The peer's endpoint identifier.
    pub(crate) fn peer(&self) -> u8
        ensures { result ≡ self.now.ends.asking.peer }
    {
        self.ends.peer()
    }

    /// Gives up the open request if it is no longer the pending command.
    pub(crate) fn settle(&mut self, given: C::Given)
        ensures settled { self.new ≡ record self.old {
          ends = record self.old.ends {
            asking = record self.old.ends.asking {
              caller = unwished_abandoned ((C.does given).wish (C.seen self.old.core))
                  self.old.ends.asking.caller;
            };
          };
        } }
    {
        if self.core.may_wish(given) {
            self.abandon_unwished(given);
        } else {
            self.ends.abandon();
        }
    }

    /// Gives up the open request, unless it is the core's pending command.
    fn abandon_unwished(&mut self, given: C::Given)
        ensures abandoned { self.new ≡ record self.old {
          ends = record self.old.ends {
            asking = record self.old.ends.asking {
              caller = unwished_abandoned ((C.does given).wish (C.seen self.old.core))
                  self.old.ends.asking.caller;
            };
          };
        } }
    {
        let wish = self.core.wish(given);
        self.ends.abandon_unless(&wish);
    }

    /// Handles a packet, and sends the node's answer. Returns whether the core's bank worked.
    pub(crate) fn handle_packet(
        &mut self,
        identity: &mut Identity,
        role: Role,
        given: C::Given,
        packet: &Packet<'_>,
        outbox: &mut Outbox,
    ) -> bool
        requires read { IsRead packet.now }
        requires outbox { outbox.old ≡ [] }
        ensures half { half_of 0 (C.seen self.new.core) self.new.ends
            ≡ (node_outcome_of role identity.old.endpoint identity.old.tid
            (half_on_packet (C.does given) result (half_of 0 (C.seen self.old.core) self.old.ends)
            (spelling packet.now))).half }
        ensures tid { identity.new.tid
            ≡ (node_outcome_of role identity.old.endpoint identity.old.tid
            (half_on_packet (C.does given) result (half_of 0 (C.seen self.old.core) self.old.ends)
            (spelling packet.now))).tid }
        ensures packets { outbox.new ≡ all_packets self.old.ends.asking.unit
            (node_outcome_of role identity.old.endpoint identity.old.tid
            (half_on_packet (C.does given) result (half_of 0 (C.seen self.old.core) self.old.ends)
            (spelling packet.now))).sent }
        ensures worked { result ≡ true → C.faults self.new.core ≡ C.faults self.old.core }
        ensures failed { result ≡ false → CountsFailure (C.faults self.old.core) (C.faults self.new.core) }
        ensures called { result ≡ false
            → packet_calls_bank (C.does given) (half_of 0 (C.seen self.old.core) self.old.ends) (spelling packet.now) ≡ true }
        ensures endpoint { identity.new.endpoint ≡ identity.old.endpoint }
        ensures own { self.new.ends.asking.own ≡ self.old.ends.asking.own }
        ensures unit { self.new.ends.asking.unit ≡ self.old.ends.asking.unit }
    {
        let mut message = Message::blank();
        match self.incoming(packet, &mut message) {
            Incoming::Learnt(command) => self.learn(given, command, body_of(&message)),
            Incoming::Brought(Received::Nothing) => true,
            Incoming::Brought(Received::Again) => {
                outbox.send(self.ends.unit(), &message);
                true
            }
            Incoming::Brought(Received::New(head)) => {
                let request = Request::new(&message, head);
                self.serve(identity, role, given, &request, outbox)
            }
            Incoming::Brought(Received::Strays) => {
                send_control(self.ends.unit(), &identity.endpoint, &message, outbox);
                true
            }
        }
    }

    /// Reads a packet. The message that the result refers to is written into `message`.
    fn incoming(&mut self, packet: &Packet<'_>, message: &mut Message) -> Incoming
        requires read { IsRead packet.now }
        ensures brings { (given : C.Given) (works : Bool)
            → half_on_packet (C.does given) works (half_of 0 (C.seen self.old.core) self.old.ends)
            (spelling packet.now)
            ≡ half_on_incoming (C.does given) works (half_of 0 (C.seen self.new.core) self.new.ends)
            (incoming_of result message.new) }
        ensures calls { (given : C.Given)
            → packet_calls_bank (C.does given) (half_of 0 (C.seen self.old.core) self.old.ends)
            (spelling packet.now)
            ≡ incoming_calls_bank (C.does given) (half_of 0 (C.seen self.new.core) self.new.ends)
            (incoming_of result message.new) }
        ensures head { HasHead result }
        ensures core { self.new.core ≡ self.old.core }
        ensures own { self.new.ends.asking.own ≡ self.old.ends.asking.own }
        ensures unit { self.new.ends.asking.unit ≡ self.old.ends.asking.unit }
    {
        self.ends.receive(packet, message)
    }

    /// The core handles the answer to its request. Returns whether its bank worked.
    fn learn(&mut self, given: C::Given, command: u8, reply: &[u8]) -> bool
        ensures half { half_of 0 (C.seen self.new.core) self.new.ends
            ≡ half_with_core (C.does given) (half_of 0 (C.seen self.old.core) self.old.ends)
            ((C.does given).learn (C.seen self.old.core) (answer_read command reply.now) result) }
        ensures worked { result ≡ true → C.faults self.new.core ≡ C.faults self.old.core }
        ensures failed { result ≡ false → CountsFailure (C.faults self.old.core) (C.faults self.new.core) }
        ensures called { result ≡ false
            → (C.does given).learn_calls_bank (C.seen self.old.core) (answer_read command reply.now) ≡ true }
        ensures own { self.new.ends.asking.own ≡ self.old.ends.asking.own }
        ensures unit { self.new.ends.asking.unit ≡ self.old.ends.asking.unit }
    {
        let works = self.learn_answer(given, command, reply);
        self.settle(given);
        works
    }

    /// The core handles an answer, as its bytes were received. Returns whether its bank worked.
    fn learn_answer(&mut self, given: C::Given, command: u8, reply: &[u8]) -> bool
        ensures core { C.seen self.new.core ≡ (C.does given).learn (C.seen self.old.core) (answer_read command reply.now) result }
        ensures ends { self.new.ends ≡ self.old.ends }
        ensures worked { result ≡ true → C.faults self.new.core ≡ C.faults self.old.core }
        ensures failed { result ≡ false → CountsFailure (C.faults self.old.core) (C.faults self.new.core) }
        ensures called { result ≡ false
            → (C.does given).learn_calls_bank (C.seen self.old.core) (answer_read command reply.now) ≡ true }
    {
        match fwup_wire::read_answer(command, reply) {
            Ok(answer) => self.core.learn(given, Ok(&answer)),
            Err(malformed) => self.core.learn(given, Err(malformed)),
        }
    }

    /// Answers a new request. Returns whether the core's bank worked.
    #[tactic(auto, using(crate::proofs::NodeServes::node_serves))]
    fn serve(
        &mut self,
        identity: &mut Identity,
        role: Role,
        given: C::Given,
        request: &Request<'_>,
        outbox: &mut Outbox,
    ) -> bool
        requires { outbox.old ≡ [] }
        ensures half { half_of 0 (C.seen self.new.core) self.new.ends
            ≡ (node_outcome_of role identity.old.endpoint identity.old.tid
            (half_on_incoming (C.does given) result (half_of 0 (C.seen self.old.core) self.old.ends)
            (IncomingOf.New request.now))).half }
        ensures tid { identity.new.tid
            ≡ (node_outcome_of role identity.old.endpoint identity.old.tid
            (half_on_incoming (C.does given) result (half_of 0 (C.seen self.old.core) self.old.ends)
            (IncomingOf.New request.now))).tid }
        ensures packets { outbox.new ≡ all_packets self.old.ends.asking.unit
            (node_outcome_of role identity.old.endpoint identity.old.tid
            (half_on_incoming (C.does given) result (half_of 0 (C.seen self.old.core) self.old.ends)
            (IncomingOf.New request.now))).sent }
        ensures worked { result ≡ true → C.faults self.new.core ≡ C.faults self.old.core }
        ensures failed { result ≡ false → CountsFailure (C.faults self.old.core) (C.faults self.new.core) }
        ensures called { result ≡ false
            → incoming_calls_bank (C.does given) (half_of 0 (C.seen self.old.core) self.old.ends)
            (IncomingOf.New request.now) ≡ true }
        ensures endpoint { identity.new.endpoint ≡ identity.old.endpoint }
        ensures own { self.new.ends.asking.own ≡ self.old.ends.asking.own }
        ensures unit { self.new.ends.asking.unit ≡ self.old.ends.asking.unit }
    {
        if request.head().pldm_type == TYPE_FIRMWARE_UPDATE {
            return self.take(given, request, outbox);
        }
        let reply = reply_to_other(&mut identity.tid, role, request);
        self.answer(request, reply.as_slice(), outbox);
        true
    }

    /// Keeps and sends the answer to a new request.
    fn answer(&mut self, request: &Request<'_>, reply: &[u8], outbox: &mut Outbox)
        requires reply { length reply.now ≤ MAX_REPLY }
        requires outbox { outbox.old ≡ [] }
        ensures after { self.new ≡ record self.old {
          ends = record self.old.ends {
            answering = answered_with self.old.ends.answering request.now reply.now;
          };
        } }
        ensures packets { outbox.new ≡ all_packets self.old.ends.asking.unit
            (reply_message request.now.message request.now.head reply.now ∷ []) }
    {
        let answer = self.ends.answer(request, reply);
        outbox.send(self.ends.unit(), &answer);
    }

    /// Takes a firmware update command, and answers it. Returns whether the core's bank worked.
    fn take(&mut self, given: C::Given, request: &Request<'_>, outbox: &mut Outbox) -> bool
        requires { outbox.old ≡ [] }
        ensures half { half_of 0 (C.seen self.new.core) self.new.ends
            ≡ half_after_settle (C.does given) (half_after_reply
            (half_of 0 (reply_read (C.does given) (is_quiet self.old.ends.asking.caller) result
            (C.seen self.old.core) (read_by (C.does given) request.now.head.command
            request.now.body)).core self.old.ends) (reply_message request.now.message
            request.now.head (reply_read (C.does given) (is_quiet self.old.ends.asking.caller)
            result (C.seen self.old.core) (read_by (C.does given) request.now.head.command
            request.now.body)).reply)) }
        ensures packets { outbox.new ≡ all_packets self.old.ends.asking.unit
            (reply_message request.now.message request.now.head
            (reply_read (C.does given) (is_quiet self.old.ends.asking.caller) result
            (C.seen self.old.core) (read_by (C.does given) request.now.head.command
            request.now.body)).reply ∷ []) }
        ensures worked { result ≡ true → C.faults self.new.core ≡ C.faults self.old.core }
        ensures failed { result ≡ false → CountsFailure (C.faults self.old.core) (C.faults self.new.core) }
        ensures called { result ≡ false
            → read_calls_bank (C.does given) (is_quiet self.old.ends.asking.caller)
            (C.seen self.old.core) (read_by (C.does given) request.now.head.command
            request.now.body) ≡ true }
        ensures own { self.new.ends.asking.own ≡ self.old.ends.asking.own }
        ensures unit { self.new.ends.asking.unit ≡ self.old.ends.asking.unit }
    {
        let (reply, works) = self.reply_to(given, request);
        self.answer(request, reply.as_slice(), outbox);
        self.settle(given);
        works
    }

    /// Returns the core's reply to a firmware update command, and whether its bank worked.
    #[tactic(auto, using(crate::proofs::NodeServes::node_serves))]
    fn reply_to(&mut self, given: C::Given, request: &Request<'_>) -> (Reply, bool)
        ensures core { C.seen self.new.core
            ≡ (reply_read (C.does given) (is_quiet self.old.ends.asking.caller) result.1
            (C.seen self.old.core) (read_by (C.does given) request.now.head.command
            request.now.body)).core }
        ensures ends { self.new.ends ≡ self.old.ends }
        ensures reply { result.0.items
            ≡ (reply_read (C.does given) (is_quiet self.old.ends.asking.caller) result.1
            (C.seen self.old.core) (read_by (C.does given) request.now.head.command
            request.now.body)).reply }
        ensures worked { result.1 ≡ true → C.faults self.new.core ≡ C.faults self.old.core }
        ensures failed { result.1 ≡ false → CountsFailure (C.faults self.old.core) (C.faults self.new.core) }
        ensures called { result.1 ≡ false
            → read_calls_bank (C.does given) (is_quiet self.old.ends.asking.caller)
            (C.seen self.old.core) (read_by (C.does given) request.now.head.command
            request.now.body) ≡ true }
    {
        let command = request.head().command;
        if !self.core.serves(given, command) {
            return (code_alone(ERROR_UNSUPPORTED_PLDM_CMD), true);
        }
        let quiet = self.ends.is_quiet();
        match fwup_wire::read(command, request.body()) {
            Ok(command) => self.core.take(given, &command, quiet),
            Err(code) => (code_alone(code), true),
        }
    }

    /// The first part of a tick: held packets, kept answers and the open request grow older, and
    /// the request is sent again or given up.
    pub(crate) fn grow(&mut self, given: C::Given, outbox: &mut Outbox)
        requires { length outbox.old ≤ 60 }
        ensures half { half_of 0 (C.seen self.new.core) self.new.ends
            ≡ half_grows (C.does given) (half_of 0 (C.seen self.old.core) self.old.ends) }
        ensures packets { outbox.new ≡ outbox.old
            ++ all_packets self.old.ends.asking.unit (sent_by
            (caller_tick self.old.ends.asking.caller).1) }
        ensures few { length outbox.new ≤ length outbox.old + 4 * length (sent_by (caller_tick self.old.ends.asking.caller).1) }
        ensures lawful { IsAsking self.old.ends.asking.peer self.old.ends.asking.caller }
        ensures faults { C.faults self.new.core ≡ C.faults self.old.core }
        ensures own { self.new.ends.asking.own ≡ self.old.ends.asking.own }
        ensures unit { self.new.ends.asking.unit ≡ self.old.ends.asking.unit }
    {
        let call = self.ends.tick();
        send_again(&self.ends, outbox, call);
        if let CallTick::GaveUp = call {
            self.core.silent(given);
        }
    }

    /// The rest of a tick: the core's own; then an open request that is no longer the pending
    /// command is given up, and a pending command begins.
    pub(crate) fn wait(&mut self, given: C::Given, outbox: &mut Outbox)
        requires { length outbox.old + 4 * length (half_waits (C.does given)
            (half_of 0 (C.seen self.old.core) self.old.ends)).sent ≤ 64 }
        ensures half { half_of 0 (C.seen self.new.core) self.new.ends
            ≡ (half_waits (C.does given) (half_of 0 (C.seen self.old.core) self.old.ends)).half }
        ensures packets { outbox.new ≡ outbox.old
            ++ all_packets self.old.ends.asking.unit (half_waits (C.does given)
            (half_of 0 (C.seen self.old.core) self.old.ends)).sent }
        ensures few { length outbox.new
            ≤ length outbox.old + 4 * length (half_waits (C.does given)
            (half_of 0 (C.seen self.old.core) self.old.ends)).sent }
        ensures core { C.seen self.new.core ≡ (C.does given).ticked (C.seen self.old.core) }
        ensures faults { C.faults self.new.core ≡ C.faults self.old.core }
        ensures own { self.new.ends.asking.own ≡ self.old.ends.asking.own }
        ensures unit { self.new.ends.asking.unit ≡ self.old.ends.asking.unit }
    {
        self.core.tick(given);
        if self.core.may_wish(given) {
            self.ask(given, outbox);
        } else {
            self.ends.abandon();
        }
    }

    /// Gives up an open request that is no longer the pending command, and begins a pending
    /// command.
    fn ask(&mut self, given: C::Given, outbox: &mut Outbox)
        requires { length outbox.old + 4 * length (last_part (C.does given)
            (half_of 0 (C.seen self.old.core) self.old.ends) []).sent ≤ 64 }
        ensures half { half_of 0 (C.seen self.new.core) self.new.ends
            ≡ (last_part (C.does given) (half_of 0 (C.seen self.old.core) self.old.ends) []).half }
        ensures packets { outbox.new ≡ outbox.old
            ++ all_packets self.old.ends.asking.unit (last_part (C.does given)
            (half_of 0 (C.seen self.old.core) self.old.ends) []).sent }
        ensures few { length outbox.new
            ≤ length outbox.old + 4 * length (last_part (C.does given)
            (half_of 0 (C.seen self.old.core) self.old.ends) []).sent }
        ensures core { self.new.core ≡ self.old.core }
        ensures own { self.new.ends.asking.own ≡ self.old.ends.asking.own }
        ensures unit { self.new.ends.asking.unit ≡ self.old.ends.asking.unit }
    {
        let wish = self.core.wish(given);
        self.ends.abandon_unless(&wish);
        let Some(command) = wish else {
            return;
        };
        if !self.ends.can_begin() {
            return;
        }
        let message = self.ends.begin(&command);
        outbox.send(self.ends.unit(), &message);
    }

    /// Restarts.
    pub(crate) fn restart(&mut self)
        ensures core { (given : C.Given) → C.seen self.new.core ≡ (C.does given).restarted (C.seen self.old.core) }
        ensures ends { self.new.ends ≡ ends_new self.old.ends.asking.unit self.old.ends.asking.own self.old.ends.asking.peer }
        ensures faults { C.faults self.new.core ≡ C.faults self.old.core }
    {
        self.core.restart();
        self.ends = Ends::new(self.ends.unit(), self.ends.own(), self.ends.peer());
    }
}
