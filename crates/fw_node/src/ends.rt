//! Both directions of exchanges of a node with one peer.

ghost use Rattle.std.specs.Prelude.{◌≡◌, ◌≤◌, None, length, option_map, true};
ghost use Rattle.mctp_wire.specs.Packet.{IsRead, spelling};
ghost use Rattle.fwup_wire.specs.Commands.{IsWritable, command_bytes, command_code};
ghost use Rattle.fwup_wire.specs.Lent.{command_of};
ghost use Rattle.pldm_exch.specs.Caller.{begin_outcome, caller_tick, is_quiet, may_begin, tick_of, tick_word};
ghost use Rattle.pldm_exch.specs.Requests.{reply_message};
ghost use Rattle.pldm_exch.specs.Sides.{answered_with, answering_row, asking_after, asking_row};
ghost use Rattle.fw_node.specs.BothEnds.{IsAsking, ends_new, ends_older};
ghost use Rattle.fw_node.specs.Halves.{answering_after, incoming, unwished_abandoned, wished_or};
ghost use Rattle.fw_node.specs.Brings.{HasHead, incoming_of};

use crate::incoming::Incoming;
use fwup_wire::Command;
use mctp_reasm::Message;
use mctp_wire::{Packet, Unit};
use pldm_base::MAX_REPLY;
use pldm_exch::{Asker, CallTick, Request, Taker};
use std::marker::Model;

/// The state of a node that asks a peer, and answers it.
#[derive(Drop)]
pub(crate) struct Ends {
    asker: Asker,
    taker: Taker,
}

impl Model for Ends {
    ghost use Rattle.std.specs.Prelude.{◌≡◌};
    ghost use Rattle.fw_node.specs.BothEnds.{EndsOf, IsAsking};

    ghost Value = { EndsOf };

    ghost view = { λ e. record { asking = e.asker; answering = e.taker } };

    ghost invariant = { λ e. (e.taker.unit ≡ e.asker.unit)
        × (e.taker.own ≡ e.asker.own)
        × (e.taker.peer ≡ e.asker.peer)
        × IsAsking e.asker.peer e.asker.caller };
}

impl Ends {
    /// Creates the ends of the node `own` for the node `peer` in a network with this transmission
    /// unit.
    #[tactic(auto, using(crate::proofs::OneATick::callers_stay))]
    pub(crate) fn new(unit: Unit, own: u8, peer: u8) -> Ends
        ensures { result ≡ ends_new unit own peer }
    {
        Ends {
            asker: Asker::new(unit, own, peer),
            taker: Taker::new(unit, own, peer),
        }
    }

    /// The network's transmission unit.
    pub(crate) fn unit(&self) -> Unit
        ensures { result ≡ self.now.asking.unit }
    {
        self.asker.unit()
    }

    /// The node's own endpoint identifier.
    pub(crate) fn own(&self) -> u8
        ensures { result ≡ self.now.asking.own }
    {
        self.asker.own()
    }

    /// The peer's endpoint identifier.
    pub(crate) fn peer(&self) -> u8
        ensures { result ≡ self.now.asking.peer }
    {
        self.asker.peer()
    }

    /// Whether nothing of the last request can arrive any more.
    pub(crate) fn is_quiet(&self) -> bool
        ensures { result ≡ is_quiet self.now.asking.caller }
    {
        self.asker.is_quiet()
    }

    /// Gives up the open request, if there is one.
    #[tactic(auto, using(crate::proofs::OneATick::callers_stay))]
    pub(crate) fn abandon(&mut self)
        ensures { self.new ≡ record self.old {
          asking = record self.old.asking {
            caller = unwished_abandoned None self.old.asking.caller;
          };
        } }
    {
        if self.asker.is_open() {
            self.asker.abandon();
        }
    }

    /// Gives up the open request, unless it is of this command.
    #[tactic(auto, using(crate::proofs::OneATick::callers_stay))]
    pub(crate) fn abandon_unless(&mut self, wish: &Option<Command<'_>>)
        ensures { self.new ≡ record self.old {
          asking = record self.old.asking {
            caller = unwished_abandoned (option_map command_of wish.now) self.old.asking.caller;
          };
        } }
    {
        if !self.is_wished(wish) {
            self.asker.abandon();
        }
    }

    /// Whether no request is open, or the open one is of this command.
    fn is_wished(&self, wish: &Option<Command<'_>>) -> bool
        ensures { result ≡ wished_or (option_map command_of wish.now) self.now.asking.caller.asked }
    {
        let Some((command, body)) = self.asker.open_request() else {
            return true;
        };
        let (Ok(asked), Some(wish)) = (fwup_wire::read(command, body), wish) else {
            return false;
        };
        asked.is_same(wish)
    }

    /// Whether a request may begin.
    pub(crate) fn can_begin(&self) -> bool
        ensures { result ≡ may_begin self.now.asking.caller }
    {
        self.asker.can_begin()
    }

    /// Begins a request of this command. Returns the message to send.
    #[tactic(auto, using(crate::proofs::OneATick::callers_stay))]
    pub(crate) fn begin(&mut self, command: &Command<'_>) -> Message
        requires may { may_begin self.old.asking.caller ≡ true }
        requires fits { IsWritable (command_of command.now) }
        ensures request { result ≡ (begin_outcome self.old.asking.caller 5
            (command_code (command_of command.now)) (command_bytes (command_of command.now))).1 }
        ensures after { self.new ≡ record self.old {
          asking = record self.old.asking {
            caller = (begin_outcome self.old.asking.caller 5 (command_code (command_of command.now))
                (command_bytes (command_of command.now))).0;
          };
        } }
    {
        let body = fwup_wire::write(command);
        self.asker.begin(command.code(), body.as_slice())
    }

    /// The message of the open request.
    pub(crate) fn open_message(&self) -> Option<&Message>
        ensures { option_map (λ m. m.now) result ≡ option_map (λ o. o.message) self.now.asking.caller.asked }
    {
        self.asker.open_message()
    }

    /// Handles a packet, and writes the message that the result refers to into `message`.
    #[tactic(auto, using(crate::proofs::Rows::rows, crate::proofs::OneATick::callers_stay))]
    pub(crate) fn receive(&mut self, packet: &Packet<'_>, message: &mut Message) -> Incoming
        requires read { IsRead packet.now }
        ensures head { HasHead result }
        ensures incoming { incoming_of result message.new
            ≡ incoming (asking_row self.old.asking (spelling packet.now))
            (answering_row self.old.answering (spelling packet.now)) }
        ensures asking { self.new.asking ≡ asking_after self.old.asking (asking_row self.old.asking (spelling packet.now)) }
        ensures stays { (self.new.asking.unit ≡ self.old.asking.unit)
            × (self.new.asking.own ≡ self.old.asking.own)
            × (self.new.asking.peer ≡ self.old.asking.peer) }
        ensures lawful { (self.old.answering.unit ≡ self.old.asking.unit)
            × (self.old.answering.own ≡ self.old.asking.own)
            × (self.old.answering.peer ≡ self.old.asking.peer) }
        ensures answering { self.new.answering
            ≡ answering_after (asking_row self.old.asking (spelling packet.now)) self.old.answering
            (answering_row self.old.answering (spelling packet.now)) }
    {
        if let Some(command) = self.asker.on_reply(packet, message) {
            return Incoming::Learnt(command);
        }
        Incoming::Brought(self.taker.on_request(packet, message))
    }

    /// Answers a new request with a completion code and fields. Returns the message to send, which
    /// is kept.
    pub(crate) fn answer(&mut self, request: &Request<'_>, reply: &[u8]) -> Message
        requires { length reply.now ≤ MAX_REPLY }
        ensures answer { result ≡ reply_message request.now.message request.now.head reply.now }
        ensures after { self.new ≡ record self.old { answering = answered_with self.old.answering request.now reply.now } }
    {
        self.taker.answer(request, reply)
    }

    /// Handles a tick: held packets, kept answers and the open request grow older, and the request
    /// is sent again or given up. The message to send is that of the open request afterwards.
    #[tactic(auto, using(crate::proofs::OneATick::callers_stay))]
    pub(crate) fn tick(&mut self) -> CallTick
        ensures answer { result ≡ tick_word (caller_tick self.old.asking.caller).1 }
        ensures message { tick_of result self.new.asking.caller.asked ≡ (caller_tick self.old.asking.caller).1 }
        ensures after { self.new ≡ ends_older self.old }
        ensures lawful { IsAsking self.old.asking.peer self.old.asking.caller }
    {
        self.taker.tick();
        self.asker.tick()
    }
}
