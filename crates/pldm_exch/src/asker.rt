//! The end of a node that asks a peer.

ghost use Rattle.std.specs.Prelude.{◌≡◌, ◌≤◌, List, ℕ, false, is_some, length, option_map, true};
ghost use Rattle.mctp_reasm.specs.Inboxes.{packet_for};
ghost use Rattle.mctp_wire.specs.Packet.{IsRead, spelling};
ghost use Rattle.pldm_base.specs.Limits.{reply_limit};
ghost use Rattle.pldm_exch.specs.Caller.{caller_after_abandon, request_of_open, begin_outcome, caller_tick, is_quiet, may_begin, tick_of, tick_word};
ghost use Rattle.pldm_exch.specs.Ends.{asking_new, asking_older};
ghost use Rattle.pldm_exch.specs.Sides.{asking_after, asking_row, reply_in_message, reply_in_row, message_after_packet};

use crate::caller::{CallTick, Caller};
use mctp_reasm::{Inbox, Message, Taken};
use mctp_wire::{Packet, Unit};
use pldm_base::TYPE_FIRMWARE_UPDATE;
use std::marker::Model;

/// The state of a node that asks one peer: its requests, and the assemblies of that peer's replies.
/// A node that is deaf passes it neither packets nor ticks.
#[derive(Drop)]
pub struct Asker {
    caller: Caller,
    inbox: Inbox,
}

impl Model for Asker {
    ghost use Rattle.std.specs.Prelude.{◌≡◌, false};
    ghost use Rattle.pldm_exch.specs.Ends.{AskingOf};

    ghost Value = { AskingOf };

    ghost view = { λ a. record {
      unit = a.inbox.unit;
      own = a.inbox.own;
      peer = a.inbox.peer;
      caller = a.caller;
      replies = a.inbox.held;
    } };

    ghost invariant = { λ a. a.inbox.to ≡ false };
}

impl Asker {
    /// Returns the asker of the node `own` for the peer `peer` in a network with this transmission
    /// unit, before its first request.
    pub fn new(unit: Unit, own: u8, peer: u8) -> Asker
        ensures { result ≡ asking_new unit own peer }
    {
        Asker {
            caller: Caller::new(own, peer),
            inbox: Inbox::new(unit, own, peer, false),
        }
    }

    /// Returns the network's transmission unit.
    pub fn unit(&self) -> Unit
        ensures { result ≡ self.now.unit }
    {
        self.inbox.unit()
    }

    /// Returns the node's own endpoint identifier.
    pub fn own(&self) -> u8
        ensures { result ≡ self.now.own }
    {
        self.inbox.own()
    }

    /// Returns the endpoint identifier of the peer.
    pub fn peer(&self) -> u8
        ensures { result ≡ self.now.peer }
    {
        self.inbox.peer()
    }

    /// Returns whether a request waits for its reply.
    pub fn is_open(&self) -> bool
        ensures { result ≡ is_some self.now.caller.asked }
    {
        self.caller.is_open()
    }

    /// Returns the command and the request data of the request that waits for its reply.
    pub fn open_request(&self) -> Option<(u8, &[u8])>
        ensures { option_map {U = ℕ × List ℕ} (λ r. (r.0, r.1.now)) result ≡ option_map request_of_open self.now.caller.asked }
    {
        self.caller.open_request()
    }

    /// Returns the message of the request that waits for its reply.
    pub fn open_message(&self) -> Option<&Message>
        ensures { option_map (λ m. m.now) result ≡ option_map (λ o. o.message) self.now.caller.asked }
    {
        self.caller.open_message()
    }

    /// Returns whether the asker is quiet: no request is open, and the last one was answered or
    /// its tag has rested.
    pub fn is_quiet(&self) -> bool
        ensures { result ≡ is_quiet self.now.caller }
    {
        self.caller.quiet()
    }

    /// Returns whether a request may begin: the asker is quiet, and the next tag has rested.
    pub fn can_begin(&self) -> bool
        ensures { result ≡ may_begin self.now.caller }
    {
        self.caller.can_begin()
    }

    /// Begins a request of PLDM type 5, and returns the message to send. The request data must fit
    /// one message of the transmission unit.
    pub fn begin(&mut self, command: u8, body: &[u8]) -> Message
        requires may { may_begin self.old.caller ≡ true }
        requires body { length body.now ≤ reply_limit self.old.unit }
        ensures request { result ≡ (begin_outcome self.old.caller 5 command body.now).1 }
        ensures after { self.new ≡ record self.old { caller = (begin_outcome self.old.caller 5 command body.now).0 } }
    {
        let unit = self.unit();
        self.caller.begin(unit, TYPE_FIRMWARE_UPDATE, command, body)
    }

    /// Abandons the open request: it isn't sent again, and its reply is dropped.
    pub fn abandon(&mut self)
        ensures { self.new ≡ record self.old { caller = caller_after_abandon self.old.caller } }
    {
        self.caller.abandon();
    }

    /// Takes a packet. Returns the command of the open request if the packet completes its reply.
    /// Writes a message that the packet completes into `message`, which otherwise is left as it is;
    /// the reply is that message's body. A packet that isn't of the peer's replies changes nothing.
    #[tactic(auto, using(crate::proofs::SideRows::rows))]
    pub fn on_reply(&mut self, packet: &Packet<'_>, message: &mut Message) -> Option<u8>
        requires read { IsRead packet.now }
        ensures learnt { option_map (λ command. reply_in_message command message.new) result
            ≡ reply_in_row (asking_row self.old (spelling packet.now)) }
        ensures message { message.new ≡ message_after_packet self.old.unit self.old.replies
            (packet_for self.old.unit self.old.own self.old.peer false (spelling packet.now))
            message.old }
        ensures after { self.new ≡ asking_after self.old (asking_row self.old (spelling packet.now)) }
    {
        if !self.inbox.accepts(packet) {
            return None;
        }
        let Taken::Whole = self.inbox.feed(packet, message) else {
            return None;
        };
        let Some(heard) = self.caller.on_answer(message) else {
            return None;
        };
        Some(heard.command)
    }

    /// Counts a tick: held packets grow older, and the open request is sent again or given up. The
    /// message to send is that of the request which is open afterwards.
    pub fn tick(&mut self) -> CallTick
        ensures answer { result ≡ tick_word (caller_tick self.old.caller).1 }
        ensures message { tick_of result self.new.caller.asked ≡ (caller_tick self.old.caller).1 }
        ensures after { self.new ≡ asking_older self.old }
    {
        self.inbox.tick();
        self.caller.tick()
    }
}
