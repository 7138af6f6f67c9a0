//! The requests of one direction.

ghost use Rattle.std.specs.Prelude.{◌≡◌, ◌≤◌, ◌%◌, length, List, ℕ, IfSome, IsSome, IsSomeAnd, option_map, is_some, true};
ghost use Rattle.pldm_base.specs.Limits.{reply_limit};
ghost use Rattle.pldm_exch.specs.Caller.{IsAnswerTo, IsCaller, caller_after_abandon, answer_body, answer_outcome, request_of_open, begin_outcome, caller_tick, new_caller, is_answer_head, is_quiet, may_begin, sends_at, tick_of, tick_word};
ghost use Rattle.pldm_exch.specs.Fields.{open_of};

use crate::rests::Rests;
use crate::times::{GIVEN_UP, RETRY};
use mctp_reasm::{Message, TAGS};
use mctp_wire::Unit;
use pldm_base::{MAX_REPLY, PldmHead};
use std::marker::Model;

/// The modulus of the requests' numbers: an instance identifier has five bits (DSP0240).
const IDENTIFIERS: u8 = 32;

/// Returns the tag of the request with this identifier.
fn tag_of(identifier: u8) -> u8
    ensures { result ≡ identifier % 8 }
{
    identifier % TAGS as u8
}

/// A request that waits for its answer, and the ticks since it began.
#[derive(Drop)]
struct OpenRequest {
    head: PldmHead,
    message: Message,
    age: u8,
}

impl OpenRequest {
    /// Returns the body of a message if it is an answer to this request.
    fn answer_in<'m>(&self, message: &'m Message) -> Option<&'m [u8]>
        ensures value { option_map (λ b. b.now) result ≡ answer_body (open_of self.now) message.now }
        ensures found { IfSome result (λ b. IsAnswerTo (open_of self.now) message.now b.now) }
        ensures only { (body : List ℕ) → IsAnswerTo (open_of self.now) message.now body → IsSome result }
        ensures short { IfSome result (λ b. length b.now ≤ MAX_REPLY) }
    {
        if message.to() || message.tag() != self.message.tag() {
            return None;
        }
        let Ok((head, body)) = pldm_base::decode(message.bytes()) else {
            return None;
        };
        if self.is_answered_by(&head) {
            Some(body)
        } else {
            None
        }
    }

    /// Returns whether the request is sent again at its age.
    fn is_due(&self) -> bool
        ensures { result ≡ sends_at self.now.age }
    {
        self.age == RETRY || self.age == 2 * RETRY
    }

    /// Returns whether the head of a message is that of an answer to this request.
    fn is_answered_by(&self, head: &PldmHead) -> bool
        ensures { result ≡ is_answer_head (open_of self.now) head.now }
    {
        !head.rq
            && head.instance == self.head.instance
            && head.pldm_type == self.head.pldm_type
            && head.command == self.head.command
    }
}

/// An answer to a request.
#[derive(Clone, Copy, PartialEq, Eq)]
pub struct ReplyIn<'m> {
    /// The command of the request.
    pub command: u8,
    /// The bytes after the header, borrowed from the message: the completion code and the fields.
    pub reply: &'m [u8],
}

/// The result of a tick.
#[derive(Clone, Copy, Debug, PartialEq, Eq)]
pub enum CallTick {
    /// Nothing is to be sent.
    Nothing,
    /// The message of the open request is sent again.
    Send,
    /// The open request was given up without an answer.
    GaveUp,
}

/// The requests of one direction: at most one is open.
#[derive(Drop)]
pub struct Caller {
    own: u8,
    peer: u8,
    number: u8,
    rests: Rests,
    asked: Option<OpenRequest>,
    answered: bool,
}

impl Model for Caller {
    ghost use Rattle.std.specs.Prelude.{option_map};
    ghost use Rattle.pldm_exch.specs.Caller.{CallerState, IsCaller};
    ghost use Rattle.pldm_exch.specs.Fields.{open_of};

    ghost Value = { CallerState };

    ghost view = { λ c. record {
      own = c.own;
      peer = c.peer;
      number = c.number;
      rests = c.rests;
      asked = option_map open_of c.asked;
      answered = c.answered;
    } };

    ghost invariant = { λ c. IsCaller (record {
      own = c.own;
      peer = c.peer;
      number = c.number;
      rests = c.rests;
      asked = option_map open_of c.asked;
      answered = c.answered;
    }) };
}

impl Caller {
    /// Returns the caller of the node `own` for the peer `peer`, before its first request.
    #[tactic(auto, using(crate::proofs::Callers::callers))]
    pub fn new(own: u8, peer: u8) -> Caller
        ensures { result ≡ new_caller own peer }
    {
        Caller {
            own,
            peer,
            number: 0,
            rests: Rests::new(),
            asked: None,
            answered: true,
        }
    }

    /// Returns whether a request is open: it waits for its answer.
    pub fn is_open(&self) -> bool
        ensures value { result ≡ is_some self.now.asked }
        ensures lawful { IsCaller self.now }
    {
        self.asked.is_some()
    }

    /// Returns the command and the request data of the open request.
    #[tactic(auto, using(crate::proofs::Callers::open_bytes))]
    pub fn open_request(&self) -> Option<(u8, &[u8])>
        ensures { option_map {U = ℕ × List ℕ} (λ r. (r.0, r.1.now)) result ≡ option_map request_of_open self.now.asked }
    {
        let Some(open) = &self.asked else {
            return None;
        };
        let [_, _, _, _, body @ ..] = open.message.bytes() else {
            return None;
        };
        Some((open.head.command, body))
    }

    /// Returns the message of the open request.
    pub fn open_message(&self) -> Option<&Message>
        ensures { option_map (λ m. m.now) result ≡ option_map (λ o. o.message) self.now.asked }
    {
        let Some(open) = &self.asked else {
            return None;
        };
        Some(&open.message)
    }

    /// Returns whether the caller is quiet: no request is open, and the last one was answered or
    /// its tag has rested.
    pub fn quiet(&self) -> bool
        ensures value { result ≡ is_quiet self.now }
        ensures lawful { IsCaller self.now }
    {
        let last = (self.number + (IDENTIFIERS - 1)) % IDENTIFIERS;
        self.asked.is_none() && (self.answered || self.rests.is_rested(tag_of(last)))
    }

    /// Returns the ticks until each of the eight tags may be used again.
    pub fn rests(&self) -> &[u8; TAGS]
        ensures value { result.now ≡ self.now.rests }
        ensures lawful { IsCaller self.now }
    {
        self.rests.row()
    }

    /// Returns whether a request may begin: the caller is quiet, and the next tag has rested.
    pub fn can_begin(&self) -> bool
        ensures value { result ≡ may_begin self.now }
        ensures lawful { IsCaller self.now }
    {
        self.quiet() && self.rests.is_rested(tag_of(self.number))
    }

    /// Begins a request of a PLDM type and a command, and returns the message to send. Request n
    /// (from 0) has tag n modulo 8 and identifier n modulo 32. A request must be allowed to begin
    /// (`can_begin`), the type must be at most 63, and the body must fit one message of the
    /// transmission unit.
    #[tactic(auto, using(crate::proofs::Callers::callers))]
    pub fn begin(&mut self, unit: Unit, pldm_type: u8, command: u8, body: &[u8]) -> Message
        requires may { may_begin self.old ≡ true }
        requires pldm_type { pldm_type ≤ 63 }
        requires body { length body.now ≤ reply_limit unit }
        ensures request { result ≡ (begin_outcome self.old pldm_type command body.now).1 }
        ensures after { self.new ≡ (begin_outcome self.old pldm_type command body.now).0 }
    {
        let tag = tag_of(self.number);
        let head = PldmHead {
            rq: true,
            instance: self.number,
            pldm_type,
            command,
        };
        let bytes = pldm_base::encode(&head, body);
        let Ok(message) = Message::new(unit, self.peer, self.own, true, tag, bytes.as_slice())
        else {
            unreachable!()
        };
        let again = message.again();
        self.rests.start(tag);
        self.number = (self.number + 1) % IDENTIFIERS;
        self.answered = false;
        self.asked = Some(OpenRequest {
            head,
            message: again,
            age: 0,
        });
        message
    }

    /// Takes a message. An answer to the open request closes the request and is returned: TO and Rq
    /// are clear, and tag, identifier, type and command are the request's. Any other message
    /// changes nothing.
    #[tactic(auto, using(crate::proofs::Callers::callers))]
    pub fn on_answer<'m>(&mut self, message: &'m Message) -> Option<ReplyIn<'m>>
        ensures answer { option_map (λ r. record { command = r.command; reply = r.reply.now })
            result ≡ (answer_outcome self.old message.now).1 }
        ensures after { self.new ≡ (answer_outcome self.old message.now).0 }
        ensures found { IfSome result (λ r. IsSomeAnd self.old.asked
            (λ o. IsAnswerTo o message.now r.reply.now × (r.command ≡ o.command))) }
        ensures only { (body : List ℕ) → IsSomeAnd self.old.asked (λ o. IsAnswerTo o message.now body) → IsSome result }
    {
        let Some(open) = &self.asked else {
            return None;
        };
        let Some(reply) = open.answer_in(message) else {
            return None;
        };
        let command = open.head.command;
        self.asked = None;
        self.answered = true;
        Some(ReplyIn { command, reply })
    }

    /// Abandons the open request, if there is one: it isn't sent again, and its answer is dropped.
    #[tactic(auto, using(crate::proofs::Callers::callers))]
    pub fn abandon(&mut self)
        ensures { self.new ≡ caller_after_abandon self.old }
    {
        let _ = self.asked.take();
    }

    /// Counts a tick. The open request is sent again 6 and 12 ticks after it began, and given up
    /// after 18. The message to send is that of the request which is open afterwards.
    #[tactic(auto, using(crate::proofs::Callers::callers))]
    pub fn tick(&mut self) -> CallTick
        ensures answer { result ≡ tick_word (caller_tick self.old).1 }
        ensures message { tick_of result self.new.asked ≡ (caller_tick self.old).1 }
        ensures after { self.new ≡ (caller_tick self.old).0 }
    {
        self.rests.tick();
        let Some(open) = &mut self.asked else {
            return CallTick::Nothing;
        };
        open.age += 1;
        if open.is_due() {
            self.rests.start(open.message.tag());
            return CallTick::Send;
        }
        if open.age == GIVEN_UP {
            self.asked = None;
            return CallTick::GaveUp;
        }
        CallTick::Nothing
    }
}
