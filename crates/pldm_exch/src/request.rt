//! Requests, as the answering node receives them.

ghost use Rattle.std.specs.Prelude.{◌≡◌, ◌≤◌, length};
ghost use Rattle.pldm_base.specs.Header.{IsPldmHead, pldm_of};
ghost use Rattle.pldm_exch.specs.Requests.{body_in};

use mctp_reasm::Message;
use pldm_base::{MAX_REPLY, PldmHead};
use std::marker::Model;

/// A received PLDM request that is to be answered, and its message.
#[derive(Drop)]
pub struct Request<'m> {
    pub(crate) message: &'m Message,
    pub(crate) head: PldmHead,
}

impl<'m> Model for Request<'m> {
    ghost use Rattle.pldm_base.specs.Header.{IsPldmHead, pldm_of};
    ghost use Rattle.pldm_exch.specs.Requests.{RequestOf, body_in};

    ghost Value = { RequestOf };

    ghost view = { λ r. record { message = r.message.now; head = r.head; body = body_in (pldm_of r.message.now.bytes) } };

    ghost invariant = { λ r. IsPldmHead r.head };
}

impl<'m> Request<'m> {
    /// Returns the request in this message with this head, which `Received::New` holds.
    pub fn new(message: &'m Message, head: PldmHead) -> Request<'m>
        requires { IsPldmHead head }
        ensures { result ≡ record { message = message.now; head = head; body = body_in (pldm_of message.now.bytes) } }
    {
        Request { message, head }
    }

    /// Returns the head of its message.
    pub fn head(&self) -> PldmHead
        ensures { result ≡ self.now.head }
    {
        self.head
    }

    /// Its request data.
    pub fn body(&self) -> &[u8]
        ensures { result.now ≡ self.now.body }
    {
        body_of(self.message)
    }
}

/// Returns the bytes after the header of a PLDM message, at most `MAX_REPLY`; for any other
/// message, no bytes.
pub fn body_of(message: &Message) -> &[u8]
    ensures body { result.now ≡ body_in (pldm_of message.now.bytes) }
    ensures short { length result.now ≤ MAX_REPLY }
{
    match pldm_base::decode(message.bytes()) {
        Ok((_, body)) => body,
        Err(_) => &[],
    }
}

/// The outcome of a packet at the node that answers. The message that it names is in a place of its
/// own.
#[derive(Clone, Copy, PartialEq, Eq)]
pub enum Received {
    /// There is nothing to do.
    Nothing,
    /// A request was repeated. The message is its kept answer: the node sends it again, and does
    /// nothing else.
    Again,
    /// The message is a new request with this head, which is to be answered.
    New(PldmHead),
    /// The message is complete and no PLDM request.
    Strays,
}
