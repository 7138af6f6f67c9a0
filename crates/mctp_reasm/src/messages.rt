//! Messages of 1 byte to four packets' bodies.

use arrayvec::ArrayVec;
use mctp_wire::{MAX_MESSAGE, MAX_PACKETS, Unit};
use std::marker::Model;
use thiserror::Error;

/// A message between two endpoints.
#[derive(PartialEq, Eq, Drop)]
pub struct Message {
    pub(crate) dest: u8,
    pub(crate) source: u8,
    pub(crate) to: bool,
    pub(crate) tag: u8,
    pub(crate) bytes: ArrayVec<u8, MAX_MESSAGE>,
}

impl Model for Message {
    ghost use Rattle.std.specs.Prelude.{◌≤◌, length};
    ghost use Rattle.mctp_reasm.specs.Pieces.{MessageOf};
    ghost use Rattle.mctp_wire.specs.declared.unit.TheConstants.{MAX_MESSAGE};

    ghost Value = { MessageOf };

    ghost view = { λ m. record { dest = m.dest; source = m.source; to = m.to; tag = m.tag; bytes = m.bytes.items } };

    ghost invariant = { λ m. (m.tag ≤ 7) × (1 ≤ length m.bytes.items) × (length m.bytes.items ≤ MAX_MESSAGE) };

    ghost inverse = { λ v. record {
      dest = v.dest;
      source = v.source;
      to = v.to;
      tag = v.tag;
      bytes = record { items = v.bytes };
    } };
}

/// Why bytes are no message.
#[derive(Clone, Copy, Debug, PartialEq, Eq, Error)]
pub enum MessageFault {
    /// There is no byte.
    #[error("Empty")]
    Empty,
    /// There are more bytes than `MAX_PACKETS` packets carry.
    #[error("TooLong")]
    TooLong,
}

impl Message {
    ghost use Rattle.std.specs.Prelude.{◌≡◌, ◌<◌, ◌≤◌, ◌↔◌, length, IfOk, IsErrOf};
    ghost use Rattle.mctp_reasm.specs.Pieces.{blank};
    ghost use Rattle.mctp_wire.specs.Units.{message_limit};
    ghost use Rattle.mctp_wire.specs.declared.unit.TheConstants.{MAX_MESSAGE};

    /// Returns a message of these bytes in a network with this transmission unit, with the type
    /// byte first, under a tag of 0 to 7. `to` is set if the sender owns the tag, as in a request.
    ///
    /// # Errors
    /// `Empty` for no byte and `TooLong` for more bytes than `MAX_PACKETS` packets carry.
    pub fn new(
        unit: Unit,
        dest: u8,
        source: u8,
        to: bool,
        tag: u8,
        bytes: &[u8],
    ) -> Result<Message, MessageFault>
        requires { tag ≤ 7 }
        ensures ok { IfOk result (λ m. m ≡ record { dest = dest; source = source; to = to; tag = tag; bytes = bytes.now }) }
        ensures empty { IsErrOf result MessageFault.Empty ↔ (length bytes.now ≡ 0) }
        ensures too_long { IsErrOf result MessageFault.TooLong ↔ (message_limit unit < length bytes.now) }
    {
        if bytes.is_empty() {
            return Err(MessageFault::Empty);
        }
        if bytes.len() > MAX_PACKETS * unit.bytes() {
            return Err(MessageFault::TooLong);
        }
        let mut held = ArrayVec::new();
        let _ = held.try_extend_from_slice(bytes);
        Ok(Message {
            dest,
            source,
            to,
            tag,
            bytes: held,
        })
    }

    /// Returns a placeholder for a message to be written to: one byte 0, from endpoint 0 to
    /// endpoint 0.
    pub fn blank() -> Message
        ensures { result ≡ blank }
    {
        let mut bytes = ArrayVec::new();
        bytes.push(0);
        Message {
            dest: 0,
            source: 0,
            to: false,
            tag: 0,
            bytes,
        }
    }

    /// Returns the endpoint that the message goes to.
    pub fn dest(&self) -> u8
        ensures { result ≡ self.now.dest }
    {
        self.dest
    }

    /// Returns the endpoint that sent the message.
    pub fn source(&self) -> u8
        ensures { result ≡ self.now.source }
    {
        self.source
    }

    /// Returns whether the sender owns the tag: set in a request, clear in an answer.
    pub fn to(&self) -> bool
        ensures { result ≡ self.now.to }
    {
        self.to
    }

    /// Returns the tag, 0 to 7.
    pub fn tag(&self) -> u8
        ensures value { result ≡ self.now.tag }
        ensures range { result ≤ 7 }
    {
        self.tag
    }

    /// Returns the bytes, 1 to `MAX_MESSAGE`, the type byte first.
    pub fn bytes(&self) -> &[u8]
        ensures value { result.now ≡ self.now.bytes }
        ensures lawful { (1 ≤ length self.now.bytes) × (length self.now.bytes ≤ MAX_MESSAGE) }
    {
        self.bytes.as_slice()
    }

    /// Replaces this message by a copy of another.
    pub fn copy_from(&mut self, other: &Message)
        ensures { self.new ≡ other.now }
    {
        self.dest = other.dest;
        self.source = other.source;
        self.to = other.to;
        self.tag = other.tag;
        self.bytes.clear();
        let _ = self.bytes.try_extend_from_slice(other.bytes.as_slice());
    }

    /// Returns a copy of the message.
    pub fn again(&self) -> Message
        ensures { result ≡ self.now }
    {
        let mut bytes = ArrayVec::new();
        let _ = bytes.try_extend_from_slice(self.bytes.as_slice());
        Message {
            dest: self.dest,
            source: self.source,
            to: self.to,
            tag: self.tag,
            bytes,
        }
    }
}
