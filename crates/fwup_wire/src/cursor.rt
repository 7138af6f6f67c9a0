//! Reads the fields of a message in order. Each step is one checked advance, and lengths are
//! checked in one place.

ghost use Rattle.std.specs.Prelude.{List, drop, is_some, length, IfSome, IsTrue, ◌↔◌, ◌≡◌, [], ℕ};
ghost use Rattle.std.specs.Option.{option_map};
ghost use Rattle.fwup_wire.specs.Descriptors.{descriptor_size, first_descriptor};
ghost use Rattle.fwup_wire.specs.Fields.{first_byte, first_bytes, first_component, first_key, first_u16, first_u32, last_text};
ghost use Rattle.fwup_wire.specs.Parameters.{first_parameters, first_text_head, has_methods, parameters_size};
ghost use Rattle.fwup_wire.specs.Lent.{device_descriptor_of, parameters_of, typed_text_of};

use crate::values::{ComponentParameters, DeviceDescriptor, Key, TypedText, Version};
use byteorder::{ByteOrder, LittleEndian};
use std::marker::Model;

/// The bytes that are left to read.
#[derive(Drop)]
pub struct Cursor<'a> {
    rest: &'a [u8],
}

impl<'a> Model for Cursor<'a> {
    ghost Value = { List ℕ };

    ghost view = { λ c. c.rest.now };
}

impl<'a> Cursor<'a> {
    /// Returns a cursor over the bytes.
    pub fn new(bytes: &'a [u8]) -> Self
        ensures { result ≡ bytes.now }
    {
        Cursor { rest: bytes }
    }

    /// Returns whether no byte is left.
    pub fn is_at_end(&self) -> bool
        ensures { IsTrue result ↔ (self.now ≡ []) }
    {
        self.rest.is_empty()
    }

    /// Reads the next byte.
    pub fn byte(&mut self) -> Option<u8>
        ensures value { result ≡ first_byte self.old }
        ensures rest { IfSome result (λ _. self.new ≡ drop 1 self.old) }
    {
        let [byte, rest @ ..] = self.rest else {
            return None;
        };
        self.rest = rest;
        Some(*byte)
    }

    /// Reads the number in the next two bytes.
    pub fn u16(&mut self) -> Option<u16>
        ensures value { result ≡ first_u16 self.old }
        ensures rest { IfSome result (λ _. self.new ≡ drop 2 self.old) }
    {
        let bytes = self.rest;
        let [_, _, rest @ ..] = bytes else {
            return None;
        };
        self.rest = rest;
        Some(LittleEndian::read_u16(bytes))
    }

    /// Reads the number in the next four bytes.
    pub fn u32(&mut self) -> Option<u32>
        ensures value { result ≡ first_u32 self.old }
        ensures rest { IfSome result (λ _. self.new ≡ drop 4 self.old) }
    {
        let bytes = self.rest;
        let [_, _, _, _, rest @ ..] = bytes else {
            return None;
        };
        self.rest = rest;
        Some(LittleEndian::read_u32(bytes))
    }

    /// Reads the component key in the next four bytes.
    pub fn key(&mut self) -> Option<Key>
        ensures value { result ≡ first_key self.old }
        ensures rest { IfSome result (λ _. self.new ≡ drop 4 self.old) }
    {
        let classification = self.u16()?;
        let identifier = self.u16()?;
        Some(Key {
            classification,
            identifier,
        })
    }

    /// Reads the beginning of an entry of the component table or of an offer: key, index and
    /// comparison stamp.
    pub fn component(&mut self) -> Option<(Key, u8, u32)>
        ensures value { result ≡ first_component self.old }
        ensures rest { IfSome result (λ _. self.new ≡ drop 9 self.old) }
    {
        let key = self.key()?;
        let index = self.byte()?;
        let stamp = self.u32()?;
        Some((key, index, stamp))
    }

    /// Reads the next descriptor.
    pub fn descriptor(&mut self) -> Option<DeviceDescriptor<'a>>
        ensures value { option_map device_descriptor_of result ≡ first_descriptor self.old }
        ensures rest { IfSome result (λ d. self.new ≡ drop (descriptor_size (device_descriptor_of d)) self.old) }
    {
        let kind = self.u16()?;
        let length = self.u16()?;
        let bytes = self.bytes(usize::from(length))?;
        Some(DeviceDescriptor { kind, bytes })
    }

    /// Reads the parameters of the next component. A text's bytes come after all other fields.
    #[tactic(auto, using(crate::proofs::Parts::parameters_skipped))]
    pub fn parameters(&mut self) -> Option<ComponentParameters<'a>>
        ensures value { option_map parameters_of result ≡ first_parameters self.old }
        ensures rest { IfSome result (λ p. self.new ≡ drop (parameters_size (parameters_of p)) self.old) }
    {
        let (key, index, active_stamp) = self.component()?;
        let (active_type, active_length) = self.text_head()?;
        let pending_stamp = self.u32()?;
        let (pending_type, pending_length) = self.text_head()?;
        self.methods()?;
        let active_text = self.bytes(usize::from(active_length))?;
        let pending_text = self.bytes(usize::from(pending_length))?;
        Some(ComponentParameters {
            key,
            index,
            active: Version {
                stamp: active_stamp,
                text: TypedText {
                    text_type: active_type,
                    bytes: active_text,
                },
            },
            pending: Version {
                stamp: pending_stamp,
                text: TypedText {
                    text_type: pending_type,
                    bytes: pending_text,
                },
            },
        })
    }

    /// Reads the type and the length of a text whose bytes come later, and a date that isn't set.
    fn text_head(&mut self) -> Option<(u8, u8)>
        ensures value { result ≡ first_text_head self.old }
        ensures rest { IfSome result (λ _. self.new ≡ drop 10 self.old) }
    {
        let [text_type, length, 0, 0, 0, 0, 0, 0, 0, 0, rest @ ..] = self.rest else {
            return None;
        };
        self.rest = rest;
        Some((*text_type, *length))
    }

    /// Reads the activation methods and the capabilities of a component, which have one value each.
    fn methods(&mut self) -> Option<()>
        ensures value { is_some result ≡ has_methods self.old }
        ensures rest { IfSome result (λ _. self.new ≡ drop 6 self.old) }
    {
        let [2, 0, 0, 0, 0, 0, rest @ ..] = self.rest else {
            return None;
        };
        self.rest = rest;
        Some(())
    }

    /// Reads the next `count` bytes.
    pub fn bytes(&mut self, count: usize) -> Option<&'a [u8]>
        ensures value { option_map (λ bytes. bytes.now) result ≡ first_bytes count self.old }
        ensures rest { IfSome result (λ _. self.new ≡ drop count self.old) }
        ensures whole { IfSome result (λ bytes. length bytes.now ≡ count) }
    {
        let bytes = self.rest;
        if bytes.len() < count {
            return None;
        }
        let (first, rest) = bytes.split_at(count);
        self.rest = rest;
        Some(first)
    }

    /// Returns the bytes that are left.
    pub fn rest(&self) -> &'a [u8]
        ensures { result.now ≡ self.now }
    {
        self.rest
    }

    /// Returns the text that takes all bytes that are left: its type, its length and its bytes.
    pub fn last_text(self) -> Option<TypedText<'a>>
        ensures { option_map typed_text_of result ≡ last_text self.entry }
    {
        let [text_type, length, bytes @ ..] = self.rest else {
            return None;
        };
        if usize::from(*length) != bytes.len() {
            return None;
        }
        Some(TypedText {
            text_type: *text_type,
            bytes,
        })
    }
}
