//! A terminus: its role in a firmware update, and its identifier.

ghost use Rattle.std.specs.Prelude.{◌↔◌, ◌≡◌, ◌≢◌, ◌≤◌, IsTrue, ℕ};

use std::marker::Model;

/// The unassigned terminus identifier.
const UNASSIGNED: u8 = 0x00;

/// The terminus identifier that DSP0240 reserves.
const RESERVED: u8 = 0xFF;

/// The end of a firmware update that a terminus is.
#[derive(Clone, Copy, PartialEq, Eq)]
pub enum Role {
    /// The firmware device, which is updated.
    Device,
    /// The update agent, which updates devices.
    Agent,
}

/// A terminus identifier: 0 until it is set, then 1 to 254.
#[derive(Clone, Copy, PartialEq, Eq)]
pub struct Tid {
    value: u8,
}

impl Model for Tid {
    ghost Value = { ℕ };

    ghost view = { λ t. t.value };

    ghost invariant = { λ t. t.value ≤ 254 };

    ghost inverse = { λ n. record { value = n } };
}

impl Tid {
    /// Returns the identifier of a terminus that has none yet, as after a restart.
    pub fn unassigned() -> Self
        ensures { result ≡ 0 }
    {
        Tid { value: UNASSIGNED }
    }

    /// Returns the identifier as GetTID reports it.
    pub fn value(self) -> u8
        ensures value { result ≡ self }
        ensures range { result ≤ 254 }
    {
        self.value
    }

    /// Returns whether a terminus may have this identifier.
    pub(crate) fn is_assignable(value: u8) -> bool
        ensures { IsTrue result ↔ ((value ≢ 0) × (value ≢ 255)) }
    {
        value != UNASSIGNED && value != RESERVED
    }

    /// Sets the terminus' identifier.
    pub(crate) fn assign(&mut self, value: u8)
        requires not_none { value ≢ 0 }
        requires not_reserved { value ≢ 255 }
        ensures { self.new ≡ value }
    {
        *self = Tid { value };
    }
}
