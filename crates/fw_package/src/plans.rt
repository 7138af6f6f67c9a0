//! Plans: the components to offer to a device.

ghost use Rattle.std.specs.Prelude.{◌≡◌, ◌≤◌, ◌↔◌, length, nat_lt, if◌then◌else◌, None, Some, IsTrue};

use crate::uses::Uses;
use arrayvec::ArrayVec;
use std::marker::Model;

/// The most components of a plan.
pub const PLAN_LIMIT: usize = 8;

/// The numbers of the components to offer to a device, at most eight, rising.
#[derive(PartialEq, Eq, Drop)]
pub struct Plan {
    numbers: ArrayVec<usize, PLAN_LIMIT>,
}

impl Model for Plan {
    ghost use Rattle.std.specs.Prelude.{ℕ, List, length, ◌≤◌};

    ghost Value = { List ℕ };

    ghost view = { λ p. p.numbers.items };

    ghost invariant = { λ p. length p.numbers.items ≤ 8 };

    ghost inverse = { λ ns. record { numbers = record { items = ns } } };
}

impl Plan {
    /// Returns a plan of these components, if it has room for them.
    pub(crate) fn new(uses: Uses<'_>) -> Option<Plan>
        ensures { result ≡ (if nat_lt PLAN_LIMIT (length uses.entry) then None else Some uses.entry) }
    {
        let mut numbers = ArrayVec::new();
        for number in uses {
            if numbers.is_full() {
                return None;
            }
            numbers.push(usize::from(number));
        }
        Some(Plan { numbers })
    }

    /// Returns the numbers, counted from 0.
    pub fn as_slice(&self) -> &[usize]
        ensures numbers { result.now ≡ self.now }
        ensures few { length self.now ≤ 8 }
    {
        self.numbers.as_slice()
    }

    /// Returns the number of components.
    pub fn len(&self) -> usize
        ensures count { result ≡ length self.now }
        ensures few { result ≤ 8 }
    {
        self.numbers.len()
    }

    /// Returns whether there is nothing to offer.
    pub fn is_empty(&self) -> bool
        ensures { IsTrue result ↔ (length self.now ≡ 0) }
    {
        self.numbers.is_empty()
    }
}
