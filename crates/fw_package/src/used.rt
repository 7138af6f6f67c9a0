//! The components that a record uses, found in one walk.

ghost use Rattle.std.specs.Iterator.{YieldsFirstBy, item_count};
ghost use Rattle.std.specs.Prelude.{◌≡◌, ◌+◌, ◌*◌, ◌<◌, ◌≤◌, ◌↔◌, length, nat_lt, IsTrue};
ghost use Rattle.std.specs.List.{list_any};
ghost use Rattle.std.specs.List.Sorted.{IsStrictlyIncreasing};
ghost use Rattle.fw_package.specs.Lent.{component_seen};
ghost use Rattle.fw_package.specs.Views.{AreRisingUses, has_doubles, has_twins, used_from};

use crate::components::{Component, Components};
use crate::uses::Uses;
use arrayvec::ArrayVec;
use std::marker::Model;

/// The most components of a header: it has at most 65,535 bytes, and each component takes 22 of
/// them.
pub const KEY_LIMIT: usize = 2_978;

/// The number of identifiers.
const IDENTIFIERS: u32 = 65_536;

/// Some of consecutive components, by their rising numbers. It is also an iterator over them.
#[derive(Drop)]
pub struct Used<'a> {
    /// The numbers.
    uses: Uses<'a>,
    /// The number of the first component that is left.
    at: usize,
    left: Components<'a>,
}

impl<'a> Model for Used<'a> {
    ghost use Rattle.std.specs.Prelude.{List};
    ghost use Rattle.fw_package.specs.Package.{ComponentOf};
    ghost use Rattle.fw_package.specs.Views.{AreRisingUses, used_from};

    ghost Value = { List ComponentOf };

    ghost view = { λ u. used_from u.at u.left u.uses };

    ghost invariant = { λ u. AreRisingUses u.at u.left u.uses };
}

impl<'a> Used<'a> {
    /// Returns the components with these numbers.
    pub fn new(components: &Components<'a>, uses: &Uses<'a>) -> Self
        requires { AreRisingUses 0 components.now uses.now }
        ensures { result ≡ used_from 0 components.now uses.now }
    {
        Used {
            uses: uses.iter(),
            at: 0,
            left: components.iter(),
        }
    }

    /// Returns whether two components have the same key. The keys are sorted, so that equal keys
    /// are neighbours.
    pub fn has_twin(self) -> bool
        requires { length self ≤ KEY_LIMIT }
        ensures { result ≡ has_twins self.entry }
    {
        let mut keys = self.keys();
        let sorted = keys.as_mut_slice();
        sorted.sort_unstable();
        !is_rising(sorted)
    }

    /// Returns the keys of the components, each as one number.
    fn keys(self) -> ArrayVec<u32, KEY_LIMIT>
        requires { length self ≤ KEY_LIMIT }
        ensures { has_doubles result.items ≡ has_twins self.entry }
    {
        let mut keys = ArrayVec::new();
        for component in self {
            keys.push(key(component.classification, component.identifier));
        }
        keys
    }

    /// Returns whether a component's image has more than `limit` bytes.
    pub fn has_image_over(self, limit: usize) -> bool
        ensures { result ≡ list_any (λ c. nat_lt limit (length c.image)) self.entry }
    {
        for component in self {
            if component.image.len() > limit {
                return true;
            }
        }
        false
    }

    /// Returns whether a component's version text has more than `limit` bytes.
    pub fn has_text_over(self, limit: usize) -> bool
        ensures { result ≡ list_any (λ c. nat_lt limit (length c.text.bytes)) self.entry }
    {
        for component in self {
            if component.text.bytes.len() > limit {
                return true;
            }
        }
        false
    }
}

impl<'a> Iterator for Used<'a> {
    type Item = Component<'a>;

    ghost next_gives = { YieldsFirstBy component_seen (λ left. left) };

    ghost remaining = { item_count (λ left. left) };

    fn next(&mut self) -> Option<Component<'a>> {
        let mut uses = self.uses.iter();
        let number = usize::from(uses.next()?);
        let mut left = self.left.from(number - self.at);
        let Some(component) = left.next() else {
            unreachable!()
        };
        *self = Used {
            uses,
            at: number + 1,
            left,
        };
        Some(component)
    }
}

/// Returns a key as one number.
fn key(classification: u16, identifier: u16) -> u32
    ensures value { result ≡ classification * IDENTIFIERS + identifier }
    ensures high { classification < IDENTIFIERS }
    ensures low { identifier < IDENTIFIERS }
{
    u32::from(classification) * IDENTIFIERS + u32::from(identifier)
}

/// Returns whether each key is below the next.
fn is_rising(keys: &[u32]) -> bool
    ensures { IsTrue result ↔ IsStrictlyIncreasing keys.now }
{
    for later in 1..keys.len() {
        if keys[later - 1] >= keys[later] {
            return false;
        }
    }
    true
}
