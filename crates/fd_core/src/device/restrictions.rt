//! Compares an offered component with the active image, and finds the applied components.

ghost use Rattle.std.specs.Prelude.{◌≡◌, ◌<◌, is_some, true};
ghost use Rattle.fd_core.specs.Commands.{flag_at, has_applied, in_table, lacks_listed, offer_restriction, restriction, stamp_rule};
ghost use Rattle.fd_core.specs.Images.{row_of};
ghost use Rattle.fwup_wire.specs.Lent.{offer_of};

use crate::bank::Bank;
use crate::parts::{BankComponent, Listed};
use fwup_wire::code::response::{
    COMPARISON_STAMP_IDENTICAL, COMPARISON_STAMP_LOWER, NO_RESTRICTION, NOT_SUPPORTED,
};
use fwup_wire::{ComponentOffer, Key, NO_STAMP, TransferFlag};

/// Returns the flag of an entry of the component table. `before` entries come before it, and the
/// table has `count` entries.
pub(super) fn flag_for(before: usize, count: u16) -> TransferFlag
    requires { before < count }
    ensures { result ≡ flag_at before count }
{
    if count == 1 {
        TransferFlag::StartAndEnd
    } else if before == 0 {
        TransferFlag::Start
    } else if before + 1 == count as usize {
        TransferFlag::End
    } else {
        TransferFlag::Middle
    }
}

/// Returns whether the table has this component.
pub(super) fn is_listed(table: &[Listed], key: Key) -> bool
    ensures { result ≡ in_table table.now key }
{
    for listed in table {
        if listed.key == key {
            return true;
        }
    }
    false
}

/// Returns the restriction of an image with comparison stamp `stamp`, if the active image has the
/// stamp `active`: no restriction, identical, or lower (DSP0267 1.0, ComponentComparisonStamp). A
/// stamp that isn't used gives no restriction.
pub fn stamp_restriction(stamp: u32, active: u32) -> u8
    ensures { result ≡ stamp_rule stamp active }
{
    if stamp == NO_STAMP || active == NO_STAMP {
        NO_RESTRICTION
    } else if stamp == active {
        COMPARISON_STAMP_IDENTICAL
    } else if stamp < active {
        COMPARISON_STAMP_LOWER
    } else {
        NO_RESTRICTION
    }
}

/// Returns the code that refuses a passed component with this stamp, if it is refused.
pub(super) fn entry_restriction<B: Bank>(bank: &B, key: Key, stamp: u32) -> u8
    ensures { result ≡ restriction (B.rows bank.now) key stamp }
{
    match bank.active(key) {
        None => NOT_SUPPORTED,
        Some((label, _)) => stamp_restriction(stamp, label.stamp()),
    }
}

/// Returns the code that refuses an offered component of this table, if it is refused.
pub(super) fn offer_code<B: Bank>(bank: &B, table: &[Listed], offer: &ComponentOffer<'_>) -> u8
    ensures code { result ≡ offer_restriction (B.rows bank.now) table.now (offer_of offer.now) }
    ensures known { result ≡ 0 → is_some (row_of (B.rows bank.now) offer.now.key) ≡ true }
{
    if !is_listed(table, offer.key) {
        return NOT_SUPPORTED;
    }
    match bank.active(offer.key) {
        None => NOT_SUPPORTED,
        Some(_) if offer.force => NO_RESTRICTION,
        Some((label, _)) => stamp_restriction(offer.version.stamp, label.stamp()),
    }
}

/// Returns whether a component without a restriction isn't applied.
pub(super) fn misses_one<B: Bank>(bank: &B, table: &[Listed]) -> bool
    ensures { result ≡ lacks_listed (B.rows bank.now) table.now }
{
    for listed in table {
        if listed.code == NO_RESTRICTION && bank.applied(listed.key).is_none() {
            return true;
        }
    }
    false
}

/// Returns whether at least one of the components is applied.
pub(super) fn has_any<B: Bank>(bank: &B, components: &[BankComponent]) -> bool
    ensures { result ≡ has_applied (B.rows bank.now) components.now }
{
    for component in components {
        if bank.applied(component.key).is_some() {
            return true;
        }
    }
    false
}
