//! The state after memory is refused. Whichever single allocation is refused, each test holds.

use crate::device::setup::{
    ACTIVATE, DOWNLOAD, IDLE, KEY, READY, SIZE, Tested, WORKED, ask, bank, device, go, label,
    number, offer, write,
};
use fd_core::{Bank, MemBank};
use fwup_wire::code::command::UPDATE_COMPONENT;
use pldm_base::Reply;

/// Writes an image of two bytes, then begins one of three in its place. If that is refused, the two
/// bytes are still there as a whole and are applied; else the three bytes are. Returns the number
/// of applied bytes, 0 if the first calls failed.
fn write_over(bank: &mut MemBank) -> usize {
    let label = label(2, b"v2");
    if bank.active(KEY).is_none() {
        return 0;
    }
    if bank.begin(KEY, 2, &label).is_err() || bank.put(&[4, 5]).is_err() {
        return 0;
    }
    if bank.begin(KEY, 3, &label).is_ok() && bank.put(&[4, 5, 6]).is_err() {
        return 0;
    }
    if bank.seal().is_err() {
        return 0;
    }
    match bank.applied(KEY) {
        Some((_, bytes)) => bytes.len(),
        None => 0,
    }
}

/// Writes and activates an image of these bytes. Returns whether each call worked.
fn update(bank: &mut MemBank, image: &[u8]) -> bool {
    write(bank, image, true) && bank.switch().is_ok()
}

/// Whether the first update, which allocates once, in `begin`, works at the second call if memory
/// is refused.
fn takes_the_first(bank: &mut MemBank) -> bool {
    update(bank, &[1, 2, 3])
        || bank.failures() == 1 && bank.areas(KEY) == Some((0, None)) && update(bank, &[1, 2, 3])
}

/// Whether the area of the factory image, which has memory for one byte, is begun with two bytes
/// and then with three. If either is refused, the stage is unchanged.
fn asks_for_three(bank: &mut MemBank) -> bool {
    let before = bank.failures();
    let written = write_over(bank);
    if bank.failures() == before {
        written == 3
    } else {
        (written == 0 || written == 2) && bank.failures() == 1
    }
}

/// Whether four more updates work, without failures so far.
fn takes_four(bank: &mut MemBank) -> bool {
    for _ in 0..4 {
        if !update(bank, &[7, 7]) {
            return false;
        }
    }
    true
}

/// Whether a bank in memory keeps its stage, whichever allocation is refused.
fn keeps_the_stage(bank: &mut MemBank) -> bool {
    if !takes_the_first(bank) {
        return false;
    }
    let before = bank.failures();
    if !asks_for_three(bank) {
        return false;
    }
    let written = write_over(bank);
    if written != 3 && bank.failures() != 1 {
        return false;
    }
    // From now on all three areas have their memory, and updates allocate none.
    bank.failures() != 0 || before != 0 || takes_four(bank)
}

#[test]
fn refused_memory_leaves_the_stage(rt: HostRuntime) {
    if let Ok(mut bank) = bank(rt.alloc(), 1) {
        assert!(rt; keeps_the_stage(&mut bank));
    }
}

/// The reply to UpdateComponent.
fn offered(device: &mut Tested) -> Reply {
    ask(device, UPDATE_COMPONENT, &offer(2, SIZE, false), true)
}

/// The answer to an accepted UpdateComponent.
static TAKEN: [u8; 9] = [0; 9];

/// Whether UpdateComponent is accepted in READY XFER, at the second try if memory is refused and
/// the device stays in that state.
fn takes_the_offer(device: &mut Tested) -> bool {
    let reply = offered(device);
    if reply.as_slice() == [1].as_slice() {
        device.bank().failures() == 1
            && number(device) == 2
            && offered(device).as_slice() == TAKEN.as_slice()
    } else {
        reply.as_slice() == TAKEN.as_slice()
    }
}

/// Whether a device accepts the offer that way, and is then updated.
fn is_asked_again(device: &mut Tested) -> bool {
    go(device, IDLE, READY, SIZE);
    let taken = takes_the_offer(device);
    go(device, DOWNLOAD, ACTIVATE, SIZE);
    taken && number(device) == 6
}

#[test]
fn refused_memory_is_asked_for_again(rt: HostRuntime) {
    if let Ok(mut device) = device(rt.alloc(), WORKED) {
        assert!(rt; is_asked_again(&mut device));
    }
}
