//! Banks of two components over a store.

use crate::failing::FailStore;
use fd_core::{Bank, BankFault, Key, Label, MemBank};
use fw_store::{KeptBank, MemStore};
use fwup_wire::{TypedText, Version};
use std::alloc::Global;
use std::test::Fail;

/// The first component, whose image is AA.
const FIRST: Key = Key {
    classification: 10,
    identifier: 1,
};

/// The second, whose image is BB BB.
const SECOND: Key = Key {
    classification: 10,
    identifier: 2,
};

/// A label with this stamp.
fn label(stamp: u32) -> Label {
    Label::new(&Version {
        stamp,
        text: TypedText {
            text_type: 1,
            bytes: b"v",
        },
    })
}

/// A bank of both components over a store that holds the active images, and whose first `fails`
/// calls fail.
fn bank(alloc: Global, fails: u32) -> Result<KeptBank<FailStore>, Fail> {
    let mut bank = MemBank::new(alloc);
    bank.add(FIRST, &label(1), &[0xAA])?;
    bank.add(SECOND, &label(1), &[0xBB, 0xBB])?;
    let mut keys = Vec::new(alloc);
    keys.push(FIRST)?;
    keys.push(SECOND)?;
    let store = MemStore::from_bank(alloc, &bank, keys.as_slice())?;
    Ok(KeptBank::new(alloc, bank, keys, FailStore::new(store, fails)))
}

/// Writes a small image of an existing component, and applies it.
#[tactic(auto, using(crate::proofs::Known::known))]
fn apply(bank: &mut KeptBank<FailStore>, key: Key, bytes: &[u8]) -> Result<(), BankFault> {
    if bank.active(key).is_none() || bytes.len() > 16 {
        return Err(BankFault::Memory);
    }
    bank.begin(key, bytes.len() as u32, &label(2))?;
    bank.put(bytes)?;
    bank.seal()
}

/// Whether the active and the stored image of a component are these bytes.
fn runs_and_keeps(bank: &KeptBank<FailStore>, key: Key, bytes: &[u8]) -> bool {
    let (Some((_, runs)), Some(kept)) = (bank.active(key), bank.store().bytes(key)) else {
        return false;
    };
    runs == bytes && kept == bytes
}

#[test]
fn what_is_applied_is_kept_and_runs(rt: HostRuntime) -> Result<(), Fail> {
    let mut bank = bank(rt.alloc(), 0)?;
    apply(&mut bank, SECOND, &[1, 2, 3])?;
    assert!(rt; runs_and_keeps(&bank, FIRST, &[0xAA]));
    assert!(rt; runs_and_keeps(&bank, SECOND, &[0xBB, 0xBB]));
    bank.switch()?;
    assert!(rt; runs_and_keeps(&bank, FIRST, &[0xAA]));
    assert!(rt; runs_and_keeps(&bank, SECOND, &[1, 2, 3]));
    assert!(rt; bank.failures() == 0);
    Ok(())
}

#[test]
fn what_cannot_be_kept_does_not_run(rt: HostRuntime) -> Result<(), Fail> {
    let mut bank = bank(rt.alloc(), 2)?;
    apply(&mut bank, FIRST, &[4])?;
    apply(&mut bank, SECOND, &[5])?;
    for failures in 1..3 {
        assert!(rt; bank.switch() == Err(BankFault::Device));
        assert!(rt; bank.failures() == failures);
        assert!(rt; runs_and_keeps(&bank, FIRST, &[0xAA]));
        assert!(rt; runs_and_keeps(&bank, SECOND, &[0xBB, 0xBB]));
    }
    bank.switch()?;
    assert!(rt; runs_and_keeps(&bank, FIRST, &[4]));
    assert!(rt; runs_and_keeps(&bank, SECOND, &[5]));
    Ok(())
}
