//! A bank whose images persist.

ghost use Rattle.std.specs.Prelude.{◌≡◌, ◌++◌, Err, IfErr, IfOk, None, OnErr, OnOk, map, option_map};
ghost use Rattle.fd_core.specs.Banks.{HaveKeysOnce, CountsFailure};
ghost use Rattle.fd_core.specs.Images.{key_of, rows_after_switch};
ghost use Rattle.fw_store.specs.Kept.{all_applied, all_running, kept_after, one_applied};

use crate::store::{Kept, Store};
use fd_core::{Bank, BankFault, Label, MemBank};
use fwup_wire::Key;
use std::alloc::{AllocError, Global};
use std::marker::Model;

/// A bank in memory over a store. The active images are those that the store keeps: applied images
/// are kept there first, and then become active. If they can't be kept, the images that were active
/// stay active.
#[derive(Drop)]
pub struct KeptBank<S: Store + Drop> {
    alloc: Global,
    bank: MemBank,
    keys: Vec<Key>,
    store: S,
    faults: u64,
}

impl<S: Store + Drop> Model for KeptBank<S> {
    ghost use Rattle.std.specs.Prelude.{◌≡◌, map};
    ghost use Rattle.fd_core.specs.Banks.{HaveKeysOnce};
    ghost use Rattle.fd_core.specs.Images.{key_of};
    ghost use Rattle.fw_store.specs.Kept.{KeptBankOf, all_running};

    ghost Value = { KeptBankOf };

    ghost view = { λ b. record { rows = b.bank.rows; stage = b.bank.stage; faults = b.faults; kept = S.kept b.store } };

    ghost invariant = { λ b. (b.keys.items ≡ map key_of b.bank.rows)
        × HaveKeysOnce b.keys.items
        × (S.kept b.store ≡ all_running b.bank.rows) };
}

impl<S: Store + Drop> KeptBank<S> {
    /// Returns a bank of these components over a store that keeps their active images.
    pub fn new(alloc: Global, bank: MemBank, keys: Vec<Key>, store: S) -> KeptBank<S>
        requires keys { keys.items ≡ map key_of bank.rows }
        requires apart { HaveKeysOnce keys.items }
        requires kept { S.kept store ≡ all_running bank.rows }
        ensures { result ≡ record { rows = bank.rows; stage = bank.stage; faults = 0; kept = S.kept store } }
    {
        KeptBank {
            alloc,
            bank,
            keys,
            store,
            faults: 0,
        }
    }

    /// Returns the store.
    pub fn store(&self) -> &S
        ensures { S.kept result.now ≡ self.now.kept }
    {
        &self.store
    }

    /// Counts a failed call with this cause, and returns the cause.
    fn fail(&mut self, fault: BankFault) -> Result<(), BankFault>
        ensures result { result ≡ Err fault }
        ensures same { self.new ≡ record self.old { faults = self.new.faults } }
        ensures failed { CountsFailure self.old.faults self.new.faults }
    {
        self.faults = self.faults.saturating_add(1);
        Err(fault)
    }
}

impl<S: Store + Drop> Bank for KeptBank<S> {
    ghost rows = { λ b. b.rows };

    ghost stage = { λ b. b.stage };

    ghost faults = { λ b. b.faults };

    fn active(&self, key: Key) -> Option<(&Label, &[u8])> {
        self.bank.active(key)
    }

    fn applied(&self, key: Key) -> Option<(&Label, &[u8])> {
        self.bank.applied(key)
    }

    fn begin(&mut self, key: Key, size: u32, label: &Label) -> Result<(), BankFault> {
        match self.bank.begin(key, size, label) {
            Ok(()) => Ok(()),
            Err(fault) => self.fail(fault),
        }
    }

    fn put(&mut self, piece: &[u8]) -> Result<(), BankFault> {
        self.bank.put(piece)
    }

    #[tactic(auto, using(crate::proofs::Keeping::keeping))]
    fn seal(&mut self) -> Result<(), BankFault> {
        self.bank.seal()
    }

    #[tactic(auto, using(crate::proofs::Keeping::keeping))]
    fn switch(&mut self) -> Result<(), BankFault>
        ensures ok { OnOk result (self.new ≡ record {
          rows = rows_after_switch self.old.rows;
          stage = None;
          faults = self.old.faults;
          kept = all_running (rows_after_switch self.old.rows);
        }) }
        ensures stays { OnErr result (self.new ≡ record self.old { faults = self.new.faults }) }
        ensures failed { OnErr result (CountsFailure self.old.faults self.new.faults) }
    {
        match keep_applied(
            self.alloc,
            &self.bank,
            self.keys.as_slice(),
            &mut self.store,
        ) {
            Ok(()) => self.bank.switch(),
            Err(fault) => self.fail(fault),
        }
    }

    #[tactic(auto, using(crate::proofs::Keeping::keeping))]
    fn drop_pending(&mut self) {
        self.bank.drop_pending();
    }

    fn failures(&self) -> u64 {
        self.faults
    }
}

/// Keeps images in a store.
fn kept_in<S: Store>(store: &mut S, images: &[Kept<'_>]) -> Result<(), BankFault>
    ensures ok { OnOk result (S.kept store.new ≡ kept_after (S.kept store.old) images.now) }
    ensures fault { IfErr result (λ e. (e ≡ BankFault.Device) × (S.kept store.new ≡ S.kept store.old)) }
{
    match store.keep(images) {
        Ok(()) => Ok(()),
        Err(_) => Err(BankFault::Device),
    }
}

/// Keeps the applied images of components with these keys, in a store that keeps the active ones.
fn keep_applied<S: Store>(
    alloc: Global,
    bank: &MemBank,
    keys: &[Key],
    store: &mut S,
) -> Result<(), BankFault>
    requires keys { keys.now ≡ map key_of bank.now.rows }
    requires apart { HaveKeysOnce keys.now }
    ensures ok { OnOk result (S.kept store.new ≡ kept_after (S.kept store.old) (all_applied bank.now.rows)) }
    ensures err { OnErr result (S.kept store.new ≡ S.kept store.old) }
{
    let Ok(images) = applied_images(alloc, bank, keys) else {
        return Err(BankFault::Memory);
    };
    kept_in(store, images.as_slice())
}

/// Appends the applied image of a component, if there is one.
fn push_applied<'a>(
    images: &mut Vec<Kept<'a>>,
    key: Key,
    applied: Option<(&'a Label, &'a [u8])>,
) -> Result<(), AllocError>
    ensures { OnOk result (images.new.items
        ≡ images.old.items
        ++ one_applied key (option_map (λ r. record { label = r.0.now; bytes = r.1.now })
        applied.entry)) }
{
    if let Some((label, bytes)) = applied {
        images.push(Kept { key, label, bytes })?;
    }
    Ok(())
}

/// Returns the applied images of components with these keys.
fn applied_images<'a>(
    alloc: Global,
    bank: &'a MemBank,
    keys: &[Key],
) -> Result<Vec<Kept<'a>>, AllocError>
    requires keys { keys.now ≡ map key_of bank.now.rows }
    requires apart { HaveKeysOnce keys.now }
    ensures { IfOk result (λ images. images.items ≡ all_applied bank.now.rows) }
{
    let mut images = Vec::new(alloc);
    for key in keys {
        push_applied(&mut images, *key, bank.applied(*key))?;
    }
    Ok(images)
}
