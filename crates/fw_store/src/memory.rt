//! A store in memory, which lasts as long as the program.

ghost use Rattle.std.specs.Prelude.{◌≡◌, IfOk, None, OnErr, OnOk, map, option_map};
ghost use Rattle.fd_core.specs.Banks.{HaveKeysOnce};
ghost use Rattle.fd_core.specs.Images.{key_of};
ghost use Rattle.fw_store.specs.Kept.{KeptOf, all_running, image_for, kept_after, replaced_by};

use crate::store::{Kept, Store, StoreFault};
use fd_core::{Bank, Label, MemBank};
use fwup_wire::Key;
use std::alloc::{AllocError, Global};
use std::marker::Model;

/// A kept image: its component, its label and its bytes.
#[derive(Drop)]
pub struct Stored {
    key: Key,
    label: Label,
    bytes: Vec<u8>,
}

impl Model for Stored {
    ghost use Rattle.fw_store.specs.Kept.{KeptOf};

    ghost Value = { KeptOf };

    ghost view = { λ s. record { key = s.key; image = record { label = s.label; bytes = s.bytes.items } } };
}

/// A store in memory. It fails only if memory can't be allocated.
#[derive(Drop)]
pub struct MemStore {
    alloc: Global,
    images: Vec<Stored>,
}

/// Returns a copy of an image.
pub(crate) fn copied(
    alloc: Global,
    key: Key,
    label: &Label,
    bytes: &[u8],
) -> Result<Stored, AllocError>
    ensures { IfOk result (λ s. s ≡ record { key = key; image = record { label = label.now; bytes = bytes.now } }) }
{
    let mut held = Vec::new(alloc);
    held.extend_from_slice(bytes)?;
    Ok(Stored {
        key,
        label: label.copied(),
        bytes: held,
    })
}

/// Returns the image of a component in the list, if there is one.
#[tactic(auto, using(crate::proofs::Keeping::finding))]
pub(crate) fn find<'a, 'b>(images: &'a [Kept<'b>], key: Key) -> Option<&'a Kept<'b>>
    ensures { option_map (λ k. k.now.image) result ≡ image_for images.now key }
{
    for image in images {
        if image.key == key {
            return Some(image);
        }
    }
    None
}

/// Returns the image to keep of a component after the given images.
fn replaced(alloc: Global, old: &Stored, images: &[Kept<'_>]) -> Result<Stored, AllocError>
    ensures { IfOk result (λ s. s ≡ replaced_by old.now (image_for images.now old.now.key)) }
{
    match find(images, old.key) {
        Some(image) => copied(alloc, old.key, image.label, image.bytes),
        None => copied(alloc, old.key, &old.label, &old.bytes),
    }
}

/// Returns the images to keep after the given images.
fn replaced_all(
    alloc: Global,
    old: &[Stored],
    images: &[Kept<'_>],
) -> Result<Vec<Stored>, AllocError>
    ensures { IfOk result (λ new. new.items ≡ kept_after old.now images.now) }
{
    let mut new = Vec::new(alloc);
    for image in old {
        new.push(replaced(alloc, image, images)?)?;
    }
    Ok(new)
}

impl Stored {
    /// Returns an image of a component.
    pub(crate) fn new(key: Key, label: Label, bytes: Vec<u8>) -> Stored
        ensures { result ≡ record { key = key; image = record { label = label; bytes = bytes.items } } }
    {
        Stored { key, label, bytes }
    }

    /// Borrows the image.
    pub fn image(&self) -> Kept<'_>
        ensures { result ≡ self.now }
    {
        Kept {
            key: self.key,
            label: &self.label,
            bytes: &self.bytes,
        }
    }
}

impl MemStore {
    /// Returns a store that keeps the active images of a bank's components with these keys.
    ///
    /// # Errors
    /// `AllocError` if memory can't be allocated.
    pub fn from_bank(alloc: Global, bank: &MemBank, keys: &[Key]) -> Result<MemStore, AllocError>
        requires keys { keys.now ≡ map key_of bank.now.rows }
        requires apart { HaveKeysOnce keys.now }
        ensures { IfOk result (λ s. s.images.items ≡ all_running bank.now.rows) }
    {
        let mut images = Vec::new(alloc);
        for key in keys {
            let Some((label, bytes)) = bank.active(*key) else {
                unreachable!()
            };
            images.push(copied(alloc, *key, label, bytes)?)?;
        }
        Ok(MemStore { alloc, images })
    }

    /// Returns a store that keeps these images.
    pub(crate) fn with_all(alloc: Global, images: Vec<Stored>) -> MemStore
        ensures { result.images.items ≡ images.items }
    {
        MemStore { alloc, images }
    }

    /// Returns this store's images, with the given ones replacing those of their components.
    ///
    /// # Errors
    /// `AllocError` if memory can't be allocated.
    pub(crate) fn with(&self, images: &[Kept<'_>]) -> Result<MemStore, AllocError>
        ensures { IfOk result (λ s. s.images.items ≡ kept_after self.now.images.items images.now) }
    {
        Ok(MemStore {
            alloc: self.alloc,
            images: replaced_all(self.alloc, self.images.as_slice(), images)?,
        })
    }

    /// Returns the kept images.
    pub fn images(&self) -> &[Stored]
        ensures { result.now ≡ self.now.images.items }
    {
        self.images.as_slice()
    }

    /// Returns the kept bytes of a component, if there are some.
    #[tactic(auto, using(crate::proofs::Keeping::finding))]
    pub fn bytes(&self, key: Key) -> Option<&[u8]>
        ensures { option_map (λ b. b.now) result ≡ option_map (λ i. i.bytes) (image_for self.now.images.items key) }
    {
        for image in &self.images {
            if image.key == key {
                return Some(&image.bytes);
            }
        }
        None
    }
}

impl Store for MemStore {
    ghost kept = { λ s. s.images.items };

    fn keep(&mut self, images: &[Kept<'_>]) -> Result<(), StoreFault> {
        let Ok(new) = self.with(images) else {
            return Err(StoreFault);
        };
        self.images = new.images;
        Ok(())
    }
}
