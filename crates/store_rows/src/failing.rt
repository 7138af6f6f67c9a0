//! A store that fails.

ghost use Rattle.std.specs.Prelude.{◌≡◌};

use fd_core::Key;
use fw_store::{Kept, MemStore, Store, StoreFault};

/// A store in memory whose first calls fail.
#[derive(Drop)]
pub struct FailStore {
    store: MemStore,
    fails: u32,
}

impl FailStore {
    /// Creates a store with the content of `store`, whose first `fails` calls fail.
    pub fn new(store: MemStore, fails: u32) -> FailStore
        ensures { result.store ≡ store }
    {
        FailStore { store, fails }
    }

    /// Returns the stored bytes of a component, if it exists.
    pub fn bytes(&self, key: Key) -> Option<&[u8]> {
        self.store.bytes(key)
    }
}

impl Store for FailStore {
    ghost kept = { λ s. s.store.images.items };

    fn keep(&mut self, images: &[Kept<'_>]) -> Result<(), StoreFault> {
        if self.fails > 0 {
            self.fails -= 1;
            return Err(StoreFault);
        }
        self.store.keep(images)
    }
}
