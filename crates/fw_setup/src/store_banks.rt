//! Banks over the stores of devices.

ghost use Rattle.std.specs.Prelude.{◌≡◌, ◌≢◌, ◌⊎◌, ◌++◌, ◌∷◌, [], IfErr, IfOk, IsSomeAnd, OnOk, false, map, slice_get, true};
ghost use Rattle.fd_core.specs.Banks.{HaveKeysOnce};
ghost use Rattle.fd_core.specs.Images.{key_of};
ghost use Rattle.fw_script.specs.Seen.{component_of};
ghost use Rattle.fw_script.specs.Whole.{AreNew, keys_of};
ghost use Rattle.fw_setup.specs.Nodes.{row_made};
ghost use Rattle.fw_setup.specs.Stocks.{image_configured, images_configured};
ghost use Rattle.fw_store.specs.Opening.{IsUntouched};
ghost use Rattle.fw_store.specs.Strays.{RemovesStrays};

use crate::banks::{Banks, BanksFault, mem_bank};
use crate::stocks::component_keys;
use fd_core::MemBank;
use fw_script::ComponentConfig;
use fw_store::{Folder, FolderStore, KeptBank, OpenFault, Stored};
use std::alloc::{AllocError, Global};
use std::collections::VecDeque;

/// The store of a device.
#[derive(Drop)]
struct DeviceStore<F: Folder + Drop> {
    device: u8,
    store: FolderStore<F>,
}

/// Banks over the stores of devices, which are taken in their order, the first device's first.
/// Leftover files in the folder of a store are removed when it is taken, so only after all stores
/// are opened.
#[derive(Drop)]
pub struct StoreBanks<F: Folder + Drop> {
    stores: VecDeque<DeviceStore<F>>,
}

/// Whether an image is the configured image of a component.
fn is_configured(stored: &Stored, config: &ComponentConfig) -> bool
    ensures same { result ≡ true → stored.now ≡ image_configured (component_of config.now) }
    ensures differ { result ≡ false → stored.now ≢ image_configured (component_of config.now) }
{
    let image = stored.image();
    image.key == config.component.key
        && image.label == &config.label
        && image.bytes == config.image.as_slice()
}

/// Whether images are the configured images of components.
#[tactic(auto, using(crate::proofs::Stocking::more_images, crate::proofs::Stocking::other_image))]
fn are_configured(images: &[Stored], components: &[ComponentConfig]) -> bool
    ensures same { result ≡ true → images.now ≡ images_configured (map component_of components.now) }
    ensures differ { result ≡ false → images.now ≢ images_configured (map component_of components.now) }
{
    if images.len() != components.len() {
        return false;
    }
    for place in 0..images.len() {
        if !is_configured(&images[place], &components[place]) {
            return false;
        }
    }
    true
}

/// Creates a bank of components over a store that keeps their configured images.
fn kept_bank<F: Folder + Drop>(
    alloc: Global,
    components: &[ComponentConfig],
    store: FolderStore<F>,
) -> Result<KeptBank<FolderStore<F>>, AllocError>
    requires new { AreNew [] (keys_of (map component_of components.now)) }
    requires kept { store.memory.images.items ≡ images_configured (map component_of components.now) }
    ensures rows { IfOk result (λ b. b.rows ≡ map row_made (map component_of components.now)) }
    ensures apart { IfOk result (λ b. HaveKeysOnce (map key_of b.rows)) }
    ensures faults { IfOk result (λ b. b.faults ≡ 0) }
    ensures kept { IfOk result (λ b. b.kept ≡ store.memory.images.items) }
{
    let keys = component_keys(alloc, components)?;
    let bank = mem_bank(alloc, components)?;
    Ok(KeptBank::new(alloc, bank, keys, store))
}

/// Removes the files that `active` doesn't name from the folder of a store. They stay if the folder
/// doesn't say which files it has.
fn swept<F: Folder + Drop>(store: FolderStore<F>) -> Result<FolderStore<F>, AllocError>
    ensures kept { IfOk result (λ s. s.memory.images.items ≡ store.memory.images.items) }
    ensures untouched { IfOk result (λ s. F.is_known store.folder ≡ true
        → IsUntouched store.entries.items (F.files store.folder) (F.files s.folder)) }
    ensures gone { IfOk result (λ s. F.is_known store.folder ≡ true
        → F.may_fail store.folder ≡ false
        → RemovesStrays store.entries.items (F.files store.folder) (F.files s.folder)) }
    ensures rest { IfOk result (λ s. (s.is_sure ≡ store.is_sure) × ((s.next ≡ store.next) × (s.entries ≡ store.entries))) }
{
    let mut store = store;
    match store.sweep() {
        Ok(()) | Err(OpenFault::Unreadable) => Ok(store),
        Err(_) => Err(AllocError),
    }
}

impl<F: Folder + Drop> StoreBanks<F> {
    /// Creates banks over no stores.
    pub(crate) fn new(alloc: Global) -> StoreBanks<F>
        ensures { result.stores.items ≡ [] }
    {
        StoreBanks {
            stores: VecDeque::new(alloc),
        }
    }

    /// Appends the store of a device.
    pub(crate) fn push(&mut self, device: u8, store: FolderStore<F>) -> Result<(), AllocError>
        ensures { OnOk result (self.new.stores.items ≡ self.old.stores.items ++ record { device = device; store = store } ∷ []) }
    {
        match self.stores.push_back(DeviceStore { device, store }) {
            Ok(()) => Ok(()),
            Err(_) => Err(AllocError),
        }
    }
}

impl<F: Folder + Drop> Banks<KeptBank<FolderStore<F>>> for StoreBanks<F> {
    fn make(
        &mut self,
        alloc: Global,
        device: u8,
        components: &[ComponentConfig],
    ) -> Result<KeptBank<FolderStore<F>>, BanksFault>
        requires new { AreNew [] (keys_of (map component_of components.now)) }
        ensures rows { IfOk result (λ b. b.rows ≡ map row_made (map component_of components.now)) }
        ensures apart { IfOk result (λ b. HaveKeysOnce (map key_of b.rows)) }
        ensures faults { IfOk result (λ b. b.faults ≡ 0) }
        ensures taken { IfOk result (λ b. IsSomeAnd (slice_get self.old.stores.items 0)
            (λ s. (s.device ≡ device) × (s.store.memory.images.items ≡ b.kept))) }
        ensures left { OnOk result (IsSomeAnd (slice_get self.old.stores.items 0)
            (λ s. self.old.stores.items ≡ s ∷ self.new.stores.items)) }
        ensures fault { IfErr result (λ e. (e ≡ BanksFault.Memory) ⊎ (e ≡ BanksFault.Device device)) }
        ensures device { IfErr result (λ e. e ≡ BanksFault.Device device
            → ¬ IsSomeAnd (slice_get self.old.stores.items 0)
            (λ s. (s.device ≡ device)
            × (s.store.memory.images.items
            ≡ images_configured (map component_of components.now)))) }
        ensures memory { IfErr result (λ e. e ≡ BanksFault.Memory
            → IsSomeAnd (slice_get self.old.stores.items 0)
            (λ s. (s.device ≡ device)
            × (s.store.memory.images.items
            ≡ images_configured (map component_of components.now)))) }
    {
        let Some(taken) = self.stores.pop_front() else {
            return Err(BanksFault::Device(device));
        };
        if taken.device != device || !are_configured(taken.store.images(), components) {
            return Err(BanksFault::Device(device));
        }
        let Ok(store) = swept(taken.store) else {
            return Err(BanksFault::Memory);
        };
        match kept_bank(alloc, components, store) {
            Ok(bank) => Ok(bank),
            Err(_) => Err(BanksFault::Memory),
        }
    }
}
