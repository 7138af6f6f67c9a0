//! The stores of devices, each in its own folder.

ghost use Rattle.std.specs.Prelude.{[], ◌++◌, ◌∷◌, ◌≡◌, ◌⊎◌, Bool, Err, IfErr, IfOk, List, None, Ok, OnOk, false, map, string_bytes, true, ℕ};
ghost use Rattle.std.specs.List.{AllByRecursion};
ghost use Rattle.fw_script.specs.Seen.{component_of, device_of};
ghost use Rattle.fw_script.specs.Whole.{AreWhole, eids_of};
ghost use Rattle.fw_setup.specs.Paths.{agent_path, store_path};
ghost use Rattle.fw_setup.specs.Stocks.{HaveStoredImages, IsFaulty, HasStoredImages, IsUnmade, IsUnopened, images_configured, store_paths, stores_in};
ghost use Rattle.fw_store.specs.Opening.{found_in};

use crate::stocks::{configured_images, stock};
use crate::store_banks::StoreBanks;
use fw_script::{ComponentConfig, DeviceConfig};
use fw_store::{Folder, FolderStore, MemStore, OpenFault, SystemFolder, open_store, read_store};
use std::alloc::{AllocError, Global};

/// The device whose store isn't opened, and the cause.
#[derive(Clone, Copy, Debug, PartialEq, Eq)]
pub struct Unopened {
    /// The device's endpoint identifier.
    pub device: u8,
    /// The cause.
    pub why: OpenFault,
}

/// The folders of devices' stores below a root folder, for reading. If the files of one folder are
/// known, those of each are.
pub trait ReadStores<F: Folder + Drop> {
    ghost use Rattle.fw_store.specs.Folders.{Files};

    ghost is_known: { Self → Bool };

    ghost files: { Self → List ℕ → ℕ → Files };

    /// Returns the folder for reading. A folder that isn't there has no files.
    ///
    /// # Errors
    /// `AllocError` if memory is refused.
    fn at(&self, alloc: Global, root: &str, device: u8) -> Result<F, AllocError>
        ensures known { IfOk result (λ f. is_known self.now ≡ true → F.is_known f ≡ true) }
        ensures files { IfOk result (λ f. is_known self.now ≡ true → F.files f ≡ files self.now root.now device) };
}

/// The folders of devices' stores, and that of what the agent keeps, below a root folder. Missing
/// folders can be made.
pub trait Stores<F: Folder + Drop>: ReadStores<F> {
    ghost use Rattle.fw_store.specs.Folders.{Files};

    ghost agent_files: { Self → List ℕ → Files };

    /// Whether the folder of a device's store can be made.
    ghost makes: { Self → List ℕ → ℕ → Bool } = { λ s root device. true };

    /// The paths of the folders that `make` and `make_agent` returned, in order, if the files of
    /// the folders are known.
    ghost made_paths: { Self → List (List ℕ) };

    /// Returns the folder of a device's store, below `root`. It is made if it isn't there.
    ///
    /// # Errors
    /// `Unreadable` if it can't be made, or `Memory`. It may be made in part then.
    fn make(&mut self, alloc: Global, root: &str, device: u8) -> Result<F, OpenFault>
        ensures known { IfOk result (λ f. Self.is_known self.old ≡ true → F.is_known f ≡ true) }
        ensures files { IfOk result (λ f. Self.is_known self.old ≡ true
            → F.files f ≡ Self.files self.old root.now device) }
        ensures made { OnOk result (makes self.old root.now device ≡ true) }
        ensures log { OnOk result (Self.is_known self.old ≡ true
            → made_paths self.new ≡ made_paths self.old ++ store_path root.now device ∷ []) }
        ensures kept { (Self.is_known self.new ≡ Self.is_known self.old)
            × (Self.files self.new ≡ Self.files self.old)
            × (agent_files self.new ≡ agent_files self.old)
            × (makes self.new ≡ makes self.old) }
        ensures fault { IfErr result (λ e. (e ≡ OpenFault.Unreadable) ⊎ (e ≡ OpenFault.Memory)) };

    /// Returns the folder of what the agent keeps, below `root`. It is made if it isn't there.
    ///
    /// # Errors
    /// `Unreadable` if it can't be made, or `Memory`. It may be made in part then.
    fn make_agent(&mut self, alloc: Global, root: &str) -> Result<F, OpenFault>
        ensures known { IfOk result (λ f. Self.is_known self.old ≡ true → F.is_known f ≡ true) }
        ensures files { IfOk result (λ f. Self.is_known self.old ≡ true → F.files f ≡ agent_files self.old root.now) }
        ensures log { OnOk result (Self.is_known self.old ≡ true
            → made_paths self.new ≡ made_paths self.old ++ agent_path root.now ∷ []) }
        ensures kept { (Self.is_known self.new ≡ Self.is_known self.old)
            × (Self.files self.new ≡ Self.files self.old)
            × (agent_files self.new ≡ agent_files self.old)
            × (makes self.new ≡ makes self.old) }
        ensures fault { IfErr result (λ e. (e ≡ OpenFault.Unreadable) ⊎ (e ≡ OpenFault.Memory)) };
}

/// Folders of the system, whose files aren't known. That of a device is named by its endpoint
/// identifier.
#[derive(Clone, Copy)]
pub struct SystemStores<'a> {
    rt: &'a HostRuntime,
}

/// Returns the path of the folder of a device's store.
fn device_path(alloc: Global, root: &str, device: u8) -> Result<String, AllocError>
    ensures { IfOk result (λ path. string_bytes path ≡ store_path root.now device) }
{
    match format!(in alloc; "{root}/{device}") {
        Ok(path) => Ok(path),
        Err(_) => Err(AllocError),
    }
}

/// Returns the path of the folder of what the agent keeps.
fn agent_path(alloc: Global, root: &str) -> Result<String, AllocError>
    ensures { IfOk result (λ path. string_bytes path ≡ agent_path root.now) }
{
    match format!(in alloc; "{root}/agent") {
        Ok(path) => Ok(path),
        Err(_) => Err(AllocError),
    }
}

impl<'a> SystemStores<'a> {
    /// Creates the stores over the folders that a runtime reaches.
    pub fn new(rt: &'a HostRuntime) -> SystemStores<'a> {
        SystemStores { rt }
    }
}

impl<'a> ReadStores<SystemFolder<'a>> for SystemStores<'a> {
    ghost is_known = { λ s. false };

    ghost files = { λ s root device name. None };

    fn at(&self, alloc: Global, root: &str, device: u8) -> Result<SystemFolder<'a>, AllocError> {
        match device_path(alloc, root, device) {
            Ok(path) => Ok(SystemFolder::new(self.rt, path)),
            Err(_) => Err(AllocError),
        }
    }
}

impl<'a> Stores<SystemFolder<'a>> for SystemStores<'a> {
    ghost agent_files = { λ s root name. None };

    ghost made_paths = { λ s. [] };

    fn make(
        &mut self,
        alloc: Global,
        root: &str,
        device: u8,
    ) -> Result<SystemFolder<'a>, OpenFault> {
        let Ok(path) = device_path(alloc, root, device) else {
            return Err(OpenFault::Memory);
        };
        match SystemFolder::make(self.rt, path) {
            Ok(folder) => Ok(folder),
            Err(_) => Err(OpenFault::Unreadable),
        }
    }

    fn make_agent(&mut self, alloc: Global, root: &str) -> Result<SystemFolder<'a>, OpenFault> {
        let Ok(path) = agent_path(alloc, root) else {
            return Err(OpenFault::Memory);
        };
        match SystemFolder::make(self.rt, path) {
            Ok(folder) => Ok(folder),
            Err(_) => Err(OpenFault::Unreadable),
        }
    }
}

/// Opens the store of a folder, for components with these configured images.
fn open_over<F: Folder + Drop>(
    alloc: Global,
    folder: F,
    components: &[ComponentConfig],
) -> Result<FolderStore<F>, OpenFault>
    ensures found { IfOk result (λ s. F.is_known folder ≡ true
        → found_in (images_configured (map component_of components.now)) (F.files folder)
        ≡ Ok s.memory.images.items) }
    ensures untouched { IfOk result (λ s. s.folder ≡ folder) }
    ensures damaged { IfErr result (λ e. e ≡ OpenFault.Damaged
        → F.is_known folder ≡ true
        → found_in (images_configured (map component_of components.now)) (F.files folder)
        ≡ Err OpenFault.Damaged) }
    ensures foreign { IfErr result (λ e. e ≡ OpenFault.Foreign
        → F.is_known folder ≡ true
        → found_in (images_configured (map component_of components.now)) (F.files folder)
        ≡ Err OpenFault.Foreign) }
    ensures unread { IfErr result (λ e. e ≡ OpenFault.Unreadable → F.may_fail folder ≡ true) }
{
    match configured_images(alloc, components) {
        Ok(images) => open_store(alloc, folder, images.as_slice()),
        Err(_) => Err(OpenFault::Memory),
    }
}

/// Reads the images that a folder keeps, for components with these configured images. The folder is
/// only read.
fn read_over<F: Folder + Drop>(
    alloc: Global,
    folder: &F,
    components: &[ComponentConfig],
) -> Result<MemStore, OpenFault>
    ensures found { IfOk result (λ s. F.is_known folder.now ≡ true
        → found_in (images_configured (map component_of components.now)) (F.files folder.now)
        ≡ Ok s.images.items) }
    ensures damaged { IfErr result (λ e. e ≡ OpenFault.Damaged
        → F.is_known folder.now ≡ true
        → found_in (images_configured (map component_of components.now)) (F.files folder.now)
        ≡ Err OpenFault.Damaged) }
    ensures foreign { IfErr result (λ e. e ≡ OpenFault.Foreign
        → F.is_known folder.now ≡ true
        → found_in (images_configured (map component_of components.now)) (F.files folder.now)
        ≡ Err OpenFault.Foreign) }
    ensures unread { IfErr result (λ e. e ≡ OpenFault.Unreadable → F.may_fail folder.now ≡ true) }
{
    match configured_images(alloc, components) {
        Ok(images) => read_store(alloc, folder, images.as_slice()),
        Err(_) => Err(OpenFault::Memory),
    }
}

/// Opens the store of a device, and replaces the device's configured images by those that the store
/// keeps. Its folder is only read.
fn open_device<F: Folder + Drop, S: ReadStores<F>>(
    alloc: Global,
    stores: &S,
    root: &str,
    device: &mut DeviceConfig,
) -> Result<FolderStore<F>, OpenFault>
    ensures stocked { OnOk result (HasStoredImages (stores_in (S.is_known stores.now)
        (S.files stores.now) root.now) (device_of device.old) (device_of device.new)) }
    ensures untouched { IfOk result (λ s. S.is_known stores.now ≡ true
        → F.files s.folder ≡ S.files stores.now root.now device.old.endpoint.eid) }
    ensures fault { IfErr result (IsFaulty (stores_in (S.is_known stores.now) (S.files stores.now)
        root.now) (device_of device.old)) }
{
    let folder = match stores.at(alloc, root, device.endpoint.eid) {
        Ok(folder) => folder,
        Err(_) => return Err(OpenFault::Memory),
    };
    let store = open_over(alloc, folder, device.components.as_slice())?;
    match stock(alloc, device, store.images()) {
        Ok(()) => Ok(store),
        Err(_) => Err(OpenFault::Memory),
    }
}

/// Replaces a device's configured images by those that its folder keeps.
fn read_device<F: Folder + Drop, S: ReadStores<F>>(
    alloc: Global,
    stores: &S,
    root: &str,
    device: &mut DeviceConfig,
) -> Result<(), OpenFault>
    ensures stocked { OnOk result (HasStoredImages (stores_in (S.is_known stores.now)
        (S.files stores.now) root.now) (device_of device.old) (device_of device.new)) }
    ensures fault { IfErr result (IsFaulty (stores_in (S.is_known stores.now) (S.files stores.now)
        root.now) (device_of device.old)) }
{
    let Ok(folder) = stores.at(alloc, root, device.endpoint.eid) else {
        return Err(OpenFault::Memory);
    };
    let store = read_over(alloc, &folder, device.components.as_slice())?;
    match stock(alloc, device, store.images()) {
        Ok(()) => Ok(()),
        Err(_) => Err(OpenFault::Memory),
    }
}

/// Opens the store of each of these devices, in its own folder below `root`, and replaces the
/// device's configured images by those that the store keeps. The folders are only read.
///
/// # Errors
/// The first device whose store isn't opened, and the cause. Images of devices before it may be
/// replaced then.
fn open_each<F: Folder + Drop, S: ReadStores<F>>(
    alloc: Global,
    stores: &S,
    root: &str,
    devices: &mut [DeviceConfig],
) -> Result<StoreBanks<F>, Unopened>
    ensures stocked { OnOk result (HaveStoredImages (stores_in (S.is_known stores.now)
        (S.files stores.now) root.now) (map device_of devices.old) (map device_of devices.new)) }
    ensures whole { OnOk result ((agent : ℕ)
        → AreWhole agent (map device_of devices.old)
        → AreWhole agent (map device_of devices.new)) }
    ensures order { IfOk result (λ b. map (λ s. s.device) b.stores.items ≡ eids_of (map device_of devices.old)) }
    ensures folders { IfOk result (λ b. S.is_known stores.now ≡ true → AllByRecursion
        (λ s. F.files s.store.folder ≡ S.files stores.now root.now s.device) b.stores.items) }
    ensures fault { IfErr result (IsUnopened (stores_in (S.is_known stores.now) (S.files stores.now)
        root.now) (map device_of devices.old)) }
{
    let mut banks = StoreBanks::new(alloc);
    for device in devices.iter_mut() {
        let eid = device.endpoint.eid;
        let store = match open_device(alloc, stores, root, device) {
            Ok(store) => store,
            Err(why) => return Err(Unopened { device: eid, why }),
        };
        let Ok(()) = banks.push(eid, store) else {
            return Err(Unopened {
                device: eid,
                why: OpenFault::Memory,
            });
        };
    }
    Ok(banks)
}

/// Makes the folder of the store of each of these devices, if there is none.
///
/// # Errors
/// The first device whose folder can't be made, and the cause: `Unreadable` or `Memory`.
fn make_folders<F: Folder + Drop, S: Stores<F>>(
    alloc: Global,
    stores: &mut S,
    root: &str,
    devices: &[DeviceConfig],
) -> Result<(), Unopened>
    ensures made { OnOk result (AllByRecursion (λ x. S.makes stores.old root.now x.endpoint.eid ≡ true)
        (map device_of devices.now)) }
    ensures log { OnOk result (S.is_known stores.old ≡ true → S.made_paths stores.new
        ≡ S.made_paths stores.old ++ store_paths root.now (map device_of devices.now)) }
    ensures kept { (S.is_known stores.new ≡ S.is_known stores.old)
        × (S.files stores.new ≡ S.files stores.old)
        × (S.agent_files stores.new ≡ S.agent_files stores.old)
        × (S.makes stores.new ≡ S.makes stores.old) }
    ensures fault { IfErr result (IsUnmade (map device_of devices.now)) }
{
    for device in devices {
        let eid = device.endpoint.eid;
        match stores.make(alloc, root, eid) {
            Ok(_) => {}
            Err(why) => return Err(Unopened { device: eid, why }),
        }
    }
    Ok(())
}

/// Opens the store of each of these devices, in its own folder below `root`, and replaces the
/// device's configured images by those that the store keeps. Missing folders are made after all
/// stores are opened. Until then the folders are only read.
///
/// # Errors
/// The first device whose store isn't opened, and the cause: `Damaged` and `Foreign` as `found_in`
/// defines them, `Unreadable` if its folder can't be read, and `Memory`; no folder is made then. Or
/// the first device whose folder can't be made. Images of devices before it may be replaced then.
#[tactic(auto, using(crate::proofs::Stocking::unmade_so))]
pub fn open_stores<F: Folder + Drop, S: Stores<F>>(
    alloc: Global,
    stores: &mut S,
    root: &str,
    devices: &mut [DeviceConfig],
) -> Result<StoreBanks<F>, Unopened>
    ensures stocked { OnOk result (HaveStoredImages (stores_in (S.is_known stores.old)
        (S.files stores.old) root.now) (map device_of devices.old) (map device_of devices.new)) }
    ensures whole { OnOk result ((agent : ℕ)
        → AreWhole agent (map device_of devices.old)
        → AreWhole agent (map device_of devices.new)) }
    ensures made { OnOk result (AllByRecursion (λ x. S.makes stores.old root.now x.endpoint.eid ≡ true)
        (map device_of devices.new)) }
    ensures log { OnOk result (S.is_known stores.old ≡ true → S.made_paths stores.new
        ≡ S.made_paths stores.old ++ store_paths root.now (map device_of devices.new)) }
    ensures kept { (S.is_known stores.new ≡ S.is_known stores.old)
        × (S.files stores.new ≡ S.files stores.old)
        × (S.agent_files stores.new ≡ S.agent_files stores.old)
        × (S.makes stores.new ≡ S.makes stores.old) }
    ensures order { IfOk result (λ b. map (λ s. s.device) b.stores.items ≡ eids_of (map device_of devices.old)) }
    ensures folders { IfOk result (λ b. S.is_known stores.old ≡ true → AllByRecursion
        (λ s. F.files s.store.folder ≡ S.files stores.old root.now s.device) b.stores.items) }
    ensures fault { IfErr result (IsUnopened (stores_in (S.is_known stores.old) (S.files stores.old)
        root.now) (map device_of devices.old)) }
    ensures untouched { IfErr result (λ e. (stores.new ≡ stores.old)
        ⊎ (HaveStoredImages (stores_in (S.is_known stores.old) (S.files stores.old) root.now)
        (map device_of devices.old) (map device_of devices.new)
        × IsUnmade (map device_of devices.new) e)) }
{
    let banks = match open_each(alloc, stores, root, devices) {
        Ok(banks) => banks,
        Err(unopened) => return Err(unopened),
    };
    match make_folders(alloc, stores, root, devices) {
        Ok(()) => {}
        Err(unmade) => return Err(unmade),
    }
    Ok(banks)
}

/// Replaces the configured images of each of these devices by those that its folder keeps. The
/// folders are only read.
///
/// # Errors
/// As for `open_stores`.
pub fn read_stores<F: Folder + Drop, S: ReadStores<F>>(
    alloc: Global,
    stores: &S,
    root: &str,
    devices: &mut [DeviceConfig],
) -> Result<(), Unopened>
    ensures stocked { OnOk result (HaveStoredImages (stores_in (S.is_known stores.now)
        (S.files stores.now) root.now) (map device_of devices.old) (map device_of devices.new)) }
    ensures whole { OnOk result ((agent : ℕ)
        → AreWhole agent (map device_of devices.old)
        → AreWhole agent (map device_of devices.new)) }
    ensures fault { IfErr result (IsUnopened (stores_in (S.is_known stores.now) (S.files stores.now)
        root.now) (map device_of devices.old)) }
{
    for device in devices.iter_mut() {
        let eid = device.endpoint.eid;
        match read_device(alloc, stores, root, device) {
            Ok(()) => {}
            Err(why) => return Err(Unopened { device: eid, why }),
        }
    }
    Ok(())
}
