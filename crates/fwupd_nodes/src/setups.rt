//! The inputs of jobs on worlds: a configuration, its packages, and the images in the stores of its
//! devices.

ghost use Rattle.std.specs.Prelude.{◌≡◌, ◌≢◌, ◌≤◌, ◌-◌, ◌^◌, ◌++◌, ◌⊎◌, IfErr, IfOk, IsOk, IsSomeAnd, Ok, OnErr, OnOk, length, map, option_map, string_bytes, true, ℕ};
ghost use Rattle.std.specs.List.{AllByRecursion};
ghost use Rattle.fw_package.specs.Reading.{package_of};
ghost use Rattle.fw_script.specs.Configs.{config_of};
ghost use Rattle.fw_script.specs.ScheduleLines.{all_steps};
ghost use Rattle.fw_script.specs.Schedules.{script_of};
ghost use Rattle.fw_script.specs.Seen.{config_seen, device_of};
ghost use Rattle.fw_script.specs.Whole.{AreWhole};
ghost use Rattle.fw_setup.specs.Stocks.{HaveStoredImages, store_paths, stores_in};
ghost use Rattle.fwupd_nodes.specs.Setups.{AreDevices, ArePacked, IsPacked, IsUnreadable, PackageFails, PackagesFail, Says, TellsUnopened, TextFails, TextFault, job_fault_of_misread, job_fault_of_unread};

use fw_package::Package;
use fw_script::{
    Config, DeviceConfig, ScheduleLine, ScriptCause, ScriptFault, read_config, read_lines,
    step_count,
};
use fw_setup::{ReadStores, StoreBanks, Stores, Unopened, open_stores, read_stores};
use fw_store::{Folder, OpenFault};
use fwupd_watch::{FileFault, Files, JobFault};
use std::alloc::{AllocError, Global};

/// The fault of a device's store that can't be opened.
fn store_fault(unopened: Unopened) -> JobFault
    ensures told { (result ≡ JobFault.Memory) ⊎ (result ≡ JobFault.Store unopened.device unopened.why) }
    ensures memory { unopened.why ≡ OpenFault.Memory → result ≡ JobFault.Memory }
    ensures other { unopened.why ≢ OpenFault.Memory → result ≡ JobFault.Store unopened.device unopened.why }
{
    match unopened.why {
        OpenFault::Memory => JobFault::Memory,
        why => JobFault::Store(unopened.device, why),
    }
}

/// The fault of a file with this name that can't be read; lack of memory, if there was none for the
/// name.
fn unread(name: Result<String, AllocError>, fault: FileFault) -> JobFault
    ensures { result ≡ job_fault_of_unread name fault }
{
    match (fault, name) {
        (FileFault::Unreadable, Ok(name)) => JobFault::Unreadable(name),
        _ => JobFault::Memory,
    }
}

/// The fault of a text with this name that isn't of its format; lack of memory, if there was none
/// for the name.
fn misread(name: Result<String, AllocError>, fault: ScriptFault) -> JobFault
    ensures { result ≡ job_fault_of_misread name fault }
{
    match (fault.cause, name) {
        (ScriptCause::Memory, _) | (_, Err(_)) => JobFault::Memory,
        (_, Ok(name)) => JobFault::Text(name, fault),
    }
}

/// Returns the fault of a file that can't be read.
#[tactic(auto, using(crate::proofs::Packed::told_unread))]
pub fn read_fault(alloc: Global, path: &str, fault: FileFault) -> JobFault
    ensures { (result ≡ JobFault.Memory) ⊎ ((fault ≡ FileFault.Unreadable) × IsUnreadable path.now result) }
{
    unread(String::from_str(alloc, path), fault)
}

/// The fault of a text that isn't of its format.
#[tactic(auto, using(crate::proofs::Packed::told_misread))]
pub fn text_fault(alloc: Global, path: &str, fault: ScriptFault) -> JobFault
    ensures { (result ≡ JobFault.Memory) ⊎ TextFault path.now fault result }
{
    misread(String::from_str(alloc, path), fault)
}

/// Returns the configuration in the file of a path.
///
/// # Errors
/// The file can't be read, the first fault of its text, or `Memory`.
#[tactic(auto, using(crate::proofs::Packed::unread_text))]
pub fn configuration<F: Files>(alloc: Global, files: &F, path: &str) -> Result<Config, JobFault>
    ensures says { IfOk result (λ c. Says config_of (F.holds files.now path.now) (config_seen c)) }
    ensures whole { IfOk result (λ c. AreWhole c.agent.eid (map device_of c.devices.items)) }
    ensures fault { IfErr result (λ e. (e ≡ JobFault.Memory) ⊎ TextFails config_of (F.holds files.now) path.now e) }
{
    let text = match files.contents(alloc, path) {
        Ok(text) => text,
        Err(fault) => return Err(read_fault(alloc, path, fault)),
    };
    match read_config(alloc, &text) {
        Ok(config) => Ok(config),
        Err(fault) => Err(text_fault(alloc, path, fault)),
    }
}

/// Returns the lines of the schedule in the file of a path, whose number of steps fits 64 bits.
///
/// # Errors
/// The file can't be read, the first fault of its text, or `Memory`, also if the number of steps
/// doesn't fit 64 bits.
#[tactic(auto, using(crate::proofs::Packed::unread_text))]
pub fn schedule<F: Files>(
    alloc: Global,
    files: &F,
    path: &str,
) -> Result<Vec<ScheduleLine>, JobFault>
    ensures says { IfOk result (λ lines. Says script_of (F.holds files.now path.now) (all_steps lines.items)) }
    ensures countable { IfOk result (λ lines. length (all_steps lines.items) ≤ 2 ^ 64 - 1) }
    ensures fault { IfErr result (λ e. (e ≡ JobFault.Memory) ⊎ TextFails script_of (F.holds files.now) path.now e) }
{
    let text = match files.contents(alloc, path) {
        Ok(text) => text,
        Err(fault) => return Err(read_fault(alloc, path, fault)),
    };
    let lines = match read_lines(alloc, &text) {
        Ok(lines) => lines,
        Err(fault) => return Err(text_fault(alloc, path, fault)),
    };
    if step_count(&lines).is_none() {
        return Err(JobFault::Memory);
    }
    Ok(lines)
}

/// The bytes of the package in the file of a path.
#[tactic(auto, using(crate::proofs::Packed::unread_package))]
fn package_file<F: Files>(alloc: Global, files: &F, path: &str) -> Result<Vec<u8>, JobFault>
    ensures packed { IfOk result (λ bytes. IsPacked (F.holds files.now path.now) bytes.items) }
    ensures fault { IfErr result (λ e. (e ≡ JobFault.Memory) ⊎ PackageFails (F.holds files.now) path.now e) }
{
    let bytes = match files.contents(alloc, path) {
        Ok(bytes) => bytes,
        Err(fault) => return Err(read_fault(alloc, path, fault)),
    };
    match Package::read(&bytes) {
        Ok(_) => {}
        Err(fault) => return Err(JobFault::Package(fault)),
    }
    Ok(bytes)
}

/// Returns the bytes of the packages in the files of these paths.
///
/// # Errors
/// The fault of the first file that can't be read or isn't a package, or `Memory`.
pub fn package_files<F: Files>(
    alloc: Global,
    files: &F,
    paths: &[String],
) -> Result<Vec<Vec<u8>>, JobFault>
    ensures packed { IfOk result (λ fs. ArePacked (F.holds files.now)
        (map (λ p. string_bytes p) paths.now) (map (λ f. f.items) fs.items)) }
    ensures fault { IfErr result (λ e. (e ≡ JobFault.Memory)
        ⊎ PackagesFail (F.holds files.now) (map (λ p. string_bytes p) paths.now) e) }
{
    let mut contents = Vec::new(alloc);
    for path in paths {
        let bytes = match package_file(alloc, files, path) {
            Ok(bytes) => bytes,
            Err(fault) => return Err(fault),
        };
        let Ok(()) = contents.push(bytes) else {
            return Err(JobFault::Memory);
        };
    }
    Ok(contents)
}

/// Returns the packages in these contents, each of which is one.
///
/// # Errors
/// `Memory`.
pub fn packages_in<'p>(alloc: Global, contents: &'p [Vec<u8>]) -> Result<Vec<Package<'p>>, JobFault>
    requires { AllByRecursion (λ f. IsOk (package_of f.items)) contents.now }
    ensures is { IfOk result (λ ps. map (λ p. Ok p) ps.items ≡ map (λ f. package_of f.items) contents.now) }
    ensures fault { IfErr result (λ e. e ≡ JobFault.Memory) }
{
    let mut packages = Vec::new(alloc);
    for bytes in contents {
        let Ok(package) = Package::read(bytes) else {
            unreachable!()
        };
        let Ok(()) = packages.push(package) else {
            return Err(JobFault::Memory);
        };
    }
    Ok(packages)
}

/// Replaces the configured images of the devices by those in the stores in a folder, if one is
/// given. The folder is only read.
///
/// # Errors
/// `Store` of the first device whose store can't be read, and `Memory`.
#[tactic(auto, using(crate::proofs::Packed::told_unopened))]
pub fn read_kept<D: Folder + Drop, T: ReadStores<D>>(
    alloc: Global,
    stores: &T,
    root: Option<&str>,
    devices: &mut Vec<DeviceConfig>,
) -> Result<(), JobFault>
    ensures devices { OnOk result (AreDevices (option_map (stores_in (T.is_known stores.now)
        (T.files stores.now)) (option_map (λ p. p.now) root.entry))
        (map device_of devices.old.items) (map device_of devices.new.items)) }
    ensures whole { OnOk result ((agent : ℕ)
        → AreWhole agent (map device_of devices.old.items)
        → AreWhole agent (map device_of devices.new.items)) }
    ensures fault { IfErr result (λ e. (e ≡ JobFault.Memory)
        ⊎ IsSomeAnd (option_map (stores_in (T.is_known stores.now) (T.files stores.now))
        (option_map (λ p. p.now) root.entry)) (λ s. TellsUnopened s
        (map device_of devices.old.items) e)) }
{
    let Some(root) = root else {
        return Ok(());
    };
    match read_stores(alloc, stores, root, devices.as_mut_slice()) {
        Ok(()) => Ok(()),
        Err(unopened) => Err(store_fault(unopened)),
    }
}

/// Opens the stores in a folder, replaces the configured images of the devices by those in the
/// stores, and creates banks over the stores.
///
/// # Errors
/// `Store` of the first device whose store can't be opened, and `Memory`.
#[tactic(auto, using(crate::proofs::Packed::told_unopened))]
pub fn open_kept<D: Folder + Drop, T: Stores<D>>(
    alloc: Global,
    stores: &mut T,
    root: &str,
    devices: &mut Vec<DeviceConfig>,
) -> Result<StoreBanks<D>, JobFault>
    ensures stocked { OnOk result (HaveStoredImages (stores_in (T.is_known stores.old)
        (T.files stores.old) root.now) (map device_of devices.old.items)
        (map device_of devices.new.items)) }
    ensures whole { OnOk result ((agent : ℕ)
        → AreWhole agent (map device_of devices.old.items)
        → AreWhole agent (map device_of devices.new.items)) }
    ensures fault { IfErr result (λ e. (e ≡ JobFault.Memory)
        ⊎ TellsUnopened (stores_in (T.is_known stores.old) (T.files stores.old) root.now)
        (map device_of devices.old.items) e) }
    ensures untouched { OnErr result ((stores.new ≡ stores.old)
        ⊎ HaveStoredImages (stores_in (T.is_known stores.old) (T.files stores.old) root.now)
        (map device_of devices.old.items) (map device_of devices.new.items)) }
    ensures made { OnOk result (AllByRecursion (λ x. T.makes stores.old root.now x.endpoint.eid ≡ true)
        (map device_of devices.new.items)) }
    ensures log { OnOk result (T.is_known stores.old ≡ true → T.made_paths stores.new
        ≡ T.made_paths stores.old ++ store_paths root.now (map device_of devices.new.items)) }
    ensures kept { (T.is_known stores.new ≡ T.is_known stores.old)
        × (T.files stores.new ≡ T.files stores.old)
        × (T.agent_files stores.new ≡ T.agent_files stores.old) }
{
    match open_stores(alloc, stores, root, devices.as_mut_slice()) {
        Ok(banks) => Ok(banks),
        Err(unopened) => Err(store_fault(unopened)),
    }
}
