//! Makes the banks of a configuration's devices.

ghost use Rattle.std.specs.Prelude.{◌≡◌, [], IfErr, IfOk, map};
ghost use Rattle.fd_core.specs.Banks.{HaveKeysOnce};
ghost use Rattle.fd_core.specs.Images.{key_of};
ghost use Rattle.fw_script.specs.Seen.{component_of};
ghost use Rattle.fw_script.specs.Whole.{AreNew, keys_of};
ghost use Rattle.fw_setup.specs.Nodes.{row_made};

use fd_core::{Bank, MemBank};
use fw_script::ComponentConfig;
use std::alloc::{AllocError, Global};

/// The reason why a bank isn't made.
#[derive(Clone, Copy, Debug, PartialEq, Eq)]
pub enum BanksFault {
    /// Memory was refused.
    Memory,
    /// There can be no bank for this device.
    Device(u8),
}

/// A maker of the banks of devices.
pub trait Banks<B: Bank + Drop> {
    /// Makes a bank of a device's components, each with its running image.
    ///
    /// # Errors
    /// `Device` if there can be no bank for this device, `Memory` if memory is refused.
    fn make(
        &mut self,
        alloc: Global,
        device: u8,
        components: &[ComponentConfig],
    ) -> Result<B, BanksFault>
        requires new { AreNew [] (keys_of (map component_of components.now)) }
        ensures rows { IfOk result (λ b. B.rows b ≡ map row_made (map component_of components.now)) }
        ensures apart { IfOk result (λ b. HaveKeysOnce (map key_of (B.rows b))) }
        ensures faults { IfOk result (λ b. B.faults b ≡ 0) };
}

/// Makes banks in memory.
#[derive(Clone, Copy)]
pub struct MemBanks;

impl Banks<MemBank> for MemBanks {
    fn make(
        &mut self,
        alloc: Global,
        _device: u8,
        components: &[ComponentConfig],
    ) -> Result<MemBank, BanksFault>
        requires new { AreNew [] (keys_of (map component_of components.now)) }
        ensures rows { IfOk result (λ b. b.rows ≡ map row_made (map component_of components.now)) }
        ensures apart { IfOk result (λ b. HaveKeysOnce (map key_of b.rows)) }
        ensures faults { IfOk result (λ b. b.faults ≡ 0) }
        ensures memory { IfErr result (λ e. e ≡ BanksFault.Memory) }
    {
        match mem_bank(alloc, components) {
            Ok(bank) => Ok(bank),
            Err(_) => Err(BanksFault::Memory),
        }
    }
}

/// Makes a bank in memory of these components, each with its running image.
///
/// # Errors
/// `AllocError` if memory for it is refused.
pub fn mem_bank(alloc: Global, components: &[ComponentConfig]) -> Result<MemBank, AllocError>
    requires { AreNew [] (keys_of (map component_of components.now)) }
    ensures rows { IfOk result (λ b. b.rows ≡ map row_made (map component_of components.now)) }
    ensures apart { IfOk result (λ b. HaveKeysOnce (map key_of b.rows)) }
    ensures faults { IfOk result (λ b. b.faults ≡ 0) }
{
    let mut bank = MemBank::new(alloc);
    for config in components {
        let Ok(()) = bank.add(config.component.key, &config.label, &config.image) else {
            return Err(AllocError);
        };
    }
    Ok(bank)
}
