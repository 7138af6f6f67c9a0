//! The setup of the runs.

ghost use Rattle.std.specs.Prelude.{[], ◌*◌, ◌≡◌, IfErr, IfOk, OnOk, length, map};
ghost use Rattle.fd_core.specs.Banks.{HaveKeysOnce};
ghost use Rattle.fd_core.specs.Images.{key_of};
ghost use Rattle.fw_script.specs.Seen.{component_of, device_of};
ghost use Rattle.fw_script.specs.Whole.{AreNew, AreWhole, keys_of};
ghost use Rattle.fw_setup.specs.Nodes.{row_made};
ghost use Rattle.fw_steps.specs.Opening.{IsOpeningWorld};
ghost use Rattle.fw_soak.specs.Chances.{failing_call, generator_past};
ghost use Rattle.fw_soak.specs.Courses.{opening_of};
ghost use Rattle.fw_soak.specs.Setups.{setup_of};

use crate::chances::Chances;
use crate::decisions::failing_drawn;
use fd_core::{FailBank, MemBank};
use fw_package::Package;
use fw_script::{ComponentConfig, DeviceConfig};
use fw_setup::{Banks, BanksFault, mem_bank, opening_world_over};
use fw_world::World;
use mctp_ctl::Endpoint;
use mctp_wire::Unit;
use std::alloc::{AllocError, Global};

/// The setup of the runs.
#[derive(Clone, Copy)]
pub struct Setup<'a> {
    /// The agent's endpoint.
    pub agent: Endpoint,
    /// The transmission unit of its network.
    pub unit: Unit,
    /// Its devices, as configured.
    pub devices: &'a [DeviceConfig],
    /// The packages of the updates; the first has number 1.
    pub packages: &'a [Package<'a>],
}

/// Returns a bank of which at random one call fails, or none.
fn failing_bank(bank: MemBank, chances: &mut Chances) -> FailBank
    ensures bank { result.bank ≡ bank }
    ensures left { result.left ≡ failing_call chances.old.generator }
    ensures faults { result.faults ≡ 0 }
    ensures after { chances.new.generator ≡ generator_past 2 chances.old.generator }
{
    let failing = failing_drawn(chances);
    FailBank::new(bank, failing)
}

/// At random, one call of each bank fails, or none.
impl Banks<FailBank> for Chances {
    fn make(
        &mut self,
        alloc: Global,
        _device: u8,
        components: &[ComponentConfig],
    ) -> Result<FailBank, BanksFault>
        requires new { AreNew [] (keys_of (map component_of components.now)) }
        ensures rows { IfOk result (λ b. b.bank.rows ≡ map row_made (map component_of components.now)) }
        ensures apart { IfOk result (λ b. HaveKeysOnce (map key_of b.bank.rows)) }
        ensures faults { IfOk result (λ b. b.faults ≡ 0) }
        ensures left { IfOk result (λ b. b.left ≡ failing_call self.old.generator) }
        ensures after { OnOk result (self.new.generator ≡ generator_past 2 self.old.generator) }
        ensures memory { IfErr result (λ e. e ≡ BanksFault.Memory) }
    {
        let Ok(bank) = mem_bank(alloc, components) else {
            return Err(BanksFault::Memory);
        };
        Ok(failing_bank(bank, self))
    }
}

/// Draws the numbers of the banks of `devices` devices.
fn pass_banks(devices: usize, chances: &mut Chances)
    ensures { chances.new.generator ≡ generator_past (2 * devices) chances.old.generator }
{
    for count in 0..devices {
        let _ = failing_drawn(chances);
    }
}

/// Creates the world before the first step of a run. At random, one call of each device's bank
/// fails, or none. The banks draw their numbers from a copy of the generator, so that their number
/// is known.
///
/// # Errors
/// `AllocError` if memory is refused.
pub(crate) fn opening<'a>(
    alloc: Global,
    setup: &Setup<'a>,
    chances: &mut Chances,
) -> Result<World<'a, FailBank>, AllocError>
    requires { AreWhole setup.now.agent.eid (map device_of setup.now.devices.now) }
    ensures made { IfOk result (λ w. w ≡ opening_of (setup_of setup.now)) }
    ensures opens { IfOk result (λ w. IsOpeningWorld w) }
    ensures after { OnOk result (chances.new.generator
        ≡ generator_past (2 * length setup.now.devices.now) chances.old.generator) }
{
    let mut banks = chances.copy()?;
    pass_banks(setup.devices.len(), chances);
    match opening_world_over(
        alloc,
        setup.unit,
        setup.agent,
        setup.devices,
        setup.packages,
        &mut banks,
    ) {
        Ok(world) => Ok(world),
        Err(_) => Err(AllocError),
    }
}
