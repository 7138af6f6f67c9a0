//! The source of links to devices.

ghost use Rattle.std.specs.Prelude.{◌≡◌, ◌⊎◌, Bool, IfErr, IfOk, List, true, ℕ};

use fwupd_watch::JobFault;
use mctp_wire::Unit;

/// The source of links to devices. In contracts, `lacks` is the devices to which a link may fail to
/// open, and `is_to` the transmission unit, the folder and the device of a link.
pub trait Wires<L> {
    ghost use Rattle.mctp_wire.specs.declared.unit.Unit.{«Unit»};

    ghost lacks: { Self → List ℕ → ℕ → Bool };

    ghost is_to: { «Unit» → List ℕ → ℕ → L → Bool } = { λ unit folder device link. true };

    /// Opens a link to a device in a folder, in a network with this transmission unit.
    ///
    /// # Errors
    /// `Socket` if it can't be made, and `Memory`.
    fn open(&mut self, unit: Unit, folder: &str, device: u8) -> Result<L, JobFault>
        ensures to { IfOk result (λ link. is_to unit folder.now device link ≡ true) }
        ensures same { lacks self.new ≡ lacks self.old }
        ensures fault { IfErr result (λ e. (e ≡ JobFault.Memory)
            ⊎ ((e ≡ JobFault.Socket device) × (lacks self.old folder.now device ≡ true))) };
}
