//! The packages that devices are updated with.

ghost use Rattle.std.specs.Prelude.{◌≡◌, ◌<◌, ◌==◌, if◌then◌else◌, ℕ};

/// The numbers of the packages that devices are updated with, from 1: one for each device.
#[derive(Clone, Copy)]
pub struct PackageChoice {
    /// The numbers, by endpoint identifiers.
    numbers: [u32; 256],
}

impl PackageChoice {
    ghost use Rattle.fwupd_base.specs.PackageChoices.{number_for};

    /// Creates the choice of one package for every device.
    pub fn new(number: u32) -> PackageChoice
        ensures { (eid : ℕ) → eid < 256 → number_for result eid ≡ number }
    {
        PackageChoice {
            numbers: [number; 256],
        }
    }

    /// Chooses a package for one device. Those of the others stay.
    pub fn set(&mut self, eid: u8, number: u32)
        ensures { (other : ℕ)
            → number_for self.new other ≡ (if other == eid then number else number_for self.old other) }
    {
        self.numbers[eid as usize] = number;
    }

    /// Returns the number of the package for a device.
    pub fn number_for(&self, eid: u8) -> usize
        ensures { result ≡ number_for self.now eid }
    {
        self.numbers[eid as usize] as usize
    }
}
