//! A choice of devices.

ghost use Rattle.std.specs.Prelude.{◌≡◌, ◌<◌, ◌==◌, ◌||◌, ℕ};

/// A set of endpoint identifiers of devices, with at least one member.
#[derive(Clone, Copy)]
pub struct DeviceSet {
    /// The first member.
    first: u8,
    /// Whether each identifier was added after the first.
    others: [bool; 256],
    pub ghost fits: { first < 256 },
}

impl DeviceSet {
    ghost use Rattle.fwupd_base.specs.DeviceSets.{has_eid};

    /// Creates the set of one endpoint identifier.
    pub fn new(eid: u8) -> DeviceSet
        ensures { (other : ℕ) → has_eid result other ≡ (other == eid) }
    {
        DeviceSet {
            first: eid,
            others: [false; 256],
        }
    }

    /// Adds an endpoint identifier, if it isn't a member.
    pub fn insert(&mut self, eid: u8)
        ensures { (other : ℕ) → has_eid self.new other ≡ (has_eid self.old other || (other == eid)) }
    {
        self.others[eid as usize] = true;
    }

    /// Returns whether an endpoint identifier is a member.
    pub fn contains(&self, eid: u8) -> bool
        ensures { result ≡ has_eid self.now eid }
    {
        eid == self.first || self.others[eid as usize]
    }
}
