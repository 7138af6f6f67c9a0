//! Whether a history is safe, judged by its entries alone.

use fw_world::{Entry, HistoryEvent, Image};

/// The number of packages, and of the components of each.
const PACKAGES: usize = 2;

const COMPONENTS: usize = 3;

/// A number for each component of each package.
type Table = [[u32; COMPONENTS]; PACKAGES];

/// Byte i of a package's image for a component, both counted from 0.
pub fn byte_of(package: usize, component: usize, i: usize) -> u8 {
    let [byte, ..] = (64 + 64 * (package % 2) + 16 * (component % 3) + i % 16).to_le_bytes();
    byte
}

/// Returns the size of that image, multiplied by `stretch`, 1 to 12.
pub fn size_of(package: usize, component: usize, stretch: u8) -> usize {
    (38 + 20 * (component % 3) + 5 * (package % 2)).saturating_mul(usize::from(stretch))
}

/// Whether bytes are a package's image for a component, with a size multiplied by `stretch`.
fn is_image(package: usize, component: usize, stretch: u8, bytes: &[u8]) -> bool {
    if bytes.len() != size_of(package, component, stretch) {
        return false;
    }
    for (i, byte) in bytes.iter().enumerate() {
        if *byte != byte_of(package, component, i) {
            return false;
        }
    }
    true
}

/// The observations of a device whose images are multiplied by `stretch`: how often each component
/// was applied and recorded, which were recorded since the last activation, which were recorded
/// before the current one, and its package.
#[derive(Clone, Copy)]
struct Seen {
    stretch: u8,
    applied: Table,
    recorded: Table,
    since: Table,
    before: Table,
    package: Option<usize>,
}

/// The observations of the devices 9 and 10, the number of activations, and whether all was safe.
#[derive(Drop)]
pub struct Watch {
    devices: [Seen; 2],
    entries: usize,
    pub activations: u32,
    pub is_safe: bool,
}

impl Watch {
    /// Creates the observations of devices whose images are multiplied by `stretch`, before the
    /// first entry.
    pub fn new(stretch: u8) -> Watch {
        let nothing = Seen {
            stretch,
            applied: [[0; COMPONENTS]; PACKAGES],
            recorded: [[0; COMPONENTS]; PACKAGES],
            since: [[0; COMPONENTS]; PACKAGES],
            before: [[0; COMPONENTS]; PACKAGES],
            package: None,
        };
        Watch {
            devices: [nothing, nothing],
            entries: 0,
            activations: 0,
            is_safe: true,
        }
    }

    /// Observes the new entries of a history.
    pub fn look(&mut self, history: &[Entry<'_>]) {
        let Some(new) = history.get(self.entries..) else {
            self.is_safe = false;
            return;
        };
        for entry in new {
            self.see(entry);
        }
        self.entries = history.len();
    }

    /// Observes an entry.
    fn see(&mut self, entry: &Entry<'_>) {
        let Some(seen) = self
            .devices
            .get_mut(usize::from(entry.device.wrapping_sub(9)))
        else {
            self.is_safe = false;
            return;
        };
        let begins = seen.begins(&entry.event);
        let safe = seen.takes(&entry.event);
        self.is_safe = self.is_safe && safe;
        if begins {
            self.activations = self.activations.saturating_add(1);
        }
    }
}

/// The number of the component, from 0, of an image's key.
fn component_of(image: &Image<'_>) -> usize {
    usize::from(image.key.identifier).saturating_sub(1)
}

/// Increments a count.
fn count(table: &mut Table, package: usize, component: usize) -> Option<u32> {
    let place = table.get_mut(package)?.get_mut(component)?;
    *place = place.saturating_add(1);
    Some(*place)
}

/// The value of a count.
fn times(table: &Table, package: usize, component: usize) -> u32 {
    match table.get(package) {
        Some(row) => row.get(component).copied().unwrap_or(0),
        None => 0,
    }
}

impl Seen {
    /// Whether an activation begins with this entry.
    fn begins(&self, event: &HistoryEvent<'_>) -> bool {
        match event {
            HistoryEvent::Activated(_) => self.package.is_none(),
            _ => false,
        }
    }

    /// Records an event, and returns whether it is safe.
    fn takes(&mut self, event: &HistoryEvent<'_>) -> bool {
        match event {
            HistoryEvent::Applied(image) => self.applies(image),
            HistoryEvent::Recorded(recorded) => self.records(recorded.package, recorded.component),
            HistoryEvent::Activated(image) => self.activates(image),
        }
    }

    /// Records an applied image, which ends an activation. Returns whether that is safe.
    fn applies(&mut self, image: &Image<'_>) -> bool {
        self.package = None;
        let component = component_of(image);
        for package in 0..PACKAGES {
            if is_image(package, component, self.stretch, image.bytes.as_slice()) {
                return count(&mut self.applied, package, component).is_some();
            }
        }
        false
    }

    /// Records a recorded component, counted from 0, of a package, counted from 1. It must have
    /// been applied more often than it was recorded before.
    fn records(&mut self, package: usize, component: usize) -> bool {
        let package = package.saturating_sub(1);
        let Some(recorded) = count(&mut self.recorded, package, component) else {
            return false;
        };
        let _ = count(&mut self.since, package, component);
        recorded <= times(&self.applied, package, component)
    }

    /// Records an activated image. It must be a recorded component's, and all images of one
    /// activation must be of one package.
    fn activates(&mut self, image: &Image<'_>) -> bool {
        let component = component_of(image);
        if self.package.is_none() {
            self.before = self.since;
            self.since = [[0; COMPONENTS]; PACKAGES];
            for package in 0..PACKAGES {
                if is_image(package, component, self.stretch, image.bytes.as_slice()) {
                    self.package = Some(package);
                }
            }
        }
        let Some(package) = self.package else {
            return false;
        };
        times(&self.before, package, component) > 0
            && is_image(package, component, self.stretch, image.bytes.as_slice())
    }
}
