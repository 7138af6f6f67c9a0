//! A device's configuration, and its data of an update.

ghost use Rattle.std.specs.Prelude.{◌≡◌};
ghost use Rattle.fd_core.specs.declared.states.Progress.TheVariants.{InProgress};

use crate::labels::Label;
use crate::states::{Progress, Reason, State};
use arrayvec::ArrayVec;
use fwup_wire::{ComponentOffer, Key};

/// The most components of a device: their parameters fit one answer.
pub const MAX_COMPONENTS: usize = 3;

/// The most components of an update.
pub const MAX_TABLE: usize = 8;

/// The most bytes of an image.
pub const MAX_IMAGE: u32 = 1_048_576;

/// The key used if there is no component.
pub const NO_KEY: Key = Key {
    classification: 0,
    identifier: 0,
};

/// A component as it is configured.
#[derive(Clone, Copy, PartialEq, Eq)]
pub struct BankComponent {
    /// The component.
    pub key: Key,
    /// The index among several components of its classification in the device.
    pub index: u8,
}

/// A component of the update, and its restriction, as `fwup_wire::code::response`.
#[derive(Clone, Copy, PartialEq, Eq)]
pub struct Listed {
    pub key: Key,
    pub code: u8,
}

impl Default for BankComponent {
    /// Returns the component of key 0, 0: `ArrayVec` fills its unused places with it.
    fn default() -> Self {
        BankComponent {
            key: NO_KEY,
            index: 0,
        }
    }
}

impl Default for Listed {
    /// Returns the component of key 0, 0: `ArrayVec` fills its unused places with it.
    fn default() -> Self {
        Listed {
            key: NO_KEY,
            code: 0,
        }
    }
}

/// The data of RequestUpdate, and the components that were passed since.
#[derive(Drop)]
pub struct Update {
    /// The most bytes that the agent sends at once.
    pub transfer_size: u32,
    /// The number of components of the update.
    pub components: u16,
    /// The components that were passed so far.
    pub table: ArrayVec<Listed, MAX_TABLE>,
}

/// The data of UpdateComponent, and the number of the image's bytes that are stored.
#[derive(Drop)]
pub struct Work {
    /// The component.
    pub key: Key,
    /// The image's size in bytes.
    pub size: u32,
    /// The version that the image will have.
    pub label: Label,
    /// Whether the update is forced.
    pub force: bool,
    /// The number of the image's bytes that are stored.
    pub received: u32,
}

impl Work {
    /// Returns the work that an UpdateComponent begins.
    pub fn new(offer: &ComponentOffer<'_>, label: Label) -> Work
        ensures { result ≡ record {
          key = offer.now.key;
          size = offer.now.size;
          label = label;
          force = offer.now.force;
          received = 0;
        } }
    {
        Work {
            key: offer.key,
            size: offer.size,
            label,
            force: offer.force,
            received: 0,
        }
    }
}

/// A device's state, its previous state, the reason for being idle, and the ticks without a change.
#[derive(Clone, Copy)]
pub struct Course {
    /// The device's state.
    pub state: State,
    /// The progress in DOWNLOAD, VERIFY and APPLY; it has no meaning in other states.
    pub progress: Progress,
    /// The state before the last change of state.
    pub previous: State,
    /// The reason why the device was last idle.
    pub reason: Reason,
    /// In ticks, below `PATIENCE`.
    pub idle: u8,
}

impl Course {
    /// Goes to a state, whose work is then in progress.
    pub fn go(&mut self, state: State)
        ensures { self.new ≡ record self.old { state = state; progress = InProgress; previous = self.old.state; idle = 0 } }
    {
        self.previous = self.state;
        self.state = state;
        self.progress = Progress::InProgress;
        self.idle = 0;
    }
}
