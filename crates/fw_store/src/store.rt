//! The store of active images.

ghost use Rattle.std.specs.Prelude.{◌≡◌, List, OnErr, OnOk, map};
ghost use Rattle.fw_store.specs.Kept.{KeptOf, kept_after};

use fd_core::Label;
use fwup_wire::Key;
use std::marker::Model;
use thiserror::Error;

/// A store couldn't keep an image.
#[derive(Clone, Copy, Debug, PartialEq, Eq, Error)]
#[error("Store")]
pub struct StoreFault;

/// An image to keep: its component, its label and its bytes.
#[derive(Drop)]
pub struct Kept<'a> {
    /// The component.
    pub key: Key,
    /// The image's label.
    pub label: &'a Label,
    /// The image's bytes.
    pub bytes: &'a [u8],
}

impl<'a> Model for Kept<'a> {
    ghost use Rattle.fw_store.specs.Kept.{KeptOf};

    ghost Value = { KeptOf };

    ghost view = { λ k. record { key = k.key; image = record { label = k.label.now; bytes = k.bytes.now } } };
}

/// A store of images: it keeps the active image of each component, even after a crash at any
/// moment.
pub trait Store {
    ghost kept: { Self → List KeptOf };

    /// Makes these images active, each replacing that of its component: entirely or not at all.
    ///
    /// # Errors
    /// They can't be kept. The images kept before are still kept.
    fn keep(&mut self, images: &[Kept<'_>]) -> Result<(), StoreFault>
        ensures ok { OnOk result (kept self.new ≡ kept_after (kept self.old) images.now) }
        ensures err { OnErr result (kept self.new ≡ kept self.old) };
}
