//! Why a store can't be opened.

use thiserror::Error;

/// Why a store can't be opened.
#[derive(Clone, Copy, Debug, PartialEq, Eq, Error)]
pub enum OpenFault {
    /// The store's `active` isn't the text of a list of images, or one of the images isn't there
    /// with its size and its checksum.
    #[error("damaged")]
    Damaged,
    /// The store keeps an image of a component that the configuration doesn't have.
    #[error("foreign")]
    Foreign,
    /// The folder can't be read.
    #[error("unreadable")]
    Unreadable,
    /// Memory could not be allocated.
    #[error("memory")]
    Memory,
}
