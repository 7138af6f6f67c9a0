//! Images for the history: borrowed from a package that has the same bytes, else copied.

ghost use Rattle.std.specs.Prelude.{[], ◌≡◌, ◌≤◌, ◌∷◌, IfOk, IfSome, is_some, length, map, option_to_list, vec_capacity};
ghost use Rattle.fw_message.specs.Entries.{keyed_image_of};
ghost use Rattle.fw_message.specs.Lending.{is_it, is_lent, is_lent_by};
ghost use Rattle.fw_package.specs.Lent.{component_seen};

use crate::entry::Image;
use fd_core::Key;
use fw_package::{Component, Components, Package};
use std::alloc::{AllocError, Global};
use std::borrow::CowSlice;

/// Returns an image of a component with these bytes, which are copied unless a package has them.
pub(crate) fn image_of<'a>(
    alloc: Global,
    packages: &'a [Package<'a>],
    key: Key,
    bytes: &[u8],
) -> Result<Image<'a>, AllocError>
    ensures { IfOk result (λ image. keyed_image_of image ≡ record { key = key; bytes = bytes.now }) }
{
    if let Some(lent) = lent(packages, key, bytes) {
        return Ok(lent);
    }
    let bytes = CowSlice::Owned(Vec::from_slice(alloc, bytes)?);
    Ok(Image { key, bytes })
}

/// Returns an image of a component with these bytes, which are copied into `room` unless a package
/// has them. `None` if the room is too small. The room must be empty.
pub(crate) fn image_in<'a>(
    packages: &'a [Package<'a>],
    key: Key,
    bytes: &[u8],
    room: Vec<u8>,
) -> Option<Image<'a>>
    requires { room.items ≡ [] }
    ensures { length bytes.now ≤ vec_capacity room
        → map keyed_image_of (option_to_list result)
        ≡ record { key = key; bytes = bytes.now } ∷ [] }
{
    if let Some(lent) = lent(packages, key, bytes) {
        return Some(lent);
    }
    let mut room = room;
    let Ok(()) = room.extend_from_slice(bytes) else {
        return None;
    };
    let bytes = CowSlice::Owned(room);
    Some(Image { key, bytes })
}

/// Returns the image of a component with these bytes, borrowed from a package that has it.
fn lent<'a>(packages: &'a [Package<'a>], key: Key, bytes: &[u8]) -> Option<Image<'a>>
    ensures same { IfSome result (λ image. keyed_image_of image ≡ record { key = key; bytes = bytes.now }) }
    ensures found { is_some result ≡ is_lent packages.now key bytes.now }
{
    for package in packages {
        if let Some(image) = lent_by(package.components(), key, bytes) {
            let bytes = CowSlice::Borrowed(image);
            return Some(Image { key, bytes });
        }
    }
    None
}

/// Returns the bytes of the first of these components that has this key and these bytes, borrowed
/// from its package.
fn lent_by<'a>(components: Components<'a>, key: Key, bytes: &[u8]) -> Option<&'a [u8]>
    ensures same { IfSome result (λ image. image.now ≡ bytes.now) }
    ensures found { is_some result ≡ is_lent_by components.entry key bytes.now }
{
    for component in components {
        if is_it(&component, key, bytes) {
            return Some(component.image);
        }
    }
    None
}

/// Whether a component has this key and these bytes.
fn is_it(component: &Component<'_>, key: Key, bytes: &[u8]) -> bool
    ensures { result ≡ is_it (component_seen component.now) key bytes.now }
{
    component.classification == key.classification
        && component.identifier == key.identifier
        && component.image == bytes
}
