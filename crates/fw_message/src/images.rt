//! The images that a device has applied, before it activates them.

ghost use Rattle.std.specs.Prelude.{◌≡◌, ◌≤◌, OnOk, IfOk, length, map};
ghost use Rattle.fd_core.specs.Images.{images_with, is_key_before};
ghost use Rattle.fw_message.specs.Entries.{applied_images_among, place_in, keyed_image_of};

use crate::entry::Image;
use crate::lending::image_of;
use fd_core::{Bank, BankComponent, Key};
use fw_package::Package;
use std::alloc::{AllocError, Global};

/// Returns the applied images, by rising key.
pub fn applied_images<'a, B: Bank>(
    alloc: Global,
    packages: &'a [Package<'a>],
    bank: &B,
    components: &[BankComponent],
) -> Result<Vec<Image<'a>>, AllocError>
    ensures { IfOk result (λ images. map keyed_image_of images.items ≡ applied_images_among (B.rows bank.now) components.now) }
{
    let [component, rest @ ..] = components else {
        return Ok(Vec::new(alloc));
    };
    let mut images = applied_images(alloc, packages, bank, rest)?;
    let Some((_, bytes)) = bank.applied(component.key) else {
        return Ok(images);
    };
    let image = image_of(alloc, packages, component.key, bytes)?;
    put_in(&mut images, image)?;
    Ok(images)
}

/// Inserts an image among others, by rising key.
#[tactic(auto, using(crate::proofs::Rising::put_in_place))]
fn put_in<'a>(images: &mut Vec<Image<'a>>, image: Image<'a>) -> Result<(), AllocError>
    ensures { OnOk result (map keyed_image_of images.new.items
        ≡ images_with (keyed_image_of image.entry) (map keyed_image_of images.old.items)) }
{
    let place = place_for(images, image.key);
    let Ok(()) = images.insert(place, image) else {
        return Err(AllocError);
    };
    Ok(())
}

/// Returns the number of images before the place of this key.
fn place_for(images: &[Image<'_>], key: Key) -> usize
    ensures place { result ≡ place_in (map keyed_image_of images.now) key }
    ensures within { result ≤ length images.now }
{
    for (place, image) in images.iter().enumerate() {
        if !rises(image.key, key) {
            return place;
        }
    }
    images.len()
}

/// Whether the first key is less than the second.
fn rises(a: Key, b: Key) -> bool
    ensures { result ≡ is_key_before a b }
{
    if a.classification == b.classification {
        a.identifier < b.identifier
    } else {
        a.classification < b.classification
    }
}
