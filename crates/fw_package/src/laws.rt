//! Laws of all packages.

ghost use Rattle.fw_package.specs.Laws.{AreOnePackage, ChoosesFirst, PlansKeysOnce, PlansNamedImages, ReadsPackages};

/// Bytes are at most one package, which `Package::read` returns.
pub fn one_package()
    ensures read { ReadsPackages }
    ensures one { AreOnePackage }
{}

/// The record for a device is the first that has a descriptor and has only descriptors of the
/// device.
pub fn chooses_first()
    ensures { ChoosesFirst }
{}

/// The components of a plan have different keys, and the image of each is the one that the package
/// names for the device under its key.
pub fn plans_named_images()
    ensures keys { PlansKeysOnce }
    ensures images { PlansNamedImages }
{}
