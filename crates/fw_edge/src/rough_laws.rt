//! Laws of rough links.

ghost use Rattle.fw_edge.specs.Roughening.{FatesAreWithin};

/// Fates are within the roughness: at 0 percent no packet is lost, or duplicated, and at 100
/// percent each is; and no delay exceeds the limit. Without roughness each packet arrives once,
/// without delay.
pub fn fates_are_within()
    ensures { FatesAreWithin }
{}
