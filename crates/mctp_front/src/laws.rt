//! Laws of a front: what always passes to the node.

ghost use Rattle.mctp_front.specs.Laws.{PassesOthers, PassesParts, PassesUpdates};

/// Never answered: a packet to another endpoint or a broadcast, a packet of a longer message, an
/// answer, and a PLDM message of another type than base.
pub fn passes_to_the_node()
    ensures others { PassesOthers }
    ensures parts { PassesParts }
    ensures updates { PassesUpdates }
{}
