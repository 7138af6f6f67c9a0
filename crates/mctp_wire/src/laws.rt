//! Round-trip laws: an encoded packet reads back.

ghost use Rattle.mctp_wire.specs.Packet.{ReadsPackets, SpellsAlike, WritesPackets};

/// An encoded packet reads back as the same head and body. Bytes are a packet with at most one head
/// and body, which `decode` returns. So a packet that was read is equivalent to its encoded form.
pub fn reads_back()
    ensures written { WritesPackets }
    ensures read { ReadsPackets }
    ensures alike { SpellsAlike }
{}
