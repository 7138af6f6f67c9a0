//! Reads and writes one packet.

ghost use Rattle.std.specs.Prelude.{◌≡◌, ◌<◌, ◌≤◌, length, IfOk, IfErr, ℕ, List, IsOk};
ghost use Rattle.std.specs.Result.{result_map_both};
ghost use Rattle.mctp_wire.specs.declared.layout.Head.{Head};
ghost use Rattle.mctp_wire.specs.Packet.{IsPacket, IsHead, IsFirstWireFault, IsRead, flags_of, packet_of, packet_bytes};

use crate::fault::WireFault;
use crate::layout::{Head, MAX_BODY, Packet, RawPacket};
use crate::unit::Unit;

/// The version of MCTP's header that this crate reads and writes.
const HEADER_VERSION: u8 = 1;

/// The low bits of the first byte, which hold the version. The others are reserved.
const VERSION_MASK: u8 = 0x0F;

/// The place of the start of message bit in the fourth byte.
const SOM_BIT: u32 = 7;

/// The place of the end of message bit in the fourth byte.
const EOM_BIT: u32 = 6;

/// The place of the two bits of sequence number in the fourth byte.
const SEQ_SHIFT: u32 = 4;

/// The two bits of a sequence number.
const SEQ_MASK: u8 = 3;

/// The place of the tag owner bit in the fourth byte.
const TO_BIT: u32 = 3;

/// The three bits of a tag, the fourth byte's lowest.
const TAG_MASK: u8 = 7;

/// Reads a packet of a network with this transmission unit (DSP0236, section 8.1). Reserved bits
/// may hold anything.
///
/// # Errors
/// Bytes that are no packet are refused by the first fault that holds.
pub fn decode(unit: Unit, bytes: &[u8]) -> Result<Packet<'_>, WireFault>
    ensures found { IfOk result (λ p. IsPacket unit bytes.now p.head p.body.now) }
    ensures only { (h : Head) (body : List ℕ) → IsPacket unit bytes.now h body → IsOk result }
    ensures value { result_map_both (λ p. (p.head, p.body.now)) (λ e. e) result ≡ packet_of unit bytes.now }
    ensures read { IfOk result (λ p. IsRead p) }
    ensures fault { IfErr result (λ e. IsFirstWireFault unit bytes.now e) }
{
    let [version, dest, source, flags, body @ ..] = bytes else {
        return Err(WireFault::Short);
    };
    if version & VERSION_MASK != HEADER_VERSION {
        return Err(WireFault::Version);
    }
    if body.is_empty() {
        return Err(WireFault::Empty);
    }
    if body.len() > unit.bytes() {
        return Err(WireFault::TooLong);
    }
    let head = Head {
        dest: *dest,
        source: *source,
        som: flags >> SOM_BIT & 1 == 1,
        eom: flags >> EOM_BIT & 1 == 1,
        seq: flags >> SEQ_SHIFT & SEQ_MASK,
        to: flags >> TO_BIT & 1 == 1,
        tag: flags & TAG_MASK,
    };
    Ok(Packet { head, body })
}

/// Returns the fourth byte of a head.
fn flags_byte(head: &Head) -> u8
    requires { IsHead head.now }
    ensures { result ≡ flags_of head.now }
{
    (u8::from(head.som) << SOM_BIT)
        + (u8::from(head.eom) << EOM_BIT)
        + (head.seq << SEQ_SHIFT)
        + (u8::from(head.to) << TO_BIT)
        + head.tag
}

/// Encodes a packet into `out`, replacing its content, with reserved bits 0 (DSP0236, section 8.1).
pub fn encode(head: &Head, body: &[u8], out: &mut RawPacket)
    requires body { (1 ≤ length body.now) × (length body.now ≤ MAX_BODY) }
    requires head { IsHead head.now }
    ensures { out.new.items ≡ packet_bytes head.now body.now }
{
    out.clear();
    out.push(HEADER_VERSION);
    out.push(head.dest);
    out.push(head.source);
    out.push(flags_byte(head));
    let _ = out.try_extend_from_slice(body);
}
