//! The sizes of the pieces of an image that a device requests.

ghost use Rattle.std.specs.Prelude.{◌≡◌, ◌≤◌};
ghost use Rattle.fwup_wire.specs.Transfers.{transfer_size};

use mctp_wire::Unit;
use pldm_base::MAX_REPLY;

/// The fewest bytes of an image that a device requests at once, and that an agent may send (DSP0267
/// 1.0, the baseline transfer size).
pub const MIN_TRANSFER: usize = 32;

/// The most bytes of an image that a device requests at once, and that an agent sends, at the
/// greatest transmission unit: the greatest multiple of 16 that the longest reply holds after its
/// code.
pub const MAX_TRANSFER: usize = (MAX_REPLY - 1) / 16 * 16;

/// Returns the most bytes of an image that a device requests at once, and that an agent sends
/// (DSP0267 1.0, RequestUpdate's maximum transfer size): the greatest multiple of 16 that a reply
/// of this transmission unit holds after its code.
pub fn transfer_size(unit: Unit) -> usize
    ensures value { result ≡ transfer_size unit }
    ensures most { (MIN_TRANSFER ≤ result) × (result ≤ MAX_TRANSFER) }
{
    match unit {
        Unit::U64 => 240,
        Unit::U128 => MAX_TRANSFER,
    }
}
