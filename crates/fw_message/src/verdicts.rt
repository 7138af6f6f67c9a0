//! Verdicts on the image that a device has written, and the image that a verdict applies.

ghost use Rattle.std.specs.Prelude.{[], ◌≡◌, ◌≤◌, ◌∷◌, Bool, IfSome, None, is_some, length, map, option_to_list, vec_capacity};
ghost use Rattle.fd_core.specs.Images.{applied_of, row_of};
ghost use Rattle.fd_core.specs.States.{staged_of};
ghost use Rattle.fd_core.specs.Steps.{device_verdict};
ghost use Rattle.fd_core.specs.Wishes.{has_failed};
ghost use Rattle.fw_message.specs.Entries.{keyed_image_of};
ghost use Rattle.fw_message.specs.Nodes.{room_of};

use crate::entry::Image;
use crate::lending::image_in;
use fd_core::{Bank, Device, Key, Progress, State, Verdict};
use fw_package::Package;

/// Whether a device waits for this verdict: VERIFY and APPLY wait for one each, while in progress.
pub fn awaits<B: Bank>(device: &Device<B>, verdict: Verdict) -> bool
    ensures { (works : Bool) → is_some (device_verdict device.now.device verdict works) ≡ result }
{
    let progress = device.progress();
    match device.state() {
        State::Verify => matches!(
            (progress, verdict),
            (
                Some(Progress::InProgress),
                Verdict::VerifyOk | Verdict::VerifyFail
            )
        ),
        State::Apply => matches!(
            (progress, verdict),
            (
                Some(Progress::InProgress),
                Verdict::ApplyOk | Verdict::ApplyFail
            )
        ),
        _ => false,
    }
}

/// Returns the bytes of the image that a verdict applies: those staged for ApplyOk, else 0.
pub fn room_for<B: Bank>(device: &Device<B>, verdict: Verdict) -> usize
    ensures exact { result ≡ room_of verdict (staged_of device.now.device.phase) }
    ensures enough { verdict ≡ Verdict.ApplyOk → IfSome (staged_of device.now.device.phase) (λ s. s.1 ≤ result) }
{
    match (verdict, device.staged()) {
        (Verdict::ApplyOk, Some((_, size))) => size as usize,
        _ => 0,
    }
}

/// Returns the image that is applied for a component, copied into `room` unless a package has its
/// bytes. `None` if there is no image, or the room is too small. The room must be empty.
pub fn copied<'a, B: Bank>(
    packages: &'a [Package<'a>],
    bank: &B,
    key: Key,
    room: Vec<u8>,
) -> Option<Image<'a>>
    requires { room.items ≡ [] }
    ensures whole { IfSome (applied_of (row_of (B.rows bank.now) key)) (λ image. length image.bytes ≤ vec_capacity room
        → map keyed_image_of (option_to_list result) ≡ record { key = key; bytes = image.bytes } ∷ []) }
    ensures none { applied_of (row_of (B.rows bank.now) key) ≡ None → result ≡ None }
{
    let (_, image) = bank.applied(key)?;
    image_in(packages, key, image, room)
}

/// Whether the work of the device's state failed.
pub fn has_failed<B: Bank>(device: &Device<B>) -> bool
    ensures { result ≡ has_failed device.now.device.phase }
{
    matches!(device.progress(), Some(Progress::Failed { .. }))
}
