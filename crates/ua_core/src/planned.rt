//! The components of an update.

ghost use Rattle.std.specs.Prelude.{◌≡◌, ◌∷◌, [], MatchOption};

use arrayvec::ArrayVec;
use fw_package::PLAN_LIMIT;

/// A component of the plan.
#[derive(Clone, Copy, Default, PartialEq, Eq)]
pub struct Planned {
    /// The component's number in the package, from 0 on.
    pub component: usize,
    /// The index among several components of its classification in the device, from the device's
    /// own parameters; 0 until they are received, and if they don't name the component.
    pub index: u8,
}

/// Components of a plan, in its order.
pub type PlannedList = ArrayVec<Planned, PLAN_LIMIT>;

/// The parts of an update that are fixed once the device is known.
#[derive(Drop)]
pub struct UpdateJob {
    /// The number of the package's record for the device.
    pub chosen: usize,
    /// The components to send.
    pub plan: PlannedList,
}

/// A component that a device applied.
#[derive(Clone, Copy, PartialEq, Eq)]
pub struct Recorded {
    /// The number of the package, as given to `Session::start`.
    pub package: usize,
    /// The component's number in the package, from 0 on.
    pub component: usize,
}

/// Removes and returns the first component of a list.
pub fn take_first(list: &mut PlannedList) -> Option<Planned>
    ensures { MatchOption result ((list.old.items ≡ []) × (list.new.items ≡ []))
        (λ first. list.old.items ≡ first ∷ list.new.items) }
{
    if list.is_empty() {
        return None;
    }
    Some(list.remove(0))
}
