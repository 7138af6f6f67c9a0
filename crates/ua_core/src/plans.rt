//! The plan of an update, from a device's answers about itself.

ghost use Rattle.std.specs.Prelude.{◌≡◌, ◌≤◌, length, map};
ghost use Rattle.ua_core.specs.Learn.{index_of, unlearnt, with_index};

use crate::lent::{Lent, key};
use crate::planned::{Planned, PlannedList};
use fwup_wire::{Key, Parameters};

/// Returns the components of a plan, before the device's parameters are received.
pub fn unlearnt(numbers: &[usize]) -> PlannedList
    requires { length numbers.now ≤ 8 }
    ensures { result.items ≡ map unlearnt numbers.now }
{
    let mut plan = PlannedList::new();
    for number in numbers {
        plan.push(Planned {
            component: *number,
            index: 0,
        });
    }
    plan
}

/// Returns the components of a plan with their indexes in the device.
pub fn indexed(plan: &[Planned], lent: &Lent<'_>, devices: &Parameters<'_>) -> PlannedList
    requires { length plan.now ≤ 8 }
    ensures { result.items ≡ map (with_index lent.now devices.now) plan.now }
{
    let mut learnt = PlannedList::new();
    for planned in plan {
        learnt.push(Planned {
            component: planned.component,
            index: index_of(devices, key(lent.component(planned.component))),
        });
    }
    learnt
}

/// Returns the index of the component with this key in the device, 0 if the device doesn't name it.
fn index_of(devices: &Parameters<'_>, key: Key) -> u8
    ensures { result ≡ index_of devices.now key }
{
    for device in devices.iter() {
        if device.key == key {
            return device.index;
        }
    }
    0
}
