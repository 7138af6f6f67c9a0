//! Runs steps of a lane, in order.

ghost use Rattle.std.specs.Prelude.{◌≡◌, ◌<◌, IfErr, IsSomeAnd, OnOk, length, slice_get, take};
ghost use Rattle.exch_lane.specs.Lanes.{lane_step_of, lane_steps_of};
ghost use Rattle.exch_lane.specs.Laws.{KeepsItsCell};
ghost use Rattle.exch_lane.specs.Steps.{IsCause, MayRun, lane_run};

use crate::lane::Lane;
use crate::laws::lane_is_a_cell;
use crate::step::{LaneFault, LaneStep};

/// Takes steps in order, up to the first that the lane refuses. If steps from a new lane gave this
/// lane, its cell continues with it through the steps taken here: it is never stuck, and its
/// history is the lane's.
///
/// # Errors
/// Returns the number of steps that were taken, and the fault of the next one. The lane is that
/// after those steps.
pub fn lane_replay(lane: &mut Lane, steps: &[LaneStep]) -> Result<(), (usize, LaneFault)>
    ensures ok { OnOk result (MayRun lane.old (lane_steps_of steps.now)
        × (lane.new ≡ lane_run lane.old (lane_steps_of steps.now))) }
    ensures stopped { IfErr result (λ e. (e.0 < length steps.now) × MayRun lane.old (lane_steps_of (take e.0 steps.now))
        × (lane.new ≡ lane_run lane.old (lane_steps_of (take e.0 steps.now)))
        × IsSomeAnd (slice_get steps.now e.0) (λ s. IsCause lane.new (lane_step_of s) e.1)) }
    ensures cell { OnOk result (KeepsItsCell lane.old (lane_steps_of steps.now) lane.new) }
    ensures cell_so_far { IfErr result (λ e. KeepsItsCell lane.old (lane_steps_of (take e.0 steps.now)) lane.new) }
{
    lane_is_a_cell();
    for (number, step) in steps.iter().enumerate() {
        if let Err(fault) = lane.step(step) {
            return Err((number, fault));
        }
    }
    Ok(())
}
