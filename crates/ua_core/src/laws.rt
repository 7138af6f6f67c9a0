//! Laws of every session, for any behaviour of the device.

ghost use Rattle.ua_core.specs.Laws.{AppliesAll, ChoosesRecord, LearnsAllAppliedNowhere, LearnsInPlan, LearnsNoRecord, OutsideUpdateRecordsNothing, PlanHasKeysOnce, RecordsGoodApply, RecordsGrow, RecordsInApply, RefusalsKeepTheSession, RefusalsRecordNothing, RefusalsKeepSessionIdle, ServesInPlan, WindowContinues, WishStands};

/// A successful ApplyComplete in Apply adds a record of the component being updated. A command in
/// any other state adds none, and neither does an answer, nor a command after which the session is
/// in Idle, Query, Done, Cancelling or Failed.
pub fn records_what_is_applied()
    ensures grow { RecordsGrow }
    ensures applying { RecordsInApply }
    ensures applied { RecordsGoodApply }
    ensures loose { OutsideUpdateRecordsNothing }
    ensures learnt { LearnsNoRecord }
{}

/// A command of the device takes a session to AllApplied only while its last component is being
/// applied. No answer takes it there.
pub fn applies_all()
    ensures served { AppliesAll }
    ensures learnt { LearnsAllAppliedNowhere }
{}

/// While a session has a pending command, the device's commands leave the session and its pending
/// command as they are.
pub fn wish_stands()
    ensures { WishStands }
{}

/// A command that a session refuses leaves it as it is: nothing is recorded, and the count of idle
/// ticks continues.
pub fn refusals_change_nothing()
    ensures kept { RefusalsKeepTheSession }
    ensures recorded { RefusalsRecordNothing }
    ensures idle { RefusalsKeepSessionIdle }
{}

/// The component being updated and those to do are in the package's plan for the device, whose keys
/// are different.
pub fn stays_in_plan()
    ensures serves { ServesInPlan }
    ensures learns { LearnsInPlan }
    ensures chosen { ChoosesRecord }
    ensures keys { PlanHasKeysOnce }
{
    fw_package::plans_named_images();
}

/// Consecutive pieces continue the image: cut to its size, they are its beginning.
pub fn pieces_continue()
    ensures { WindowContinues }
{}
