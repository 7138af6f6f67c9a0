//! The laws of every run of messages.

ghost use Rattle.fw_message.specs.BankCalls.{PairStepsDependOnCalls};
ghost use Rattle.fw_message.specs.Cases.{HistoriesAreJudged};
ghost use Rattle.fw_message.specs.Laws.{MessagesAreSafe};
ghost use Rattle.fw_message.specs.RunLaws.{MessageRunsGrow, MessageRunsJoin, MessageRunsStayTied};
ghost use Rattle.fw_message.specs.WorldCases.{MessageWorldsAreJudged};
ghost use Rattle.fw_message.specs.WorldLaws.{WorldsAreSafe, WorldsStaySafe};

/// Every run of messages between an agent and a device keeps the history of the device safe and
/// tied. Safe: the device activates the images of one package for it, each recorded before, and
/// each record has an application before it. Tied: the images that run and the agent's records are
/// those of the history.
pub fn messages_are_safe()
    ensures law { MessagesAreSafe }
{
    ua_core::stays_in_plan();
    ua_core::pieces_continue();
    fw_package::plans_named_images();
}

/// The same law for an agent and all its devices: every run keeps the history of each device safe
/// and tied, and so does each run that continues another.
pub fn worlds_are_safe()
    ensures law { WorldsAreSafe }
    ensures on { WorldsStaySafe }
{
    ua_core::stays_in_plan();
    ua_core::pieces_continue();
    fw_package::plans_named_images();
}

/// Any two moments of a run: a run followed by a run is a run, and the history only grows. The
/// running images of a device and the agent's records of it at the later moment are those of the
/// earlier moment, changed by the entries between them.
pub fn runs_stay_tied()
    ensures join { MessageRunsJoin }
    ensures grow { MessageRunsGrow }
    ensures tied { MessageRunsStayTied }
{
    worlds_are_safe();
}

/// The definitions of a safe and of a tied history, tested by hand: both accept the worked update
/// at each moment, and refuse each history that they must refuse.
pub fn histories_are_judged()
    ensures { HistoriesAreJudged }
{}

/// The definitions of two tied moments, of a step that needs memory and of a step that calls a
/// bank, tested by hand: they accept the worked update, and refuse each variant that differs from
/// it in one point.
pub fn message_worlds_are_judged()
    ensures { MessageWorldsAreJudged }
{}

/// The effect of a step that may be taken depends on whether the bank works exactly if the step
/// calls the bank.
pub fn bank_calls_decide()
    ensures { PairStepsDependOnCalls }
{}
