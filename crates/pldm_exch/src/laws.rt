//! Laws for the layers above: callers and answerers over any number of calls and ticks.

ghost use Rattle.pldm_exch.specs.Laws.{AnswersAreKept, AnswersStayLawful, CallersStayLawful, EightRequestsRest, KeptChange, OpenRequestsRepeat, RepeatsAnswerTheRequest, RestsChange, RestsOutlastSendings};

/// After any calls, an open request is the last that began, unanswered and at most 17 ticks old.
/// Its tag rests 40 ticks less those since its last sending. The number stays below 32, and the
/// eight rests are at most 40.
pub fn callers_stay_lawful()
    ensures { CallersStayLawful }
{}

/// A tag's rest ends at least 40 ticks after the last sending under it, whatever calls are made.
pub fn rests_outlast_sendings()
    ensures { RestsOutlastSendings }
{}

/// Sending under a tag sets its rest to 40, a tick lowers each other rest by one, and nothing else
/// changes a rest.
pub fn rests_change()
    ensures { RestsChange }
{}

/// A request without an answer is sent as it begins, in the sixth tick and in the twelfth, and
/// given up in the 18th.
pub fn open_requests_repeat()
    ensures { OpenRequestsRepeat }
{}

/// Eight requests, one begun and answered in each of eight ticks, leave the rests 33 to 40.
pub fn eight_requests_rest()
    ensures { EightRequestsRest }
{}

/// After any calls, each kept answer has the tag of its place and its identifier, and is at most 24
/// ticks old.
pub fn answers_stay_lawful()
    ensures { AnswersStayLawful }
{}

/// A repeated answer has the tag and the identifier of the repeated request.
pub fn repeats_answer_the_request()
    ensures { RepeatsAnswerTheRequest }
{}

/// An answer is kept for 24 ticks, and no longer.
pub fn answers_are_kept()
    ensures { AnswersAreKept }
{}

/// An answer replaces the one that its tag kept, a tick ages the kept answers, and nothing else
/// changes them.
pub fn kept_change()
    ensures { KeptChange }
{}
