//! The names of states in a report.

ghost use Rattle.std.specs.Prelude.{◌≡◌};
ghost use Rattle.fw_script.specs.Reports.{cause_name, session_name, session_text, state_name};

use fd_core::State;
use ua_core::{Cause, SessionState};

/// Returns the name of a device's state (DSP0267 1.0, "Firmware device state machine").
pub fn state_name(state: State) -> &'static str
    ensures { result.now ≡ state_name state }
{
    match state {
        State::Idle => "IDLE",
        State::Learn => "LEARN",
        State::Ready => "READY",
        State::Download => "DOWNLOAD",
        State::Verify => "VERIFY",
        State::Apply => "APPLY",
        State::Activate => "ACTIVATE",
    }
}

/// Returns the name of the cause of a failed session.
pub fn cause_name(cause: Cause) -> &'static str
    ensures { result.now ≡ cause_name cause }
{
    match cause {
        Cause::Silent => "Silent",
        Cause::TimeOut => "TimeOut",
        Cause::NoRecord => "NoRecord",
        Cause::Plan => "Plan",
        Cause::NothingToUpdate => "NothingToUpdate",
        Cause::Answer => "Answer",
        Cause::Refused => "Refused",
        Cause::Transfer => "Transfer",
        Cause::Verify => "Verify",
        Cause::Apply => "Apply",
    }
}

/// The name of a session that failed with this cause.
fn failure_name(cause: Cause) -> &'static str
    ensures { result.now ≡ session_name (SessionState.Failed cause) }
{
    match cause {
        Cause::Silent => "Failed:Silent",
        Cause::TimeOut => "Failed:TimeOut",
        Cause::NoRecord => "Failed:NoRecord",
        Cause::Plan => "Failed:Plan",
        Cause::NothingToUpdate => "Failed:NothingToUpdate",
        Cause::Answer => "Failed:Answer",
        Cause::Refused => "Failed:Refused",
        Cause::Transfer => "Failed:Transfer",
        Cause::Verify => "Failed:Verify",
        Cause::Apply => "Failed:Apply",
    }
}

/// Returns the name of a session's state, with the cause if it failed.
pub fn session_name(state: SessionState) -> &'static str
    ensures { result.now ≡ session_name state }
{
    match state {
        SessionState::Idle => "Idle",
        SessionState::Query => "Query",
        SessionState::Params => "Params",
        SessionState::ClearOld => "ClearOld",
        SessionState::Request => "Request",
        SessionState::Pass => "Pass",
        SessionState::Update => "Update",
        SessionState::Download => "Download",
        SessionState::Verify => "Verify",
        SessionState::Apply => "Apply",
        SessionState::AllApplied => "AllApplied",
        SessionState::Activate => "Activate",
        SessionState::Done => "Done",
        SessionState::Cancelling => "Cancelling",
        SessionState::Failed(cause) => failure_name(cause),
    }
}

/// The name of the state of the session with a device, or a dash if there is none.
pub(crate) fn session_text(session: Option<SessionState>) -> &'static str
    ensures { result.now ≡ session_text session }
{
    match session {
        Some(state) => session_name(state),
        None => "-",
    }
}
