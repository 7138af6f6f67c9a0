//! The states of a session.

ghost use Rattle.std.specs.Prelude.{◌≡◌};
ghost use Rattle.ua_core.specs.Session.{cause_number, is_failed_state, is_free_state};

use thiserror::Error;

/// Why a session failed.
#[derive(Clone, Copy, Debug, PartialEq, Eq, Error)]
pub enum Cause {
    /// The device gave no answer.
    #[error("Silent")]
    Silent = 1,
    /// Nothing changed for `IDLE_LIMIT` ticks.
    #[error("TimeOut")]
    TimeOut = 2,
    /// The package has no record for the device.
    #[error("NoRecord")]
    NoRecord = 3,
    /// The record's components can't be sent.
    #[error("Plan")]
    Plan = 4,
    /// The package names no component for the device, or the device accepts none.
    #[error("NothingToUpdate")]
    NothingToUpdate = 5,
    /// The device answered with an unexpected code, or with bytes that are no answer.
    #[error("Answer")]
    Answer = 6,
    /// The device refused a component.
    #[error("Refused")]
    Refused = 7,
    /// The transfer of the image failed.
    #[error("Transfer")]
    Transfer = 8,
    /// The device failed to verify the image.
    #[error("Verify")]
    Verify = 9,
    /// The device failed to apply the image.
    #[error("Apply")]
    Apply = 10,
}

impl Cause {
    /// Returns the cause's number, from 1 on in the order of the causes.
    pub fn number(self) -> u8
        ensures { result ≡ cause_number self }
    {
        self as u8
    }
}

/// A session's state.
#[derive(Clone, Copy, Debug, PartialEq, Eq)]
pub enum SessionState {
    /// No update is in progress.
    Idle,
    /// Requests the device's descriptors.
    Query,
    /// Requests the device's components.
    Params,
    /// Ends an earlier update of the device.
    ClearOld,
    /// Requests the update.
    Request,
    /// Passes the components to the device, one by one.
    Pass,
    /// Offers a component.
    Update,
    /// Serves the component's image.
    Download,
    /// The device verifies the image.
    Verify,
    /// The device applies the image.
    Apply,
    /// All components to do are applied and recorded.
    AllApplied,
    /// Requests the activation.
    Activate,
    /// The device activated the applied components.
    Done,
    /// Requests the device to end the update.
    Cancelling,
    /// The update failed.
    Failed(Cause),
}

impl SessionState {
    /// Returns whether a session in this state may start an update.
    pub fn is_free(self) -> bool
        ensures { result ≡ is_free_state self }
    {
        matches!(
            self,
            SessionState::Idle | SessionState::Done | SessionState::Failed(_)
        )
    }

    /// Returns whether a session in this state has failed.
    pub(crate) fn is_failed(self) -> bool
        ensures { result ≡ is_failed_state self }
    {
        matches!(self, SessionState::Failed(_))
    }
}
