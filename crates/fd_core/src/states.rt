//! The states of a device in an update (DSP0267 1.0, "GetStatus").

use thiserror::Error;

/// A device's state, with its number in GetStatus.
#[derive(Clone, Copy, PartialEq, Eq)]
pub enum State {
    /// No update is in progress.
    Idle = 0,
    /// LEARN COMPONENTS: the components of the update are being passed.
    Learn = 1,
    /// READY XFER: all components are known, and none is being updated.
    Ready = 2,
    /// The image of a component is being transferred.
    Download = 3,
    /// The image is whole and is being verified.
    Verify = 4,
    /// The image is verified and is being applied.
    Apply = 5,
    /// The applied images became active.
    Activate = 6,
}

/// The progress of DOWNLOAD, VERIFY or APPLY.
#[derive(Clone, Copy, PartialEq, Eq)]
pub enum Progress {
    /// It is in progress.
    InProgress,
    /// It succeeded, and the device has to report it.
    Succeeded,
    /// It failed.
    Failed {
        /// The agent answered the report of the failure.
        reported: bool,
    },
}

/// The reason why a device is idle, with its number in GetStatus.
#[derive(Clone, Copy, PartialEq, Eq)]
pub enum Reason {
    /// It was started.
    Initialization = 0,
    /// It activated images.
    Activation = 1,
    /// The update was cancelled.
    Cancelled = 2,
    /// It timed out in LEARN COMPONENTS.
    TimeOutInLearn = 3,
    /// It timed out in READY XFER.
    TimeOutInReady = 4,
    /// It timed out in DOWNLOAD.
    TimeOutInDownload = 5,
    /// It timed out in VERIFY.
    TimeOutInVerify = 6,
    /// It timed out in APPLY.
    TimeOutInApply = 7,
}

/// The result of the device's own tests of an image.
#[derive(Clone, Copy, PartialEq, Eq)]
pub enum Verdict {
    /// The image is valid.
    VerifyOk,
    /// The image isn't valid.
    VerifyFail,
    /// The image can be applied: it becomes active next.
    ApplyOk,
    /// The image can't be applied.
    ApplyFail,
}

/// The device doesn't wait for the verdict: it isn't in its state, or has had one.
#[derive(Clone, Copy, Debug, PartialEq, Eq, Error)]
#[error("NotNow")]
pub struct NotNow;
