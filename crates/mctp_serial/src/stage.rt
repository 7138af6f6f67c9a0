//! Where in a frame a reader is.

/// Where in a frame a reader is.
#[derive(Clone, Copy, Drop)]
pub(crate) enum Stage {
    /// Between frames.
    Idle,
    /// After a flag.
    Opened,
    /// After the revision.
    Revised,
    /// In the data.
    Filling,
    /// In the data, after the byte that begins an escape sequence.
    Escaped,
    /// Before the high byte of the check sequence.
    High,
    /// Before the low byte of the check sequence.
    Low,
    /// Before the flag that ends the frame.
    Closing,
    /// In bytes that are no frame, until the next flag.
    Lost,
}
