//! Tests of the device and its banks.

/// GetStatus, and its reply: state, previous state, aux, its status, and the reason.
macro_rules! status {
    ($state:expr, $previous:expr, $aux:expr, $aux_status:expr, $reason:expr) => {
        Ask(
            0x1B,
            &[],
            &[
                0,
                $state,
                $previous,
                $aux,
                $aux_status,
                0x65,
                $reason,
                0,
                0,
                0,
                0,
            ],
        )
    };
}

mod banks;
mod components;
mod failures;
mod memory;
mod replies;
mod setup;
mod updates;
